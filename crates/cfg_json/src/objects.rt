//! The members of the outer object (RFC 8259, section 4).
ghost use Rattle.std.specs.Prelude.{◌≡◌, length, option_map};
ghost use Rattle.cfg_json.specs.Reads.{Reads};
ghost use Rattle.cfg_json.specs.ReadingObjects.{text_from, number_value_at, text_value_at, nested_value_at, word_value_at, member_value_at, member_at, member_turn_at, members_at, object_at};

use crate::member::{Member, MemberValue};
use crate::nesting::{read_key, skip_value};
use crate::numbers::{skip_number, skip_word};
use crate::strings::{read_string, utf8_text};
use crate::text::JsonText;
use crate::white_space::skip_white_space;
use cfg_types::JsonError;
use std::alloc::Global;

/// How deep values nest inside the outer object: 128 levels in all, its own taken. Each level is a call, so that the
/// depth of a text has to have an end.
const INNER_DEPTH: u8 = 127;

/// Room is made at once for a member of so many bytes each, so that a list seldom moves as it grows.
const MEMBER_BYTES: usize = 32;

#[tactic(auto, unfolding(crate::specs::ReadingObjects::text_from))]
fn text_of_bytes<'t>(bytes: &'t [u8]) -> Option<JsonText<'t>>
    ensures { result ≡ text_from bytes.now }
{
    let text = utf8_text(bytes)?;
    Some(JsonText::of(text))
}

#[tactic(auto, unfolding(crate::specs::ReadingObjects::number_value_at))]
fn read_number<'t>(text: &'t [u8]) -> Result<(MemberValue<'t>, &'t [u8]), JsonError>
    ensures { Reads (λ p. (p.0, p.1.now)) result (number_value_at text.now) }
{
    let Some(rest) = skip_number(text) else {
        return Err(JsonError::Syntax);
    };
    let length = text.len().saturating_sub(rest.len());
    let Some(number) = text_of_bytes(text.split_at(length).0) else {
        return Err(JsonError::Syntax);
    };
    Ok((MemberValue::Number(number), rest))
}

#[tactic(auto, unfolding(crate::specs::ReadingObjects::text_value_at))]
fn read_text<'t>(alloc: Global, text: &'t [u8]) -> Result<(MemberValue<'t>, &'t [u8]), JsonError>
    ensures { Reads (λ p. (p.0, p.1.now)) result (text_value_at text.now) }
{
    let (text, rest) = read_string(alloc, text)?;
    Ok((MemberValue::Text(text), rest))
}

#[tactic(auto, unfolding(crate::specs::ReadingObjects::nested_value_at))]
fn read_nested<'t>(
    text: &'t [u8],
    total: usize,
    keyed: bool,
) -> Result<(MemberValue<'t>, &'t [u8]), JsonError>
    ensures { Reads (λ p. (p.0, p.1.now)) result (nested_value_at total keyed text.now) }
{
    let Some((has_object, rest)) = skip_value(text, INNER_DEPTH) else {
        return Err(JsonError::Syntax);
    };
    if keyed {
        let from = total.saturating_sub(text.len());
        let to = total.saturating_sub(rest.len());
        Ok((MemberValue::Object { from, to }, rest))
    } else {
        Ok((MemberValue::Array { has_object }, rest))
    }
}

#[tactic(auto, unfolding(crate::specs::ReadingObjects::member_value_at, crate::specs::ReadingObjects::word_value_at))]
fn read_value<'t>(
    alloc: Global,
    text: &'t [u8],
    total: usize,
) -> Result<(MemberValue<'t>, &'t [u8]), JsonError>
    ensures { Reads (λ p. (p.0, p.1.now)) result (member_value_at total text.now) }
{
    let Some((x, inside)) = text.split_first() else {
        return Err(JsonError::Syntax);
    };
    if *x == b'"' {
        return read_text(alloc, inside);
    }
    if *x == b'{' || *x == b'[' {
        return read_nested(text, total, *x == b'{');
    }
    if let Some(rest) = skip_word(text) {
        return Ok((MemberValue::Other, rest));
    }
    read_number(text)
}

#[tactic(auto, unfolding(crate::specs::ReadingObjects::member_at))]
fn read_member<'t>(
    alloc: Global,
    text: &'t [u8],
    total: usize,
) -> Result<(Member<'t>, &'t [u8]), JsonError>
    ensures { Reads (λ p. (p.0, p.1.now)) result (member_at total text.now) }
{
    let (key, rest) = read_key(alloc, text)?;
    let (value, rest) = read_value(alloc, skip_white_space(rest), total)?;
    Ok((Member { key, value }, skip_white_space(rest)))
}

#[tactic(auto, unfolding(crate::specs::ReadingObjects::member_turn_at))]
fn read_turn<'t>(
    alloc: Global,
    text: &'t [u8],
    total: usize,
) -> Result<(Member<'t>, bool, &'t [u8]), JsonError>
    ensures { Reads (λ p. (p.0, p.1, p.2.now)) result (member_turn_at total text.now) }
{
    let (member, after) = read_member(alloc, text, total)?;
    let Some((x, next)) = after.split_first() else {
        return Err(JsonError::Syntax);
    };
    if *x == b'}' {
        Ok((member, true, next))
    } else if *x == b',' {
        Ok((member, false, next))
    } else {
        Err(JsonError::Syntax)
    }
}

fn read_members<'t>(
    alloc: Global,
    text: &'t [u8],
    total: usize,
) -> Result<(Vec<Member<'t>>, &'t [u8]), JsonError>
    ensures { Reads (λ p. (p.0.items, p.1.now)) result (members_at total (length text.now) text.now) }
{
    let mut members = Vec::with_capacity(alloc, text.len() / MEMBER_BYTES + 1)?;
    let mut rest = text;
    for _ in 0..text.len() {
        let (member, ends, next) = match read_turn(alloc, rest, total) {
            Ok(turn) => turn,
            Err(e) => return Err(e),
        };
        members.push(member)?;
        if ends {
            return Ok((members, next));
        }
        rest = next;
    }
    Err(JsonError::Syntax)
}

/// The members of the object whose opening brace was read, and what follows it. The text is the end of so
/// many bytes in total: the places of members that are objects are counted from the first of these.
/// `Syntax` where there is no such object, `OutOfMemory` where memory runs out.
#[tactic(auto, unfolding(crate::specs::ReadingObjects::object_at))]
pub fn read_object<'t>(
    alloc: Global,
    text: &'t [u8],
    total: usize,
) -> Result<(Vec<Member<'t>>, &'t [u8]), JsonError>
    ensures { Reads (λ p. (p.0.items, p.1.now)) result (object_at total text.now) }
{
    let Some((x, rest)) = skip_white_space(text).split_first() else {
        return Err(JsonError::Syntax);
    };
    if *x == b'}' {
        return Ok((Vec::new(alloc), rest));
    }
    read_members(alloc, text, total)
}
