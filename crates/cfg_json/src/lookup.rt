//! The last member of a name.
ghost use Rattle.std.specs.Prelude.{◌≡◌, option_map};
ghost use Rattle.cfg_json.specs.Lookups.{is_named, text_under, number_under, last_text as last_text_of, last_number as last_number_of};

use crate::member::{Member, MemberValue};
use crate::text::JsonText;

fn has_name(member: &Member, name: &str, other: &str) -> bool
    ensures { result ≡ is_named name.now other.now member.now.key }
{
    let key = member.key.as_str();
    key.eq_ignore_ascii_case(name) || key.eq_ignore_ascii_case(other)
}

fn text_of<'a, 't>(member: &'a Member<'t>, name: &str, other: &str) -> Option<&'a JsonText<'t>>
    ensures { option_map (λ t. t.now) result ≡ text_under name.now other.now member.now }
{
    if !has_name(member, name, other) {
        return None;
    }
    match &member.value {
        MemberValue::Text(text) => Some(text),
        _ => None,
    }
}

fn number_of<'a, 't>(member: &'a Member<'t>, name: &str) -> Option<&'a JsonText<'t>>
    ensures { option_map (λ t. t.now) result ≡ number_under name.now member.now }
{
    if !has_name(member, name, name) {
        return None;
    }
    match &member.value {
        MemberValue::Number(text) => Some(text),
        _ => None,
    }
}

/// The last text under a name, or under another one, without regard to the case of ASCII letters.
/// Members of another kind change nothing.
pub fn last_text<'a, 't>(
    members: &'a [Member<'t>],
    name: &str,
    other: &str,
) -> Option<&'a JsonText<'t>>
    ensures { option_map (λ t. t.now) result ≡ last_text_of name.now other.now members.now }
{
    let mut found = None;
    for member in members {
        // A later member of another kind leaves it: the last text counts, and not the last member.
        found = text_of(member, name, other).or(found);
    }
    found
}

/// The last number under a name, as it is written, without regard to the case of ASCII letters. Members of
/// another kind change nothing.
pub fn last_number<'a, 't>(members: &'a [Member<'t>], name: &str) -> Option<&'a JsonText<'t>>
    ensures { option_map (λ t. t.now) result ≡ last_number_of name.now members.now }
{
    let mut found = None;
    for member in members {
        found = number_of(member, name).or(found);
    }
    found
}
