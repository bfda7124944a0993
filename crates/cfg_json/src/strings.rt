//! Strings (RFC 8259, section 7).
ghost use Rattle.std.specs.Prelude.{◌≡◌, ◌<◌, ◌≤◌, ◌++◌, ◌∷◌, [], ◌==◌, if◌then◌else◌, length, take, IfSome, IfOk, OnOk, MatchOption, false, true, is_some, Some, None, option_map, string_bytes};
ghost use Rattle.std.specs.Char.{encode_utf8};
ghost use Rattle.std.specs.List.{list_all, prefix_len};
ghost use lib.Utf8.{scalar};
ghost use Rattle.cfg_base.specs.Text.{characters};
ghost use Rattle.cfg_json.specs.Ascii.{quotation_mark, backslash};
ghost use Rattle.cfg_json.specs.Reads.{Reads};
ghost use Rattle.cfg_json.specs.Characters.{is_plain as is_plain_character};
ghost use Rattle.cfg_json.specs.Reading.{end_of, plain_end as plain_end_of, content_of, utf8_of, text_of, string_at};
ghost use Rattle.cfg_json.specs.Scans.{ReadsNothing, ReadsOn, StopsAt, SkipsString};

use crate::escapes::escape;
use crate::scan::plain_run;
use crate::text::JsonText;
use cfg_types::{JsonError, OutOfMemory, Text};
use std::alloc::{AllocError, Global};

// How far the byte reaches: what stands behind a backslash ends no string.
fn reach(byte: u8) -> usize
    ensures value { result ≡ (if byte == backslash then 2 else 1) }
    ensures some { 1 ≤ result }
    ensures few { result ≤ 2 }
{
    if byte == b'\\' { 2 } else { 1 }
}

/// The place of the quotation mark that ends the string.
fn string_end(text: &[u8]) -> Option<usize>
    ensures value { result ≡ end_of false text.now }
    ensures within { IfSome result (λ n. n < length text.now) }
{
    let mut i = 0;
    while i < text.len() {
        if text[i] == b'"' {
            return Some(i);
        }
        i += reach(text[i]);
    }
    None
}

/// The place of the quotation mark that ends the string, where no escape is before it.
fn plain_end(text: &[u8]) -> Option<usize>
    ensures value { result ≡ plain_end_of text.now }
    ensures within { IfSome result (λ n. n < length text.now) }
    ensures ends { IfSome result (λ n. Some n ≡ end_of false text.now) }
    ensures plain { IfSome result (λ n. list_all is_plain_character (take n text.now) ≡ true) }
{
    let end = plain_run(text);
    if end < text.len() && text[end] == b'"' {
        Some(end)
    } else {
        None
    }
}

/// Appends the character in UTF-8. `OutOfMemory` where memory runs out.
pub fn push_character(out: &mut String, c: char) -> Result<(), OutOfMemory>
    ensures spelled { OnOk result (string_bytes out.new ≡ string_bytes out.old ++ encode_utf8 c) }
    ensures scalar { scalar c ≡ true }
{
    out.push(c)?;
    Ok(())
}

// How many bytes at the front stand for themselves. Where many escapes stand, most often none does.
fn run_at(text: &[u8]) -> usize
    ensures value { result ≡ prefix_len is_plain_character text.now }
    ensures within { result ≤ length text.now }
{
    match text {
        [b'\\', ..] => 0,
        _ => plain_run(text),
    }
}

// Appends what stands for itself. `OutOfMemory` where memory runs out.
fn push_run(out: &mut String, run: &str) -> Result<(), OutOfMemory>
    ensures { OnOk result (string_bytes out.new ≡ string_bytes out.old ++ run.now) }
{
    if run.is_empty() {
        return Ok(());
    }
    out.push_str(run)?;
    Ok(())
}

// What stands for itself at the front of a string's content, and what follows.
fn split_plain(text: &str) -> (&str, &str)
    ensures reads { ReadsOn text.now (characters result.0.now) result.1.now }
    ensures stops { StopsAt result.1.now }
    ensures within { length result.1.now ≤ length text.now }
{
    text.split_at(run_at(text.as_bytes()))
}

// The character that the escape at the front stands for, and what follows it.
fn read_escape(text: &str) -> Option<(char, &str)>
    requires some { 0 < length text.now }
    requires stops { StopsAt text.now }
    ensures reads { MatchOption result (ReadsNothing text.now) (λ p. ReadsOn text.now (p.0 ∷ []) p.1.now) }
    ensures shorter { IfSome result (λ p. length p.1.now < length text.now) }
{
    let (x, behind) = text.as_bytes().split_first()?;
    if *x != b'\\' {
        return None;
    }
    let (c, n) = escape(behind)?;
    Some((c, text.split_at(n + 1).1))
}

fn unescaped(alloc: Global, text: &str) -> Result<String, JsonError>
    ensures { Reads (λ s. characters (string_bytes s)) result (content_of 0 (characters text.now)) }
{
    // No content is longer than it is written.
    let mut out = String::with_capacity(alloc, text.len())?;
    let mut rest = text;
    loop {
        let (run, behind) = split_plain(rest);
        push_run(&mut out, run)?;
        if behind.is_empty() {
            return Ok(out);
        }
        let Some((c, after)) = read_escape(behind) else {
            return Err(JsonError::Syntax);
        };
        push_character(&mut out, c)?;
        rest = after;
    }
}

// Whether it is the content of a string.
fn is_content(text: &str) -> bool
    ensures { result ≡ is_some (content_of 0 (characters text.now)) }
{
    let mut rest = text;
    loop {
        let (_, behind) = split_plain(rest);
        if behind.is_empty() {
            return true;
        }
        let Some((_, after)) = read_escape(behind) else {
            return false;
        };
        rest = after;
    }
}

/// The characters of a text, in order. `AllocError` where memory runs out.
pub fn characters_of(alloc: Global, text: &str) -> Result<Vec<char>, AllocError>
    ensures { IfOk result (λ v. v.items ≡ characters text.now) }
{
    text.chars().collect(alloc)
}

/// The bytes as a text, if they are UTF-8.
pub fn utf8_text(bytes: &[u8]) -> Option<&str>
    ensures { option_map (λ t. t.now) result ≡ utf8_of bytes.now }
{
    match str::from_utf8(bytes) {
        Ok(text) => Some(text),
        Err(_) => None,
    }
}

#[tactic(auto, unfolding(crate::specs::Reading::text_of))]
fn content<'t>(alloc: Global, bytes: &'t [u8]) -> Result<JsonText<'t>, JsonError>
    ensures { Reads (λ t. t) result (text_of bytes.now) }
{
    let Some(text) = utf8_text(bytes) else {
        return Err(JsonError::Syntax);
    };
    let unescaped = unescaped(alloc, text)?;
    Ok(JsonText::of_own(Text::from_string(unescaped)))
}

#[tactic(auto, unfolding(crate::specs::Reading::text_of))]
fn plain_text<'t>(bytes: &'t [u8]) -> Option<JsonText<'t>>
    requires { list_all is_plain_character bytes.now ≡ true }
    ensures { result ≡ text_of bytes.now }
{
    let text = utf8_text(bytes)?;
    Some(JsonText::of(text))
}

#[tactic(auto, unfolding(crate::specs::Reading::string_at))]
fn read_escaped<'t>(alloc: Global, text: &'t [u8]) -> Result<(JsonText<'t>, &'t [u8]), JsonError>
    ensures { Reads (λ x. (x.0, x.1.now)) result (string_at text.now) }
{
    let Some(end) = string_end(text) else {
        return Err(JsonError::Syntax);
    };
    let content = content(alloc, text.split_at(end).0)?;
    Ok((content, text.split_at(end + 1).1))
}

/// The characters of the string whose first quotation mark was read, unescaped, and what follows it.
///
/// # Errors
///
/// - `Syntax`: no quotation mark ends it, it is not UTF-8, or it has a control character below 32 or an
///   escape that is none.
/// - `OutOfMemory`: memory runs out.
#[tactic(auto, unfolding(crate::specs::Reading::string_at))]
pub fn read_string<'t>(alloc: Global, text: &'t [u8]) -> Result<(JsonText<'t>, &'t [u8]), JsonError>
    ensures { Reads (λ x. (x.0, x.1.now)) result (string_at text.now) }
{
    let Some(end) = plain_end(text) else {
        return read_escaped(alloc, text);
    };
    let Some(content) = plain_text(text.split_at(end).0) else {
        return Err(JsonError::Syntax);
    };
    Ok((content, text.split_at(end + 1).1))
}

#[tactic(auto, unfolding(crate::specs::Reading::string_at, crate::specs::Reading::text_of))]
fn skip_escaped(text: &[u8]) -> Option<&[u8]>
    ensures { SkipsString text.now (option_map (λ r. r.now) result) }
{
    let end = string_end(text)?;
    let content = utf8_text(text.split_at(end).0)?;
    if !is_content(content) {
        return None;
    }
    Some(text.split_at(end + 1).1)
}

/// What follows the string whose first quotation mark was read; none where there is no such string.
#[tactic(auto, unfolding(crate::specs::Reading::string_at))]
pub fn skip_string(text: &[u8]) -> Option<&[u8]>
    ensures { SkipsString text.now (option_map (λ r. r.now) result) }
{
    let Some(end) = plain_end(text) else {
        return skip_escaped(text);
    };
    let _content = plain_text(text.split_at(end).0)?;
    Some(text.split_at(end + 1).1)
}
