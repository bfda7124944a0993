ghost use Rattle.std.specs.Prelude.{◌≡◌, ◌++◌, ◌∷◌, ◌≤◌, [], length, IfOk, OnOk, true, string_bytes};
ghost use Rattle.std.specs.Char.{encode_utf8};
ghost use lib.Utf8.{scalar};
ghost use Rattle.cfg_base.specs.Text.{characters};
ghost use Rattle.cfg_login_token.specs.DpopKeys.{with_line_feeds as line_feeds_in, written_and_left};

use cfg_json::JsonText;
use cfg_types::{OutOfMemory, Text};
use std::alloc::{AllocError, Global};

/// The text in which each backslash that is followed by `n` is, with it, a line feed. aws-config reads the
/// key so, after JSON's own escapes. `OutOfMemory` where memory runs out.
pub fn with_line_feeds(alloc: Global, text: &JsonText) -> Result<Text, OutOfMemory>
    ensures { IfOk result (λ t. t ≡ line_feeds_in text.now) }
{
    let all = characters_of(alloc, text.as_str())?;
    let replaced = replaced(alloc, all.as_slice())?;
    Ok(Text::from_string(replaced))
}

fn characters_of(alloc: Global, text: &str) -> Result<Vec<char>, AllocError>
    ensures { IfOk result (λ all. all.items ≡ characters text.now) }
{
    text.chars().collect(alloc)
}

fn replaced(alloc: Global, all: &[char]) -> Result<String, OutOfMemory>
    ensures { IfOk result (λ s. characters (string_bytes s) ≡ line_feeds_in all.now) }
{
    let mut out = String::new(alloc);
    let mut rest = all;
    while let Some((c, behind)) = rest.split_first() {
        rest = push_first(&mut out, *c, behind)?;
    }
    Ok(out)
}

// One character, or a line feed for two. What is left follows.
#[tactic(auto, unfolding(crate::specs::DpopKeys::with_line_feeds))]
fn push_first<'a>(out: &mut String, c: char, behind: &'a [char]) -> Result<&'a [char], OutOfMemory>
    ensures pushed { IfOk result (λ rest. written_and_left (string_bytes out.new) rest.now ≡ written_and_left (string_bytes out.old) (c ∷ behind.now)) }
    ensures shorter { IfOk result (λ rest. length rest.now ≤ length behind.now) }
{
    match behind.split_first() {
        Some((d, after)) if c == '\\' && *d == 'n' => {
            push_character(out, '\n')?;
            Ok(after)
        }
        _ => {
            push_character(out, c)?;
            Ok(behind)
        }
    }
}

fn push_character(out: &mut String, c: char) -> Result<(), OutOfMemory>
    ensures { OnOk result (characters (string_bytes out.new) ≡ characters (string_bytes out.old) ++ c ∷ []) }
{
    push_spelled(out, c)
}

fn push_spelled(out: &mut String, c: char) -> Result<(), OutOfMemory>
    ensures spelled { OnOk result (string_bytes out.new ≡ string_bytes out.old ++ encode_utf8 c) }
    ensures scalar { scalar c ≡ true }
{
    out.push(c)?;
    Ok(())
}
