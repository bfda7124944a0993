//! What stands below the line of a call, and the causes of an error.
ghost use Rattle.std.specs.Prelude.{◌≡◌, ◌++◌, OnOk};
ghost use Rattle.std.specs.List.{flat_map};
ghost use Rattle.cfg_error_report.specs.CredentialsCauses.{causes_of as causes_of_error};
ghost use Rattle.cfg_error_report.specs.TokenCauses.{token_causes_of as causes_of_token_error};
ghost use Rattle.cfg_program.specs.CauseLines.{indent, lead as lead_of, shown_cause, shown_causes};
ghost use Rattle.percent_encoding.specs.Percent.{percent_encode_byte as percent_encode_byte_of};
ghost use Rattle.cfg_program.specs.Escapes.{escaped_in_line, is_control as is_control_character, turns_direction as turns_direction_of, line_character, line_text};

use cfg_error_report::{CauseLine, LineKind, causes_of, token_causes_of};
use cfg_types::{CredentialsError, OutOfMemory, TokenError};
use percent_encoding::percent_encode_byte;
use std::alloc::AllocError;

/// What stands below the line of a call.
#[derive(Clone, Copy, Debug, PartialEq, Eq)]
pub enum Below {
    /// Nothing.
    Nothing,
    /// What an error comes of and what was asked before it, and why a call of a chain of credentials gave its
    /// credentials.
    Causes,
}

/// Writes what an error comes of, from the outside in: each text on a line of its own, two spaces deeper than
/// the error's line, and for each level of a chain's members two spaces more; a detail of a text two spaces
/// deeper than the text. Of control characters, of those that
/// turn the direction of a text (U+202A to U+202E and U+2066 to U+2069) and of `%` each byte is `%` and two
/// hexadecimal digits. `OutOfMemory` where memory runs out.
pub fn write_causes(lines: &mut Vec<u8>, error: &CredentialsError) -> Result<(), OutOfMemory>
    ensures { OnOk result (lines.new.items ≡ lines.old.items ++ shown_causes (causes_of_error error.now)) }
{
    let causes = causes_of(*lines.allocator(), error)?;
    write_lines(lines, causes.lines())?;
    Ok(())
}

/// Writes what an error of tokens comes of, as [`write_causes`] writes it of an error of credentials. `OutOfMemory`
/// where memory runs out.
pub fn write_token_causes(lines: &mut Vec<u8>, error: &TokenError) -> Result<(), OutOfMemory>
    ensures { OnOk result (lines.new.items ≡ lines.old.items ++ shown_causes (causes_of_token_error error.now)) }
{
    let causes = token_causes_of(*lines.allocator(), error)?;
    write_lines(lines, causes.lines())?;
    Ok(())
}

fn write_lines(lines: &mut Vec<u8>, causes: &[CauseLine]) -> Result<(), AllocError>
    ensures { OnOk result (lines.new.items ≡ lines.old.items ++ shown_causes causes.now) }
{
    for cause in causes {
        write_cause(lines, cause)?;
    }
    Ok(())
}

fn write_cause(lines: &mut Vec<u8>, cause: &CauseLine) -> Result<(), AllocError>
    ensures { OnOk result (lines.new.items ≡ lines.old.items ++ shown_cause cause.now) }
{
    lines.extend_from_slice(lead(cause.kind()))?;
    write_indent(lines, cause.depth())?;
    write_escaped(lines, cause.text())?;
    lines.push(b'\n')?;
    Ok(())
}

fn lead(kind: LineKind) -> &'static [u8]
    ensures { result.now ≡ lead_of kind }
{
    match kind {
        LineKind::Detail => b"    ",
        _ => b"  ",
    }
}

fn write_indent(lines: &mut Vec<u8>, depth: usize) -> Result<(), AllocError>
    ensures { OnOk result (lines.new.items ≡ lines.old.items ++ indent depth) }
{
    for _ in 0..depth {
        lines.extend_from_slice(b"  ")?;
    }
    Ok(())
}

// A text has a line to itself, so that only a control character ends it, and names stay readable. Characters that
// turn the direction of a text would show its line, or a later one, as another.
pub(crate) fn write_escaped(lines: &mut Vec<u8>, text: &str) -> Result<(), AllocError>
    ensures { OnOk result (lines.new.items ≡ lines.old.items ++ line_text text.now) }
{
    for character in text.chars() {
        write_character(lines, character)?;
    }
    Ok(())
}

fn write_character(lines: &mut Vec<u8>, character: char) -> Result<(), AllocError>
    ensures { OnOk result (lines.new.items ≡ lines.old.items ++ line_character character) }
{
    let mut buffer = [0; 4];
    let bytes = character.encode_utf8(&mut buffer).as_bytes();
    if is_escaped(character) {
        write_percent(lines, bytes)
    } else {
        lines.extend_from_slice(bytes)
    }
}

// Each byte as `%` and two digits.
fn write_percent(lines: &mut Vec<u8>, bytes: &[u8]) -> Result<(), AllocError>
    ensures { OnOk result (lines.new.items ≡ lines.old.items ++ flat_map percent_encode_byte_of bytes.now) }
{
    for byte in bytes {
        lines.extend_from_slice(percent_encode_byte(*byte).as_bytes())?;
    }
    Ok(())
}

fn is_escaped(character: char) -> bool
    ensures { result ≡ escaped_in_line character }
{
    is_control(character) || turns_direction(character) || character == '%'
}

// Also U+0080 to U+009F, which some terminals obey.
fn is_control(character: char) -> bool
    ensures { result ≡ is_control_character character }
{
    let code = character as u32;
    code < 32 || code > 126 && code < 160
}

// U+202A to U+202E and U+2066 to U+2069.
fn turns_direction(character: char) -> bool
    ensures { result ≡ turns_direction_of character }
{
    let code = character as u32;
    code > 0x2029 && code < 0x202f || code > 0x2065 && code < 0x206a
}
