//! Objects that are written, member by member.
ghost use Rattle.std.specs.Prelude.{◌≡◌, ◌++◌, ◌∷◌, [], ◌<◌, ◌/◌, ◌%◌, true, false, OnOk, IfOk};
ghost use Rattle.std.specs.List.{flat_map};
ghost use Rattle.std.specs.Char.{digit_char, encode_utf8};
ghost use Rattle.cfg_base.specs.Text.{characters};
ghost use Rattle.cfg_json.specs.Ascii.{comma, digit_zero, colon, backslash, small_u};
ghost use Rattle.cfg_json.specs.Writing.{escape_letter, escape, quoted, braced, before_next, with_member};

use crate::strings::{characters_of, push_character};
use cfg_types::{OutOfMemory, Text};
use std::alloc::Global;
use std::marker::Model;

/// Characters that are put together. Contracts see their list.
#[derive(Drop)]
struct Written {
    inner: String,
}

impl Model for Written {
    ghost use Rattle.std.specs.Prelude.{List, ℕ};
    ghost use Rattle.std.specs.String.{string_bytes};
    ghost use Rattle.cfg_base.specs.Text.{characters};

    ghost Value = { List ℕ };

    ghost view = { λ w. characters (string_bytes w.inner) };
}

impl Written {
    fn new(alloc: Global) -> Written
        ensures { result ≡ [] }
    {
        Written {
            inner: String::new(alloc),
        }
    }

    fn is_empty(&self) -> bool
        ensures empty { result ≡ true → before_next self.now ≡ self.now }
        ensures other { result ≡ false → before_next self.now ≡ self.now ++ comma ∷ [] }
    {
        self.inner.as_bytes().is_empty()
    }

    fn push(&mut self, c: char) -> Result<(), OutOfMemory>
        ensures { OnOk result (self.new ≡ self.old ++ c ∷ []) }
    {
        push_character(&mut self.inner, c)
    }

    fn push_text(&mut self, text: &str) -> Result<(), OutOfMemory>
        ensures { OnOk result (self.new ≡ self.old ++ characters text.now) }
    {
        self.inner.push_str(text)?;
        Ok(())
    }

    fn as_str(&self) -> &str
        ensures { characters result.now ≡ self.now }
    {
        self.inner.as_str()
    }

    fn into_text(self) -> Text
        ensures { result ≡ self }
    {
        Text::from_string(self.inner)
    }
}

#[tactic(auto, unfolding(crate::specs::Writing::escape_letter))]
fn letter_of(c: char) -> Option<char>
    ensures { result ≡ escape_letter c }
{
    match c {
        '"' => Some('"'),
        '\\' => Some('\\'),
        '\u{8}' => Some('b'),
        '\u{c}' => Some('f'),
        '\n' => Some('n'),
        '\r' => Some('r'),
        '\t' => Some('t'),
        _ => None,
    }
}

fn hex_digit(n: u32) -> char
    requires { n < 16 }
    ensures { result ≡ digit_char n }
{
    match char::from_digit(n, 16) {
        Some(digit) => digit,
        None => unreachable!(),
    }
}

#[tactic(auto, using(std::proofs::lemmas::Grind::common_steps))]
fn push_code(out: &mut Written, code: u32) -> Result<(), OutOfMemory>
    requires { code < 32 }
    ensures { OnOk result (out.new ≡ out.old ++ backslash ∷ small_u ∷ digit_zero ∷ digit_zero ∷ digit_char (code / 16) ∷ digit_char (code % 16) ∷ []) }
{
    out.push_text("\\u00")?;
    out.push(hex_digit(code / 16))?;
    out.push(hex_digit(code % 16))
}

#[tactic(auto, using(std::proofs::lemmas::Grind::common_steps), unfolding(crate::specs::Writing::escape))]
fn push_escaped(out: &mut Written, c: char) -> Result<(), OutOfMemory>
    ensures { OnOk result (out.new ≡ out.old ++ escape c) }
{
    if let Some(letter) = letter_of(c) {
        out.push('\\')?;
        return out.push(letter);
    }
    let code = c as u32;
    if code < 32 {
        return push_code(out, code);
    }
    out.push(c)
}

fn push_all_escaped(out: &mut Written, text: &[char]) -> Result<(), OutOfMemory>
    ensures { OnOk result (out.new ≡ out.old ++ flat_map escape text.now) }
{
    for c in text {
        push_escaped(out, *c)?;
    }
    Ok(())
}

#[tactic(auto, using(std::proofs::lemmas::Grind::common_steps), unfolding(crate::specs::Writing::quoted))]
fn push_quoted(alloc: Global, out: &mut Written, text: &str) -> Result<(), OutOfMemory>
    ensures { OnOk result (out.new ≡ out.old ++ quoted (characters text.now)) }
{
    let text = characters_of(alloc, text)?;
    out.push('"')?;
    push_all_escaped(out, text.as_slice())?;
    out.push('"')
}

fn push_comma(out: &mut Written) -> Result<(), OutOfMemory>
    ensures { OnOk result (out.new ≡ before_next out.old) }
{
    if out.is_empty() {
        return Ok(());
    }
    out.push(',')
}

#[tactic(auto, using(std::proofs::lemmas::Grind::common_steps))]
fn push_key(alloc: Global, out: &mut Written, key: &str) -> Result<(), OutOfMemory>
    ensures { OnOk result (out.new ≡ before_next out.old ++ (quoted (characters key.now) ++ colon ∷ [])) }
{
    push_comma(out)?;
    push_quoted(alloc, out, key)?;
    out.push(':')
}

#[tactic(auto, using(std::proofs::lemmas::Grind::common_steps), unfolding(crate::specs::Writing::braced))]
fn push_braced(out: &mut Written, members: &str) -> Result<(), OutOfMemory>
    ensures { OnOk result (out.new ≡ out.old ++ braced (characters members.now)) }
{
    out.push('{')?;
    out.push_text(members)?;
    out.push('}')
}

/// Writes an object (RFC 8259), member by member, without spaces. Contracts see the text of the members so
/// far.
///
/// A call that runs out of memory answers `OutOfMemory`. After that nothing is claimed of what the
/// writer holds.
#[derive(Drop)]
pub struct ObjectWriter {
    alloc: Global,
    members: Written,
}

impl Model for ObjectWriter {
    ghost use Rattle.std.specs.Prelude.{List, ℕ};

    ghost Value = { List ℕ };

    ghost view = { λ w. w.members };
}

impl ObjectWriter {
    /// An object with no member.
    pub fn new(alloc: Global) -> ObjectWriter
        ensures { result ≡ [] }
    {
        ObjectWriter {
            alloc,
            members: Written::new(alloc),
        }
    }

    /// Writes one more member, a text. No key is looked for among those that are there.
    #[tactic(auto, using(std::proofs::lemmas::Grind::common_steps), unfolding(crate::specs::Writing::with_member))]
    pub fn text(&mut self, key: &str, value: &str) -> Result<(), OutOfMemory>
        ensures { OnOk result (self.new ≡ with_member self.old (characters key.now) (quoted (characters value.now))) }
    {
        push_key(self.alloc, &mut self.members, key)?;
        push_quoted(self.alloc, &mut self.members, value)
    }

    /// Writes one more member, an object. No key is looked for among those that are there.
    #[tactic(auto, using(std::proofs::lemmas::Grind::common_steps), unfolding(crate::specs::Writing::with_member))]
    pub fn object(&mut self, key: &str, inner: ObjectWriter) -> Result<(), OutOfMemory>
        ensures { OnOk result (self.new ≡ with_member self.old (characters key.now) (braced inner)) }
    {
        push_key(self.alloc, &mut self.members, key)?;
        push_braced(&mut self.members, inner.members.as_str())
    }

    /// The text of the object, with its braces.
    pub fn finish(self) -> Result<Text, OutOfMemory>
        ensures { IfOk result (λ t. t ≡ braced self) }
    {
        let mut out = Written::new(self.alloc);
        push_braced(&mut out, self.members.as_str())?;
        Ok(out.into_text())
    }
}
