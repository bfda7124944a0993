//! A text of an object. It may be a secret, so it has no Debug text.
ghost use Rattle.std.specs.Prelude.{◌≡◌, IfOk};
ghost use Rattle.std.specs.Str.{encode_utf8_all, bytes_eq};
ghost use Rattle.cfg_base.specs.Text.{characters};

use cfg_types::{OutOfMemory, Text, TryCopy};
use std::alloc::Global;
use std::marker::Model;

#[derive(Drop)]
pub(crate) enum Piece<'t> {
    // What stands for itself is not copied.
    Lent(&'t str),
    Own(Text),
}

/// A text of an object: a piece of the bytes that were read, or its own where it was written with
/// escapes. Contracts see the list of its characters.
#[derive(Drop)]
pub struct JsonText<'t> {
    piece: Piece<'t>,
}

impl<'t> Model for JsonText<'t> {
    ghost use Rattle.std.specs.Prelude.{List, ℕ};

    ghost Value = { List ℕ };

    ghost use Rattle.cfg_json.specs.Texts.{characters_in};

    ghost view = { λ t. characters_in t.piece };
}

// The text itself, which is UTF-8.
fn lent(text: &str) -> &str
    ensures same { result.now ≡ text.now }
    ensures bytes { result.now ≡ encode_utf8_all (characters text.now) }
{
    text
}

fn are_same(text: &str, other: &str) -> bool
    ensures { result ≡ bytes_eq (characters text.now) (characters other.now) }
{
    text == other
}

impl<'t> JsonText<'t> {
    // The text, lent.
    pub(crate) fn of(text: &'t str) -> JsonText<'t>
        ensures { result ≡ characters text.now }
    {
        JsonText {
            piece: Piece::Lent(text),
        }
    }

    // A text of its own.
    pub(crate) fn of_own(text: Text) -> JsonText<'t>
        ensures { result ≡ text }
    {
        JsonText {
            piece: Piece::Own(text),
        }
    }

    /// The text, lent.
    pub fn as_str(&self) -> &str
        ensures chars { characters result.now ≡ self.now }
        ensures bytes { result.now ≡ encode_utf8_all self.now }
    {
        match &self.piece {
            Piece::Lent(text) => lent(text),
            Piece::Own(text) => text.as_str(),
        }
    }

    /// Whether it is this text, character for character.
    pub fn is(&self, text: &str) -> bool
        ensures { result ≡ bytes_eq self.now (characters text.now) }
    {
        match &self.piece {
            Piece::Lent(own) => are_same(own, text),
            Piece::Own(own) => own.is(text),
        }
    }

    /// A copy of the text. `OutOfMemory` where memory runs out.
    pub fn copy(&self, alloc: Global) -> Result<Text, OutOfMemory>
        ensures { IfOk result (λ t. t ≡ self.now) }
    {
        match &self.piece {
            Piece::Lent(text) => Text::of(alloc, text),
            Piece::Own(text) => text.copy(alloc),
        }
    }
}
