//! Texts that own their memory.
ghost use Rattle.std.specs.Prelude.{◌≡◌, IfOk, map, nat_eq};
ghost use Rattle.std.specs.Str.{encode_utf8_all, bytes_eq};
ghost use Rattle.std.specs.String.{string_bytes};
ghost use Rattle.std.specs.Cmp.{partial_equiv_from_equiv};
ghost use Rattle.std.specs.Cmp.Lexicographic.{pointwise, nat_list_eq_equiv};
ghost use Rattle.cfg_base.specs.Text.{characters};

use crate::copies::TryCopy;
use crate::memory::OutOfMemory;
use crate::seq::Seq;
use std::alloc::Global;
use std::fmt;
use std::marker::Model;

/// A text of its own. Contracts see the list of its characters.
#[derive(Drop)]
pub struct Text {
    inner: String,
}

impl Model for Text {
    ghost use Rattle.std.specs.Prelude.{List, ℕ};
    ghost use Rattle.std.specs.String.{string_bytes};
    ghost use Rattle.cfg_base.specs.Text.{characters};

    ghost Value = { List ℕ };

    ghost view = { λ t. characters (string_bytes t.inner) };
}

impl Text {
    /// A copy of the text. `OutOfMemory` where memory runs out.
    pub fn of(alloc: Global, text: &str) -> Result<Text, OutOfMemory>
        ensures { IfOk result (λ t. t ≡ characters text.now) }
    {
        Ok(Text {
            inner: String::from_str(alloc, text)?,
        })
    }

    /// The text itself, without a copy.
    pub fn from_string(text: String) -> Text
        ensures { result ≡ characters (string_bytes text) }
    {
        Text { inner: text }
    }

    /// The text, lent.
    pub fn as_str(&self) -> &str
        ensures chars { characters result.now ≡ self.now }
        ensures bytes { result.now ≡ encode_utf8_all self.now }
    {
        self.inner.as_str()
    }

    /// Whether it is this text, character for character.
    pub fn is(&self, text: &str) -> bool
        ensures { result ≡ bytes_eq self.now (characters text.now) }
    {
        self.inner.as_str() == text
    }
}

impl fmt::Debug for Text {
    ghost use Rattle.std.specs.Str.{encode_utf8_all};
    ghost use Rattle.std.specs.Fmt.{debug_str};

    ghost debug_output = { λ t. debug_str (encode_utf8_all t) };

    fn fmt<W: fmt::Write>(&self, f: &mut fmt::Formatter<W>) -> fmt::Result {
        fmt::Debug::fmt(&self.as_str(), f)
    }
}

impl TryCopy for Text {
    fn copy(&self, _: Global) -> Result<Text, OutOfMemory> {
        Ok(Text {
            inner: self.inner.clone()?,
        })
    }
}

impl PartialEq for Text {
    ghost eq = { pointwise nat_eq };

    ghost laws = { partial_equiv_from_equiv nat_list_eq_equiv };

    fn eq(&self, other: &Text) -> bool {
        self.inner == other.inner
    }
}

impl Eq for Text {
    ghost laws = { nat_list_eq_equiv };
}

/// The strings as texts, in order. No string is copied. `OutOfMemory` where memory runs out; the strings
/// are given up then.
pub fn texts(alloc: Global, strings: Vec<String>) -> Result<Seq<Text>, OutOfMemory>
    ensures { IfOk result (λ texts. texts ≡ map (λ s. characters (string_bytes s)) strings.items) }
{
    let mut texts = Vec::with_capacity(alloc, strings.len())?;
    for string in strings {
        texts.push(Text::from_string(string))?;
    }
    Ok(Seq::of(texts))
}
