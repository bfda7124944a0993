//! White space of Unicode at the ends of a text.
ghost use Rattle.std.specs.Prelude.{◌≡◌};
ghost use Rattle.cfg_base.specs.Text.{characters};
ghost use Rattle.cfg_base.specs.WhiteSpace.{trimmed as trimmed_text, is_blank as is_blank_text};

/// The text without the white space at its start and at its end. White space is what has the
/// property White_Space of Unicode.
pub fn trimmed(text: &str) -> &str
    ensures { characters result.now ≡ trimmed_text (characters text.now) }
{
    // As the crate trims, so U+3000 is white space and U+200B is not.
    text.trim()
}

/// Whether the text is white space alone, or nothing at all.
pub fn is_blank(text: &str) -> bool
    ensures { result ≡ is_blank_text (characters text.now) }
{
    trimmed(text).is_empty()
}
