//! Tokens, and texts that are not shown.
ghost use Rattle.std.specs.Prelude.{◌≡◌, IfOk};
ghost use Rattle.std.specs.Str.{encode_utf8_all};
ghost use Rattle.cfg_base.specs.Text.{characters};

use crate::credentials::ShownExpiry;
use cfg_base::{Instant, OutOfMemory, Text, TryCopy};
use std::alloc::Global;
use std::fmt;
use std::marker::Model;

/// A bearer token, and when it expires, where it does.
#[derive(PartialEq, Eq, Drop)]
pub struct Token {
    token: Text,
    expiry: Option<Instant>,
}

impl Model for Token {
    ghost use Rattle.cfg_types.specs.Tokens.{BearerToken};

    ghost Value = { BearerToken };

    ghost view = { λ t. record { token = t.token; expiry = t.expiry } };

    ghost inverse = { λ t. record { token = t.token; expiry = t.expiry } };
}

impl Token {
    /// The token of this text, and when it expires, where it does. `OutOfMemory` where memory runs
    /// out.
    pub fn new(alloc: Global, text: &str, expiry: Option<Instant>) -> Result<Token, OutOfMemory>
        ensures { IfOk result (λ t. t ≡ record { token = characters text.now; expiry = expiry }) }
    {
        let token = Text::of(alloc, text)?;
        Ok(Token { token, expiry })
    }

    /// Its text.
    pub fn token(&self) -> &str
        ensures chars { characters result.now ≡ self.now.token }
        ensures bytes { result.now ≡ encode_utf8_all self.now.token }
    {
        self.token.as_str()
    }

    /// When it expires, where it does.
    pub fn expiry(&self) -> Option<Instant>
        ensures { result ≡ self.now.expiry }
    {
        self.expiry
    }
}

// The text does not depend on the token.
impl fmt::Debug for Token {
    ghost use Rattle.std.specs.Prelude.{Some};
    ghost use Rattle.cfg_types.specs.DebugTexts.{shown_token};

    ghost debug_output = { λ t. Some (shown_token t.expiry) };

    fn fmt<W: fmt::Write>(&self, f: &mut fmt::Formatter<W>) -> fmt::Result {
        let end = ShownExpiry(self.expiry);
        write!(f, "Token {{ token: \"** redacted **\", {end} }}")
    }
}

impl TryCopy for Token {
    fn copy(&self, alloc: Global) -> Result<Token, OutOfMemory> {
        let token = self.token.copy(alloc)?;
        Ok(Token {
            token,
            expiry: self.expiry,
        })
    }
}

/// A text that no Debug text shows. Contracts see its characters.
#[derive(PartialEq, Eq, Drop)]
pub struct SensitiveString {
    text: Text,
}

impl Model for SensitiveString {
    ghost use Rattle.std.specs.Prelude.{List, ℕ};

    ghost Value = { List ℕ };

    ghost view = { λ s. s.text };

    ghost inverse = { λ text. record { text = text } };
}

impl SensitiveString {
    /// The text, which from now on is not shown.
    pub fn from_text(text: Text) -> SensitiveString
        ensures { result ≡ text }
    {
        SensitiveString { text }
    }

    /// The text, lent.
    pub fn as_str(&self) -> &str
        ensures chars { characters result.now ≡ self.now }
        ensures bytes { result.now ≡ encode_utf8_all self.now }
    {
        self.text.as_str()
    }

    /// The text, without a copy.
    pub fn into_text(self) -> Text
        ensures { result ≡ self }
    {
        let SensitiveString { text } = self;
        text
    }
}

impl TryCopy for SensitiveString {
    fn copy(&self, alloc: Global) -> Result<SensitiveString, OutOfMemory> {
        let text = self.text.copy(alloc)?;
        Ok(SensitiveString { text })
    }
}

impl fmt::Debug for SensitiveString {
    ghost use Rattle.std.specs.Prelude.{Some, codes};

    ghost debug_output = { λ _. Some (codes "SensitiveString(\"** redacted **\")") };

    fn fmt<W: fmt::Write>(&self, f: &mut fmt::Formatter<W>) -> fmt::Result {
        f.write_str("SensitiveString(\"** redacted **\")")
    }
}
