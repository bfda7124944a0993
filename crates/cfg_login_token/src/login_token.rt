ghost use Rattle.std.specs.Prelude.{◌≡◌, IfOk};

use cfg_types::{Credentials, OutOfMemory, Shared, Text, TryCopy};
use std::alloc::Global;
use std::fmt;
use std::marker::Model;
use std::ops::Deref;

/// What the file of a token of a sign-in session keeps. The key proves possession (DPoP, RFC 9449).
#[derive(PartialEq, Eq)]
pub struct LoginTokenFields {
    /// Credentials from `Login`, with an end, a session token and an account. Without an end the token
    /// counts as one that has expired.
    pub access_token: Credentials,
    /// What the file has as `tokenType`.
    pub token_type: Option<Text>,
    /// What the file has as `idToken`.
    pub identity_token: Option<Text>,
    /// What a refresh is asked with. A new token has the reply's.
    pub refresh_token: Text,
    /// The id of the client that asks for a refresh.
    pub client_id: Text,
    /// The key that proves possession, with line feeds where the file has a backslash and `n`.
    pub dpop_key: Text,
}

impl Drop for LoginTokenFields {
    fn drop(self) {
        let LoginTokenFields {
            access_token: _,
            token_type: _,
            identity_token: _,
            refresh_token: _,
            client_id: _,
            dpop_key: _,
        } = self;
    }
}

/// A token of a sign-in session, as its file keeps it: credentials that end, and what a refresh of
/// them needs. Contracts see its fields. A copy shares them with its source.
#[derive(PartialEq, Eq)]
pub struct LoginToken {
    fields: Shared<LoginTokenFields>,
}

impl Model for LoginToken {
    ghost use Rattle.cfg_login_token.specs.declared.login_token.LoginTokenFields.{LoginTokenFields};

    ghost Value = { LoginTokenFields };

    ghost view = { λ t. t.fields };

    ghost inverse = { λ f. record { fields = f } };
}

impl Drop for LoginToken {
    fn drop(self) {
        let LoginToken { fields: _ } = self;
    }
}

impl LoginToken {
    /// The token with these fields. `OutOfMemory` where memory runs out.
    pub fn new(alloc: Global, fields: LoginTokenFields) -> Result<LoginToken, OutOfMemory>
        ensures { IfOk result (λ t. t ≡ fields) }
    {
        let fields = Shared::new(alloc, fields)?;
        Ok(LoginToken { fields })
    }
}

impl Deref for LoginToken {
    type Target = LoginTokenFields;

    ghost deref_gives = { λ t f. f ≡ t };

    fn deref(&self) -> &LoginTokenFields {
        self.fields.get()
    }
}

impl TryCopy for LoginToken {
    fn copy(&self, alloc: Global) -> Result<LoginToken, OutOfMemory> {
        let fields = self.fields.copy(alloc)?;
        Ok(LoginToken { fields })
    }
}

// The text depends on the credentials' own text alone, and that on no secret.
impl fmt::Debug for LoginToken {
    ghost use Rattle.std.specs.Prelude.{Some};
    ghost use Rattle.cfg_login_token.specs.ShownTokens.{shown_login_token};

    ghost debug_output = { λ t. Some (shown_login_token t.access_token) };

    fn fmt<W: fmt::Write>(&self, f: &mut fmt::Formatter<W>) -> fmt::Result {
        let credentials = &self.access_token;
        write!(
            f,
            "LoginToken {{ access_token: {credentials:?}, secrets: \"** redacted **\" }}"
        )
    }
}
