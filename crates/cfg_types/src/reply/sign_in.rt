ghost use Rattle.std.specs.Prelude.{◌≡◌, IfOk};

use cfg_base::{OutOfMemory, Text, TryCopy, copy_option};
use std::alloc::Global;
use std::fmt;

/// The token of a reply to `CreateOAuth2Token`.
#[derive(PartialEq, Eq)]
pub struct SignInToken {
    /// The id of the access key.
    pub access_key_id: Text,
    /// The secret of the access key.
    pub secret_access_key: Text,
    /// The session token.
    pub session_token: Text,
    /// The refresh token, which stands in for the one that was sent.
    pub refresh_token: Text,
    /// The lifetime of the token, in seconds.
    pub expires_in: i64,
}

impl Drop for SignInToken {
    fn drop(self) {
        let SignInToken {
            access_key_id: _,
            secret_access_key: _,
            session_token: _,
            refresh_token: _,
            expires_in: _,
        } = self;
    }
}

impl TryCopy for SignInToken {
    fn copy(&self, alloc: Global) -> Result<SignInToken, OutOfMemory> {
        let access_key_id = self.access_key_id.copy(alloc)?;
        let secret_access_key = self.secret_access_key.copy(alloc)?;
        let session_token = self.session_token.copy(alloc)?;
        let refresh_token = self.refresh_token.copy(alloc)?;
        Ok(SignInToken {
            access_key_id,
            secret_access_key,
            session_token,
            refresh_token,
            expires_in: self.expires_in,
        })
    }
}

// The text depends on neither the secret nor a token.
impl fmt::Debug for SignInToken {
    ghost use Rattle.std.specs.Prelude.{Some, codes};
    ghost use Rattle.cfg_types.specs.DebugTexts.{shown_client};

    ghost debug_output = { λ t. Some (shown_client (codes "SignInToken { access_key_id: \"") t.access_key_id) };

    fn fmt<W: fmt::Write>(&self, f: &mut fmt::Formatter<W>) -> fmt::Result {
        let id = self.access_key_id.as_str();
        write!(
            f,
            "SignInToken {{ access_key_id: \"{id}\", secrets: \"** redacted **\" }}"
        )
    }
}

/// A reply to `CreateOAuth2Token`.
#[derive(Debug, PartialEq, Eq, Drop)]
pub struct SignInReply {
    /// The token, where the reply has one.
    pub token: Option<SignInToken>,
}

impl TryCopy for SignInReply {
    fn copy(&self, alloc: Global) -> Result<SignInReply, OutOfMemory> {
        Ok(SignInReply {
            token: copy_option(alloc, &self.token)?,
        })
    }
}
