ghost use Rattle.std.specs.Prelude.{◌≡◌, IfOk};

use crate::settings::CallSettings;
use cfg_base::{OutOfMemory, Text, TryCopy};
use std::alloc::Global;
use std::fmt;

/// A call of AWS Sign-In's `CreateOAuth2Token`, with a refresh token. The key is the one that proves
/// possession (DPoP, RFC 9449); the transport signs with it.
#[derive(PartialEq, Eq)]
pub struct CreateOAuth2Token {
    /// The id of the client that signed in.
    pub client_id: Text,
    /// The refresh token, a secret.
    pub refresh_token: Text,
    /// The private key as a text, a secret.
    pub dpop_key: Text,
    /// How the service is called.
    pub settings: CallSettings,
}

impl Drop for CreateOAuth2Token {
    fn drop(self) {
        let CreateOAuth2Token {
            client_id: _,
            refresh_token: _,
            dpop_key: _,
            settings: _,
        } = self;
    }
}

impl TryCopy for CreateOAuth2Token {
    fn copy(&self, alloc: Global) -> Result<CreateOAuth2Token, OutOfMemory> {
        let client_id = self.client_id.copy(alloc)?;
        let refresh_token = self.refresh_token.copy(alloc)?;
        let dpop_key = self.dpop_key.copy(alloc)?;
        let settings = self.settings.copy(alloc)?;
        Ok(CreateOAuth2Token {
            client_id,
            refresh_token,
            dpop_key,
            settings,
        })
    }
}

// The text depends on neither the refresh token nor the key.
impl fmt::Debug for CreateOAuth2Token {
    ghost use Rattle.std.specs.Prelude.{Some, codes};
    ghost use Rattle.cfg_types.specs.DebugTexts.{shown_client};

    ghost debug_output = { λ r. Some (shown_client (codes "CreateOAuth2Token { client_id: \"") r.client_id) };

    fn fmt<W: fmt::Write>(&self, f: &mut fmt::Formatter<W>) -> fmt::Result {
        let client = self.client_id.as_str();
        write!(
            f,
            "CreateOAuth2Token {{ client_id: \"{client}\", secrets: \"** redacted **\" }}"
        )
    }
}
