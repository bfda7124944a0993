ghost use Rattle.std.specs.Prelude.{◌≡◌, IfOk};

use crate::settings::CallSettings;
use cfg_base::{OutOfMemory, Text, TryCopy};
use std::alloc::Global;
use std::fmt;

/// A call of IAM Identity Center's `GetRoleCredentials`.
#[derive(PartialEq, Eq)]
pub struct GetRoleCredentials {
    /// The name of the role.
    pub role_name: Text,
    /// The id of the account.
    pub account_id: Text,
    /// The access token, a secret.
    pub access_token: Text,
    /// How the service is called.
    pub settings: CallSettings,
}

impl Drop for GetRoleCredentials {
    fn drop(self) {
        let GetRoleCredentials {
            role_name: _,
            account_id: _,
            access_token: _,
            settings: _,
        } = self;
    }
}

impl TryCopy for GetRoleCredentials {
    fn copy(&self, alloc: Global) -> Result<GetRoleCredentials, OutOfMemory> {
        let role_name = self.role_name.copy(alloc)?;
        let account_id = self.account_id.copy(alloc)?;
        let access_token = self.access_token.copy(alloc)?;
        let settings = self.settings.copy(alloc)?;
        Ok(GetRoleCredentials {
            role_name,
            account_id,
            access_token,
            settings,
        })
    }
}

// The text does not depend on the access token.
impl fmt::Debug for GetRoleCredentials {
    ghost use Rattle.std.specs.Prelude.{Some};
    ghost use Rattle.cfg_types.specs.DebugTexts.{shown_role_call};

    ghost debug_output = { λ r. Some (shown_role_call r.role_name r.account_id) };

    fn fmt<W: fmt::Write>(&self, f: &mut fmt::Formatter<W>) -> fmt::Result {
        let role = self.role_name.as_str();
        let account = self.account_id.as_str();
        write!(
            f,
            "GetRoleCredentials {{ role_name: \"{role}\", account_id: \"{account}\", secrets: \"** redacted **\" }}"
        )
    }
}

/// A call of IAM Identity Center OIDC's `CreateToken`, with a refresh token.
#[derive(PartialEq, Eq)]
pub struct CreateToken {
    /// The id of the registered client.
    pub client_id: Text,
    /// The client's secret.
    pub client_secret: Text,
    /// The refresh token, a secret.
    pub refresh_token: Text,
    /// How the service is called.
    pub settings: CallSettings,
}

impl Drop for CreateToken {
    fn drop(self) {
        let CreateToken {
            client_id: _,
            client_secret: _,
            refresh_token: _,
            settings: _,
        } = self;
    }
}

impl TryCopy for CreateToken {
    fn copy(&self, alloc: Global) -> Result<CreateToken, OutOfMemory> {
        let client_id = self.client_id.copy(alloc)?;
        let client_secret = self.client_secret.copy(alloc)?;
        let refresh_token = self.refresh_token.copy(alloc)?;
        let settings = self.settings.copy(alloc)?;
        Ok(CreateToken {
            client_id,
            client_secret,
            refresh_token,
            settings,
        })
    }
}

// The text depends on neither the client's secret nor the refresh token.
impl fmt::Debug for CreateToken {
    ghost use Rattle.std.specs.Prelude.{Some, codes};
    ghost use Rattle.cfg_types.specs.DebugTexts.{shown_client};

    ghost debug_output = { λ r. Some (shown_client (codes "CreateToken { client_id: \"") r.client_id) };

    fn fmt<W: fmt::Write>(&self, f: &mut fmt::Formatter<W>) -> fmt::Result {
        let client = self.client_id.as_str();
        write!(
            f,
            "CreateToken {{ client_id: \"{client}\", secrets: \"** redacted **\" }}"
        )
    }
}
