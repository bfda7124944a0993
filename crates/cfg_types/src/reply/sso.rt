ghost use Rattle.std.specs.Prelude.{◌≡◌, IfOk};

use cfg_base::{OutOfMemory, Text, TryCopy, copy_option};
use std::alloc::Global;
use std::fmt;

/// The credentials of a reply of IAM Identity Center.
#[derive(PartialEq, Eq)]
pub struct RoleCredentials {
    /// The id of the access key, where the reply has it.
    pub access_key_id: Option<Text>,
    /// The secret of the access key, where the reply has it.
    pub secret_access_key: Option<Text>,
    /// The session token, where the reply has it.
    pub session_token: Option<Text>,
    /// When they expire, in milliseconds since the epoch.
    pub expiration_ms: i64,
}

impl RoleCredentials {
    /// The id of the access key, its secret, the session token and when they expire.
    pub fn into_parts(self) -> (Option<Text>, Option<Text>, Option<Text>, i64)
        ensures { result ≡ (self.access_key_id, self.secret_access_key, self.session_token, self.expiration_ms) }
    {
        let RoleCredentials {
            access_key_id,
            secret_access_key,
            session_token,
            expiration_ms,
        } = self;
        (
            access_key_id,
            secret_access_key,
            session_token,
            expiration_ms,
        )
    }
}

impl Drop for RoleCredentials {
    fn drop(self) {
        let RoleCredentials {
            access_key_id: _,
            secret_access_key: _,
            session_token: _,
            expiration_ms: _,
        } = self;
    }
}

impl TryCopy for RoleCredentials {
    fn copy(&self, alloc: Global) -> Result<RoleCredentials, OutOfMemory> {
        let access_key_id = copy_option(alloc, &self.access_key_id)?;
        let secret_access_key = copy_option(alloc, &self.secret_access_key)?;
        let session_token = copy_option(alloc, &self.session_token)?;
        Ok(RoleCredentials {
            access_key_id,
            secret_access_key,
            session_token,
            expiration_ms: self.expiration_ms,
        })
    }
}

// The text depends on neither the secret nor the session token.
impl fmt::Debug for RoleCredentials {
    ghost use Rattle.std.specs.Prelude.{Some};
    ghost use Rattle.cfg_types.specs.DebugTexts.{shown_role_credentials};

    ghost debug_output = { λ c. Some (shown_role_credentials c.expiration_ms) };

    fn fmt<W: fmt::Write>(&self, f: &mut fmt::Formatter<W>) -> fmt::Result {
        let end = self.expiration_ms;
        write!(
            f,
            "RoleCredentials {{ secrets: \"** redacted **\", expiration_ms: {end} }}"
        )
    }
}

/// A reply to `GetRoleCredentials`.
#[derive(Debug, PartialEq, Eq, Drop)]
pub struct RoleReply {
    /// The credentials of the role, where the reply has them.
    pub credentials: Option<RoleCredentials>,
}

impl TryCopy for RoleReply {
    fn copy(&self, alloc: Global) -> Result<RoleReply, OutOfMemory> {
        Ok(RoleReply {
            credentials: copy_option(alloc, &self.credentials)?,
        })
    }
}

/// A reply to `CreateToken`.
#[derive(PartialEq, Eq)]
pub struct TokenReply {
    /// The access token, where the reply has it.
    pub access_token: Option<Text>,
    /// A new refresh token, where the reply has one.
    pub refresh_token: Option<Text>,
    /// The lifetime of the access token, in seconds.
    pub expires_in: i64,
}

impl Drop for TokenReply {
    fn drop(self) {
        let TokenReply {
            access_token: _,
            refresh_token: _,
            expires_in: _,
        } = self;
    }
}

impl TryCopy for TokenReply {
    fn copy(&self, alloc: Global) -> Result<TokenReply, OutOfMemory> {
        let access_token = copy_option(alloc, &self.access_token)?;
        let refresh_token = copy_option(alloc, &self.refresh_token)?;
        Ok(TokenReply {
            access_token,
            refresh_token,
            expires_in: self.expires_in,
        })
    }
}

// The text depends on neither token.
impl fmt::Debug for TokenReply {
    ghost use Rattle.std.specs.Prelude.{Some};
    ghost use Rattle.cfg_types.specs.DebugTexts.{shown_token_reply};

    ghost debug_output = { λ r. Some (shown_token_reply r.expires_in) };

    fn fmt<W: fmt::Write>(&self, f: &mut fmt::Formatter<W>) -> fmt::Result {
        let seconds = self.expires_in;
        write!(
            f,
            "TokenReply {{ secrets: \"** redacted **\", expires_in: {seconds} }}"
        )
    }
}
