ghost use Rattle.std.specs.Prelude.{◌≡◌, IfOk};

use cfg_base::{Instant, OutOfMemory, Text, TryCopy, copy_option};
use std::alloc::Global;
use std::fmt;

/// The credentials of a reply of the Security Token Service.
#[derive(PartialEq, Eq, Drop)]
pub struct StsCredentials {
    /// The id of the access key.
    pub access_key_id: Text,
    /// The secret of the access key.
    pub secret_access_key: Text,
    /// The session token.
    pub session_token: Text,
    /// When they expire.
    pub expiration: Instant,
}

// The text depends on neither the secret nor the session token.
impl fmt::Debug for StsCredentials {
    ghost use Rattle.std.specs.Prelude.{Some};
    ghost use Rattle.cfg_types.specs.DebugTexts.{shown_sts_credentials};

    ghost debug_output = { λ c. Some (shown_sts_credentials c.access_key_id c.expiration) };

    fn fmt<W: fmt::Write>(&self, f: &mut fmt::Formatter<W>) -> fmt::Result {
        let id = self.access_key_id.as_str();
        let seconds = self.expiration.seconds();
        let nanos = self.expiration.nanos();
        write!(
            f,
            "StsCredentials {{ access_key_id: \"{id}\", secret_access_key: \"** redacted **\", session_token: \"** redacted **\", expiration: {seconds} s {nanos} ns }}"
        )
    }
}

impl TryCopy for StsCredentials {
    fn copy(&self, alloc: Global) -> Result<StsCredentials, OutOfMemory> {
        Ok(StsCredentials {
            access_key_id: self.access_key_id.copy(alloc)?,
            secret_access_key: self.secret_access_key.copy(alloc)?,
            session_token: self.session_token.copy(alloc)?,
            expiration: self.expiration,
        })
    }
}

/// A reply of the Security Token Service.
#[derive(Debug, PartialEq, Eq, Drop)]
pub struct StsReply {
    /// The credentials of the session, where the reply has them.
    pub credentials: Option<StsCredentials>,
    /// The ARN of the role's session, where the reply has it.
    pub arn: Option<Text>,
}

impl TryCopy for StsReply {
    fn copy(&self, alloc: Global) -> Result<StsReply, OutOfMemory> {
        Ok(StsReply {
            credentials: copy_option(alloc, &self.credentials)?,
            arn: copy_option(alloc, &self.arn)?,
        })
    }
}
