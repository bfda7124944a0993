ghost use Rattle.std.specs.Prelude.{◌≡◌, IfOk};

use crate::credentials::Credentials;
use crate::settings::CallSettings;
use cfg_base::{OutOfMemory, Seq, Text, TryCopy, copy_option};
use std::alloc::Global;
use std::fmt;

/// A tag of a session.
#[derive(Debug, PartialEq, Eq, Drop)]
pub struct Tag {
    /// The name of the tag.
    pub key: Text,
    /// What the tag is set to.
    pub value: Text,
}

impl TryCopy for Tag {
    fn copy(&self, alloc: Global) -> Result<Tag, OutOfMemory> {
        Ok(Tag {
            key: self.key.copy(alloc)?,
            value: self.value.copy(alloc)?,
        })
    }
}

/// A call of the AWS Security Token Service's `AssumeRole`, signed by `signer`.
#[derive(Debug, PartialEq, Eq)]
pub struct AssumeRole {
    /// The credentials that sign the call.
    pub signer: Credentials,
    /// The ARN of the role.
    pub role_arn: Text,
    /// The name of the session.
    pub session_name: Text,
    /// The external id, where one is sent.
    pub external_id: Option<Text>,
    /// The session policy, a JSON text, where one is sent.
    pub policy: Option<Text>,
    /// The ARNs of managed policies, where they are sent.
    pub policy_arns: Option<Seq<Text>>,
    /// How long the credentials are to last, in seconds. None leaves it to the service.
    pub duration_seconds: Option<i32>,
    /// The tags of the session, where they are sent.
    pub tags: Option<Seq<Tag>>,
    /// How the service is called.
    pub settings: CallSettings,
}

impl Drop for AssumeRole {
    fn drop(self) {
        let AssumeRole {
            signer: _,
            role_arn: _,
            session_name: _,
            external_id: _,
            policy: _,
            policy_arns: _,
            duration_seconds: _,
            tags: _,
            settings: _,
        } = self;
    }
}

impl TryCopy for AssumeRole {
    fn copy(&self, alloc: Global) -> Result<AssumeRole, OutOfMemory> {
        let signer = self.signer.copy(alloc)?;
        let role_arn = self.role_arn.copy(alloc)?;
        let session_name = self.session_name.copy(alloc)?;
        let external_id = copy_option(alloc, &self.external_id)?;
        let policy = copy_option(alloc, &self.policy)?;
        let policy_arns = copy_option(alloc, &self.policy_arns)?;
        let tags = copy_option(alloc, &self.tags)?;
        let settings = self.settings.copy(alloc)?;
        Ok(AssumeRole {
            signer,
            role_arn,
            session_name,
            external_id,
            policy,
            policy_arns,
            duration_seconds: self.duration_seconds,
            tags,
            settings,
        })
    }
}

/// A call of the AWS Security Token Service's `AssumeRoleWithWebIdentity`, which is not signed.
#[derive(PartialEq, Eq)]
pub struct AssumeRoleWithWebIdentity {
    /// The ARN of the role.
    pub role_arn: Text,
    /// The name of the session.
    pub session_name: Text,
    /// The web identity token.
    pub token: Text,
    /// The session policy, a JSON text, where one is sent.
    pub policy: Option<Text>,
    /// The ARNs of managed policies, where they are sent.
    pub policy_arns: Option<Seq<Text>>,
    /// How the service is called.
    pub settings: CallSettings,
}

impl Drop for AssumeRoleWithWebIdentity {
    fn drop(self) {
        let AssumeRoleWithWebIdentity {
            role_arn: _,
            session_name: _,
            token: _,
            policy: _,
            policy_arns: _,
            settings: _,
        } = self;
    }
}

impl TryCopy for AssumeRoleWithWebIdentity {
    fn copy(&self, alloc: Global) -> Result<AssumeRoleWithWebIdentity, OutOfMemory> {
        let role_arn = self.role_arn.copy(alloc)?;
        let session_name = self.session_name.copy(alloc)?;
        let token = self.token.copy(alloc)?;
        let policy = copy_option(alloc, &self.policy)?;
        let policy_arns = copy_option(alloc, &self.policy_arns)?;
        let settings = self.settings.copy(alloc)?;
        Ok(AssumeRoleWithWebIdentity {
            role_arn,
            session_name,
            token,
            policy,
            policy_arns,
            settings,
        })
    }
}

// The text does not depend on the token.
impl fmt::Debug for AssumeRoleWithWebIdentity {
    ghost use Rattle.std.specs.Prelude.{Some};
    ghost use Rattle.cfg_types.specs.DebugTexts.{shown_web_identity};

    ghost debug_output = { λ r. Some (shown_web_identity r.role_arn r.session_name) };

    fn fmt<W: fmt::Write>(&self, f: &mut fmt::Formatter<W>) -> fmt::Result {
        let role = self.role_arn.as_str();
        let session = self.session_name.as_str();
        write!(
            f,
            "AssumeRoleWithWebIdentity {{ role_arn: \"{role}\", session_name: \"{session}\", secrets: \"** redacted **\" }}"
        )
    }
}
