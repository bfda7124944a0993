//! What is asked of AWS STS for a role.
use cfg_profile::ProviderConfig;
use cfg_types::{Seq, Tag, Text};

/// A session of a role, but for its name.
#[derive(Debug)]
pub struct RoleSession {
    /// The ARN of the role.
    pub role_arn: Text,
    /// The external id, which another account's role may ask for.
    pub external_id: Option<Text>,
    /// A policy of its own, a text in JSON. It is sent as it is.
    pub policy: Option<Text>,
    /// The ARNs of managed policies, in the order in which they are sent.
    pub policy_arns: Option<Seq<Text>>,
    /// How long the session lasts, in seconds. Without a number AWS STS takes 3600.
    pub duration_seconds: Option<i32>,
    /// The tags of the session, in the order in which they are sent.
    pub tags: Option<Seq<Tag>>,
}

impl Drop for RoleSession {
    fn drop(self) {
        let RoleSession {
            role_arn: _,
            external_id: _,
            policy: _,
            policy_arns: _,
            duration_seconds: _,
            tags: _,
        } = self;
    }
}

/// What each call of a provider sends: a session of this name, by the settings of this configuration.
pub struct RoleCall {
    /// The region and the other settings of the request.
    pub config: ProviderConfig,
    /// The name of the session.
    pub session_name: Text,
    /// All else that is asked for the session.
    pub session: RoleSession,
}

impl Drop for RoleCall {
    fn drop(self) {
        let RoleCall {
            config: _,
            session_name: _,
            session: _,
        } = self;
    }
}
