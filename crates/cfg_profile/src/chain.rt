//! What a profile gives credentials by.
ghost use Rattle.std.specs.Prelude.{◌≡◌};

use cfg_types::{CommandWithSensitiveArgs, Credentials, Seq, Text};

/// A role to be assumed, by the keys of its profile.
pub struct RoleArn {
    /// The ARN of the role, `role_arn`, as it stands there.
    pub role_arn: Text,
    /// The `external_id` of the profile, where it has one.
    pub external_id: Option<Text>,
    /// The name of the role's session, `role_session_name`, where the profile has one.
    pub session_name: Option<Text>,
}

impl Drop for RoleArn {
    fn drop(self) {
        let RoleArn {
            role_arn: _,
            external_id: _,
            session_name: _,
        } = self;
    }
}

/// What gives the first credentials.
pub enum BaseProvider {
    /// A source by its name, `credential_source`: one of the caller's, or one that is always there. A
    /// plan has a name that is known, a chain any name.
    NamedSource(Text),
    /// Keys that stand in the profile, without an expiry.
    AccessKey(Credentials),
    /// Web identity: the role that is assumed with the token in a file.
    WebIdentityTokenRole {
        /// The profile's `role_arn`.
        role_arn: Text,
        /// The path of the file, as it stands there.
        web_identity_token_file: Text,
        /// The name of the role's session, where the profile has one.
        session_name: Option<Text>,
    },
    /// IAM Identity Center. Account and role are both there, or neither is: then it gives a token alone.
    Sso {
        /// The name of the session, where the profile names one.
        sso_session_name: Option<Text>,
        /// The region, of the session where one is named, else of the profile.
        sso_region: Text,
        /// The start URL, from where the region is.
        sso_start_url: Text,
        /// The id of the account for whose role credentials are asked.
        sso_account_id: Option<Text>,
        /// The name of that role.
        sso_role_name: Option<Text>,
    },
    /// A process that prints the credentials.
    CredentialProcess {
        /// The command that a shell runs.
        command: CommandWithSensitiveArgs,
        /// The profile's `aws_account_id`, for a document that names no account.
        account_id: Option<Text>,
    },
    /// A sign-in session.
    LoginSession {
        /// The profile's `login_session`, which names it.
        login_session_arn: Text,
    },
}

impl Drop for BaseProvider {
    fn drop(self) {
        match self {
            BaseProvider::NamedSource(_) => {}
            BaseProvider::AccessKey(_) => {}
            BaseProvider::WebIdentityTokenRole {
                role_arn: _,
                web_identity_token_file: _,
                session_name: _,
            } => {}
            BaseProvider::Sso {
                sso_session_name: _,
                sso_region: _,
                sso_start_url: _,
                sso_account_id: _,
                sso_role_name: _,
            } => {}
            BaseProvider::CredentialProcess {
                command: _,
                account_id: _,
            } => {}
            BaseProvider::LoginSession {
                login_session_arn: _,
            } => {}
        }
    }
}

/// A base, and the roles that are assumed one after another over what it gives.
pub struct ProfileChain {
    /// What gives the first credentials.
    pub base: BaseProvider,
    /// The roles, in the order in which they are assumed: that of the path's first profile is the last one.
    pub roles: Seq<RoleArn>,
}

impl Drop for ProfileChain {
    fn drop(self) {
        let ProfileChain { base: _, roles: _ } = self;
    }
}

impl ProfileChain {
    /// The base and the roles.
    pub fn into_parts(self) -> (BaseProvider, Seq<RoleArn>)
        ensures { result ≡ (self.base, self.roles) }
    {
        let ProfileChain { base, roles } = self;
        (base, roles)
    }
}
