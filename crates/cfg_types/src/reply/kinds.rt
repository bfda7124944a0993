ghost use Rattle.std.specs.Prelude.{◌≡◌};
ghost use Rattle.cfg_types.specs.Replies.{http_in, sts_in, role_in, token_in, sign_in_in};

use crate::reply::{HttpReply, Refusal, Reply, RoleReply, SignInReply, StsReply, TokenReply};

impl Reply {
    /// The reply to an HTTP request. None where it is of another kind, or a refusal.
    pub fn into_http(self) -> Option<HttpReply>
        ensures { result ≡ http_in self }
    {
        match self {
            Reply::Http(reply) => Some(reply),
            _ => None,
        }
    }

    /// The reply of the Security Token Service, or its refusal. None where it is of another kind.
    pub fn into_sts(self) -> Option<Result<StsReply, Refusal>>
        ensures { result ≡ sts_in self }
    {
        match self {
            Reply::Sts(reply) => Some(Ok(reply)),
            Reply::Refused(refusal) => Some(Err(refusal)),
            _ => None,
        }
    }

    /// The reply to `GetRoleCredentials`, or its refusal. None where it is of another kind.
    pub fn into_role(self) -> Option<Result<RoleReply, Refusal>>
        ensures { result ≡ role_in self }
    {
        match self {
            Reply::Role(reply) => Some(Ok(reply)),
            Reply::Refused(refusal) => Some(Err(refusal)),
            _ => None,
        }
    }

    /// The reply to `CreateToken`, or its refusal. None where it is of another kind.
    pub fn into_token(self) -> Option<Result<TokenReply, Refusal>>
        ensures { result ≡ token_in self }
    {
        match self {
            Reply::Token(reply) => Some(Ok(reply)),
            Reply::Refused(refusal) => Some(Err(refusal)),
            _ => None,
        }
    }

    /// The reply to `CreateOAuth2Token`, or its refusal. None where it is of another kind.
    pub fn into_sign_in(self) -> Option<Result<SignInReply, Refusal>>
        ensures { result ≡ sign_in_in self }
    {
        match self {
            Reply::SignIn(reply) => Some(Ok(reply)),
            Reply::Refused(refusal) => Some(Err(refusal)),
            _ => None,
        }
    }
}
