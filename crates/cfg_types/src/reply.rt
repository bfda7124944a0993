//! What a transport gives back for a request, and why it may fail.
ghost use Rattle.std.specs.Prelude.{◌≡◌, IfOk};

mod http;
mod kinds;
mod sign_in;
mod sso;
mod sts;

use cfg_base::{OutOfMemory, Text, TryCopy};
pub use http::{Header, HttpReply};
pub use sign_in::{SignInReply, SignInToken};
pub use sso::{RoleCredentials, RoleReply, TokenReply};
use std::alloc::Global;
pub use sts::{StsCredentials, StsReply};

/// Why a device failed. Files, commands and look-ups fail with `Io` alone.
#[derive(Clone, Copy, Debug, PartialEq, Eq)]
pub enum FailKind {
    /// The request could not be sent.
    Dispatch,
    /// No reply came in time.
    Timeout,
    /// The reply was broken.
    Broken,
    /// Anything else.
    Io,
}

/// Why a device gave nothing.
#[derive(Clone, Copy, Debug, PartialEq, Eq)]
pub enum Fault {
    /// The device failed, and the count of its kind rose.
    Failed(FailKind),
    /// Memory ran out.
    OutOfMemory,
}

/// What a service refused a call for, as far as the resolver tells refusals apart.
#[derive(Clone, Copy, Debug, PartialEq, Eq)]
pub enum RefusalKind {
    /// The AWS Security Token Service is not active in the region for the account.
    RegionDisabled,
    /// The session policy of `AssumeRole` is malformed.
    MalformedPolicyDocument,
    /// The permission for `CreateOAuth2Token` may be missing.
    InsufficientPermissions,
    /// The sign-in session has expired.
    TokenExpired,
    /// The user's password has changed since the sign-in.
    UserCredentialsChanged,
    /// Anything else.
    Other,
}

/// A service's refusal of a call.
#[derive(Debug, PartialEq, Eq, Drop)]
pub struct Refusal {
    /// What the call was refused for.
    pub kind: RefusalKind,
    /// The service's own words.
    pub message: Text,
}

impl TryCopy for Refusal {
    fn copy(&self, alloc: Global) -> Result<Refusal, OutOfMemory> {
        Ok(Refusal {
            kind: self.kind,
            message: self.message.copy(alloc)?,
        })
    }
}

/// What a transport gave back for a request: a reply of the kind that fits the request, or a refusal.
#[derive(Debug, PartialEq, Eq)]
pub enum Reply {
    /// To `Http`, `MetadataToken` and `MetadataGet`, whatever the status.
    Http(HttpReply),
    /// To `AssumeRole` and `AssumeRoleWithWebIdentity`.
    Sts(StsReply),
    /// To `GetRoleCredentials`.
    Role(RoleReply),
    /// To `CreateToken`.
    Token(TokenReply),
    /// To `CreateOAuth2Token`.
    SignIn(SignInReply),
    /// A refusal of a call. HTTP requests have none: their status tells.
    Refused(Refusal),
}

impl Drop for Reply {
    fn drop(self) {
        match self {
            Reply::Http(_) => {}
            Reply::Sts(_) => {}
            Reply::Role(_) => {}
            Reply::Token(_) => {}
            Reply::SignIn(_) => {}
            Reply::Refused(_) => {}
        }
    }
}

impl TryCopy for Reply {
    fn copy(&self, alloc: Global) -> Result<Reply, OutOfMemory> {
        Ok(match self {
            Reply::Http(reply) => Reply::Http(reply.copy(alloc)?),
            Reply::Sts(reply) => Reply::Sts(reply.copy(alloc)?),
            Reply::Role(reply) => Reply::Role(reply.copy(alloc)?),
            Reply::Token(reply) => Reply::Token(reply.copy(alloc)?),
            Reply::SignIn(reply) => Reply::SignIn(reply.copy(alloc)?),
            Reply::Refused(refusal) => Reply::Refused(refusal.copy(alloc)?),
        })
    }
}
