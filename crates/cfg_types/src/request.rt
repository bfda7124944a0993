//! What a transport can be asked to send.
ghost use Rattle.std.specs.Prelude.{◌≡◌, IfOk};

mod http;
mod sign_in;
mod sso;
mod sts;

use cfg_base::{OutOfMemory, TryCopy};
pub use http::{Http, MetadataGet, MetadataToken};
pub use sign_in::CreateOAuth2Token;
pub use sso::{CreateToken, GetRoleCredentials};
use std::alloc::Global;
pub use sts::{AssumeRole, AssumeRoleWithWebIdentity, Tag};

/// What a transport can be asked to send, a variant for each kind of request.
#[derive(Debug, PartialEq, Eq)]
pub enum Request {
    /// A GET of a container's credentials.
    Http(Http),
    /// A PUT for a session token of instance metadata.
    MetadataToken(MetadataToken),
    /// A GET of instance metadata.
    MetadataGet(MetadataGet),
    /// A call of the AWS Security Token Service for a role, signed.
    AssumeRole(AssumeRole),
    /// A call of the AWS Security Token Service for a role, by a web identity.
    AssumeRoleWithWebIdentity(AssumeRoleWithWebIdentity),
    /// A call of IAM Identity Center for a role's credentials.
    GetRoleCredentials(GetRoleCredentials),
    /// A call of IAM Identity Center OIDC for a new token.
    CreateToken(CreateToken),
    /// A call of AWS Sign-In for a new token.
    CreateOAuth2Token(CreateOAuth2Token),
}

impl Drop for Request {
    fn drop(self) {
        match self {
            Request::Http(_) => {}
            Request::MetadataToken(_) => {}
            Request::MetadataGet(_) => {}
            Request::AssumeRole(_) => {}
            Request::AssumeRoleWithWebIdentity(_) => {}
            Request::GetRoleCredentials(_) => {}
            Request::CreateToken(_) => {}
            Request::CreateOAuth2Token(_) => {}
        }
    }
}

impl TryCopy for Request {
    fn copy(&self, alloc: Global) -> Result<Request, OutOfMemory> {
        Ok(match self {
            Request::Http(call) => Request::Http(call.copy(alloc)?),
            Request::MetadataToken(call) => Request::MetadataToken(call.copy(alloc)?),
            Request::MetadataGet(call) => Request::MetadataGet(call.copy(alloc)?),
            Request::AssumeRole(call) => Request::AssumeRole(call.copy(alloc)?),
            Request::AssumeRoleWithWebIdentity(call) => {
                Request::AssumeRoleWithWebIdentity(call.copy(alloc)?)
            }
            Request::GetRoleCredentials(call) => Request::GetRoleCredentials(call.copy(alloc)?),
            Request::CreateToken(call) => Request::CreateToken(call.copy(alloc)?),
            Request::CreateOAuth2Token(call) => Request::CreateOAuth2Token(call.copy(alloc)?),
        })
    }
}
