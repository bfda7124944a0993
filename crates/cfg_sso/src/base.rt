//! The session that the base of a profile's path names.
ghost use Rattle.std.specs.Prelude.{◌≡◌, IfOk};
ghost use Rattle.cfg_sso.specs.Tokens.{session_of_base as session_of};

use cfg_profile::BaseProvider;
use cfg_token::TokenKey;
use cfg_types::{OutOfMemory, Region, TryCopy};
use std::alloc::Global;

/// Whose token a base needs, where it is one of IAM Identity Center that names a session. `OutOfMemory`
/// where memory runs out.
pub fn session_of_base(alloc: Global, base: &BaseProvider) -> Result<Option<TokenKey>, OutOfMemory>
    ensures { IfOk result (λ key. key ≡ session_of base.now) }
{
    match base {
        BaseProvider::Sso {
            sso_session_name: Some(session),
            sso_region,
            sso_start_url,
            ..
        } => Ok(Some(TokenKey::Sso {
            session: session.copy(alloc)?,
            region: Region::new(alloc, sso_region.as_str())?,
            start_url: sso_start_url.copy(alloc)?,
        })),
        _ => Ok(None),
    }
}
