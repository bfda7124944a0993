ghost use Rattle.std.specs.Prelude.{◌≡◌};
ghost use Rattle.cfg_token.specs.FileNames.{session_of};

use cfg_types::{OutOfMemory, Region, Text, TryCopy};
use std::alloc::Global;

/// Whose token it is.
#[derive(Debug, PartialEq, Eq)]
pub enum TokenKey {
    /// A session of IAM Identity Center: its name, its region, and the URL at which its users sign in.
    Sso {
        session: Text,
        region: Region,
        start_url: Text,
    },
    /// A session of `aws login`, as a profile's `login_session` names one.
    Login {
        session: Text,
    },
}

impl Drop for TokenKey {
    fn drop(self) {
        match self {
            TokenKey::Sso {
                session: _,
                region: _,
                start_url: _,
            } => {}
            TokenKey::Login { session: _ } => {}
        }
    }
}

impl TokenKey {
    /// The session whose token it is.
    pub fn session(&self) -> &Text
        ensures { result.now ≡ session_of self.now }
    {
        match self {
            TokenKey::Sso { session, .. } => session,
            TokenKey::Login { session } => session,
        }
    }
}

impl TryCopy for TokenKey {
    fn copy(&self, alloc: Global) -> Result<TokenKey, OutOfMemory> {
        Ok(match self {
            TokenKey::Sso {
                session,
                region,
                start_url,
            } => TokenKey::Sso {
                session: session.copy(alloc)?,
                region: region.copy(alloc)?,
                start_url: start_url.copy(alloc)?,
            },
            TokenKey::Login { session } => TokenKey::Login {
                session: session.copy(alloc)?,
            },
        })
    }
}
