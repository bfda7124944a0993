//! A source of credentials of the program's own. A script's profiles find it by the name `Fixed`.
ghost use Rattle.std.specs.Prelude.{◌≡◌, IfOk};
ghost use Rattle.bujerova.specs.Fixed.{fixed_keys};

use cfg_providers::ProvideCredentials;
use cfg_types::{Credentials, CredentialsBuilder, CredentialsError, OutOfMemory};
use std::alloc::Global;

/// The name of the source.
pub const NAME: &str = "Fixed";

/// Answers the id `FIXEDID` and the secret `FIXEDSECRET`, without expiry, or that memory ran out. It falls back on
/// nothing.
pub struct Fixed {
    alloc: Global,
}

impl Drop for Fixed {
    fn drop(self) {
        let Fixed { alloc: _ } = self;
    }
}

impl Fixed {
    /// A source that makes its credentials by this allocator, at each call.
    pub fn new(alloc: Global) -> Fixed {
        Fixed { alloc }
    }
}

impl ProvideCredentials for Fixed {
    ghost use Rattle.std.specs.Prelude.{None, Ok};
    ghost use Rattle.bujerova.specs.Fixed.{fixed_keys};

    ghost value = { λ s. Ok fixed_keys };

    ghost fallback = { λ s. None };

    fn provide_credentials(&self) -> Result<Credentials, CredentialsError> {
        let credentials = credentials(self.alloc)?;
        Ok(credentials)
    }

    fn fallback_on_interrupt(&self) -> Result<Option<Credentials>, OutOfMemory> {
        Ok(None)
    }
}

fn credentials(alloc: Global) -> Result<Credentials, OutOfMemory>
    ensures { IfOk result (λ c. c ≡ fixed_keys) }
{
    let builder = CredentialsBuilder::new(alloc, "FIXEDID", "FIXEDSECRET", NAME)?;
    let credentials = builder.build()?;
    Ok(credentials)
}
