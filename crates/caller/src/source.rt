//! A source of credentials of the caller's own.
ghost use Rattle.std.specs.Prelude.{◌≡◌, IfOk};
ghost use Rattle.caller.specs.Sources.{vault_keys};

use aws_config::custom::ProvideCredentials;
use aws_config::{Credentials, CredentialsBuilder, CredentialsError, OutOfMemory};
use std::alloc::Global;

/// Answers the same keys at each call, and falls back on nothing.
pub struct Vault {
    alloc: Global,
}

impl Vault {
    /// A source that makes its keys by this allocator, at each call.
    pub fn new(alloc: Global) -> Vault {
        Vault { alloc }
    }
}

impl Drop for Vault {
    fn drop(self) {
        let Vault { alloc: _ } = self;
    }
}

impl ProvideCredentials for Vault {
    ghost use Rattle.std.specs.Prelude.{None, Ok};
    ghost use Rattle.caller.specs.Sources.{vault_keys};

    ghost value = { λ s. Ok vault_keys };

    ghost fallback = { λ s. None };

    fn provide_credentials(&self) -> Result<Credentials, CredentialsError> {
        Ok(credentials(self.alloc)?)
    }

    fn fallback_on_interrupt(&self) -> Result<Option<Credentials>, OutOfMemory> {
        Ok(None)
    }
}

fn credentials(alloc: Global) -> Result<Credentials, OutOfMemory>
    ensures { IfOk result (λ c. c ≡ vault_keys) }
{
    CredentialsBuilder::new(alloc, "VAULTID", "VAULTSECRET", "Vault")?.build()
}
