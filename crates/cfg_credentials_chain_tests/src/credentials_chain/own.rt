//! Sources of the test's own.
use cfg_providers::ProvideCredentials;
use cfg_types::{
    Credentials, CredentialsError, FailKind, NotLoadedCause, OutOfMemory, ProviderCause, TryCopy,
};
use std::alloc::Global;

/// It fails.
#[derive(Drop)]
pub(crate) struct Failing;

impl ProvideCredentials for Failing {
    ghost use Rattle.std.specs.Prelude.{None, Err};
    ghost use Rattle.cfg_types.specs.declared.errors.CredentialsError.TheVariants.{ProviderError};
    ghost use Rattle.cfg_types.specs.declared.errors.ProviderCause.TheVariants.{Sent};
    ghost use Rattle.cfg_types.specs.declared.reply.FailKind.TheVariants.{Timeout};

    ghost value = { λ s. Err (ProviderError (Sent Timeout)) };

    ghost fallback = { λ s. None };

    fn provide_credentials(&self) -> Result<Credentials, CredentialsError> {
        Err(CredentialsError::ProviderError(ProviderCause::Sent(FailKind::Timeout)))
    }

    fn fallback_on_interrupt(&self) -> Result<Option<Credentials>, OutOfMemory> {
        Ok(None)
    }
}

/// It is not loaded, and falls back on these.
pub(crate) struct Sparing {
    pub(crate) alloc: Global,
    pub(crate) spare: Credentials,
}

impl Drop for Sparing {
    fn drop(self) {
        let Sparing { alloc: _, spare: _ } = self;
    }
}

impl ProvideCredentials for Sparing {
    ghost use Rattle.std.specs.Prelude.{Some, Err};
    ghost use Rattle.cfg_types.specs.declared.errors.CredentialsError.TheVariants.{CredentialsNotLoaded};
    ghost use Rattle.cfg_types.specs.declared.errors.NotLoadedCause.TheVariants.{NotConfigured};

    ghost value = { λ s. Err (CredentialsNotLoaded NotConfigured) };

    ghost fallback = { λ s. Some s.spare };

    fn provide_credentials(&self) -> Result<Credentials, CredentialsError> {
        Err(CredentialsError::CredentialsNotLoaded(NotLoadedCause::NotConfigured))
    }

    fn fallback_on_interrupt(&self) -> Result<Option<Credentials>, OutOfMemory> {
        let spare = self.spare.copy(self.alloc)?;
        Ok(Some(spare))
    }
}
