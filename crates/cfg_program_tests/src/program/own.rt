//! A source of credentials that the tests bring.
use cfg_providers::{CustomSource, ProvideCredentials};
use cfg_types::{Credentials, CredentialsBuilder, CredentialsError, OutOfMemory, Text};
use std::alloc::Global;

// Always the same keys.
struct Always {
    alloc: Global,
}

impl Drop for Always {
    fn drop(self) {
        let Always { alloc: _ } = self;
    }
}

impl ProvideCredentials for Always {
    ghost use Rattle.std.specs.Prelude.{None, Ok, codes};
    ghost use Rattle.cfg_types.specs.Keys.{bare_keys};

    ghost value = { λ s. Ok (bare_keys (codes "ID") (codes "SECRET") (codes "Own")) };

    ghost fallback = { λ s. None };

    fn provide_credentials(&self) -> Result<Credentials, CredentialsError> {
        let builder = CredentialsBuilder::new(self.alloc, "ID", "SECRET", "Own")?;
        let credentials = builder.build()?;
        Ok(credentials)
    }

    fn fallback_on_interrupt(&self) -> Result<Option<Credentials>, OutOfMemory> {
        Ok(None)
    }
}

/// Its source, by this name.
pub(crate) fn own_source(alloc: Global, name: &str) -> Result<CustomSource, OutOfMemory> {
    let provider = Box::new(alloc, Always { alloc })?;
    let name = Text::of(alloc, name)?;
    Ok(CustomSource { name, provider })
}
