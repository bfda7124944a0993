//! Sources of credentials that the tests bring.
use cfg_providers::{CustomProvider, ProvideCredentials};
use cfg_types::{Credentials, CredentialsBuilder, CredentialsError, OutOfMemory, Text};
use std::alloc::Global;

// Keys of this id.
struct Keys {
    alloc: Global,
    id: Text,
}

impl Drop for Keys {
    fn drop(self) {
        let Keys { alloc: _, id: _ } = self;
    }
}

impl ProvideCredentials for Keys {
    ghost use Rattle.std.specs.Prelude.{None, Ok, codes};
    ghost use Rattle.cfg_types.specs.Keys.{bare_keys};

    ghost value = { λ s. Ok (bare_keys s.id (codes "SECRET") (codes "Own")) };

    ghost fallback = { λ s. None };

    fn provide_credentials(&self) -> Result<Credentials, CredentialsError> {
        let builder = CredentialsBuilder::new(self.alloc, self.id.as_str(), "SECRET", "Own")?;
        let credentials = builder.build()?;
        Ok(credentials)
    }

    fn fallback_on_interrupt(&self) -> Result<Option<Credentials>, OutOfMemory> {
        Ok(None)
    }
}

/// A source of keys of this id.
pub(crate) fn source_of(alloc: Global, id: &str) -> Result<CustomProvider, OutOfMemory> {
    let id = Text::of(alloc, id)?;
    Ok(Box::new(alloc, Keys { alloc, id })?)
}
