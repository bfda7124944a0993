//! Which source a name means, and what it answers.
use cfg_providers::steps::{names_of, provide_by_name};
use cfg_providers::{CustomSource, ProvideCredentials};
use cfg_types::{Credentials, CredentialsError, NotLoadedCause, OutOfMemory, Text, TryCopy};
use std::alloc::Global;
use std::test::Fail;

// A source that has no credentials, and says so by its own name.
struct Empty {
    alloc: Global,
    name: Text,
}

impl Drop for Empty {
    fn drop(self) {
        let Empty { alloc: _, name: _ } = self;
    }
}

impl ProvideCredentials for Empty {
    ghost use Rattle.std.specs.Prelude.{None, Err};
    ghost use Rattle.cfg_types.specs.declared.errors.CredentialsError.TheVariants.{CredentialsNotLoaded};
    ghost use Rattle.cfg_types.specs.declared.errors.NotLoadedCause.TheVariants.{NotSet};

    ghost value = { λ s. Err (CredentialsNotLoaded (NotSet s.name)) };

    ghost fallback = { λ s. None };

    fn provide_credentials(&self) -> Result<Credentials, CredentialsError> {
        let name = self.name.copy(self.alloc)?;
        Err(CredentialsError::CredentialsNotLoaded(NotLoadedCause::NotSet(name)))
    }

    fn fallback_on_interrupt(&self) -> Result<Option<Credentials>, OutOfMemory> {
        Ok(None)
    }
}

fn source(alloc: Global, name: &str, own: &str) -> Result<CustomSource, OutOfMemory> {
    let own = Text::of(alloc, own)?;
    let provider = Box::new(alloc, Empty { alloc, name: own })?;
    let name = Text::of(alloc, name)?;
    Ok(CustomSource { name, provider })
}

fn sources(alloc: Global) -> Result<Vec<CustomSource>, OutOfMemory> {
    let mut sources = Vec::new(alloc);
    sources.push(source(alloc, "Mine", "first")?)?;
    sources.push(source(alloc, "mine", "second")?)?;
    Ok(sources)
}

// The names of the sources, and what the one that is meant answers.
fn words_of(alloc: Global, name: &str) -> Result<String, OutOfMemory> {
    let sources = sources(alloc)?;
    let names = names_of(alloc, sources.as_slice())?;
    let name = Text::of(alloc, name)?;
    match provide_by_name(sources.as_slice(), &name) {
        Some(Err(error)) => Ok(format!(in alloc; "{names:?} {error:?}")?),
        Some(Ok(credentials)) => Ok(format!(in alloc; "{credentials:?}")?),
        None => Ok(String::from_str(alloc, "none")?),
    }
}

#[test]
fn custom_sources(rt: HostRuntime) -> Result<(), Fail> {
    let table: &[(&str, &str)] = &[
        (
            "MINE",
            r#"["Mine", "mine"] CredentialsNotLoaded(NotSet("second"))"#,
        ),
        ("mine ", "none"),
    ];
    for (name, want) in table {
        let words = words_of(rt.alloc(), name)?;
        assert_eq!(rt; words.as_str(), *want, "{name}");
    }
    Ok(())
}
