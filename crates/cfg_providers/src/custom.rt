//! Sources of credentials that a caller brings.
ghost use Rattle.std.specs.Prelude.{◌≡◌, IfOk, IfSome, Some, false, is_some, map, option_map, Option, Result};
ghost use Rattle.cfg_types.specs.Keys.{Keys};
ghost use Rattle.cfg_types.specs.declared.errors.CredentialsError.{CredentialsError as Refusal};
ghost use Rattle.cfg_types.specs.Classes.{is_memory};
ghost use Rattle.cfg_providers.specs.CustomSources.{named, last_named};

use cfg_profile::is_named;
use cfg_types::{
    Credentials, CredentialsError, OutOfMemory, Text, TryCopy, is_memory as is_memory_answer,
};
use std::alloc::Global;

/// A source, as it is handed in.
pub type CustomProvider = Box<dyn ProvideCredentials + Send + Sync + Drop>;

/// A source of credentials that a caller brings. It answers without the world, and each time the same:
/// the value that it stands for, or that memory ran out.
pub trait ProvideCredentials: Send + Sync {
    /// What it answers.
    ghost value: { Self → Result Keys Refusal };

    /// What it falls back on.
    ghost fallback: { Self → Option Keys };

    /// The credentials, or why there are none. `OutOfMemory` where memory runs out.
    fn provide_credentials(&self) -> Result<Credentials, CredentialsError>
        ensures { is_memory result ≡ false → result ≡ value self.now };

    /// The credentials to go on with where a call was interrupted. Most sources have none. `OutOfMemory`
    /// where memory runs out.
    fn fallback_on_interrupt(&self) -> Result<Option<Credentials>, OutOfMemory>
        ensures { IfOk result (λ keys. keys ≡ fallback self.now) };
}

/// A source with the name that a profile's `credential_source` finds it by.
#[derive(Drop)]
pub struct CustomSource {
    /// The name.
    pub name: Text,
    /// What answers under it.
    pub provider: CustomProvider,
}

// The last of these sources that has the name.
fn custom_source<'a>(sources: &'a [CustomSource], name: &Text) -> Option<&'a CustomSource>
    ensures { option_map (λ s. (named value s.now).1) result ≡ last_named name.now (map (named value) sources.now) }
{
    let mut found = None;
    for source in sources {
        if is_named(name, &source.name) {
            found = Some(source);
        }
    }
    found
}

/// What the last of these sources that has the name answers, ASCII case of letters apart. Every other byte
/// counts, blanks too. None where no source has it. An error is the source's own, or `OutOfMemory` where
/// memory runs out.
pub fn provide_by_name(
    sources: &[CustomSource],
    name: &Text,
) -> Option<Result<Credentials, CredentialsError>>
    ensures there { is_some result ≡ is_some (last_named name.now (map (named value) sources.now)) }
    ensures answer { IfSome result (λ answer. is_memory answer ≡ false → last_named name.now (map (named value) sources.now) ≡ Some answer) }
{
    match custom_source(sources, name) {
        None => None,
        Some(source) => Some(source.provider.provide_credentials()),
    }
}

/// What a source answers. `OutOfMemory` where memory ran out.
pub fn answer_of(
    source: &CustomProvider,
) -> Result<Result<Credentials, CredentialsError>, OutOfMemory>
    ensures { IfOk result (λ answer. answer ≡ value source.now) }
{
    let answer = source.provide_credentials();
    if is_memory_answer(&answer) {
        return Err(OutOfMemory);
    }
    Ok(answer)
}

/// The names of these sources, in order, as a plan takes them. `OutOfMemory` where memory runs out.
pub fn names_of(alloc: Global, sources: &[CustomSource]) -> Result<Vec<Text>, OutOfMemory>
    ensures { IfOk result (λ names. names.items ≡ map (λ s. s.0) (map (named value) sources.now)) }
{
    let mut names = Vec::new(alloc);
    for source in sources {
        let name = source.name.copy(alloc)?;
        names.push(name)?;
    }
    Ok(names)
}
