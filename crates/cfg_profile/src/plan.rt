//! Plans: what a profile gives credentials by, where its source is there.
ghost use Rattle.std.specs.Prelude.{◌≡◌, IfOk, Ok};
ghost use Rattle.cfg_base.specs.Gives.{Gives};
ghost use Rattle.cfg_types.specs.declared.errors.ProfileFileError.TheVariants.{OutOfMemory as memory, UnknownProvider};
ghost use Rattle.cfg_profile.specs.NamedSources.{IsPlan, is_alike as alike, is_named as named, is_custom as custom, is_built_in as built_in, is_known as known, gives_token as token, planned};

use crate::chain::{BaseProvider, ProfileChain};
use crate::resolve::chain_of_profile;
use crate::sections::ProfileSet;
use cfg_types::{OutOfMemory, ProfileFileError, Text, TryCopy};
use std::alloc::Global;

/// What the selected profile of the set gives credentials by, by the rules of [`plan_of_profile`] and with
/// its errors. Selected is the profile whose name the set was made with.
pub fn plan_of(
    alloc: Global,
    set: &ProfileSet,
    sources: &[Text],
) -> Result<ProfileChain, ProfileFileError>
    ensures { Gives memory result (IsPlan set.now set.now.selected sources.now) }
{
    plan_of_profile(alloc, set, set.selected_profile(), sources)
}

/// What the profile of this name gives credentials by, where the caller has sources of these names.
/// The errors are those of [`chain_of_profile`], and two more: `UnknownProvider` where the base is a
/// source that neither the caller has nor is always there (`Environment`, `Ec2InstanceMetadata`,
/// `EcsContainer`), and `TokenProviderConfig` where it is single sign-on without an account and a role.
/// Names of sources are compared without regard to ASCII case; blanks count.
pub fn plan_of_profile(
    alloc: Global,
    set: &ProfileSet,
    name: &str,
    sources: &[Text],
) -> Result<ProfileChain, ProfileFileError>
    ensures { Gives memory result (IsPlan set.now name.now sources.now) }
{
    let chain = chain_of_profile(alloc, set, name)?;
    with_known_source(alloc, chain, sources)
}

// The chain, where its base gives credentials by a source that is there.
fn with_known_source(
    alloc: Global,
    chain: ProfileChain,
    sources: &[Text],
) -> Result<ProfileChain, ProfileFileError>
    ensures { Gives memory result (λ answer. answer ≡ planned sources.now (Ok chain)) }
{
    match &chain.base {
        BaseProvider::NamedSource(name) => {
            if is_known(sources, name) {
                Ok(chain)
            } else {
                Err(unknown_provider(alloc, name)?)
            }
        }
        base => {
            if gives_token(base) {
                Err(ProfileFileError::TokenProviderConfig)
            } else {
                Ok(chain)
            }
        }
    }
}

fn unknown_provider(alloc: Global, name: &Text) -> Result<ProfileFileError, OutOfMemory>
    ensures { IfOk result (λ e. e ≡ UnknownProvider name.now) }
{
    let name = name.copy(alloc)?;
    Ok(ProfileFileError::UnknownProvider { name })
}

// Whether the base gives an access token, and no credentials.
fn gives_token(base: &BaseProvider) -> bool
    ensures { result ≡ token base.now }
{
    match base {
        BaseProvider::Sso {
            sso_account_id,
            sso_role_name,
            ..
        } => sso_account_id.is_none() && sso_role_name.is_none(),
        _ => false,
    }
}

// Whether a source of credentials has this name.
fn is_known(sources: &[Text], name: &Text) -> bool
    ensures { result ≡ known sources.now name.now }
{
    is_custom(sources, name) || is_built_in(name)
}

fn is_custom(sources: &[Text], name: &Text) -> bool
    ensures { result ≡ custom sources.now name.now }
{
    for source in sources {
        if is_named(name, source) {
            return true;
        }
    }
    false
}

const BUILT_IN: [&str; 3] = ["Environment", "Ec2InstanceMetadata", "EcsContainer"];

fn is_built_in(name: &Text) -> bool
    ensures { result ≡ built_in name.now }
{
    for source in BUILT_IN.as_slice() {
        if is_alike(name, source) {
            return true;
        }
    }
    false
}

/// Whether this is the name of a source, ASCII case of letters apart. Every other byte counts, blanks
/// too.
pub fn is_named(name: &Text, source: &Text) -> bool
    ensures { result ≡ named name.now source.now }
{
    is_alike(name, source.as_str())
}

/// Whether this is the name of the source, ASCII case of letters apart. Blanks count.
pub fn is_alike(name: &Text, source: &str) -> bool
    ensures { result ≡ alike name.now source.now }
{
    source.eq_ignore_ascii_case(name.as_str())
}
