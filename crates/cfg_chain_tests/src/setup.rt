//! The chain that a script configures, over the devices that it scripts.
ghost use Rattle.std.specs.Prelude.{◌≡◌};
ghost use Rattle.cfg_world.specs.Script.{AllFit};
ghost use Rattle.cfg_script.specs.Script.{plain};
ghost use Rattle.cfg_script.specs.Devices.{lists_of};
ghost use Rattle.cfg_kept.specs.KeptStates.{kept_key};
ghost use Rattle.cfg_chain.specs.profile.Plans.{key_of};

use crate::own::source_of;
use cfg_chain::{Answered, DefaultCredentialsChain};
use cfg_kept::{Kept, SharedKept};
use cfg_profile::{ProfileSet, ProfileSource, ProviderConfig, Section};
use cfg_region::RegionSource;
use cfg_script::{Script, ScriptError, ScriptProfiles, read_script};
use cfg_types::{
    Credentials, CredentialsError, Env, EnvText, OutOfMemory, Outcome, Region, TryCopy,
};
use cfg_world::{Asking, Entry, ScriptDevices, World};
use std::alloc::{AllocError, Global};
use std::sync::Wait;

/// A chain with sources of the tests' own, and devices for its calls.
pub(crate) struct Setup {
    pub(crate) chain: DefaultCredentialsChain,
    pub(crate) devices: ScriptDevices,
}

fn sections(
    alloc: Global,
    rows: Vec<(String, Vec<(String, String)>)>,
) -> Result<Vec<Section>, OutOfMemory> {
    let mut sections = Vec::new(alloc);
    for (name, properties) in rows {
        sections.push(Section::new(alloc, name.as_str(), properties)?)?;
    }
    Ok(sections)
}

fn source(alloc: Global, profiles: ScriptProfiles) -> Result<ProfileSource, OutOfMemory> {
    match profiles {
        ScriptProfiles::Refused(message) => Ok(ProfileSource::Refused(message)),
        ScriptProfiles::Sections { profiles, sessions } => {
            let profiles = sections(alloc, profiles)?;
            let sessions = sections(alloc, sessions)?;
            let set = ProfileSet::new(alloc, profiles, sessions, "default")?;
            Ok(ProfileSource::Sections(set))
        }
    }
}

// A configuration; where no name is selected, its copy.
fn config(
    alloc: Global,
    variables: Vec<(String, EnvText)>,
    profiles: ScriptProfiles,
    selected: Option<String>,
    sleep: bool,
) -> Result<ProviderConfig, OutOfMemory> {
    let config = ProviderConfig::empty(alloc)?
        .with_env(Env::new(alloc, variables)?)
        .with_sleep_impl(sleep);
    let config = config.with_profiles(source(alloc, profiles)?);
    match selected {
        None => config.copy(alloc),
        Some(name) => config.with_profile_name(alloc, name.as_str()),
    }
}

// The chain with this configuration and two sources of the name of one that is always there, in this region.
pub(crate) fn chain_of(
    alloc: Global,
    config: ProviderConfig,
    region: Option<Region>,
    world: &mut World<ScriptDevices>,
) -> Result<DefaultCredentialsChain, OutOfMemory> {
    let mut builder = DefaultCredentialsChain::builder(alloc)?.configure(config);
    builder.set_region(Some(RegionSource::Fixed(region)));
    let builder = builder.with_custom_credential_source(
        "ecscontainer",
        source_of(alloc, "FIRST")?,
    )?;
    let builder = builder.with_custom_credential_source(
        "ECScontainer",
        source_of(alloc, "SECOND")?,
    )?;
    builder.build(world)
}

/// A configuration, and a world for its calls.
pub(crate) struct Configured {
    pub(crate) config: ProviderConfig,
    pub(crate) world: World<ScriptDevices>,
}

fn configure(alloc: Global, script: Script) -> Result<Configured, OutOfMemory>
    requires { AllFit (lists_of (plain script)) }
{
    let config = config(
        alloc,
        script.variables,
        script.profiles,
        script.selected,
        script.sleep,
    )?;
    let world = World::new(alloc, ScriptDevices::new(alloc, script.devices)?);
    Ok(Configured { config, world })
}

/// What a script configures, and a world over the devices that it scripts.
pub(crate) fn read_configuration(alloc: Global, script: &str) -> Result<Configured, ScriptError> {
    let script = read_script(alloc, script.as_bytes())?;
    Ok(configure(alloc, script)?)
}

// The chain over what is configured, in a region.
fn set_up_over(alloc: Global, configured: Configured) -> Result<Setup, OutOfMemory> {
    let Configured { config, mut world } = configured;
    let region = Region::new(alloc, "eu-west-1")?;
    let chain = chain_of(alloc, config, Some(region), &mut world)?;
    let devices = world.into_devices();
    Ok(Setup { chain, devices })
}

/// The chain that a script configures, and the devices that it scripts.
pub(crate) fn set_up(alloc: Global, script: &str) -> Result<Setup, ScriptError> {
    let configured = read_configuration(alloc, script)?;
    Ok(set_up_over(alloc, configured)?)
}

/// An answer, with the secret, the token and the features of credentials.
pub(crate) fn answer_words(
    alloc: Global,
    answer: &Result<Credentials, CredentialsError>,
) -> Result<String, AllocError> {
    match answer {
        Ok(keys) => {
            let secret = keys.secret_access_key();
            let token = keys.session_token();
            let features = keys.features();
            format!(in alloc; "{keys:?} {secret} {token:?} {features:?}")
        }
        Err(error) => format!(in alloc; "{error:?}"),
    }
}

/// What a call of the chain answers on what is kept. None where what is kept is not that of a chain with its key.
pub(crate) fn called(
    chain: &DefaultCredentialsChain,
    kept: &mut Kept,
    world: &mut World<ScriptDevices>,
) -> Option<Outcome<Credentials, CredentialsError>> {
    if !kept.fits(chain.token_key()) {
        return None;
    }
    Some(Outcome {
        answer: chain.provide_credentials(kept, world),
    })
}

/// The same over kept states that are shared.
pub(crate) fn called_shared<R: Wait>(
    rt: &R,
    chain: &DefaultCredentialsChain,
    kept: &SharedKept,
    world: &mut World<ScriptDevices>,
) -> Option<Answered> {
    if !kept.fits(chain.token_key()) {
        return None;
    }
    Some(chain.provide_credentials_shared(rt, kept, world))
}

/// What a call of the chain answers.
pub(crate) fn answered(
    alloc: Global,
    chain: &DefaultCredentialsChain,
    world: &mut World<ScriptDevices>,
) -> Result<String, OutOfMemory> {
    let mut kept = chain.new_kept()?;
    let outcome = Outcome {
        answer: chain.provide_credentials(&mut kept, world),
    };
    Ok(answer_words(alloc, &outcome.answer)?)
}

/// What the chain comes to over anything that can be asked, or why it stops.
pub(crate) fn followed<A: Asking>(
    alloc: Global,
    chain: &DefaultCredentialsChain,
    asking: &mut A,
) -> Result<String, OutOfMemory> {
    let mut kept = chain.new_kept()?;
    followed_on(alloc, chain, &mut kept, asking)
}

/// The same on what is kept.
pub(crate) fn followed_on<A: Asking>(
    alloc: Global,
    chain: &DefaultCredentialsChain,
    kept: &mut Kept,
    asking: &mut A,
) -> Result<String, OutOfMemory>
    requires { kept_key kept.old ≡ key_of chain.now.core }
{
    match chain.follow(kept, asking) {
        Ok(answer) => {
            let outcome = Outcome { answer };
            Ok(answer_words(alloc, &outcome.answer)?)
        }
        Err(stop) => Ok(format!(in alloc; "{stop:?}")?),
    }
}

/// The questions of a journal.
pub(crate) fn questions(alloc: Global, journal: &[Entry]) -> Result<String, AllocError> {
    let mut words = String::new(alloc);
    for entry in journal {
        let question = entry.question();
        let question = format!(in alloc; " {question:?}")?;
        words.push_str(question.as_str())?;
    }
    Ok(words)
}
