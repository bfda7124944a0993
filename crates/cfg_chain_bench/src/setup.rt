//! What a script sets up.
ghost use Rattle.cfg_world.specs.Script.{AllFit};
ghost use Rattle.cfg_script.specs.Script.{plain};
ghost use Rattle.cfg_script.specs.Devices.{lists_of};

use cfg_chain::{ChainCore, DefaultCredentialsChain};
use cfg_profile::{ProfileSet, ProfileSource, ProviderConfig, Section};
use cfg_script::{Script, ScriptError, ScriptProfiles, read_script};
use cfg_types::{Env, OutOfMemory};
use cfg_world::ScriptDevices;
use std::alloc::Global;

/// A configuration without a region, and devices for the calls of its chain.
#[derive(Drop)]
pub struct Setup {
    pub config: ProviderConfig,
    pub devices: ScriptDevices,
}

/// What a script configures, and the devices that it scripts. `NoScript` where the bytes are no script.
pub fn set_up(alloc: Global, bytes: &[u8]) -> Result<Setup, ScriptError> {
    let script = read_script(alloc, bytes)?;
    Ok(set_up_by(alloc, script)?)
}

/// The chain of a configuration, without sources and without a client of its own.
pub fn chain_over(
    alloc: Global,
    config: ProviderConfig,
) -> Result<DefaultCredentialsChain, OutOfMemory> {
    // A literal, and not the builder: a function that hands on what may hold a box has to make it itself.
    Ok(DefaultCredentialsChain {
        core: ChainCore::of(alloc, config)?,
        custom_sources: Vec::new(alloc),
        imds_client: None,
    })
}

fn set_up_by(alloc: Global, script: Script) -> Result<Setup, OutOfMemory>
    requires { AllFit (lists_of (plain script)) }
{
    let Script {
        variables,
        profiles,
        selected,
        region: _,
        sleep,
        service: _,
        calls: _,
        devices,
    } = script;
    let config = ProviderConfig::without_region(alloc)?
        .with_env(Env::new(alloc, variables)?)
        .with_profiles(source(alloc, profiles)?)
        .with_sleep_impl(sleep);
    let config = match selected {
        None => config,
        Some(name) => config.with_profile_name(alloc, name.as_str())?,
    };
    let devices = ScriptDevices::new(alloc, devices)?;
    Ok(Setup { config, devices })
}

fn source(alloc: Global, profiles: ScriptProfiles) -> Result<ProfileSource, OutOfMemory> {
    match profiles {
        ScriptProfiles::Refused(reason) => Ok(ProfileSource::Refused(reason)),
        ScriptProfiles::Sections { profiles, sessions } => {
            let profiles = sections(alloc, profiles)?;
            let sessions = sections(alloc, sessions)?;
            let set = ProfileSet::new(alloc, profiles, sessions, "default")?;
            Ok(ProfileSource::Sections(set))
        }
    }
}

fn sections(
    alloc: Global,
    rows: Vec<(String, Vec<(String, String)>)>,
) -> Result<Vec<Section>, OutOfMemory> {
    let mut sections = Vec::new(alloc);
    for (name, properties) in rows {
        sections.push(Section::of(name, properties))?;
    }
    Ok(sections)
}
