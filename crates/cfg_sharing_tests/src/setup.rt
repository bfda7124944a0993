//! The chain that a script configures, and worlds over the devices that scripts say.
ghost use Rattle.std.specs.Prelude.{◌≡◌, [], All, IfOk};

use cfg_chain::{ChainCore, DefaultCredentialsChain};
use cfg_profile::{ProfileSet, ProfileSource, ProviderConfig, Section};
use cfg_script::{Script, ScriptError, ScriptProfiles, read_script};
use cfg_types::{Credentials, CredentialsError, Env, OutOfMemory};
use cfg_world::{Devices, ScriptDevices, World};
use std::alloc::{AllocError, Global};

fn sections(
    alloc: Global,
    rows: Vec<(String, Vec<(String, String)>)>,
) -> Result<Vec<Section>, OutOfMemory> {
    let mut sections = Vec::new(alloc);
    for (name, properties) in rows {
        sections.push(Section::of(name, properties))?;
    }
    Ok(sections)
}

fn source(alloc: Global, profiles: ScriptProfiles) -> Result<ProfileSource, OutOfMemory> {
    match profiles {
        ScriptProfiles::Refused(message) => Ok(ProfileSource::Refused(message)),
        ScriptProfiles::Sections { profiles, sessions } => {
            let profiles = sections(alloc, profiles)?;
            let sessions = sections(alloc, sessions)?;
            let set = ProfileSet::new(alloc, profiles, sessions, "default")?;
            Ok(ProfileSource::Sections(set))
        }
    }
}

fn chain_by(alloc: Global, script: Script) -> Result<DefaultCredentialsChain, OutOfMemory> {
    let config = ProviderConfig::without_region(alloc)?
        .with_env(Env::new(alloc, script.variables)?)
        .with_profiles(source(alloc, script.profiles)?);
    Ok(DefaultCredentialsChain {
        core: ChainCore::of(alloc, config)?,
        custom_sources: Vec::new(alloc),
        imds_client: None,
    })
}

/// The chain of a script's variables and sections, without a region.
pub(crate) fn chain_of(
    alloc: Global,
    script: &str,
) -> Result<DefaultCredentialsChain, ScriptError> {
    let script = read_script(alloc, script.as_bytes())?;
    Ok(chain_by(alloc, script)?)
}

/// The devices that a script says.
pub(crate) fn devices_of(alloc: Global, script: &str) -> Result<ScriptDevices, ScriptError> {
    let script = read_script(alloc, script.as_bytes())?;
    Ok(ScriptDevices::new(alloc, script.devices)?)
}

/// A new world over each of these devices.
pub(crate) fn worlds_over<D: Devices + Drop>(
    alloc: Global,
    devices: Vec<D>,
) -> Result<Vec<World<D>>, OutOfMemory>
    ensures { IfOk result (λ worlds. All (λ w. w.journal ≡ []) worlds.items) }
{
    let mut worlds = Vec::new(alloc);
    for one in devices {
        worlds.push(World::new(alloc, one))?;
    }
    Ok(worlds)
}

/// The id of the keys, or that there are none.
pub(crate) fn answer_words(
    alloc: Global,
    answer: &Result<Credentials, CredentialsError>,
) -> Result<String, AllocError> {
    match answer {
        Ok(keys) => String::from_str(alloc, keys.access_key_id()),
        Err(error) => format!(in alloc; "{error}"),
    }
}
