//! What a script gives a source of a region.
ghost use Rattle.cfg_world.specs.Script.{AllFit};
ghost use Rattle.cfg_script.specs.Script.{plain};
ghost use Rattle.cfg_script.specs.Devices.{lists_of};

use cfg_profile::{ProfileSet, ProfileSource, ProviderConfig, Section};
use cfg_script::{Script, ScriptError, ScriptProfiles, read_script};
use cfg_types::{Env, OutOfMemory};
use cfg_world::{DeviceLists, ScriptDevices, World};
use std::alloc::Global;

/// A configuration, and a world over devices for its calls.
pub(crate) struct Setup {
    pub(crate) config: ProviderConfig,
    pub(crate) world: World<ScriptDevices>,
}

fn profiles_of(alloc: Global, given: ScriptProfiles) -> Result<ProfileSource, OutOfMemory> {
    let mut sections = Vec::new(alloc);
    match given {
        ScriptProfiles::Refused(reason) => return Ok(ProfileSource::Refused(reason)),
        ScriptProfiles::Sections {
            profiles,
            sessions: _,
        } => {
            for (name, properties) in profiles {
                sections.push(Section::of(name, properties))?;
            }
        }
    }
    let set = ProfileSet::new(alloc, sections, Vec::new(alloc), "default")?;
    Ok(ProfileSource::Sections(set))
}

fn set_up_over(
    alloc: Global,
    config: ProviderConfig,
    lists: DeviceLists,
) -> Result<Setup, OutOfMemory>
    requires { AllFit lists }
{
    let devices = ScriptDevices::new(alloc, lists)?;
    let world = World::new(alloc, devices);
    Ok(Setup { config, world })
}

fn set_up_by(alloc: Global, script: Script) -> Result<Setup, OutOfMemory>
    requires { AllFit (lists_of (plain script)) }
{
    let env = Env::new(alloc, script.variables)?;
    let profiles = profiles_of(alloc, script.profiles)?;
    let config = ProviderConfig::empty(alloc)?;
    let config = config.with_env(env).with_profiles(profiles);
    set_up_over(alloc, config, script.devices)
}

/// The configuration of a script, and a world over its devices.
pub(crate) fn set_up(alloc: Global, script: &str) -> Result<Setup, ScriptError> {
    let script = read_script(alloc, script.as_bytes())?;
    Ok(set_up_by(alloc, script)?)
}
