//! What a script gives a role or a chain over given members, and the words of its answers.
ghost use Rattle.cfg_world.specs.Script.{AllFit};
ghost use Rattle.cfg_script.specs.Script.{plain};
ghost use Rattle.cfg_script.specs.Devices.{lists_of};

use cfg_profile::ProviderConfig;
use cfg_script::{Script, ScriptError, read_script};
use cfg_types::{Credentials, CredentialsError, Env, OutOfMemory};
use cfg_world::{ScriptDevices, World};
use std::alloc::{AllocError, Global};

/// A configuration, and a world for its calls.
pub(crate) struct Setup {
    pub(crate) config: ProviderConfig,
    pub(crate) world: World<ScriptDevices>,
}

fn set_up_by(alloc: Global, script: Script) -> Result<Setup, OutOfMemory>
    requires { AllFit (lists_of (plain script)) }
{
    let config = ProviderConfig::empty(alloc)?.with_env(Env::new(alloc, script.variables)?);
    let world = World::new(alloc, ScriptDevices::new(alloc, script.devices)?);
    Ok(Setup { config, world })
}

/// The variables of a script, and a world over the devices that it scripts.
pub(crate) fn set_up(alloc: Global, script: &str) -> Result<Setup, ScriptError> {
    let script = read_script(alloc, script.as_bytes())?;
    Ok(set_up_by(alloc, script)?)
}

/// The key's id, the provider and the features of credentials, or why there are none.
pub(crate) fn answer_words(
    alloc: Global,
    answer: &Result<Credentials, CredentialsError>,
) -> Result<String, AllocError> {
    match answer {
        Ok(keys) => {
            let id = keys.access_key_id();
            let provider = keys.provider_name();
            let features = keys.features();
            format!(in alloc; "{id} {provider} {features:?}")
        }
        Err(error) => format!(in alloc; "{error:?}"),
    }
}
