//! What a script gives a provider of metadata credentials, and what its calls answer and ask.
ghost use Rattle.cfg_world.specs.Script.{AllFit};
ghost use Rattle.cfg_script.specs.Script.{plain};
ghost use Rattle.cfg_script.specs.Devices.{lists_of};

use crate::outcome::{CredentialsOutcome, answer_words};
use cfg_imds_credentials::ImdsCredentialsProvider;
use cfg_kept::{Kept, Place};
use cfg_profile::ProviderConfig;
use cfg_script::Script;
use cfg_types::{Env, EnvText, OutOfMemory, Outcome, Text};
use cfg_world::{DeviceLists, ScriptDevices, World};
use std::alloc::Global;

fn switched_off(alloc: Global) -> Result<ProviderConfig, OutOfMemory> {
    let mut variables = Vec::new(alloc);
    let name = String::from_str(alloc, "AWS_EC2_METADATA_DISABLED")?;
    let value = Text::of(alloc, "TRUE")?;
    variables.push((name, EnvText::Text(value)))?;
    Ok(ProviderConfig::empty(alloc)?.with_env(Env::new(alloc, variables)?))
}

// One call: for the chain, for a named source, switched off, or else for a role of this name.
fn outcome_of(
    alloc: Global,
    call: &str,
    kept: &mut Kept,
    world: &mut World<ScriptDevices>,
) -> Result<CredentialsOutcome, OutOfMemory> {
    let config = ProviderConfig::empty(alloc)?;
    let builder = ImdsCredentialsProvider::builder(alloc)?.configure(&config)?;
    let provider = match call {
        "chain" => builder.build()?,
        "named" => builder.place(Place::Named).build()?,
        "off" => builder.configure(&switched_off(alloc)?)?.build()?,
        role => builder.profile(role)?.build()?,
    };
    Ok(Outcome {
        answer: provider.provide_credentials(kept, world),
    })
}

fn call_words(
    alloc: Global,
    call: &str,
    kept: &mut Kept,
    world: &mut World<ScriptDevices>,
) -> Result<String, OutOfMemory> {
    world.clear_journal();
    let outcome = outcome_of(alloc, call, kept, world)?;
    let answer = answer_words(alloc, &outcome)?;
    let asked = world.journal().len();
    Ok(format!(in alloc; "{answer} {asked}\n")?)
}

fn words_by(alloc: Global, lists: DeviceLists, calls: &[&str]) -> Result<String, OutOfMemory>
    requires { AllFit lists }
{
    let devices = ScriptDevices::new(alloc, lists)?;
    let mut world = World::new(alloc, devices);
    let mut kept = Kept::new(alloc, None);
    let mut words = String::new(alloc);
    for call in calls {
        let line = call_words(alloc, call, &mut kept, &mut world)?;
        words.push_str(line.as_str())?;
    }
    Ok(words)
}

/// What these calls answer over a script, and how many questions each asks, a line each.
pub(crate) fn words_over(
    alloc: Global,
    script: Script,
    calls: &[&str],
) -> Result<String, OutOfMemory>
    requires { AllFit (lists_of (plain script)) }
{
    words_by(alloc, script.devices, calls)
}
