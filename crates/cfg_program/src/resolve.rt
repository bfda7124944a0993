//! The calls that a script describes.
ghost use Rattle.std.specs.Prelude.{◌≡◌, IfOk, IfSome};
ghost use Rattle.cfg_world.specs.Script.{AllFit};
ghost use Rattle.cfg_kept.specs.KeptStates.{states_of, kept_key, kept_token};
ghost use Rattle.cfg_kept.specs.KeyedStates.{HasNoRecords};
ghost use Rattle.cfg_chain.specs.Settings.{with_sources};
ghost use Rattle.cfg_chain.specs.Views.{named_sources, chain_of};
ghost use Rattle.cfg_chain.specs.profile.Plans.{key_of};
ghost use Rattle.cfg_script.specs.Script.{plain};
ghost use Rattle.cfg_script.specs.Devices.{lists_of};
ghost use Rattle.cfg_program.specs.Why.{told_as};
ghost use Rattle.cfg_program.specs.Calls.{region_of, in_region, configuration_of, IsMade, MakesCall, MakesCalls, AnswersOver, Answers};

use crate::configuration::{configuration, region_named};
use crate::lines::LineForm;
use crate::outcome::Answered;
use crate::why::tell_call;
use cfg_chain::{ChainCore, DefaultCredentialsChain};
use cfg_kept::Kept;
use cfg_profile::ProviderConfig;
use cfg_providers::CustomSource;
use cfg_script::Script;
use cfg_types::{OutOfMemory, Outcome};
use cfg_world::{DeviceLists, Devices, ScriptDevices, World};
use std::alloc::Global;

/// What a script has for calls of a chain.
#[derive(Drop)]
pub(crate) struct ScriptedCalls {
    /// The chain that is called.
    pub(crate) chain: DefaultCredentialsChain,
    /// What its devices answer.
    pub(crate) devices: DeviceLists,
    /// How many calls are made.
    pub(crate) calls: u64,
}

/// Makes the calls that the script describes: over the chain with the script's configuration and the
/// caller's own sources, and over the devices with the script's answers. Their lines have this form. `OutOfMemory`
/// where memory runs out.
pub fn resolve(
    alloc: Global,
    script: Script,
    custom: Vec<CustomSource>,
    form: LineForm,
) -> Result<Answered, OutOfMemory>
    requires { AllFit (lists_of (plain script)) }
    ensures { IfOk result (λ a. Answers (named_sources value custom.items) form (plain script) a.is_ok a.lines.items) }
{
    let ScriptedCalls {
        chain,
        devices,
        calls,
    } = chain_of_script(alloc, script, custom)?;
    answer_over(alloc, &chain, devices, calls, form)
}

/// The default chain with the script's configuration and the caller's own sources, and the script's answers and number
/// of calls. Nothing is asked. `OutOfMemory` where memory runs out.
pub(crate) fn chain_of_script(
    alloc: Global,
    script: Script,
    custom: Vec<CustomSource>,
) -> Result<ScriptedCalls, OutOfMemory>
    ensures chain { IfOk result (λ s. chain_of value repeated s.chain ≡ with_sources (configuration_of (plain script)) (named_sources value custom.items)) }
    ensures devices { IfOk result (λ s. s.devices ≡ lists_of (plain script)) }
    ensures calls { IfOk result (λ s. s.calls ≡ script.calls) }
{
    let Script {
        variables,
        profiles,
        selected,
        region,
        sleep,
        service,
        calls,
        devices,
    } = script;
    let config = configuration(alloc, variables, profiles, selected, sleep, service)?;
    let chain = chain_over(alloc, config, region, custom)?;
    Ok(ScriptedCalls {
        chain,
        devices,
        calls,
    })
}

/// The default chain of this configuration, in the region of this name, or in none, with these sources. Nothing is
/// asked. `OutOfMemory` where memory runs out.
pub fn chain_over(
    alloc: Global,
    config: ProviderConfig,
    region: Option<String>,
    custom: Vec<CustomSource>,
) -> Result<DefaultCredentialsChain, OutOfMemory>
    ensures { IfOk result (λ chain. chain_of value repeated chain ≡ with_sources (in_region config (region_of region)) (named_sources value custom.items)) }
{
    let region = region_named(alloc, region)?;
    // A literal, and not the builder: a function that hands on what may hold a box has to make it itself.
    Ok(DefaultCredentialsChain {
        core: ChainCore::of(alloc, config.with_region(region))?,
        custom_sources: custom,
        imds_client: None,
    })
}

/// So many calls of the chain, over devices that answer from these lists, and their lines in this form. Nothing is
/// kept before the first. `OutOfMemory` where memory runs out.
pub fn answer_over(
    alloc: Global,
    chain: &DefaultCredentialsChain,
    lists: DeviceLists,
    count: u64,
    form: LineForm,
) -> Result<Answered, OutOfMemory>
    requires { AllFit lists }
    ensures { IfOk result (λ a. AnswersOver (chain_of value repeated chain.now) lists count form a.is_ok a.lines.items) }
{
    let devices = ScriptDevices::new(alloc, lists)?;
    let mut world = World::new(alloc, devices);
    let mut kept = chain.new_kept()?;
    let mut lines = Vec::new(alloc);
    let is_ok = calls(chain, count, form, &mut kept, &mut world, &mut lines)?;
    Ok(Answered { is_ok, lines })
}

/// So many calls of the chain, one after another, on what is kept, and their lines in this form behind the others.
/// It answers whether the last of them gave credentials; without one, that it did not. `OutOfMemory` where memory runs
/// out.
pub fn calls<D: Devices>(
    chain: &DefaultCredentialsChain,
    count: u64,
    form: LineForm,
    kept: &mut Kept,
    world: &mut World<D>,
    lines: &mut Vec<u8>,
) -> Result<bool, OutOfMemory>
    requires { kept_key kept.old ≡ key_of chain.now.core }
    ensures calls { IfOk result (λ is_ok. MakesCalls (IsMade (chain_of value repeated chain.now)) ⟦<D as Devices>⟧
        (told_as (chain_of value repeated chain.now) form) count (states_of kept.old) (states_of kept.new)
        world.old.devices world.new.devices is_ok lines.old.items lines.new.items) }
    ensures key { kept_key kept.new ≡ kept_key kept.old }
{
    let mut is_ok = false;
    for _ in 0..count {
        is_ok = call(chain, form, kept, world, lines)?;
    }
    Ok(is_ok)
}

// One call more, and its line behind the others: whether it gave credentials. The journal of the call
// before it is gone, and so are the records of the loads that it made.
fn call<D: Devices>(
    chain: &DefaultCredentialsChain,
    form: LineForm,
    kept: &mut Kept,
    world: &mut World<D>,
    lines: &mut Vec<u8>,
) -> Result<bool, OutOfMemory>
    requires { kept_key kept.old ≡ key_of chain.now.core }
    ensures call { IfOk result (λ is_ok. MakesCall (IsMade (chain_of value repeated chain.now)) ⟦<D as Devices>⟧
        (told_as (chain_of value repeated chain.now) form) (states_of kept.old) (states_of kept.new)
        world.old.devices world.new.devices is_ok lines.old.items lines.new.items) }
    ensures key { kept_key kept.new ≡ kept_key kept.old }
    ensures records { IfSome (kept_token kept.new) HasNoRecords }
{
    // A line tells of its own call alone, and memory for the entries and the loads of one call is enough.
    world.clear_journal();
    let outcome = Outcome {
        answer: chain.provide_credentials(kept, world),
    };
    kept.trim();
    let is_ok = tell_call(lines, chain, form, &outcome.answer, world.journal())?;
    Ok(is_ok)
}
