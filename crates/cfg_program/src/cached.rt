//! The calls that a script describes, under one name of a cache.
ghost use Rattle.std.specs.Prelude.{◌≡◌, IfOk};
ghost use Rattle.cfg_world.specs.Script.{AllFit};
ghost use Rattle.cfg_chain.specs.Views.{named_sources, chain_of};
ghost use Rattle.cfg_chain.specs.profile.Plans.{key_of};
ghost use Rattle.cfg_identity.specs.NameStates.{loaded_key, nothing_loaded, state_of};
ghost use Rattle.cfg_script.specs.Script.{plain};
ghost use Rattle.cfg_script.specs.Devices.{lists_of};
ghost use Rattle.cfg_program.specs.Lines.{shown_as};
ghost use Rattle.cfg_program.specs.Calls.{AnswersFrom, MakesCall, MakesCalls};
ghost use Rattle.cfg_program.specs.Cached.{CachedAnswers, IsCachedCall};

use crate::causes::Below;
use crate::lines::LineForm;
use crate::outcome::{Answered, tell};
use crate::resolve::{ScriptedCalls, chain_of_script};
use cfg_chain::DefaultCredentialsChain;
use cfg_identity::{CacheSettings, Loaded};
use cfg_providers::CustomSource;
use cfg_script::Script;
use cfg_types::{OutOfMemory, Outcome};
use cfg_world::{DeviceLists, Devices, ScriptDevices, World};
use std::alloc::Global;

// How long held credentials are used.
const SETTINGS: CacheSettings = CacheSettings {
    buffer_seconds: 10,
    default_life_seconds: 900,
};

// The lines are those of `resolve`.
const FORM: LineForm = LineForm::Call(Below::Nothing);

/// Makes the calls that the script describes under one name of a cache: each hands out what is held while more than ten
/// seconds of its life are left, and else calls the chain with the script's configuration and the caller's own sources.
/// The devices give the script's answers. `OutOfMemory` where memory runs out.
pub fn cached(
    alloc: Global,
    script: Script,
    custom: Vec<CustomSource>,
) -> Result<Answered, OutOfMemory>
    requires { AllFit (lists_of (plain script)) }
    ensures { IfOk result (λ a. CachedAnswers (named_sources value custom.items) (plain script) a.is_ok a.lines.items) }
{
    let ScriptedCalls {
        chain,
        devices,
        calls,
    } = chain_of_script(alloc, script, custom)?;
    cached_over(alloc, &chain, devices, calls)
}

// So many calls of the chain under one name, over devices that answer from these lists, and their lines. Nothing is held
// and kept before the first.
fn cached_over(
    alloc: Global,
    chain: &DefaultCredentialsChain,
    lists: DeviceLists,
    count: u64,
) -> Result<Answered, OutOfMemory>
    requires { AllFit lists }
    ensures { IfOk result (λ a. AnswersFrom (IsCachedCall (chain_of value repeated chain.now)) nothing_loaded lists count
        (shown_as (LineForm.Call Below.Nothing)) a.is_ok a.lines.items) }
{
    let devices = ScriptDevices::new(alloc, lists)?;
    let mut world = World::new(alloc, devices);
    let kept = chain.new_kept()?;
    let mut loaded = Loaded::new(kept);
    let mut lines = Vec::new(alloc);
    let is_ok = calls(alloc, chain, count, &mut loaded, &mut world, &mut lines)?;
    Ok(Answered { is_ok, lines })
}

// So many calls of the chain, one after another, on what is held and kept, and their lines behind the others: whether
// the last of them gave credentials; without one, that it did not.
fn calls<D: Devices>(
    alloc: Global,
    chain: &DefaultCredentialsChain,
    count: u64,
    loaded: &mut Loaded,
    world: &mut World<D>,
    lines: &mut Vec<u8>,
) -> Result<bool, OutOfMemory>
    requires { loaded_key loaded.old ≡ key_of chain.now.core }
    ensures { IfOk result (λ is_ok. MakesCalls (IsCachedCall (chain_of value repeated chain.now)) ⟦<D as Devices>⟧
        (shown_as (LineForm.Call Below.Nothing)) count (state_of loaded.old) (state_of loaded.new) world.old.devices world.new.devices
        is_ok lines.old.items lines.new.items) }
{
    let mut is_ok = false;
    for _ in 0..count {
        is_ok = call(alloc, chain, loaded, world, lines)?;
    }
    Ok(is_ok)
}

// One call more, and its line behind the others: whether it gave credentials. The journal of the call before it is gone.
fn call<D: Devices>(
    alloc: Global,
    chain: &DefaultCredentialsChain,
    loaded: &mut Loaded,
    world: &mut World<D>,
    lines: &mut Vec<u8>,
) -> Result<bool, OutOfMemory>
    requires { loaded_key loaded.old ≡ key_of chain.now.core }
    ensures call { IfOk result (λ is_ok. MakesCall (IsCachedCall (chain_of value repeated chain.now)) ⟦<D as Devices>⟧
        (shown_as (LineForm.Call Below.Nothing)) (state_of loaded.old) (state_of loaded.new) world.old.devices world.new.devices
        is_ok lines.old.items lines.new.items) }
    ensures key { loaded_key loaded.new ≡ loaded_key loaded.old }
{
    world.clear_journal();
    let outcome = Outcome {
        answer: loaded.resolve(alloc, SETTINGS, chain, world),
    };
    let is_ok = tell(lines, FORM, &outcome.answer, world.journal())?;
    Ok(is_ok)
}
