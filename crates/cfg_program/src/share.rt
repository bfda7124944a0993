//! The calls of a script's callers, on what they share.
ghost use Rattle.std.specs.Prelude.{◌≡◌, ◌++◌, All, IfOk, OnOk, map, if◌then◌else◌};
ghost use Rattle.std.specs.List.{flat_map};
ghost use Rattle.cfg_world.specs.Script.{AllFit};
ghost use Rattle.cfg_chain.specs.Views.{named_sources, chain_of};
ghost use Rattle.cfg_script.specs.Script.{plain_share};
ghost use Rattle.cfg_program.specs.Shares.{SharesOver, ShareAnswers, shown_moments, later_moment, shown_records, shown_difference};
ghost use Rattle.cfg_program.specs.Sharing.{callers_of, new_world, TellsCallers, TellsAgreement, TellsDiffering, TellsShared};

use crate::causes::Below;
use crate::configuration::configuration;
use crate::lines::{LineForm, write_expiry, write_number, write_word};
use crate::outcome::{Answered, tell};
use crate::resolve::chain_over;
use crate::status::Status;
use cfg_chain::DefaultCredentialsChain;
use cfg_providers::CustomSource;
use cfg_script::ShareScript;
use cfg_sharing::{Called, ShareFault, Shared, share_calls};
use cfg_types::{Instant, OutOfMemory};
use cfg_world::{DeviceLists, ScriptDevices, World};
use std::alloc::{AllocError, Global};
use std::sync::Wait;
use std::thread::Threads;

/// What the callers of a script came to: the status that it calls for, and their lines.
#[derive(Drop)]
pub struct Told {
    /// `Done` or `Refused` by the last caller's answer, or `HistoryDiffers`.
    pub ended: Status,
    /// The callers' lines, in order, and the last one.
    pub lines: Vec<u8>,
}

/// Makes the calls of the script's callers, each on a thread of its own over its own devices, on one kept state of the
/// chain with the script's configuration and the caller's own sources. `OutOfMemory` where memory runs out, also
/// where that is what one of the calls answered.
pub fn share<R: Threads + Wait + Sync>(
    rt: &R,
    alloc: Global,
    script: ShareScript,
    custom: Vec<CustomSource>,
) -> Result<Told, OutOfMemory>
    requires { All AllFit script.callers.items }
    ensures { IfOk result (λ told. ShareAnswers (named_sources value custom.items) (plain_share script) told.ended told.lines.items) }
{
    let ShareScript {
        variables,
        profiles,
        selected,
        region,
        sleep,
        service,
        calls: _,
        callers,
    } = script;
    let config = configuration(alloc, variables, profiles, selected, sleep, service)?;
    let chain = chain_over(alloc, config, region, custom)?;
    share_over(rt, alloc, &chain, callers)
}

// A call of the chain for each of these lists of devices, and their lines. Nothing is kept before them.
fn share_over<R: Threads + Wait + Sync>(
    rt: &R,
    alloc: Global,
    chain: &DefaultCredentialsChain,
    callers: Vec<DeviceLists>,
) -> Result<Told, OutOfMemory>
    requires { All AllFit callers.items }
    ensures { IfOk result (λ told. SharesOver (chain_of value repeated chain.now) callers.items told.ended told.lines.items) }
{
    let kept = chain.new_kept()?;
    let worlds = worlds_over(alloc, callers)?;
    tell_shared(alloc, share_calls(rt, alloc, chain, kept, worlds))
}

/// A new world for each caller, over devices that answer from its lists. `OutOfMemory` where memory runs out.
pub fn worlds_over(
    alloc: Global,
    callers: Vec<DeviceLists>,
) -> Result<Vec<World<ScriptDevices>>, OutOfMemory>
    requires { All AllFit callers.items }
    ensures { IfOk result (λ worlds. worlds.items ≡ map new_world callers.items) }
{
    let mut worlds = Vec::with_capacity(alloc, callers.len())?;
    for lists in callers {
        let devices = ScriptDevices::new(alloc, lists)?;
        worlds.push(World::new(alloc, devices))?;
    }
    Ok(worlds)
}

// The callers' lines, and the last one.
fn tell_shared(
    alloc: Global,
    shared: Result<Shared<ScriptDevices>, ShareFault<ScriptDevices>>,
) -> Result<Told, OutOfMemory>
    ensures { IfOk result (λ told. TellsShared shared told.ended told.lines.items) }
{
    match shared {
        Ok(shared) => tell_agreement(alloc, &shared),
        Err(ShareFault::HistoryDiffers(shared)) => tell_difference(alloc, &shared),
        Err(ShareFault::OutOfMemory) => Err(OutOfMemory),
    }
}

// The lines where the histories agree.
#[tactic(auto, using(crate::proofs::ShareLines::ends_by_last))]
fn tell_agreement(alloc: Global, shared: &Shared<ScriptDevices>) -> Result<Told, OutOfMemory>
    ensures { IfOk result (λ told. TellsAgreement shared.now told.ended told.lines.items) }
{
    let Answered { is_ok, mut lines } = tell_callers(alloc, shared.calls.as_slice())?;
    let recorded = shared.recorded(alloc)?;
    write_records(&mut lines, recorded.as_slice().len() as u64)?;
    let ended = ended_by(is_ok);
    Ok(Told { ended, lines })
}

// The status, by whether the last caller was given credentials.
fn ended_by(is_given: bool) -> Status
    ensures { result ≡ (if is_given then Status.Done else Status.Refused) }
{
    if is_given {
        Status::Done
    } else {
        Status::Refused
    }
}

// The lines where they differ.
fn tell_difference(alloc: Global, shared: &Shared<ScriptDevices>) -> Result<Told, OutOfMemory>
    ensures { IfOk result (λ told. TellsDiffering shared.now told.ended told.lines.items) }
{
    let Answered {
        is_ok: _,
        mut lines,
    } = tell_callers(alloc, shared.calls.as_slice())?;
    let handed = shared.handed(alloc)?;
    let recorded = shared.recorded(alloc)?;
    let strays = shared.strays() as u64;
    write_difference(&mut lines, handed.as_slice(), recorded.as_slice(), strays)?;
    Ok(Told {
        ended: Status::HistoryDiffers,
        lines,
    })
}

// The callers' lines, in order, and whether the last one was given credentials.
fn tell_callers(alloc: Global, calls: &[Called<ScriptDevices>]) -> Result<Answered, OutOfMemory>
    ensures { IfOk result (λ a. TellsCallers (callers_of calls.now) a.is_ok a.lines.items) }
{
    let mut lines = Vec::new(alloc);
    let mut is_ok = false;
    for called in calls {
        is_ok = tell(
            &mut lines,
            LineForm::Call(Below::Nothing),
            &called.answered.outcome,
            called.world.journal(),
        )?;
    }
    Ok(Answered { is_ok, lines })
}

// `records`, and how many there are.
#[tactic(auto, using(std::proofs::lemmas::Grind::common_steps))]
fn write_records(line: &mut Vec<u8>, count: u64) -> Result<(), AllocError>
    ensures { OnOk result (line.new.items ≡ line.old.items ++ shown_records count) }
{
    write_word(line, b"records ")?;
    write_number(line, count)?;
    line.push(b'\n')?;
    Ok(())
}

// `differs`, both lists of readings, and how many strays there are.
#[tactic(auto, using(std::proofs::lemmas::Grind::common_steps))]
fn write_difference(
    line: &mut Vec<u8>,
    handed: &[Instant],
    recorded: &[Instant],
    strays: u64,
) -> Result<(), AllocError>
    ensures { OnOk result (line.new.items ≡ line.old.items ++ shown_difference handed.now recorded.now strays) }
{
    write_word(line, b"differs ")?;
    write_moments(line, handed)?;
    line.push(b' ')?;
    write_moments(line, recorded)?;
    line.push(b' ')?;
    write_number(line, strays)?;
    line.push(b'\n')?;
    Ok(())
}

// Moments joined by commas, or `-`.
fn write_moments(line: &mut Vec<u8>, moments: &[Instant]) -> Result<(), AllocError>
    ensures { OnOk result (line.new.items ≡ line.old.items ++ shown_moments moments.now) }
{
    match moments.split_first() {
        None => line.push(b'-')?,
        Some((first, others)) => {
            write_expiry(line, Some(*first))?;
            write_later_moments(line, others)?;
        }
    }
    Ok(())
}

fn write_later_moments(line: &mut Vec<u8>, moments: &[Instant]) -> Result<(), AllocError>
    ensures { OnOk result (line.new.items ≡ line.old.items ++ flat_map later_moment moments.now) }
{
    for moment in moments {
        line.push(b',')?;
        write_expiry(line, Some(*moment))?;
    }
    Ok(())
}
