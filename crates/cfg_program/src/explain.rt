//! The call that a script describes, with the member of the chain that asked each question.
ghost use Rattle.std.specs.Prelude.{◌≡◌, ◌++◌, length, IfOk, OnOk};
ghost use Rattle.cfg_world.specs.Script.{AllFit};
ghost use Rattle.cfg_kept.specs.Kinds.{no_states};
ghost use Rattle.cfg_chain.specs.BegunCalls.{HasEnded};
ghost use Rattle.cfg_chain.specs.Views.{named_sources, chain_of};
ghost use Rattle.cfg_script.specs.Script.{plain};
ghost use Rattle.cfg_script.specs.Devices.{lists_of};
ghost use Rattle.cfg_program.specs.Calls.{IsFresh};
ghost use Rattle.cfg_program.specs.Explained.{entry_line, entry_lines, AreMembers, IsExplained, Explains, ExplainAnswers};

use crate::causes::Below;
use crate::lines::{LineForm, write_number, write_word};
use crate::outcome::{Answered, tell};
use crate::resolve::{ScriptedCalls, chain_of_script};
use cfg_chain::DefaultCredentialsChain;
use cfg_explain::{kind_of, owners};
use cfg_providers::CustomSource;
use cfg_script::Script;
use cfg_types::{Credentials, CredentialsError, OutOfMemory, Outcome, Seq, Text};
use cfg_world::{DeviceLists, Entry, ScriptDevices, World};
use std::alloc::{AllocError, Global};

/// Makes the call that the script describes: over the chain with the script's configuration and the caller's own
/// sources, and over the devices with the script's answers. A line tells of each question which member of the chain
/// asked it; the call's own line comes behind these. `OutOfMemory` where memory runs out.
pub fn explain(
    alloc: Global,
    script: Script,
    custom: Vec<CustomSource>,
) -> Result<Answered, OutOfMemory>
    requires { AllFit (lists_of (plain script)) }
    ensures { IfOk result (λ a. ExplainAnswers (named_sources value custom.items) (plain script) a.is_ok a.lines.items) }
{
    let ScriptedCalls {
        chain,
        devices,
        calls: _,
    } = chain_of_script(alloc, script, custom)?;
    explain_over(alloc, &chain, devices)
}

// One call of the chain, over devices that answer from these lists.
fn explain_over(
    alloc: Global,
    chain: &DefaultCredentialsChain,
    lists: DeviceLists,
) -> Result<Answered, OutOfMemory>
    requires { AllFit lists }
    ensures { IfOk result (λ a. Explains (chain_of value repeated chain.now) lists a.is_ok a.lines.items) }
{
    let devices = ScriptDevices::new(alloc, lists)?;
    let mut world = World::new(alloc, devices);
    explain_call(alloc, chain, &mut world)
}

// One call of the chain, explained.
fn explain_call(
    alloc: Global,
    chain: &DefaultCredentialsChain,
    world: &mut World<ScriptDevices>,
) -> Result<Answered, OutOfMemory>
    requires { IsFresh world.old }
    ensures { IfOk result (λ a. Explains (chain_of value repeated chain.now) world.old.devices.lists a.is_ok a.lines.items) }
{
    let mut kept = chain.new_kept()?;
    let outcome = Outcome {
        answer: chain.provide_credentials(&mut kept, world),
    };
    if cfg_types::is_memory(&outcome.answer) {
        return Err(OutOfMemory);
    }
    explained(alloc, chain, &outcome.answer, world.journal())
}

// A line for each question of a call of this journal, before which nothing was kept, and the line of what it came to.
fn explained(
    alloc: Global,
    chain: &DefaultCredentialsChain,
    outcome: &Result<Credentials, CredentialsError>,
    journal: &[Entry],
) -> Result<Answered, OutOfMemory>
    requires { HasEnded (chain_of value repeated chain.now) no_states journal.now }
    ensures { IfOk result (λ a. IsExplained (chain_of value repeated chain.now) journal.now outcome.now a.is_ok a.lines.items) }
{
    let members = members_of(alloc, chain, journal)?;
    let mut lines = Vec::new(alloc);
    write_entries(&mut lines, journal, members.as_slice())?;
    let is_ok = tell(&mut lines, LineForm::Call(Below::Nothing), outcome, journal)?;
    Ok(Answered { is_ok, lines })
}

// The name of the member that asked each question of this call, before which nothing was kept.
fn members_of(
    alloc: Global,
    chain: &DefaultCredentialsChain,
    journal: &[Entry],
) -> Result<Seq<Text>, OutOfMemory>
    requires { HasEnded (chain_of value repeated chain.now) no_states journal.now }
    ensures { IfOk result (λ members. AreMembers (chain_of value repeated chain.now) journal.now members) }
{
    let mut kept = chain.new_kept()?;
    let members = owners(alloc, chain, &mut kept, journal)?;
    Ok(members.unwrap())
}

// A line for each entry.
fn write_entries(lines: &mut Vec<u8>, journal: &[Entry], members: &[Text]) -> Result<(), AllocError>
    requires { length members.now ≡ length journal.now }
    ensures { OnOk result (lines.new.items ≡ lines.old.items ++ entry_lines 1 journal.now members.now) }
{
    for (place, entry) in journal.iter().enumerate() {
        write_entry(lines, place + 1, entry, &members[place])?;
    }
    Ok(())
}

// `entry`, its number, the kind of its question, and the name of the member that asked it.
#[tactic(auto, using(std::proofs::lemmas::Grind::common_steps))]
fn write_entry(
    lines: &mut Vec<u8>,
    number: usize,
    entry: &Entry,
    member: &Text,
) -> Result<(), AllocError>
    ensures { OnOk result (lines.new.items ≡ lines.old.items ++ entry_line number entry.now member.now) }
{
    write_word(lines, b"entry ")?;
    write_number(lines, number as u64)?;
    lines.push(b' ')?;
    write_word(lines, kind_of(entry.question()).as_bytes())?;
    lines.push(b' ')?;
    write_word(lines, member.as_str().as_bytes())?;
    lines.push(b'\n')?;
    Ok(())
}
