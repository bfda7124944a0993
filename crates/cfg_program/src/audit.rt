//! The audit of a journal that a script says by the kinds of its questions and by the answers to them.
ghost use Rattle.std.specs.Prelude.{◌≡◌, ◌++◌, length, map, IfOk, OnOk};
ghost use Rattle.cfg_chain.specs.Views.{named_sources, chain_of};
ghost use Rattle.cfg_script.specs.Script.{plain_audit};
ghost use Rattle.cfg_program.specs.Audited.{answering, is_whole as is_whole_of, no_line, shown_audit, IsPlaceOf, Audits, AuditAnswers};

use crate::configuration::configuration;
use crate::lines::{write_asked, write_number, write_word};
use crate::outcome::Answered;
use crate::resolve::chain_over;
use cfg_chain::DefaultCredentialsChain;
use cfg_explain::replaying::replay;
use cfg_explain::{Answering, Replay};
use cfg_providers::CustomSource;
use cfg_script::AuditScript;
use cfg_types::{OutOfMemory, Text};
use cfg_world::Answer;
use std::alloc::{AllocError, Global};

/// Looks whether the script's journal can be that of a call: of the chain with the script's configuration and the
/// caller's own sources, before which nothing is kept. The line tells the call, or where the journal departs from those
/// of calls. `OutOfMemory` where memory runs out.
pub fn audit(
    alloc: Global,
    script: AuditScript,
    custom: Vec<CustomSource>,
) -> Result<Answered, OutOfMemory>
    ensures { IfOk result (λ a. AuditAnswers (named_sources value custom.items) (plain_audit script) a.is_ok a.lines.items) }
{
    let AuditScript {
        variables,
        profiles,
        selected,
        region,
        sleep,
        service,
        journal,
    } = script;
    let config = configuration(alloc, variables, profiles, selected, sleep, service)?;
    let chain = chain_over(alloc, config, region, custom)?;
    let answers = answerings(alloc, journal)?;
    audit_over(alloc, &chain, answers.as_slice())
}

// Whether these can be the answers to a call of the chain, before which nothing is kept.
fn audit_over(
    alloc: Global,
    chain: &DefaultCredentialsChain,
    answers: &[Answering],
) -> Result<Answered, OutOfMemory>
    ensures { IfOk result (λ a. Audits (chain_of value repeated chain.now) answers.now a.is_ok a.lines.items) }
{
    let mut kept = chain.new_kept()?;
    let told = replay(alloc, chain, &mut kept, answers)?;
    let mut lines = Vec::new(alloc);
    write_audit(&mut lines, answers, &told)?;
    let is_ok = is_whole(&told);
    Ok(Answered { is_ok, lines })
}

// The answers with the kinds of their questions.
fn answerings(alloc: Global, journal: Vec<(Text, Answer)>) -> Result<Vec<Answering>, OutOfMemory>
    ensures { IfOk result (λ answers. answers.items ≡ map answering journal.items) }
{
    let mut answers = Vec::with_capacity(alloc, journal.len())?;
    for (kind, answer) in journal {
        answers.push(Answering { kind, answer })?;
    }
    Ok(answers)
}

fn is_whole(told: &Replay) -> bool
    ensures { result ≡ is_whole_of told.now }
{
    matches!(told, Replay::Whole { .. })
}

// What is told of the answers.
fn write_audit(line: &mut Vec<u8>, answers: &[Answering], told: &Replay) -> Result<(), AllocError>
    requires { IsPlaceOf (length answers.now) told.now }
    ensures { OnOk result (line.new.items ≡ line.old.items ++ shown_audit (length answers.now) told.now) }
{
    match told {
        Replay::Whole { journal, outcome } => {
            write_word(line, b"audit yes ")?;
            write_asked(line, outcome, journal.as_slice())
        }
        Replay::Other { at, wanted } => write_no(line, *at + 1, wanted.as_str()),
        Replay::Short { wanted } => write_no(line, answers.len() + 1, wanted.as_str()),
        Replay::Long { at } => write_no(line, *at + 1, "end"),
    }
}

// `audit no`, a place, and what is wanted there.
#[tactic(auto, using(std::proofs::lemmas::Grind::common_steps))]
fn write_no(line: &mut Vec<u8>, place: usize, wanted: &str) -> Result<(), AllocError>
    ensures { OnOk result (line.new.items ≡ line.old.items ++ no_line place wanted.now) }
{
    write_word(line, b"audit no ")?;
    write_number(line, place as u64)?;
    line.push(b' ')?;
    write_word(line, wanted.as_bytes())?;
    line.push(b'\n')?;
    Ok(())
}
