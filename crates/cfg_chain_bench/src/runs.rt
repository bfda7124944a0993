//! A call as a run.
ghost use Rattle.std.specs.Prelude.{◌≡◌, IsSome, IfOk, IfSome, OnErr, Some};
ghost use Rattle.cfg_kept.specs.KeptStates.{kept_key};
ghost use Rattle.cfg_chain.specs.Views.{chain_of};
ghost use Rattle.cfg_chain.specs.profile.Plans.{key_of};
ghost use Rattle.cfg_run.specs.Runs.{IsUnderWay, ComesTo};

use crate::calls::{answer_line, call_line_on};
use cfg_chain::DefaultCredentialsChain;
use cfg_kept::Kept;
use cfg_run::{Run, Step};
use cfg_types::{Credentials, CredentialsError, OutOfMemory, Outcome, TryCopy, copy_option};
use cfg_world::{Receipt, ScriptDevices, World};
use std::alloc::Global;

/// Where a run is given up.
#[derive(Clone, Copy, PartialEq, Eq)]
pub enum GivenUp {
    /// Nowhere: where memory runs out over a poll, the run is polled again.
    Never,
    /// Where memory runs out over a poll.
    Refused,
    /// Behind so many receipts.
    Behind(usize),
}

// More receipts than a script answers.
const MOST: usize = 1_000_000;

impl GivenUp {
    // How many receipts a run has at most.
    fn most_receipts(self) -> usize {
        match self {
            GivenUp::Behind(count) => count,
            GivenUp::Never | GivenUp::Refused => MOST,
        }
    }
}

// How a run ended: what it answered, if it did, and where it was then.
#[derive(Drop)]
struct Ended {
    outcome: Option<Outcome<Credentials, CredentialsError>>,
    asked: usize,
    question: String,
    kept: Kept,
}

/// The line of a call that is made as a run, over these devices.
pub fn run_line(
    alloc: Global,
    chain: &DefaultCredentialsChain,
    devices: ScriptDevices,
) -> Result<String, OutOfMemory> {
    let kept = chain.new_kept()?;
    let ended = drive(alloc, chain, kept, devices, GivenUp::Never)?;
    match &ended.outcome {
        Some(outcome) => Ok(answer_line(alloc, &outcome.answer, ended.asked)?),
        None => Ok(String::from_str(alloc, "no answer\n")?),
    }
}

/// How many receipts a run has that is given up there, the question that it shows, and the line of a call on what is
/// kept then, over the later devices.
pub fn given_up_line(
    alloc: Global,
    chain: &DefaultCredentialsChain,
    devices: ScriptDevices,
    later: ScriptDevices,
    given_up: GivenUp,
) -> Result<String, OutOfMemory> {
    let kept = chain.new_kept()?;
    let Ended {
        outcome: _,
        asked,
        question,
        kept,
    } = drive(alloc, chain, kept, devices, given_up)?;
    let line = call_line_on(alloc, chain, kept, later)?;
    Ok(format!(in alloc; "{asked} {question} {line}")?)
}

// A run over these devices.
fn drive(
    alloc: Global,
    chain: &DefaultCredentialsChain,
    kept: Kept,
    devices: ScriptDevices,
    given_up: GivenUp,
) -> Result<Ended, OutOfMemory>
    requires { kept_key kept ≡ key_of chain.now.core }
{
    let limit = given_up.most_receipts();
    let mut world = World::new(alloc, devices);
    let mut run = Run::start(chain, kept);
    let mut receipt = None;
    for _ in 0..=limit {
        match poll(alloc, &mut run, receipt, given_up == GivenUp::Refused)? {
            None => return end_of(alloc, run, None),
            Some(Step::Ready(answer)) => return end_of(alloc, run, Some(Outcome { answer })),
            Some(Step::Pending) => receipt = Some(receipt_of(alloc, &run, &mut world)?),
        }
    }
    end_of(alloc, run, None)
}

// A poll. Where memory runs out over it, a second one with the same receipt, or none where the run is given up then.
fn poll(
    alloc: Global,
    run: &mut Run<'_>,
    receipt: Option<Receipt>,
    gives_up: bool,
) -> Result<Option<Step>, OutOfMemory>
    requires under_way { IsUnderWay (chain_of value repeated run.old.chain.now) run.old.progress }
    requires fits { IfSome receipt (λ e. run.old.progress.question ≡ Some e.0) }
    ensures { IfOk result (λ step. IfSome step (ComesTo (chain_of value repeated run.new.chain.now) run.new.progress)) }
{
    let again = copy_option(alloc, &receipt)?;
    match poll_once(run, receipt) {
        Ok(step) => Ok(Some(step)),
        Err(_) if gives_up => Ok(None),
        Err(_) => {
            let step = poll_once(run, again)?;
            Ok(Some(step))
        }
    }
}

fn poll_once(run: &mut Run<'_>, receipt: Option<Receipt>) -> Result<Step, OutOfMemory>
    requires under_way { IsUnderWay (chain_of value repeated run.old.chain.now) run.old.progress }
    requires fits { IfSome receipt (λ e. run.old.progress.question ≡ Some e.0) }
    ensures comes { IfOk result (ComesTo (chain_of value repeated run.new.chain.now) run.new.progress) }
    ensures under_way { OnErr result (IsUnderWay (chain_of value repeated run.new.chain.now) run.new.progress) }
    ensures stays { OnErr result (run.new.progress.question ≡ run.old.progress.question) }
{
    run.poll(receipt)
}

// The receipt of the question that is shown.
fn receipt_of(
    alloc: Global,
    run: &Run<'_>,
    world: &mut World<ScriptDevices>,
) -> Result<Receipt, OutOfMemory>
    requires { IsSome run.now.progress.question }
    ensures { IfOk result (λ e. run.now.progress.question ≡ Some e.0) }
{
    let question = run.question().unwrap().copy(alloc)?;
    world.ask(question)
}

fn end_of(
    alloc: Global,
    run: Run<'_>,
    outcome: Option<Outcome<Credentials, CredentialsError>>,
) -> Result<Ended, OutOfMemory> {
    let asked = run.asked().len();
    let shown = run.question();
    let question = format!(in alloc; "{shown:?}")?;
    Ok(Ended {
        outcome,
        asked,
        question,
        kept: run.into_kept(),
    })
}
