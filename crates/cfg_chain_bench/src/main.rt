//! Makes calls of the chain that a script configures, so that they are measured: `cfg_chain_bench WAY < SCRIPT`, where
//! WAY is
//!
//! - `none`: no call; the script is read, and the chain is made
//! - `call`: one call
//! - `keep`: one call; where memory runs out over it, a second one on what is kept then
//! - `keep-shared`: the same on states that callers share
//! - `run`: the call as a run, which is polled again where memory ran out over a poll
//! - `leave`: a run that is given up there
//! - `behind COUNT`: a run that is given up behind so many receipts
//! - `lent CALLS`: so many calls on one kept state
//! - `shared THREADS CALLS`: so many calls on each of so many threads, on one kept state that they share, over what one
//!   call before them kept
//!
//! The line of one call has how many questions it asked, and its answer; of a call that memory runs out over it is
//! `kept behind` the number of its questions, and the line of the second call; of a run that is given up the number of
//! its receipts, the question that it shows, and the line of a call on what is kept then; of many calls how many gave
//! credentials. The status is 6 where memory ran out elsewhere, and 1 where the words or the script are not known.
#![tactic(auto)]

mod calls;
mod hits;
mod interrupted;
mod runs;
mod setup;
mod ways;

use calls::call_line;
use cfg_chain::DefaultCredentialsChain;
use cfg_script::ScriptError;
use cfg_world::{ScriptDevices, World};
use hits::{lent_line, shared_line};
use interrupted::{keep_line, keep_shared_line};
use runs::{GivenUp, given_up_line, run_line};
use setup::{Setup, chain_over, set_up};
use std::alloc::Global;
use std::env;
use std::io::{ErrorKind, Read};
use std::process::ExitCode;
use std::sync::Wait;
use std::thread::Threads;
use ways::{Way, way_of};

const OUT_OF_MEMORY: u8 = 6;

fn main(rt: HostRuntime) -> ExitCode {
    let told = match words(&rt) {
        Ok(words) => line(&rt, rt.alloc(), words.as_slice(), rt.stdin()),
        Err(fault) => Err(fault),
    };
    match told {
        Ok(line) => match rt.print(line.as_str()) {
            Ok(()) => ExitCode::SUCCESS,
            Err(_) => ExitCode::FAILURE,
        },
        Err(ScriptError::NoScript) => ExitCode::FAILURE,
        Err(ScriptError::OutOfMemory) => ExitCode::from(OUT_OF_MEMORY),
    }
}

// The words behind the program's name.
fn words(rt: &(impl std::rt::Env + AllocGlobal)) -> Result<Vec<String>, ScriptError> {
    let given = match env::args(rt) {
        Ok(given) => given,
        Err(error) => return Err(fault_of(error.kind())),
    };
    let mut words = Vec::new(rt.alloc());
    for word in given.skip(1) {
        let Ok(()) = words.push(word) else {
            return Err(ScriptError::OutOfMemory);
        };
    }
    Ok(words)
}

fn fault_of(kind: ErrorKind) -> ScriptError {
    match kind {
        ErrorKind::OutOfMemory => ScriptError::OutOfMemory,
        _ => ScriptError::NoScript,
    }
}

// The line for these words over the script that the source has.
fn line<R: Threads + Wait + Sync, S: Read + Drop>(
    rt: &R,
    alloc: Global,
    words: &[String],
    mut source: S,
) -> Result<String, ScriptError> {
    let Some(way) = way_of(words) else {
        return Err(ScriptError::NoScript);
    };
    let mut script = Vec::new(alloc);
    if let Err(error) = source.read_to_end(&mut script) {
        return Err(fault_of(error.kind()));
    }
    line_by(rt, alloc, way, script.as_slice())
}

// The line of the script's call, made in this way.
fn line_by<R: Threads + Wait + Sync>(
    rt: &R,
    alloc: Global,
    way: Way,
    script: &[u8],
) -> Result<String, ScriptError> {
    let Setup { config, devices } = set_up(alloc, script)?;
    let chain = chain_over(alloc, config)?;
    Ok(match way {
        Way::None => String::new(alloc),
        Way::Call => call_line(alloc, &chain, devices)?,
        Way::Keep => keep_line(alloc, &chain, devices, set_up(alloc, script)?.devices)?,
        Way::KeepShared => {
            let later = set_up(alloc, script)?.devices;
            keep_shared_line(rt, alloc, &chain, devices, later)?
        }
        Way::Run => run_line(alloc, &chain, devices)?,
        Way::Leave => left(alloc, &chain, devices, script, GivenUp::Refused)?,
        Way::Behind(count) => left(alloc, &chain, devices, script, GivenUp::Behind(count))?,
        Way::Lent(calls) => lent_line(alloc, &chain, devices, calls)?,
        Way::Shared { threads, calls } => {
            let worlds = worlds(alloc, script, threads)?;
            shared_line(rt, alloc, &chain, devices, worlds, calls)?
        }
    })
}

// The line of a run that is given up, with a call over the script's devices behind it.
fn left(
    alloc: Global,
    chain: &DefaultCredentialsChain,
    devices: ScriptDevices,
    script: &[u8],
    given_up: GivenUp,
) -> Result<String, ScriptError> {
    let later = set_up(alloc, script)?.devices;
    Ok(given_up_line(alloc, chain, devices, later, given_up)?)
}

// So many worlds over the script's devices.
fn worlds(
    alloc: Global,
    script: &[u8],
    count: u64,
) -> Result<Vec<World<ScriptDevices>>, ScriptError> {
    let mut worlds = Vec::new(alloc);
    for _ in 0..count {
        let devices = set_up(alloc, script)?.devices;
        let Ok(()) = worlds.push(World::new(alloc, devices)) else {
            return Err(ScriptError::OutOfMemory);
        };
    }
    Ok(worlds)
}
