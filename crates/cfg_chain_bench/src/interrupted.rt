//! Calls that memory may run out over, and what is kept then.
use crate::calls::{answer_line, call_line_on};
use cfg_chain::DefaultCredentialsChain;
use cfg_kept::{Kept, SharedKept};
use cfg_types::{Credentials, CredentialsError, OutOfMemory, Outcome};
use cfg_world::{ScriptDevices, World};
use std::alloc::Global;
use std::sync::Wait;

/// The line of a call on nothing kept, over these devices. Where memory runs out over it, how many questions it asked,
/// and the line of a call on what is kept then, over the later devices.
pub fn keep_line(
    alloc: Global,
    chain: &DefaultCredentialsChain,
    devices: ScriptDevices,
    later: ScriptDevices,
) -> Result<String, OutOfMemory> {
    let mut kept = chain.new_kept()?;
    let mut world = World::new(alloc, devices);
    let outcome = Outcome {
        answer: chain.provide_credentials(&mut kept, &mut world),
    };
    let asked = world.journal().len();
    line_or_kept(alloc, chain, &outcome.answer, asked, kept, later)
}

/// The same on states that callers share.
pub fn keep_shared_line<R: Wait>(
    rt: &R,
    alloc: Global,
    chain: &DefaultCredentialsChain,
    devices: ScriptDevices,
    later: ScriptDevices,
) -> Result<String, OutOfMemory> {
    let kept = SharedKept::new(chain.new_kept()?);
    let mut world = World::new(alloc, devices);
    let answered = chain.provide_credentials_shared(rt, &kept, &mut world);
    let asked = world.journal().len();
    let kept = kept.into_kept();
    line_or_kept(alloc, chain, &answered.outcome, asked, kept, later)
}

fn line_or_kept(
    alloc: Global,
    chain: &DefaultCredentialsChain,
    answer: &Result<Credentials, CredentialsError>,
    asked: usize,
    kept: Kept,
    later: ScriptDevices,
) -> Result<String, OutOfMemory> {
    if !matches!(answer, Err(CredentialsError::OutOfMemory)) {
        return Ok(answer_line(alloc, answer, asked)?);
    }
    let line = call_line_on(alloc, chain, kept, later)?;
    Ok(format!(in alloc; "kept behind {asked}: {line}")?)
}
