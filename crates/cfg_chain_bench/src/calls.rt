//! A call, and its line.
use cfg_chain::DefaultCredentialsChain;
use cfg_kept::Kept;
use cfg_types::{Credentials, CredentialsError, OutOfMemory, Outcome};
use cfg_world::{ScriptDevices, World};
use std::alloc::{AllocError, Global};

/// How many questions a call asked, and what it answered.
pub fn answer_line(
    alloc: Global,
    answer: &Result<Credentials, CredentialsError>,
    asked: usize,
) -> Result<String, AllocError> {
    match answer {
        Ok(keys) => {
            let features = keys.features();
            format!(in alloc; "{asked} {keys:?} {features:?}\n")
        }
        Err(error) => format!(in alloc; "{asked} {error:?}\n"),
    }
}

/// The line of a call on nothing kept, over these devices.
pub fn call_line(
    alloc: Global,
    chain: &DefaultCredentialsChain,
    devices: ScriptDevices,
) -> Result<String, OutOfMemory> {
    let kept = chain.new_kept()?;
    call_line_on(alloc, chain, kept, devices)
}

/// The line of a call on what is kept, over these devices. Nothing is asked where it is not what the chain keeps.
pub fn call_line_on(
    alloc: Global,
    chain: &DefaultCredentialsChain,
    mut kept: Kept,
    devices: ScriptDevices,
) -> Result<String, OutOfMemory> {
    if !kept.fits(chain.token_key()) {
        return Ok(String::from_str(alloc, "another key\n")?);
    }
    let mut world = World::new(alloc, devices);
    let outcome = Outcome {
        answer: chain.provide_credentials(&mut kept, &mut world),
    };
    Ok(answer_line(alloc, &outcome.answer, world.journal().len())?)
}
