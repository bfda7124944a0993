//! Callers that wait for one another: no lock is held while a request is sent, and no call waits for a load that it
//! does not need.
use crate::held::{Held, HeldDevices, Meeting, comes};
use crate::scripts::{KEYS, LATE, OTHER_ROLE, ROLE, SESSION};
use crate::setup::{answer_words, chain_of, devices_of, worlds_over};
use cfg_chain::DefaultCredentialsChain;
use cfg_kept::SharedKept;
use cfg_script::ScriptError;
use cfg_sharing::{Called, ShareFault, Shared, share_calls};
use cfg_types::OutOfMemory;
use cfg_world::{Devices, ScriptDevices, World};
use std::alloc::{AllocError, Global};
use std::sync::Wait;
use std::sync::atomic::{AtomicU64, Ordering};
use std::test::Fail;
use std::thread;
use std::thread::Threads;

// What two callers tell each other.
struct Signs {
    first: AtomicU64,
    second: AtomicU64,
}

impl Drop for Signs {
    fn drop(self) {
        let Signs {
            first: _,
            second: _,
        } = self;
    }
}

impl Signs {
    // Nothing was told.
    fn new() -> Signs {
        Signs {
            first: AtomicU64::new(0),
            second: AtomicU64::new(0),
        }
    }
}

// Each caller's answer, and whether the other one's request was sent meanwhile.
fn meeting_words(
    alloc: Global,
    shared: Shared<HeldDevices<ScriptDevices>>,
) -> Result<String, OutOfMemory> {
    let mut words = String::new(alloc);
    for Called { world, answered } in shared.calls.into_vec() {
        let answer = answer_words(alloc, &answered.outcome)?;
        let met = world.into_devices().met();
        words.push_str(format!(in alloc; "{answer} {met}, ")?.as_str())?;
    }
    Ok(words)
}

// Two callers, of which the first request of each waits for that of the other.
fn meeting<R: Threads + Wait + Sync>(
    rt: &R,
    alloc: Global,
    chain: &DefaultCredentialsChain,
    one: ScriptDevices,
    other: ScriptDevices,
) -> Result<String, OutOfMemory> {
    let signs = Signs::new();
    let mut devices = Vec::new(alloc);
    devices.push(HeldDevices::new(one, Meeting::new(Held::Send, &signs.first, &signs.second)))?;
    devices.push(HeldDevices::new(other, Meeting::new(Held::Send, &signs.second, &signs.first)))?;
    let kept = chain.new_kept()?;
    match share_calls(rt, alloc, chain, kept, worlds_over(alloc, devices)?) {
        Ok(shared) => meeting_words(alloc, shared),
        Err(ShareFault::HistoryDiffers(_)) => Ok(String::from_str(alloc, "no history")?),
        Err(ShareFault::OutOfMemory) => Err(OutOfMemory),
    }
}

#[test]
fn requests_of_two_callers_meet(rt: HostRuntime) -> Result<(), Fail> {
    let alloc = rt.alloc();
    let chain = chain_of(alloc, ROLE)?;
    let one = devices_of(alloc, ROLE)?;
    let other = devices_of(alloc, OTHER_ROLE)?;
    let words = meeting(&rt, alloc, &chain, one, other)?;
    assert_eq!(rt; words.as_str(), "KA true, KB true, ");
    Ok(())
}

// What a call answers on what is shared, and how much it asked.
fn call_words<R: Wait, D: Devices>(
    rt: &R,
    alloc: Global,
    chain: &DefaultCredentialsChain,
    kept: &SharedKept,
    world: &mut World<D>,
) -> Result<String, OutOfMemory> {
    if !kept.fits(chain.token_key()) {
        return Ok(String::from_str(alloc, "another key")?);
    }
    let answered = chain.provide_credentials_shared(rt, kept, world);
    let answer = answer_words(alloc, &answered.outcome)?;
    let asked = world.journal().len();
    Ok(format!(in alloc; "{answer} {asked}")?)
}

// One of two callers that tell each other how far they are.
#[derive(Drop)]
struct Caller<'a> {
    alloc: Global,
    script: &'a str,
    devices: ScriptDevices,
    signs: &'a Signs,
    is_held: bool,
}

// A caller that is held as it reads a file, and whether the other one was answered meanwhile.
fn held_words<R: Wait>(
    rt: &R,
    chain: &DefaultCredentialsChain,
    kept: &SharedKept,
    caller: Caller<'_>,
) -> Result<String, OutOfMemory> {
    let alloc = caller.alloc;
    let meeting = Meeting::new(Held::Read, &caller.signs.first, &caller.signs.second);
    let mut world = World::new(alloc, HeldDevices::new(caller.devices, meeting));
    let words = call_words(rt, alloc, chain, kept, &mut world)?;
    let met = world.into_devices().met();
    Ok(format!(in alloc; "{words} {met}")?)
}

// A caller that comes while the other one is held, and calls the chain of its own script.
fn words_meanwhile<R: Wait>(
    rt: &R,
    kept: &SharedKept,
    caller: Caller<'_>,
) -> Result<String, ScriptError> {
    let chain = chain_of(caller.alloc, caller.script)?;
    let mut world = World::new(caller.alloc, caller.devices);
    let _held = comes(&caller.signs.first);
    let words = call_words(rt, caller.alloc, &chain, kept, &mut world);
    caller.signs.second.store(1, Ordering::SeqCst);
    Ok(words?)
}

// The words of both, each on a thread of its own.
fn words_of_both<R: Threads + Wait + Sync>(
    rt: &R,
    chain: &DefaultCredentialsChain,
    kept: &SharedKept,
    callers: Vec<Caller>,
) -> Result<Vec<Result<String, ScriptError>>, AllocError> {
    thread::map_vec(
        rt,
        callers,
        &|caller: Caller| -> Result<String, ScriptError> {
            if caller.is_held {
                Ok(held_words(rt, chain, kept, caller)?)
            } else {
                words_meanwhile(rt, kept, caller)
            }
        },
    )
}

// One caller loads a token, and for the next one it is used up. That one is held as it reads the file, and meanwhile a
// third one calls the chain of this script.
fn words_around_a_load<R: Threads + Wait + Sync>(
    rt: &R,
    alloc: Global,
    other: &str,
) -> Result<String, ScriptError> {
    let chain = chain_of(alloc, SESSION)?;
    let kept = SharedKept::new(chain.new_kept()?);
    let mut early = World::new(alloc, devices_of(alloc, SESSION)?);
    let mut words = call_words(rt, alloc, &chain, &kept, &mut early)?;
    let signs = Signs::new();
    let mut both = Vec::new(alloc);
    for (script, is_held) in [(LATE, true), (other, false)] {
        both.push(Caller {
            alloc,
            script,
            devices: devices_of(alloc, script)?,
            signs: &signs,
            is_held,
        })?;
    }
    for next in words_of_both(rt, &chain, &kept, both)? {
        words.push_str(", ")?;
        words.push_str(next?.as_str())?;
    }
    Ok(words)
}

#[test]
fn no_call_waits_for_a_load(rt: HostRuntime) -> Result<(), Fail> {
    let table: &[(&str, &str)] = &[
        // A caller is handed the published token.
        (SESSION, "R 4, L 4 true, R 2"),
        // A caller is answered by the environment.
        (KEYS, "R 4, L 4 true, access 0"),
    ];
    for (other, want) in table {
        let words = words_around_a_load(&rt, rt.alloc(), other)?;
        assert_eq!(rt; words.as_str(), *want);
    }
    Ok(())
}
