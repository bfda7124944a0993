//! What callers come to that share one kept state, and whether they have one history.
ghost use Rattle.std.specs.Prelude.{◌≡◌, IfOk};
ghost use Rattle.cfg_kept.specs.KeptStates.{kept_key};
ghost use Rattle.cfg_chain.specs.profile.Plans.{key_of};

use crate::scripts::{
    METADATA, OTHER_ROLE, REFRESHED, ROLE, SESSION, SIGN_IN, UNANSWERED, WITHOUT_FILE,
};
use crate::setup::{answer_words, chain_of, devices_of, worlds_over};
use cfg_chain::DefaultCredentialsChain;
use cfg_kept::Kept;
use cfg_script::ScriptError;
use cfg_sharing::{Called, ShareFault, Shared, share_calls};
use cfg_types::{OutOfMemory, Seq};
use cfg_world::{Devices, FaultDevices, ScriptDevices, World};
use std::alloc::Global;
use std::sync::Wait;
use std::test::Fail;
use std::thread::Threads;

// The answers in the callers' order, how much they asked together, the readings behind files in their journals and in
// what is kept, and the strays.
fn shared_words<D: Devices>(alloc: Global, shared: &Shared<D>) -> Result<String, OutOfMemory> {
    let mut words = String::new(alloc);
    let mut asked: usize = 0;
    for called in shared.calls.as_slice() {
        words.push_str(answer_words(alloc, &called.answered.outcome)?.as_str())?;
        words.push_str(", ")?;
        asked = asked.saturating_add(called.world.journal().len());
    }
    let handed = shared.handed(alloc)?;
    let recorded = shared.recorded(alloc)?;
    let strays = shared.strays();
    Ok(format!(in alloc;
        "{words}asked {asked}, handed {handed:?}, recorded {recorded:?}, strays {strays}"
    )?)
}

// How much the caller asked that asked most.
fn most_asked(calls: &[Called<ScriptDevices>]) -> usize {
    let mut most = 0;
    for called in calls {
        most = most.max(called.world.journal().len());
    }
    most
}

// The strays where the journals are given up of those that asked most.
fn strays_without(alloc: Global, shared: Shared<ScriptDevices>) -> Result<usize, OutOfMemory> {
    let Shared { calls, kept } = shared;
    let most = most_asked(calls.as_slice());
    let mut others = Vec::new(alloc);
    for Called { world, answered } in calls.into_vec() {
        let world = if world.journal().len() == most {
            World::new(alloc, world.into_devices())
        } else {
            world
        };
        others.push(Called { world, answered })?;
    }
    let calls = Seq::of(others);
    Ok(Shared { calls, kept }.strays())
}

// What is kept after a call of the chain over these devices, if there are any.
fn kept_after(
    alloc: Global,
    chain: &DefaultCredentialsChain,
    before: Option<ScriptDevices>,
) -> Result<Kept, OutOfMemory>
    ensures { IfOk result (λ kept. kept_key kept ≡ key_of chain.now.core) }
{
    let mut kept = chain.new_kept()?;
    if let Some(devices) = before {
        let mut world = World::new(alloc, devices);
        let _answer = chain.provide_credentials(&mut kept, &mut world);
    }
    Ok(kept)
}

fn shared_by<R: Threads + Wait + Sync, D: Devices + Send + Drop>(
    rt: &R,
    alloc: Global,
    chain: &DefaultCredentialsChain,
    before: Option<ScriptDevices>,
    callers: Vec<D>,
) -> Result<Shared<D>, ShareFault<D>> {
    let kept = kept_after(alloc, chain, before)?;
    let worlds = worlds_over(alloc, callers)?;
    share_calls(rt, alloc, chain, kept, worlds)
}

// Whether the callers have one history, and what they come to.
fn result_words(
    alloc: Global,
    shared: Result<Shared<ScriptDevices>, ShareFault<ScriptDevices>>,
) -> Result<String, OutOfMemory> {
    let (history, shared) = match shared {
        Ok(shared) => ("one", shared),
        Err(ShareFault::HistoryDiffers(shared)) => ("differs", shared),
        Err(ShareFault::OutOfMemory) => return Err(OutOfMemory),
    };
    let words = shared_words(alloc, &shared)?;
    let without = strays_without(alloc, shared)?;
    Ok(format!(in alloc; "{history}: {words}, without {without}")?)
}

fn all_devices(alloc: Global, scripts: &[&str]) -> Result<Vec<ScriptDevices>, ScriptError> {
    let mut devices = Vec::new(alloc);
    for script in scripts {
        devices.push(devices_of(alloc, script)?)?;
    }
    Ok(devices)
}

// What callers of a script's chain come to, who share what is kept after a call over another script, if there is one.
fn words_of<R: Threads + Wait + Sync>(
    rt: &R,
    alloc: Global,
    script: &str,
    before: Option<&str>,
    callers: &[&str],
) -> Result<String, ScriptError> {
    let chain = chain_of(alloc, script)?;
    let before = match before {
        Some(script) => Some(devices_of(alloc, script)?),
        None => None,
    };
    let callers = all_devices(alloc, callers)?;
    let shared = shared_by(rt, alloc, &chain, before, callers);
    Ok(result_words(alloc, shared)?)
}

// A case: the script of a chain, what is called before, the callers, and what they may come to.
type Case = (
    &'static str,
    Option<&'static str>,
    &'static [&'static str],
    &'static [&'static str],
);

const CASES: &[Case] = &[
    // Nothing is kept.
    (
        ROLE,
        None,
        &[ROLE, OTHER_ROLE],
        &["one: KA, KB, asked 2, handed [], recorded [], strays 0, without 0"],
    ),
    // One caller loads the token, and the other finds it.
    (
        SESSION,
        None,
        &[SESSION, SESSION],
        &[
            "one: R, R, asked 6, handed [Instant { seconds: 0, nanos: 0 }], recorded [Instant { seconds: 0, nanos: 0 }], strays 0, without 1",
        ],
    ),
    // One caller is given a session token, and finds it again; the other finds it twice.
    (
        METADATA,
        None,
        &[METADATA, METADATA],
        &["one: MUA, MUA, asked 12, handed [], recorded [], strays 0, without 3"],
    ),
    // An error beside a success, whoever loads the token.
    (
        SESSION,
        None,
        &[SESSION, UNANSWERED],
        &[
            "one: R, provider error, asked 6, handed [Instant { seconds: 0, nanos: 0 }], recorded [Instant { seconds: 0, nanos: 0 }], strays 0, without 1",
        ],
    ),
    // Who has no file is given no token, but where the other caller came first.
    (
        SESSION,
        None,
        &[SESSION, WITHOUT_FILE],
        &[
            "one: R, Q, asked 6, handed [Instant { seconds: 0, nanos: 0 }], recorded [Instant { seconds: 0, nanos: 0 }], strays 0, without 1",
            "one: R, provider error, asked 6, handed [Instant { seconds: 0, nanos: 0 }], recorded [Instant { seconds: 0, nanos: 0 }], strays 0, without 0",
        ],
    ),
    // What was loaded before stands in no caller's journal.
    (
        SESSION,
        Some(SESSION),
        &[SESSION],
        &[
            "differs: R, asked 2, handed [], recorded [Instant { seconds: 0, nanos: 0 }], strays 1, without 3",
        ],
    ),
];

#[test]
fn callers_have_one_history(rt: HostRuntime) -> Result<(), Fail> {
    for (script, before, callers, lawful) in CASES {
        let words = words_of(&rt, rt.alloc(), script, *before, callers)?;
        assert!(rt; lawful.contains(&words.as_str()), "{words}");
    }
    Ok(())
}

// A base of one to sixteen callers: its script, the id that each is given, how much the first one asks and each other
// one, and the readings behind files.
type Base = (&'static str, &'static str, usize, usize, &'static str);

const BASES: &[Base] = &[
    (ROLE, "KA", 1, 1, "[]"),
    (SESSION, "R", 4, 2, "[Instant { seconds: 0, nanos: 0 }]"),
    (REFRESHED, "R", 6, 2, "[Instant { seconds: 700, nanos: 0 }]"),
    (SIGN_IN, "KA", 6, 2, "[Instant { seconds: 1000, nanos: 0 }]"),
    (METADATA, "MUA", 7, 5, "[]"),
];

// What so many callers of a base come to.
fn base_words<R: Threads + Wait + Sync>(
    rt: &R,
    alloc: Global,
    script: &str,
    number: usize,
) -> Result<String, ScriptError> {
    let chain = chain_of(alloc, script)?;
    let mut callers = Vec::new(alloc);
    for _ in 0..number {
        callers.push(devices_of(alloc, script)?)?;
    }
    match shared_by(rt, alloc, &chain, None, callers) {
        Ok(shared) => Ok(shared_words(alloc, &shared)?),
        Err(_) => Ok(String::from_str(alloc, "no history, or no memory")?),
    }
}

// What they come to, whoever comes first.
fn words_where(alloc: Global, base: &Base, number: usize) -> Result<String, OutOfMemory> {
    let (_, id, first, other, readings) = base;
    let mut words = String::new(alloc);
    let mut asked = *first;
    for place in 0..number {
        words.push_str(id)?;
        words.push_str(", ")?;
        if place > 0 {
            asked = asked.saturating_add(*other);
        }
    }
    Ok(format!(in alloc; "{words}asked {asked}, handed {readings}, recorded {readings}, strays 0")?)
}

// The words of the first number of callers, one to sixteen, that come to anything else.
fn unlike<R: Threads + Wait + Sync>(
    rt: &R,
    alloc: Global,
    base: &Base,
) -> Result<Option<String>, ScriptError> {
    let (script, _, _, _, _) = base;
    for number in 1..17 {
        let words = base_words(rt, alloc, script, number)?;
        if words != words_where(alloc, base, number)? {
            return Ok(Some(words));
        }
    }
    Ok(None)
}

#[test]
fn one_to_sixteen_callers(rt: HostRuntime) -> Result<(), Fail> {
    for base in BASES {
        assert_eq!(rt; unlike(&rt, rt.alloc(), base)?, None);
    }
    Ok(())
}

// What two callers of a session come to, of whose devices the call of this number fails for the first caller.
fn fault_words<R: Threads + Wait + Sync>(
    rt: &R,
    alloc: Global,
    at: u64,
) -> Result<String, ScriptError> {
    let chain = chain_of(alloc, SESSION)?;
    let mut callers = Vec::new(alloc);
    callers.push(FaultDevices::new(devices_of(alloc, SESSION)?, at))?;
    callers.push(FaultDevices::new(devices_of(alloc, SESSION)?, 0))?;
    match shared_by(rt, alloc, &chain, None, callers) {
        Ok(shared) => Ok(shared_words(alloc, &shared)?),
        Err(_) => Ok(String::from_str(alloc, "no history, or no memory")?),
    }
}

// Whether the first caller comes first, it is to load the token, and its calls of the devices are the file and the
// credentials' request. Else it finds the token, and its only one is that request.
const FAULTS: &[(u64, &[&str])] = &[
    // It is not given credentials: it has no file, and the other one loads the token, or its request fails.
    (
        1,
        &[
            "provider error, R, asked 6, handed [Instant { seconds: 0, nanos: 0 }], recorded [Instant { seconds: 0, nanos: 0 }], strays 0",
        ],
    ),
    // Its request fails where it loads the token, which the other one finds all the same.
    (
        2,
        &[
            "provider error, R, asked 6, handed [Instant { seconds: 0, nanos: 0 }], recorded [Instant { seconds: 0, nanos: 0 }], strays 0",
            "R, R, asked 6, handed [Instant { seconds: 0, nanos: 0 }], recorded [Instant { seconds: 0, nanos: 0 }], strays 0",
        ],
    ),
    // It has no third one.
    (
        3,
        &[
            "R, R, asked 6, handed [Instant { seconds: 0, nanos: 0 }], recorded [Instant { seconds: 0, nanos: 0 }], strays 0",
        ],
    ),
];

#[test]
fn each_call_of_the_devices_of_a_caller_may_fail(rt: HostRuntime) -> Result<(), Fail> {
    for (at, lawful) in FAULTS {
        let words = fault_words(&rt, rt.alloc(), *at)?;
        assert!(rt; lawful.contains(&words.as_str()), "{at}: {words}");
    }
    Ok(())
}
