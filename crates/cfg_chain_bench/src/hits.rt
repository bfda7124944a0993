//! Calls that find a token kept.
ghost use Rattle.std.specs.Prelude.{◌≡◌};
ghost use Rattle.cfg_kept.specs.KeptStates.{kept_key};
ghost use Rattle.cfg_kept.specs.SharedStates.{shared_key};
ghost use Rattle.cfg_chain.specs.profile.Plans.{key_of};

use cfg_chain::DefaultCredentialsChain;
use cfg_kept::{Kept, SharedKept};
use cfg_types::{OutOfMemory, Outcome};
use cfg_world::{ScriptDevices, World};
use std::alloc::{AllocError, Global};
use std::sync::Wait;
use std::thread;
use std::thread::Threads;

/// So many calls on one kept state, over these devices: how many gave credentials.
pub fn lent_line(
    alloc: Global,
    chain: &DefaultCredentialsChain,
    devices: ScriptDevices,
    calls: u64,
) -> Result<String, OutOfMemory> {
    let mut world = World::new(alloc, devices);
    let mut kept = chain.new_kept()?;
    let given = lent_calls(chain, &mut kept, &mut world, calls);
    Ok(format!(in alloc; "{given}\n")?)
}

/// So many calls over each of these worlds, each on a thread of its own, all on what one call over the first devices
/// kept: how many gave credentials.
pub fn shared_line<R: Threads + Wait + Sync>(
    rt: &R,
    alloc: Global,
    chain: &DefaultCredentialsChain,
    devices: ScriptDevices,
    worlds: Vec<World<ScriptDevices>>,
    calls: u64,
) -> Result<String, OutOfMemory> {
    let mut world = World::new(alloc, devices);
    let mut kept = chain.new_kept()?;
    let _loaded = lent_calls(chain, &mut kept, &mut world, 1);
    let kept = SharedKept::new(kept);
    let mut given: u64 = 0;
    for of_one in calls_of_each(rt, chain, &kept, worlds, calls)? {
        given = given.saturating_add(of_one);
    }
    Ok(format!(in alloc; "{given}\n")?)
}

// How many of so many calls gave credentials.
fn lent_calls(
    chain: &DefaultCredentialsChain,
    kept: &mut Kept,
    world: &mut World<ScriptDevices>,
    calls: u64,
) -> u64
    requires { kept_key kept.old ≡ key_of chain.now.core }
    ensures { kept_key kept.new ≡ key_of chain.now.core }
{
    let mut given: u64 = 0;
    for _ in 0..calls {
        let outcome = Outcome {
            answer: chain.provide_credentials(kept, world),
        };
        if outcome.answer.is_ok() {
            given = given.saturating_add(1);
        }
    }
    given
}

// The same of each thread.
fn calls_of_each<R: Threads + Wait + Sync>(
    rt: &R,
    chain: &DefaultCredentialsChain,
    kept: &SharedKept,
    worlds: Vec<World<ScriptDevices>>,
    calls: u64,
) -> Result<Vec<u64>, AllocError>
    requires { shared_key kept.now ≡ key_of chain.now.core }
{
    thread::map_vec(
        rt,
        worlds,
        &|world: World<ScriptDevices>| -> u64
            requires { shared_key kept.now ≡ key_of chain.now.core }
        { shared_calls(rt, chain, kept, world, calls) },
    )
}

// The same on a state that is shared.
fn shared_calls<R: Wait>(
    rt: &R,
    chain: &DefaultCredentialsChain,
    kept: &SharedKept,
    world: World<ScriptDevices>,
    calls: u64,
) -> u64
    requires { shared_key kept.now ≡ key_of chain.now.core }
{
    let mut world = world;
    let mut given: u64 = 0;
    for _ in 0..calls {
        let answered = chain.provide_credentials_shared(rt, kept, &mut world);
        if answered.outcome.is_ok() {
            given = given.saturating_add(1);
        }
    }
    given
}
