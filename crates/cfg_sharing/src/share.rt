//! One call a thread over one kept state.
ghost use Rattle.std.specs.Prelude.{◌≡◌, [], All, IfOk, IfSome, MatchResult};
ghost use Rattle.cfg_kept.specs.KeptStates.{kept_key};
ghost use Rattle.cfg_kept.specs.SharedStates.{shared_key};
ghost use Rattle.cfg_chain.specs.Views.{chain_of};
ghost use Rattle.cfg_chain.specs.profile.Plans.{key_of};
ghost use Rattle.cfg_sharing.specs.Calls.{IsCalled, AreCalled};
ghost use Rattle.cfg_sharing.specs.Agreement.{handed_back, Agrees, IsFault};

use crate::judging::judge;
use crate::shared::{Called, ShareFault, Shared};
use cfg_chain::DefaultCredentialsChain;
use cfg_exchange::ClassifyRetry;
use cfg_kept::{Kept, SharedKept};
use cfg_providers::ProvideCredentials;
use cfg_types::Seq;
use cfg_world::{Devices, World};
use std::alloc::{AllocError, Global};
use std::sync::Wait;
use std::thread;
use std::thread::Threads;

/// One call of the chain over each of these worlds, each on a thread of its own, all on what is kept. It ends when all
/// callers have ended, and hands back the worlds and the answers, in the order of the worlds, and what is kept then.
/// Each answer is what the values that its call found and its world's journal say; one that is `OutOfMemory` is
/// handed back as any other.
///
/// The histories agree, where the chain needs a token: the readings that the records of what is kept tell directly after
/// a file are those of the journals. And each receipt that a found value carries is of an entry of a journal. What was
/// kept, loaded or noted before makes them differ.
///
/// # Errors
///
/// - `HistoryDiffers` where they do not agree, with all that is handed back else.
/// - `OutOfMemory` where memory runs out. The worlds are given up then, and what was kept.
pub fn share_calls<R: Threads + Wait + Sync, D: Devices + Send + Drop>(
    rt: &R,
    alloc: Global,
    chain: &DefaultCredentialsChain,
    kept: Kept,
    worlds: Vec<World<D>>,
) -> Result<Shared<D>, ShareFault<D>>
    requires key { kept_key kept ≡ key_of chain.now.core }
    requires journals { All (λ w. w.journal ≡ []) worlds.items }
    // The callers' calls, handed back with either answer.
    ensures calls { IfSome (handed_back result) (λ shared.
        AreCalled ⟦<D as Devices>⟧ (chain_of value repeated chain.now) worlds.items shared.calls) }
    ensures key { IfSome (handed_back result) (λ shared. kept_key shared.kept ≡ kept_key kept) }
    ensures agrees { MatchResult result Agrees IsFault }
{
    let shared_kept = SharedKept::new(kept);
    let calls = call_each(rt, chain, &shared_kept, worlds)?;
    let shared = Shared {
        calls: Seq::of(calls),
        kept: shared_kept.into_kept(),
    };
    judge(alloc, shared)
}

// A call of each world, on a thread of its own.
fn call_each<R: Threads + Wait + Sync, D: Devices + Send + Drop>(
    rt: &R,
    chain: &DefaultCredentialsChain,
    kept: &SharedKept,
    worlds: Vec<World<D>>,
) -> Result<Vec<Called<D>>, AllocError>
    requires key { shared_key kept.now ≡ key_of chain.now.core }
    requires journals { All (λ w. w.journal ≡ []) worlds.items }
    ensures { IfOk result (λ calls. AreCalled ⟦<D as Devices>⟧ (chain_of value repeated chain.now) worlds.items calls.items) }
{
    let calls = thread::map_vec(
        rt,
        worlds,
        &|world: World<D>| -> Called<D>
            requires { (shared_key kept.now ≡ key_of chain.now.core) × (world.journal ≡ []) }
            ensures { IsCalled D.Devices (chain_of value repeated chain.entry.now) world result }
        { call(rt, chain, kept, world) },
    )?;
    Ok(calls)
}

// One call over a world.
fn call<R: Wait, D: Devices>(
    rt: &R,
    chain: &DefaultCredentialsChain,
    kept: &SharedKept,
    world: World<D>,
) -> Called<D>
    requires key { shared_key kept.now ≡ key_of chain.now.core }
    requires journal { world.journal ≡ [] }
    ensures { IsCalled ⟦<D as Devices>⟧ (chain_of value repeated chain.now) world result }
{
    let mut world = world;
    let answered = chain.provide_credentials_shared(rt, kept, &mut world);
    Called { world, answered }
}
