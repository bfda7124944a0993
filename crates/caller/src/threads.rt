//! Calls on threads that share what is kept.
ghost use Rattle.std.specs.Prelude.{◌≡◌, [], All, IfOk};
ghost use Rattle.cfg_chain.specs.Views.{chain_of};
ghost use Rattle.cfg_sharing.specs.Calls.{AreCalled};

use aws_config::Seq;
use aws_config::default_provider::credentials::DefaultCredentialsChain;
use aws_config::devices::{Devices, World};
use aws_config::shared::{Called, ShareFault, Shared, share_calls};
use std::alloc::Global;
use std::sync::Wait;
use std::thread::Threads;

/// A call of the chain over each of these worlds, each on a thread of its own, where the calls tell of one history.
/// Nothing is kept before them.
///
/// # Errors
///
/// - `HistoryDiffers` where the calls tell of histories that differ.
/// - `OutOfMemory` where memory runs out.
pub fn calls_on_threads<R: Threads + Wait + Sync, D: Devices + Send + Drop>(
    rt: &R,
    alloc: Global,
    chain: &DefaultCredentialsChain,
    worlds: Vec<World<D>>,
) -> Result<Seq<Called<D>>, ShareFault<D>>
    requires { All (λ w. w.journal ≡ []) worlds.items }
    ensures { IfOk result (λ calls. AreCalled ⟦<D as Devices>⟧ (chain_of value repeated chain.now) worlds.items calls) }
{
    let kept = chain.new_kept()?;
    let Shared { calls, kept: _ } = share_calls(rt, alloc, chain, kept, worlds)?;
    Ok(calls)
}
