//! Calls that hand out held credentials.
ghost use Rattle.std.specs.Prelude.{IfOk, codes};
ghost use Rattle.cfg_chain.specs.Settings.{alone};
ghost use Rattle.caller.specs.Configured.{configured};
ghost use Rattle.caller.specs.HeldCalls.{TwoCalls};

use crate::configuration::chain_for;
use aws_config::Credentials;
use aws_config::cache::{CacheFault, CacheSettings, IdentityCache};
use aws_config::devices::{Devices, World};
use std::alloc::Global;

// Credentials are handed out again while more than ten seconds of their life are left. Without an expiry they live a
// quarter of an hour.
const SETTINGS: CacheSettings = CacheSettings {
    buffer_seconds: 10,
    default_life_seconds: 900,
};

/// The credentials of the profile of a sign-in session, asked for twice under one name of a cache. The second call hands
/// out what the first one got, where enough of its life is left by the world's clock, and else asks the chain again. What
/// the chain answers in place of credentials is `Chain`, and `OutOfMemory` where memory runs out.
pub fn held_calls<D: Devices>(
    alloc: Global,
    world: &mut World<D>,
) -> Result<(Credentials, Credentials), CacheFault>
    ensures { IfOk result (λ both. TwoCalls ⟦<D as Devices>⟧ (alone (configured (codes "reader"))) world.old world.new both.0 both.1) }
{
    let mut cache = IdentityCache::new(alloc, SETTINGS);
    cache.add("reader", chain_for(alloc, "reader")?)?;
    let first = cache.resolve("reader", world)?;
    let second = cache.resolve("reader", world)?;
    Ok((first, second))
}
