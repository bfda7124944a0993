//! A cache that threads share.
ghost use Rattle.std.specs.Prelude.{◌≡◌, Err, IfOk, OnErr, OnOk, length, map, option_map};
ghost use Rattle.std.specs.FinMap.{len};
ghost use Rattle.cfg_kept.specs.FoundValues.{bare};
ghost use Rattle.cfg_kept.specs.KeptStates.{kept_holdings, kept_key};
ghost use Rattle.cfg_chain.specs.Views.{chain_of};
ghost use Rattle.cfg_chain.specs.profile.Plans.{key_of};
ghost use Rattle.cfg_identity.specs.Cached.{Breaks};
ghost use Rattle.cfg_identity.specs.Entries.{chain_in};
ghost use Rattle.cfg_identity.specs.Faults.{IsTold};
ghost use Rattle.cfg_identity.specs.NameStates.{state_of};
ghost use Rattle.cfg_identity.specs.SharedCalls.{FindsOn, IsFoundCall, IsPutBack, IsUnknown};

use crate::cache::{IdentityCache, Slot};
use crate::fault::{CacheFault, told};
use crate::held::Held;
use crate::loaded::{Loaded, resolve_loaded};
use crate::names::Names;
use crate::settings::CacheSettings;
use cfg_chain::DefaultCredentialsChain;
use cfg_kept::{Found, Keeper};
use cfg_types::{Credentials, CredentialsError, OutOfMemory, Seq, Text, TryCopy, copy_option};
use cfg_world::{Devices, World};
use std::alloc::Global;
use std::sync::{Mutex, Wait};

/// What a call of a shared cache answers, and what it found. After `OutOfMemory` it may tell nothing of what it found:
/// neither what was held nor a value.
#[derive(Drop)]
pub struct CacheAnswer {
    /// The credentials, or why there are none.
    pub outcome: Result<Credentials, CacheFault>,
    /// What was held when the call got the name's lock.
    pub held: Option<Held>,
    /// The values that the chain found kept, in order, with their receipts.
    pub kept: Seq<Found>,
}

impl CacheAnswer {
    ghost use Rattle.cfg_identity.specs.SharedCalls.{NothingFound};

    // A fault, for which nothing was found.
    fn of_fault(alloc: Global, fault: CacheFault) -> CacheAnswer
        ensures fault { result.outcome ≡ Err fault }
        ensures found { NothingFound result }
    {
        CacheAnswer {
            outcome: Err(fault),
            held: None,
            kept: Seq::of(Vec::new(alloc)),
        }
    }
}

// What stands under a name: a chain, and behind a lock what is kept and held of it.
#[derive(Drop)]
pub(crate) struct SharedSlot {
    pub(crate) chain: DefaultCredentialsChain,
    pub(crate) loaded: Mutex<Loaded>,
}

/// A cache that threads share. Each name has one lock, which a call of the name holds to its end: calls of one name
/// come one after another, and no call waits for one of another name. Contracts see, of each name, the setting of
/// its chain.
#[derive(Drop)]
pub struct SharedIdentityCache {
    alloc: Global,
    settings: CacheSettings,
    pub(crate) names: Names,
    pub(crate) slots: Vec<SharedSlot>,
    ghost counted: { length slots.items ≡ len names.numbers },
}

impl SharedIdentityCache {
    ghost use Rattle.cfg_identity.specs.SharedCalls.{IsShared};
    ghost use Rattle.cfg_identity.specs.SharedViews.{setting_at};
    ghost use Rattle.cfg_identity.specs.Views.{entry_at};

    /// The cache, to be shared: its names with their chains, and what is kept and held of them. `OutOfMemory` where
    /// memory runs out; the cache is given up then.
    pub fn new(cache: IdentityCache) -> Result<SharedIdentityCache, OutOfMemory>
        ensures settings { IfOk result (λ shared. shared.settings ≡ cache.settings) }
        ensures names { IfOk result (λ shared. (name : _) →
            setting_at value repeated shared name ≡ option_map chain_in (entry_at value repeated cache name)) }
        ensures len { IfOk result (λ shared. len shared.names.numbers ≡ len cache.names.numbers) }
    {
        let IdentityCache {
            alloc,
            settings,
            names,
            slots,
        } = cache;
        let slots = behind_locks(alloc, slots)?;
        Ok(SharedIdentityCache {
            alloc,
            settings,
            names,
            slots,
        })
    }

    /// The credentials under a name, as [`IdentityCache::resolve`] gives them over what is kept and held when the
    /// call gets the name's lock. The answer tells what it found there. A call waits for those of its own name alone.
    /// Contracts see what the call found and asked. They name nothing that stands behind a lock.
    ///
    /// # Errors
    ///
    /// Those of [`IdentityCache::resolve`]. What is held stays, and the other names are as they were. After
    /// `OutOfMemory` each kept value is as the last finished holding left it.
    pub fn resolve<R: Wait, D: Devices>(
        &self,
        rt: &R,
        name: &str,
        world: &mut World<D>,
    ) -> CacheAnswer
        ensures { IsShared ⟦<D as Devices>⟧ self.now.settings name.now (setting_at value repeated self.now name.now) world.old world.new result }
    {
        match self.names.find(name) {
            None => unknown(self.alloc, name),
            Some(place) => answer(rt, self.alloc, self.settings, &self.slots[place], world),
        }
    }

    /// How many names there are.
    pub fn len(&self) -> usize
        ensures { result ≡ len self.now.names.numbers }
    {
        self.names.len()
    }
}

// The slots, each with its lock.
fn behind_locks(alloc: Global, slots: Vec<Slot>) -> Result<Vec<SharedSlot>, OutOfMemory>
    ensures { IfOk result (λ shared. map (λ s. s.chain) shared.items ≡ map (λ s. s.chain) slots.items) }
{
    let mut shared = Vec::with_capacity(alloc, slots.len())?;
    for slot in slots {
        shared.push(behind_lock(slot))?;
    }
    Ok(shared)
}

fn behind_lock(slot: Slot) -> SharedSlot
    ensures { result.chain ≡ slot.chain }
{
    let Slot { chain, loaded } = slot;
    SharedSlot {
        chain,
        loaded: Mutex::new(loaded),
    }
}

// The answer to a name that is not there.
fn unknown(alloc: Global, name: &str) -> CacheAnswer
    ensures { IsUnknown name.now result }
{
    match Text::of(alloc, name) {
        Ok(name) => CacheAnswer::of_fault(alloc, CacheFault::Unknown(name)),
        Err(OutOfMemory) => CacheAnswer::of_fault(alloc, CacheFault::OutOfMemory),
    }
}

// A call under a name, once its lock is there.
fn answer<R: Wait, D: Devices>(
    rt: &R,
    alloc: Global,
    settings: CacheSettings,
    slot: &SharedSlot,
    world: &mut World<D>,
) -> CacheAnswer
    ensures { IsFoundCall ⟦<D as Devices>⟧ settings (chain_of value repeated slot.now.chain) world.old world.new result }
{
    let mut loaded = slot.loaded.lock(rt);
    answer_locked(alloc, settings, &slot.chain, &mut loaded, world)
}

// A call over what stands behind a lock.
fn answer_locked<D: Devices>(
    alloc: Global,
    settings: CacheSettings,
    chain: &DefaultCredentialsChain,
    loaded: &mut Loaded,
    world: &mut World<D>,
) -> CacheAnswer
    ensures { IsFoundCall ⟦<D as Devices>⟧ settings (chain_of value repeated chain.now) world.old world.new result }
{
    match fit(chain, loaded) {
        Ok(()) => answer_over(alloc, settings, chain, loaded, world),
        Err(OutOfMemory) => CacheAnswer::of_fault(alloc, CacheFault::OutOfMemory),
    }
}

// A call over what is kept and held.
fn answer_over<D: Devices>(
    alloc: Global,
    settings: CacheSettings,
    chain: &DefaultCredentialsChain,
    loaded: &mut Loaded,
    world: &mut World<D>,
) -> CacheAnswer
    requires { kept_key loaded.old.kept ≡ key_of chain.now.core }
    ensures { FindsOn ⟦<D as Devices>⟧ settings (chain_of value repeated chain.now) (state_of loaded.old) (state_of loaded.new) world.old world.new result }
{
    match found_over(alloc, settings, chain, loaded, world) {
        Ok(answer) => answer,
        Err(OutOfMemory) => CacheAnswer::of_fault(alloc, CacheFault::OutOfMemory),
    }
}

// The same, where the memory to tell what was found suffices.
fn found_over<D: Devices>(
    alloc: Global,
    settings: CacheSettings,
    chain: &DefaultCredentialsChain,
    loaded: &mut Loaded,
    world: &mut World<D>,
) -> Result<CacheAnswer, OutOfMemory>
    requires { kept_key loaded.old.kept ≡ key_of chain.now.core }
    ensures found { IfOk result (FindsOn ⟦<D as Devices>⟧ settings (chain_of value repeated chain.now)
        (state_of loaded.old) (state_of loaded.new) world.old world.new) }
    ensures breaks { OnErr result (Breaks ⟦<D as Devices>⟧ settings (chain_of value repeated chain.now)
        (state_of loaded.old) (state_of loaded.new) world.old world.new) }
{
    let held = copy_option(alloc, &loaded.held)?;
    let outcome = resolve_loaded(alloc, settings, chain, loaded, world);
    with_found(alloc, outcome, held, loaded)
}

// The answer, with what was held before and the values that are listed as found. Where memory runs out, what was held
// is put back.
fn with_found(
    alloc: Global,
    outcome: Result<Credentials, CredentialsError>,
    held: Option<Held>,
    loaded: &mut Loaded,
) -> Result<CacheAnswer, OutOfMemory>
    ensures told { IfOk result (λ answer. IsTold outcome answer.outcome) }
    ensures held { IfOk result (λ answer. answer.held ≡ held) }
    ensures found { IfOk result (λ answer. map bare answer.kept ≡ (kept_holdings loaded.old.kept).found) }
    ensures state { OnOk result (state_of loaded.new ≡ state_of loaded.old) }
    ensures back { OnErr result (IsPutBack held (state_of loaded.old) (state_of loaded.new)) }
{
    let copies = copies_of(alloc, loaded.kept.found());
    loaded.trim();
    match copies {
        Ok(kept) => Ok(CacheAnswer {
            outcome: told(outcome),
            held,
            kept: Seq::of(kept),
        }),
        Err(error) => {
            loaded.held = held;
            Err(error)
        }
    }
}

// What is kept is the chain's, as when its name was added. A lock's type does not say so: where it is another's,
// nothing is kept.
fn fit(chain: &DefaultCredentialsChain, loaded: &mut Loaded) -> Result<(), OutOfMemory>
    ensures fits { OnOk result (kept_key loaded.new.kept ≡ key_of chain.now.core) }
    ensures stays { kept_key loaded.old.kept ≡ key_of chain.now.core → loaded.new ≡ loaded.old }
    ensures failed { OnErr result (loaded.new ≡ loaded.old) }
{
    if !loaded.kept.fits(chain.token_key()) {
        loaded.kept = chain.new_kept()?;
    }
    Ok(())
}

fn copies_of(alloc: Global, found: &[Found]) -> Result<Vec<Found>, OutOfMemory>
    ensures { IfOk result (λ copies. copies.items ≡ found.now) }
{
    let mut copies = Vec::with_capacity(alloc, found.len())?;
    for value in found {
        copies.push(value.copy(alloc)?)?;
    }
    Ok(copies)
}
