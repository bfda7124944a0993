//! A cache of credentials by name.
ghost use Rattle.std.specs.Prelude.{◌≡◌, ◌+◌, length, None, option_map, if◌then◌else◌, is_ok, OnErr, OnOk};
ghost use Rattle.std.specs.Option.{option_copied, option_and_then};
ghost use Rattle.std.specs.FinMap.{get, len};
ghost use Rattle.cfg_chain.specs.Views.{chain_of};
ghost use Rattle.cfg_chain.specs.profile.Plans.{key_of};
ghost use Rattle.cfg_identity.specs.Entries.{IsAdded, IsPlaced, IsResolved, OthersStay, ResolvesOn, SameEntries, held_in, without_held};
ghost use Rattle.cfg_identity.specs.NameStates.{loaded_key};

use crate::fault::{CacheFault, told};
use crate::held::Held;
use crate::loaded::Loaded;
use crate::names::Names;
use crate::settings::CacheSettings;
use cfg_chain::DefaultCredentialsChain;
use cfg_types::{Credentials, OutOfMemory, Text};
use cfg_world::{Devices, World};
use std::alloc::Global;

/// What stands under a name: a chain, and what is kept and held of it.
#[derive(Drop)]
pub(crate) struct Slot {
    pub(crate) chain: DefaultCredentialsChain,
    pub(crate) loaded: Loaded,
    ghost fits: { loaded_key loaded ≡ key_of chain.core },
}

impl Slot {
    ghost use Rattle.cfg_identity.specs.Views.{entry_of};

    // A call under the name.
    fn resolve<D: Devices>(
        &mut self,
        alloc: Global,
        settings: CacheSettings,
        world: &mut World<D>,
    ) -> Result<Credentials, CacheFault>
        ensures { ResolvesOn ⟦<D as Devices>⟧ settings (entry_of value repeated self.old) (entry_of value repeated self.new) world.old world.new result }
    {
        told(self.loaded.resolve(alloc, settings, &self.chain, world))
    }
}

/// Credentials by name. Each name has a default chain, what that keeps between calls, and the credentials that are
/// held. Contracts see, of each name, the setting of its chain, what is held, and the kept states.
#[derive(Drop)]
pub struct IdentityCache {
    pub(crate) alloc: Global,
    pub(crate) settings: CacheSettings,
    pub(crate) names: Names,
    pub(crate) slots: Vec<Slot>,
    ghost counted: { length slots.items ≡ len names.numbers },
}

impl IdentityCache {
    ghost use Rattle.cfg_identity.specs.Views.{entry_of, entry_at};

    /// A cache without names. Takes no memory.
    pub fn new(alloc: Global, settings: CacheSettings) -> IdentityCache
        ensures settings { result.settings ≡ settings }
        ensures empty { (name : _) → entry_at value repeated result name ≡ None }
        ensures len { len result.names.numbers ≡ 0 }
    {
        IdentityCache {
            alloc,
            settings,
            names: Names::new(alloc),
            slots: Vec::new(alloc),
        }
    }

    /// A chain under a new name. Nothing is held and kept of it.
    ///
    /// # Errors
    ///
    /// The cache is as it was, and the chain is given up.
    ///
    /// - `Taken` where the name is there.
    /// - `OutOfMemory` where memory runs out.
    pub fn add(&mut self, name: &str, chain: DefaultCredentialsChain) -> Result<(), CacheFault>
        ensures adds { IsAdded (chain_of value repeated chain) name.now
            (entry_at value repeated self.old name.now) (entry_at value repeated self.new name.now) result }
        ensures others { OthersStay name.now (entry_at value repeated self.old) (entry_at value repeated self.new) }
        ensures settings { self.new.settings ≡ self.old.settings }
        ensures len { len self.new.names.numbers ≡ (if is_ok result then len self.old.names.numbers + 1 else len self.old.names.numbers) }
    {
        if let Some(_) = self.names.find(name) {
            return Err(CacheFault::Taken(Text::of(self.alloc, name)?));
        }
        let kept = chain.new_kept()?;
        let slot = Slot {
            chain,
            loaded: Loaded::new(kept),
        };
        self.place(name, slot)?;
        Ok(())
    }

    // The slot under a new name. Where memory runs out it is given up.
    fn place(&mut self, name: &str, slot: Slot) -> Result<(), OutOfMemory>
        requires { get self.old.names.numbers name.now ≡ None }
        ensures placed { OnOk result (IsPlaced (entry_of value repeated slot) name.now (entry_at value repeated self.old) (entry_at value repeated self.new)) }
        ensures stays { OnErr result (SameEntries (entry_at value repeated self.old) (entry_at value repeated self.new)) }
        ensures settings { self.new.settings ≡ self.old.settings }
        ensures len { len self.new.names.numbers ≡ (if is_ok result then len self.old.names.numbers + 1 else len self.old.names.numbers) }
    {
        let name = String::from_str(self.alloc, name)?;
        let place = self.slots.len();
        self.slots.push(slot)?;
        match self.names.add(name) {
            Ok(()) => Ok(()),
            Err(error) => {
                self.slots.truncate(place);
                Err(error)
            }
        }
    }

    /// The credentials under a name: those that are held, where more seconds of their life are left at a reading of
    /// the clock than the buffer, and else what the name's chain answers. Credentials of the chain are held from then
    /// on, for as long as their expiry says, or the default life from the reading on.
    ///
    /// The world's journal gains the reading, and behind it, where the chain was asked, what
    /// [`provide_credentials`](cfg_chain::DefaultCredentialsChain::provide_credentials) asks. Nothing else is kept
    /// of a call than what the chain keeps.
    ///
    /// # Errors
    ///
    /// What is held stays, and the other names are as they were.
    ///
    /// - `Unknown` where the name is not there. Nothing is asked.
    /// - `Chain` around what the chain answers.
    /// - `OutOfMemory` where memory runs out. The journal then has gained the beginning of such a part, and each kept
    ///   value is as the last finished holding left it.
    pub fn resolve<D: Devices>(
        &mut self,
        name: &str,
        world: &mut World<D>,
    ) -> Result<Credentials, CacheFault>
        ensures resolves { IsResolved ⟦<D as Devices>⟧ self.old.settings name.now (entry_at value repeated self.old name.now)
            (entry_at value repeated self.new name.now) world.old world.new result }
        ensures others { OthersStay name.now (entry_at value repeated self.old) (entry_at value repeated self.new) }
        ensures settings { self.new.settings ≡ self.old.settings }
        ensures len { len self.new.names.numbers ≡ len self.old.names.numbers }
    {
        match self.names.find(name) {
            None => Err(CacheFault::Unknown(Text::of(self.alloc, name)?)),
            Some(place) => self.slots[place].resolve(self.alloc, self.settings, world),
        }
    }

    /// What is held under a name, none where nothing is or the name is not there. Nothing is asked.
    pub fn held(&self, name: &str) -> Option<&Held>
        ensures { option_copied result ≡ option_and_then held_in (entry_at value repeated self.now name.now) }
    {
        let place = self.names.find(name)?;
        self.slots[place].loaded.held()
    }

    /// Gives up what is held under a name, and answers it: the next call of the name asks its chain. Without it, and
    /// where the name is not there, nothing changes. What the chain keeps stays.
    pub fn forget(&mut self, name: &str) -> Option<Held>
        ensures given { result ≡ option_and_then held_in (entry_at value repeated self.old name.now) }
        ensures forgets { entry_at value repeated self.new name.now ≡ option_map without_held (entry_at value repeated self.old name.now) }
        ensures others { OthersStay name.now (entry_at value repeated self.old) (entry_at value repeated self.new) }
        ensures settings { self.new.settings ≡ self.old.settings }
        ensures len { len self.new.names.numbers ≡ len self.old.names.numbers }
    {
        match self.names.find(name) {
            None => None,
            Some(place) => self.slots[place].loaded.held.take(),
        }
    }

    /// How many names there are.
    pub fn len(&self) -> usize
        ensures { result ≡ len self.now.names.numbers }
    {
        self.names.len()
    }
}
