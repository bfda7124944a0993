//! What is kept from one call to the next, shared by callers on several threads.
ghost use Rattle.std.specs.Prelude.{◌≡◌, ◌↔◌, [], IsTrue};
ghost use Rattle.std.specs.Option.{option_copied};
ghost use Rattle.cfg_kept.specs.KeptStates.{kept_key};
ghost use Rattle.cfg_kept.specs.SharedKeys.{key_of_shared};
ghost use Rattle.cfg_kept.specs.SharedStates.{shared_key};

use crate::kept::{Kept, are_same};
use crate::metadata::PlaceState;
use crate::place::Place;
use crate::retrieved::Retrieved;
use crate::shared_keyed::SharedKeyed;
use cfg_imds::MetadataToken;
use cfg_token::TokenKey;
use std::alloc::Global;
use std::sync::{Mutex, Wait};

/// The kept states, each behind a lock of its own. The key of the token stands beside the locks.
pub struct SharedKept {
    alloc: Global,
    pub(crate) token: SharedKeyed,
    chain: SharedPlace,
    named: SharedPlace,
}

impl Drop for SharedKept {
    fn drop(self) {
        let SharedKept {
            alloc: _,
            token: _,
            chain: _,
            named: _,
        } = self;
    }
}

// What is kept for one place, each value behind a lock.
pub(crate) struct SharedPlace {
    pub(crate) token: Mutex<Option<MetadataToken>>,
    pub(crate) retrieved: Mutex<Option<Retrieved>>,
}

impl Drop for SharedPlace {
    fn drop(self) {
        let SharedPlace {
            token: _,
            retrieved: _,
        } = self;
    }
}

impl SharedPlace {
    pub(crate) fn new(token: Option<MetadataToken>, retrieved: Option<Retrieved>) -> SharedPlace {
        SharedPlace {
            token: Mutex::new(token),
            retrieved: Mutex::new(retrieved),
        }
    }

    fn into_state(self) -> PlaceState {
        let SharedPlace { token, retrieved } = self;
        PlaceState {
            token: token.into_inner(),
            retrieved: retrieved.into_inner(),
        }
    }
}

impl SharedKept {
    /// These kept states, to be shared. The values that were found are given up.
    pub fn new(kept: Kept) -> SharedKept
        ensures { shared_key result ≡ kept_key kept }
    {
        kept.into_shared()
    }

    pub(crate) fn of_states(
        alloc: Global,
        token: SharedKeyed,
        chain: SharedPlace,
        named: SharedPlace,
    ) -> SharedKept
        ensures { shared_key result ≡ key_of_shared token }
    {
        SharedKept {
            alloc,
            token,
            chain,
            named,
        }
    }

    /// The kept states as their last holdings left them. No values were found.
    pub fn into_kept(self) -> Kept
        ensures key { kept_key result ≡ shared_key self }
        ensures found { result.found.items ≡ [] }
    {
        let SharedKept {
            alloc,
            token,
            chain,
            named,
        } = self;
        Kept {
            token: token.into_keyed(),
            chain: chain.into_state(),
            named: named.into_state(),
            found: Vec::new(alloc),
        }
    }

    /// Whether the kept states are those of a chain with this key: the keys are equal, or both are none. It
    /// takes no lock.
    pub fn fits(&self, key: Option<&TokenKey>) -> bool
        ensures { IsTrue result ↔ (shared_key self.now ≡ option_copied key.entry) }
    {
        are_same(self.token.key(), key)
    }

    /// The records of the token's loads are given up, and what is kept of it now becomes their origin, as
    /// [`Kept::trim`] does it. What is kept stays.
    pub fn trim<R: Wait>(&self, rt: &R) {
        self.token.trim(rt);
    }

    pub(crate) fn alloc(&self) -> Global {
        self.alloc
    }

    pub(crate) fn place(&self, place: Place) -> &SharedPlace
        ensures chain { place ≡ Place.Chain → result.now ≡ self.now.chain }
        ensures named { place ≡ Place.Named → result.now ≡ self.now.named }
    {
        match place {
            Place::Chain => &self.chain,
            Place::Named => &self.named,
        }
    }
}
