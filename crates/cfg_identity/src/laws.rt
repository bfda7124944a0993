//! Laws of caches, each on a call that carries it.
ghost use Rattle.std.specs.Prelude.{◌≡◌, ◌⊎◌, ℕ, List, map, Ok, Some};
ghost use Rattle.cfg_types.specs.Keys.{Keys};
ghost use Rattle.cfg_world.specs.Gains.{Gains};
ghost use Rattle.cfg_world.specs.Held.{Held as World};
ghost use Rattle.cfg_kept.specs.FoundValues.{bare};
ghost use Rattle.cfg_kept.specs.Kinds.{Value};
ghost use Rattle.cfg_chain.specs.Settings.{ChainSetting};
ghost use Rattle.cfg_identity.specs.declared.settings.CacheSettings.{CacheSettings as Settings};
ghost use Rattle.cfg_identity.specs.declared.shared.CacheAnswer.{CacheAnswer};
ghost use Rattle.cfg_identity.specs.Cached.{Caches};
ghost use Rattle.cfg_identity.specs.CallLists.{CacheCall, own_calls, AreCallsOf, AreOwnCalls, AreLasting, AreOfChain, AreOfFoundChain};
ghost use Rattle.cfg_identity.specs.Entries.{Entries};
ghost use Rattle.cfg_identity.specs.NameStates.{NameState};
ghost use Rattle.cfg_identity.specs.SharedCalls.{IsShared};

use cfg_world::Devices;

/// Of a list of `add` and `resolve` calls of a cache, each leaves under its own name what it promises, on what the
/// last call of that name left there. No call of another name changes it.
pub fn each_name_has_its_own_calls<D: Devices>()
    ensures { (settings : Settings) (old : Entries) (calls : List (CacheCall D)) (new : Entries) →
        AreCallsOf ⟦<D as Devices>⟧ settings old calls new →
        (name : List ℕ) → AreOwnCalls ⟦<D as Devices>⟧ settings (old name) (own_calls name calls) (new name) }
{}

/// Credentials that a call gives either last, by the call's own reading of the clock, for more than the buffer, or are
/// what the chain answered over this call's journal.
pub fn credentials_last_or_are_the_chains<D: Devices>()
    ensures { (settings : Settings) (over : ChainSetting) (old new : NameState) (found : List Value) (before later : World D) (keys : Keys) →
        Caches ⟦<D as Devices>⟧ settings over old new found before later (Ok keys) →
        Gains before.journal later.journal (λ part. AreLasting settings keys part ⊎ AreOfChain over old.states new.states found keys part) }
{}

/// So are those that a call of a shared cache gives.
pub fn shared_credentials_last_or_are_the_chains<D: Devices>()
    ensures { (settings : Settings) (name : List ℕ) (over : ChainSetting) (before later : World D) (answer : CacheAnswer) (keys : Keys) →
        IsShared ⟦<D as Devices>⟧ settings name (Some over) before later answer → answer.outcome ≡ Ok keys →
        Gains before.journal later.journal (λ part. AreLasting settings keys part ⊎ AreOfFoundChain over (map bare answer.kept) keys part) }
{}
