//! What a chain keeps between calls with the credentials that are held of it, and a call over it.
ghost use Rattle.std.specs.Prelude.{◌≡◌, IfSome, None};
ghost use Rattle.std.specs.Option.{option_copied};
ghost use Rattle.cfg_kept.specs.KeptStates.{kept_key, kept_holdings, states_of};
ghost use Rattle.cfg_kept.specs.KeyedStates.{HasNoRecords};
ghost use Rattle.cfg_chain.specs.Answers.{Answered, RanOut};
ghost use Rattle.cfg_chain.specs.Views.{chain_of};
ghost use Rattle.cfg_chain.specs.profile.Plans.{key_of};
ghost use Rattle.cfg_identity.specs.Cached.{Breaks, BreaksOn, CachesAny, CachesOn, LoadsOn, LoadBreaksOn};
ghost use Rattle.cfg_identity.specs.Lives.{Holds, HoldsNot};
ghost use Rattle.cfg_identity.specs.NameStates.{loaded_key, state_of};

use crate::held::Held;
use crate::settings::CacheSettings;
use cfg_chain::DefaultCredentialsChain;
use cfg_kept::Kept;
use cfg_types::{Credentials, CredentialsError, Instant, TryCopy};
use cfg_world::{Devices, Question, World};
use std::alloc::Global;

/// What a chain keeps between calls, and the credentials that are held of it. A cache has one of these under each name;
/// a caller that has the chain itself lends both to each call. Contracts see what is held, the kept states, and the key.
#[derive(Drop)]
pub struct Loaded {
    pub(crate) kept: Kept,
    pub(crate) held: Option<Held>,
}

impl Loaded {
    /// What is kept, and nothing that is held.
    pub fn new(kept: Kept) -> Loaded
        ensures state { state_of result ≡ record { held = None; states = states_of kept } }
        ensures key { loaded_key result ≡ kept_key kept }
    {
        Loaded { kept, held: None }
    }

    /// The credentials that are held, where more seconds of their life are left at a reading of the clock than the
    /// buffer, and else what the chain answers. Credentials of the chain are held from then on, for as long as their
    /// expiry says, or the default life from the reading on.
    ///
    /// What is kept has to have the chain's key; that of its
    /// [`new_kept`](cfg_chain::DefaultCredentialsChain::new_kept) has, and each call leaves it. The world's journal gains
    /// the reading, and behind it, where the chain was asked, what
    /// [`provide_credentials`](cfg_chain::DefaultCredentialsChain::provide_credentials) asks.
    ///
    /// # Errors
    ///
    /// Those of the chain. What is held stays. Where memory runs out, the journal has gained the beginning of such a
    /// part, and each kept value is as the last finished holding left it.
    pub fn resolve<D: Devices>(
        &mut self,
        alloc: Global,
        settings: CacheSettings,
        chain: &DefaultCredentialsChain,
        world: &mut World<D>,
    ) -> Result<Credentials, CredentialsError>
        requires { loaded_key self.old ≡ key_of chain.now.core }
        ensures caches { Answered result (CachesAny ⟦<D as Devices>⟧ settings (chain_of value repeated chain.now)
            (state_of self.old) (state_of self.new) world.old world.new) }
        ensures breaks { RanOut result (Breaks ⟦<D as Devices>⟧ settings (chain_of value repeated chain.now)
            (state_of self.old) (state_of self.new) world.old world.new) }
        ensures key { loaded_key self.new ≡ loaded_key self.old }
    {
        let outcome = resolve_loaded(alloc, settings, chain, self, world);
        self.trim();
        outcome
    }

    /// What is held, none where nothing is.
    pub fn held(&self) -> Option<&Held>
        ensures { option_copied result ≡ (state_of self.now).held }
    {
        self.held.as_ref()
    }

    /// What was found and the records of loads are given up. What is kept stays.
    pub(crate) fn trim(&mut self)
        ensures state { state_of self.new ≡ state_of self.old }
        ensures key { kept_key self.new.kept ≡ kept_key self.old.kept }
        ensures records { IfSome self.new.kept.token HasNoRecords }
    {
        self.kept.clear_found();
        self.kept.trim();
    }
}

/// The held credentials, where they last at a reading of the clock, and else those of the chain. The list of the
/// values that were found is that of this call alone.
pub(crate) fn resolve_loaded<D: Devices>(
    alloc: Global,
    settings: CacheSettings,
    chain: &DefaultCredentialsChain,
    loaded: &mut Loaded,
    world: &mut World<D>,
) -> Result<Credentials, CredentialsError>
    requires { kept_key loaded.old.kept ≡ key_of chain.now.core }
    ensures caches { Answered result (CachesOn ⟦<D as Devices>⟧ settings (chain_of value repeated chain.now) loaded.old loaded.new world.old world.new) }
    ensures breaks { RanOut result (BreaksOn ⟦<D as Devices>⟧ settings (chain_of value repeated chain.now) loaded.old loaded.new world.old world.new) }
    ensures key { kept_key loaded.new.kept ≡ kept_key loaded.old.kept }
{
    loaded.kept.clear_found();
    let reading = world.ask(Question::Now)?;
    let now = reading.moment();
    match Held::lasting(&loaded.held, settings, now) {
        Some(held) => Ok(held.credentials.copy(alloc)?),
        None => load(alloc, settings, chain, now, loaded, world),
    }
}

// The chain's answer, and what is held after it, whose call began with this reading.
fn load<D: Devices>(
    alloc: Global,
    settings: CacheSettings,
    chain: &DefaultCredentialsChain,
    now: Instant,
    loaded: &mut Loaded,
    world: &mut World<D>,
) -> Result<Credentials, CredentialsError>
    requires { kept_key loaded.old.kept ≡ key_of chain.now.core }
    ensures loads { Answered result (LoadsOn ⟦<D as Devices>⟧ settings (chain_of value repeated chain.now) now loaded.old loaded.new world.old world.new) }
    ensures breaks { RanOut result (LoadBreaksOn ⟦<D as Devices>⟧ (chain_of value repeated chain.now) loaded.old loaded.new world.old world.new) }
    ensures key { kept_key loaded.new.kept ≡ kept_key loaded.old.kept }
{
    let outcome = chain.provide_credentials(&mut loaded.kept, world);
    hold(alloc, settings, now, outcome, &mut loaded.held)
}

// Holds the credentials that a chain answered. After an error what was held stays.
fn hold(
    alloc: Global,
    settings: CacheSettings,
    now: Instant,
    outcome: Result<Credentials, CredentialsError>,
    held: &mut Option<Held>,
) -> Result<Credentials, CredentialsError>
    ensures holds { Answered result (Holds settings now outcome held.old held.new) }
    ensures stays { RanOut result (HoldsNot outcome held.old held.new) }
{
    match outcome {
        Ok(credentials) => {
            let life = settings.end_of(credentials.expiry(), now);
            let copy = credentials.copy(alloc)?;
            *held = Some(Held {
                credentials: copy,
                life,
            });
            Ok(credentials)
        }
        Err(error) => Err(error),
    }
}
