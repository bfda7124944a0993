//! What is kept from one call to the next, lent to one call at a time.
ghost use Rattle.std.specs.Prelude.{◌≡◌, ◌↔◌, [], IsTrue, is_some, option_map, IfSome, IfOk};
ghost use Rattle.std.specs.Option.{option_copied};
ghost use Rattle.cfg_kept.specs.Kinds.{no_states, place_states};
ghost use Rattle.cfg_kept.specs.KeyedStates.{is_sso_key, is_login_key, sso_state_in, login_state_in, HasNoLoads, HasNoRecords, trimmed_state};
ghost use Rattle.cfg_kept.specs.KeptStates.{states_of, kept_key};
ghost use Rattle.cfg_kept.specs.Retrieved.{keys_of_retrieved};
ghost use Rattle.cfg_kept.specs.SharedStates.{shared_key};

use crate::found::{Found, copy_found};
use crate::keeper::Keeper;
use crate::keyed::KeyedState;
use crate::metadata::{PlaceState, find_retrieved, hold_token};
use crate::place::Place;
use crate::retrieved::Retrieved;
use crate::shared_kept::SharedKept;
use cfg_exchange::ClassifyRetry;
use cfg_imds::Client;
use cfg_login_token::LoginToken;
use cfg_token::{CachedSsoToken, TokenKey, TokenState};
use cfg_types::imds::ImdsError;
use cfg_types::{
    Bytes, CallSettings, Env, LoginTokenError, OutOfMemory, SsoTokenProviderError, TryCopy,
};
use cfg_world::same::Same;
use cfg_world::{Asking, Stop};
use std::alloc::Global;

/// The kept states, and the values that were found in them.
pub struct Kept {
    pub(crate) token: KeyedState,
    pub(crate) chain: PlaceState,
    pub(crate) named: PlaceState,
    pub(crate) found: Vec<Found>,
}

impl Drop for Kept {
    fn drop(self) {
        let Kept {
            token: _,
            chain: _,
            named: _,
            found: _,
        } = self;
    }
}

impl Kept {
    /// Nothing is kept, no load was made, no attempt is noted, and nothing was found. The key says whose
    /// token will be kept.
    pub fn new(alloc: Global, key: Option<TokenKey>) -> Kept
        ensures key { kept_key result ≡ key }
        ensures nothing { states_of result ≡ no_states }
        ensures loads { IfSome result.token HasNoLoads }
        ensures found { result.found.items ≡ [] }
    {
        Kept {
            token: KeyedState::new(alloc, key),
            chain: PlaceState::new(),
            named: PlaceState::new(),
            found: Vec::new(alloc),
        }
    }

    /// A copy of what is kept, the records and the origin of the token's loads included, and of the values
    /// that were found. `OutOfMemory` where memory runs out.
    pub fn copy(&self, alloc: Global) -> Result<Kept, OutOfMemory>
        ensures token { IfOk result (λ c. c.token ≡ self.now.token) }
        ensures places { IfOk result (λ c. (c.chain ≡ self.now.chain) × (c.named ≡ self.now.named)) }
        ensures found { IfOk result (λ c. c.found.items ≡ self.now.found.items) }
    {
        let token = self.token.copy(alloc)?;
        let chain = self.chain.copy(alloc)?;
        let named = self.named.copy(alloc)?;
        let found = copy_found(alloc, &self.found)?;
        Ok(Kept {
            token,
            chain,
            named,
            found,
        })
    }

    // The kept states, each behind a lock.
    pub(crate) fn into_shared(self) -> SharedKept
        ensures { shared_key result ≡ kept_key self }
    {
        let Kept {
            token,
            chain,
            named,
            found,
        } = self;
        let alloc = *found.allocator();
        SharedKept::of_states(
            alloc,
            token.into_shared(),
            chain.into_shared(),
            named.into_shared(),
        )
    }

    /// Whether the kept states are those of a chain with this key: the keys are equal, or both are
    /// none.
    pub fn fits(&self, key: Option<&TokenKey>) -> bool
        ensures { IsTrue result ↔ (kept_key self.now ≡ option_copied key.entry) }
    {
        are_same(self.token.key(), key)
    }

    /// The state of the token of IAM Identity Center, there exactly where the key is of that kind. No
    /// holding.
    pub fn sso_state(&self) -> Option<&TokenState<CachedSsoToken>>
        ensures is { option_copied result ≡ sso_state_in self.now.token }
        ensures there { is_some (option_copied result) ≡ is_sso_key (kept_key self.now) }
    {
        self.token.sso_state()
    }

    /// The state of the token of a sign-in session, there exactly where the key is of that kind. No
    /// holding.
    pub fn login_state(&self) -> Option<&TokenState<LoginToken>>
        ensures is { option_copied result ≡ login_state_in self.now.token }
        ensures there { is_some (option_copied result) ≡ is_login_key (kept_key self.now) }
    {
        self.token.login_state()
    }

    /// The credentials that were retrieved for the place, if any were. No holding.
    pub fn retrieved_for(&self, place: Place) -> Option<&Retrieved>
        ensures { option_map keys_of_retrieved (option_copied result) ≡ (place_states (states_of self.now) place).retrieved }
    {
        match place {
            Place::Chain => self.chain.retrieved.as_ref(),
            Place::Named => self.named.retrieved.as_ref(),
        }
    }

    /// The values that were found are given up. What is kept stays, the records of loads included.
    pub fn clear_found(&mut self)
        ensures found { self.new.found.items ≡ [] }
        ensures kept { states_of self.new ≡ states_of self.old }
        ensures token { self.new.token ≡ self.old.token }
        ensures key { kept_key self.new ≡ kept_key self.old }
    {
        self.found.clear();
    }

    /// The records of the token's loads are given up, and what is kept of it now becomes their origin. What
    /// is kept stays, and so do the values that were found. Nothing is copied.
    pub fn trim(&mut self)
        ensures token { self.new.token ≡ option_map trimmed_state self.old.token }
        ensures records { IfSome self.new.token HasNoRecords }
        ensures kept { states_of self.new ≡ states_of self.old }
        ensures places { (self.new.chain ≡ self.old.chain) × (self.new.named ≡ self.old.named) }
        ensures found { self.new.found.items ≡ self.old.found.items }
        ensures key { kept_key self.new ≡ kept_key self.old }
    {
        self.token.trim();
    }
}

// Whether the keys are equal, or both are none.
pub(crate) fn are_same(one: Option<&TokenKey>, other: Option<&TokenKey>) -> bool
    ensures { IsTrue result ↔ (option_copied one.entry ≡ option_copied other.entry) }
{
    match (one, other) {
        (None, None) => true,
        (Some(one), Some(other)) => same_key(one, other),
        _ => false,
    }
}

// Whether both are one key.
fn same_key(one: &TokenKey, other: &TokenKey) -> bool
    ensures { IsTrue result ↔ (one.now ≡ other.now) }
{
    match (one, other) {
        (
            TokenKey::Sso {
                session,
                region,
                start_url,
            },
            TokenKey::Sso {
                session: other_session,
                region: other_region,
                start_url: other_url,
            },
        ) => session.same(other_session) && region.same(other_region) && start_url.same(other_url),
        (TokenKey::Login { session }, TokenKey::Login { session: other }) => session.same(other),
        _ => false,
    }
}

impl Keeper for Kept {
    ghost use Rattle.cfg_kept.specs.KeptStates.{kept_holdings, kept_key, kept_token};

    ghost holdings = { kept_holdings };

    ghost key_held = { kept_key };

    ghost token_held = { kept_token };

    fn sso_section<A: Asking>(
        &mut self,
        _alloc: Global,
        env: &Env,
        settings: &CallSettings,
        asking: &mut A,
    ) -> Result<Result<CachedSsoToken, SsoTokenProviderError>, Stop> {
        self.token.hold_sso(&mut self.found, env, settings, asking)
    }

    fn login_section<A: Asking>(
        &mut self,
        _alloc: Global,
        env: &Env,
        settings: &CallSettings,
        asking: &mut A,
    ) -> Result<Result<LoginToken, LoginTokenError>, Stop> {
        self.token
            .hold_login(&mut self.found, env, settings, asking)
    }

    fn imds_token<A: Asking>(
        &mut self,
        alloc: Global,
        place: Place,
        client: &Client,
        asking: &mut A,
    ) -> Result<Result<Bytes, ImdsError>, Stop> {
        let found = &mut self.found;
        match place {
            Place::Chain => hold_token(alloc, found, place, &mut self.chain.token, client, asking),
            Place::Named => hold_token(alloc, found, place, &mut self.named.token, client, asking),
        }
    }

    fn retrieved(&mut self, alloc: Global, place: Place) -> Result<Option<Retrieved>, OutOfMemory> {
        let found = &mut self.found;
        match place {
            Place::Chain => find_retrieved(alloc, found, place, &self.chain.retrieved),
            Place::Named => find_retrieved(alloc, found, place, &self.named.retrieved),
        }
    }

    fn set_retrieved(&mut self, place: Place, retrieved: Retrieved) {
        match place {
            Place::Chain => self.chain.retrieved = Some(retrieved),
            Place::Named => self.named.retrieved = Some(retrieved),
        }
    }

    fn key(&self) -> Option<&TokenKey> {
        self.token.key()
    }

    fn found(&self) -> &[Found] {
        self.found.as_slice()
    }
}
