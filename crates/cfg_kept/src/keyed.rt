//! The state of the token of one key.
ghost use Rattle.std.specs.Prelude.{◌≡◌, Some, None, true, is_some, option_map, IfSome, IfOk, OnErr};
ghost use Rattle.std.specs.Option.{option_copied};
ghost use Rattle.cfg_kept.specs.Kinds.{no_token};
ghost use Rattle.cfg_kept.specs.KeyedStates.{key_in, key_of, is_sso_key, is_login_key, sso_state_in, login_state_in, sso_kept, login_kept, HoldsSso, HoldsLogin, SsoAnswers, LoginAnswers, HasNoLoads, OfKind, trimmed_state};
ghost use Rattle.cfg_kept.specs.SharedKeys.{key_in_shared, key_of_shared, IsOfKind};

use crate::found::Found;
use crate::holding::{find_login, find_sso, hold};
use crate::shared_keyed::{EitherShared, SharedKeyed};
use cfg_login_token::LoginToken;
use cfg_token::{CachedSsoToken, SharedTokenState, TokenKey, TokenState};
use cfg_types::{
    CallSettings, Env, LoginTokenError, OutOfMemory, SsoTokenProviderError, TryCopy, copy_option,
};
use cfg_world::{Asking, Stop};
use std::alloc::Global;
use std::marker::Model;

/// The state of a token of either kind.
pub enum EitherState {
    /// That of a token of IAM Identity Center.
    Sso(TokenState<CachedSsoToken>),
    /// That of a token of a sign-in session.
    Login(TokenState<LoginToken>),
}

impl Drop for EitherState {
    fn drop(self) {
        match self {
            EitherState::Sso(_) => {}
            EitherState::Login(_) => {}
        }
    }
}

impl EitherState {
    /// The state, to be shared.
    pub fn into_shared(self) -> EitherShared
        requires { OfKind self }
        ensures key { key_in_shared result ≡ key_in self }
        ensures kind { IsOfKind result }
    {
        match self {
            EitherState::Sso(state) => EitherShared::Sso(SharedTokenState::new(state)),
            EitherState::Login(state) => EitherShared::Login(SharedTokenState::new(state)),
        }
    }
}

impl TryCopy for EitherState {
    fn copy(&self, alloc: Global) -> Result<EitherState, OutOfMemory> {
        match self {
            EitherState::Sso(state) => {
                let state = state.copy(alloc)?;
                Ok(EitherState::Sso(state))
            }
            EitherState::Login(state) => {
                let state = state.copy(alloc)?;
                Ok(EitherState::Login(state))
            }
        }
    }
}

/// The state of the token of a key, where there is a key.
pub struct KeyedState {
    state: Option<EitherState>,
}

impl Drop for KeyedState {
    fn drop(self) {
        let KeyedState { state: _ } = self;
    }
}

impl Model for KeyedState {
    ghost use Rattle.std.specs.Prelude.{Option, IfSome};
    ghost use Rattle.cfg_kept.specs.declared.keyed.EitherState.{EitherState};
    ghost use Rattle.cfg_kept.specs.KeyedStates.{OfKind};

    ghost Value = { Option EitherState };

    ghost view = { λ s. s.state };

    ghost invariant = { λ s. IfSome s.state OfKind };
}

impl TryCopy for KeyedState {
    fn copy(&self, alloc: Global) -> Result<KeyedState, OutOfMemory> {
        let state = copy_option(alloc, &self.state)?;
        Ok(KeyedState { state })
    }
}

impl KeyedState {
    /// Nothing is kept, no load was made, and no attempt is noted. Without a key there is no state.
    pub fn new(alloc: Global, key: Option<TokenKey>) -> KeyedState
        ensures key { key_of result ≡ key }
        ensures sso { sso_kept result ≡ no_token }
        ensures login { login_kept result ≡ no_token }
        ensures loads { IfSome result HasNoLoads }
    {
        match key {
            Some(key) => KeyedState::of_key(alloc, key),
            None => KeyedState { state: None },
        }
    }

    /// This state, or none. Its key is of its kind.
    pub fn of_state(state: Option<EitherState>) -> KeyedState
        requires { IfSome state OfKind }
        ensures { result ≡ state }
    {
        KeyedState { state }
    }

    /// The state, to be shared.
    pub fn into_shared(self) -> SharedKeyed
        ensures { key_of_shared result ≡ key_of self }
    {
        let KeyedState { state } = self;
        match state {
            Some(state) => SharedKeyed::of_state(Some(state.into_shared())),
            None => SharedKeyed::of_state(None),
        }
    }

    fn of_key(alloc: Global, key: TokenKey) -> KeyedState
        ensures key { key_of result ≡ Some key }
        ensures sso { sso_kept result ≡ no_token }
        ensures login { login_kept result ≡ no_token }
        ensures loads { IfSome result HasNoLoads }
    {
        let state = match &key {
            TokenKey::Sso { .. } => EitherState::Sso(TokenState::new(alloc, key)),
            TokenKey::Login { .. } => EitherState::Login(TokenState::new(alloc, key)),
        };
        KeyedState { state: Some(state) }
    }

    /// Whose token it is, where there is a key.
    pub fn key(&self) -> Option<&TokenKey>
        ensures { option_copied result ≡ key_of self.now }
    {
        match &self.state {
            Some(EitherState::Sso(state)) => Some(state.key()),
            Some(EitherState::Login(state)) => Some(state.key()),
            None => None,
        }
    }

    /// The state of the token of IAM Identity Center, there exactly where the key is of that kind.
    pub fn sso_state(&self) -> Option<&TokenState<CachedSsoToken>>
        ensures is { option_copied result ≡ sso_state_in self.now }
        ensures there { is_some (option_copied result) ≡ is_sso_key (key_of self.now) }
    {
        match &self.state {
            Some(EitherState::Sso(state)) => Some(state),
            _ => None,
        }
    }

    /// The state of the token of a sign-in session, there exactly where the key is of that kind.
    pub fn login_state(&self) -> Option<&TokenState<LoginToken>>
        ensures is { option_copied result ≡ login_state_in self.now }
        ensures there { is_some (option_copied result) ≡ is_login_key (key_of self.now) }
    {
        match &self.state {
            Some(EitherState::Login(state)) => Some(state),
            _ => None,
        }
    }

    /// What is kept now becomes the origin of the state, and there are no records. Nothing is copied.
    pub fn trim(&mut self)
        ensures { self.new ≡ option_map trimmed_state self.old }
    {
        match &mut self.state {
            Some(EitherState::Sso(state)) => state.trim(),
            Some(EitherState::Login(state)) => state.trim(),
            None => {}
        }
    }
}

impl KeyedState {
    /// One holding of the token of IAM Identity Center, as [`hold`] is one, for a key of that
    /// kind. What is kept of a sign-in session stays. A load that was finished adds its record, a hit
    /// adds none, and after a stop the state is as it was.
    pub fn hold_sso<A: Asking>(
        &mut self,
        found: &mut Vec<Found>,
        env: &Env,
        settings: &CallSettings,
        asking: &mut A,
    ) -> Result<Result<CachedSsoToken, SsoTokenProviderError>, Stop>
        requires { is_sso_key (key_of self.old) ≡ true }
        ensures one { HoldsSso ⟦<A as Asking>⟧ env.now settings.now asking.old found.old.items self.old asking.new found.new.items self.new result }
        ensures records { IfOk result (λ answer. SsoAnswers ⟦<A as Asking>⟧ env.now settings.now asking.old self.old asking.new self.new answer) }
        ensures stays { OnErr result (self.new ≡ self.old) }
        ensures other { login_kept self.new ≡ login_kept self.old }
        ensures key { key_of self.new ≡ key_of self.old }
    {
        match &mut self.state {
            Some(EitherState::Sso(state)) => {
                let value = find_sso(state)?;
                hold(found, value, state, env, settings, asking)
            }
            _ => unreachable!(),
        }
    }

    /// One holding of the token of a sign-in session, as [`hold`] is one, for a key of that
    /// kind. What is kept of IAM Identity Center stays. A load that was finished adds its record, a hit
    /// adds none, and after a stop the state is as it was.
    pub fn hold_login<A: Asking>(
        &mut self,
        found: &mut Vec<Found>,
        env: &Env,
        settings: &CallSettings,
        asking: &mut A,
    ) -> Result<Result<LoginToken, LoginTokenError>, Stop>
        requires { is_login_key (key_of self.old) ≡ true }
        ensures one { HoldsLogin ⟦<A as Asking>⟧ env.now settings.now asking.old found.old.items self.old asking.new found.new.items self.new result }
        ensures records { IfOk result (λ answer. LoginAnswers ⟦<A as Asking>⟧ env.now settings.now asking.old self.old asking.new self.new answer) }
        ensures stays { OnErr result (self.new ≡ self.old) }
        ensures other { sso_kept self.new ≡ sso_kept self.old }
        ensures key { key_of self.new ≡ key_of self.old }
    {
        match &mut self.state {
            Some(EitherState::Login(state)) => {
                let value = find_login(state)?;
                hold(found, value, state, env, settings, asking)
            }
            _ => unreachable!(),
        }
    }
}
