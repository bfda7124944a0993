//! The state of the token of one key, which callers share.
ghost use Rattle.std.specs.Prelude.{◌≡◌, Some, IfSome, true};
ghost use Rattle.std.specs.Option.{option_copied};
ghost use Rattle.cfg_token.specs.SsoTokens.{is_sso};
ghost use Rattle.cfg_login_token.specs.LoginTokens.{is_login};
ghost use Rattle.cfg_kept.specs.KeyedStates.{key_in, key_of, OfKind, is_sso_key, is_login_key};
ghost use Rattle.cfg_kept.specs.SharedKeys.{key_in_shared, key_of_shared, IsOfKind};

use crate::keyed::{EitherState, KeyedState};
use cfg_login_token::LoginToken;
use cfg_token::{CachedSsoToken, SharedTokenState, TokenKey};
use std::marker::Model;
use std::sync::Wait;

/// The shared state of a token of either kind.
pub enum EitherShared {
    /// That of a token of IAM Identity Center.
    Sso(SharedTokenState<CachedSsoToken>),
    /// That of a token of a sign-in session.
    Login(SharedTokenState<LoginToken>),
}

impl Drop for EitherShared {
    fn drop(self) {
        match self {
            EitherShared::Sso(_) => {}
            EitherShared::Login(_) => {}
        }
    }
}

impl EitherShared {
    /// The state as the last holding left it.
    pub fn into_state(self) -> EitherState
        requires { IsOfKind self }
        ensures key { key_in result ≡ key_in_shared self }
        ensures kind { OfKind result }
    {
        match self {
            EitherShared::Sso(state) => EitherState::Sso(state.into_state()),
            EitherShared::Login(state) => EitherState::Login(state.into_state()),
        }
    }
}

/// The shared state of the token of a key, where there is a key.
pub struct SharedKeyed {
    state: Option<EitherShared>,
}

impl Drop for SharedKeyed {
    fn drop(self) {
        let SharedKeyed { state: _ } = self;
    }
}

impl Model for SharedKeyed {
    ghost use Rattle.std.specs.Prelude.{Option, IfSome};
    ghost use Rattle.cfg_kept.specs.declared.shared_keyed.EitherShared.{EitherShared};
    ghost use Rattle.cfg_kept.specs.SharedKeys.{IsOfKind};

    ghost Value = { Option EitherShared };

    ghost view = { λ s. s.state };

    ghost invariant = { λ s. IfSome s.state IsOfKind };
}

impl SharedKeyed {
    /// This state, or none. Its key is of its kind.
    pub fn of_state(state: Option<EitherShared>) -> SharedKeyed
        requires { IfSome state IsOfKind }
        ensures { result ≡ state }
    {
        SharedKeyed { state }
    }

    /// The state as the last holding left it.
    pub fn into_keyed(self) -> KeyedState
        ensures { key_of result ≡ key_of_shared self }
    {
        let SharedKeyed { state } = self;
        match state {
            Some(state) => KeyedState::of_state(Some(state.into_state())),
            None => KeyedState::of_state(None),
        }
    }

    /// Whose token it is, where there is a key. It takes no lock.
    pub fn key(&self) -> Option<&TokenKey>
        ensures { option_copied result ≡ key_of_shared self.now }
    {
        match &self.state {
            Some(EitherShared::Sso(state)) => Some(state.key()),
            Some(EitherShared::Login(state)) => Some(state.key()),
            None => None,
        }
    }

    /// The state of the token of IAM Identity Center, for a key of that kind.
    pub fn sso_state(&self) -> &SharedTokenState<CachedSsoToken>
        requires { is_sso_key (key_of_shared self.now) ≡ true }
        ensures key { Some result.now.key ≡ key_of_shared self.now }
        ensures kind { is_sso result.now.key ≡ true }
    {
        match &self.state {
            Some(EitherShared::Sso(state)) => state,
            _ => unreachable!(),
        }
    }

    /// The state of the token of a sign-in session, for a key of that kind.
    pub fn login_state(&self) -> &SharedTokenState<LoginToken>
        requires { is_login_key (key_of_shared self.now) ≡ true }
        ensures key { Some result.now.key ≡ key_of_shared self.now }
        ensures kind { is_login result.now.key ≡ true }
    {
        match &self.state {
            Some(EitherShared::Login(state)) => state,
            _ => unreachable!(),
        }
    }

    /// The records of the token's loads are given up, and what is kept of it now becomes their origin.
    pub fn trim<R: Wait>(&self, rt: &R) {
        match &self.state {
            Some(EitherShared::Sso(state)) => state.trim(rt),
            Some(EitherShared::Login(state)) => state.trim(rt),
            None => {}
        }
    }
}
