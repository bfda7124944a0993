//! One call's pass over what callers share.
ghost use Rattle.std.specs.Prelude.{◌≡◌, [], None, map, true};
ghost use Rattle.cfg_token.specs.SsoTokens.{is_sso};
ghost use Rattle.cfg_login_token.specs.LoginTokens.{is_login};
ghost use Rattle.cfg_kept.specs.FoundValues.{bare};
ghost use Rattle.cfg_kept.specs.Holds.{HoldsFollows, held};
ghost use Rattle.cfg_kept.specs.LoginHoldings.{login_holding};
ghost use Rattle.cfg_kept.specs.SsoHoldings.{sso_holding};
ghost use Rattle.cfg_kept.specs.SharedStates.{pass_found, pass_key, shared_key};

use crate::found::{Found, put_found, take_place};
use crate::keeper::Keeper;
use crate::metadata::{find_retrieved, hold_token};
use crate::place::Place;
use crate::retrieved::Retrieved;
use crate::shared_kept::SharedKept;
use cfg_exchange::ClassifyRetry;
use cfg_imds::Client;
use cfg_login_token::LoginToken;
use cfg_token::{CachedSsoToken, Finding, SharedTokenState, TokenKey};
use cfg_types::imds::ImdsError;
use cfg_types::{Bytes, CallSettings, Env, LoginTokenError, OutOfMemory, SsoTokenProviderError};
use cfg_world::{Asking, Stop};
use std::alloc::Global;
use std::sync::Wait;

/// Holds shared values for one call, each as long as one holding takes, and lists what it found. What is kept is not
/// told, since other callers hold the same values in between.
pub struct SharedPass<'a, R: Wait> {
    rt: &'a R,
    kept: &'a SharedKept,
    found: Vec<Found>,
}

impl<'a, R: Wait> Drop for SharedPass<'a, R> {
    fn drop(self) {
        let SharedPass {
            rt: _,
            kept: _,
            found: _,
        } = self;
    }
}

impl<'a, R: Wait> SharedPass<'a, R> {
    /// A pass over these values, which has found none yet.
    pub fn new(rt: &'a R, kept: &'a SharedKept) -> SharedPass<'a, R>
        ensures found { result.found.items ≡ [] }
        ensures key { pass_key result ≡ shared_key kept.now }
    {
        SharedPass {
            rt,
            kept,
            found: Vec::new(kept.alloc()),
        }
    }

    /// The values that were found, in order.
    pub fn into_found(self) -> Vec<Found>
        ensures { result.items ≡ self.entry.found.items }
    {
        let SharedPass {
            rt: _,
            kept: _,
            found: listed,
        } = self;
        listed
    }
}

impl<'a, R: Wait> Keeper for SharedPass<'a, R> {
    ghost holdings = { λ s. held (pass_found s) None };

    ghost key_held = { λ s. pass_key s };

    ghost token_held = { λ s. None };

    fn sso_section<A: Asking>(
        &mut self,
        _alloc: Global,
        env: &Env,
        settings: &CallSettings,
        asking: &mut A,
    ) -> Result<Result<CachedSsoToken, SsoTokenProviderError>, Stop> {
        let state = self.kept.token.sso_state();
        hold_sso(self.rt, &mut self.found, state, env, settings, asking)
    }

    fn login_section<A: Asking>(
        &mut self,
        _alloc: Global,
        env: &Env,
        settings: &CallSettings,
        asking: &mut A,
    ) -> Result<Result<LoginToken, LoginTokenError>, Stop> {
        let state = self.kept.token.login_state();
        hold_login(self.rt, &mut self.found, state, env, settings, asking)
    }

    fn imds_token<A: Asking>(
        &mut self,
        alloc: Global,
        place: Place,
        client: &Client,
        asking: &mut A,
    ) -> Result<Result<Bytes, ImdsError>, Stop> {
        let mut token = self.kept.place(place).token.lock(self.rt);
        hold_token(alloc, &mut self.found, place, &mut token, client, asking)
    }

    fn retrieved(&mut self, alloc: Global, place: Place) -> Result<Option<Retrieved>, OutOfMemory> {
        let retrieved = self.kept.place(place).retrieved.lock(self.rt);
        find_retrieved(alloc, &mut self.found, place, &retrieved)
    }

    fn set_retrieved(&mut self, place: Place, retrieved: Retrieved) {
        *self.kept.place(place).retrieved.lock(self.rt) = Some(retrieved);
    }

    fn key(&self) -> Option<&TokenKey> {
        self.kept.token.key()
    }

    fn found(&self) -> &[Found] {
        self.found.as_slice()
    }
}

// One section of a shared state of a token of IAM Identity Center, as the keeper's holding of it. What it found is known
// only under the state's locks, so that its place in the list is taken before anything is asked.
fn hold_sso<R: Wait, A: Asking>(
    rt: &R,
    found: &mut Vec<Found>,
    state: &SharedTokenState<CachedSsoToken>,
    env: &Env,
    settings: &CallSettings,
    asking: &mut A,
) -> Result<Result<CachedSsoToken, SsoTokenProviderError>, Stop>
    requires { is_sso state.now.key ≡ true }
    ensures { HoldsFollows ⟦<A as Asking>⟧ (sso_holding state.now.key env.now settings.now)
        asking.old (held (map bare found.old.items) None) asking.new (held (map bare found.new.items) None) result }
{
    take_place(found)?;
    let mut finding = Finding::nothing();
    let answer = state.follow(rt, env, settings, &mut finding, asking);
    let Finding { load, last } = finding;
    put_found(found, Found::Sso { load, last });
    answer
}

// The same of a token of a sign-in session.
fn hold_login<R: Wait, A: Asking>(
    rt: &R,
    found: &mut Vec<Found>,
    state: &SharedTokenState<LoginToken>,
    env: &Env,
    settings: &CallSettings,
    asking: &mut A,
) -> Result<Result<LoginToken, LoginTokenError>, Stop>
    requires { is_login state.now.key ≡ true }
    ensures { HoldsFollows ⟦<A as Asking>⟧ (login_holding state.now.key env.now settings.now)
        asking.old (held (map bare found.old.items) None) asking.new (held (map bare found.new.items) None) result }
{
    take_place(found)?;
    let mut finding = Finding::nothing();
    let answer = state.follow(rt, env, settings, &mut finding, asking);
    let Finding { load, last } = finding;
    put_found(found, Found::Login { load, last });
    answer
}
