//! One holding of a token that is kept, of any kind.
ghost use Rattle.std.specs.Prelude.{◌≡◌, IfOk, OnErr, true};
ghost use Rattle.cfg_token.specs.SectionCalls.{Answers};
ghost use Rattle.cfg_kept.specs.FoundValues.{bare};
ghost use Rattle.cfg_kept.specs.LoginHoldings.{login_at};
ghost use Rattle.cfg_kept.specs.SectionHoldings.{kept_of, HoldsSection};
ghost use Rattle.cfg_kept.specs.SsoHoldings.{sso_at};

use crate::found::{Found, note_found};
use crate::keeper::Keeper;
use cfg_login_token::LoginToken;
use cfg_token::{CachedSsoToken, FileToken, TokenState};
use cfg_types::{CallSettings, Env, LoginTokenError, OutOfMemory, SsoTokenProviderError};
use cfg_world::{Asking, Stop};
use std::alloc::Global;

/// A kind of token that is kept, and the section of it that a keeper has.
pub trait KeptToken: FileToken {
    ghost use Rattle.std.specs.Prelude.{◌≡◌, Option, IfSome, IfOk, OnErr, true};
    ghost use Rattle.cfg_token.specs.declared.state.TokenState.{TokenState as StateHeld};
    ghost use Rattle.cfg_kept.specs.declared.keyed.EitherState.{EitherState};
    ghost use Rattle.cfg_kept.specs.Holds.{HoldsFollows};
    ghost use Rattle.cfg_kept.specs.KeyedStates.{is_key_of, StateAnswers};
    ghost use Rattle.cfg_kept.specs.SectionHoldings.{TokenSpot, IsSpot, section_holding};

    ghost spot: { TokenSpot Self };

    /// The state, where it is that of a token of this kind.
    ghost state_in: { Option EitherState → Option (StateHeld Self Self.Error) };

    /// The keeper's section of such a token.
    fn section<P: Keeper, A: Asking>(
        keeper: &mut P,
        alloc: Global,
        env: &Env,
        settings: &CallSettings,
        asking: &mut A,
    ) -> Result<Result<Self, Self::Error>, Stop>
        requires { is_key_of Self.rules (P.key_held keeper.old) ≡ true }
        ensures follows { IfSome (P.key_held keeper.old) (λ key.
            HoldsFollows ⟦<A as Asking>⟧ (section_holding Self.rules spot key env.now settings.now)
            asking.old (P.holdings keeper.old) asking.new (P.holdings keeper.new) result) }
        ensures records { IfOk result (λ answer. StateAnswers Self.rules ⟦<A as Asking>⟧ env.now settings.now
            asking.old (state_in (P.token_held keeper.old)) asking.new (state_in (P.token_held keeper.new)) answer) }
        ensures stays { OnErr result (P.token_held keeper.new ≡ P.token_held keeper.old) }
        ensures key { P.key_held keeper.new ≡ P.key_held keeper.old };

    ghost is_spot: { IsSpot spot };
}

impl KeptToken for CachedSsoToken {
    ghost use Rattle.cfg_kept.specs.KeyedStates.{sso_state_in};
    ghost use Rattle.cfg_kept.specs.SsoHoldings.{sso_spot, sso_is_spot};

    ghost spot = { sso_spot };

    ghost state_in = { sso_state_in };

    ghost is_spot = { sso_is_spot };

    fn section<P: Keeper, A: Asking>(
        keeper: &mut P,
        alloc: Global,
        env: &Env,
        settings: &CallSettings,
        asking: &mut A,
    ) -> Result<Result<CachedSsoToken, SsoTokenProviderError>, Stop> {
        keeper.sso_section(alloc, env, settings, asking)
    }
}

impl KeptToken for LoginToken {
    ghost use Rattle.cfg_kept.specs.KeyedStates.{login_state_in};
    ghost use Rattle.cfg_kept.specs.LoginHoldings.{login_spot, login_is_spot};

    ghost spot = { login_spot };

    ghost state_in = { login_state_in };

    ghost is_spot = { login_is_spot };

    fn section<P: Keeper, A: Asking>(
        keeper: &mut P,
        alloc: Global,
        env: &Env,
        settings: &CallSettings,
        asking: &mut A,
    ) -> Result<Result<LoginToken, LoginTokenError>, Stop> {
        keeper.login_section(alloc, env, settings, asking)
    }
}

/// One holding of a token, wherever its state is kept. The value is what is found there, as
/// [`find_sso`] and [`find_login`] give it. It is added to the list, before anything is asked. A load that
/// was finished adds one record to the state, whose receipts are what the journal gained, and a hit adds
/// none.
///
/// # Errors
///
/// The outer error says why it was stopped: memory ran out, or a question was left open. The state is
/// then as it was, its records included. The inner one is the load's.
pub fn hold<T: KeptToken, A: Asking>(
    found: &mut Vec<Found>,
    value: Found,
    state: &mut TokenState<T>,
    env: &Env,
    settings: &CallSettings,
    asking: &mut A,
) -> Result<Result<T, T::Error>, Stop>
    requires kind { T.rules.is_kind state.old.key ≡ true }
    requires found { bare value ≡ T.spot.at (kept_of state.old.loads) }
    ensures one { HoldsSection T.rules T.spot ⟦<A as Asking>⟧ state.old.key env.now settings.now
        asking.old found.old.items state.old.loads asking.new found.new.items state.new.loads result }
    ensures records { IfOk result (λ answer. Answers T.rules ⟦<A as Asking>⟧ state.old.key env.now settings.now
        asking.old state.old.loads asking.new state.new.loads answer) }
    ensures stays { OnErr result (state.new ≡ state.old) }
    ensures key { state.new.key ≡ state.old.key }
{
    note_found(found, value)?;
    let answer = state.follow(env, settings, asking)?;
    Ok(answer)
}

/// What is found of a token of IAM Identity Center: the load that gave the kept one, if one is kept, and
/// the reading of the last attempt at a new one, if any was noted. `OutOfMemory` where memory runs out.
pub fn find_sso(state: &TokenState<CachedSsoToken>) -> Result<Found, OutOfMemory>
    ensures { IfOk result (λ value. bare value ≡ sso_at (kept_of state.now.loads)) }
{
    let load = state.load()?;
    let last = state.last_attempt();
    Ok(Found::Sso { load, last })
}

/// The same of a token of a sign-in session.
pub fn find_login(state: &TokenState<LoginToken>) -> Result<Found, OutOfMemory>
    ensures { IfOk result (λ value. bare value ≡ login_at (kept_of state.now.loads)) }
{
    let load = state.load()?;
    let last = state.last_attempt();
    Ok(Found::Login { load, last })
}
