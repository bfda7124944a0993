//! Where kept values are held.
ghost use Rattle.std.specs.Prelude.{◌≡◌, Option, Some, None as none, IfSome, IfOk, OnErr, true, false, map, option_map};
ghost use Rattle.std.specs.Option.{option_copied};
ghost use Rattle.cfg_token.specs.declared.token_key.TokenKey.{TokenKey as KeyHeld};
ghost use Rattle.cfg_token.specs.SectionCalls.{is_memory};
ghost use Rattle.cfg_imds.specs.Calls.{is_memory as is_metadata_memory};
ghost use Rattle.cfg_imds.specs.Clients.{endpoint_fault, client_rules};
ghost use Rattle.cfg_kept.specs.Kinds.{RetrievedAt};
ghost use Rattle.cfg_kept.specs.FoundValues.{bare};
ghost use Rattle.cfg_kept.specs.declared.keyed.EitherState.{EitherState};
ghost use Rattle.cfg_kept.specs.KeyedStates.{is_key_of, is_sso_key, is_login_key, StateAnswers, SsoAnswers, LoginAnswers};
ghost use Rattle.cfg_kept.specs.Holds.{Holdings, HoldsFollows, HoldsEnds, HoldsBreaks, HoldsFound, leaves_in};
ghost use Rattle.cfg_kept.specs.LoginHoldings.{login_holding};
ghost use Rattle.cfg_kept.specs.MetadataHoldings.{token_holding};
ghost use Rattle.cfg_kept.specs.Retrieved.{keys_of_retrieved};
ghost use Rattle.cfg_kept.specs.SectionHoldings.{section_holding};
ghost use Rattle.cfg_kept.specs.SsoHoldings.{sso_holding};

use crate::found::Found;
use crate::holding::KeptToken;
use crate::place::Place;
use crate::retrieved::Retrieved;
use cfg_exchange::ClassifyRetry;
use cfg_imds::Client;
use cfg_login_token::LoginToken;
use cfg_token::{CachedSsoToken, TokenKey};
use cfg_types::imds::ImdsError;
use cfg_types::{Bytes, CallSettings, Env, LoginTokenError, OutOfMemory, SsoTokenProviderError};
use cfg_world::{Asking, Devices, Stop, World};
use std::alloc::Global;

/// Holds kept values for the providers. Each call that takes `&mut self` is one holding of one value.
/// Each of them but `set_retrieved` first adds a copy of the value that it found to the list.
pub trait Keeper {
    /// The values that were found, and the kept states, where they are told.
    ghost holdings: { Self → Holdings };

    /// Whose token is kept.
    ghost key_held: { Self → Option KeyHeld };

    /// The state of the token that is kept, with the records of its loads, where it is told.
    ghost token_held: { Self → Option EitherState };

    /// A section of the token of IAM Identity Center, on what is kept of it, as [`kept_section`] is
    /// one. A finished section leaves what comes of it in its place, a finished load with its record, and
    /// one that was stopped before its end leaves all as it was. The outer error says why it was stopped,
    /// and the inner one is the section's.
    fn sso_section<A: Asking>(
        &mut self,
        alloc: Global,
        env: &Env,
        settings: &CallSettings,
        asking: &mut A,
    ) -> Result<Result<CachedSsoToken, SsoTokenProviderError>, Stop>
        requires { is_sso_key (key_held self.old) ≡ true }
        ensures follows { IfSome (key_held self.old) (λ key.
            HoldsFollows ⟦<A as Asking>⟧ (sso_holding key env.now settings.now) asking.old (holdings self.old) asking.new (holdings self.new) result) }
        ensures records { IfOk result (λ answer. SsoAnswers ⟦<A as Asking>⟧ env.now settings.now
            asking.old (token_held self.old) asking.new (token_held self.new) answer) }
        ensures stays { OnErr result (token_held self.new ≡ token_held self.old) }
        ensures key { key_held self.new ≡ key_held self.old };

    /// A section of the token of a sign-in session, on what is kept of it, as [`kept_section`] is
    /// one. A finished section leaves what comes of it in its place, a finished load with its record, and
    /// one that was stopped before its end leaves all as it was. The outer error says why it was stopped,
    /// and the inner one is the section's.
    fn login_section<A: Asking>(
        &mut self,
        alloc: Global,
        env: &Env,
        settings: &CallSettings,
        asking: &mut A,
    ) -> Result<Result<LoginToken, LoginTokenError>, Stop>
        requires { is_login_key (key_held self.old) ≡ true }
        ensures follows { IfSome (key_held self.old) (λ key.
            HoldsFollows ⟦<A as Asking>⟧ (login_holding key env.now settings.now) asking.old (holdings self.old) asking.new (holdings self.new) result) }
        ensures records { IfOk result (λ answer. LoginAnswers ⟦<A as Asking>⟧ env.now settings.now
            asking.old (token_held self.old) asking.new (token_held self.new) answer) }
        ensures stays { OnErr result (token_held self.new ≡ token_held self.old) }
        ensures key { key_held self.new ≡ key_held self.old };

    /// A session token of a metadata client, on the one that is kept for the place: that one while more
    /// than 120 seconds of it are left, else a new one. A finished holding leaves the new token in its
    /// place, and none after a refusal; one that was stopped before its end leaves what was there. The
    /// outer error says why it was stopped, and the inner one is `FailedToLoadToken`.
    fn imds_token<A: Asking>(
        &mut self,
        alloc: Global,
        place: Place,
        client: &Client,
        asking: &mut A,
    ) -> Result<Result<Bytes, ImdsError>, Stop>
        requires { endpoint_fault (client_rules repeated client.now).endpoint ≡ none }
        ensures follows { HoldsFollows ⟦<A as Asking>⟧ (token_holding (client_rules repeated client.now) place)
            asking.old (holdings self.old) asking.new (holdings self.new) result }
        ensures token { token_held self.new ≡ token_held self.old }
        ensures key { key_held self.new ≡ key_held self.old };

    /// A copy of the credentials that were retrieved for the place, if any were. Nothing is asked, and
    /// they stay kept. `OutOfMemory` where memory runs out, and nothing was held.
    fn retrieved(&mut self, alloc: Global, place: Place) -> Result<Option<Retrieved>, OutOfMemory>
        ensures found { IfOk result (λ r. HoldsFound (holdings self.old) (holdings self.new) (RetrievedAt place (option_map keys_of_retrieved r))) }
        ensures stays { OnErr result (holdings self.new ≡ holdings self.old) }
        ensures token { token_held self.new ≡ token_held self.old }
        ensures key { key_held self.new ≡ key_held self.old };

    /// Keeps credentials that were retrieved for the place, in place of those that it kept. Nothing is
    /// added to the list, and no memory is taken.
    fn set_retrieved(&mut self, place: Place, retrieved: Retrieved)
        ensures left { holdings self.new ≡ leaves_in (holdings self.old) (RetrievedAt place (Some (keys_of_retrieved retrieved))) }
        ensures token { token_held self.new ≡ token_held self.old }
        ensures key { key_held self.new ≡ key_held self.old };

    /// Whose token is kept, if any is. No holding.
    fn key(&self) -> Option<&TokenKey>
        ensures { option_copied result ≡ key_held self.now };

    /// The values that were found, in order. No holding.
    fn found(&self) -> &[Found]
        ensures { map bare result.now ≡ (holdings self.now).found };
}

/// Hands out the kept token while more than 300 seconds of it are left. Else the token's file is read,
/// and its token refreshed where at most 300 seconds of it are left, it has what a refresh needs, and the
/// last noted attempt, if any, is at least 30 seconds ago. The value that was found is added to the
/// keeper's list, and what comes of the section is kept in its place: its token, or none after an error.
/// The keeper's key is of the token's kind.
///
/// # Errors
///
/// Each but `OutOfMemory` comes exactly where the section gives it over the value that was found and the
/// journal's new entries. Of a token of IAM Identity Center:
///
/// - `FailedToLoadToken`: there is no readable `HOME`, the file could not be read or has no token, or a
///   new token could not be written to it. Its error says which.
/// - `ExpiredToken`: the file's token has expired, and cannot be refreshed now, or its refresh failed,
///   was refused or gave no access token.
/// - `BadExpirationTimeFromSsoOidc`: a new token's lifetime, in seconds, is below 1, or ends past the
///   last moment of all. Nothing was written.
///
/// Of a token of a sign-in session, for which a new token that could not be written is handed out:
///
/// - `NoHomeDirectory`: neither `AWS_LOGIN_CACHE_DIRECTORY` nor `HOME` is readable.
/// - `IoError`: the file could not be read.
/// - `Other`, `JsonError`, `MissingField`: the file has no token.
/// - `ExpiredToken`: the file's token has expired, and the last noted attempt is less than 30 seconds
///   ago.
/// - `RefreshFailed`: a refresh failed, was refused or gave no token, or the new token's lifetime is
///   below one second or ends past the last moment of all. It has what the user can do, where that is
///   known.
///
/// Of both:
///
/// - `OutOfMemory`: memory runs out. What was found may then be in the list or not, and what is kept
///   is as the last finished holding left it.
pub fn kept_section<T: KeptToken, P: Keeper, D: Devices>(
    keeper: &mut P,
    alloc: Global,
    env: &Env,
    settings: &CallSettings,
    world: &mut World<D>,
) -> Result<T, T::Error>
    requires { is_key_of T.rules (P.key_held keeper.old) ≡ true }
    ensures finished { is_memory T.rules result ≡ false → IfSome (P.key_held keeper.old) (λ key.
        HoldsEnds ⟦<World<D> as Asking>⟧ (section_holding T.rules T.spot key env.now settings.now)
        world.old (P.holdings keeper.old) world.new (P.holdings keeper.new) result) }
    ensures stopped { is_memory T.rules result ≡ true → IfSome (P.key_held keeper.old) (λ key.
        HoldsBreaks ⟦<World<D> as Asking>⟧ (section_holding T.rules T.spot key env.now settings.now)
        world.old (P.holdings keeper.old) world.new (P.holdings keeper.new)) }
    ensures records { is_memory T.rules result ≡ false → StateAnswers T.rules ⟦<World<D> as Asking>⟧ env.now settings.now
        world.old (T.state_in (P.token_held keeper.old)) world.new (T.state_in (P.token_held keeper.new)) result }
    ensures stays { is_memory T.rules result ≡ true → T.state_in (P.token_held keeper.new) ≡ T.state_in (P.token_held keeper.old) }
    ensures key { P.key_held keeper.new ≡ P.key_held keeper.old }
{
    match T::section(keeper, alloc, env, settings, world) {
        Ok(outcome) => outcome,
        Err(_) => Err(T::out_of_memory()),
    }
}

/// Hands out the session token that is kept for a place while more than 120 seconds of it are left,
/// else a new one, which is kept in its place. The value that was found is added to the keeper's list.
///
/// # Errors
///
/// - `FailedToLoadToken`: the token request was not answered in its last attempt, or the reply gives no
///   token, as [`MetadataToken::read`](cfg_imds::MetadataToken::read) says. None is kept then.
/// - `OutOfMemory` where memory runs out. What was found may then be in the list or not, and what is
///   kept is as the last finished holding left it.
pub fn imds_token<P: Keeper, D: Devices>(
    keeper: &mut P,
    alloc: Global,
    place: Place,
    client: &Client,
    world: &mut World<D>,
) -> Result<Bytes, ImdsError>
    requires { endpoint_fault (client_rules repeated client.now).endpoint ≡ none }
    ensures finished { is_metadata_memory result ≡ false →
        HoldsEnds ⟦<World<D> as Asking>⟧ (token_holding (client_rules repeated client.now) place)
        world.old (P.holdings keeper.old) world.new (P.holdings keeper.new) result }
    ensures stopped { is_metadata_memory result ≡ true →
        HoldsBreaks ⟦<World<D> as Asking>⟧ (token_holding (client_rules repeated client.now) place)
        world.old (P.holdings keeper.old) world.new (P.holdings keeper.new) }
    ensures token { P.token_held keeper.new ≡ P.token_held keeper.old }
    ensures key { P.key_held keeper.new ≡ P.key_held keeper.old }
{
    match keeper.imds_token(alloc, place, client, world) {
        Ok(outcome) => outcome,
        Err(_) => Err(ImdsError::OutOfMemory),
    }
}
