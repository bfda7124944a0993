//! The token of a session.
ghost use Rattle.std.specs.Prelude.{◌≡◌, IfSome, true};
ghost use Rattle.cfg_kept.specs.Holds.{HoldsFollows};
ghost use Rattle.cfg_kept.specs.KeyedStates.{is_sso_key};
ghost use Rattle.cfg_sso.specs.Tokens.{of_section as of_section_of, section_of, session_token as session_token_of};

use cfg_kept::Keeper;
use cfg_profile::{ProviderConfig, call_settings};
use cfg_token::CachedSsoToken;
use cfg_types::{CredentialsError, ProviderCause, SsoTokenProviderError};
use cfg_world::{Asking, Stop};
use std::alloc::Global;

/// One section of the keeper's token, by the settings of this configuration.
pub(crate) fn section<P: Keeper, A: Asking>(
    alloc: Global,
    config: &ProviderConfig,
    keeper: &mut P,
    asking: &mut A,
) -> Result<Result<CachedSsoToken, SsoTokenProviderError>, Stop>
    requires { is_sso_key (P.key_held keeper.old) ≡ true }
    ensures follows { IfSome (P.key_held keeper.old) (λ key.
        HoldsFollows ⟦<A as Asking>⟧ (section_of config.now key) asking.old (P.holdings keeper.old) asking.new (P.holdings keeper.new) result) }
    ensures key { P.key_held keeper.new ≡ P.key_held keeper.old }
{
    match call_settings(alloc, config) {
        Ok(settings) => keeper.sso_section(alloc, config.env(), &settings, asking),
        Err(_) => Err(Stop::OutOfMemory),
    }
}

/// The token that a section of the keeper's token gives.
pub(crate) fn session_token<P: Keeper, A: Asking>(
    alloc: Global,
    config: &ProviderConfig,
    keeper: &mut P,
    asking: &mut A,
) -> Result<Result<CachedSsoToken, CredentialsError>, Stop>
    requires { is_sso_key (P.key_held keeper.old) ≡ true }
    ensures follows { IfSome (P.key_held keeper.old) (λ key.
        HoldsFollows ⟦<A as Asking>⟧ (session_token_of config.now key) asking.old (P.holdings keeper.old) asking.new (P.holdings keeper.new) result) }
    ensures key { P.key_held keeper.new ≡ P.key_held keeper.old }
{
    match section(alloc, config, keeper, asking) {
        Ok(given) => Ok(of_section(given)),
        Err(stop) => Err(stop),
    }
}

// An error of the section is told as such.
#[tactic(auto, unfolding(crate::specs::Tokens::of_section))]
fn of_section(
    given: Result<CachedSsoToken, SsoTokenProviderError>,
) -> Result<CachedSsoToken, CredentialsError>
    ensures { of_section_of given ≡ result }
{
    match given {
        Ok(token) => Ok(token),
        Err(error) => Err(CredentialsError::ProviderError(ProviderCause::SsoToken(error))),
    }
}
