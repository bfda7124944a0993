//! Bodies over anything that can be asked, for the crates above.
ghost use Rattle.std.specs.Prelude.{◌≡◌, IfOk, Some, true};
ghost use Rattle.cfg_world.specs.Follows.{Follows};
ghost use Rattle.cfg_token.specs.SsoTokens.{is_sso};
ghost use Rattle.cfg_kept.specs.Holds.{HoldsFollows};
ghost use Rattle.cfg_sso.specs.BearerTokens.{bearer as bearer_of, bearer_token};
ghost use Rattle.cfg_sso.specs.SsoCredentials.{behind_token as behind_token_of, sso_credentials};
ghost use Rattle.cfg_sso.specs.Tokens.{sso_key, HasKey, sso_token as sso_token_of};

use crate::config::SsoProviderConfig;
use crate::role::exchange;
use crate::section::{section, session_token};
use crate::start_url::url_token;
use cfg_kept::Keeper;
use cfg_profile::ProviderConfig;
use cfg_token::{CachedSsoToken, TokenKey};
use cfg_types::{
    Credentials, CredentialsError, OutOfMemory, SsoTokenProviderError, Token, TokenError,
};
use cfg_world::{Asking, Stop};
use std::alloc::Global;

/// Credentials for the role of an account: the token of the session, where one is named, or else of the
/// file that the start URL names, and then one `GetRoleCredentials` with it. The body of
/// [`SsoCredentialsProvider::follow`](crate::SsoCredentialsProvider::follow), with the errors of
/// [`SsoCredentialsProvider::provide_credentials`](crate::SsoCredentialsProvider::provide_credentials).
pub fn follow_sso<P: Keeper, A: Asking>(
    alloc: Global,
    config: &ProviderConfig,
    sso: &SsoProviderConfig,
    keeper: &mut P,
    asking: &mut A,
) -> Result<Result<Credentials, CredentialsError>, Stop>
    requires { HasKey (sso_key sso.now) (P.key_held keeper.old) }
    ensures follows { HoldsFollows ⟦<A as Asking>⟧ (sso_credentials config.now sso.now)
        asking.old (P.holdings keeper.old) asking.new (P.holdings keeper.new) result }
    ensures key { P.key_held keeper.new ≡ P.key_held keeper.old }
{
    match sso_token(alloc, config, sso, keeper, asking) {
        Ok(token) => behind_token(alloc, config, sso, token, asking),
        Err(stop) => Err(stop),
    }
}

// The token of the session, where one is named, or else of the start URL.
fn sso_token<P: Keeper, A: Asking>(
    alloc: Global,
    config: &ProviderConfig,
    sso: &SsoProviderConfig,
    keeper: &mut P,
    asking: &mut A,
) -> Result<Result<CachedSsoToken, CredentialsError>, Stop>
    requires { HasKey (sso_key sso.now) (P.key_held keeper.old) }
    ensures follows { HoldsFollows ⟦<A as Asking>⟧ (sso_token_of config.now sso.now)
        asking.old (P.holdings keeper.old) asking.new (P.holdings keeper.new) result }
    ensures key { P.key_held keeper.new ≡ P.key_held keeper.old }
{
    match &sso.session_name {
        Some(_) => session_token(alloc, config, keeper, asking),
        None => url_token(alloc, config, &sso.start_url, asking),
    }
}

// One request with the token, where there is one.
#[tactic(auto, using(crate::proofs::QuietSteps::quiet_steps), unfolding(crate::specs::SsoCredentials::behind_token))]
fn behind_token<A: Asking>(
    alloc: Global,
    config: &ProviderConfig,
    sso: &SsoProviderConfig,
    token: Result<CachedSsoToken, CredentialsError>,
    asking: &mut A,
) -> Result<Result<Credentials, CredentialsError>, Stop>
    ensures { Follows ⟦<A as Asking>⟧ (behind_token_of config.now sso.now token) asking.old asking.new result }
{
    match token {
        Ok(token) => exchange(alloc, config, sso, &token, asking),
        Err(error) => Ok(Err(error)),
    }
}

/// One section of the token of this key, which the keeper has, as a bearer token: the body of
/// [`SsoTokenProvider::follow`](crate::SsoTokenProvider::follow), with the errors of
/// [`SsoTokenProvider::provide_token`](crate::SsoTokenProvider::provide_token).
pub fn follow_bearer<P: Keeper, A: Asking>(
    alloc: Global,
    config: &ProviderConfig,
    key: &TokenKey,
    keeper: &mut P,
    asking: &mut A,
) -> Result<Result<Token, TokenError>, Stop>
    requires kind { is_sso key.now ≡ true }
    requires held { P.key_held keeper.old ≡ Some key.now }
    ensures follows { HoldsFollows ⟦<A as Asking>⟧ (bearer_token config.now key.now)
        asking.old (P.holdings keeper.old) asking.new (P.holdings keeper.new) result }
    ensures key { P.key_held keeper.new ≡ P.key_held keeper.old }
{
    match section(alloc, config, keeper, asking) {
        Ok(given) => {
            let outcome = bearer(alloc, given)?;
            Ok(outcome)
        }
        Err(stop) => Err(stop),
    }
}

// What a section gives, as a bearer token.
#[tactic(auto, unfolding(crate::specs::BearerTokens::bearer))]
fn bearer(
    alloc: Global,
    given: Result<CachedSsoToken, SsoTokenProviderError>,
) -> Result<Result<Token, TokenError>, OutOfMemory>
    ensures { IfOk result (λ r. bearer_of given ≡ r) }
{
    match given {
        Ok(token) => {
            let text = token.access_token.as_str();
            Ok(Ok(Token::new(alloc, text, Some(token.expires_at))?))
        }
        Err(error) => Ok(Err(TokenError::ProviderError(error))),
    }
}
