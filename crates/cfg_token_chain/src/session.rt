//! The session of IAM Identity Center that a profile's token comes of.
ghost use Rattle.std.specs.Prelude.{◌≡◌, IfOk, Ok};
ghost use Rattle.cfg_token_chain.specs.Sessions.{profile_chain, session_of as session_of_chain, profile_session, session_key};

use cfg_profile::{
    ProfileChain, ProfileSet, ProfileSource, ProviderConfig, chain_of_profile, selected_name,
};
use cfg_sso::session_of_base;
use cfg_token::TokenKey;
use cfg_types::{OutOfMemory, ProfileFileError, TokenCause, TokenError, TryCopy};
use std::alloc::Global;

/// The session whose token the selected profile gives, or why there is none.
#[tactic(auto, unfolding(crate::specs::Sessions::profile_session))]
pub(crate) fn session_of(
    alloc: Global,
    config: &ProviderConfig,
) -> Result<Result<TokenKey, TokenError>, OutOfMemory>
    ensures { IfOk result (λ session. profile_session config.now ≡ session) }
{
    match config.profiles() {
        ProfileSource::Refused(reason) => {
            let reason = reason.copy(alloc)?;
            let error = ProfileFileError::InvalidProfile(reason);
            Ok(Err(TokenError::InvalidConfiguration(error)))
        }
        ProfileSource::Sections(set) => session_in(alloc, set, selected_name(config)),
    }
}

// The session of the profile of this name.
fn session_in(
    alloc: Global,
    set: &ProfileSet,
    name: &str,
) -> Result<Result<TokenKey, TokenError>, OutOfMemory>
    ensures { IfOk result (λ session. session_of_chain (profile_chain set.now name.now) ≡ session) }
{
    match chain_of_profile(alloc, set, name) {
        Ok(chain) => {
            let session = session_over(alloc, &chain)?;
            Ok(session)
        }
        Err(error) => match &error {
            ProfileFileError::OutOfMemory => Err(OutOfMemory),
            _ => Ok(Err(TokenError::InvalidConfiguration(error))),
        },
    }
}

// The session of the base of a path.
fn session_over(
    alloc: Global,
    chain: &ProfileChain,
) -> Result<Result<TokenKey, TokenError>, OutOfMemory>
    ensures { IfOk result (λ session. session ≡ session_of_chain (Ok chain.now)) }
{
    match session_of_base(alloc, &chain.base)? {
        Some(key) => Ok(Ok(key)),
        None => Ok(Err(TokenError::TokenNotLoaded(TokenCause::NoSession))),
    }
}

/// Whose token the selected profile gives, where it gives one.
pub(crate) fn token_key_of(
    alloc: Global,
    config: &ProviderConfig,
) -> Result<Option<TokenKey>, OutOfMemory>
    ensures { IfOk result (λ key. key ≡ session_key config.now) }
{
    match session_of(alloc, config)? {
        Ok(key) => Ok(Some(key)),
        Err(_) => Ok(None),
    }
}
