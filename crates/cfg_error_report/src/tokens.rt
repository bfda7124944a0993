//! What an error of tokens comes of.
ghost use Rattle.std.specs.Prelude.{◌≡◌, ◌++◌, IfOk, OnOk};
ghost use Rattle.cfg_error_report.specs.CredentialsCauses.{members_lines};
ghost use Rattle.cfg_error_report.specs.TokenCauses.{token_causes_of as causes_of_token_error, token_lines, token_cause_lines};

use crate::credentials::chain_words;
use crate::lines::Causes;
use crate::parts::tell_sso_token;
use crate::words::tell_profile;
use cfg_types::{OutOfMemory, ProviderAttempt, TokenCause, TokenError};
use std::alloc::Global;

/// An error of tokens and all that it comes of, from the outside in, as [`causes_of`](crate::causes_of) gives
/// them of an error of credentials. Where memory runs out it is `OutOfMemory`.
pub fn token_causes_of(alloc: Global, error: &TokenError) -> Result<Causes, OutOfMemory>
    ensures { IfOk result (λ causes. causes ≡ causes_of_token_error error.now) }
{
    let mut causes = Causes::new(alloc);
    tell_token_error(&mut causes, 0, error)?;
    Ok(causes)
}

#[cycle(tells_tokens)]
fn tell_token_error(
    causes: &mut Causes,
    depth: usize,
    error: &TokenError,
) -> Result<(), OutOfMemory>
    ensures { OnOk result (causes.new ≡ causes.old ++ token_lines error.now depth) }
{
    causes.tell(depth, error)?;
    match error {
        TokenError::TokenNotLoaded(cause) => tell_token_cause(causes, depth, cause),
        TokenError::ProviderTimedOut => Ok(()),
        TokenError::InvalidConfiguration(error) => tell_profile(causes, depth, error),
        TokenError::ProviderError(error) => tell_sso_token(causes, depth, error),
        TokenError::Unhandled(text) => causes.tell_words(depth, text.as_str()),
        TokenError::OutOfMemory => Ok(()),
    }
}

#[cycle(tells_tokens)]
fn tell_token_cause(
    causes: &mut Causes,
    depth: usize,
    cause: &TokenCause,
) -> Result<(), OutOfMemory>
    ensures { OnOk result (causes.new ≡ causes.old ++ token_cause_lines cause.now depth) }
{
    match cause {
        TokenCause::Chain(chain) => {
            causes.tell_words(depth, chain_words(chain.attempts.as_slice()))?;
            tell_token_members(causes, depth, chain.attempts.as_slice())
        }
        _ => causes.tell(depth, cause),
    }
}

// The members of a chain, each by its name, and what it answered. Memory runs out too where they stand too
// deep for a number.
#[cycle(tells_tokens)]
fn tell_token_members(
    causes: &mut Causes,
    depth: usize,
    attempts: &[ProviderAttempt<TokenError>],
) -> Result<(), OutOfMemory>
    ensures { OnOk result (causes.new ≡ causes.old ++ members_lines token_lines depth attempts.now) }
{
    let Some(below) = depth.checked_add(2) else {
        return Err(OutOfMemory);
    };
    for attempt in attempts {
        causes.tell_member(depth + 1, attempt.name())?;
        tell_token_error(causes, below, attempt.error())?;
    }
    Ok(())
}
