//! What an error of credentials comes of.
ghost use Rattle.std.specs.Prelude.{◌≡◌, ◌++◌, ◌∷◌, [], IfOk, OnOk};
ghost use Rattle.cfg_error_report.specs.Lines.{detail_line};
ghost use Rattle.cfg_error_report.specs.CredentialsCauses.{causes_of as causes_of_error, error_lines, not_loaded_lines, provider_lines, members_lines, chain_words as chain_words_of};

use crate::lines::Causes;
use crate::parts::{
    tell_cached_token, tell_config, tell_imds, tell_login_token, tell_sso_token, tell_unhandled,
};
use crate::words::{tell_process, tell_profile, tell_refused, variable_words};
use cfg_types::{CredentialsError, NotLoadedCause, OutOfMemory, ProviderAttempt, ProviderCause};
use std::alloc::Global;

/// An error of credentials and all that it comes of, from the outside in: of a chain of which no member was
/// loaded each member, by its name, with all that its own error comes of. Credentials and tokens are in no
/// text, and of a reply of the metadata service with the status of an error the status alone is told. What a
/// service says of its error, what a command wrote to standard error, addresses and paths, and a caller's own
/// texts are told as they stand. Where memory runs out it is `OutOfMemory`.
pub fn causes_of(alloc: Global, error: &CredentialsError) -> Result<Causes, OutOfMemory>
    ensures { IfOk result (λ causes. causes ≡ causes_of_error error.now) }
{
    let mut causes = Causes::new(alloc);
    tell_error(&mut causes, 0, error)?;
    Ok(causes)
}

#[cycle(tells)]
fn tell_error(
    causes: &mut Causes,
    depth: usize,
    error: &CredentialsError,
) -> Result<(), OutOfMemory>
    ensures { OnOk result (causes.new ≡ causes.old ++ error_lines error.now depth) }
{
    causes.tell(depth, error)?;
    match error {
        CredentialsError::CredentialsNotLoaded(cause) => tell_not_loaded(causes, depth, cause),
        CredentialsError::ProviderTimedOut => Ok(()),
        CredentialsError::InvalidConfiguration(cause) => tell_config(causes, depth, cause),
        CredentialsError::ProviderError(cause) => tell_provider(causes, depth, cause),
        CredentialsError::Unhandled(cause) => tell_unhandled(causes, depth, cause),
        CredentialsError::OutOfMemory => Ok(()),
    }
}

#[cycle(tells)]
fn tell_not_loaded(
    causes: &mut Causes,
    depth: usize,
    cause: &NotLoadedCause,
) -> Result<(), OutOfMemory>
    ensures { OnOk result (causes.new ≡ causes.old ++ not_loaded_lines cause.now depth) }
{
    match cause {
        NotLoadedCause::NotSet(name) => {
            causes.tell(depth, cause)?;
            let detail = variable_words(causes.alloc(), name)?;
            causes.tell_detail(depth, detail.as_str())
        }
        NotLoadedCause::Profile(error) => tell_profile(causes, depth, error),
        NotLoadedCause::NotConfigured => {
            causes.tell_detailed(
                depth,
                cause,
                "neither `AWS_CONTAINER_CREDENTIALS_RELATIVE_URI` nor `AWS_CONTAINER_CREDENTIALS_FULL_URI` can be read",
            )
        }
        NotLoadedCause::MetadataNoRole => {
            causes.tell_detailed(
                depth,
                cause,
                "the machine has no role: the listing of roles is not there",
            )
        }
        NotLoadedCause::MetadataUnreachable => {
            causes.tell_detailed(
                depth,
                cause,
                "the request for a session token could not be sent",
            )
        }
        // The members stand in place of the chain's own text, which ends at the first cause of each.
        NotLoadedCause::Chain(chain) => {
            causes.tell_words(depth, chain_words(chain.attempts.as_slice()))?;
            tell_members(causes, depth, chain.attempts.as_slice())
        }
        _ => causes.tell(depth, cause),
    }
}

#[cycle(tells)]
fn tell_provider(
    causes: &mut Causes,
    depth: usize,
    cause: &ProviderCause,
) -> Result<(), OutOfMemory>
    ensures { OnOk result (causes.new ≡ causes.old ++ provider_lines cause.now depth) }
{
    match cause {
        ProviderCause::Base(error) => {
            tell_step(causes, depth, "the base gave no credentials", error.get())
        }
        ProviderCause::Role(error) => {
            tell_step(causes, depth, "a role could not be assumed", error.get())
        }
        ProviderCause::Refused(refusal) => tell_refused(causes, depth, cause, refusal.kind),
        ProviderCause::Process(cause) => tell_process(causes, depth, cause),
        ProviderCause::Metadata(error) => tell_imds(causes, depth, error),
        ProviderCause::SsoToken(error) => tell_sso_token(causes, depth, error),
        ProviderCause::SsoFile(error) => tell_cached_token(causes, depth, error),
        ProviderCause::LoginToken(error) => tell_login_token(causes, depth, error),
        _ => causes.tell(depth, cause),
    }
}

// Which step failed, and its error.
#[cycle(tells)]
fn tell_step(
    causes: &mut Causes,
    depth: usize,
    words: &str,
    error: &CredentialsError,
) -> Result<(), OutOfMemory>
    ensures { OnOk result (causes.new ≡ causes.old ++ detail_line depth words.now ∷ error_lines error.now depth) }
{
    causes.tell_detail(depth, words)?;
    tell_error(causes, depth, error)
}

// The members of a chain, each by its name, and what it answered. Memory runs out too where they stand too
// deep for a number.
#[cycle(tells)]
fn tell_members(
    causes: &mut Causes,
    depth: usize,
    attempts: &[ProviderAttempt<CredentialsError>],
) -> Result<(), OutOfMemory>
    ensures { OnOk result (causes.new ≡ causes.old ++ members_lines error_lines depth attempts.now) }
{
    let Some(below) = depth.checked_add(2) else {
        return Err(OutOfMemory);
    };
    for attempt in attempts {
        causes.tell_member(depth + 1, attempt.name())?;
        tell_error(causes, below, attempt.error())?;
    }
    Ok(())
}

/// That no member of a chain was loaded, or that it has none.
pub fn chain_words<E>(attempts: &[ProviderAttempt<E>]) -> &'static str
    ensures { result.now ≡ chain_words_of attempts.now }
{
    if attempts.is_empty() {
        "no providers were configured in the chain"
    } else {
        "no credentials found in chain"
    }
}
