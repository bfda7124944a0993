//! The errors of credentials as they are shown to a user.
ghost use Rattle.std.specs.Prelude.{◌≡◌};
ghost use Rattle.std.specs.Fmt.{DisplaysOnOk, WritesOnOk};
ghost use Rattle.cfg_types.specs.ChainTexts.{attempts_text, chain_text, credentials_line, not_set_text};

use crate::errors::pieces::around;
use crate::errors::{CredentialsError, NotLoadedCause, ProviderAttempt, ProviderChainError};
use cfg_base::Text;
use std::error::Error;
use std::fmt::{self, Display};

impl fmt::Display for CredentialsError {
    ghost use Rattle.std.specs.Prelude.{Some};
    ghost use Rattle.cfg_types.specs.ChainTexts.{credentials_text};

    ghost output = { λ e. Some (credentials_text e) };

    ghost styled_output = { λ e _. Some (credentials_text e) };

    fn fmt<W: fmt::Write>(&self, f: &mut fmt::Formatter<W>) -> fmt::Result {
        match self {
            CredentialsError::CredentialsNotLoaded(_) => f.write_str("not loaded"),
            CredentialsError::ProviderTimedOut => f.write_str("provider timed out"),
            CredentialsError::InvalidConfiguration(_) => f.write_str("invalid configuration"),
            CredentialsError::ProviderError(_) => f.write_str("provider error"),
            CredentialsError::Unhandled(_) => f.write_str("unhandled error"),
            CredentialsError::OutOfMemory => f.write_str("out of memory"),
        }
    }
}

impl Error for CredentialsError {}

impl fmt::Display for NotLoadedCause {
    ghost use Rattle.cfg_types.specs.ChainTexts.{not_loaded_text};

    ghost output = { not_loaded_text };

    #[cycle(shows)]
    fn fmt<W: fmt::Write>(&self, f: &mut fmt::Formatter<W>) -> fmt::Result {
        match self {
            NotLoadedCause::NotSet(name) => write_not_set(f, name),
            NotLoadedCause::Profile(e) => e.fmt(f),
            NotLoadedCause::NotConfigured => f.write_str("ECS provider not configured"),
            NotLoadedCause::MetadataDisabled => {
                f.write_str("IMDS disabled by AWS_EC2_METADATA_DISABLED env var set to `true`")
            }
            NotLoadedCause::MetadataNoRole => f.write_str("received 404 from IMDS"),
            NotLoadedCause::MetadataUnreachable => f.write_str("could not communicate with IMDS"),
            NotLoadedCause::Custom(text) => f.write_str(text.as_str()),
            NotLoadedCause::Chain(chain) => write_chain(f, chain.attempts.as_slice()),
        }
    }
}

impl Error for NotLoadedCause {}

impl fmt::Display for ProviderChainError<CredentialsError> {
    ghost use Rattle.cfg_types.specs.ChainTexts.{chain_text, credentials_line};

    ghost output = { λ e. chain_text credentials_line e.attempts };

    fn fmt<W: fmt::Write>(&self, f: &mut fmt::Formatter<W>) -> fmt::Result {
        write_chain(f, self.attempts.as_slice())
    }
}

impl Error for ProviderChainError<CredentialsError> {}

/// Writes that the variable of this name is not set.
fn write_not_set<W: fmt::Write>(f: &mut fmt::Formatter<W>, name: &Text) -> fmt::Result
    ensures { WritesOnOk W.write_str_gives f.old result (not_set_text name.now) f.new }
{
    if name.is("AWS_WEB_IDENTITY_TOKEN_FILE") {
        f.write_str("$AWS_WEB_IDENTITY_TOKEN_FILE was not set")
    } else if name.is("AWS_ROLE_ARN") {
        f.write_str("AWS_ROLE_ARN environment variable must be set")
    } else {
        f.write_str("environment variable not set")
    }
}

/// Writes that no member of a chain was loaded.
#[cycle(shows)]
fn write_chain<W: fmt::Write>(
    f: &mut fmt::Formatter<W>,
    attempts: &[ProviderAttempt<CredentialsError>],
) -> fmt::Result
    ensures { DisplaysOnOk W.write_str_gives f.old result (chain_text credentials_line attempts.now) f.new }
{
    if attempts.is_empty() {
        return f.write_str("no providers were configured in the chain");
    }
    f.write_str("no credentials found in chain. Attempted:")?;
    write_attempts(f, attempts)
}

/// Writes a line for each attempt.
#[cycle(shows)]
fn write_attempts<W: fmt::Write>(
    f: &mut fmt::Formatter<W>,
    attempts: &[ProviderAttempt<CredentialsError>],
) -> fmt::Result
    ensures { DisplaysOnOk W.write_str_gives f.old result (attempts_text credentials_line attempts.now) f.new }
{
    for attempt in attempts {
        around(f, "\n  ", &attempt.name, ": ")?;
        write_line(f, &attempt.error)?;
    }
    Ok(())
}

/// Writes an error, and its cause where that is a cause of not being loaded.
#[cycle(shows)]
fn write_line<W: fmt::Write>(f: &mut fmt::Formatter<W>, error: &CredentialsError) -> fmt::Result
    ensures { DisplaysOnOk W.write_str_gives f.old result (credentials_line error.now) f.new }
{
    match error {
        CredentialsError::CredentialsNotLoaded(cause) => {
            f.write_str("not loaded: ")?;
            cause.fmt(f)
        }
        CredentialsError::ProviderTimedOut => f.write_str("provider timed out"),
        CredentialsError::InvalidConfiguration(_) => f.write_str("invalid configuration"),
        CredentialsError::ProviderError(_) => f.write_str("provider error"),
        CredentialsError::Unhandled(_) => f.write_str("unhandled error"),
        CredentialsError::OutOfMemory => f.write_str("out of memory"),
    }
}
