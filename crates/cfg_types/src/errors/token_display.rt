//! The errors of tokens as they are shown to a user.
ghost use Rattle.std.specs.Fmt.{DisplaysOnOk};
ghost use Rattle.cfg_types.specs.ChainTexts.{attempts_text, chain_text};
ghost use Rattle.cfg_types.specs.TokenChainTexts.{token_line};

use crate::errors::pieces::around;
use crate::errors::{ProviderAttempt, ProviderChainError, TokenCause, TokenError};
use std::error::Error;
use std::fmt::{self, Display};

impl fmt::Display for TokenError {
    ghost use Rattle.std.specs.Prelude.{Some};
    ghost use Rattle.cfg_types.specs.TokenChainTexts.{token_text};

    ghost output = { λ e. Some (token_text e) };

    ghost styled_output = { λ e _. Some (token_text e) };

    fn fmt<W: fmt::Write>(&self, f: &mut fmt::Formatter<W>) -> fmt::Result {
        match self {
            TokenError::TokenNotLoaded(_) => f.write_str("not loaded"),
            TokenError::ProviderTimedOut => f.write_str("provider timed out"),
            TokenError::InvalidConfiguration(_) => f.write_str("invalid configuration"),
            TokenError::ProviderError(_) => f.write_str("provider error"),
            TokenError::Unhandled(_) => f.write_str("unhandled error"),
            TokenError::OutOfMemory => f.write_str("out of memory"),
        }
    }
}

impl Error for TokenError {}

impl fmt::Display for TokenCause {
    ghost use Rattle.cfg_types.specs.TokenChainTexts.{token_cause_text};

    ghost output = { token_cause_text };

    #[cycle(shows_tokens)]
    fn fmt<W: fmt::Write>(&self, f: &mut fmt::Formatter<W>) -> fmt::Result {
        match self {
            TokenCause::NoSession => f.write_str("no sso-session configured in profile file"),
            TokenCause::Custom(text) => f.write_str(text.as_str()),
            TokenCause::Chain(chain) => write_token_chain(f, chain.attempts.as_slice()),
        }
    }
}

impl Error for TokenCause {}

impl fmt::Display for ProviderChainError<TokenError> {
    ghost use Rattle.cfg_types.specs.ChainTexts.{chain_text};
    ghost use Rattle.cfg_types.specs.TokenChainTexts.{token_line};

    ghost output = { λ e. chain_text token_line e.attempts };

    fn fmt<W: fmt::Write>(&self, f: &mut fmt::Formatter<W>) -> fmt::Result {
        write_token_chain(f, self.attempts.as_slice())
    }
}

impl Error for ProviderChainError<TokenError> {}

/// Writes that no member of a chain was loaded.
#[cycle(shows_tokens)]
fn write_token_chain<W: fmt::Write>(
    f: &mut fmt::Formatter<W>,
    attempts: &[ProviderAttempt<TokenError>],
) -> fmt::Result
    ensures { DisplaysOnOk W.write_str_gives f.old result (chain_text token_line attempts.now) f.new }
{
    if attempts.is_empty() {
        return f.write_str("no providers were configured in the chain");
    }
    f.write_str("no credentials found in chain. Attempted:")?;
    write_token_attempts(f, attempts)
}

/// Writes a line for each attempt.
#[cycle(shows_tokens)]
fn write_token_attempts<W: fmt::Write>(
    f: &mut fmt::Formatter<W>,
    attempts: &[ProviderAttempt<TokenError>],
) -> fmt::Result
    ensures { DisplaysOnOk W.write_str_gives f.old result (attempts_text token_line attempts.now) f.new }
{
    for attempt in attempts {
        around(f, "\n  ", &attempt.name, ": ")?;
        write_token_line(f, &attempt.error)?;
    }
    Ok(())
}

/// Writes an error, and its cause where that is a cause of not being loaded.
#[cycle(shows_tokens)]
fn write_token_line<W: fmt::Write>(f: &mut fmt::Formatter<W>, error: &TokenError) -> fmt::Result
    ensures { DisplaysOnOk W.write_str_gives f.old result (token_line error.now) f.new }
{
    match error {
        TokenError::TokenNotLoaded(cause) => {
            f.write_str("not loaded: ")?;
            cause.fmt(f)
        }
        TokenError::ProviderTimedOut => f.write_str("provider timed out"),
        TokenError::InvalidConfiguration(_) => f.write_str("invalid configuration"),
        TokenError::ProviderError(_) => f.write_str("provider error"),
        TokenError::Unhandled(_) => f.write_str("unhandled error"),
        TokenError::OutOfMemory => f.write_str("out of memory"),
    }
}
