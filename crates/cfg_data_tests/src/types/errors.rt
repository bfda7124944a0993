//! What no clause says: the texts of errors that no script leads to. Those of the others stand in the
//! tables of the calls that answer them, and in those of the program.
use cfg_types::imds::{BuildError, ImdsError, InvalidEndpointMode};
use cfg_types::{
    CachedSsoTokenError, CredentialsError, Fault, InvalidFullUriError, InvalidJsonCredentials,
    JsonError, LoginTokenError, NotLoadedCause, OutOfMemory, ProfileFileError, ProviderAttempt,
    ProviderChainError, Seq, SsoTokenProviderError, Text, TokenCause, TokenError,
};
use std::alloc::{AllocError, Global};
use std::fmt;
use std::test::Fail;

fn shown<E: fmt::Display>(alloc: Global, error: &E) -> Result<String, AllocError> {
    format!(in alloc; "{error}")
}

fn profile_error(row: usize, profile: Text, message: Text) -> ProfileFileError {
    match row {
        0 => ProfileFileError::MissingCredentialSource { profile, message },
        1 => ProfileFileError::FeatureNotEnabled {
            feature: profile,
            message: Some(message),
        },
        _ => ProfileFileError::FeatureNotEnabled {
            feature: profile,
            message: None,
        },
    }
}

fn profile_words(alloc: Global, row: usize) -> Result<String, OutOfMemory> {
    let profile = Text::of(alloc, "p")?;
    let message = Text::of(alloc, "m")?;
    let error = profile_error(row, profile, message);
    Ok(shown(alloc, &error)?)
}

// How the type of this name says that memory ran out.
fn memory_words(alloc: Global, name: &str) -> Result<String, AllocError> {
    match name {
        "CachedSsoTokenError" => shown(alloc, &CachedSsoTokenError::OutOfMemory),
        "LoginTokenError" => shown(alloc, &LoginTokenError::OutOfMemory),
        "InvalidFullUriError" => shown(alloc, &InvalidFullUriError::OutOfMemory),
        "InvalidEndpointMode" => shown(alloc, &InvalidEndpointMode::OutOfMemory),
        "CredentialsError" => shown(alloc, &CredentialsError::OutOfMemory),
        "TokenError" => shown(alloc, &TokenError::OutOfMemory),
        "ImdsError" => shown(alloc, &ImdsError::OutOfMemory),
        "BuildError" => shown(alloc, &BuildError::OutOfMemory),
        "SsoTokenProviderError" => shown(alloc, &SsoTokenProviderError::OutOfMemory),
        "InvalidJsonCredentials" => shown(alloc, &InvalidJsonCredentials::OutOfMemory),
        "ProfileFileError" => shown(alloc, &ProfileFileError::OutOfMemory),
        "Fault" => shown(alloc, &Fault::OutOfMemory),
        _ => shown(
            alloc,
            &InvalidJsonCredentials::JsonError(JsonError::OutOfMemory),
        ),
    }
}

fn keys_error(alloc: Global, row: usize) -> Result<CredentialsError, OutOfMemory> {
    let cause = match row {
        0 => NotLoadedCause::NotSet(Text::of(alloc, "AWS_ACCESS_KEY_ID")?),
        1 => NotLoadedCause::Custom(Text::of(alloc, "reason")?),
        2 => NotLoadedCause::Chain(ProviderChainError::new(Seq::of(Vec::new(alloc)))),
        _ => return Ok(CredentialsError::ProviderTimedOut),
    };
    Ok(CredentialsError::CredentialsNotLoaded(cause))
}

fn token_error(alloc: Global, row: usize) -> Result<TokenError, OutOfMemory> {
    let cause = match row {
        0 => TokenCause::NoSession,
        1 => TokenCause::Custom(Text::of(alloc, "reason")?),
        2 => TokenCause::Chain(ProviderChainError::new(Seq::of(Vec::new(alloc)))),
        _ => return Ok(TokenError::ProviderTimedOut),
    };
    Ok(TokenError::TokenNotLoaded(cause))
}

// The error of a chain of so many members.
fn keys_chain_words(alloc: Global, members: usize) -> Result<String, OutOfMemory> {
    let mut attempts = Seq::of(Vec::new(alloc));
    for row in 0..members {
        let error = keys_error(alloc, row)?;
        attempts.push(ProviderAttempt::new(Text::of(alloc, "M")?, error))?;
    }
    let error = ProviderChainError::new(attempts);
    Ok(shown(alloc, &error)?)
}

fn token_chain_words(alloc: Global, members: usize) -> Result<String, OutOfMemory> {
    let mut attempts = Seq::of(Vec::new(alloc));
    for row in 0..members {
        let error = token_error(alloc, row)?;
        attempts.push(ProviderAttempt::new(Text::of(alloc, "M")?, error))?;
    }
    let error = ProviderChainError::new(attempts);
    Ok(shown(alloc, &error)?)
}

fn chain_words(alloc: Global, kind: &str, members: usize) -> Result<String, OutOfMemory> {
    match kind {
        "credentials" => keys_chain_words(alloc, members),
        _ => token_chain_words(alloc, members),
    }
}

#[test]
fn errors_in_words(rt: HostRuntime) -> Result<(), Fail> {
    let profiles: &[&str] = &[
        "missing credential source in `p`: m",
        "This behavior requires following cargo feature(s) enabled: p. m",
        "This behavior requires following cargo feature(s) enabled: p. ",
    ];
    for (row, want) in profiles.iter().enumerate() {
        let words = profile_words(rt.alloc(), row)?;
        assert_eq!(rt; words.as_str(), *want);
    }
    let words = shown(rt.alloc(), &InvalidFullUriError::NoDnsResolver)?;
    assert_eq!(rt;
        words.as_str(),
        "no DNS resolver was provided. Enable `rt-tokio` or provide a `dns` resolver to the builder."
    );
    Ok(())
}

const MEMORY: &[(&str, &str)] = &[
    ("CachedSsoTokenError", "out of memory"),
    ("LoginTokenError", "out of memory"),
    ("InvalidFullUriError", "out of memory"),
    ("InvalidEndpointMode", "out of memory"),
    ("CredentialsError", "out of memory"),
    ("TokenError", "out of memory"),
    ("ImdsError", "out of memory"),
    ("BuildError", "out of memory"),
    ("SsoTokenProviderError", "out of memory"),
    ("InvalidJsonCredentials", "out of memory"),
    ("ProfileFileError", "out of memory"),
    ("Fault", "out of memory"),
    ("JsonError", "invalid JSON in response: out of memory"),
];

#[test]
fn out_of_memory_in_words(rt: HostRuntime) -> Result<(), Fail> {
    for (name, want) in MEMORY {
        let words = memory_words(rt.alloc(), name)?;
        assert_eq!(rt; words.as_str(), *want, "{name}");
    }
    Ok(())
}

#[test]
fn chains_in_words(rt: HostRuntime) -> Result<(), Fail> {
    let table: &[(&str, usize, &str)] = &[
        (
            "credentials",
            0,
            "no providers were configured in the chain",
        ),
        (
            "credentials",
            1,
            "no credentials found in chain. Attempted:\n  M: not loaded: environment variable not set",
        ),
        (
            "credentials",
            4,
            "no credentials found in chain. Attempted:\n  M: not loaded: environment variable not set\n  M: not loaded: reason\n  M: not loaded: no providers were configured in the chain\n  M: provider timed out",
        ),
        ("token", 0, "no providers were configured in the chain"),
        (
            "token",
            1,
            "no credentials found in chain. Attempted:\n  M: not loaded: no sso-session configured in profile file",
        ),
        (
            "token",
            4,
            "no credentials found in chain. Attempted:\n  M: not loaded: no sso-session configured in profile file\n  M: not loaded: reason\n  M: not loaded: no providers were configured in the chain\n  M: provider timed out",
        ),
    ];
    for (kind, members, want) in table {
        let words = chain_words(rt.alloc(), kind, *members)?;
        assert_eq!(rt; words.as_str(), *want, "{kind}");
    }
    Ok(())
}
