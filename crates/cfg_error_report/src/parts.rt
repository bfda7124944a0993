//! Errors that hold no error of their own kind: each, and then what it comes of. A call adds its lines at this
//! depth. Where memory runs out it is `OutOfMemory`, and some of them may have been added.
ghost use Rattle.std.specs.Prelude.{◌≡◌, ◌++◌, OnOk};
ghost use Rattle.cfg_error_report.specs.Parts.{build_lines, below_build, unexpected_lines, below_imds, imds_lines, cached_token_lines, below_sso_token, sso_token_lines, below_login_token, login_token_lines, config_lines, unhandled_lines};

use crate::lines::Causes;
use crate::words::{
    json_fault, lifetime, tell_endpoint, tell_profile, tell_refusal, tell_scheme,
    tell_session_token,
};
use cfg_types::imds::{BuildError, ImdsError, UnexpectedCause};
use cfg_types::{
    CachedSsoTokenError, ConfigCause, FailKind, LoginTokenError, OutOfMemory,
    SsoTokenProviderError, UnhandledCause,
};

/// What is wrong with the configuration.
pub fn tell_config(
    causes: &mut Causes,
    depth: usize,
    cause: &ConfigCause,
) -> Result<(), OutOfMemory>
    ensures { OnOk result (causes.new ≡ causes.old ++ config_lines cause.now depth) }
{
    match cause {
        ConfigCause::Profile(error) => tell_profile(causes, depth, error),
        ConfigCause::FullUri { error: _, uri } => {
            causes.tell(depth, cause)?;
            tell_scheme(causes, depth, uri)
        }
        ConfigCause::AssumeRole(kind) => {
            causes.tell(depth, cause)?;
            tell_refusal(causes, depth, *kind)
        }
        ConfigCause::LoginToken(error) => tell_login_token(causes, depth, error),
        _ => causes.tell(depth, cause),
    }
}

/// What no rule allows for.
pub fn tell_unhandled(
    causes: &mut Causes,
    depth: usize,
    cause: &UnhandledCause,
) -> Result<(), OutOfMemory>
    ensures { OnOk result (causes.new ≡ causes.old ++ unhandled_lines cause.now depth) }
{
    match cause {
        UnhandledCause::LoginToken(error) => tell_login_token(causes, depth, error),
        _ => causes.tell(depth, cause),
    }
}

/// Why there is no sign-in token.
pub fn tell_login_token(
    causes: &mut Causes,
    depth: usize,
    error: &LoginTokenError,
) -> Result<(), OutOfMemory>
    ensures { OnOk result (causes.new ≡ causes.old ++ login_token_lines error.now depth) }
{
    causes.tell(depth, error)?;
    tell_below_login_token(causes, depth, error)
}

fn tell_below_login_token(
    causes: &mut Causes,
    depth: usize,
    error: &LoginTokenError,
) -> Result<(), OutOfMemory>
    ensures { OnOk result (causes.new ≡ causes.old ++ below_login_token error.now depth) }
{
    match error {
        LoginTokenError::JsonError(fault) => causes.tell_words(depth, json_fault(*fault)),
        LoginTokenError::NoHomeDirectory => causes.tell_detail(
            depth,
            "neither `AWS_LOGIN_CACHE_DIRECTORY` nor `HOME` can be read",
        ),
        _ => Ok(()),
    }
}

/// Why there is no token of IAM Identity Center.
pub fn tell_sso_token(
    causes: &mut Causes,
    depth: usize,
    error: &SsoTokenProviderError,
) -> Result<(), OutOfMemory>
    ensures { OnOk result (causes.new ≡ causes.old ++ sso_token_lines error.now depth) }
{
    causes.tell(depth, error)?;
    tell_below_sso_token(causes, depth, error)
}

fn tell_below_sso_token(
    causes: &mut Causes,
    depth: usize,
    error: &SsoTokenProviderError,
) -> Result<(), OutOfMemory>
    ensures { OnOk result (causes.new ≡ causes.old ++ below_sso_token error.now depth) }
{
    match error {
        SsoTokenProviderError::BadExpirationTimeFromSsoOidc(seconds) => {
            let words = lifetime(causes.alloc(), *seconds)?;
            causes.tell_text(depth, words)
        }
        SsoTokenProviderError::FailedToLoadToken(error) => tell_cached_token(causes, depth, error),
        SsoTokenProviderError::ExpiredToken => Ok(()),
        SsoTokenProviderError::OutOfMemory => Ok(()),
    }
}

/// Why the file of a token of IAM Identity Center gives none, or takes none.
pub fn tell_cached_token(
    causes: &mut Causes,
    depth: usize,
    error: &CachedSsoTokenError,
) -> Result<(), OutOfMemory>
    ensures { OnOk result (causes.new ≡ causes.old ++ cached_token_lines error.now depth) }
{
    match error {
        CachedSsoTokenError::NoHomeDirectory => {
            causes.tell_detailed(depth, error, "the variable `HOME` cannot be read")
        }
        _ => causes.tell(depth, error),
    }
}

/// Why the instance metadata service gives nothing.
pub fn tell_imds(causes: &mut Causes, depth: usize, error: &ImdsError) -> Result<(), OutOfMemory>
    ensures { OnOk result (causes.new ≡ causes.old ++ imds_lines error.now depth) }
{
    causes.tell(depth, error)?;
    tell_below_imds(causes, depth, error)
}

fn tell_below_imds(causes: &mut Causes, depth: usize, error: &ImdsError) -> Result<(), OutOfMemory>
    ensures { OnOk result (causes.new ≡ causes.old ++ below_imds error.now depth) }
{
    match error {
        ImdsError::FailedToLoadToken(error) => tell_session_token(causes, depth, *error),
        ImdsError::ErrorResponse(_) => Ok(()),
        ImdsError::IoError(kind) => causes.tell(depth, kind),
        ImdsError::Unexpected(cause) => tell_unexpected(causes, depth, cause),
        ImdsError::OutOfMemory => Ok(()),
    }
}

fn tell_unexpected(
    causes: &mut Causes,
    depth: usize,
    cause: &UnexpectedCause,
) -> Result<(), OutOfMemory>
    ensures { OnOk result (causes.new ≡ causes.old ++ unexpected_lines cause.now depth) }
{
    match cause {
        UnexpectedCause::NotUtf8 => causes.tell_words(depth, "the reply is not UTF-8"),
        UnexpectedCause::Dispatch => causes.tell(depth, &FailKind::Dispatch),
        UnexpectedCause::Endpoint(error) => tell_build(causes, depth, error),
        // The listing of roles gave the path's end.
        UnexpectedCause::Path(_) => causes.tell_words(depth, "the path is no path of a URI"),
    }
}

fn tell_build(causes: &mut Causes, depth: usize, error: &BuildError) -> Result<(), OutOfMemory>
    ensures { OnOk result (causes.new ≡ causes.old ++ build_lines error.now depth) }
{
    causes.tell(depth, error)?;
    tell_below_build(causes, depth, error)
}

fn tell_below_build(
    causes: &mut Causes,
    depth: usize,
    error: &BuildError,
) -> Result<(), OutOfMemory>
    ensures { OnOk result (causes.new ≡ causes.old ++ below_build error.now depth) }
{
    match error {
        BuildError::InvalidEndpointMode(error) => causes.tell(depth, error),
        BuildError::InvalidEndpointUri(uri) => { tell_endpoint(causes, depth, uri) }
        BuildError::OutOfMemory => Ok(()),
    }
}
