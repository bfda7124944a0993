//! What no clause says: what the errors of members come of, line by line and in one line.
use cfg_error_report::{LineKind, causes_of, token_causes_of};
use cfg_types::imds::{BuildError, FailedToLoadToken, ImdsError, UnexpectedCause};
use cfg_types::{
    Boxed, ConfigCause, CredentialsError, LoginJsonFault, LoginTokenError, NotLoadedCause,
    OutOfMemory, ProfileFileError, ProviderAttempt, ProviderCause, ProviderChainError, RefusalKind,
    Seq, SsoTokenProviderError, Text, TokenCause, TokenError, UnhandledCause,
};
use std::alloc::Global;
use std::test::Fail;

// A loop of two profiles, one with a name beyond ASCII.
fn looped(alloc: Global) -> Result<CredentialsError, OutOfMemory> {
    let mut profiles = Vec::new(alloc);
    profiles.push(Text::of(alloc, "a\"\n")?)?;
    profiles.push(Text::of(alloc, "größe")?)?;
    let next = Text::of(alloc, "A")?;
    let error = ProfileFileError::CredentialLoop {
        profiles: Seq::of(profiles),
        next,
    };
    Ok(CredentialsError::InvalidConfiguration(ConfigCause::Profile(error)))
}

// The token's file of a sign-in session, as what a role's base answered.
fn nested(alloc: Global) -> Result<CredentialsError, OutOfMemory> {
    let fault = LoginTokenError::JsonError(LoginJsonFault::Nested);
    let base = CredentialsError::Unhandled(UnhandledCause::LoginToken(fault));
    Ok(CredentialsError::ProviderError(ProviderCause::Base(Boxed::new(alloc, base)?)))
}

fn metadata(error: ImdsError) -> CredentialsError {
    CredentialsError::ProviderError(ProviderCause::Metadata(error))
}

fn attempt(
    alloc: Global,
    attempts: &mut Vec<ProviderAttempt<CredentialsError>>,
    name: &str,
    error: CredentialsError,
) -> Result<(), OutOfMemory> {
    attempts.push(ProviderAttempt::new(Text::of(alloc, name)?, error))?;
    Ok(())
}

fn chain_of(attempts: Vec<ProviderAttempt<CredentialsError>>) -> CredentialsError {
    let chain = ProviderChainError::new(Seq::of(attempts));
    CredentialsError::CredentialsNotLoaded(NotLoadedCause::Chain(chain))
}

// A chain whose first member was a chain.
fn chain(alloc: Global) -> Result<CredentialsError, OutOfMemory> {
    let lifetime = SsoTokenProviderError::BadExpirationTimeFromSsoOidc(-1);
    let lifetime = CredentialsError::ProviderError(ProviderCause::SsoToken(lifetime));
    let refused = ConfigCause::AssumeRole(RefusalKind::RegionDisabled);
    let mut inner = Vec::new(alloc);
    attempt(alloc, &mut inner, "Loop", looped(alloc)?)?;
    attempt(alloc, &mut inner, "Base", nested(alloc)?)?;
    attempt(alloc, &mut inner, "Lifetime", lifetime)?;
    let refused = CredentialsError::InvalidConfiguration(refused);
    attempt(alloc, &mut inner, "Role", refused)?;
    let endpoint = BuildError::InvalidEndpointUri(Text::of(alloc, "t")?);
    let endpoint = metadata(ImdsError::Unexpected(UnexpectedCause::Endpoint(endpoint)));
    let token = FailedToLoadToken::Token(cfg_types::imds::TokenError::NoTtl);
    let mut outer = Vec::new(alloc);
    attempt(alloc, &mut outer, "Default", chain_of(inner))?;
    attempt(alloc, &mut outer, "Endpoint", endpoint)?;
    attempt(
        alloc,
        &mut outer,
        "Token",
        metadata(ImdsError::FailedToLoadToken(token)),
    )?;
    Ok(chain_of(outer))
}

fn mark(kind: LineKind) -> &'static str {
    match kind {
        LineKind::Cause => "",
        LineKind::Detail => "+",
        LineKind::Member => "-",
    }
}

// Each line behind its depth, `-` before the name of a member, and `+` before a detail.
const CHAIN: &str = "\
0 not loaded
0 no credentials found in chain
1- Default
2 not loaded
2 no credentials found in chain
3- Loop
4 invalid configuration
4 profile formed an infinite loop. first we loaded [\"a\\\"\\n\", \"größe\"], then attempted to reload A
3- Base
4 provider error
4+ the base gave no credentials
4 unhandled error
4 invalid JSON in cached Login token file
4 the member `accessToken` has an object among its members
3- Lifetime
4 provider error
4 SSO OIDC responded with a negative expiration duration
4 the lifetime is -1 seconds
3- Role
4 invalid configuration
4 the call of AssumeRole is refused
4 the region is disabled
1- Endpoint
2 provider error
2 an unexpected error occurred communicating with IMDS
2 failed to build IMDS client: invalid URI
2 `t` is no URI with a scheme and a host
2+ the scheme is missing
1- Token
2 provider error
2 failed to load IMDS session token
2 token response did not contain a TTL header
";

#[test]
fn lines_of_a_chain(rt: HostRuntime) -> Result<(), Fail> {
    let causes = causes_of(rt.alloc(), &chain(rt.alloc())?)?;
    let mut told = String::new(rt.alloc());
    for line in causes.lines() {
        let mark = mark(line.kind());
        let shown = format!(in rt.alloc(); "{}{mark} {}\n", line.depth(), line.text())?;
        told.push_str(shown.as_str())?;
    }
    assert_eq!(rt; told.as_str(), CHAIN);
    Ok(())
}

#[test]
fn a_token_in_one_line(rt: HostRuntime) -> Result<(), Fail> {
    let alloc = rt.alloc();
    let mut attempts = Vec::new(alloc);
    let none = TokenError::TokenNotLoaded(TokenCause::NoSession);
    attempts.push(ProviderAttempt::new(Text::of(alloc, "Profile")?, none))?;
    attempts.push(ProviderAttempt::new(Text::of(alloc, "Own")?, TokenError::ProviderTimedOut))?;
    let chain = TokenCause::Chain(ProviderChainError::new(Seq::of(attempts)));
    let causes = token_causes_of(alloc, &TokenError::TokenNotLoaded(chain))?;
    let words = format!(in alloc; "{causes}")?;
    assert_eq!(rt;
        words.as_str(),
        "not loaded: no credentials found in chain; Profile: not loaded: no sso-session configured in profile file; Own: provider timed out"
    );
    Ok(())
}
