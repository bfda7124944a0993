//! The token of a start URL.
ghost use Rattle.std.specs.Prelude.{◌≡◌, ◌≢◌, IfOk, codes};
ghost use Rattle.cfg_types.specs.Environment.{variable};
ghost use Rattle.cfg_world.specs.Follows.{Follows};
ghost use Rattle.cfg_sso.specs.Tokens.{url_path as url_path_of, token_in as token_in_of, file_token as file_token_of, of_file as of_file_of, judged as judged_of, by_clock as by_clock_of, url_token as url_token_of};

use cfg_profile::ProviderConfig;
use cfg_token::decision::is_before;
use cfg_token::{CachedSsoToken, cached_sso_token_path, parse_cached_sso_token};
use cfg_types::{
    Bytes, CachedSsoTokenError, CredentialsError, Env, FailKind, Instant, IoStep, OutOfMemory,
    ProviderCause, SsoTokenProviderError, Text, TryCopy,
};
use cfg_world::{Asking, Stop, read_clock, read_file};
use std::alloc::Global;

/// The token in the file that a start URL names, where it has not expired by a reading of the clock behind it. In
/// aws-config its expiry is not looked at.
#[tactic(auto, using(cfg_world::proofs::Inquiries::asking_steps, crate::proofs::QuietSteps::quiet_steps), unfolding(crate::specs::Tokens::url_token))]
pub(crate) fn url_token<A: Asking>(
    alloc: Global,
    config: &ProviderConfig,
    start_url: &Text,
    asking: &mut A,
) -> Result<Result<CachedSsoToken, CredentialsError>, Stop>
    ensures { Follows ⟦<A as Asking>⟧ (url_token_of config.now.environment start_url.now) asking.old asking.new result }
{
    match url_path(alloc, config.env(), start_url)? {
        Ok(path) => {
            let read = file_token(alloc, &path, asking)?;
            by_clock(of_file(read), asking)
        }
        Err(error) => Ok(of_file(Err(error))),
    }
}

fn url_path(
    alloc: Global,
    env: &Env,
    start_url: &Text,
) -> Result<Result<Text, CachedSsoTokenError>, OutOfMemory>
    ensures { IfOk result (λ path. path ≡ url_path_of start_url.now (variable env.now (codes "HOME"))) }
{
    match env.get("HOME") {
        Ok(home) => {
            let path = cached_sso_token_path(alloc, start_url.as_str(), home)?;
            Ok(Ok(path))
        }
        Err(_) => Ok(Err(CachedSsoTokenError::NoHomeDirectory)),
    }
}

// The token that a file holds, or why it holds none.
#[tactic(auto, using(cfg_world::proofs::Inquiries::asking_steps, crate::proofs::QuietSteps::quiet_steps), unfolding(crate::specs::Tokens::file_token))]
fn file_token<A: Asking>(
    alloc: Global,
    file: &Text,
    asking: &mut A,
) -> Result<Result<CachedSsoToken, CachedSsoTokenError>, Stop>
    ensures { Follows ⟦<A as Asking>⟧ (file_token_of file.now) asking.old asking.new result }
{
    let contents = read_file(alloc, file, asking)?;
    let token = token_in(alloc, file, contents)?;
    Ok(token)
}

#[tactic(auto, unfolding(crate::specs::Tokens::token_in))]
fn token_in(
    alloc: Global,
    file: &Text,
    contents: Result<Bytes, FailKind>,
) -> Result<Result<CachedSsoToken, CachedSsoTokenError>, OutOfMemory>
    ensures { IfOk result (λ r. token_in_of file.now contents ≡ r) }
{
    let Ok(bytes) = contents else {
        let path = file.copy(alloc)?;
        return Ok(Err(CachedSsoTokenError::IoError {
            what: IoStep::Read,
            path,
        }));
    };
    match parse_cached_sso_token(alloc, bytes.as_slice()) {
        Ok(token) => Ok(Ok(token)),
        Err(error) => {
            let error = fault(error)?;
            Ok(Err(error))
        }
    }
}

// A fault of the file, unless memory ran out.
fn fault(error: CachedSsoTokenError) -> Result<CachedSsoTokenError, OutOfMemory>
    ensures ok { IfOk result (λ e. e ≡ error) }
    ensures memory { IfOk result (λ e. error ≢ CachedSsoTokenError.OutOfMemory) }
{
    match &error {
        CachedSsoTokenError::OutOfMemory => Err(OutOfMemory),
        _ => Ok(error),
    }
}

// An error of the file is told as such.
#[tactic(auto, unfolding(crate::specs::Tokens::of_file))]
fn of_file(
    read: Result<CachedSsoToken, CachedSsoTokenError>,
) -> Result<CachedSsoToken, CredentialsError>
    ensures { of_file_of read ≡ result }
{
    match read {
        Ok(token) => Ok(token),
        Err(error) => Err(CredentialsError::ProviderError(ProviderCause::SsoFile(error))),
    }
}

// A file's token, by a reading of the clock. Where there is none, nothing is asked.
#[tactic(auto, using(cfg_world::proofs::Inquiries::asking_steps, crate::proofs::QuietSteps::quiet_steps), unfolding(crate::specs::Tokens::by_clock))]
fn by_clock<A: Asking>(
    held: Result<CachedSsoToken, CredentialsError>,
    asking: &mut A,
) -> Result<Result<CachedSsoToken, CredentialsError>, Stop>
    ensures { Follows ⟦<A as Asking>⟧ (by_clock_of held) asking.old asking.new result }
{
    match held {
        Ok(token) => {
            let now = read_clock(asking)?;
            Ok(judged(token, now))
        }
        Err(error) => Ok(Err(error)),
    }
}

// A token that has ended by this reading is refused.
#[tactic(auto, unfolding(crate::specs::Tokens::judged))]
fn judged(token: CachedSsoToken, now: Instant) -> Result<CachedSsoToken, CredentialsError>
    ensures { judged_of token now ≡ result }
{
    if is_before(now, token.expires_at) {
        Ok(token)
    } else {
        let cause = ProviderCause::SsoToken(SsoTokenProviderError::ExpiredToken);
        Err(CredentialsError::ProviderError(cause))
    }
}
