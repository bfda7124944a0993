//! One request for the credentials of a role.
ghost use Rattle.std.specs.Prelude.{◌≡◌, ◌<◌, IfOk};
ghost use Rattle.cfg_world.specs.Follows.{Follows};
ghost use Rattle.cfg_world.specs.Leaves.{getting_role_credentials};
ghost use Rattle.cfg_sso.specs.RoleKeys.{moment_at as moment_at_of, role_keys as role_keys_of, role_answer as role_answer_of, request as request_of, exchange as exchange_of, by_sign_on};

use crate::config::SsoProviderConfig;
use cfg_profile::{ProviderConfig, call_settings};
use cfg_token::CachedSsoToken;
use cfg_types::{
    AccountId, AwsCredentialFeature, Credentials, CredentialsBuilder, CredentialsError,
    GetRoleCredentials, Instant, OutOfMemory, ProviderCause, RoleReply, Text, TryCopy,
    UnhandledCause,
};
use cfg_world::{Asking, NotGranted, Stop, leaves};
use std::alloc::Global;

/// One request with this token, and what its reply gives.
#[tactic(auto, using(cfg_world::proofs::Inquiries::asking_steps, crate::proofs::QuietSteps::quiet_steps), unfolding(crate::specs::RoleKeys::exchange))]
pub(crate) fn exchange<A: Asking>(
    alloc: Global,
    config: &ProviderConfig,
    sso: &SsoProviderConfig,
    token: &CachedSsoToken,
    asking: &mut A,
) -> Result<Result<Credentials, CredentialsError>, Stop>
    ensures { Follows ⟦<A as Asking>⟧ (exchange_of config.now sso.now token.now) asking.old asking.new result }
{
    let answer = send(alloc, config, sso, token, asking)?;
    let outcome = role_answer(alloc, &sso.account_id, answer)?;
    Ok(outcome)
}

#[tactic(auto, using(cfg_world::proofs::Inquiries::asking_steps))]
fn send<A: Asking>(
    alloc: Global,
    config: &ProviderConfig,
    sso: &SsoProviderConfig,
    token: &CachedSsoToken,
    asking: &mut A,
) -> Result<Result<RoleReply, NotGranted>, Stop>
    ensures { Follows ⟦<A as Asking>⟧ (getting_role_credentials (request_of config.now sso.now token.now)) asking.old asking.new result }
{
    let request = request(alloc, config, sso, token)?;
    leaves::get_role_credentials(alloc, request, asking)
}

fn request(
    alloc: Global,
    config: &ProviderConfig,
    sso: &SsoProviderConfig,
    token: &CachedSsoToken,
) -> Result<GetRoleCredentials, OutOfMemory>
    ensures { IfOk result (λ r. r ≡ request_of config.now sso.now token.now) }
{
    let role_name = sso.role_name.copy(alloc)?;
    let account_id = sso.account_id.copy(alloc)?;
    let access_token = token.access_token.copy(alloc)?;
    let settings = call_settings(alloc, config)?.in_region(alloc, &sso.region)?;
    Ok(GetRoleCredentials {
        role_name,
        account_id,
        access_token,
        settings,
    })
}

// What an answer gives, or why it gives nothing.
#[tactic(auto, unfolding(crate::specs::RoleKeys::role_answer))]
fn role_answer(
    alloc: Global,
    account: &Text,
    answer: Result<RoleReply, NotGranted>,
) -> Result<Result<Credentials, CredentialsError>, OutOfMemory>
    ensures { IfOk result (λ r. role_answer_of account.now answer ≡ r) }
{
    match answer {
        Ok(reply) => match role_keys(alloc, account, reply)? {
            Ok(credentials) => Ok(Ok(credentials)),
            Err(cause) => Ok(Err(CredentialsError::Unhandled(cause))),
        },
        Err(NotGranted::Refused(refusal)) => {
            let cause = ProviderCause::Refused(refusal);
            Ok(Err(CredentialsError::ProviderError(cause)))
        }
        Err(NotGranted::Failed(kind)) => {
            Ok(Err(CredentialsError::ProviderError(ProviderCause::Sent(kind))))
        }
    }
}

// The credentials of a reply, for this account.
#[tactic(auto, unfolding(crate::specs::RoleKeys::role_keys))]
fn role_keys(
    alloc: Global,
    account: &Text,
    reply: RoleReply,
) -> Result<Result<Credentials, UnhandledCause>, OutOfMemory>
    ensures { IfOk result (λ r. r ≡ role_keys_of account.now reply) }
{
    let Some(given) = reply.credentials else {
        return Ok(Err(UnhandledCause::SsoNoCredentials));
    };
    let (id, secret, token, expiration_ms) = given.into_parts();
    let Some(id) = id else {
        return Ok(Err(UnhandledCause::SsoNoAccessKey));
    };
    let Some(secret) = secret else {
        return Ok(Err(UnhandledCause::SsoNoSecretKey));
    };
    let account = AccountId::new(alloc, account.as_str())?;
    let mut builder = CredentialsBuilder::of_keys(alloc, id, secret, "SSO")?;
    builder
        .set_session_token(token)
        .set_expiry(Some(moment_at(expiration_ms)))
        .set_account_id(Some(account));
    let credentials = mark(builder.build()?)?;
    Ok(Ok(credentials))
}

// Credentials of IAM Identity Center, marked as such.
fn mark(credentials: Credentials) -> Result<Credentials, OutOfMemory>
    ensures { IfOk result (λ c. c ≡ by_sign_on credentials) }
{
    let mut credentials = credentials;
    credentials.add_feature(AwsCredentialFeature::CredentialsSso)?;
    Ok(credentials)
}

// So many milliseconds after the epoch, cut downwards: the nanoseconds of a moment are never below 0.
fn moment_at(millis: i64) -> Instant
    ensures { result ≡ moment_at_of millis }
{
    let seconds = millis.div_euclid(1000);
    match Instant::new(seconds, nanos_at(millis)) {
        Some(moment) => moment,
        None => unreachable!(),
    }
}

fn nanos_at(millis: i64) -> u32
    ensures value { result ≡ (moment_at_of millis).nanos }
    ensures below { result < 1000000000 }
{
    let rest = millis.rem_euclid(1000);
    rest as u32 * 1_000_000
}
