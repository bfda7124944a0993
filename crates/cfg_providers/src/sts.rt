//! Credentials in the replies of AWS STS.
ghost use Rattle.std.specs.Prelude.{◌≡◌, IfOk, option_map};
ghost use Rattle.cfg_base.specs.Gives.{Gives};
ghost use Rattle.cfg_base.specs.Text.{characters};
ghost use Rattle.cfg_types.specs.declared.errors.CredentialsError.TheVariants.{OutOfMemory as memory};
ghost use Rattle.cfg_providers.specs.Sts.{parsed_account, behind_colon as behind, before_colon as before, fifth_part as fifth_part_of, account_of as reply_account, into_credentials as credentials_in};

use cfg_types::{
    AccountId, Credentials, CredentialsBuilder, CredentialsError, OutOfMemory, StsCredentials,
    StsReply, Text, TryCopy, UnhandledCause,
};
use std::alloc::Global;

/// The credentials of a reply, with its expiry, from the provider of this name. The account is the fifth
/// part of the reply's ARN, and none where the reply has no ARN.
///
/// # Errors
///
/// `Unhandled(StsNoCredentials)`: the reply has no credentials. `Unhandled(StsArn)` with the ARN: it has
/// credentials, and an ARN of fewer than five parts. `OutOfMemory` where memory runs out.
pub fn into_credentials(
    alloc: Global,
    reply: &StsReply,
    provider_name: &str,
) -> Result<Credentials, CredentialsError>
    ensures { Gives memory result (λ answer. answer ≡ credentials_in reply.now (characters provider_name.now)) }
{
    reply_credentials(alloc, reply, provider_name)?
}

/// The same as [`into_credentials`], with the errors of the reply apart from `OutOfMemory`.
pub fn reply_credentials(
    alloc: Global,
    reply: &StsReply,
    provider_name: &str,
) -> Result<Result<Credentials, CredentialsError>, OutOfMemory>
    ensures { IfOk result (λ r. r ≡ credentials_in reply.now (characters provider_name.now)) }
{
    credentials_of(alloc, reply.copy(alloc)?, provider_name)
}

/// The same as [`reply_credentials`], of a reply whose texts are the credentials' own from then on.
#[tactic(auto, unfolding(crate::specs::Sts::into_credentials))]
pub(crate) fn credentials_of(
    alloc: Global,
    reply: StsReply,
    provider_name: &str,
) -> Result<Result<Credentials, CredentialsError>, OutOfMemory>
    ensures { IfOk result (λ r. r ≡ credentials_in reply (characters provider_name.now)) }
{
    let StsReply { credentials, arn } = reply;
    let Some(keys) = credentials else {
        let cause = UnhandledCause::StsNoCredentials;
        return Ok(Err(CredentialsError::Unhandled(cause)));
    };
    let account = match account_of(alloc, &arn)? {
        Ok(account) => account,
        Err(cause) => return Ok(Err(CredentialsError::Unhandled(cause))),
    };
    let StsCredentials {
        access_key_id: id,
        secret_access_key: secret,
        session_token: token,
        expiration,
    } = keys;
    let mut builder = CredentialsBuilder::of_keys(alloc, id, secret, provider_name)?;
    builder
        .set_session_token(Some(token))
        .set_expiry(Some(expiration))
        .set_account_id(account);
    Ok(Ok(builder.build()?))
}

fn account_of(
    alloc: Global,
    arn: &Option<Text>,
) -> Result<Result<Option<AccountId>, UnhandledCause>, OutOfMemory>
    ensures { IfOk result (λ r. r ≡ reply_account arn.now) }
{
    let Some(arn) = arn else {
        return Ok(Ok(None));
    };
    if let Some(account) = fifth_part(arn.as_str()) {
        let account = AccountId::new(alloc, account)?;
        return Ok(Ok(Some(account)));
    }
    Ok(Err(UnhandledCause::StsArn(arn.copy(alloc)?)))
}

/// The account that an ARN names: its fifth part, cut at each `:`, as in
/// `arn:PARTITION:SERVICE:REGION:ACCOUNT:RESOURCE` of AWS's documentation on Amazon Resource Names.
///
/// # Errors
///
/// `Unhandled(StsArn)` with the ARN, exactly where it has fewer than five parts. `OutOfMemory` where
/// memory runs out.
pub fn parse_account_id(alloc: Global, arn: &str) -> Result<AccountId, CredentialsError>
    ensures { Gives memory result (λ answer. answer ≡ parsed_account arn.now) }
{
    match fifth_part(arn) {
        Some(account) => Ok(AccountId::new(alloc, account)?),
        None => {
            let arn = Text::of(alloc, arn)?;
            Err(CredentialsError::Unhandled(UnhandledCause::StsArn(arn)))
        }
    }
}

// The fifth part of an ARN, cut at each `:`.
fn fifth_part(arn: &str) -> Option<&str>
    ensures { option_map (λ p. p.now) result ≡ fifth_part_of arn.now }
{
    let rest = behind_colon(arn)?;
    let rest = behind_colon(rest)?;
    let rest = behind_colon(rest)?;
    let rest = behind_colon(rest)?;
    Some(before_colon(rest))
}

fn behind_colon(text: &str) -> Option<&str>
    ensures { option_map (λ p. p.now) result ≡ behind text.now }
{
    match text.split_once(':') {
        Some((_, rest)) => Some(rest),
        None => None,
    }
}

fn before_colon(text: &str) -> &str
    ensures { result.now ≡ before text.now }
{
    match text.split_once(':') {
        Some((first, _)) => first,
        None => text,
    }
}
