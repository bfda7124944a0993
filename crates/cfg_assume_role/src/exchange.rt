//! One exchange for a role's session.
ghost use Rattle.std.specs.Prelude.{◌≡◌, IfOk};
ghost use Rattle.cfg_world.specs.Follows.{Follows};
ghost use Rattle.cfg_world.specs.Leaves.{assuming};
ghost use Rattle.cfg_assume_role.specs.Roles.{request as request_of, by_role, refused as refused_of, granted as granted_of, exchange, of_base, behind_base as behind_base_of};

use crate::call::RoleCall;
use cfg_profile::call_settings;
use cfg_providers::steps::reply_credentials;
use cfg_types::{
    AssumeRole, AwsCredentialFeature, Boxed, ConfigCause, Credentials, CredentialsError,
    OutOfMemory, ProviderCause, Refusal, RefusalKind, StsReply, TryCopy, copy_option,
};
use cfg_world::{Asking, NotGranted, Stop, leaves};
use std::alloc::Global;

/// The exchange that the base's credentials sign. Where the base gave an error, it is `ProviderError(Base)` around
/// that error, and nothing is sent.
#[tactic(auto, using(cfg_providers::proofs::QuietSteps::quiet_steps), unfolding(crate::specs::Roles::behind_base))]
pub(crate) fn behind_base<A: Asking>(
    alloc: Global,
    call: &RoleCall,
    given: Result<Credentials, CredentialsError>,
    asking: &mut A,
) -> Result<Result<Credentials, CredentialsError>, Stop>
    ensures { Follows ⟦<A as Asking>⟧ (behind_base_of call.now given) asking.old asking.new result }
{
    match given {
        Ok(signer) => assume(alloc, call, signer, asking),
        Err(error) => {
            let error = in_base(alloc, error)?;
            Ok(Err(error))
        }
    }
}

fn in_base(alloc: Global, error: CredentialsError) -> Result<CredentialsError, OutOfMemory>
    ensures { IfOk result (λ e. of_base error ≡ e) }
{
    let error = Boxed::new(alloc, error)?;
    Ok(CredentialsError::ProviderError(ProviderCause::Base(error)))
}

// One request, and what its reply gives.
#[tactic(auto, using(cfg_world::proofs::Inquiries::asking_steps, cfg_providers::proofs::QuietSteps::quiet_steps), unfolding(crate::specs::Roles::exchange))]
fn assume<A: Asking>(
    alloc: Global,
    call: &RoleCall,
    signer: Credentials,
    asking: &mut A,
) -> Result<Result<Credentials, CredentialsError>, Stop>
    ensures { Follows ⟦<A as Asking>⟧ (exchange call.now signer) asking.old asking.new result }
{
    let answer = send(alloc, call, signer, asking)?;
    let outcome = granted(alloc, answer)?;
    Ok(outcome)
}

#[tactic(auto, using(cfg_world::proofs::Inquiries::asking_steps))]
fn send<A: Asking>(
    alloc: Global,
    call: &RoleCall,
    signer: Credentials,
    asking: &mut A,
) -> Result<Result<StsReply, NotGranted>, Stop>
    ensures { Follows ⟦<A as Asking>⟧ (assuming (request_of call.now signer)) asking.old asking.new result }
{
    let request = request(alloc, call, signer)?;
    leaves::assume_role(alloc, request, asking)
}

fn request(alloc: Global, call: &RoleCall, signer: Credentials) -> Result<AssumeRole, OutOfMemory>
    ensures { IfOk result (λ r. r ≡ request_of call.now signer) }
{
    let role_arn = call.session.role_arn.copy(alloc)?;
    let session_name = call.session_name.copy(alloc)?;
    let external_id = copy_option(alloc, &call.session.external_id)?;
    let policy = copy_option(alloc, &call.session.policy)?;
    let policy_arns = copy_option(alloc, &call.session.policy_arns)?;
    let tags = copy_option(alloc, &call.session.tags)?;
    let settings = call_settings(alloc, &call.config)?;
    Ok(AssumeRole {
        signer,
        role_arn,
        session_name,
        external_id,
        policy,
        policy_arns,
        duration_seconds: call.session.duration_seconds,
        tags,
        settings,
    })
}

// What a reply gives, or why it gives nothing.
#[tactic(auto, unfolding(crate::specs::Roles::granted))]
fn granted(
    alloc: Global,
    answer: Result<StsReply, NotGranted>,
) -> Result<Result<Credentials, CredentialsError>, OutOfMemory>
    ensures { IfOk result (λ r. granted_of answer ≡ r) }
{
    match answer {
        Ok(reply) => match reply_credentials(alloc, &reply, "AssumeRoleProvider")? {
            Ok(credentials) => Ok(Ok(mark(credentials)?)),
            Err(error) => Ok(Err(error)),
        },
        Err(NotGranted::Refused(refusal)) => Ok(Err(refused(refusal))),
        Err(NotGranted::Failed(kind)) => {
            Ok(Err(CredentialsError::ProviderError(ProviderCause::Sent(kind))))
        }
    }
}

// What a refusal is told as.
fn refused(refusal: Refusal) -> CredentialsError
    ensures { result ≡ refused_of refusal }
{
    match refusal.kind {
        RefusalKind::RegionDisabled | RefusalKind::MalformedPolicyDocument => {
            CredentialsError::InvalidConfiguration(ConfigCause::AssumeRole(refusal.kind))
        }
        _ => CredentialsError::ProviderError(ProviderCause::Refused(refusal)),
    }
}

// Credentials of a role, marked as such.
fn mark(credentials: Credentials) -> Result<Credentials, OutOfMemory>
    ensures { IfOk result (λ c. c ≡ by_role credentials) }
{
    let mut credentials = credentials;
    credentials.add_feature(AwsCredentialFeature::CredentialsStsAssumeRole)?;
    Ok(credentials)
}
