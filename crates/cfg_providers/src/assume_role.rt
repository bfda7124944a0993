//! Roles that are assumed one after another.
ghost use Rattle.std.specs.Prelude.{◌≡◌, IfOk, true, false};
ghost use Rattle.cfg_types.specs.Classes.{is_memory};
ghost use Rattle.cfg_world.specs.Follows.{Follows};
ghost use Rattle.cfg_providers.specs.AssumeRole.{request as request_of, granted as granted_of, in_role, assumes, assumes_roles};
ghost use Rattle.cfg_providers.specs.Provides.{Provides, Interrupted};
ghost use Rattle.cfg_providers.specs.RoleCauses.{why_roles};

use crate::session_name::session_name;
use crate::sts::credentials_of;
use cfg_profile::RoleArn;
use cfg_types::{
    AssumeRole, Boxed, CallSettings, Credentials, CredentialsError, OutOfMemory, ProviderCause,
    StsReply, Text, TryCopy, copy_option,
};
use cfg_world::{Asking, Devices, NotGranted, Stop, World, leaves};
use std::alloc::Global;

/// Assumes these roles in order, the first with the base, each later one with the credentials of the one
/// before, and answers the last one's credentials; without roles the base. Each role is one `AssumeRole`,
/// sent by these settings; before one without a name for its session the clock is read, and the name is
/// `assume-role-from-profile-` and the milliseconds. The first exchange that fails ends it.
///
/// # Errors
///
/// - `ProviderError(Role)` around `ProviderError(Sent)`, where the request failed, around
///   `ProviderError(Refused)`, where it was refused, around `Unhandled(StsNoCredentials)`, where the reply
///   has no credentials, or around `Unhandled(StsArn)`, where its ARN has fewer than five parts.
/// - `OutOfMemory` where memory runs out. The journal then has gained the beginning of such a part.
pub fn assume_roles<D: Devices>(
    alloc: Global,
    base: Credentials,
    roles: &[RoleArn],
    settings: &CallSettings,
    world: &mut World<D>,
) -> Result<Credentials, CredentialsError>
    ensures provides { is_memory result ≡ false → Provides ⟦<D as Devices>⟧ (assumes_roles settings.now roles.now base) why_roles world.old world.new result }
    ensures stays { is_memory result ≡ true → Interrupted ⟦<D as Devices>⟧ (assumes_roles settings.now roles.now base) world.old world.new }
{
    match follow_role_chain(alloc, base, roles, settings, world) {
        Ok(outcome) => outcome,
        Err(_) => Err(CredentialsError::OutOfMemory),
    }
}

/// The body of [`assume_roles`], over anything that can be asked. Memory that runs out is a stop.
#[tactic(auto, using(crate::proofs::RoleSteps::role_steps))]
pub fn follow_role_chain<A: Asking>(
    alloc: Global,
    base: Credentials,
    roles: &[RoleArn],
    settings: &CallSettings,
    asking: &mut A,
) -> Result<Result<Credentials, CredentialsError>, Stop>
    ensures { Follows ⟦<A as Asking>⟧ (assumes_roles settings.now roles.now base) asking.old asking.new result }
{
    let mut signer = base;
    for role in roles {
        match assume_role(alloc, signer, role, settings, asking)? {
            Ok(credentials) => signer = credentials,
            Err(error) => return Ok(Err(error)),
        }
    }
    Ok(Ok(signer))
}

// One role: a name for its session, and one exchange.
#[tactic(auto, using(cfg_world::proofs::Inquiries::asking_steps), unfolding(crate::specs::AssumeRole::assumes))]
fn assume_role<A: Asking>(
    alloc: Global,
    signer: Credentials,
    role: &RoleArn,
    settings: &CallSettings,
    asking: &mut A,
) -> Result<Result<Credentials, CredentialsError>, Stop>
    ensures { Follows ⟦<A as Asking>⟧ (assumes settings.now signer role.now) asking.old asking.new result }
{
    let name = session_name(
        alloc,
        "assume-role-from-profile",
        &role.session_name,
        asking,
    )?;
    let request = request(alloc, signer, role, name, settings)?;
    let answer = leaves::assume_role(alloc, request, asking)?;
    let answer = granted(alloc, answer)?;
    let outcome = or_role_error(alloc, answer)?;
    Ok(outcome)
}

fn request(
    alloc: Global,
    signer: Credentials,
    role: &RoleArn,
    session_name: Text,
    settings: &CallSettings,
) -> Result<AssumeRole, OutOfMemory>
    ensures { IfOk result (λ r. r ≡ request_of settings.now role.now signer session_name) }
{
    let role_arn = role.role_arn.copy(alloc)?;
    let external_id = copy_option(alloc, &role.external_id)?;
    let settings = settings.copy(alloc)?;
    Ok(AssumeRole {
        signer,
        role_arn,
        session_name,
        external_id,
        policy: None,
        policy_arns: None,
        duration_seconds: None,
        tags: None,
        settings,
    })
}

// What a reply gives, or why it gives nothing.
fn granted(
    alloc: Global,
    answer: Result<StsReply, NotGranted>,
) -> Result<Result<Credentials, CredentialsError>, OutOfMemory>
    ensures { IfOk result (λ r. r ≡ granted_of answer) }
{
    match answer {
        Ok(reply) => credentials_of(alloc, reply, "AssumeRoleProvider"),
        Err(NotGranted::Refused(refusal)) => {
            let cause = ProviderCause::Refused(refusal);
            Ok(Err(CredentialsError::ProviderError(cause)))
        }
        Err(NotGranted::Failed(kind)) => {
            Ok(Err(CredentialsError::ProviderError(ProviderCause::Sent(kind))))
        }
    }
}

// An error of a role's exchange is told as such, whatever it is: aws-config wraps each alike.
fn or_role_error(
    alloc: Global,
    answer: Result<Credentials, CredentialsError>,
) -> Result<Result<Credentials, CredentialsError>, OutOfMemory>
    ensures { IfOk result (λ r. r ≡ in_role answer) }
{
    match answer {
        Ok(credentials) => Ok(Ok(credentials)),
        Err(error) => {
            let error = Boxed::new(alloc, error)?;
            Ok(Err(CredentialsError::ProviderError(ProviderCause::Role(error))))
        }
    }
}
