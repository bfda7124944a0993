//! What a profile is asked: its base, and then its roles.
ghost use Rattle.std.specs.Prelude.{◌≡◌, IfOk};
ghost use Rattle.cfg_world.specs.Follows.{Follows};
ghost use Rattle.cfg_profile.specs.Settings.{settings_of};
ghost use Rattle.cfg_providers.specs.AssumeRole.{assumes_roles};
ghost use Rattle.cfg_sso.specs.Tokens.{HasKey};
ghost use Rattle.cfg_chain.specs.Follows.{FollowsTree};
ghost use Rattle.cfg_chain.specs.Settled.{IsSettled};
ghost use Rattle.cfg_chain.specs.Views.{view};
ghost use Rattle.cfg_chain.specs.profile.Plans.{key_of_base, key_of};
ghost use Rattle.cfg_chain.specs.profile.Profiles.{by_profile, marked as marked_of, assumed, follows_planned, profile};

use crate::call::ChainCall;
use crate::profile::base::follow_based;
use crate::profile::plan::{plan_of, refusal};
use cfg_kept::Keeper;
use cfg_profile::{ProfileChain, RoleArn, call_settings};
use cfg_providers::steps::{follow_role_chain, names_of};
use cfg_types::{AwsCredentialFeature, Credentials, CredentialsError, OutOfMemory};
use cfg_world::{Asking, Halt, Stop};

/// Asks the base of the selected profile, assumes its roles, and answers the last one's credentials, or the
/// error of the plan, of the base or of the exchange. It stops with `Open` at a question that is left open, and
/// with `OutOfMemory` where memory runs out.
pub fn follow_profile<P: Keeper, A: Asking>(
    call: &ChainCall,
    keeper: &mut P,
    asking: &mut A,
) -> Result<Result<Credentials, CredentialsError>, Stop>
    requires settled { IsSettled call.now.config.now call.now.settled.now }
    requires key { HasKey (key_of call.now.config.now) (P.key_held keeper.old) }
    ensures follows { FollowsTree ⟦<A as Asking>⟧ ⟦<P as Keeper>⟧ (profile (view value repeated call.now)) asking.old asking.new keeper.old keeper.new result }
    ensures key { P.key_held keeper.new ≡ P.key_held keeper.old }
{
    match &call.settled.plan {
        Some(plan) => follow_plan(call, plan, keeper, asking),
        None => follow_unsettled(call, keeper, asking),
    }
}

// The same, by the plan as it is made now: it needs a source of the caller's own, or there is none.
#[tactic(auto, using(cfg_kept::proofs::HoldingSteps::holding_steps), unfolding(crate::specs::profile::Profiles::profile))]
fn follow_unsettled<P: Keeper, A: Asking>(
    call: &ChainCall,
    keeper: &mut P,
    asking: &mut A,
) -> Result<Result<Credentials, CredentialsError>, Stop>
    requires { HasKey (key_of call.now.config.now) (P.key_held keeper.old) }
    ensures follows { FollowsTree ⟦<A as Asking>⟧ ⟦<P as Keeper>⟧ (profile (view value repeated call.now)) asking.old asking.new keeper.old keeper.new result }
    ensures key { P.key_held keeper.new ≡ P.key_held keeper.old }
{
    let names = names_of(call.alloc, call.custom_sources)?;
    match plan_of(call.alloc, call.config, names.as_slice()) {
        Ok(plan) => follow_plan(call, &plan, keeper, asking),
        Err(Halt::Refused(error)) => Ok(Err(refusal(error))),
        Err(Halt::Stopped(_)) => Err(Stop::OutOfMemory),
    }
}

#[tactic(auto, using(cfg_kept::proofs::HoldingSteps::holding_steps), unfolding(crate::specs::profile::Profiles::follows_planned))]
fn follow_plan<P: Keeper, A: Asking>(
    call: &ChainCall,
    plan: &ProfileChain,
    keeper: &mut P,
    asking: &mut A,
) -> Result<Result<Credentials, CredentialsError>, Stop>
    requires { HasKey (key_of_base plan.now.base) (P.key_held keeper.old) }
    ensures follows { FollowsTree ⟦<A as Asking>⟧ ⟦<P as Keeper>⟧ (follows_planned (view value repeated call.now) plan.now)
        asking.old asking.new keeper.old keeper.new result }
    ensures key { P.key_held keeper.new ≡ P.key_held keeper.old }
{
    let keys = match follow_based(call, &plan.base, keeper, asking)? {
        Ok(keys) => keys,
        Err(error) => return Ok(Err(error)),
    };
    let outcome = follow_roles(call, plan.roles.as_slice(), keys, asking)?;
    Ok(outcome)
}

// The credentials of the last of these roles, marked.
#[tactic(auto, using(cfg_world::proofs::Inquiries::asking_steps, cfg_providers::proofs::QuietSteps::quiet_steps), unfolding(crate::specs::profile::Profiles::assumed))]
fn follow_roles<A: Asking>(
    call: &ChainCall,
    roles: &[RoleArn],
    keys: Credentials,
    asking: &mut A,
) -> Result<Result<Credentials, CredentialsError>, Stop>
    ensures { Follows ⟦<A as Asking>⟧ (assumed call.now.config.now roles.now keys) asking.old asking.new result }
{
    let last = assume(call, roles, keys, asking)?;
    let outcome = marked(last)?;
    Ok(outcome)
}

// The roles, by calls that are sent as the configuration says.
#[tactic(auto, using(cfg_world::proofs::Inquiries::asking_steps))]
fn assume<A: Asking>(
    call: &ChainCall,
    roles: &[RoleArn],
    keys: Credentials,
    asking: &mut A,
) -> Result<Result<Credentials, CredentialsError>, Stop>
    ensures { Follows ⟦<A as Asking>⟧ (assumes_roles (settings_of call.now.config.now) roles.now keys) asking.old asking.new result }
{
    let settings = call_settings(call.alloc, call.config)?;
    follow_role_chain(call.alloc, keys, roles, &settings, asking)
}

/// The outcome of a profile: its credentials, marked as such, or the error as it is. `OutOfMemory` where memory runs out.
#[tactic(auto, unfolding(crate::specs::profile::Profiles::marked))]
pub fn marked(
    outcome: Result<Credentials, CredentialsError>,
) -> Result<Result<Credentials, CredentialsError>, OutOfMemory>
    ensures { IfOk result (λ r. marked_of outcome ≡ r) }
{
    match outcome {
        Ok(credentials) => Ok(Ok(mark(credentials)?)),
        Err(error) => Ok(Err(error)),
    }
}

fn mark(credentials: Credentials) -> Result<Credentials, OutOfMemory>
    ensures { IfOk result (λ c. c ≡ by_profile credentials) }
{
    let mut credentials = credentials;
    credentials.add_feature(AwsCredentialFeature::CredentialsProfile)?;
    Ok(credentials)
}
