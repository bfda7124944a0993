//! The members of the default chain.
ghost use Rattle.std.specs.Prelude.{◌≡◌};
ghost use Rattle.cfg_base.specs.Text.{characters};
ghost use Rattle.cfg_sso.specs.Tokens.{HasKey};
ghost use Rattle.cfg_chain.specs.Follows.{FollowsTree};
ghost use Rattle.cfg_chain.specs.Settled.{IsSettled};
ghost use Rattle.cfg_chain.specs.Views.{view};
ghost use Rattle.cfg_chain.specs.Members.{name_of, member_tree};
ghost use Rattle.cfg_chain.specs.profile.Plans.{key_of};

use crate::call::ChainCall;
use crate::profile::base::{ask_chain_metadata, ask_container};
use crate::profile::provider::follow_profile;
use cfg_kept::Keeper;
use cfg_providers::steps::{SessionPolicies, follow_environment, web_identity};
use cfg_types::{Credentials, CredentialsError};
use cfg_world::{Asking, Stop};

/// A member of the default chain.
#[derive(Clone, Copy, Debug, PartialEq, Eq)]
pub enum Member {
    /// The environment's variables.
    Environment,
    /// The selected profile.
    Profile,
    /// A web identity, by the file and the role that the variables name.
    WebIdentityToken,
    /// A container, at the address that the variables name.
    EcsContainer,
    /// The role of a machine, by its instance metadata service.
    Ec2InstanceMetadata,
}

impl Member {
    /// The name under which the chain tells of the member.
    pub fn name(self) -> &'static str
        ensures { characters result.now ≡ name_of self }
    {
        match self {
            Member::Environment => "Environment",
            Member::Profile => "Profile",
            Member::WebIdentityToken => "WebIdentityToken",
            Member::EcsContainer => "EcsContainer",
            Member::Ec2InstanceMetadata => "Ec2InstanceMetadata",
        }
    }
}

/// Asks what the member asks, and answers what it gives or its error. It stops with `Open` at a question that is
/// left open, and with `OutOfMemory` where memory runs out.
#[tactic(auto, using(cfg_kept::proofs::HoldingSteps::holding_steps), unfolding(crate::specs::Members::member_tree))]
pub fn follow_member<P: Keeper, A: Asking>(
    call: &ChainCall,
    member: Member,
    keeper: &mut P,
    asking: &mut A,
) -> Result<Result<Credentials, CredentialsError>, Stop>
    requires settled { IsSettled call.now.config.now call.now.settled.now }
    requires key { HasKey (key_of call.now.config.now) (P.key_held keeper.old) }
    ensures follows { FollowsTree ⟦<A as Asking>⟧ ⟦<P as Keeper>⟧ (member_tree (view value repeated call.now) member)
        asking.old asking.new keeper.old keeper.new result }
    ensures key { P.key_held keeper.new ≡ P.key_held keeper.old }
{
    match member {
        Member::Environment => {
            let outcome = follow_environment(call.alloc, call.config.env(), asking)?;
            Ok(outcome)
        }
        Member::Profile => follow_profile(call, keeper, asking),
        Member::WebIdentityToken => {
            let none = SessionPolicies::none();
            let outcome = web_identity(call.alloc, call.config, &None, &none, asking)?;
            Ok(outcome)
        }
        Member::EcsContainer => {
            let outcome = ask_container(call, asking)?;
            Ok(outcome)
        }
        Member::Ec2InstanceMetadata => ask_chain_metadata(call, keeper, asking),
    }
}
