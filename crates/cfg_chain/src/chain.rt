//! A chain asks its members in order.
ghost use Rattle.std.specs.Prelude.{◌≡◌};
ghost use Rattle.cfg_chain.specs.Follows.{FollowsTree, TellsAsker};
ghost use Rattle.cfg_chain.specs.Settled.{IsSettled};
ghost use Rattle.cfg_chain.specs.Views.{view};
ghost use Rattle.cfg_chain.specs.profile.Plans.{key_of};
ghost use Rattle.cfg_sso.specs.Tokens.{HasKey};
ghost use Rattle.cfg_chain.specs.Members.{members_tree};

use crate::call::ChainCall;
use crate::member::{Member, follow_member};
use cfg_kept::Keeper;
use cfg_meta::ChainError;
use cfg_meta::steps::{Turn, note_attempt, turn_of};
use cfg_types::{Credentials, CredentialsError, ProviderChainError, Seq};
use cfg_world::{Asking, Stop};

/// Asks the members in order, up to the first one that was loaded or that failed, and answers what it gave.
/// Where none was loaded it is `CredentialsNotLoaded(Chain)`, with what each one answered. It stops with `Open`
/// at a question that is left open, and with `OutOfMemory` where memory runs out. The member that is asked last is
/// left in `asker`.
#[tactic(auto, using(cfg_kept::proofs::ChainSteps::chain_steps))]
pub fn follow_chain<P: Keeper, A: Asking>(
    call: &ChainCall,
    members: &[Member],
    keeper: &mut P,
    asking: &mut A,
    asker: &mut Option<Member>,
) -> Result<Result<Credentials, CredentialsError>, Stop>
    requires settled { IsSettled call.now.config.now call.now.settled.now }
    requires key { HasKey (key_of call.now.config.now) (P.key_held keeper.old) }
    ensures follows { FollowsTree ⟦<A as Asking>⟧ ⟦<P as Keeper>⟧ (members_tree (view value repeated call.now) members.now)
        asking.old asking.new keeper.old keeper.new result }
    ensures key { P.key_held keeper.new ≡ P.key_held keeper.old }
    ensures asker { TellsAsker ⟦<A as Asking>⟧ ⟦<P as Keeper>⟧ (view value repeated call.now) members.now
        asking.old asking.new keeper.old keeper.new asker.new result }
{
    let mut attempts = Vec::new(call.alloc);
    for member in members {
        *asker = Some(*member);
        let outcome = follow_member(call, *member, keeper, asking)?;
        match turn_of(outcome) {
            Turn::Answers(answer) => return Ok(answer),
            Turn::PassedOver(error) => {
                let Ok(()) = note_attempt(call.alloc, &mut attempts, member.name(), error) else {
                    return Err(Stop::OutOfMemory);
                };
            }
        }
    }
    let attempts = ProviderChainError::new(Seq::of(attempts));
    Ok(Err(CredentialsError::none_loaded(attempts)))
}
