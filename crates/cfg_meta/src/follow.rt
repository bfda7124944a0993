//! A chain asks its members in order.
ghost use Rattle.std.specs.Prelude.{◌≡◌, map};
ghost use Rattle.cfg_kept.specs.KeptStates.{kept_key};
ghost use Rattle.cfg_meta.specs.FollowsMembers.{FollowsMembers};
ghost use Rattle.cfg_meta.specs.MemberParts.{keeping_of};

use crate::error::ChainError;
use crate::member::ChainMember;
use crate::turn::{Turn, note_attempt, turn_of};
use cfg_kept::Kept;
use cfg_types::{ProviderChainError, Seq};
use cfg_world::{Asking, Stop};
use std::alloc::Global;

/// Asks the members in order, up to the first one that was loaded or that failed, whose answer is the
/// outcome. Where each one was not loaded, that is the outcome, which tells of each. What is kept of each
/// member stands at its place, and the values that were found are added to its list.
///
/// # Errors
///
/// After either stop each kept value is as the last finished holding left it.
///
/// - `Open`: a question is left open. Taken up again with one answer more it comes to the next.
/// - `OutOfMemory` where memory runs out.
pub fn follow_members<M: ChainMember, A: Asking>(
    alloc: Global,
    members: &[M],
    kept: &mut [Kept],
    asking: &mut A,
) -> Result<Result<M::Value, M::Error>, Stop>
    requires { map kept_key kept.old ≡ map (λ m. M.needs m) members.now }
    ensures follows { FollowsMembers ⟦<A as Asking>⟧ M.Error.rules (λ m. M.named m) (λ m. M.is_tree m) members.now (map keeping_of kept.old)
        (map keeping_of kept.new) asking.old asking.new result }
    ensures keys { map kept_key kept.new ≡ map kept_key kept.old }
{
    let mut attempts = Vec::new(alloc);
    for (i, member) in members.iter().enumerate() {
        let outcome = member.follow(alloc, &mut kept[i], asking)?;
        match turn_of(outcome) {
            Turn::Answers(answer) => return Ok(answer),
            Turn::PassedOver(error) => {
                let Ok(()) = note_attempt(alloc, &mut attempts, member.name(), error) else {
                    return Err(Stop::OutOfMemory);
                };
            }
        }
    }
    let attempts = ProviderChainError::new(Seq::of(attempts));
    Ok(Err(M::Error::none_loaded(attempts)))
}
