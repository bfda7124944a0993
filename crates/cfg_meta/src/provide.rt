//! A call of a chain over a world.
ghost use Rattle.std.specs.Prelude.{◌≡◌, true, false, map};
ghost use Rattle.cfg_kept.specs.KeptStates.{kept_key};
ghost use Rattle.cfg_meta.specs.AnswerRules.{is_memory_answer};
ghost use Rattle.cfg_meta.specs.MemberParts.{keeping_of, with_nothing_found};
ghost use Rattle.cfg_meta.specs.Provides.{ProvidesByMembers, InterruptedMembers};

use crate::error::ChainError;
use crate::follow::follow_members;
use crate::member::ChainMember;
use cfg_kept::Kept;
use cfg_world::{Devices, World};
use std::alloc::Global;

/// Asks the members in order, and answers what the first one that was loaded gives. Members that were
/// not loaded are passed over, and any other error is the answer. What is kept of each member stands at
/// its place, as [`new_kept`](crate::new_kept) makes it.
///
/// The world's journal gains the members' parts and nothing else. The lists of the values that were found
/// are those of this call alone.
///
/// # Errors
///
/// - The chain's own error where no member was loaded. It tells of each member, in order.
/// - Any other error of a member, where each one before it was not loaded.
/// - Out of memory where memory runs out. The journal then has gained the beginning of such parts, and
///   each kept value is as the last finished holding left it.
pub fn provide_by_members<M: ChainMember, D: Devices>(
    alloc: Global,
    members: &[M],
    kept: &mut [Kept],
    world: &mut World<D>,
) -> Result<M::Value, M::Error>
    requires { map kept_key kept.old ≡ map (λ m. M.needs m) members.now }
    ensures provides { is_memory_answer M.Error.rules result ≡ false → ProvidesByMembers ⟦<D as Devices>⟧ M.Error.rules (λ m. M.named m) (λ m. M.is_tree m)
        members.now (map with_nothing_found (map keeping_of kept.old)) (map keeping_of kept.new) world.old world.new result }
    ensures stays { is_memory_answer M.Error.rules result ≡ true → InterruptedMembers ⟦<D as Devices>⟧ M.Error.rules (λ m. M.named m) (λ m. M.is_tree m)
        members.now (map with_nothing_found (map keeping_of kept.old)) (map keeping_of kept.new) world.old world.new }
    ensures keys { map kept_key kept.new ≡ map kept_key kept.old }
{
    clear_found(kept);
    match follow_members(alloc, members, kept, world) {
        Ok(outcome) => outcome,
        Err(_) => Err(M::Error::out_of_memory()),
    }
}

// The values that were found are given up. What is kept stays.
fn clear_found(kept: &mut [Kept])
    ensures found { map keeping_of kept.new ≡ map with_nothing_found (map keeping_of kept.old) }
    ensures keys { map kept_key kept.new ≡ map kept_key kept.old }
{
    for one in kept.iter_mut() {
        one.clear_found();
    }
}
