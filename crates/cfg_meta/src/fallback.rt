//! What a chain falls back on where a call was interrupted.
ghost use Rattle.std.specs.Prelude.{◌≡◌, IfOk, Option, map};
ghost use Rattle.cfg_kept.specs.Kinds.{States};
ghost use Rattle.cfg_kept.specs.KeptStates.{kept_key, states_of};
ghost use Rattle.cfg_meta.specs.Fallbacks.{first_there};

use crate::member::ChainMember;
use cfg_kept::Kept;
use cfg_types::OutOfMemory;
use std::alloc::Global;

/// A member that may have a value to go on with where a call was interrupted.
pub trait FallsBack: ChainMember {
    /// The value that it has, by what is kept of it.
    ghost fallback: { Self → States → Option Self.Value };

    /// The value to go on with, if it has one, by what is kept of it, which has its key. Nothing is asked,
    /// and what is kept stays. `OutOfMemory` where memory runs out.
    fn fallback_on_interrupt(
        &self,
        alloc: Global,
        kept: &Kept,
    ) -> Result<Option<Self::Value>, OutOfMemory>
        requires { kept_key kept.now ≡ Self.needs self.now }
        ensures { IfOk result (λ value. value ≡ fallback self.now (states_of kept.now)) };
}

/// The value of the first member that has one to go on with, as aws-config does, or none where no member
/// has one. What is kept of each member stands at its place. Nothing is asked, and what is kept stays.
/// `OutOfMemory` where memory runs out.
pub fn first_fallback<M: FallsBack>(
    alloc: Global,
    members: &[M],
    kept: &[Kept],
) -> Result<Option<M::Value>, OutOfMemory>
    requires { map kept_key kept.now ≡ map (λ m. M.needs m) members.now }
    ensures { IfOk result (λ value. value ≡ first_there (λ m. M.fallback m) members.now (map states_of kept.now)) }
{
    for (i, member) in members.iter().enumerate() {
        if let Some(value) = member.fallback_on_interrupt(alloc, &kept[i])? {
            return Ok(Some(value));
        }
    }
    Ok(None)
}
