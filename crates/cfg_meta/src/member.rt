//! What a chain needs of its members.
ghost use Rattle.std.specs.Prelude.{◌≡◌, ℕ, List, Option, Result, IfOk, map};
ghost use Rattle.std.specs.Option.{option_copied};
ghost use Rattle.cfg_base.specs.Text.{characters};
ghost use Rattle.cfg_token.specs.declared.token_key.TokenKey.{TokenKey as KeyNeeded};
ghost use Rattle.cfg_kept.specs.KeptInquiry.{KeptInquiry};
ghost use Rattle.cfg_kept.specs.KeptStates.{kept_holdings, kept_key, states_of};
ghost use Rattle.cfg_kept.specs.Kinds.{no_states};
ghost use Rattle.cfg_meta.specs.FollowsMembers.{FollowsMember};

use crate::error::ChainError;
use cfg_kept::Kept;
use cfg_token::TokenKey;
use cfg_types::{OutOfMemory, TryCopy};
use cfg_world::{Asking, Stop};
use std::alloc::Global;

/// A member of a chain. What it keeps between calls is kept for it alone.
pub trait ChainMember {
    /// What it gives.
    type Value: Drop;

    /// Why it gives nothing.
    type Error: ChainError;

    /// The name under which a chain tells of it.
    ghost named: { Self → List ℕ };

    /// Whose token it needs.
    ghost needs: { Self → Option KeyNeeded };

    /// The trees by which it may ask: there is at most one.
    ghost is_tree: { Self → KeptInquiry (Result Self.Value Self.Error) → Type 0 };

    /// The name under which a chain tells of it.
    fn name(&self) -> &str
        ensures { characters result.now ≡ named self.now };

    /// Whose token it needs, if it needs one.
    fn token_key(&self) -> Option<&TokenKey>
        ensures { option_copied result ≡ needs self.now };

    /// Asks what its tree asks, and answers what the tree says over the answers. Where a question is left
    /// open it stops there with `Open`, and taken up again with one answer more it comes to the next.
    /// `OutOfMemory` where memory runs out. After a stop each kept value is as the last finished holding
    /// left it.
    fn follow<A: Asking>(
        &self,
        alloc: Global,
        kept: &mut Kept,
        asking: &mut A,
    ) -> Result<Result<Self::Value, Self::Error>, Stop>
        requires { kept_key kept.old ≡ needs self.now }
        ensures follows { FollowsMember ⟦<A as Asking>⟧ (is_tree self.now) asking.old (kept_holdings kept.old) asking.new (kept_holdings kept.new) result }
        ensures key { kept_key kept.new ≡ kept_key kept.old };

    ghost one_tree: { (member : Self) (one other : KeptInquiry (Result Self.Value Self.Error)) → is_tree member one → is_tree member other → one ≡ other };
}

/// What a chain over these members keeps between calls, one for each member in order, with nothing kept.
/// `OutOfMemory` where memory runs out.
pub fn new_kept<M: ChainMember>(alloc: Global, members: &[M]) -> Result<Vec<Kept>, OutOfMemory>
    ensures nothing { IfOk result (λ kept. map states_of kept.items ≡ map (λ _. no_states) members.now) }
    ensures keys { IfOk result (λ kept. map kept_key kept.items ≡ map (λ m. M.needs m) members.now) }
{
    let mut kept = Vec::new(alloc);
    for member in members {
        let key = match member.token_key() {
            None => None,
            Some(key) => Some(key.copy(alloc)?),
        };
        kept.push(Kept::new(alloc, key))?;
    }
    Ok(kept)
}
