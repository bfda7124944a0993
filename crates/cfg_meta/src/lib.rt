//! Chains over members that the caller gives, and how any chain goes on after an answer, by the rules of
//! credentials errors and of token errors. What is kept of one member is apart from what is kept of the
//! others. It stands on cfg_kept. The layers above may use that a call's journal is the parts of the
//! members in order, up to the first that was not passed over, whose answer is the chain's, and that each
//! part goes from what was kept of its member to what its tree leaves.
#![tactic(auto)]

mod error;
mod fallback;
mod follow;
pub mod laws;
mod member;
mod provide;
pub mod steps;
mod turn;

pub use cfg_types::OutOfMemory;
pub use error::ChainError;
pub use fallback::{FallsBack, first_fallback};
pub use follow::follow_members;
pub use member::{ChainMember, new_kept};
pub use provide::provide_by_members;
