//! Callers on threads of their own that share what a chain keeps: one call each, over a world each, and whether their
//! journals, what they found and what they left kept tell of one history. It stands on cfg_chain and cfg_kept. The
//! layer above may use that each caller's call is one of the chain by the values that it found, that the histories are
//! the same where the calls are handed back as they are, and that they differ where the fault says so.
#![tactic(auto)]

mod judging;
mod readings;
mod share;
mod shared;
mod strays;

pub use cfg_chain::{Answered, DefaultCredentialsChain};
pub use cfg_kept::{Found, Kept};
pub use cfg_types::OutOfMemory;
pub use share::share_calls;
pub use shared::{Called, ShareFault, Shared};
