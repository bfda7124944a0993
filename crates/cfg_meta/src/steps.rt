//! What the default chain has in common with a chain over given members.
pub use crate::turn::{Turn, note_attempt, turn_of};
