//! What the crates above name: the state of a token of either kind.
pub use crate::keyed::{EitherState, KeyedState};
