//! What comes after what was asked so far.

use cfg_world::Question;

/// What comes next.
#[derive(Drop)]
pub(crate) enum Next<T> {
    /// This question.
    Asks(Question),
    /// Nothing: this is the outcome.
    Gives(T),
}
