//! How a chain goes on after what a member answered.
ghost use Rattle.std.specs.Prelude.{◌≡◌, ◌++◌, ◌∷◌, [], OnErr, OnOk};
ghost use Rattle.cfg_base.specs.Text.{characters};
ghost use Rattle.cfg_meta.specs.AnswerRules.{attempt_of};
ghost use Rattle.cfg_meta.specs.Turns.{IsTurn};

use crate::error::ChainError;
use cfg_types::{OutOfMemory, ProviderAttempt, Text};
use std::alloc::Global;

/// How a chain goes on after what a member answered.
#[derive(Drop)]
pub enum Turn<V, E> {
    /// The next member is asked.
    PassedOver(E),
    /// The answer is the chain's.
    Answers(Result<V, E>),
}

/// How a chain goes on: a member that was not loaded is passed over, and anything else is its answer.
pub fn turn_of<V: Drop, E: ChainError>(outcome: Result<V, E>) -> Turn<V, E>
    ensures { IsTurn E.rules outcome result }
{
    match outcome {
        Ok(value) => Turn::Answers(Ok(value)),
        Err(error) if error.is_not_loaded() => Turn::PassedOver(error),
        Err(error) => Turn::Answers(Err(error)),
    }
}

/// One attempt more: the member of this name answered this error. `OutOfMemory` where memory runs out; the
/// attempts are then as they were.
pub fn note_attempt<E: Drop>(
    alloc: Global,
    attempts: &mut Vec<ProviderAttempt<E>>,
    name: &str,
    error: E,
) -> Result<(), OutOfMemory>
    ensures noted { OnOk result (attempts.new.items ≡ attempts.old.items ++ attempt_of (characters name.now) error ∷ []) }
    ensures kept { OnErr result (attempts.new.items ≡ attempts.old.items) }
{
    let name = Text::of(alloc, name)?;
    attempts.push(ProviderAttempt::new(name, error))?;
    Ok(())
}
