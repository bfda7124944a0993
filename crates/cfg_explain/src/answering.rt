//! Answers that are handed in by the kinds of their questions, and what is told of them.
ghost use Rattle.std.specs.Prelude.{◌≡◌, ◌↔◌, IsTrue, IfOk, map, true, false};
ghost use Rattle.std.specs.Option.{option_copied};
ghost use Rattle.cfg_explain.specs.Answerings.{answering_of, AreAlike, AreNotAlike, AlikeUntil};

use crate::kinds::kind_of;
use cfg_types::{Credentials, CredentialsError, OutOfMemory, Seq, Text, TryCopy};
use cfg_world::same::Same;
use cfg_world::{Answer, Entry};
use std::alloc::Global;

/// The kind of a question, and an answer to it.
#[derive(Drop)]
pub struct Answering {
    /// The name of the question's kind, as [`kind_of`] gives it.
    pub kind: Text,
    /// The answer.
    pub answer: Answer,
}

/// What is told of answers that are handed in. Places count from 0.
#[derive(Drop)]
pub enum Replay {
    /// They are those of a call: its journal, and what it came to.
    Whole {
        journal: Seq<Entry>,
        outcome: Result<Credentials, CredentialsError>,
    },
    /// Those before this place are those of a call, and the one there is of another kind than the question that the
    /// call asks then, or does not fit it.
    Other {
        at: usize,
        wanted: Text,
    },
    /// All are those of a call, and it asks a question of this kind more.
    Short {
        wanted: Text,
    },
    /// Those before this place are those of a whole call.
    Long {
        at: usize,
    },
}

// The answers, in order.
pub(crate) fn answers_in(alloc: Global, answers: &[Answering]) -> Result<Vec<Answer>, OutOfMemory>
    ensures { IfOk result (λ given. given.items ≡ map (λ a. a.answer) answers.now) }
{
    let mut given = Vec::new(alloc);
    for answering in answers {
        given.push(answering.answer.copy(alloc)?)?;
    }
    Ok(given)
}

// The first place at which not both are the same: one of them has ended, or the entry is of another kind or has
// another answer.
#[tactic(auto, using(crate::proofs::AnsweringSteps::alike_more))]
pub(crate) fn first_departure(journal: &[Entry], answers: &[Answering]) -> usize
    ensures { AlikeUntil journal.now answers.now result }
{
    let mut at = 0;
    while !is_departure(journal.get(at), answers.get(at)) {
        at += 1;
    }
    at
}

fn is_departure(entry: Option<&Entry>, answering: Option<&Answering>) -> bool
    ensures departs { result ≡ true → AreNotAlike (option_copied entry.entry) (option_copied answering.entry) }
    ensures goes_on { result ≡ false → AreAlike (option_copied entry.entry) (option_copied answering.entry) }
{
    match (entry, answering) {
        (Some(entry), Some(answering)) => !is_answered(entry, answering),
        _ => true,
    }
}

#[tactic(auto, using(cfg_world::proofs::Sameness::same_list))]
fn is_answered(entry: &Entry, answering: &Answering) -> bool
    ensures { IsTrue result ↔ (answering_of entry.now ≡ answering.now) }
{
    answering.kind.is(kind_of(entry.question())) && answering.answer.same(entry.answer())
}
