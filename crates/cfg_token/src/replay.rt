//! Receipts that are handed out again, and the question that they leave open.
ghost use Rattle.std.specs.Prelude.{◌≡◌, [], None, IfOk};
ghost use Rattle.cfg_world.specs.Replayed.{all_entries, shown_failures};
ghost use Rattle.cfg_token.specs.Replays.{IsLeftOpen};

use cfg_types::{OutOfMemory, Seq, TryCopy};
use cfg_world::{Answers, Asking, Question, Receipt, Stop};
use std::alloc::Global;
use std::marker::Model;

/// Answers of which the question that was left open last is known: the next receipt does not answer it.
#[derive(Drop)]
pub struct Replay {
    answers: Answers,
    is_open: bool,
}

impl Model for Replay {
    ghost use Rattle.cfg_world.specs.Replayed.{Replayed};
    ghost use Rattle.cfg_token.specs.Replays.{open_if, IsLeftOpen};

    ghost Value = { Replayed };

    ghost view = { λ r. record r.answers { unanswered = open_if r.is_open r.answers.unanswered } };

    ghost invariant = { λ r. IsLeftOpen r.answers.left (open_if r.is_open r.answers.unanswered) };
}

impl Replay {
    /// These receipts, of which none is handed out yet.
    pub fn new(receipts: Seq<Receipt>) -> Replay
        ensures { result ≡ record { handed = []; left = receipts; unanswered = None } }
    {
        Replay {
            answers: Answers::new(receipts),
            is_open: false,
        }
    }

    /// A copy of the question that was left open last, where no later one was answered. `OutOfMemory`
    /// where memory runs out.
    pub fn open_question(&self, alloc: Global) -> Result<Option<Question>, OutOfMemory>
        ensures is { IfOk result (λ asked. asked ≡ self.now.unanswered) }
        ensures next { IsLeftOpen self.now.left self.now.unanswered }
    {
        match self.answers.question() {
            Some(asked) if self.is_open => {
                let asked = asked.copy(alloc)?;
                Ok(Some(asked))
            }
            _ => Ok(None),
        }
    }
}

impl Asking for Replay {
    ghost use Rattle.cfg_world.specs.Tallies.{any_list};

    ghost journal = { λ r. r.handed };

    ghost open_question = { λ r. r.unanswered };

    ghost made_of = { λ r. all_entries r };

    ghost faults = { λ r. shown_failures r.handed };

    ghost allows = { λ r. any_list };

    ghost stands = { λ r. any_list };

    ghost stands_allowed = { λ r entries h. h };

    fn put(&mut self, question: Question) -> Result<Receipt, Stop> {
        match self.answers.put(question) {
            Ok(receipt) => {
                self.is_open = false;
                Ok(receipt)
            }
            Err(Stop::Open) => {
                self.is_open = true;
                Err(Stop::Open)
            }
            Err(Stop::OutOfMemory) => Err(Stop::OutOfMemory),
        }
    }
}
