//! Receipts that are handed out again, and the question that they leave open.
ghost use Rattle.std.specs.Prelude.{◌≡◌, ◌↔◌, IsTrue, IfOk, drop, [], None};
ghost use Rattle.cfg_world.specs.Fits.{Fits};
ghost use Rattle.cfg_world.specs.Replayed.{all_entries, shown_failures, IsNext};
ghost use Rattle.cfg_token.specs.Replays.{IsLeftOpen};

use cfg_types::{OutOfMemory, TryCopy};
use cfg_world::same::Same;
use cfg_world::{Asking, Question, Receipt, Stop};
use std::alloc::Global;
use std::marker::Model;

/// Receipts that are lent, and handed out in their order, each to the question that it answers. Where none is
/// left, or the next one answers another question, the question is left open, and stays so until a later one is
/// answered. Where memory runs out nothing changes.
#[derive(Drop)]
pub(crate) struct Replay<'a> {
    alloc: Global,
    receipts: &'a [Receipt],
    at: usize,
    question: Option<Question>,
}

impl<'a> Model for Replay<'a> {
    ghost use Rattle.std.specs.Prelude.{take, drop, length, ◌≤◌};
    ghost use Rattle.cfg_world.specs.Replayed.{Replayed};
    ghost use Rattle.cfg_token.specs.Replays.{IsLeftOpen};

    ghost Value = { Replayed };

    ghost view = { λ r. record { handed = take r.at r.receipts.now; left = drop r.at r.receipts.now; unanswered = r.question } };

    ghost invariant = { λ r. (r.at ≤ length r.receipts.now) × IsLeftOpen (drop r.at r.receipts.now) r.question };
}

impl<'a> Replay<'a> {
    /// These receipts, of which none is handed out yet.
    pub(crate) fn new(alloc: Global, receipts: &'a [Receipt]) -> Replay<'a>
        ensures { result ≡ record { handed = []; left = receipts.now; unanswered = None } }
    {
        Replay {
            alloc,
            receipts,
            at: 0,
            question: None,
        }
    }

    /// The question that was left open last, where no later one was answered.
    pub(crate) fn into_question(self) -> Option<Question>
        ensures is { result ≡ self.entry.unanswered }
        ensures open { IsLeftOpen self.entry.left self.entry.unanswered }
    {
        let Replay {
            alloc: _,
            receipts: _,
            at: _,
            question,
        } = self;
        question
    }
}

impl<'a> Asking for Replay<'a> {
    ghost use Rattle.cfg_world.specs.Tallies.{any_list};

    ghost journal = { λ r. r.handed };

    ghost open_question = { λ r. r.unanswered };

    ghost made_of = { λ r. all_entries r };

    ghost faults = { λ r. shown_failures r.handed };

    ghost allows = { λ r. any_list };

    ghost stands = { λ r. any_list };

    ghost stands_allowed = { λ r entries h. h };

    fn put(&mut self, question: Question) -> Result<Receipt, Stop> {
        if !is_next(self.receipts, self.at, &question) {
            self.question = Some(question);
            return Err(Stop::Open);
        }
        let receipt = repeated(self.alloc, &self.receipts[self.at])?;
        self.at += 1;
        self.question = None;
        Ok(receipt)
    }
}

// Whether the receipt of this place answers the question.
fn is_next(receipts: &[Receipt], at: usize, question: &Question) -> bool
    ensures { IsTrue result ↔ IsNext (drop at receipts.now) question.now }
{
    match receipts.get(at) {
        Some(receipt) => question.same(receipt.entry().question()),
        None => false,
    }
}

// The receipt again. Its answer fits its question, as that of each entry does.
fn repeated(alloc: Global, receipt: &Receipt) -> Result<Receipt, OutOfMemory>
    ensures { IfOk result (λ e. (e ≡ receipt.now) × Fits e.0 e.1) }
{
    let copy = receipt.copy(alloc)?;
    let _answer = copy.entry().answer();
    Ok(copy)
}
