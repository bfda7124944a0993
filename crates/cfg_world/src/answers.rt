//! Answers that are handed in beforehand.
ghost use Rattle.std.specs.Prelude.{◌≡◌, ◌↔◌, IsTrue, drop, [], ◌∷◌, ◌++◌, None, Some, Err, IfOk, option_map};
ghost use Rattle.cfg_world.specs.Replayed.{Replayed, all_entries, IsNext, shown_failures};

use crate::ask::Question;
use crate::asking::{Asking, Stop};
use crate::entry::Receipt;
use crate::same::Same as _;
use cfg_types::Seq;
use std::marker::Model;

/// Receipts that are handed out in their order, each to the question that it answers. Where none is
/// left, or the next one answers another question, the question is left open. Where memory runs out
/// nothing is handed out, and nothing changes.
pub struct Answers {
    receipts: Seq<Receipt>,
    at: usize,
    unanswered: Option<Question>,
}

impl Model for Answers {
    ghost use Rattle.std.specs.Prelude.{take, drop, length, ◌≤◌};
    ghost use Rattle.cfg_world.specs.Replayed.{Replayed};

    ghost Value = { Replayed };

    ghost view = { λ a. record { handed = take a.at a.receipts; left = drop a.at a.receipts; unanswered = a.unanswered } };

    ghost invariant = { λ a. a.at ≤ length a.receipts };
}

impl Drop for Answers {
    fn drop(self) {
        let Answers {
            receipts: _,
            at: _,
            unanswered: _,
        } = self;
    }
}

impl Answers {
    /// These receipts, of which none is handed out yet.
    pub fn new(receipts: Seq<Receipt>) -> Answers
        ensures { result ≡ record { handed = []; left = receipts; unanswered = None } }
    {
        Answers {
            receipts,
            at: 0,
            unanswered: None,
        }
    }

    /// The last question that was left open, also where a later one was answered. None before there
    /// is one.
    pub fn question(&self) -> Option<&Question>
        ensures { option_map (λ q. q.now) result ≡ self.now.unanswered }
    {
        self.unanswered.as_ref()
    }
}

/// They were made of all the receipts, and those handed out are the beginning of these. They allow
/// every list of entries, and stand for every list.
impl Asking for Answers {
    ghost use Rattle.std.specs.Prelude.{◌≢◌};
    ghost use Rattle.cfg_world.specs.Fits.{Fits};
    ghost use Rattle.cfg_world.specs.Faults.{Counted};
    ghost use Rattle.cfg_world.specs.Asked.{Same, StandsOn};
    ghost use Rattle.cfg_world.specs.Put.{put_entry};
    ghost use Rattle.cfg_world.specs.Tallies.{any_list};

    ghost journal = { λ a. a.handed };

    ghost open_question = { λ a. a.unanswered };

    ghost made_of = { λ a. all_entries a };

    ghost faults = { λ a. shown_failures a.handed };

    ghost allows = { λ a. any_list };

    ghost stands = { λ a. any_list };

    ghost stands_allowed = { λ a entries h. h };

    fn put(&mut self, question: Question) -> Result<Receipt, Stop>
        ensures asked { IfOk result (λ e. (e.0 ≡ question) × Fits e.0 e.1) }
        ensures grows { self.new.handed ≡ self.old.handed ++ put_entry result }
        ensures open { result ≡ Err Stop.Open → self.new.unanswered ≡ Some question }
        ensures counted { Counted (put_entry result) (shown_failures self.old.handed) (shown_failures self.new.handed) }
        ensures made { all_entries self.new ≡ all_entries self.old }
        ensures same { Same any_list any_list }
        ensures stands { result ≢ Err Stop.OutOfMemory → StandsOn any_list any_list (put_entry result) }
        ensures handed_out { IfOk result (λ e. self.old ≡ record self.new { handed = self.old.handed; left = e ∷ self.new.left }) }
        ensures next { IfOk result (λ e. IsNext self.old.left question) }
        ensures left_open { result ≡ Err Stop.Open → (IsNext self.old.left question → ⊥) × (self.new ≡ record self.old { unanswered = Some question }) }
        ensures memory { result ≡ Err Stop.OutOfMemory → IsNext self.old.left question × (self.new ≡ self.old) }
    {
        if !is_next(&self.receipts, self.at, &question) {
            self.unanswered = Some(question);
            return Err(Stop::Open);
        }
        let receipt = self.receipts.as_slice()[self.at].share()?;
        self.at += 1;
        Ok(receipt)
    }
}

// Whether the receipt of this place answers the question.
fn is_next(receipts: &Seq<Receipt>, at: usize, question: &Question) -> bool
    ensures { IsTrue result ↔ IsNext (drop at receipts.now) question.now }
{
    match receipts.as_slice().get(at) {
        Some(receipt) => question.same(receipt.entry().question()),
        None => false,
    }
}
