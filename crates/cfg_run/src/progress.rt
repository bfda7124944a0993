//! How far a run is.
ghost use Rattle.std.specs.Prelude.{◌≡◌, ◌++◌, [], take, option_to_list, None, OnOk, OnErr};
ghost use Rattle.std.specs.Option.{option_copied};

use crate::replay::Replay;
use cfg_types::OutOfMemory;
use cfg_world::{Question, Receipt};
use std::alloc::Global;
use std::marker::Model;

/// The receipts that were handed in, and the question that is shown, if one is.
#[derive(Drop)]
pub(crate) struct Progress {
    receipts: Vec<Receipt>,
    question: Option<Question>,
}

impl Model for Progress {
    ghost use Rattle.cfg_run.specs.SoFar.{AskedSoFar};

    ghost Value = { AskedSoFar };

    ghost view = { λ p. record { asked = p.receipts.items; question = p.question } };
}

impl Progress {
    /// Nothing was asked, and no question is shown. Takes no memory.
    pub(crate) fn new(alloc: Global) -> Progress
        ensures { result ≡ record { asked = []; question = None } }
    {
        Progress {
            receipts: Vec::new(alloc),
            question: None,
        }
    }

    pub(crate) fn asked(&self) -> &[Receipt]
        ensures { result.now ≡ self.now.asked }
    {
        self.receipts.as_slice()
    }

    pub(crate) fn question(&self) -> Option<&Question>
        ensures { option_copied result ≡ self.now.question }
    {
        self.question.as_ref()
    }

    /// With this receipt behind the others. `OutOfMemory` where memory runs out, and nothing changes.
    pub(crate) fn hand_in(&mut self, receipt: Option<Receipt>) -> Result<(), OutOfMemory>
        ensures asked { OnOk result (self.new ≡ record self.old { asked = self.old.asked ++ option_to_list receipt }) }
        ensures stays { OnErr result (self.new ≡ self.old) }
    {
        if let Some(receipt) = receipt {
            self.receipts.push(receipt)?;
        }
        Ok(())
    }

    /// The first receipts, as many as this, stay, and those behind them are given up.
    pub(crate) fn take_back(&mut self, count: usize)
        ensures { self.new ≡ record self.old { asked = take count self.old.asked } }
    {
        self.receipts.truncate(count);
    }

    /// With this question shown, or none.
    pub(crate) fn show(&mut self, question: Option<Question>)
        ensures { self.new ≡ record self.old { question = question } }
    {
        self.question = question;
    }

    /// The receipts, handed out again.
    pub(crate) fn replay(&self) -> Replay<'_>
        ensures { result ≡ record { handed = []; left = self.now.asked; unanswered = None } }
    {
        Replay::new(*self.receipts.allocator(), self.receipts.as_slice())
    }
}
