//! Questions with their answers: what a journal holds.
ghost use Rattle.std.specs.Prelude.{◌≡◌, IfOk, IfSome, IsSome, ◌↔◌};
ghost use Rattle.cfg_world.specs.Fits.{Fits};
ghost use Rattle.cfg_world.specs.Leaves.{moment_of};

use crate::ask::{Answer, Question};
use crate::fitting::fits;
use cfg_types::{Instant, OutOfMemory, TryCopy};
use std::alloc::Global;
use std::marker::Model;
use std::sync::Arc;

// What one entry and its copies share.
struct Exchanged {
    question: Question,
    answer: Answer,
}

impl Exchanged {
    fn into_answer(self) -> Answer
        ensures { result ≡ self.answer }
    {
        let Exchanged {
            question: _,
            answer,
        } = self;
        answer
    }
}

impl Drop for Exchanged {
    fn drop(self) {
        let Exchanged {
            question: _,
            answer: _,
        } = self;
    }
}

/// A question with an answer that fits it. Contracts see the pair. A copy shares both with its source.
pub struct Entry {
    shared: Arc<Exchanged, Global>,
}

impl Model for Entry {
    ghost use Rattle.std.specs.Arc.{arc_value};
    ghost use Rattle.cfg_world.specs.Fits.{Fits, Pair};

    ghost Value = { Pair };

    ghost view = { λ e. ((arc_value e.shared).question, (arc_value e.shared).answer) };

    ghost invariant = { λ e. Fits (arc_value e.shared).question (arc_value e.shared).answer };
}

impl Drop for Entry {
    fn drop(self) {
        let Entry { shared: _ } = self;
    }
}

impl Entry {
    /// A question with its answer, as an entry that is in no journal. None exactly where the answer
    /// does not fit the question. Where memory runs out it is `OutOfMemory`.
    pub fn new(
        alloc: Global,
        question: Question,
        answer: Answer,
    ) -> Result<Option<Entry>, OutOfMemory>
        ensures fits { IfOk result (λ made. IsSome made ↔ Fits question answer) }
        ensures pair { IfOk result (λ made. IfSome made (λ e. e ≡ (question, answer))) }
    {
        if !fits(&question, &answer) {
            return Ok(None);
        }
        let entry = Entry::of(alloc, question, answer)?;
        Ok(Some(entry))
    }

    pub(crate) fn of(
        alloc: Global,
        question: Question,
        answer: Answer,
    ) -> Result<Entry, OutOfMemory>
        requires { Fits question answer }
        ensures { IfOk result (λ e. e ≡ (question, answer)) }
    {
        let shared = Arc::new(alloc, Exchanged { question, answer })?;
        Ok(Entry { shared })
    }

    /// What was asked.
    pub fn question(&self) -> &Question
        ensures { result.now ≡ self.now.0 }
    {
        &self.shared.question
    }

    /// What was answered. It fits the question.
    pub fn answer(&self) -> &Answer
        ensures is { result.now ≡ self.now.1 }
        ensures fits { Fits self.now.0 result.now }
    {
        &self.shared.answer
    }

    /// The answer: itself, where no copy of the entry is kept, and else a copy of it, which is
    /// `OutOfMemory` where memory runs out.
    pub fn into_answer(self, alloc: Global) -> Result<Answer, OutOfMemory>
        ensures is { IfOk result (λ a. a ≡ self.1) }
        ensures fits { IfOk result (λ a. Fits self.0 a) }
    {
        let Entry { shared } = self;
        match Arc::try_unwrap(shared) {
            Ok(exchanged) => Ok(exchanged.into_answer()),
            Err(shared) => shared.answer.copy(alloc),
        }
    }
}

impl TryCopy for Entry {
    fn copy(&self, _: Global) -> Result<Entry, OutOfMemory> {
        let shared = Arc::try_clone(&self.shared)?;
        Ok(Entry { shared })
    }
}

/// An entry that a world made when it was asked. Only `World::ask` makes one of an entry, and `copy`
/// repeats it.
pub struct Receipt {
    entry: Entry,
}

impl Drop for Receipt {
    fn drop(self) {
        let Receipt { entry: _ } = self;
    }
}

impl Model for Receipt {
    ghost use Rattle.cfg_world.specs.Fits.{Pair};

    ghost Value = { Pair };

    ghost view = { λ r. r.entry };
}

impl Receipt {
    pub(crate) fn of(entry: Entry) -> Receipt
        ensures { result ≡ entry }
    {
        Receipt { entry }
    }

    // A copy, which needs no allocator.
    pub(crate) fn share(&self) -> Result<Receipt, OutOfMemory>
        ensures { IfOk result (λ r. r ≡ self.now) }
    {
        let shared = Arc::try_clone(&self.entry.shared)?;
        let entry = Entry { shared };
        Ok(Receipt { entry })
    }

    /// The entry of the journal.
    pub fn entry(&self) -> &Entry
        ensures { result.now ≡ self.now }
    {
        &self.entry
    }

    /// The moment that it tells, as a receipt of a reading of the clock; the epoch, where it is of
    /// another question.
    pub fn moment(&self) -> Instant
        ensures { result ≡ moment_of self.now.1 }
    {
        match self.entry().answer() {
            Answer::Moment(moment) => *moment,
            _ => Instant::epoch(),
        }
    }

    /// The entry's answer: itself, where neither a journal nor a copy keeps it, and else a copy of it,
    /// which is `OutOfMemory` where memory runs out.
    pub fn into_answer(self, alloc: Global) -> Result<Answer, OutOfMemory>
        ensures is { IfOk result (λ a. a ≡ self.1) }
        ensures fits { IfOk result (λ a. Fits self.0 a) }
    {
        let Receipt { entry } = self;
        entry.into_answer(alloc)
    }
}

impl TryCopy for Receipt {
    fn copy(&self, alloc: Global) -> Result<Receipt, OutOfMemory> {
        let entry = self.entry.copy(alloc)?;
        Ok(Receipt { entry })
    }
}
