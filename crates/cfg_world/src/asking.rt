//! Where a body puts its questions, and why it may stop.
ghost use Rattle.std.specs.Prelude.{◌≡◌, ◌≢◌, ◌++◌, ◌∷◌, [], List, Option, IfOk, OnErr, IfErr, Some, Err};
ghost use Rattle.cfg_world.specs.declared.ask.Question.{Question as QuestionAsked};
ghost use Rattle.cfg_world.specs.Fits.{Fits, Pair};
ghost use Rattle.cfg_world.specs.Faults.{Faults, Counted};
ghost use Rattle.cfg_world.specs.Asked.{Same, StandsOn};
ghost use Rattle.cfg_world.specs.Put.{put_entry, nothing};

use crate::ask::Question;
use crate::devices::Devices;
use crate::entry::Receipt;
use crate::world::World;
use cfg_types::OutOfMemory;

/// Why a question has no answer, or a body no outcome.
#[derive(Clone, Copy, Debug, PartialEq, Eq)]
pub enum Stop {
    /// Memory ran out, over a question or beside it. The devices may have been asked.
    OutOfMemory,
    /// The answer is not known yet. The question is kept as the open one. A `World` answers every question, so a
    /// call over one stops only where memory runs out.
    Open,
}

impl From<OutOfMemory> for Stop {
    ghost use Rattle.cfg_world.specs.declared.asking.Stop.TheVariants.{OutOfMemory as memory};

    ghost from_gives = { λ _ stop. stop ≡ memory };

    fn from(_: OutOfMemory) -> Stop {
        Stop::OutOfMemory
    }
}

/// Why a body gave no value: it was stopped, or it refused by its rule.
#[derive(Debug, Drop)]
pub enum Halt<E> {
    /// A question has no answer, or memory ran out.
    Stopped(Stop),
    /// The rule refuses, for this reason.
    Refused(E),
}

impl<E> From<Stop> for Halt<E> {
    ghost use Rattle.cfg_world.specs.declared.asking.Halt.TheVariants.{Stopped};

    ghost from_gives = { λ stop halt. halt ≡ Stopped stop };

    fn from(stop: Stop) -> Halt<E> {
        Halt::Stopped(stop)
    }
}

impl<E> From<OutOfMemory> for Halt<E> {
    ghost use Rattle.cfg_world.specs.declared.asking.Halt.TheVariants.{Stopped};
    ghost use Rattle.cfg_world.specs.declared.asking.Stop.TheVariants.{OutOfMemory as memory};

    ghost from_gives = { λ _ halt. halt ≡ Stopped memory };

    fn from(_: OutOfMemory) -> Halt<E> {
        Halt::Stopped(Stop::OutOfMemory)
    }
}

/// Where questions are put, and answers handed out.
pub trait Asking {
    /// What was handed out.
    ghost journal: { Self → List Pair };

    /// The question that was left open, or none.
    ghost open_question: { Self → Option QuestionAsked };

    /// The entries that it was made of, if its answers are handed in. No question changes them.
    ghost made_of: { Self → List Pair };

    /// How often each kind of device has failed.
    ghost faults: { Self → Faults };

    /// The lists of entries that may be handed out, from the start.
    ghost allows: { Self → List Pair → Type 0 };

    /// The lists that are allowed and may have been handed out so far.
    ghost stands: { Self → List Pair → Type 0 };

    /// Puts a question. The receipt is the new entry of the journal. It stops with `Open` where the
    /// answer is not known yet, and with `OutOfMemory` where memory runs out. After a stop the journal
    /// is as it was, and after `Open` the open question is this one.
    fn put(&mut self, question: Question) -> Result<Receipt, Stop>
        ensures asked { IfOk result (λ e. (e.0 ≡ question) × Fits e.0 e.1) }
        ensures grows { journal self.new ≡ journal self.old ++ put_entry result }
        ensures open { result ≡ Err Stop.Open → open_question self.new ≡ Some question }
        ensures counted { Counted (put_entry result) (faults self.old) (faults self.new) }
        ensures made { made_of self.new ≡ made_of self.old }
        ensures same { Same (allows self.old) (allows self.new) }
        ensures stands { result ≢ Err Stop.OutOfMemory → StandsOn (stands self.old) (stands self.new) (put_entry result) };

    /// What stands is allowed.
    ghost stands_allowed: { (asking : Self) (entries : List Pair) → stands asking entries → allows asking entries };
}

/// A world answers every question, and so leaves none open.
impl<D: Devices> Asking for World<D> {
    ghost use Rattle.std.specs.Prelude.{None};

    ghost journal = { λ w. w.journal };

    ghost open_question = { λ w. None };

    ghost made_of = { λ w. nothing };

    ghost faults = { λ w. D.faults w.devices };

    ghost allows = { λ w. D.allows w.devices };

    ghost stands = { λ w. D.stands w.devices };

    ghost stands_allowed = { λ w. D.stands_allowed w.devices };

    fn put(&mut self, question: Question) -> Result<Receipt, Stop>
        ensures asked { IfOk result (λ e. (e.0 ≡ question) × Fits e.0 e.1) }
        ensures grows { self.new.journal ≡ self.old.journal ++ put_entry result }
        ensures open { result ≡ Err Stop.Open → None ≡ Some question }
        ensures counted { Counted (put_entry result) (D.faults self.old.devices) (D.faults self.new.devices) }
        ensures made { nothing ≡ nothing }
        ensures same { Same (D.allows self.old.devices) (D.allows self.new.devices) }
        ensures stands { result ≢ Err Stop.OutOfMemory → StandsOn (D.stands self.old.devices) (D.stands self.new.devices) (put_entry result) }
        ensures never_open { result ≢ Err Stop.Open }
    {
        let receipt = self.ask(question)?;
        Ok(receipt)
    }
}
