//! Devices, with a journal of what they were asked.
ghost use Rattle.std.specs.Prelude.{◌≡◌, [], ◌∷◌, IfOk, OnErr};
ghost use Rattle.cfg_world.specs.Fits.{Fits};
ghost use Rattle.cfg_world.specs.Faults.{CountRose};
ghost use Rattle.cfg_world.specs.Asked.{given, failure_of};
ghost use Rattle.cfg_world.specs.Held.{Held};
ghost use Rattle.cfg_world.specs.Grows.{AskedBy, Grows, Stays};

use crate::ask::{Answer, Question};
use crate::devices::Devices;
use crate::entry::{Entry, Receipt};
use cfg_types::{Fault, OutOfMemory, TryCopy};
use std::alloc::Global;
use std::marker::Model;

/// Devices, and the journal of what they were asked and answered.
pub struct World<D: Devices> {
    alloc: Global,
    devices: D,
    journal: Vec<Entry>,
}

impl<D: Devices + Drop> Drop for World<D> {
    fn drop(self) {
        let World {
            alloc: _,
            devices: _,
            journal: _,
        } = self;
    }
}

impl<D: Devices> Model for World<D> {
    ghost use Rattle.cfg_world.specs.Held.{Held};

    ghost Value = { Held D };

    ghost view = { λ w. record { devices = w.devices; journal = w.journal.items } };
}

impl<D: Devices> World<D> {
    /// A world over these devices, with an empty journal.
    pub fn new(alloc: Global, devices: D) -> World<D>
        ensures { result ≡ record { devices = devices; journal = [] } }
    {
        World {
            alloc,
            devices,
            journal: Vec::new(alloc),
        }
    }

    /// Puts a question to the devices, and enters it with its answer at the end of the journal. A
    /// device that fails gives the answer `Failed`. Where memory runs out it is `OutOfMemory`, and the
    /// journal stays as it was, though the devices may have been asked.
    pub fn ask(&mut self, question: Question) -> Result<Receipt, OutOfMemory>
        ensures asked { IfOk result (λ e. e.0 ≡ question) }
        ensures fits { IfOk result (λ e. Fits e.0 e.1) }
        ensures grows { IfOk result (λ e. Grows ⟦<D as Devices>⟧ (e ∷ []) self.old self.new) }

        // A failure is entered only where the count of its kind rose.
        ensures cause { IfOk result (λ e. (kind : _) → e.1 ≡ Answer.Failed kind → CountRose question (D.faults self.old.devices) (D.faults self.new.devices)) }
        ensures stays { OnErr result (Stays ⟦<D as Devices>⟧ [] self.old self.new) }
    {
        let answer = put(&mut self.devices, &question)?;
        let entry = Entry::of(self.alloc, question, answer)?;
        let receipt = Receipt::of(entry.copy(self.alloc)?);
        self.journal.push(entry)?;
        Ok(receipt)
    }

    /// What was asked and answered, in order.
    pub fn journal(&self) -> &[Entry]
        ensures { result.now ≡ self.now.journal }
    {
        self.journal.as_slice()
    }

    /// Empties the journal. The devices stay as they are: they stand for the entries that were in it,
    /// and go on from there.
    pub fn clear_journal(&mut self)
        ensures { self.new ≡ record self.old { journal = [] } }
    {
        self.journal.clear();
    }

    /// The devices. The journal is given up.
    pub fn into_devices(self) -> D
        ensures { result ≡ self.devices }
    {
        let World {
            alloc: _,
            devices,
            journal: _,
        } = self;
        devices
    }
}

// The answer to a question. Without one, memory ran out.
fn put<D: Devices>(devices: &mut D, question: &Question) -> Result<Answer, OutOfMemory>
    ensures { AskedBy ⟦<D as Devices>⟧ devices.old devices.new question.now (given result) }
{
    match question {
        Question::Now => Ok(Answer::Moment(devices.now())),
        Question::Jitter => Ok(Answer::Jitter(devices.jitter())),
        Question::Read { path } => match devices.read(path.as_str()) {
            Ok(bytes) => Ok(Answer::Contents(bytes)),
            Err(fault) => failed(fault),
        },
        Question::Write { path, bytes } => match devices.write(path.as_str(), bytes.as_slice()) {
            Ok(()) => Ok(Answer::Written),
            Err(fault) => failed(fault),
        },
        Question::Run { command } => match devices.run(command.as_str()) {
            Ok(finished) => Ok(Answer::Finished(finished)),
            Err(fault) => failed(fault),
        },
        Question::LookUp { host } => match devices.look_up(host.as_str()) {
            Ok(addresses) => Ok(Answer::Addresses(addresses)),
            Err(fault) => failed(fault),
        },
        Question::Send(request) => match devices.send(request.get()) {
            Ok(reply) => Ok(Answer::Replied(reply)),
            Err(fault) => failed(fault),
        },
    }
}

fn failed(fault: Fault) -> Result<Answer, OutOfMemory>
    ensures { given result ≡ failure_of fault }
{
    match fault {
        Fault::Failed(kind) => Ok(Answer::Failed(kind)),
        Fault::OutOfMemory => Err(OutOfMemory),
    }
}
