//! Devices of which one call fails.
ghost use Rattle.std.specs.Prelude.{◌≡◌, ◌↔◌, IsTrue};
ghost use Rattle.cfg_world.specs.Tallies.{no_faults};
ghost use Rattle.cfg_world.specs.Faulty.{next_call, counted_on};

use crate::ask::{Answer, Question};
use crate::devices::Devices;
use crate::tally::Tally;
use cfg_types::{Address, Bytes, FailKind, Fault, Finished, Instant, Reply, Request, Seq};
use std::marker::Model;

/// Other devices, of which one call fails. Of the calls `read`, `write`, `run`, `look_up` and `send`,
/// counted together from 1, the one of this number fails, a send with `Dispatch` and the others with
/// `Io`, and the other devices are not asked. All other calls, and the clock and the jitter, which are
/// not counted, are handed on.
pub struct FaultDevices<D: Devices> {
    inner: D,
    at: u64,
    calls: u64,
    own: Tally,
}

impl<D: Devices + Drop> Drop for FaultDevices<D> {
    fn drop(self) {
        let FaultDevices {
            inner: _,
            at: _,
            calls: _,
            own: _,
        } = self;
    }
}

impl<D: Devices> Model for FaultDevices<D> {
    ghost use Rattle.cfg_world.specs.Faulty.{Faulty};

    ghost Value = { Faulty D };

    ghost view = { λ f. record { inner = f.inner; at = f.at; calls = f.calls; own = f.own } };
}

impl<D: Devices> FaultDevices<D> {
    /// These devices, of which the call of this number fails. None fails where the number is 0.
    pub fn new(inner: D, at: u64) -> FaultDevices<D>
        ensures { result ≡ record { inner = inner; at = at; calls = 0; own = no_faults } }
    {
        FaultDevices {
            inner,
            at,
            calls: 0,
            own: Tally::none(),
        }
    }

    /// How many calls there were that may fail. A count that is full stands still.
    pub fn calls(&self) -> u64
        ensures { result ≡ self.now.calls }
    {
        self.calls
    }

    /// The other devices.
    pub fn into_inner(self) -> D
        ensures { result ≡ self.inner }
    {
        let FaultDevices {
            inner,
            at: _,
            calls: _,
            own: _,
        } = self;
        inner
    }

    // Counts a call, and tells whether it is the one that fails.
    fn is_due(&mut self) -> bool
        ensures due { IsTrue result ↔ (next_call self.old ≡ self.old.at) }
        ensures counted { self.new ≡ counted_on self.old }
    {
        self.calls = self.calls.saturating_add(1);
        self.calls == self.at
    }
}

/// They allow every list of entries, and stand for every list.
impl<D: Devices> Devices for FaultDevices<D> {
    ghost use Rattle.std.specs.Prelude.{Some};
    ghost use Rattle.cfg_base.specs.Text.{characters};
    ghost use Rattle.cfg_world.specs.Asked.{answer_of, written_answer};
    ghost use Rattle.cfg_world.specs.Grows.{AskedBy};
    ghost use Rattle.cfg_world.specs.Tallies.{sum_of, any_list};
    ghost use Rattle.cfg_world.specs.Faulty.{Faulty, HandedOn, Numbered};

    ghost faults = { λ f. sum_of (D.faults f.inner) f.own };

    ghost allows = { λ f. any_list };

    ghost stands = { λ f. any_list };

    ghost stands_allowed = { λ f entries h. h };

    fn now(&mut self) -> Instant
        ensures asked { AskedBy ⟦<Self as Devices>⟧ self.old self.new Question.Now (Some (Answer.Moment result)) }
        ensures handed_on { HandedOn ⟦<D as Devices>⟧ self.old self.new Question.Now (Some (Answer.Moment result)) }
    {
        self.inner.now()
    }

    fn jitter(&mut self) -> u64
        ensures asked { AskedBy ⟦<Self as Devices>⟧ self.old self.new Question.Jitter (Some (Answer.Jitter result)) }
        ensures handed_on { HandedOn ⟦<D as Devices>⟧ self.old self.new Question.Jitter (Some (Answer.Jitter result)) }
    {
        self.inner.jitter()
    }

    fn read(&mut self, path: &str) -> Result<Bytes, Fault>
        ensures asked { AskedBy ⟦<Self as Devices>⟧ self.old self.new (Question.Read (characters path.now)) (answer_of Answer.Contents result) }
        ensures numbered { Numbered ⟦<D as Devices>⟧ self.old self.new (Question.Read (characters path.now)) (answer_of Answer.Contents result) }
    {
        if self.is_due() {
            self.own.raise_files();
            return Err(Fault::Failed(FailKind::Io));
        }
        self.inner.read(path)
    }

    fn write(&mut self, path: &str, bytes: &[u8]) -> Result<(), Fault>
        ensures asked { AskedBy ⟦<Self as Devices>⟧ self.old self.new (Question.Write (characters path.now) bytes.now) (written_answer result) }
        ensures numbered { Numbered ⟦<D as Devices>⟧ self.old self.new (Question.Write (characters path.now) bytes.now) (written_answer result) }
    {
        if self.is_due() {
            self.own.raise_files();
            return Err(Fault::Failed(FailKind::Io));
        }
        self.inner.write(path, bytes)
    }

    fn run(&mut self, command: &str) -> Result<Finished, Fault>
        ensures asked { AskedBy ⟦<Self as Devices>⟧ self.old self.new (Question.Run (characters command.now)) (answer_of Answer.Finished result) }
        ensures numbered { Numbered ⟦<D as Devices>⟧ self.old self.new (Question.Run (characters command.now)) (answer_of Answer.Finished result) }
    {
        if self.is_due() {
            self.own.raise_commands();
            return Err(Fault::Failed(FailKind::Io));
        }
        self.inner.run(command)
    }

    fn look_up(&mut self, host: &str) -> Result<Seq<Address>, Fault>
        ensures asked { AskedBy ⟦<Self as Devices>⟧ self.old self.new (Question.LookUp (characters host.now)) (answer_of Answer.Addresses result) }
        ensures numbered { Numbered ⟦<D as Devices>⟧ self.old self.new (Question.LookUp (characters host.now)) (answer_of Answer.Addresses result) }
    {
        if self.is_due() {
            self.own.raise_lookups();
            return Err(Fault::Failed(FailKind::Io));
        }
        self.inner.look_up(host)
    }

    fn send(&mut self, request: &Request) -> Result<Reply, Fault>
        ensures asked { AskedBy ⟦<Self as Devices>⟧ self.old self.new (Question.Send request.now) (answer_of Answer.Replied result) }
        ensures numbered { Numbered ⟦<D as Devices>⟧ self.old self.new (Question.Send request.now) (answer_of Answer.Replied result) }
    {
        if self.is_due() {
            self.own.raise_transport();
            return Err(Fault::Failed(FailKind::Dispatch));
        }
        self.inner.send(request)
    }
}
