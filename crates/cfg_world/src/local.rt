//! Devices of this machine: its clock and its files.
ghost use Rattle.std.specs.Prelude.{◌≡◌, pos, ◌≤ℤ◌};
ghost use Rattle.cfg_world.specs.Tallies.{no_faults};

use crate::ask::{Answer, Question};
use crate::devices::Devices;
use crate::tally::Tally;
use cfg_types::{Address, Bytes, FailKind, Fault, Finished, Instant, Reply, Request, Seq};
use std::alloc::Global;
use std::fs::File;
use std::io;
use std::io::{ErrorKind, Read, Write};
use std::marker::Model;
use std::rt::{Clock, Files};

/// The clock and the files of the machine that a runtime stands for. A clock that cannot be read, that
/// stands before the epoch, or whose seconds are too many for a moment, reads as the epoch. The jitter
/// is always 0. A reading or a writing that fails is `Io`, or `OutOfMemory`; after such a writing the
/// file may be empty, or hold a part of the bytes. Commands and look-ups always fail with `Io`, and
/// sends with `Dispatch`. Contracts see how often each kind of device has failed; no clause says what a
/// file holds, or what time it is.
pub struct LocalDevices<'a, R: Files + Clock> {
    alloc: Global,
    rt: &'a R,
    faults: Tally,
}

impl<'a, R: Files + Clock> Model for LocalDevices<'a, R> {
    ghost use Rattle.cfg_world.specs.Faults.{Faults};

    ghost Value = { Faults };

    ghost view = { λ l. l.faults };
}

impl<'a, R: Files + Clock> Drop for LocalDevices<'a, R> {
    fn drop(self) {
        let LocalDevices {
            alloc: _,
            rt: _,
            faults: _,
        } = self;
    }
}

impl<'a, R: Files + Clock> LocalDevices<'a, R> {
    /// The devices of the machine that this runtime stands for. None has failed.
    pub fn new(alloc: Global, rt: &'a R) -> LocalDevices<'a, R>
        ensures { result ≡ no_faults }
    {
        LocalDevices {
            alloc,
            rt,
            faults: Tally::none(),
        }
    }
}

/// They allow every list of entries, and stand for every list.
impl<'a, R: Files + Clock> Devices for LocalDevices<'a, R> {
    ghost use Rattle.std.specs.Prelude.{Some, Err};
    ghost use Rattle.cfg_base.specs.Text.{characters};
    ghost use Rattle.cfg_world.specs.Asked.{answer_of, written_answer};
    ghost use Rattle.cfg_world.specs.Grows.{AskedBy};
    ghost use Rattle.cfg_world.specs.Tallies.{any_list, raised, FileCounted};

    ghost faults = { λ l. l };

    ghost allows = { λ l. any_list };

    ghost stands = { λ l. any_list };

    ghost stands_allowed = { λ l entries h. h };

    fn now(&mut self) -> Instant
        ensures asked { AskedBy ⟦<Self as Devices>⟧ self.old self.new Question.Now (Some (Answer.Moment result)) }
        ensures quiet { self.new ≡ self.old }
    {
        moment(self.rt)
    }

    fn jitter(&mut self) -> u64
        ensures asked { AskedBy ⟦<Self as Devices>⟧ self.old self.new Question.Jitter (Some (Answer.Jitter result)) }
        ensures quiet { self.new ≡ self.old }
        ensures zero { result ≡ 0 }
    {
        0
    }

    fn read(&mut self, path: &str) -> Result<Bytes, Fault>
        ensures asked { AskedBy ⟦<Self as Devices>⟧ self.old self.new (Question.Read (characters path.now)) (answer_of Answer.Contents result) }
        ensures counted { FileCounted self.old self.new result }
    {
        match contents(self.alloc, self.rt, path) {
            Ok(bytes) => Ok(bytes),
            Err(error) if error.kind() == ErrorKind::OutOfMemory => Err(Fault::OutOfMemory),
            Err(_) => {
                self.faults.raise_files();
                Err(Fault::Failed(FailKind::Io))
            }
        }
    }

    fn write(&mut self, path: &str, bytes: &[u8]) -> Result<(), Fault>
        ensures asked { AskedBy ⟦<Self as Devices>⟧ self.old self.new (Question.Write (characters path.now) bytes.now) (written_answer result) }
        ensures counted { FileCounted self.old self.new result }
    {
        match let_hold(self.rt, path, bytes) {
            Ok(()) => Ok(()),
            Err(error) if error.kind() == ErrorKind::OutOfMemory => Err(Fault::OutOfMemory),
            Err(_) => {
                self.faults.raise_files();
                Err(Fault::Failed(FailKind::Io))
            }
        }
    }

    fn run(&mut self, command: &str) -> Result<Finished, Fault>
        ensures asked { AskedBy ⟦<Self as Devices>⟧ self.old self.new (Question.Run (characters command.now)) (answer_of Answer.Finished result) }
        ensures fails { result ≡ Err (Fault.Failed FailKind.Io) }
        ensures counted { self.new ≡ raised (Question.Run (characters command.now)) self.old }
    {
        self.faults.raise_commands();
        Err(Fault::Failed(FailKind::Io))
    }

    fn look_up(&mut self, host: &str) -> Result<Seq<Address>, Fault>
        ensures asked { AskedBy ⟦<Self as Devices>⟧ self.old self.new (Question.LookUp (characters host.now)) (answer_of Answer.Addresses result) }
        ensures fails { result ≡ Err (Fault.Failed FailKind.Io) }
        ensures counted { self.new ≡ raised (Question.LookUp (characters host.now)) self.old }
    {
        self.faults.raise_lookups();
        Err(Fault::Failed(FailKind::Io))
    }

    fn send(&mut self, request: &Request) -> Result<Reply, Fault>
        ensures asked { AskedBy ⟦<Self as Devices>⟧ self.old self.new (Question.Send request.now) (answer_of Answer.Replied result) }
        ensures fails { result ≡ Err (Fault.Failed FailKind.Dispatch) }
        ensures counted { self.new ≡ raised (Question.Send request.now) self.old }
    {
        self.faults.raise_transport();
        Err(Fault::Failed(FailKind::Dispatch))
    }
}

// The time, or the epoch.
fn moment<R: Clock>(rt: &R) -> Instant
    ensures { pos 0 ≤ℤ result.seconds }
{
    let Ok(since) = rt.since_1970() else {
        return Instant::epoch();
    };
    let Ok(seconds) = i64::try_from(since.as_secs()) else {
        return Instant::epoch();
    };
    match Instant::new(seconds, since.subsec_nanos()) {
        Some(moment) => moment,
        None => Instant::epoch(),
    }
}

fn contents<R: Files>(alloc: Global, rt: &R, path: &str) -> io::Result<Bytes> {
    let mut file = File::open(rt, path)?;
    let mut bytes = Vec::new(alloc);
    file.read_to_end(&mut bytes)?;
    Ok(Bytes::from_vec(bytes))
}

fn let_hold<R: Files>(rt: &R, path: &str, bytes: &[u8]) -> io::Result<()> {
    let mut file = File::create(rt, path)?;
    file.write_all(bytes)?;
    file.flush()
}
