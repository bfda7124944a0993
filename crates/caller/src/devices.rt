//! Devices of the program's own.
ghost use Rattle.std.specs.Prelude.{◌≡◌, ◌≤◌, Err};
ghost use Rattle.cfg_world.specs.Tallies.{one_more};

use aws_config::devices::{Address, Bytes, Devices, FailKind, Fault, Finished, Reply, Request};
use aws_config::{Instant, Seq};
use std::alloc::Global;

/// A clock that stands at the epoch, a jitter that is 0, and one file, which cannot be written. All else fails,
/// and each failure is counted.
#[derive(Drop)]
pub struct OneFile {
    /// Where the bytes of the file are copied to, at each reading.
    pub alloc: Global,
    /// The path of the file. Other files cannot be read.
    pub path: &'static str,
    /// What the file holds.
    pub content: &'static str,
    /// How many calls have failed. A count that is full stands still.
    pub failures: u64,
}

impl OneFile {
    // The failure is counted. A count that is full stands still.
    fn fail<T>(&mut self, kind: FailKind) -> Result<T, Fault>
        ensures fails { result ≡ Err (Fault.Failed kind) }
        ensures counts { self.new ≡ record self.old { failures = one_more self.old.failures } }
        ensures rises { self.old.failures ≤ self.new.failures }
    {
        self.failures = self.failures.saturating_add(1);
        Err(Fault::Failed(kind))
    }
}

/// They allow the lists in which each answer is theirs. One count stands for all kinds of device.
impl Devices for OneFile {
    ghost use Rattle.caller.specs.Counting.{each_is};
    ghost use Rattle.caller.specs.FileAnswers.{AllAnswered};

    ghost faults = { λ d. each_is d.failures };

    ghost allows = { λ d. AllAnswered d.path.now d.content.now };

    ghost stands = { λ d. AllAnswered d.path.now d.content.now };

    ghost stands_allowed = { λ d entries h. h };

    fn now(&mut self) -> Instant {
        Instant::epoch()
    }

    fn jitter(&mut self) -> u64 {
        0
    }

    fn read(&mut self, path: &str) -> Result<Bytes, Fault> {
        if path != self.path {
            return self.fail(FailKind::Io);
        }
        match Bytes::of(self.alloc, self.content.as_bytes()) {
            Ok(bytes) => Ok(bytes),
            Err(_) => Err(Fault::OutOfMemory),
        }
    }

    fn write(&mut self, _path: &str, _bytes: &[u8]) -> Result<(), Fault> {
        self.fail(FailKind::Io)
    }

    fn run(&mut self, _command: &str) -> Result<Finished, Fault> {
        self.fail(FailKind::Io)
    }

    fn look_up(&mut self, _host: &str) -> Result<Seq<Address>, Fault> {
        self.fail(FailKind::Io)
    }

    fn send(&mut self, _request: &Request) -> Result<Reply, Fault> {
        self.fail(FailKind::Dispatch)
    }
}
