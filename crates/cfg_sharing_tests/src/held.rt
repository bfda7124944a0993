//! Devices of which one question waits for another caller.
use cfg_types::{Address, Bytes, Fault, Finished, Instant, Reply, Request, Seq};
use cfg_world::Devices;
use std::sync::atomic::{AtomicU64, Ordering};
use std::thread;

/// A question that may wait: a reading of a file, or a request.
#[derive(Clone, Copy, Debug, PartialEq, Eq)]
pub(crate) enum Held {
    Read,
    Send,
}

/// Whether a sign comes within a million turns, each of which gives up the processor.
pub(crate) fn comes(sign: &AtomicU64) -> bool {
    for _ in 0..1_000_000u32 {
        if sign.load(Ordering::SeqCst) == 1 {
            return true;
        }
        thread::yield_now();
    }
    false
}

/// What a caller tells another one, and what it waits for, at its first question of a kind.
#[derive(Drop)]
pub(crate) struct Meeting<'a> {
    at: Held,
    told: &'a AtomicU64,
    awaited: &'a AtomicU64,
    // The question was reached, and the other caller's sign came in time.
    met: Option<bool>,
}

impl<'a> Meeting<'a> {
    /// At the first question of this kind the caller tells that it is there, and waits for the other one.
    pub(crate) fn new(at: Held, told: &'a AtomicU64, awaited: &'a AtomicU64) -> Meeting<'a> {
        Meeting {
            at,
            told,
            awaited,
            met: None,
        }
    }

    fn reach(&mut self, at: Held) {
        if self.at == at && self.met.is_none() {
            self.told.store(1, Ordering::SeqCst);
            self.met = Some(comes(self.awaited));
        }
    }
}

/// Other devices, which are held once, until another caller tells that it is there.
#[derive(Drop)]
pub(crate) struct HeldDevices<'a, D: Devices> {
    inner: D,
    meeting: Meeting<'a>,
}

impl<'a, D: Devices> HeldDevices<'a, D> {
    /// These devices with this meeting.
    pub(crate) fn new(inner: D, meeting: Meeting<'a>) -> HeldDevices<'a, D> {
        HeldDevices { inner, meeting }
    }

    /// Whether the question was reached, and the other caller came in time.
    pub(crate) fn met(&self) -> bool {
        self.meeting.met == Some(true)
    }
}

impl<'a, D: Devices> Devices for HeldDevices<'a, D> {
    ghost faults = { λ h. D.faults h.inner };

    ghost allows = { λ h. D.allows h.inner };

    ghost stands = { λ h. D.stands h.inner };

    ghost stands_allowed = { λ h entries s. D.stands_allowed h.inner entries s };

    fn now(&mut self) -> Instant {
        self.inner.now()
    }

    fn jitter(&mut self) -> u64 {
        self.inner.jitter()
    }

    fn read(&mut self, path: &str) -> Result<Bytes, Fault> {
        self.meeting.reach(Held::Read);
        self.inner.read(path)
    }

    fn write(&mut self, path: &str, bytes: &[u8]) -> Result<(), Fault> {
        self.inner.write(path, bytes)
    }

    fn run(&mut self, command: &str) -> Result<Finished, Fault> {
        self.inner.run(command)
    }

    fn look_up(&mut self, host: &str) -> Result<Seq<Address>, Fault> {
        self.inner.look_up(host)
    }

    fn send(&mut self, request: &Request) -> Result<Reply, Fault> {
        self.meeting.reach(Held::Send);
        self.inner.send(request)
    }
}
