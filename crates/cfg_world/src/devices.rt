//! The outside world that questions are put to: clock, files, commands, name look-up, transport.
ghost use Rattle.std.specs.Prelude.{List, Some};
ghost use Rattle.cfg_base.specs.Text.{characters};
ghost use Rattle.cfg_world.specs.Fits.{Pair};
ghost use Rattle.cfg_world.specs.Faults.{Faults};
ghost use Rattle.cfg_world.specs.Asked.{AskedOf, answer_of, written_answer};

use crate::ask::{Answer, Question};
use cfg_types::{Address, Bytes, Fault, Finished, Instant, Reply, Request, Seq};

/// The clock, files, commands, name look-up and the transport. Each call is one question. A call that
/// may fail answers `OutOfMemory` where memory runs out. Devices may answer as they like within what
/// `Asked` says; devices that tell their answers beforehand say so by `allows` and `stands`.
pub trait Devices {
    /// How often each kind of device has failed. A count that is full stands still.
    ghost faults: { Self → Faults };

    /// The devices may give these answers to these questions, in this order, from their start.
    ghost allows: { Self → List Pair → Type 0 };

    /// The devices allow the list, and may have given it so far.
    ghost stands: { Self → List Pair → Type 0 };

    /// The time, in seconds and nanoseconds. It is never before the epoch, and the clock cannot fail.
    fn now(&mut self) -> Instant
        ensures { AskedOf faults allows stands self.old self.new Question.Now (Some (Answer.Moment result)) };

    /// A number that nobody should be able to foresee; no clause says so. It cannot fail.
    fn jitter(&mut self) -> u64
        ensures { AskedOf faults allows stands self.old self.new Question.Jitter (Some (Answer.Jitter result)) };

    /// What the file of this path holds. It fails with `Io` alone, as do the next three.
    fn read(&mut self, path: &str) -> Result<Bytes, Fault>
        ensures { AskedOf faults allows stands self.old self.new (Question.Read (characters path.now)) (answer_of Answer.Contents result) };

    /// Lets the file of this path hold these bytes. What it holds after an error, no clause says.
    fn write(&mut self, path: &str, bytes: &[u8]) -> Result<(), Fault>
        ensures { AskedOf faults allows stands self.old self.new (Question.Write (characters path.now) bytes.now) (written_answer result) };

    /// What this command leaves behind. A status other than 0 is no failure.
    fn run(&mut self, command: &str) -> Result<Finished, Fault>
        ensures { AskedOf faults allows stands self.old self.new (Question.Run (characters command.now)) (answer_of Answer.Finished result) };

    /// The addresses of this host.
    fn look_up(&mut self, host: &str) -> Result<Seq<Address>, Fault>
        ensures { AskedOf faults allows stands self.old self.new (Question.LookUp (characters host.now)) (answer_of Answer.Addresses result) };

    /// The reply to a request. It fails with `Dispatch`, `Timeout` or `Broken` alone.
    fn send(&mut self, request: &Request) -> Result<Reply, Fault>
        ensures { AskedOf faults allows stands self.old self.new (Question.Send request.now) (answer_of Answer.Replied result) };

    /// What stands is allowed.
    ghost stands_allowed: { (devices : Self) (entries : List Pair) → stands devices entries → allows devices entries };
}
