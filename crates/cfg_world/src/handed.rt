//! Devices that give the answers that they were handed.
ghost use Rattle.std.specs.Prelude.{◌≡◌, ◌+◌, pos, ◌≤ℤ◌, IfOk, option_map};
ghost use Rattle.cfg_world.specs.Fits.{Fits};
ghost use Rattle.cfg_world.specs.Tallies.{no_faults, one_more};
ghost use Rattle.cfg_world.specs.Handed.{Handed, used_by, IsGiven, or_io, written_or_io, sent, next_answer};

use crate::ask::{Answer, Question};
use crate::devices::Devices;
use crate::fitting::{fits_request, is_transport};
use crate::tally::Tally;
use cfg_types::{
    Address, Bytes, FailKind, Fault, Finished, Instant, OutOfMemory, Reply, Request, Seq, TryCopy,
};
use std::alloc::Global;
use std::marker::Model;

/// Devices that give the i-th question the i-th of the answers that they were handed, where there is
/// one and it fits. Else a reading of the clock gets the epoch, a jitter gets 0, and every other
/// question fails, a send with `Dispatch` and the others with `Io`. An answer that does not fit its
/// question is used up by it. Where memory runs out it is `OutOfMemory`, and nothing is used up.
pub struct HandedDevices {
    answers: Vec<Answer>,
    used: usize,
    questions: u64,
    faults: Tally,
}

impl Model for HandedDevices {
    ghost use Rattle.cfg_world.specs.Handed.{Handed};

    ghost Value = { Handed };

    ghost view = { λ h. record { answers = h.answers.items; used = h.used; questions = h.questions; faults = h.faults } };
}

impl Drop for HandedDevices {
    fn drop(self) {
        let HandedDevices {
            answers: _,
            used: _,
            questions: _,
            faults: _,
        } = self;
    }
}

impl HandedDevices {
    /// Devices with these answers, of which none is used up, and that were asked nothing.
    pub fn new(answers: Vec<Answer>) -> HandedDevices
        ensures { result ≡ record { answers = answers.items; used = 0; questions = 0; faults = no_faults } }
    {
        HandedDevices {
            answers,
            used: 0,
            questions: 0,
            faults: Tally::none(),
        }
    }

    // The answer of the next place.
    fn next(&self) -> Option<&Answer>
        ensures { option_map (λ a. a.now) result ≡ next_answer self.now }
    {
        self.answers.as_slice().get(self.used)
    }

    // One more question was put, and the next answer is used up, if there is one.
    fn use_up(&mut self)
        ensures { self.new ≡ record self.old { used = used_by self.old.answers (self.old.used + 1); questions = one_more self.old.questions } }
    {
        self.questions = self.questions.saturating_add(1);
        if self.used < self.answers.len() {
            self.used += 1;
        } else {
            self.used = self.answers.len();
        }
    }
}

/// They allow exactly the lists that their rule gives, and stand for those of them that have as many
/// entries as they have answered questions, which they count up to the end of 64 bits.
impl Devices for HandedDevices {
    ghost use Rattle.std.specs.Prelude.{Some};
    ghost use Rattle.cfg_base.specs.Text.{characters};
    ghost use Rattle.cfg_world.specs.Asked.{answer_of, written_answer};
    ghost use Rattle.cfg_world.specs.Grows.{AskedBy};
    ghost use Rattle.cfg_world.specs.Handed.{Allows, Stands, HandedOut};

    ghost faults = { λ h. h.faults };

    ghost allows = { Allows };

    ghost stands = { Stands };

    ghost stands_allowed = { λ h entries s. s.given };

    #[tactic(auto, using(crate::proofs::HandedOver::handing))]
    fn now(&mut self) -> Instant
        ensures asked { AskedBy ⟦<Self as Devices>⟧ self.old self.new Question.Now (Some (Answer.Moment result)) }
        ensures handed { HandedOut self.old self.new Question.Now (Some (Answer.Moment result)) }
    {
        let moment = moment_in(self.next());
        self.use_up();
        moment
    }

    #[tactic(auto, using(crate::proofs::HandedOver::handing))]
    fn jitter(&mut self) -> u64
        ensures asked { AskedBy ⟦<Self as Devices>⟧ self.old self.new Question.Jitter (Some (Answer.Jitter result)) }
        ensures handed { HandedOut self.old self.new Question.Jitter (Some (Answer.Jitter result)) }
    {
        let number = number_in(self.next());
        self.use_up();
        number
    }

    #[tactic(auto, using(crate::proofs::HandedOver::handing))]
    fn read(&mut self, path: &str) -> Result<Bytes, Fault>
        ensures asked { AskedBy ⟦<Self as Devices>⟧ self.old self.new (Question.Read (characters path.now)) (answer_of Answer.Contents result) }
        ensures handed { HandedOut self.old self.new (Question.Read (characters path.now)) (answer_of Answer.Contents result) }
    {
        let Ok(given) = contents_in(*self.answers.allocator(), self.next()) else {
            return Err(Fault::OutOfMemory);
        };
        self.use_up();
        match given {
            Some(bytes) => Ok(bytes),
            None => {
                self.faults.raise_files();
                Err(Fault::Failed(FailKind::Io))
            }
        }
    }

    #[tactic(auto, using(crate::proofs::HandedOver::handing))]
    fn write(&mut self, path: &str, bytes: &[u8]) -> Result<(), Fault>
        ensures asked { AskedBy ⟦<Self as Devices>⟧ self.old self.new (Question.Write (characters path.now) bytes.now) (written_answer result) }
        ensures handed { HandedOut self.old self.new (Question.Write (characters path.now) bytes.now) (written_answer result) }
    {
        let written = is_written(self.next());
        self.use_up();
        if written {
            Ok(())
        } else {
            self.faults.raise_files();
            Err(Fault::Failed(FailKind::Io))
        }
    }

    #[tactic(auto, using(crate::proofs::HandedOver::handing))]
    fn run(&mut self, command: &str) -> Result<Finished, Fault>
        ensures asked { AskedBy ⟦<Self as Devices>⟧ self.old self.new (Question.Run (characters command.now)) (answer_of Answer.Finished result) }
        ensures handed { HandedOut self.old self.new (Question.Run (characters command.now)) (answer_of Answer.Finished result) }
    {
        let Ok(given) = finished_in(*self.answers.allocator(), self.next()) else {
            return Err(Fault::OutOfMemory);
        };
        self.use_up();
        match given {
            Some(finished) => Ok(finished),
            None => {
                self.faults.raise_commands();
                Err(Fault::Failed(FailKind::Io))
            }
        }
    }

    #[tactic(auto, using(crate::proofs::HandedOver::handing))]
    fn look_up(&mut self, host: &str) -> Result<Seq<Address>, Fault>
        ensures asked { AskedBy ⟦<Self as Devices>⟧ self.old self.new (Question.LookUp (characters host.now)) (answer_of Answer.Addresses result) }
        ensures handed { HandedOut self.old self.new (Question.LookUp (characters host.now)) (answer_of Answer.Addresses result) }
    {
        let Ok(given) = addresses_in(*self.answers.allocator(), self.next()) else {
            return Err(Fault::OutOfMemory);
        };
        self.use_up();
        match given {
            Some(addresses) => Ok(addresses),
            None => {
                self.faults.raise_lookups();
                Err(Fault::Failed(FailKind::Io))
            }
        }
    }

    #[tactic(auto, using(crate::proofs::HandedOver::handing))]
    fn send(&mut self, request: &Request) -> Result<Reply, Fault>
        ensures asked { AskedBy ⟦<Self as Devices>⟧ self.old self.new (Question.Send request.now) (answer_of Answer.Replied result) }
        ensures handed { HandedOut self.old self.new (Question.Send request.now) (answer_of Answer.Replied result) }
    {
        let Ok(sent) = reply_in(*self.answers.allocator(), request, self.next()) else {
            return Err(Fault::OutOfMemory);
        };
        self.use_up();
        match sent {
            Ok(reply) => Ok(reply),
            Err(kind) => {
                self.faults.raise_transport();
                Err(Fault::Failed(kind))
            }
        }
    }
}

// Each of these reads an answer as one to a question of its kind.

fn moment_in(given: Option<&Answer>) -> Instant
    ensures is { IsGiven (option_map (λ a. a.now) given.entry) Question.Now (Answer.Moment result) }
    ensures fits { pos 0 ≤ℤ result.seconds }
{
    match given {
        Some(Answer::Moment(moment)) => {
            if moment.seconds() >= 0 {
                *moment
            } else {
                Instant::epoch()
            }
        }
        _ => Instant::epoch(),
    }
}

fn number_in(given: Option<&Answer>) -> u64
    ensures { IsGiven (option_map (λ a. a.now) given.entry) Question.Jitter (Answer.Jitter result) }
{
    match given {
        Some(Answer::Jitter(number)) => *number,
        _ => 0,
    }
}

fn contents_in(alloc: Global, given: Option<&Answer>) -> Result<Option<Bytes>, OutOfMemory>
    ensures { IfOk result (λ bytes. (path : _) → IsGiven (option_map (λ a. a.now) given.entry) (Question.Read path) (or_io Answer.Contents bytes)) }
{
    match given {
        Some(Answer::Contents(bytes)) => Ok(Some(bytes.copy(alloc)?)),
        _ => Ok(None),
    }
}

fn is_written(given: Option<&Answer>) -> bool
    ensures { (path bytes : _) → IsGiven (option_map (λ a. a.now) given.entry) (Question.Write path bytes) (written_or_io result) }
{
    match given {
        Some(Answer::Written) => true,
        _ => false,
    }
}

fn finished_in(alloc: Global, given: Option<&Answer>) -> Result<Option<Finished>, OutOfMemory>
    ensures { IfOk result (λ finished. (command : _) → IsGiven (option_map (λ a. a.now) given.entry) (Question.Run command) (or_io Answer.Finished finished)) }
{
    match given {
        Some(Answer::Finished(finished)) => Ok(Some(finished.copy(alloc)?)),
        _ => Ok(None),
    }
}

fn addresses_in(alloc: Global, given: Option<&Answer>) -> Result<Option<Seq<Address>>, OutOfMemory>
    ensures { IfOk result (λ addresses. (host : _) → IsGiven (option_map (λ a. a.now) given.entry) (Question.LookUp host) (or_io Answer.Addresses addresses)) }
{
    match given {
        Some(Answer::Addresses(addresses)) => Ok(Some(addresses.copy(alloc)?)),
        _ => Ok(None),
    }
}

fn reply_in(
    alloc: Global,
    request: &Request,
    given: Option<&Answer>,
) -> Result<Result<Reply, FailKind>, OutOfMemory>
    ensures is { IfOk result (λ r. IsGiven (option_map (λ a. a.now) given.entry) (Question.Send request.now) (sent r)) }
    ensures fits { IfOk result (λ r. Fits (Question.Send request.now) (sent r)) }
{
    match given {
        Some(Answer::Replied(reply)) => {
            if fits_request(request, reply) {
                return Ok(Ok(reply.copy(alloc)?));
            }
            Ok(Err(FailKind::Dispatch))
        }
        Some(Answer::Failed(kind)) => {
            if is_transport(*kind) {
                return Ok(Err(*kind));
            }
            Ok(Err(FailKind::Dispatch))
        }
        _ => Ok(Err(FailKind::Dispatch)),
    }
}
