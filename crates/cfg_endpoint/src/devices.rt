//! Devices over an endpoint.
ghost use Rattle.std.specs.Prelude.{◌≡◌, ◌↔◌, ◌≤ℤ◌, pos, All, IsTrue, length};
ghost use Rattle.cfg_base.specs.Text.{characters};
ghost use Rattle.cfg_world.specs.Asked.{answer_of};
ghost use Rattle.cfg_world.specs.Script.{step, last_reading};
ghost use Rattle.cfg_world.specs.Tallies.{no_faults};
ghost use Rattle.cfg_endpoint.specs.Endpoints.{IsServed, forgotten};
ghost use Rattle.cfg_endpoint.specs.Devices.{reading_at, RepliesBy};
ghost use Rattle.cfg_endpoint.specs.Lending.{started_with};
ghost use Rattle.cfg_endpoint.specs.Made.{IsMade};

use crate::endpoint::Endpoint;
use cfg_types::{Address, Bytes, Fault, Finished, Instant, Reply, Request, Seq};
use cfg_world::{Answer, Devices, HandedDevices, Question};
use std::alloc::Global;
use std::marker::Model;

/// Devices that hand a container's requests and those to the instance metadata service to an endpoint. The clock
/// gives its readings, one after the other, and repeats the last; without one it stands at the epoch. The jitter is
/// 0. Every other send, reading, write, command and look-up fails, a send with `Dispatch` and the others with `Io`, and
/// is counted. Where memory runs out it is `OutOfMemory`, and nothing has changed.
pub struct EndpointDevices {
    endpoint: Endpoint,
    clock: Seq<Instant>,
    place: usize,
    // Devices without an answer, for all that is not the endpoint's and not the clock's.
    others: HandedDevices,
    first_given: u64,
    first_place: usize,
}

impl Drop for EndpointDevices {
    fn drop(self) {
        let EndpointDevices {
            endpoint: _,
            clock: _,
            place: _,
            others: _,
            first_given: _,
            first_place: _,
        } = self;
    }
}

impl Model for EndpointDevices {
    ghost use Rattle.cfg_endpoint.specs.Devices.{DevicesState, IsReadyDevices};

    ghost Value = { DevicesState };

    ghost view = { λ d. record {
      endpoint = d.endpoint;
      clock = d.clock;
      place = d.place;
      faults = d.others.faults;
      first_given = d.first_given;
      first_place = d.first_place;
    } };

    ghost invariant = { λ d. IsReadyDevices d.clock d.others };
}

impl EndpointDevices {
    ghost use Rattle.std.specs.Borrow.{sem};
    ghost use Rattle.cfg_endpoint.specs.Lending.{LendsEndpoint};

    /// Devices over this endpoint, with these readings of the clock, none of which is before the epoch. They start
    /// here, and no device has failed.
    pub fn new(alloc: Global, endpoint: Endpoint, clock: Seq<Instant>) -> EndpointDevices
        requires { All (λ m. pos 0 ≤ℤ m.seconds) clock }
        ensures { result ≡ record { endpoint = endpoint; clock = clock; place = 0; faults = no_faults; first_given = endpoint.given; first_place = 0 } }
    {
        let first_given = endpoint.given();
        EndpointDevices {
            endpoint,
            clock,
            place: 0,
            others: HandedDevices::new(Vec::new(alloc)),
            first_given,
            first_place: 0,
        }
    }

    /// The endpoint, to serve something else or to forget its tokens. They start again here.
    pub fn endpoint_mut(&mut self) -> &mut Endpoint
        ensures* lends { sem 𝓛 (LendsEndpoint self.entry result) }
        ensures value { result.now ≡ self.entry.now.endpoint }
    {
        self.first_given = self.endpoint.given();
        self.first_place = self.place;
        &mut self.endpoint
    }

    /// Forgets the tokens that the endpoint gave, as [`Endpoint::forget`] does. They start again here.
    pub fn forget(&mut self)
        ensures forgets { self.new ≡ started_with self.old (forgotten self.old.endpoint) }
        ensures made { IsMade self.new.endpoint }
    {
        self.first_given = self.endpoint.given();
        self.first_place = self.place;
        self.endpoint.forget();
    }
}

/// They allow exactly the lists that the endpoint and the rules above give from their start, and stand for those of
/// them that lead from it to what they hold now. The start is the number of tokens given and the place of the clock as
/// they were when they were made, or at the last call of [`Self::endpoint_mut`], with all else as it is now.
impl Devices for EndpointDevices {
    ghost use Rattle.std.specs.Prelude.{Some};
    ghost use Rattle.cfg_world.specs.Asked.{answer_of, written_answer};
    ghost use Rattle.cfg_world.specs.Grows.{AskedBy};
    ghost use Rattle.cfg_endpoint.specs.Devices.{Allows, Stands, MovesBy};

    ghost faults = { λ d. d.faults };

    ghost allows = { Allows };

    ghost stands = { Stands };

    ghost stands_allowed = { λ d journal s. s.allowed };

    fn now(&mut self) -> Instant
        ensures asked { AskedBy ⟦<Self as Devices>⟧ self.old self.new Question.Now (Some (Answer.Moment result)) }
        ensures moved { MovesBy self.old self.new Question.Now (Some (Answer.Moment result)) }
    {
        next_reading(&self.clock, &mut self.place)
    }

    fn jitter(&mut self) -> u64
        ensures asked { AskedBy ⟦<Self as Devices>⟧ self.old self.new Question.Jitter (Some (Answer.Jitter result)) }
        ensures moved { MovesBy self.old self.new Question.Jitter (Some (Answer.Jitter result)) }
    {
        self.others.jitter()
    }

    fn read(&mut self, path: &str) -> Result<Bytes, Fault>
        ensures asked { AskedBy ⟦<Self as Devices>⟧ self.old self.new (Question.Read (characters path.now)) (answer_of Answer.Contents result) }
        ensures moved { MovesBy self.old self.new (Question.Read (characters path.now)) (answer_of Answer.Contents result) }
    {
        self.others.read(path)
    }

    fn write(&mut self, path: &str, bytes: &[u8]) -> Result<(), Fault>
        ensures asked { AskedBy ⟦<Self as Devices>⟧ self.old self.new (Question.Write (characters path.now) bytes.now) (written_answer result) }
        ensures moved { MovesBy self.old self.new (Question.Write (characters path.now) bytes.now) (written_answer result) }
    {
        self.others.write(path, bytes)
    }

    fn run(&mut self, command: &str) -> Result<Finished, Fault>
        ensures asked { AskedBy ⟦<Self as Devices>⟧ self.old self.new (Question.Run (characters command.now)) (answer_of Answer.Finished result) }
        ensures moved { MovesBy self.old self.new (Question.Run (characters command.now)) (answer_of Answer.Finished result) }
    {
        self.others.run(command)
    }

    fn look_up(&mut self, host: &str) -> Result<Seq<Address>, Fault>
        ensures asked { AskedBy ⟦<Self as Devices>⟧ self.old self.new (Question.LookUp (characters host.now)) (answer_of Answer.Addresses result) }
        ensures moved { MovesBy self.old self.new (Question.LookUp (characters host.now)) (answer_of Answer.Addresses result) }
    {
        self.others.look_up(host)
    }

    fn send(&mut self, request: &Request) -> Result<Reply, Fault>
        ensures asked { AskedBy ⟦<Self as Devices>⟧ self.old self.new (Question.Send request.now) (answer_of Answer.Replied result) }
        ensures moved { MovesBy self.old self.new (Question.Send request.now) (answer_of Answer.Replied result) }
    {
        if is_served(request) {
            return ask_endpoint(&mut self.endpoint, request);
        }
        self.others.send(request)
    }
}

// Whether the endpoint replies to the request.
fn is_served(request: &Request) -> bool
    ensures { IsTrue result ↔ IsServed request.now }
{
    matches!(
        request,
        Request::Http(_) | Request::MetadataToken(_) | Request::MetadataGet(_)
    )
}

// The endpoint's reply to one of its requests.
fn ask_endpoint(endpoint: &mut Endpoint, request: &Request) -> Result<Reply, Fault>
    requires { IsServed request.now }
    ensures { RepliesBy endpoint.old endpoint.new request.now (answer_of Answer.Replied result) }
{
    match endpoint.answer(request) {
        Ok(reply) => Ok(Reply::Http(reply)),
        Err(_) => Err(Fault::OutOfMemory),
    }
}

// The next reading of a clock, and one place further.
fn next_reading(clock: &Seq<Instant>, place: &mut usize) -> Instant
    ensures reading { result ≡ reading_at clock.now place.old }
    ensures further { place.new ≡ step place.old (length clock.now) }
    ensures fits { All (λ m. pos 0 ≤ℤ m.seconds) clock.now → pos 0 ≤ℤ result.seconds }
{
    match clock.as_slice().get(*place) {
        Some(moment) => {
            *place += 1;
            *moment
        }
        None => last_of(clock),
    }
}

// The last reading of a clock, or the epoch.
fn last_of(clock: &Seq<Instant>) -> Instant
    ensures is { result ≡ last_reading clock.now }
    ensures fits { All (λ m. pos 0 ≤ℤ m.seconds) clock.now → pos 0 ≤ℤ result.seconds }
{
    match clock.as_slice().last() {
        Some(moment) => *moment,
        None => Instant::epoch(),
    }
}
