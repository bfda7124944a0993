//! Devices that answer from lists.
ghost use Rattle.std.specs.Prelude.{◌≡◌, ◌≤◌, [], Err, IfOk, OnOk, OnErr, length, slice_get, unwrap_or};
ghost use Rattle.std.specs.Option.{option_copied};
ghost use Rattle.cfg_base.specs.Text.{characters};
ghost use Rattle.cfg_world.specs.Tallies.{no_faults, one_more, CountedOnce};
ghost use Rattle.cfg_world.specs.Script.{AllFit, no_answers, start, queue_of, next_answer, one_further, sent, step, contents_at};
ghost use Rattle.cfg_world.specs.Scripted.{place_of};

mod paths;
mod queues;
mod writes;

use crate::ask::{Answer, Question};
use crate::devices::Devices;
use cfg_types::{
    Address, Bytes, FailKind, Fault, Finished, Instant, OutOfMemory, Reply, Request, Seq, Text,
    TextMap, TryCopy,
};
use std::alloc::Global;
use std::marker::Model;
use writes::Writes;

/// What scripted devices answer. Each list but those of files is answered from in order.
pub struct DeviceLists {
    /// Files by their paths, with what they hold. One without contents, or that is not listed, fails
    /// with `Io`. Of two listings of a path the later counts, and once the path was written to, what
    /// was last written.
    pub files: Seq<(Text, Option<Bytes>)>,
    /// Paths to which no write is granted. A write to one fails with `Io`.
    pub unwritable: Seq<Text>,
    /// Readings of the clock. The last one is repeated, and without one the clock stands at the epoch.
    pub clock: Seq<Instant>,
    /// Numbers of the jitter. Where none is left it is 0.
    pub jitter: Seq<u64>,
    /// What commands leave behind, one after the other, whatever they are. Where no item is left a
    /// command fails with `Io`.
    pub commands: Seq<Result<Finished, FailKind>>,
    /// Addresses of hosts, one list a look-up, whatever the host is. Where no item is left a look-up
    /// fails with `Io`.
    pub lookups: Seq<Result<Seq<Address>, FailKind>>,
    /// Replies to GETs. Where none is left, in this queue and in the next seven, a request fails with
    /// `Dispatch`.
    pub http: Seq<Result<Reply, FailKind>>,
    /// Replies to requests for a metadata token.
    pub imds_token: Seq<Result<Reply, FailKind>>,
    /// Replies to requests for metadata.
    pub imds_get: Seq<Result<Reply, FailKind>>,
    /// Replies to `AssumeRole`.
    pub assume_role: Seq<Result<Reply, FailKind>>,
    /// Replies to `AssumeRoleWithWebIdentity`.
    pub web_identity: Seq<Result<Reply, FailKind>>,
    /// Replies to `GetRoleCredentials`.
    pub role_credentials: Seq<Result<Reply, FailKind>>,
    /// Replies to `CreateToken`.
    pub create_token: Seq<Result<Reply, FailKind>>,
    /// Replies to `CreateOAuth2Token`.
    pub sign_in: Seq<Result<Reply, FailKind>>,
}

impl Drop for DeviceLists {
    fn drop(self) {
        let DeviceLists {
            files: _,
            unwritable: _,
            clock: _,
            jitter: _,
            commands: _,
            lookups: _,
            http: _,
            imds_token: _,
            imds_get: _,
            assume_role: _,
            web_identity: _,
            role_credentials: _,
            create_token: _,
            sign_in: _,
        } = self;
    }
}

impl DeviceLists {
    /// Lists without items: no file can be read before it is written, every path is writable, the
    /// clock stands at the epoch, the jitter is 0, and commands, look-ups and requests fail.
    pub fn empty(alloc: Global) -> DeviceLists
        ensures { result ≡ no_answers }
    {
        DeviceLists {
            files: Seq::of(Vec::new(alloc)),
            unwritable: Seq::of(Vec::new(alloc)),
            clock: Seq::of(Vec::new(alloc)),
            jitter: Seq::of(Vec::new(alloc)),
            commands: Seq::of(Vec::new(alloc)),
            lookups: Seq::of(Vec::new(alloc)),
            http: Seq::of(Vec::new(alloc)),
            imds_token: Seq::of(Vec::new(alloc)),
            imds_get: Seq::of(Vec::new(alloc)),
            assume_role: Seq::of(Vec::new(alloc)),
            web_identity: Seq::of(Vec::new(alloc)),
            role_credentials: Seq::of(Vec::new(alloc)),
            create_token: Seq::of(Vec::new(alloc)),
            sign_in: Seq::of(Vec::new(alloc)),
        }
    }
}

// How far each list was read. The fields are those of `DeviceLists`, but for files and paths, which are looked up.
struct Places {
    clock: usize,
    jitter: usize,
    commands: usize,
    lookups: usize,
    http: usize,
    imds_token: usize,
    imds_get: usize,
    assume_role: usize,
    web_identity: usize,
    role_credentials: usize,
    create_token: usize,
    sign_in: usize,
}

impl Drop for Places {
    fn drop(self) {
        let Places {
            clock: _,
            jitter: _,
            commands: _,
            lookups: _,
            http: _,
            imds_token: _,
            imds_get: _,
            assume_role: _,
            web_identity: _,
            role_credentials: _,
            create_token: _,
            sign_in: _,
        } = self;
    }
}

// How often each kind of device has failed.
#[derive(Drop)]
struct FaultCounts {
    files: u64,
    transport: u64,
    commands: u64,
    lookups: u64,
}

/// Devices that give the answers of their lists, in order, and read back what was written. Where memory
/// runs out it is `OutOfMemory`, and they stay as they were. They allow exactly the lists of entries
/// that these rules give, and stand for those that also leave the places and the writes that they have
/// reached.
pub struct ScriptDevices {
    alloc: Global,
    lists: DeviceLists,
    listed: TextMap<usize>,
    unwritable: TextMap<()>,
    places: Places,
    writes: Writes,
    faults: FaultCounts,
}

impl Drop for ScriptDevices {
    fn drop(self) {
        let ScriptDevices {
            alloc: _,
            lists: _,
            listed: _,
            unwritable: _,
            places: _,
            writes: _,
            faults: _,
        } = self;
    }
}

impl Model for ScriptDevices {
    ghost use Rattle.cfg_world.specs.Script.{Script};
    ghost use Rattle.cfg_world.specs.Scripted.{IsReady, place_of, faults_of};

    ghost Value = { Script };

    ghost view = { λ s. record { lists = s.lists; place = place_of s.places s.writes; faults = faults_of s.faults } };

    ghost invariant = { λ s. IsReady s.lists s.listed s.unwritable };
}

impl ScriptDevices {
    /// Devices that stand at the start of their lists, of which every item fits its questions: no
    /// reading is before the epoch, commands and look-ups fail with `Io` alone, and a request has a
    /// reply of its kind, a service's call also a refusal, or a failure of another kind than `Io`.
    /// Where memory runs out it is `OutOfMemory`.
    pub fn new(alloc: Global, lists: DeviceLists) -> Result<ScriptDevices, OutOfMemory>
        requires { AllFit lists }
        ensures { IfOk result (λ s. s ≡ record { lists = lists; place = start; faults = no_faults }) }
    {
        let listed = paths::indexed(alloc, lists.files.as_slice())?;
        let unwritable = paths::named(alloc, lists.unwritable.as_slice())?;
        Ok(ScriptDevices {
            alloc,
            lists,
            listed,
            unwritable,
            places: Places {
                clock: 0,
                jitter: 0,
                commands: 0,
                lookups: 0,
                http: 0,
                imds_token: 0,
                imds_get: 0,
                assume_role: 0,
                web_identity: 0,
                role_credentials: 0,
                create_token: 0,
                sign_in: 0,
            },
            writes: Writes::new(alloc),
            faults: FaultCounts {
                files: 0,
                transport: 0,
                commands: 0,
                lookups: 0,
            },
        })
    }

    // What the file of this path holds, if it can be read.
    fn contents(&self, path: &str) -> Option<&Bytes>
        ensures { option_copied result ≡ contents_at self.now.lists self.now.place.writes (characters path.now) }
    {
        match self.writes.last(path) {
            Some(bytes) => Some(bytes),
            None => match paths::last_under(&self.listed, self.lists.files.as_slice(), path) {
                Some(Some(bytes)) => Some(bytes),
                _ => None,
            },
        }
    }
}

impl Devices for ScriptDevices {
    ghost use Rattle.std.specs.Prelude.{Some};
    ghost use Rattle.cfg_world.specs.Asked.{answer_of, written_answer};
    ghost use Rattle.cfg_world.specs.Grows.{AskedBy};
    ghost use Rattle.cfg_world.specs.Script.{Allows, Stands};

    ghost faults = { λ s. s.faults };

    ghost allows = { Allows };

    ghost stands = { Stands };

    ghost stands_allowed = { λ s entries h. h.0 };

    fn now(&mut self) -> Instant
        ensures asked { AskedBy ⟦<Self as Devices>⟧ self.old self.new Question.Now (Some (Answer.Moment result)) }
        ensures quiet { self.new.faults ≡ self.old.faults }
    {
        let last = queues::last_reading_of(&self.lists.clock);
        queues::next_or(&self.lists.clock, &mut self.places.clock, last)
    }

    fn jitter(&mut self) -> u64
        ensures asked { AskedBy ⟦<Self as Devices>⟧ self.old self.new Question.Jitter (Some (Answer.Jitter result)) }
        ensures quiet { self.new.faults ≡ self.old.faults }
    {
        queues::next_or(&self.lists.jitter, &mut self.places.jitter, 0)
    }

    fn read(&mut self, path: &str) -> Result<Bytes, Fault>
        ensures asked { AskedBy ⟦<Self as Devices>⟧ self.old self.new (Question.Read (characters path.now)) (answer_of Answer.Contents result) }
        ensures once { CountedOnce (Question.Read (characters path.now)) (answer_of Answer.Contents result) self.old.faults self.new.faults }
        ensures memory { result ≡ Err Fault.OutOfMemory → self.new ≡ self.old }
    {
        match self.contents(path) {
            Some(bytes) => {
                let Ok(copied) = bytes.copy(self.alloc) else {
                    return Err(Fault::OutOfMemory);
                };
                Ok(copied)
            }
            None => {
                raise(&mut self.faults.files);
                Err(Fault::Failed(FailKind::Io))
            }
        }
    }

    fn write(&mut self, path: &str, bytes: &[u8]) -> Result<(), Fault>
        ensures asked { AskedBy ⟦<Self as Devices>⟧ self.old self.new (Question.Write (characters path.now) bytes.now) (written_answer result) }
        ensures once { CountedOnce (Question.Write (characters path.now) bytes.now) (written_answer result) self.old.faults self.new.faults }
        ensures memory { result ≡ Err Fault.OutOfMemory → self.new ≡ self.old }
    {
        if paths::is_named(&self.unwritable, path) {
            raise(&mut self.faults.files);
            return Err(Fault::Failed(FailKind::Io));
        }
        let Ok(()) = self.writes.push(self.alloc, path, bytes) else {
            return Err(Fault::OutOfMemory);
        };
        Ok(())
    }

    fn run(&mut self, command: &str) -> Result<Finished, Fault>
        ensures asked { AskedBy ⟦<Self as Devices>⟧ self.old self.new (Question.Run (characters command.now)) (answer_of Answer.Finished result) }
        ensures once { CountedOnce (Question.Run (characters command.now)) (answer_of Answer.Finished result) self.old.faults self.new.faults }
        ensures memory { result ≡ Err Fault.OutOfMemory → self.new ≡ self.old }
    {
        let Ok(left) = queues::next_copy(
            self.alloc,
            &self.lists.commands,
            &mut self.places.commands,
            FailKind::Io,
        ) else {
            return Err(Fault::OutOfMemory);
        };
        match left {
            Ok(finished) => Ok(finished),
            Err(kind) => {
                raise(&mut self.faults.commands);
                Err(Fault::Failed(kind))
            }
        }
    }

    fn look_up(&mut self, host: &str) -> Result<Seq<Address>, Fault>
        ensures asked { AskedBy ⟦<Self as Devices>⟧ self.old self.new (Question.LookUp (characters host.now)) (answer_of Answer.Addresses result) }
        ensures once { CountedOnce (Question.LookUp (characters host.now)) (answer_of Answer.Addresses result) self.old.faults self.new.faults }
        ensures memory { result ≡ Err Fault.OutOfMemory → self.new ≡ self.old }
    {
        let Ok(found) = queues::next_copy(
            self.alloc,
            &self.lists.lookups,
            &mut self.places.lookups,
            FailKind::Io,
        ) else {
            return Err(Fault::OutOfMemory);
        };
        match found {
            Ok(addresses) => Ok(addresses),
            Err(kind) => {
                raise(&mut self.faults.lookups);
                Err(Fault::Failed(kind))
            }
        }
    }

    fn send(&mut self, request: &Request) -> Result<Reply, Fault>
        ensures asked { AskedBy ⟦<Self as Devices>⟧ self.old self.new (Question.Send request.now) (answer_of Answer.Replied result) }
        ensures once { CountedOnce (Question.Send request.now) (answer_of Answer.Replied result) self.old.faults self.new.faults }
        ensures memory { result ≡ Err Fault.OutOfMemory → self.new ≡ self.old }
    {
        let Ok(sent) = next_reply(self.alloc, &self.lists, &mut self.places, request) else {
            return Err(Fault::OutOfMemory);
        };
        match sent {
            Ok(reply) => Ok(reply),
            Err(kind) => {
                raise(&mut self.faults.transport);
                Err(Fault::Failed(kind))
            }
        }
    }
}

// One failure more. A count that is full stands still, as those of `Tally` do.
fn raise(count: &mut u64)
    ensures counted { count.new ≡ one_more count.old }
    ensures later { count.old ≤ count.new }
{
    *count = count.saturating_add(1);
}

// A copy of the next reply of the queue of this request.
fn next_reply(
    alloc: Global,
    lists: &DeviceLists,
    places: &mut Places,
    request: &Request,
) -> Result<Result<Reply, FailKind>, OutOfMemory>
    ensures item { IfOk result (λ r. sent r ≡ next_answer lists.now (place_of places.old []) (queue_of request.now)) }
    ensures further { OnOk result ((writes : _) → place_of places.new writes ≡ one_further lists.now (place_of places.old writes) (queue_of request.now)) }
    ensures memory { OnErr result (places.new ≡ places.old) }
{
    match request {
        Request::Http(_) => next_sent(alloc, &lists.http, &mut places.http),
        Request::MetadataToken(_) => next_sent(alloc, &lists.imds_token, &mut places.imds_token),
        Request::MetadataGet(_) => next_sent(alloc, &lists.imds_get, &mut places.imds_get),
        Request::AssumeRole(_) => next_sent(alloc, &lists.assume_role, &mut places.assume_role),
        Request::AssumeRoleWithWebIdentity(_) => {
            next_sent(alloc, &lists.web_identity, &mut places.web_identity)
        }
        Request::GetRoleCredentials(_) => next_sent(
            alloc,
            &lists.role_credentials,
            &mut places.role_credentials,
        ),
        Request::CreateToken(_) => next_sent(alloc, &lists.create_token, &mut places.create_token),
        Request::CreateOAuth2Token(_) => next_sent(alloc, &lists.sign_in, &mut places.sign_in),
    }
}

// A copy of the next reply of a queue. Behind its end nothing is dispatched.
fn next_sent(
    alloc: Global,
    replies: &Seq<Result<Reply, FailKind>>,
    at: &mut usize,
) -> Result<Result<Reply, FailKind>, OutOfMemory>
    ensures item { IfOk result (λ r. r ≡ unwrap_or (slice_get replies.now at.old) (Err FailKind.Dispatch)) }
    ensures further { OnOk result (at.new ≡ step at.old (length replies.now)) }
    ensures memory { OnErr result (at.new ≡ at.old) }
{
    queues::next_copy(alloc, replies, at, FailKind::Dispatch)
}
