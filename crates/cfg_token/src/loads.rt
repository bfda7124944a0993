//! The loads of one token, and what they leave, without the key whose token it is.
ghost use Rattle.std.specs.Prelude.{◌≡◌, ◌∷◌, [], None, IfOk, true, false};
ghost use Rattle.std.specs.Option.{option_copied};
ghost use Rattle.cfg_world.specs.Leaves.{moment_of};
ghost use Rattle.cfg_token.specs.Sections.{hit as hit_of, answer_of, ok_of, noted_or};
ghost use Rattle.cfg_token.specs.Histories.{token_in, kept_in, last_in};
ghost use Rattle.cfg_token.specs.SectionCalls.{is_memory, Answers, Interrupted, EndsWithReading, AnswersAfter, InterruptedAfter};

use crate::file_name::{FileName, file_name};
use crate::file_token::FileToken;
use crate::history::{
    Load, Record, copied_load, copy_load, copy_records, finished_load, put_in_place, token_load,
};
use crate::leaves::{ask_clock, note_receipt};
use crate::loading::{Loaded, load};
use crate::sections::{Sectioned, hit};
use crate::token_key::TokenKey;
use cfg_types::{CallSettings, Env, Instant, OutOfMemory, Shared, TryCopy, copy_option};
use cfg_world::{Asking, Devices, Question, Receipt, Stop, World};
use std::alloc::Global;
use std::marker::Model;

/// The loads of one token so far, from an origin on: what is known of a token, but for the key whose
/// token it is.
#[derive(Drop)]
pub struct Loads<T: FileToken> {
    alloc: Global,
    load: Option<Load<T>>,
    last: Option<Instant>,
    records: Vec<Record<T>>,
    latest: Latest<T>,
    // The name of the file that was looked for last.
    file: Option<Shared<FileName>>,
}

// What the loads leave: the kept token, the last attempt, and the last one before the last record.
#[derive(Drop)]
struct Latest<T> {
    kept: Option<T>,
    attempt: Option<Instant>,
    before: Option<Instant>,
}

impl<T: FileToken> Model for Loads<T> {
    ghost use Rattle.std.specs.Prelude.{IfSome};
    ghost use Rattle.cfg_token.specs.FileNames.{IsNameBy};
    ghost use Rattle.cfg_token.specs.Histories.{History, IsStored};

    ghost Value = { History T T.Error };

    ghost view = { λ s. record { load = s.load; last = s.last; records = s.records.items } };

    ghost invariant = { λ s. IsStored T.rules (record { load = s.load; last = s.last; records = s.records.items })
        s.latest.kept s.latest.attempt s.latest.before × IfSome s.file (IsNameBy T.name_of) };
}

impl<T: FileToken> Loads<T> {
    ghost use Rattle.cfg_token.specs.Histories.{IsHistory};

    /// No load was made, and no attempt is noted.
    pub fn new(alloc: Global) -> Loads<T>
        ensures { result ≡ record { load = None; last = None; records = [] } }
    {
        Loads {
            alloc,
            load: None,
            last: None,
            records: Vec::new(alloc),
            latest: Latest {
                kept: None,
                attempt: None,
                before: None,
            },
            file: None,
        }
    }

    pub(crate) fn alloc(&self) -> Global {
        self.alloc
    }

    /// The loads since the origin, in order. Each is one from what those before it leave.
    pub fn records(&self) -> &[Record<T>]
        ensures is { result.now ≡ self.now.records }
        ensures history { IsHistory T.rules self.now }
    {
        self.records.as_slice()
    }

    /// The token that is kept: that of the last load, if it gave one.
    pub fn kept(&self) -> Option<&T>
        ensures { option_copied result ≡ kept_in self.now }
    {
        self.latest.kept.as_ref()
    }

    /// The reading of the clock at which the last attempt was noted, if any was.
    pub fn last_attempt(&self) -> Option<Instant>
        ensures { result ≡ last_in self.now }
    {
        self.latest.attempt
    }
}

impl<T: FileToken> Loads<T> {
    ghost use Rattle.cfg_token.specs.Histories.{load_in, trimmed};

    /// What the loads began with: the load that gave the token kept then, and the reading of the last
    /// attempt noted before.
    pub fn origin(&self) -> (Option<&Load<T>>, Option<Instant>)
        ensures load { option_copied result.0 ≡ self.now.load }
        ensures last { result.1 ≡ self.now.last }
    {
        (self.load.as_ref(), self.last)
    }

    /// A copy of the load that gave the kept token, or none where no token is kept. `OutOfMemory` where
    /// memory runs out.
    pub fn load(&self) -> Result<Option<Load<T>>, OutOfMemory>
        ensures is { IfOk result (λ l. l ≡ load_in self.now) }
        ensures token { IfOk result (λ l. token_in l ≡ kept_in self.now) }
    {
        match self.records.split_last() {
            Some((record, _)) => copied_load(self.alloc, record, self.latest.before),
            None => copy_load(self.alloc, &self.load),
        }
    }

    /// The origin becomes what is kept now, and there are no records. Nothing is copied.
    pub fn trim(&mut self)
        ensures is { self.new ≡ trimmed self.old }
        ensures kept { kept_in self.new ≡ kept_in self.old }
        ensures last { last_in self.new ≡ last_in self.old }
    {
        if let Some(record) = self.records.pop() {
            self.last = self.latest.attempt;
            self.load = token_load(record, self.latest.before);
            self.records.clear();
        }
    }
}

impl<T: FileToken> Loads<T> {
    ghost use Rattle.cfg_token.specs.SectionCalls.{SectionAnswers, SectionFollows, SectionAnswersAfter, SectionFollowsAfter};

    /// One section, as [`section_on`] is one, over anything that can be asked.
    ///
    /// # Errors
    ///
    /// The outer error says why it was stopped: memory ran out, or a question was left open. The loads
    /// are then as they were. The inner one is the load's.
    pub fn follow<A: Asking>(
        &mut self,
        key: &TokenKey,
        env: &Env,
        settings: &CallSettings,
        asking: &mut A,
    ) -> Result<Result<T, T::Error>, Stop>
        requires { T.rules.is_kind key.now ≡ true }
        ensures { SectionAnswers T.rules ⟦<A as Asking>⟧ key.now env.now settings.now asking.old self.old asking.new self.new result }
    {
        let made = self.make_section(key, env, settings, asking)?;
        Ok(answer(made))
    }

    /// One section, as [`section_after`](crate::section_after) is one, over anything that can be asked,
    /// with the same errors as `follow`. The receipt is that of its first reading, which was asked for
    /// before.
    pub fn follow_after<A: Asking>(
        &mut self,
        key: &TokenKey,
        first: Receipt,
        env: &Env,
        settings: &CallSettings,
        asking: &mut A,
    ) -> Result<Result<T, T::Error>, Stop>
        requires kind { T.rules.is_kind key.now ≡ true }
        requires clock { first.0 ≡ Question.Now }
        ensures { SectionAnswersAfter T.rules ⟦<A as Asking>⟧ key.now env.now settings.now first asking.old self.old asking.new self.new result }
    {
        let made = self.make_after(key, first, env, settings, asking)?;
        Ok(answer(made))
    }

    fn make_section<A: Asking>(
        &mut self,
        key: &TokenKey,
        env: &Env,
        settings: &CallSettings,
        asking: &mut A,
    ) -> Result<Sectioned<T, T::Error>, Stop>
        requires { T.rules.is_kind key.now ≡ true }
        ensures { SectionFollows T.rules ⟦<A as Asking>⟧ key.now env.now settings.now asking.old self.old asking.new self.new result }
    {
        match ask_clock(asking) {
            Ok(first) => self.make_after(key, first, env, settings, asking),
            Err(stop) => Err(stop),
        }
    }

    // The receipt is that of the first reading. Where the kept token is handed out nothing else is
    // copied, and no memory is taken.
    #[tactic(auto, using(crate::proofs::SectionSteps::after_steps))]
    pub(crate) fn make_after<A: Asking>(
        &mut self,
        key: &TokenKey,
        first: Receipt,
        env: &Env,
        settings: &CallSettings,
        asking: &mut A,
    ) -> Result<Sectioned<T, T::Error>, Stop>
        requires kind { T.rules.is_kind key.now ≡ true }
        requires clock { first.0 ≡ Question.Now }
        ensures { SectionFollowsAfter T.rules ⟦<A as Asking>⟧ key.now env.now settings.now first asking.old self.old asking.new self.new result }
    {
        match hit(self.alloc, self.kept(), first.moment())? {
            Some(token) => Ok(Sectioned::Hit(token)),
            None => self.make_load(key, first, env, settings, asking),
        }
    }

    // The place of a record is taken before the file is asked for. What comes after the last question,
    // the reading of the answer and copies of the outcome, may still want memory. Then no record is
    // added: the loads are never ahead of the journal.
    #[tactic(auto, using(crate::proofs::SectionSteps::after_steps))]
    fn make_load<A: Asking>(
        &mut self,
        key: &TokenKey,
        first: Receipt,
        env: &Env,
        settings: &CallSettings,
        asking: &mut A,
    ) -> Result<Sectioned<T, T::Error>, Stop>
        requires kind { T.rules.is_kind key.now ≡ true }
        requires clock { first.0 ≡ Question.Now }
        requires missed { None ≡ hit_of T.rules (kept_in self.old) (moment_of first.1) }
        ensures { SectionFollowsAfter T.rules ⟦<A as Asking>⟧ key.now env.now settings.now first asking.old self.old asking.new self.new result }
    {
        let attempt = self.last_attempt();
        let Ok(()) = self.records.reserve(1) else {
            return Err(Stop::OutOfMemory);
        };
        let file = file_name::<T>(self.alloc, &self.file, key.session())?;
        let mut receipts = first_receipt(self.alloc, first)?;
        let loaded = load(
            self.alloc,
            key,
            file.get().name.as_str(),
            env,
            settings,
            attempt,
            asking,
            &mut receipts,
        )?;
        let record = finished_load(self.alloc, &loaded, receipts)?;
        let latest = latest_after(self.alloc, &loaded, &self.latest)?;
        put_in_place(&mut self.records, record);
        self.latest = latest;
        self.file = Some(file);
        Ok(Sectioned::Load(loaded))
    }
}

// The first receipt of a load, with places for those of its questions, of which there are four at most.
fn first_receipt(alloc: Global, first: Receipt) -> Result<Vec<Receipt>, OutOfMemory>
    ensures { IfOk result (λ r. r.items ≡ first ∷ []) }
{
    let mut receipts = Vec::with_capacity(alloc, 5)?;
    note_receipt(&mut receipts, first)?;
    Ok(receipts)
}

// What a load leaves, after what those before it left.
fn latest_after<T: FileToken>(
    alloc: Global,
    loaded: &Loaded<T, T::Error>,
    earlier: &Latest<T>,
) -> Result<Latest<T>, OutOfMemory>
    ensures kept { IfOk result (λ l. l.kept ≡ ok_of loaded.now.outcome) }
    ensures attempt { IfOk result (λ l. l.attempt ≡ noted_or loaded.now.noted earlier.now.attempt) }
    ensures before { IfOk result (λ l. l.before ≡ earlier.now.attempt) }
{
    let kept = given_token::<T>(alloc, &loaded.outcome)?;
    Ok(Latest {
        kept,
        attempt: loaded.noted.or(earlier.attempt),
        before: earlier.attempt,
    })
}

// A copy of the token that a load gave, if it gave one.
fn given_token<T: FileToken>(
    alloc: Global,
    outcome: &Result<T, T::Error>,
) -> Result<Option<T>, OutOfMemory>
    ensures { IfOk result (λ token. token ≡ ok_of outcome.now) }
{
    match outcome {
        Ok(token) => {
            let token = token.copy(alloc)?;
            Ok(Some(token))
        }
        Err(_) => Ok(None),
    }
}

impl<T: FileToken> TryCopy for Loads<T> {
    fn copy(&self, alloc: Global) -> Result<Loads<T>, OutOfMemory> {
        let load = copy_load(alloc, &self.load)?;
        let records = copy_records(alloc, &self.records)?;
        let kept = copy_option(alloc, &self.latest.kept)?;
        let file = copy_option(alloc, &self.file)?;
        Ok(Loads {
            alloc,
            load,
            last: self.last,
            records,
            latest: Latest {
                kept,
                attempt: self.latest.attempt,
                before: self.latest.before,
            },
            file,
        })
    }
}

/// A section of the token of this key, as [`section`](crate::section) is one, on its loads, with the
/// same errors. The loads have to be those of this key: they name none.
pub fn section_on<T: FileToken, D: Devices>(
    loads: &mut Loads<T>,
    key: &TokenKey,
    env: &Env,
    settings: &CallSettings,
    world: &mut World<D>,
) -> Result<T, T::Error>
    requires { T.rules.is_kind key.now ≡ true }
    ensures finished { is_memory T.rules result ≡ false →
        Answers T.rules ⟦<World<D> as Asking>⟧ key.now env.now settings.now world.old loads.old world.new loads.new result }
    ensures stopped { is_memory T.rules result ≡ true →
        Interrupted T.rules ⟦<World<D> as Asking>⟧ key.now env.now settings.now world.old loads.old world.new loads.new }
{
    match loads.follow(key, env, settings, world) {
        Ok(answer) => answer,
        Err(_) => Err(T::out_of_memory()),
    }
}

/// A section of the token of this key whose first reading was asked for before, as
/// [`section_after`](crate::section_after) is one, on its loads, with the same errors. The loads have to
/// be those of this key: they name none.
pub fn section_after_on<T: FileToken, D: Devices>(
    loads: &mut Loads<T>,
    key: &TokenKey,
    first: Receipt,
    env: &Env,
    settings: &CallSettings,
    world: &mut World<D>,
) -> Result<T, T::Error>
    requires kind { T.rules.is_kind key.now ≡ true }
    requires last { EndsWithReading world.old.journal first }
    ensures finished { is_memory T.rules result ≡ false →
        AnswersAfter T.rules ⟦<World<D> as Asking>⟧ key.now env.now settings.now first world.old loads.old world.new loads.new result }
    ensures stopped { is_memory T.rules result ≡ true →
        InterruptedAfter T.rules ⟦<World<D> as Asking>⟧ key.now env.now settings.now first world.old loads.old world.new loads.new }
{
    match loads.follow_after(key, first, env, settings, world) {
        Ok(answer) => answer,
        Err(_) => Err(T::out_of_memory()),
    }
}

// What a section answers: the kept token, or what the load gave.
pub(crate) fn answer<T, E>(made: Sectioned<T, E>) -> Result<T, E>
    ensures { result ≡ answer_of made }
{
    match made {
        Sectioned::Hit(token) => Ok(token),
        Sectioned::Load(loaded) => loaded.outcome,
    }
}
