//! The state of a token that callers on several threads share.
ghost use Rattle.std.specs.Prelude.{◌≡◌, true, false, Some, IfOk, IfSome};
ghost use Rattle.cfg_token.specs.Sections.{hit as hit_of};
ghost use Rattle.cfg_token.specs.Histories.{token_in};
ghost use Rattle.cfg_token.specs.SectionCalls.{is_memory, SectionFollowsAfter};
ghost use Rattle.cfg_token.specs.SharedSections.{FindsAnswers, FindsInterrupted, FindsFollows, FindsMade, FindsMadeAfter};

use crate::file_token::FileToken;
use crate::finding::{Finding, Handed, finding_in, publication};
use crate::history::Load;
use crate::leaves::ask_clock;
use crate::loads::{Loads, answer};
use crate::sections::Sectioned;
use crate::state::TokenState;
use crate::token_key::TokenKey;
use cfg_types::{CallSettings, Env, Instant, OutOfMemory};
use cfg_world::{Asking, Devices, Question, Receipt, Stop, World};
use std::alloc::Global;
use std::sync::{Mutex, RwLock, Wait};

/// The state of the token of one key, which callers share. A lock serves one load at a time, and beside it stands what
/// was last published of the loads, which several callers may read at once: a kept token is handed out while another
/// caller loads a new one. The key stands beside both locks, and so does nothing else of the state.
pub struct SharedTokenState<T: FileToken> {
    alloc: Global,
    key: TokenKey,
    loads: Mutex<Loads<T>>,
    published: RwLock<Finding<T>>,
}

impl<T: FileToken> Drop for SharedTokenState<T> {
    fn drop(self) {
        let SharedTokenState {
            alloc: _,
            key: _,
            loads: _,
            published: _,
        } = self;
    }
}

/// What a section of a shared state answers, and copies of what it found, made before it changed anything.
#[derive(Drop)]
pub struct SharedAnswer<T: FileToken> {
    /// The token, or why there is none.
    pub outcome: Result<T, T::Error>,
    /// The load that gave the token which the section found kept, if one was.
    pub kept: Option<Load<T>>,
    /// The reading of the last attempt that was noted before the section, if any was.
    pub last: Option<Instant>,
}

impl<T: FileToken> SharedTokenState<T> {
    /// This state, to be shared. What it keeps is published; where memory runs out over that, nothing is, and the first
    /// section looks at the state itself.
    pub fn new(state: TokenState<T>) -> SharedTokenState<T>
        ensures { result.key ≡ state.key }
    {
        let (key, loads) = state.into_parts();
        SharedTokenState {
            alloc: loads.alloc(),
            key,
            published: RwLock::new(publication(&loads)),
            loads: Mutex::new(loads),
        }
    }

    /// The state as the last section left it.
    pub fn into_state(self) -> TokenState<T>
        ensures { result.key ≡ self.key }
    {
        let SharedTokenState {
            alloc: _,
            key,
            loads,
            published: _,
        } = self;
        TokenState::from_parts(key, loads.into_inner())
    }

    /// Whose token it is. It takes no lock.
    pub fn key(&self) -> &TokenKey
        ensures { result.now ≡ self.now.key }
    {
        &self.key
    }

    /// The records of the loads are given up, and what is kept of the token now becomes their origin, as
    /// [`TokenState::trim`] does it. What is kept stays.
    pub fn trim<R: Wait>(&self, rt: &R) {
        self.loads.lock(rt).trim();
    }

    /// One section, as [`section`](crate::section) is one, from what it finds. First the clock is read, without a lock.
    /// A published token of which more than 300 seconds are left is handed out. Else the loads are locked, and what they
    /// keep by then is handed out or a load is made. A finished load is added to them with its receipts, which are the
    /// journal's new entries, and is published.
    ///
    /// # Errors
    ///
    /// Those of [`section`](crate::section), over what was found. Where memory runs out the state is as the last
    /// finished section left it.
    pub fn section<R: Wait, D: Devices>(
        &self,
        rt: &R,
        env: &Env,
        settings: &CallSettings,
        world: &mut World<D>,
    ) -> SharedAnswer<T>
        requires { T.rules.is_kind self.now.key ≡ true }
        ensures finished { is_memory T.rules result.outcome ≡ false → FindsAnswers T.rules ⟦<World<D> as Asking>⟧ self.now.key env.now settings.now
            world.old world.new result.kept result.last result.outcome }
        ensures stopped { is_memory T.rules result.outcome ≡ true → FindsInterrupted T.rules ⟦<World<D> as Asking>⟧ self.now.key env.now settings.now
            world.old world.new result.kept result.last }
    {
        let mut finding = Finding::nothing();
        let outcome = self.answer_in(rt, env, settings, &mut finding, world);
        let Finding { load, last } = finding;
        SharedAnswer {
            outcome,
            kept: load,
            last,
        }
    }

    /// The body of [`section`](SharedTokenState::section), over anything that can be asked. What the section found is
    /// put in place of the finding that is lent, also where it was stopped.
    ///
    /// # Errors
    ///
    /// The outer error says why it was stopped: memory ran out, or a question was left open. The state is then as the
    /// last finished section left it. The inner one is the load's.
    pub fn follow<R: Wait, A: Asking>(
        &self,
        rt: &R,
        env: &Env,
        settings: &CallSettings,
        finding: &mut Finding<T>,
        asking: &mut A,
    ) -> Result<Result<T, T::Error>, Stop>
        requires { T.rules.is_kind self.now.key ≡ true }
        ensures { FindsFollows T.rules ⟦<A as Asking>⟧ self.now.key env.now settings.now asking.old asking.new finding.new.load finding.new.last result }
    {
        let made = self.make(rt, env, settings, finding, asking)?;
        Ok(answer(made))
    }
}

impl<T: FileToken> SharedTokenState<T> {
    // What the section answers over a world, which leaves no question open.
    fn answer_in<R: Wait, D: Devices>(
        &self,
        rt: &R,
        env: &Env,
        settings: &CallSettings,
        finding: &mut Finding<T>,
        world: &mut World<D>,
    ) -> Result<T, T::Error>
        requires { T.rules.is_kind self.now.key ≡ true }
        ensures finished { is_memory T.rules result ≡ false → FindsAnswers T.rules ⟦<World<D> as Asking>⟧ self.now.key env.now settings.now
            world.old world.new finding.new.load finding.new.last result }
        ensures stopped { is_memory T.rules result ≡ true → FindsInterrupted T.rules ⟦<World<D> as Asking>⟧ self.now.key env.now settings.now
            world.old world.new finding.new.load finding.new.last }
    {
        match self.follow(rt, env, settings, finding, world) {
            Ok(answer) => answer,
            Err(_) => Err(T::out_of_memory()),
        }
    }

    fn make<R: Wait, A: Asking>(
        &self,
        rt: &R,
        env: &Env,
        settings: &CallSettings,
        finding: &mut Finding<T>,
        asking: &mut A,
    ) -> Result<Sectioned<T, T::Error>, Stop>
        requires { T.rules.is_kind self.now.key ≡ true }
        ensures { FindsMade T.rules ⟦<A as Asking>⟧ self.now.key env.now settings.now asking.old asking.new finding.new.load finding.new.last result }
    {
        match ask_clock(asking) {
            Ok(first) => self.make_after(rt, first, env, settings, finding, asking),
            Err(stop) => Err(stop),
        }
    }

    // The receipt is that of the first reading.
    fn make_after<R: Wait, A: Asking>(
        &self,
        rt: &R,
        first: Receipt,
        env: &Env,
        settings: &CallSettings,
        finding: &mut Finding<T>,
        asking: &mut A,
    ) -> Result<Sectioned<T, T::Error>, Stop>
        requires kind { T.rules.is_kind self.now.key ≡ true }
        requires clock { first.0 ≡ Question.Now }
        ensures { FindsMadeAfter T.rules ⟦<A as Asking>⟧ self.now.key env.now settings.now first asking.old asking.new
            finding.new.load finding.new.last result }
    {
        match self.published_at(rt, first.moment())? {
            Some(handed) => {
                *finding = handed.finding;
                Ok(Sectioned::Hit(handed.token))
            }
            None => self.make_locked(rt, first, env, settings, finding, asking),
        }
    }

    // The published token with what was found, where it is not to be refreshed yet at this reading.
    fn published_at<R: Wait>(
        &self,
        rt: &R,
        reading: Instant,
    ) -> Result<Option<Handed<T>>, OutOfMemory>
        ensures { IfOk result (λ h. IfSome h (λ x. Some x.token ≡ hit_of T.rules (token_in x.finding.load) reading)) }
    {
        let published = self.published.read(rt);
        published.handed(self.alloc, reading)
    }

    // What `make_after` gives where no published token is handed out: its contract is the same.
    fn make_locked<R: Wait, A: Asking>(
        &self,
        rt: &R,
        first: Receipt,
        env: &Env,
        settings: &CallSettings,
        finding: &mut Finding<T>,
        asking: &mut A,
    ) -> Result<Sectioned<T, T::Error>, Stop>
        requires kind { T.rules.is_kind self.now.key ≡ true }
        requires clock { first.0 ≡ Question.Now }
        ensures { FindsMadeAfter T.rules ⟦<A as Asking>⟧ self.now.key env.now settings.now first asking.old asking.new
            finding.new.load finding.new.last result }
    {
        let mut loads = self.loads.lock(rt);
        self.make_on(rt, &mut loads, first, env, settings, finding, asking)
    }

    // A section on the loads that are locked. What it made is published before they are let go.
    #[tactic(auto, using(crate::proofs::SectionSteps::after_steps))]
    fn make_on<R: Wait, A: Asking>(
        &self,
        rt: &R,
        loads: &mut Loads<T>,
        first: Receipt,
        env: &Env,
        settings: &CallSettings,
        finding: &mut Finding<T>,
        asking: &mut A,
    ) -> Result<Sectioned<T, T::Error>, Stop>
        requires kind { T.rules.is_kind self.now.key ≡ true }
        requires clock { first.0 ≡ Question.Now }
        ensures section { SectionFollowsAfter T.rules ⟦<A as Asking>⟧ self.now.key env.now settings.now first asking.old loads.old asking.new loads.new result }
        ensures found { FindsMadeAfter T.rules ⟦<A as Asking>⟧ self.now.key env.now settings.now first asking.old asking.new
            finding.new.load finding.new.last result }
    {
        *finding = finding_in(loads)?;
        let made = loads.make_after(&self.key, first, env, settings, asking)?;
        self.publish(rt, loads, &made);
        Ok(made)
    }

    // What a finished load left is published.
    fn publish<R: Wait>(&self, rt: &R, loads: &Loads<T>, made: &Sectioned<T, T::Error>) {
        if let Sectioned::Load(_) = made {
            *self.published.write(rt) = publication(loads);
        }
    }
}
