//! What is known of one token.
ghost use Rattle.std.specs.Prelude.{◌≡◌, ◌↔◌, [], None, IfOk, IfSome, true, false};
ghost use Rattle.std.specs.Option.{option_copied};
ghost use Rattle.cfg_world.specs.Inquiry.{Begun, AsksNext};
ghost use Rattle.cfg_token.specs.Histories.{token_in, kept_in, last_in, load_in, trimmed, IsHistory};
ghost use Rattle.cfg_token.specs.Replays.{IsWhole, Finished};
ghost use Rattle.cfg_token.specs.SectionCalls.{is_memory, section_on as section_of, Answers, Interrupted, SectionAnswers, EndsWithReading, AnswersAfter, InterruptedAfter};

use crate::file_token::FileToken;
use crate::history::{Load, Record};
use crate::loads::{Loads, section_after_on, section_on};
use crate::polls::{finish_on, next_question_on};
use crate::token_key::TokenKey;
use cfg_types::{CallSettings, Env, Instant, OutOfMemory, Seq, TryCopy};
use cfg_world::{Asking, Devices, Question, Receipt, Stop, World};
use std::alloc::Global;

/// What is known of the token of one key. Contracts see the key, and the loads of its token.
pub struct TokenState<T: FileToken> {
    key: TokenKey,
    loads: Loads<T>,
}

impl<T: FileToken> Drop for TokenState<T> {
    fn drop(self) {
        let TokenState { key: _, loads: _ } = self;
    }
}

impl<T: FileToken> TokenState<T> {
    /// Nothing is kept, and no attempt is noted.
    pub fn new(alloc: Global, key: TokenKey) -> TokenState<T>
        ensures { result ≡ record { key = key; loads = record { load = None; last = None; records = [] } } }
    {
        TokenState {
            key,
            loads: Loads::new(alloc),
        }
    }

    /// The state of the token of this key, of which these are the loads. They name no key, so that they
    /// have to be this token's.
    pub fn from_parts(key: TokenKey, loads: Loads<T>) -> TokenState<T>
        ensures { result ≡ record { key = key; loads = loads } }
    {
        TokenState { key, loads }
    }

    /// The key, and the loads of its token.
    pub fn into_parts(self) -> (TokenKey, Loads<T>)
        ensures key { result.0 ≡ self.key }
        ensures loads { result.1 ≡ self.loads }
    {
        let TokenState { key, loads } = self;
        (key, loads)
    }

    /// Whose token it is.
    pub fn key(&self) -> &TokenKey
        ensures { result.now ≡ self.now.key }
    {
        &self.key
    }

    /// The loads of its token, without the key.
    pub fn loads(&self) -> &Loads<T>
        ensures { result.now ≡ self.now.loads }
    {
        &self.loads
    }

    /// The token that is kept: that of the last load, if it gave one.
    pub fn kept(&self) -> Option<&T>
        ensures { option_copied result ≡ kept_in self.now.loads }
    {
        self.loads.kept()
    }

    /// The reading of the clock at which the last attempt was noted, if any was.
    pub fn last_attempt(&self) -> Option<Instant>
        ensures { result ≡ last_in self.now.loads }
    {
        self.loads.last_attempt()
    }

    /// The loads since the origin. Each is one from what the loads before it leave.
    pub fn records(&self) -> &[Record<T>]
        ensures is { result.now ≡ self.now.loads.records }
        ensures history { IsHistory T.rules self.now.loads }
    {
        self.loads.records()
    }

    /// A copy of the load that gave the kept token, or none where no token is kept. `OutOfMemory` where
    /// memory runs out.
    pub fn load(&self) -> Result<Option<Load<T>>, OutOfMemory>
        ensures is { IfOk result (λ l. l ≡ load_in self.now.loads) }
        ensures token { IfOk result (λ l. token_in l ≡ kept_in self.now.loads) }
    {
        self.loads.load()
    }

    /// What the state was first: the load that gave its token, and the reading of the last attempt.
    pub fn origin(&self) -> (Option<&Load<T>>, Option<Instant>)
        ensures load { option_copied result.0 ≡ self.now.loads.load }
        ensures last { result.1 ≡ self.now.loads.last }
    {
        self.loads.origin()
    }

    /// The origin becomes what is kept now, and there are no records. Nothing is copied.
    pub fn trim(&mut self)
        ensures key { self.new.key ≡ self.old.key }
        ensures loads { self.new.loads ≡ trimmed self.old.loads }
        ensures kept { kept_in self.new.loads ≡ kept_in self.old.loads }
        ensures last { last_in self.new.loads ≡ last_in self.old.loads }
    {
        self.loads.trim();
    }

    /// One section, as [`section`] is one, over anything that can be asked.
    ///
    /// # Errors
    ///
    /// The outer error says why it was stopped: memory ran out, or a question was left open. The state
    /// is then as it was. The inner one is the load's.
    pub fn follow<A: Asking>(
        &mut self,
        env: &Env,
        settings: &CallSettings,
        asking: &mut A,
    ) -> Result<Result<T, T::Error>, Stop>
        requires { T.rules.is_kind self.old.key ≡ true }
        ensures answers { SectionAnswers T.rules ⟦<A as Asking>⟧ self.old.key env.now settings.now asking.old self.old.loads asking.new self.new.loads result }
        ensures key { self.new.key ≡ self.old.key }
    {
        self.loads.follow(&self.key, env, settings, asking)
    }
}

impl<T: FileToken> TryCopy for TokenState<T> {
    fn copy(&self, alloc: Global) -> Result<TokenState<T>, OutOfMemory> {
        let key = self.key.copy(alloc)?;
        let loads = self.loads.copy(alloc)?;
        Ok(TokenState { key, loads })
    }
}

/// Hands out the kept token while more than 300 seconds of it are left. Else the token's file is
/// read, and its token refreshed where that is due. A finished load adds one record, whose receipts
/// are the journal's new entries, and a hit adds none. Where memory runs out the state is as it was.
///
/// # Errors
///
/// Those of the token's kind. That memory ran out is answered where it does,
/// and each other one exactly where the rules of that kind give it over the journal's new entries.
pub fn section<T: FileToken, D: Devices>(
    state: &mut TokenState<T>,
    env: &Env,
    settings: &CallSettings,
    world: &mut World<D>,
) -> Result<T, T::Error>
    requires { T.rules.is_kind state.old.key ≡ true }
    ensures finished { is_memory T.rules result ≡ false →
        Answers T.rules ⟦<World<D> as Asking>⟧ state.old.key env.now settings.now world.old state.old.loads world.new state.new.loads result }
    ensures key { state.new.key ≡ state.old.key }
    ensures stopped { is_memory T.rules result ≡ true →
        Interrupted T.rules ⟦<World<D> as Asking>⟧ state.old.key env.now settings.now world.old state.old.loads world.new state.new.loads }
{
    section_on(&mut state.loads, &state.key, env, settings, world)
}

/// A section whose first reading of the clock was asked for before: this receipt is of the last entry of
/// the world's journal. Its part is that entry and what the journal gains, and the record of a finished
/// load has these receipts.
///
/// # Errors
///
/// Those of [`section`], over this part. Where memory runs out the state is as it was.
pub fn section_after<T: FileToken, D: Devices>(
    state: &mut TokenState<T>,
    first: Receipt,
    env: &Env,
    settings: &CallSettings,
    world: &mut World<D>,
) -> Result<T, T::Error>
    requires kind { T.rules.is_kind state.old.key ≡ true }
    requires last { EndsWithReading world.old.journal first }
    ensures finished { is_memory T.rules result ≡ false →
        AnswersAfter T.rules ⟦<World<D> as Asking>⟧ state.old.key env.now settings.now first world.old state.old.loads world.new state.new.loads result }
    ensures key { state.new.key ≡ state.old.key }
    ensures stopped { is_memory T.rules result ≡ true →
        InterruptedAfter T.rules ⟦<World<D> as Asking>⟧ state.old.key env.now settings.now first world.old state.old.loads world.new state.new.loads }
{
    section_after_on(&mut state.loads, &state.key, first, env, settings, world)
}

/// The question that a section of this state asks after these receipts, which have to be the beginning
/// of its part. None exactly where they are a whole part. The state stays as it is. `OutOfMemory` where
/// memory runs out.
pub fn next_question<T: FileToken>(
    state: &TokenState<T>,
    env: &Env,
    settings: &CallSettings,
    receipts: &[Receipt],
) -> Result<Option<Question>, OutOfMemory>
    requires kind { T.rules.is_kind state.now.key ≡ true }
    requires begun { Begun (section_of T.rules state.now.key state.now.loads env.now settings.now) receipts.now }
    ensures whole { IfOk result (λ q. (q ≡ None) ↔ IsWhole (section_of T.rules state.now.key state.now.loads env.now settings.now) receipts.now) }
    ensures asks { IfOk result (λ q. IfSome q (AsksNext (section_of T.rules state.now.key state.now.loads env.now settings.now) receipts.now)) }
{
    next_question_on(&state.loads, &state.key, env, settings, receipts)
}

/// A section of this state whose part these receipts are, all of it: there is no next question. A
/// finished load adds one record, with these receipts, and a hit adds none.
///
/// # Errors
///
/// Those of [`section`], over the receipts. Where memory runs out the state is as it
/// was.
pub fn finish<T: FileToken>(
    state: &mut TokenState<T>,
    env: &Env,
    settings: &CallSettings,
    receipts: Seq<Receipt>,
) -> Result<T, T::Error>
    requires kind { T.rules.is_kind state.old.key ≡ true }
    requires whole { IsWhole (section_of T.rules state.old.key state.old.loads env.now settings.now) receipts }
    ensures finished { is_memory T.rules result ≡ false → Finished T.rules state.old.key env.now settings.now receipts state.old.loads state.new.loads result }
    ensures key { state.new.key ≡ state.old.key }
    ensures stopped { is_memory T.rules result ≡ true → state.new.loads ≡ state.old.loads }
{
    finish_on(&mut state.loads, &state.key, env, settings, receipts)
}
