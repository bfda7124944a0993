//! The steps of a load.
ghost use Rattle.std.specs.Prelude.{◌≡◌, true, Err, None};
ghost use Rattle.cfg_token.specs.FileNames.{session_of};
ghost use Rattle.cfg_token.specs.Notes.{Notes};
ghost use Rattle.cfg_token.specs.Sections.{saves, refreshes, judges, load as load_of, or_unsaved, while_it_lasts, gives};

use crate::decision::{Decision, decide, has_expired};
use crate::file_token::{FileToken, Renewal, Unsaved};
use crate::leaves::{ask_renewal, note_receipt, read_clock, read_file};
use crate::token_key::TokenKey;
use cfg_types::{CallSettings, Env, Instant, Text, TryCopy};
use cfg_world::{Answer, Asking, Question, Receipt, Stop};
use std::alloc::Global;

/// What a load gave, and the reading at which it noted an attempt.
#[derive(Drop)]
pub struct Loaded<T, E> {
    /// The token, or why there is none.
    pub outcome: Result<T, E>,
    /// The reading at which an attempt was noted, or none where none was.
    pub noted: Option<Instant>,
}

/// What follows where no kept token is handed out: the path of the file of this name, the file, and what is done with its token
/// by a second reading of the clock and the last attempt. The receipts of what was asked are added. An
/// error says why it was stopped: memory ran out, or a question was left open.
#[tactic(auto, using(crate::proofs::NotedSteps::noted_steps), unfolding(crate::specs::Sections::load))]
pub fn load<T: FileToken, A: Asking>(
    alloc: Global,
    key: &TokenKey,
    name: &str,
    env: &Env,
    settings: &CallSettings,
    last: Option<Instant>,
    asking: &mut A,
    receipts: &mut Vec<Receipt>,
) -> Result<Loaded<T, T::Error>, Stop>
    requires kind { T.rules.is_kind key.now ≡ true }
    requires name { name.now ≡ T.name_of (session_of key.now) }
    ensures { Notes ⟦<A as Asking>⟧ (load_of T.rules key.now env.now settings.now last) asking.old receipts.old.items asking.new receipts.new.items result }
{
    let path = match T::path(alloc, key, name, env)? {
        Ok(path) => path,
        Err(error) => return Ok(failed(error)),
    };
    match read_file(alloc, &path, asking, receipts)? {
        Ok(file) => judge(alloc, key, settings, last, path, file, asking, receipts),
        Err(error) => Ok(failed(error)),
    }
}

// The file's token is judged by a second reading.
#[tactic(auto, using(crate::proofs::NotedSteps::noted_steps), unfolding(crate::specs::Sections::judges))]
fn judge<T: FileToken, A: Asking>(
    alloc: Global,
    key: &TokenKey,
    settings: &CallSettings,
    last: Option<Instant>,
    path: Text,
    file: T,
    asking: &mut A,
    receipts: &mut Vec<Receipt>,
) -> Result<Loaded<T, T::Error>, Stop>
    requires { T.rules.is_kind key.now ≡ true }
    ensures { Notes ⟦<A as Asking>⟧ (judges T.rules key.now settings.now last path file) asking.old receipts.old.items asking.new receipts.new.items result }
{
    let now = read_clock(asking, receipts)?;
    match decide(&file, last, now) {
        Decision::Refuse => Ok(failed(T::expired_error())),
        Decision::Use => Ok(Loaded {
            outcome: Ok(file),
            noted: None,
        }),
        Decision::Refresh => refresh(alloc, key, settings, path, file, now, asking, receipts),
    }
}

// One request for a new token.
#[tactic(auto, using(crate::proofs::NotedSteps::noted_steps), unfolding(crate::specs::Sections::refreshes))]
fn refresh<T: FileToken, A: Asking>(
    alloc: Global,
    key: &TokenKey,
    settings: &CallSettings,
    path: Text,
    file: T,
    now: Instant,
    asking: &mut A,
    receipts: &mut Vec<Receipt>,
) -> Result<Loaded<T, T::Error>, Stop>
    requires { T.rules.is_kind key.now ≡ true }
    ensures { Notes ⟦<A as Asking>⟧ (refreshes T.rules key.now settings.now path file now) asking.old receipts.old.items asking.new receipts.new.items result }
{
    match ask_renewal(alloc, key, settings, &file, now, asking, receipts)? {
        Renewal::Granted(token) => save(alloc, path, now, token, asking, receipts),
        Renewal::Passed => Ok(Loaded {
            outcome: lasting(file, now),
            noted: Some(now),
        }),
        Renewal::Refused { error, noted } => Ok(Loaded {
            outcome: Err(error),
            noted: if noted { Some(now) } else { None },
        }),
    }
}

// A new token is written to the file that was read.
#[tactic(auto, using(crate::proofs::NotedSteps::noted_steps), unfolding(crate::specs::Sections::saves))]
fn save<T: FileToken, A: Asking>(
    alloc: Global,
    path: Text,
    now: Instant,
    token: T,
    asking: &mut A,
    receipts: &mut Vec<Receipt>,
) -> Result<Loaded<T, T::Error>, Stop>
    ensures { Notes ⟦<A as Asking>⟧ (saves T.rules path now token) asking.old receipts.old.items asking.new receipts.new.items result }
{
    let Some(bytes) = token.to_bytes(alloc)? else {
        return Ok(unsaved(Unsaved::NoText, token, now));
    };
    let copy = path.copy(alloc)?;
    let receipt = asking.put(Question::Write { path: copy, bytes })?;
    let loaded = match receipt.entry().answer() {
        Answer::Written => Loaded {
            outcome: Ok(token),
            noted: Some(now),
        },
        _ => unsaved(Unsaved::NotWritten(path), token, now),
    };
    note_receipt(receipts, receipt)?;
    Ok(loaded)
}

// A new token that was not saved.
fn unsaved<T: FileToken>(fault: Unsaved, token: T, now: Instant) -> Loaded<T, T::Error>
    ensures { result ≡ or_unsaved T.rules now token (T.rules.unsaved fault) }
{
    match T::save_error(fault) {
        None => Loaded {
            outcome: Ok(token),
            noted: Some(now),
        },
        Some(error) => failed(error),
    }
}

// The file's token, while it lasts.
fn lasting<T: FileToken>(file: T, now: Instant) -> Result<T, T::Error>
    ensures { result ≡ while_it_lasts T.rules file now }
{
    if has_expired(&file, now) {
        Err(T::expired_error())
    } else {
        Ok(file)
    }
}

// An error, with nothing noted.
fn failed<T, E>(error: E) -> Loaded<T, E>
    ensures { result ≡ gives (Err error) None }
{
    Loaded {
        outcome: Err(error),
        noted: None,
    }
}
