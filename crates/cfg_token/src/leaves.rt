//! One question at a time. Its receipt is kept.
ghost use Rattle.std.specs.Prelude.{◌≡◌, true, ◌++◌, ◌∷◌, [], OnOk};
ghost use Rattle.cfg_world.specs.Leaves.{clock};
ghost use Rattle.cfg_token.specs.Notes.{Notes, HandsReading};
ghost use Rattle.cfg_token.specs.Sections.{file, asks_renewal};

use crate::file_token::{FileToken, Renewal};
use crate::token_key::TokenKey;
use cfg_types::{CallSettings, Instant, OutOfMemory, Text, TryCopy};
use cfg_world::{Answer, Asking, Question, Receipt, Stop};
use std::alloc::Global;

/// The receipt of a reading of the clock. An error says why it was stopped: memory ran out, or the
/// question was left open.
#[tactic(auto, unfolding(cfg_world::specs::Leaves::clock))]
pub fn ask_clock<A: Asking>(asking: &mut A) -> Result<Receipt, Stop>
    ensures { HandsReading ⟦<A as Asking>⟧ asking.old asking.new result }
{
    let receipt = asking.put(Question::Now)?;
    Ok(receipt)
}

/// A reading of the clock. Its receipt is added. An error says why it was stopped: memory ran out, or
/// the question was left open.
#[tactic(auto, unfolding(cfg_world::specs::Leaves::clock))]
pub fn read_clock<A: Asking>(asking: &mut A, receipts: &mut Vec<Receipt>) -> Result<Instant, Stop>
    ensures { Notes ⟦<A as Asking>⟧ clock asking.old receipts.old.items asking.new receipts.new.items result }
{
    let receipt = asking.put(Question::Now)?;
    let moment = match receipt.entry().answer() {
        Answer::Moment(moment) => *moment,
        _ => unreachable!(),
    };
    note_receipt(receipts, receipt)?;
    Ok(moment)
}

/// The token in the file of this path, or the kind's error of a file that could not be read or that
/// has none. The receipt is added. The outer error says why it was stopped.
#[tactic(auto, unfolding(crate::specs::Sections::file))]
pub fn read_file<T: FileToken, A: Asking>(
    alloc: Global,
    path: &Text,
    asking: &mut A,
    receipts: &mut Vec<Receipt>,
) -> Result<Result<T, T::Error>, Stop>
    ensures { Notes ⟦<A as Asking>⟧ (file T.rules path.now) asking.old receipts.old.items asking.new receipts.new.items result }
{
    let copy = path.copy(alloc)?;
    let receipt = asking.put(Question::Read { path: copy })?;
    let outcome = match receipt.entry().answer() {
        Answer::Contents(bytes) => T::parse(alloc, bytes.as_slice())?,
        _ => Err(T::read_error(alloc, path)?),
    };
    note_receipt(receipts, receipt)?;
    Ok(outcome)
}

/// One request for a new token, and what its answer gives. The receipt is added. An error says why it
/// was stopped.
#[tactic(auto, unfolding(crate::specs::Sections::asks_renewal))]
pub fn ask_renewal<T: FileToken, A: Asking>(
    alloc: Global,
    key: &TokenKey,
    settings: &CallSettings,
    file: &T,
    now: Instant,
    asking: &mut A,
    receipts: &mut Vec<Receipt>,
) -> Result<Renewal<T, T::Error>, Stop>
    requires { T.rules.is_kind key.now ≡ true }
    ensures { Notes ⟦<A as Asking>⟧ (asks_renewal T.rules key.now settings.now file.now now)
        asking.old receipts.old.items asking.new receipts.new.items result }
{
    let request = file.refresh_request(alloc, key, settings)?;
    let receipt = asking.put(Question::send(alloc, request)?)?;
    let renewal = file.renew(alloc, key, now, receipt.entry().answer())?;
    note_receipt(receipts, receipt)?;
    Ok(renewal)
}

/// One receipt more. Where memory runs out it is `OutOfMemory`, and the receipt is given up.
pub fn note_receipt(receipts: &mut Vec<Receipt>, receipt: Receipt) -> Result<(), OutOfMemory>
    ensures { OnOk result (receipts.new.items ≡ receipts.old.items ++ receipt ∷ []) }
{
    receipts.push(receipt)?;
    Ok(())
}
