//! The readings of the clock that come directly after a granted reading of a file.
ghost use Rattle.std.specs.Prelude.{◌≡◌, ◌++◌, [], OnOk, IfOk, if◌then◌else◌};
ghost use Rattle.cfg_sharing.specs.Readings.{is_contents, moments_in, handed_after, AreSorted};

use cfg_types::{Instant, OutOfMemory, Seq};
use cfg_world::{Answer, Entry, Receipt};

/// Adds those of a journal, in order. `OutOfMemory` where memory runs out.
#[tactic(auto, using(crate::proofs::Handed::all_handed))]
pub(crate) fn note_entries(
    readings: &mut Vec<Instant>,
    journal: &[Entry],
) -> Result<(), OutOfMemory>
    ensures { OnOk result (readings.new.items ≡ readings.old.items ++ handed_after journal.now) }
{
    let mut was_read = false;
    for entry in journal {
        was_read = note_next(readings, was_read, entry)?;
    }
    Ok(())
}

/// Adds those of these receipts, in order. `OutOfMemory` where memory runs out.
#[tactic(auto, using(crate::proofs::Handed::all_handed))]
pub(crate) fn note_receipts(
    readings: &mut Vec<Instant>,
    receipts: &[Receipt],
) -> Result<(), OutOfMemory>
    ensures { OnOk result (readings.new.items ≡ readings.old.items ++ handed_after receipts.now) }
{
    let mut was_read = false;
    for receipt in receipts {
        was_read = note_next(readings, was_read, receipt.entry())?;
    }
    Ok(())
}

// Adds the moment of a reading of the clock, where the entry before it is a granted reading of a file, and tells
// whether this one is.
fn note_next(
    readings: &mut Vec<Instant>,
    was_read: bool,
    entry: &Entry,
) -> Result<bool, OutOfMemory>
    ensures readings { OnOk result (readings.new.items ≡ readings.old.items ++ (if was_read then moments_in entry.now.1 else [])) }
    ensures read { IfOk result (λ b. b ≡ is_contents entry.now.1) }
{
    match entry.answer() {
        Answer::Moment(moment) => {
            if was_read {
                readings.push(*moment)?;
            }
            Ok(false)
        }
        Answer::Contents(_) => Ok(true),
        _ => Ok(false),
    }
}

/// These readings, sorted.
pub(crate) fn in_order(mut readings: Vec<Instant>) -> Seq<Instant>
    ensures { AreSorted result readings.items }
{
    readings.sort_unstable();
    Seq::of(readings)
}
