//! What callers came to that shared one kept state.
ghost use Rattle.std.specs.Prelude.{◌≡◌, ◌++◌, OnOk, IfOk};
ghost use Rattle.std.specs.List.{flat_map};
ghost use Rattle.cfg_sharing.specs.declared.shared.ShareFault.TheVariants as fault;
ghost use Rattle.cfg_sharing.specs.Readings.{handed_after, AreSorted};
ghost use Rattle.cfg_sharing.specs.Strays.{IsStrayCount};
ghost use Rattle.cfg_sharing.specs.Histories.{entries_in, receipts_in, handed_in, recorded_in};

use crate::readings::{in_order, note_entries, note_receipts};
use crate::strays::strays_in;
use cfg_chain::Answered;
use cfg_kept::Kept;
use cfg_token::{FileToken, Record};
use cfg_types::{Instant, OutOfMemory, Seq};
use cfg_world::{Devices, World};
use std::alloc::{AllocError, Global};

/// What one caller came to: its world, and what its call answered and found kept.
#[derive(Drop)]
pub struct Called<D: Devices> {
    /// The world. Its journal is that of the call.
    pub world: World<D>,
    /// The answer, and the values that were found kept.
    pub answered: Answered,
}

/// The calls of callers that shared one kept state, in the order of their worlds, and what is kept after the last
/// of them ended.
#[derive(Drop)]
pub struct Shared<D: Devices> {
    /// A call for each world, in order.
    pub calls: Seq<Called<D>>,
    /// What is kept, with the records of the loads.
    pub kept: Kept,
}

/// Why callers' calls are not handed back as they are.
#[derive(Drop)]
pub enum ShareFault<D: Devices> {
    /// The histories differ: of the journals, and of what is kept or was found.
    HistoryDiffers(Shared<D>),
    /// Memory ran out.
    OutOfMemory,
}

impl<D: Devices> From<OutOfMemory> for ShareFault<D> {
    ghost from_gives = { λ _ e. e ≡ fault.OutOfMemory };

    fn from(_: OutOfMemory) -> ShareFault<D> {
        ShareFault::OutOfMemory
    }
}

impl<D: Devices> From<AllocError> for ShareFault<D> {
    ghost from_gives = { λ _ e. e ≡ fault.OutOfMemory };

    fn from(_: AllocError) -> ShareFault<D> {
        ShareFault::OutOfMemory
    }
}

impl<D: Devices> Shared<D> {
    /// The readings of the clock that come directly after a granted reading of a file in the callers' journals,
    /// sorted. `OutOfMemory` where memory runs out.
    pub fn handed(&self, alloc: Global) -> Result<Seq<Instant>, OutOfMemory>
        ensures { IfOk result (λ sorted. AreSorted sorted (handed_in self.now.calls)) }
    {
        let mut readings = Vec::new(alloc);
        for called in self.calls.as_slice() {
            note_entries(&mut readings, called.world.journal())?;
        }
        Ok(in_order(readings))
    }

    /// The readings of the clock that come directly after a granted reading of a file in the receipts of the
    /// records of what is kept, sorted. `OutOfMemory` where memory runs out.
    pub fn recorded(&self, alloc: Global) -> Result<Seq<Instant>, OutOfMemory>
        ensures { IfOk result (λ sorted. AreSorted sorted (recorded_in self.now.kept)) }
    {
        let mut readings = Vec::new(alloc);
        note_recorded(&mut readings, &self.kept)?;
        Ok(in_order(readings))
    }

    /// How many receipts that the callers' found values carry are of entries that stand in none of their journals.
    /// A receipt counts once for each value that carries it, and the number stands still at the end of its type. A
    /// metadata token carries its reply and its reading, retrieved credentials carry their receipts, and a load
    /// those of its record.
    pub fn strays(&self) -> usize
        ensures { IsStrayCount (entries_in self.now.calls) (receipts_in self.now.calls) result }
    {
        strays_in(self.calls.as_slice())
    }
}

// Adds the readings of the records of what is kept.
fn note_recorded(readings: &mut Vec<Instant>, kept: &Kept) -> Result<(), OutOfMemory>
    ensures { OnOk result (readings.new.items ≡ readings.old.items ++ recorded_in kept.now) }
{
    if let Some(state) = kept.sso_state() {
        return note_records(readings, state.records());
    }
    if let Some(state) = kept.login_state() {
        return note_records(readings, state.records());
    }
    Ok(())
}

// Adds the readings of these records.
fn note_records<T: FileToken>(
    readings: &mut Vec<Instant>,
    records: &[Record<T>],
) -> Result<(), OutOfMemory>
    ensures { OnOk result (readings.new.items ≡ readings.old.items ++ flat_map (λ r. handed_after r.receipts) records.now) }
{
    for record in records {
        note_receipts(readings, record.receipts())?;
    }
    Ok(())
}
