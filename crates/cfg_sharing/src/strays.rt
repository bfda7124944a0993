//! Receipts of entries that stand in no caller's journal.
ghost use Rattle.std.specs.Prelude.{◌↔◌, [], ◌∷◌, IsTrue, Contains};
ghost use Rattle.std.specs.List.{flat_map};
ghost use Rattle.cfg_sharing.specs.Receipts.{receipts_of};
ghost use Rattle.cfg_sharing.specs.Strays.{AddsStrays};
ghost use Rattle.cfg_sharing.specs.Histories.{entries_in, receipts_in};

use crate::shared::Called;
use cfg_imds::MetadataToken;
use cfg_kept::Found;
use cfg_world::same::Same;
use cfg_world::{Devices, Entry, Receipt};

// Whether an entry stands in the journal.
fn stands_in(journal: &[Entry], entry: &Entry) -> bool
    ensures { IsTrue result ↔ Contains journal.now entry.now }
{
    for other in journal {
        if other.same(entry) {
            return true;
        }
    }
    false
}

// Whether an entry stands in a journal of these callers.
fn stands_in_one<D: Devices>(calls: &[Called<D>], entry: &Entry) -> bool
    ensures { IsTrue result ↔ Contains (entries_in calls.now) entry.now }
{
    for called in calls {
        if stands_in(called.world.journal(), entry) {
            return true;
        }
    }
    false
}

// One more, where the entry of the receipt stands in no journal of these callers.
fn add_stray<D: Devices>(count: usize, calls: &[Called<D>], receipt: &Receipt) -> usize
    ensures { AddsStrays (entries_in calls.now) (receipt.now ∷ []) count result }
{
    if stands_in_one(calls, receipt.entry()) {
        count
    } else {
        count.saturating_add(1)
    }
}

fn add_receipts<D: Devices>(count: usize, calls: &[Called<D>], receipts: &[Receipt]) -> usize
    ensures { AddsStrays (entries_in calls.now) receipts.now count result }
{
    let mut count = count;
    for receipt in receipts {
        count = add_stray(count, calls, receipt);
    }
    count
}

// Those of a session token.
fn add_token<D: Devices>(count: usize, calls: &[Called<D>], token: &MetadataToken) -> usize
    ensures { AddsStrays (entries_in calls.now) (token.now.reply ∷ token.now.reading ∷ []) count result }
{
    let with_reply = add_stray(count, calls, token.reply());
    add_stray(with_reply, calls, token.reading())
}

// Those of a found value.
fn add_value<D: Devices>(count: usize, calls: &[Called<D>], found: &Found) -> usize
    ensures { AddsStrays (entries_in calls.now) (receipts_of found.now) count result }
{
    match found {
        Found::ImdsToken {
            place: _,
            token: Some(token),
        } => add_token(count, calls, token),
        Found::Retrieved {
            place: _,
            retrieved: Some(retrieved),
        } => add_receipts(count, calls, retrieved.receipts()),
        Found::Sso {
            load: Some(load),
            last: _,
        } => add_receipts(count, calls, load.loaded_by().receipts()),
        Found::Login {
            load: Some(load),
            last: _,
        } => add_receipts(count, calls, load.loaded_by().receipts()),
        _ => count,
    }
}

// Those of all values that one caller found.
fn add_found<D: Devices>(count: usize, calls: &[Called<D>], found: &[Found]) -> usize
    ensures { AddsStrays (entries_in calls.now) (flat_map receipts_of found.now) count result }
{
    let mut count = count;
    for value in found {
        count = add_value(count, calls, value);
    }
    count
}

/// How many receipts that the callers' found values carry are of entries that stand in none of their journals, up
/// to the end of 64 bits.
pub(crate) fn strays_in<D: Devices>(calls: &[Called<D>]) -> usize
    ensures { AddsStrays (entries_in calls.now) (receipts_in calls.now) 0 result }
{
    let mut count = 0;
    for called in calls {
        count = add_found(count, calls, called.answered.found.as_slice());
    }
    count
}
