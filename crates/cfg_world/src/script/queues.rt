//! Lists that are answered from in order.
ghost use Rattle.std.specs.Prelude.{◌≡◌, Err, IfOk, OnOk, OnErr, length, slice_get, unwrap_or};
ghost use Rattle.cfg_world.specs.Script.{step, last_reading};

use cfg_types::{FailKind, Instant, OutOfMemory, Seq, TryCopy};
use std::alloc::Global;

/// The next item of a list, and one place further, up to the end. Behind the end stands this one.
pub(super) fn next_or<T: Copy>(items: &Seq<T>, at: &mut usize, behind: T) -> T
    ensures item { result ≡ unwrap_or (slice_get items.now at.old) behind }
    ensures further { at.new ≡ step at.old (length items.now) }
{
    match items.as_slice().get(*at) {
        Some(item) => {
            *at += 1;
            *item
        }
        None => behind,
    }
}

/// A copy of the next item of a queue, and one place further, up to the end. Behind the end stands a
/// failure of this kind. Where memory runs out the place stays as it was.
pub(super) fn next_copy<T: TryCopy>(
    alloc: Global,
    items: &Seq<Result<T, FailKind>>,
    at: &mut usize,
    behind: FailKind,
) -> Result<Result<T, FailKind>, OutOfMemory>
    ensures item { IfOk result (λ r. r ≡ unwrap_or (slice_get items.now at.old) (Err behind)) }
    ensures further { OnOk result (at.new ≡ step at.old (length items.now)) }
    ensures memory { OnErr result (at.new ≡ at.old) }
{
    let next = match items.as_slice().get(*at) {
        Some(Ok(item)) => Ok(item.copy(alloc)?),
        Some(Err(kind)) => Err(*kind),
        None => return Ok(Err(behind)),
    };
    *at += 1;
    Ok(next)
}

/// The last reading of a clock, or the epoch.
pub(super) fn last_reading_of(clock: &Seq<Instant>) -> Instant
    ensures { result ≡ last_reading clock.now }
{
    match clock.as_slice().last() {
        Some(moment) => *moment,
        None => Instant::epoch(),
    }
}
