//! Moments: whole seconds since 1970-01-01T00:00:00Z, or these and nanoseconds.
ghost use Rattle.std.specs.Prelude.{◌≡◌};
ghost use Rattle.serde_json.specs.View.{view};
ghost use Rattle.cfg_script.specs.Moments.{pair_moment, moment_from, clock_from};

use crate::fault::{FormError, Wanted, wanting};
use crate::form::Form;
use crate::json::two_items;
use cfg_types::Instant;
use serde_json::Value;
use std::alloc::Global;

#[tactic(auto, unfolding(crate::specs::Moments::pair_moment))]
fn read_moment_with_nanos(seconds: &Value, nanos: &Value) -> Option<Instant>
    ensures { result ≡ pair_moment (view seconds.now, view nanos.now) }
{
    let seconds = seconds.as_i64()?;
    let nanos = u32::try_from(nanos.as_u64()?).ok()?;
    Instant::new(seconds, nanos)
}

#[tactic(auto, unfolding(crate::specs::Moments::moment_from))]
fn read_moment(value: Value) -> Option<Instant>
    ensures { result ≡ moment_from (view value) }
{
    if let Some(seconds) = value.as_i64() {
        return Instant::new(seconds, 0);
    }
    let (seconds, nanos) = two_items(value)?;
    read_moment_with_nanos(&seconds, &nanos)
}

#[tactic(auto, unfolding(crate::specs::Moments::clock_from))]
fn read_clock_moment(value: Value) -> Option<Instant>
    ensures { result ≡ clock_from (view value) }
{
    let moment = read_moment(value)?;
    if moment.seconds() < 0 {
        None
    } else {
        Some(moment)
    }
}

/// A moment of any sign.
pub(crate) struct Moment;

impl Form for Moment {
    ghost use Rattle.cfg_base.specs.Moment.{Moment};
    ghost use Rattle.cfg_script.specs.Moments.{moment};

    type Read = Instant;

    ghost Plain = { Moment };

    ghost seen = { λ m. m };

    ghost form = { moment };

    fn read(alloc: Global, value: Value) -> Result<Instant, FormError> {
        wanting(alloc, Wanted::Moment, read_moment(value))
    }
}

/// A moment from 0 seconds on.
pub(crate) struct ClockMoment;

impl Form for ClockMoment {
    ghost use Rattle.cfg_base.specs.Moment.{Moment};
    ghost use Rattle.cfg_script.specs.Moments.{clock_moment};

    type Read = Instant;

    ghost Plain = { Moment };

    ghost seen = { λ m. m };

    ghost form = { clock_moment };

    fn read(alloc: Global, value: Value) -> Result<Instant, FormError> {
        wanting(alloc, Wanted::ClockMoment, read_clock_moment(value))
    }
}
