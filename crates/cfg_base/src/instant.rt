//! Moments, whose sums and differences stop at the ends of 64 bits.
ghost use Rattle.std.specs.Prelude.{◌≡◌, ◌<◌, ◌≤◌, ◌/◌, ◌↔◌, pos, ◌≤ℤ◌, ◌<ℤ◌, ◌+ℤ◌, ◌-ℤ◌, ◌*ℤ◌, IsSome, IfSome};
ghost use Rattle.std.specs.Int.{int_min, int_max};
ghost use Rattle.cfg_base.specs.Instant.{number, first_number, last_number, nanos_in, is_later_by as is_later_by_of};

use std::marker::Model;

/// A moment: whole seconds since the epoch, of any sign, and nanoseconds below 1,000,000,000
/// that are added to them. Moments are ordered as the number of nanoseconds that they stand for.
#[derive(Clone, Copy, Debug, PartialEq, Eq, PartialOrd, Ord)]
pub struct Instant {
    seconds: i64,
    nanos: u32,
}

impl Model for Instant {
    ghost use Rattle.std.specs.Prelude.{◌<◌};
    ghost use Rattle.cfg_base.specs.Moment.{Moment};

    ghost Value = { Moment };

    ghost view = { λ i. record { seconds = i.seconds; nanos = i.nanos } };

    ghost invariant = { λ i. i.nanos < 1000000000 };

    ghost inverse = { λ m. record { seconds = m.seconds; nanos = m.nanos } };
}

const NANOS_PER_SECOND: u32 = 1_000_000_000;

/// So many seconds, in nanoseconds.
pub fn nanos_of(seconds: u64) -> i128
    ensures { result ≡ nanos_in seconds }
{
    i128::from(seconds) * 1_000_000_000
}

impl Instant {
    /// 1970-01-01T00:00:00Z.
    pub fn epoch() -> Instant
        ensures { result ≡ record { seconds = pos 0; nanos = 0 } }
    {
        Instant {
            seconds: 0,
            nanos: 0,
        }
    }

    /// The moment of these seconds and nanoseconds. None exactly where a second or more of
    /// nanoseconds is given.
    pub fn new(seconds: i64, nanos: u32) -> Option<Instant>
        ensures valid { IsSome result ↔ (nanos < 1000000000) }
        ensures value { IfSome result (λ i. i ≡ record { seconds = seconds; nanos = nanos }) }
    {
        if nanos < NANOS_PER_SECOND {
            Some(Instant { seconds, nanos })
        } else {
            None
        }
    }

    /// Its whole seconds since the epoch, cut downwards.
    pub fn seconds(self) -> i64
        ensures { result ≡ self.seconds }
    {
        self.seconds
    }

    /// Its nanoseconds after those seconds, below 1,000,000,000.
    pub fn nanos(self) -> u32
        ensures value { result ≡ self.nanos }
        ensures below { result < 1000000000 }
    {
        self.nanos
    }

    /// So many seconds later, or the last moment of all: the last second of 64 bits and 999,999,999
    /// nanoseconds.
    pub fn plus(self, seconds: u64) -> Instant
        ensures { number result ≡ int_min (number self +ℤ nanos_in seconds) last_number }
    {
        match self.seconds.checked_add_unsigned(seconds) {
            Some(seconds) => Instant {
                seconds,
                nanos: self.nanos,
            },
            None => Instant {
                seconds: i64::MAX,
                nanos: NANOS_PER_SECOND - 1,
            },
        }
    }

    /// So many seconds earlier, or the first moment of all: the first second of 64 bits and no
    /// nanoseconds.
    pub fn minus(self, seconds: u64) -> Instant
        ensures { number result ≡ int_max (number self -ℤ nanos_in seconds) first_number }
    {
        match self.seconds.checked_sub_unsigned(seconds) {
            Some(seconds) => Instant {
                seconds,
                nanos: self.nanos,
            },
            None => Instant {
                seconds: i64::MIN,
                nanos: 0,
            },
        }
    }

    /// So many seconds later. None exactly where the sum of the seconds passes the last one of 64
    /// bits.
    pub fn checked_plus(self, seconds: u64) -> Option<Instant>
        ensures there { IsSome result ↔ ((self.seconds +ℤ pos seconds) ≤ℤ pos 9223372036854775807) }
        ensures value { IfSome result (λ i. number i ≡ number self +ℤ nanos_in seconds) }
        ensures fields { IfSome result (λ i. i ≡ record { seconds = self.seconds +ℤ pos seconds; nanos = self.nanos }) }
    {
        let seconds = self.seconds.checked_add_unsigned(seconds)?;
        Some(Instant {
            seconds,
            nanos: self.nanos,
        })
    }

    /// The nanoseconds since the epoch that it stands for.
    pub fn number(self) -> i128
        ensures { result ≡ number self }
    {
        i128::from(self.seconds) * 1_000_000_000 + i128::from(self.nanos)
    }

    /// Whether it is more than so many seconds after the other one.
    pub fn is_later_by(self, seconds: u64, other: Instant) -> bool
        ensures { result ≡ is_later_by_of self other seconds }
    {
        other.number() + nanos_of(seconds) < self.number()
    }

    /// Its milliseconds since the epoch, cut downwards.
    pub fn millis(self) -> i128
        ensures { result ≡ self.seconds *ℤ pos 1000 +ℤ pos (self.nanos / 1000000) }
    {
        i128::from(self.seconds) * 1000 + i128::from(self.nanos / 1_000_000)
    }
}
