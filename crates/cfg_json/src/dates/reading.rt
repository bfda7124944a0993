//! Dates that are read.
ghost use Rattle.std.specs.Prelude.{◌≡◌, ◌≤◌, ◌<◌, ◌+◌, ◌*◌, ℤ, pos, negsuc, ◌≤ℤ◌, ◌-ℤ◌, true, false, IsTrue, IfSome, Some, option_map};
ghost use Rattle.jiff_core.specs.Calendar.{days_from_civil, IsEpochDay};
ghost use Rattle.cfg_base.specs.Moment.{Moment};
ghost use Rattle.cfg_base.specs.Text.{characters};
ghost use Rattle.cfg_json.specs.Dates.{IsDateText, IsOffsetDateText, seconds_of, first_weight};
ghost use Rattle.cfg_json.specs.ReadingDates.{day_at, clock_at, local_at, nanos_from, nanos_at, second_fraction_at, offset_at, zone_of, moment_at, is_civil, is_clock};

use crate::dates::digits::{digit_of, read_four, read_next, read_two, skip_either};
use crate::dates::local::LocalTime;
use cfg_types::Instant;
use jiff_core::civil::{Date, days_in_month};

#[tactic(auto, unfolding(crate::specs::ReadingDates::day_at))]
fn read_day(text: &[u8]) -> Option<((u16, u16, u16), &[u8])>
    ensures { option_map (λ p. (p.0, p.1.now)) result ≡ day_at text.now }
{
    let (year, rest) = read_four(text)?;
    let (month, rest) = read_next(b'-', rest)?;
    let (day, rest) = read_next(b'-', rest)?;
    Some(((year, month, day), rest))
}

#[tactic(auto, unfolding(crate::specs::ReadingDates::clock_at))]
fn read_clock(text: &[u8]) -> Option<((u16, u16, u16), &[u8])>
    ensures { option_map (λ p. (p.0, p.1.now)) result ≡ clock_at text.now }
{
    let (hour, rest) = read_two(text)?;
    let (minute, rest) = read_next(b':', rest)?;
    let (second, rest) = read_next(b':', rest)?;
    Some(((hour, minute, second), rest))
}

#[tactic(auto, unfolding(crate::specs::ReadingDates::local_at))]
fn read_local(text: &[u8]) -> Option<(LocalTime, &[u8])>
    ensures { option_map (λ p. (p.0, p.1.now)) result ≡ local_at text.now }
{
    let ((year, month, day), rest) = read_day(text)?;
    let rest = skip_either(b'T', b't', rest)?;
    let ((hour, minute, second), rest) = read_clock(rest)?;
    let local = LocalTime {
        year,
        month,
        day,
        hour,
        minute,
        second,
    };
    Some((local, rest))
}

/// The nanoseconds that the digits at the front stand for, at most nine of them.
fn read_digits(text: &[u8]) -> Option<(u32, &[u8])>
    ensures value { option_map (λ p. (p.0, p.1.now)) result ≡ nanos_from first_weight text.now }
    ensures small { IfSome result (λ p. p.0 < 1000000000) }
{
    let mut nanos = 0;
    let mut weight = 100_000_000;
    let mut rest = text;
    while let Some((x, after)) = rest.split_first() {
        let Some(digit) = digit_of(*x) else {
            return Some((nanos, rest));
        };
        if weight == 0 {
            return None;
        }
        nanos += digit * weight;
        weight /= 10;
        rest = after;
    }
    Some((nanos, rest))
}

#[tactic(auto, unfolding(crate::specs::ReadingDates::nanos_at))]
fn read_nanos(text: &[u8]) -> Option<(u32, &[u8])>
    ensures value { option_map (λ p. (p.0, p.1.now)) result ≡ nanos_at text.now }
    ensures small { IfSome result (λ p. p.0 < 1000000000) }
{
    let (x, _) = text.split_first()?;
    digit_of(*x)?;
    read_digits(text)
}

#[tactic(auto, unfolding(crate::specs::ReadingDates::second_fraction_at))]
fn read_fraction(text: &[u8]) -> Option<(u32, &[u8])>
    ensures value { option_map (λ p. (p.0, p.1.now)) result ≡ second_fraction_at text.now }
    ensures small { IfSome result (λ p. p.0 < 1000000000) }
{
    let Some((x, rest)) = text.split_first() else {
        return Some((0, text));
    };
    if *x == b'.' {
        read_nanos(rest)
    } else {
        Some((0, text))
    }
}

#[tactic(auto, unfolding(crate::specs::ReadingDates::offset_at))]
fn read_offset(text: &[u8]) -> Option<u32>
    ensures value { result ≡ offset_at text.now }
    ensures small { IfSome result (λ n. n < 86400) }
{
    let (hour, rest) = read_two(text)?;
    let (minute, rest) = read_next(b':', rest)?;
    if !rest.is_empty() {
        return None;
    }
    if hour < 24 && minute < 60 {
        Some(u32::from(hour) * 3600 + u32::from(minute) * 60)
    } else {
        None
    }
}

// An offset is at most 23:59, so less than a day of 86400 seconds.
#[tactic(auto, unfolding(crate::specs::ReadingDates::zone_of))]
fn read_zone(text: &[u8], offsets: bool) -> Option<i64>
    ensures value { result ≡ zone_of offsets text.now }
    ensures low { IfSome result (λ z. negsuc 86399 ≤ℤ z) }
    ensures high { IfSome result (λ z. z ≤ℤ pos 86399) }
{
    let (x, rest) = text.split_first()?;
    if *x == b'Z' || *x == b'z' {
        return if rest.is_empty() { Some(0) } else { None };
    }
    if offsets && *x == b'+' {
        let ahead = read_offset(rest)?;
        return Some(i64::from(ahead));
    }
    if offsets && *x == b'-' {
        let behind = read_offset(rest)?;
        return Some(-i64::from(behind));
    }
    None
}

fn is_date(year: u16, month: u16, day: u16) -> bool
    ensures { result ≡ is_civil year month day }
{
    1 <= year
        && year <= 9999
        && 1 <= month
        && month <= 12
        && 1 <= day
        && day <= days_in_month(year as i16, month as u8) as u16
}

fn is_time(hour: u16, minute: u16, second: u16) -> bool
    ensures { result ≡ is_clock hour minute second }
{
    hour < 24 && minute < 60 && second < 60
}

fn time_of(local: LocalTime) -> u32
    requires { IsTrue (is_clock local.hour local.minute local.second) }
    ensures value { result ≡ local.hour * 3600 + local.minute * 60 + local.second }
    ensures small { result < 86400 }
{
    local.hour as u32 * 3600 + local.minute as u32 * 60 + local.second as u32
}

fn day_of(local: LocalTime) -> i64
    requires { IsTrue (is_civil local.year local.month local.day) }
    ensures value { result ≡ days_from_civil (pos local.year) local.month local.day }
    ensures bound { IsEpochDay result }
{
    let date = Date::constrain(local.year as i16, local.month as u8, local.day as u8);
    date.to_unix_epoch_day() as i64
}

// The bound is a round one that the years 1 to 9999 keep to, so that an offset may be taken off.
#[tactic(auto, unfolding(crate::specs::Dates::seconds_of))]
fn count_seconds(local: LocalTime) -> i64
    requires date { IsTrue (is_civil local.year local.month local.day) }
    requires clock { IsTrue (is_clock local.hour local.minute local.second) }
    ensures value { result ≡ seconds_of local }
    ensures low { negsuc 399999999999 ≤ℤ result }
    ensures high { result ≤ℤ pos 399999999999 }
{
    let time = time_of(local) as i64;
    day_of(local) * 86400 + time
}

fn moment_of(local: LocalTime, nanos: u32, offset: i64) -> Option<Instant>
    requires date { IsTrue (is_civil local.year local.month local.day) }
    requires clock { IsTrue (is_clock local.hour local.minute local.second) }
    requires below { nanos < 1000000000 }
    requires offset_low { negsuc 86399 ≤ℤ offset }
    requires offset_high { offset ≤ℤ pos 86399 }
    ensures { result ≡ Some (record { seconds = seconds_of local -ℤ offset; nanos = nanos }) }
{
    let seconds = count_seconds(local) - offset;
    Instant::new(seconds, nanos)
}

#[tactic(auto, unfolding(crate::specs::ReadingDates::moment_at))]
fn read_moment(text: &[u8], offsets: bool) -> Option<Instant>
    ensures { result ≡ moment_at offsets text.now }
{
    let (local, rest) = read_local(text)?;
    let (nanos, rest) = read_fraction(rest)?;
    let offset = read_zone(rest, offsets)?;
    if is_date(local.year, local.month, local.day)
        && is_time(local.hour, local.minute, local.second)
    {
        moment_of(local, nanos, offset)
    } else {
        None
    }
}

/// The moment that a date in UTC stands for, as `2009-02-13T23:31:30.5Z` (RFC 3339, section 5.6):
/// a year of 1 to 9999, a fraction of a second of at most nine digits, and no leap second. `T` and `Z` may
/// be small letters. None exactly where the text is no such date.
pub fn parse_date(text: &str) -> Option<Instant>
    ensures found { IfSome result (IsDateText (characters text.now)) }
    ensures only { (m : Moment) → IsDateText (characters text.now) m → result ≡ Some m }
    ensures exact { result ≡ moment_at false text.now }
{
    read_moment(text.as_bytes(), false)
}

/// The moment that a date in UTC or with an offset stands for, as `2009-02-14T01:31:30+02:00`: with
/// an offset, of at most 23:59, it is the local time less the offset. All else is as [`parse_date`] says.
/// None exactly where the text is no such date.
pub fn parse_offset_date(text: &str) -> Option<Instant>
    ensures found { IfSome result (IsOffsetDateText (characters text.now)) }
    ensures only { (m : Moment) → IsOffsetDateText (characters text.now) m → result ≡ Some m }
    ensures exact { result ≡ moment_at true text.now }
{
    read_moment(text.as_bytes(), true)
}
