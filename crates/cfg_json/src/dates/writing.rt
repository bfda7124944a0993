//! Dates that are written.
ghost use Rattle.std.specs.Prelude.{◌≡◌, ◌<◌, ◌≤◌, ◌+◌, ◌*◌, ◌++◌, ◌∷◌, [], pos, ◌+ℤ◌, ◌*ℤ◌, ◌-ℤ◌, negsuc, ◌<ℤ◌, ◌⊎◌, OnOk, IfOk, IfSome, IfNone, None};
ghost use Rattle.std.specs.Int.{int_rem_euclid};
ghost use Rattle.jiff_core.specs.Calendar.{days_from_civil};
ghost use Rattle.jiff_core.specs.Date.{epoch_day};
ghost use Rattle.cfg_json.specs.Dates.{two, three, four, seconds_of, Exists, IsCommonDate, IsOutside, IsWrittenDate};
ghost use Rattle.cfg_json.specs.WritingDates.{nine, without_zeros as without_zeros_of, fraction_of, day_text, clock_text, date_text};

use crate::dates::local::LocalTime;
use crate::strings::utf8_text;
use cfg_types::{Instant, OutOfMemory, Text};
use jiff_core::civil::Date;
use std::alloc::Global;

fn push(out: &mut Vec<u8>, byte: u8) -> Result<(), OutOfMemory>
    ensures { OnOk result (out.new.items ≡ out.old.items ++ byte ∷ []) }
{
    out.push(byte)?;
    Ok(())
}

fn append(out: &mut Vec<u8>, bytes: &[u8]) -> Result<(), OutOfMemory>
    ensures { OnOk result (out.new.items ≡ out.old.items ++ bytes.now) }
{
    out.extend_from_slice(bytes)?;
    Ok(())
}

#[tactic(auto, using(std::proofs::lemmas::Grind::common_steps))]
fn push_two(out: &mut Vec<u8>, n: u16) -> Result<(), OutOfMemory>
    requires { n < 100 }
    ensures { OnOk result (out.new.items ≡ out.old.items ++ two n) }
{
    push(out, b'0' + (n / 10) as u8)?;
    push(out, b'0' + (n % 10) as u8)
}

#[tactic(auto, using(std::proofs::lemmas::Grind::common_steps))]
fn push_four(out: &mut Vec<u8>, n: u16) -> Result<(), OutOfMemory>
    requires { n < 10000 }
    ensures { OnOk result (out.new.items ≡ out.old.items ++ four n) }
{
    push_two(out, n / 100)?;
    push_two(out, n % 100)
}

#[tactic(auto, using(std::proofs::lemmas::Grind::common_steps))]
fn push_three(out: &mut Vec<u8>, n: u32) -> Result<(), OutOfMemory>
    requires { n < 1000 }
    ensures { OnOk result (out.new.items ≡ out.old.items ++ three n) }
{
    push(out, b'0' + (n / 100) as u8)?;
    push(out, b'0' + (n / 10 % 10) as u8)?;
    push(out, b'0' + (n % 10) as u8)
}

#[tactic(auto, using(std::proofs::lemmas::Grind::common_steps), unfolding(crate::specs::WritingDates::nine))]
fn nine_digits(alloc: Global, n: u32) -> Result<Vec<u8>, OutOfMemory>
    requires { n < 1000000000 }
    ensures { IfOk result (λ v. v.items ≡ nine n) }
{
    let mut out = Vec::new(alloc);
    push_three(&mut out, n / 1_000_000)?;
    push_three(&mut out, n / 1000 % 1000)?;
    push_three(&mut out, n % 1000)?;
    Ok(out)
}

fn without_zeros(digits: &[u8]) -> &[u8]
    ensures { result.now ≡ without_zeros_of digits.now }
{
    let mut rest = digits;
    while let Some((last, front)) = rest.split_last() {
        if *last != b'0' {
            break;
        }
        rest = front;
    }
    rest
}

#[tactic(auto, using(std::proofs::lemmas::Grind::common_steps), unfolding(crate::specs::WritingDates::fraction_of))]
fn push_fraction(alloc: Global, out: &mut Vec<u8>, nanos: u32) -> Result<(), OutOfMemory>
    requires { nanos < 1000000000 }
    ensures { OnOk result (out.new.items ≡ out.old.items ++ fraction_of nanos) }
{
    if nanos == 0 {
        return Ok(());
    }
    let digits = nine_digits(alloc, nanos)?;
    push(out, b'.')?;
    append(out, without_zeros(digits.as_slice()))
}

#[tactic(auto, using(std::proofs::lemmas::Grind::common_steps), unfolding(crate::specs::WritingDates::day_text))]
fn push_day(out: &mut Vec<u8>, local: LocalTime) -> Result<(), OutOfMemory>
    requires year { local.year < 10000 }
    requires month { local.month < 100 }
    requires day { local.day < 100 }
    ensures { OnOk result (out.new.items ≡ out.old.items ++ day_text local) }
{
    push_four(out, local.year)?;
    push(out, b'-')?;
    push_two(out, local.month)?;
    push(out, b'-')?;
    push_two(out, local.day)
}

#[tactic(auto, using(std::proofs::lemmas::Grind::common_steps), unfolding(crate::specs::WritingDates::clock_text))]
fn push_clock(out: &mut Vec<u8>, local: LocalTime) -> Result<(), OutOfMemory>
    requires hour { local.hour < 100 }
    requires minute { local.minute < 100 }
    requires second { local.second < 100 }
    ensures { OnOk result (out.new.items ≡ out.old.items ++ clock_text local) }
{
    push_two(out, local.hour)?;
    push(out, b':')?;
    push_two(out, local.minute)?;
    push(out, b':')?;
    push_two(out, local.second)
}

#[tactic(auto, using(std::proofs::lemmas::Grind::common_steps), unfolding(crate::specs::WritingDates::date_text))]
fn date_bytes(alloc: Global, local: LocalTime, nanos: u32) -> Result<Vec<u8>, OutOfMemory>
    requires exists { Exists local }
    requires below { nanos < 1000000000 }
    ensures { IfOk result (λ v. v.items ≡ date_text local nanos) }
{
    let mut out = Vec::new(alloc);
    push_day(&mut out, local)?;
    push(&mut out, b'T')?;
    push_clock(&mut out, local)?;
    push_fraction(alloc, &mut out, nanos)?;
    push(&mut out, b'Z')?;
    Ok(out)
}

fn split(seconds: i64) -> (i64, u16, u16, u16)
    ensures parts { seconds ≡ result.0 *ℤ pos 86400 +ℤ pos (result.1 * 3600 + result.2 * 60 + result.3) }
    ensures hour { result.1 < 24 }
    ensures minute { result.2 < 60 }
    ensures second { result.3 < 60 }
{
    let day = seconds.div_euclid(86400);
    let time = time_in(seconds);
    (
        day,
        (time / 3600) as u16,
        (time / 60 % 60) as u16,
        (time % 60) as u16,
    )
}

fn time_in(seconds: i64) -> u32
    ensures value { pos result ≡ int_rem_euclid seconds (pos 86400) }
    ensures small { result < 86400 }
{
    seconds.rem_euclid(86400) as u32
}

// The day -719162 is 0001-01-01, and 2932896 is 9999-12-31.
fn date_of(day: i64) -> Option<(u16, u16, u16)>
    ensures value { IfSome result (λ d. IsCommonDate d.0 d.1 d.2 × (days_from_civil (pos d.0) d.1 d.2 ≡ day)) }
    ensures none { IfNone result ((day <ℤ negsuc 719161) ⊎ (pos 2932896 <ℤ day)) }
{
    let Ok(date) = Date::from_unix_epoch_day(day) else {
        return None;
    };
    let Some(year) = year_of(date) else {
        return None;
    };
    Some((year, date.month as u16, date.day as u16))
}

fn year_of(date: Date) -> Option<u16>
    ensures value { IfSome result (λ y. (date.year ≡ pos y) × (1 ≤ y) × (y ≤ 9999)) }
    ensures none { IfNone result (epoch_day date <ℤ negsuc 719161) }
{
    let year = date.year;
    if year < 1 { None } else { Some(year as u16) }
}

#[tactic(auto, using(std::proofs::lemmas::Grind::common_steps), unfolding(crate::specs::Dates::seconds_of))]
fn local_of(seconds: i64) -> Option<LocalTime>
    ensures value { IfSome result (λ l. Exists l × (seconds ≡ seconds_of l)) }
    ensures none { IfNone result (IsOutside seconds) }
{
    let (days, hour, minute, second) = split(seconds);
    let (year, month, day) = date_of(days)?;
    Some(LocalTime {
        year,
        month,
        day,
        hour,
        minute,
        second,
    })
}

fn local_at(moment: Instant) -> Option<LocalTime>
    ensures value { IfSome result (λ l. Exists l × (moment.seconds ≡ seconds_of l)) }
    ensures none { IfNone result (IsOutside moment.seconds) }
{
    local_of(moment.seconds())
}

fn spell(alloc: Global, local: LocalTime, nanos: u32) -> Result<Text, OutOfMemory>
    requires exists { Exists local }
    requires below { nanos < 1000000000 }
    ensures { IfOk result (λ t. t ≡ date_text local nanos) }
{
    let bytes = date_bytes(alloc, local, nanos)?;
    match utf8_text(bytes.as_slice()) {
        Some(text) => Text::of(alloc, text),
        None => unreachable!(),
    }
}

/// The text of the date in UTC (RFC 3339, section 5.6) that stands for the moment, as
/// `2009-02-13T23:31:30.5Z`, with as few digits of the fraction of a second as it needs, and none for a whole
/// second. None exactly where the moment is before the year 1 or after the year 9999.
///
/// # Errors
///
/// `OutOfMemory`: memory runs out.
pub fn write_date(alloc: Global, moment: Instant) -> Result<Option<Text>, OutOfMemory>
    ensures value { IfOk result (λ o. IfSome o (λ t. IsWrittenDate t moment)) }
    ensures none { IfOk result (λ o. IfNone o (IsOutside moment.seconds)) }
    ensures outside { IfOk result (λ o. IsOutside moment.seconds → o ≡ None) }
{
    let Some(local) = local_at(moment) else {
        return Ok(None);
    };
    let text = spell(alloc, local, moment.nanos())?;
    Ok(Some(text))
}
