//! The digits of dates.
ghost use Rattle.std.specs.Prelude.{◌≡◌, ◌<◌, ◌≤◌, option_map, IfSome};
ghost use Rattle.cfg_json.specs.ReadingDates.{digit, two_at, four_at, next_at, either_at};

use crate::white_space::skip_mark;

/// The number of a decimal digit; none where the byte is no digit.
pub fn digit_of(byte: u8) -> Option<u32>
    ensures value { result ≡ digit byte }
    ensures small { IfSome result (λ d. d ≤ 9) }
{
    if b'0' <= byte && byte <= b'9' {
        Some(u32::from(byte - b'0'))
    } else {
        None
    }
}

/// The number of the two digits at the front, and what follows them; none where they do not stand there.
#[tactic(auto, unfolding(crate::specs::ReadingDates::two_at))]
pub fn read_two(text: &[u8]) -> Option<(u16, &[u8])>
    ensures value { option_map (λ p. (p.0, p.1.now)) result ≡ two_at text.now }
    ensures small { IfSome result (λ p. p.0 ≤ 99) }
{
    let [a, b, rest @ ..] = text else {
        return None;
    };
    let a = digit_of(*a)? as u16;
    let b = digit_of(*b)? as u16;
    Some((a * 10 + b, rest))
}

/// The number of the four digits at the front, and what follows them; none where they do not stand there.
#[tactic(auto, unfolding(crate::specs::ReadingDates::four_at))]
pub fn read_four(text: &[u8]) -> Option<(u16, &[u8])>
    ensures value { option_map (λ p. (p.0, p.1.now)) result ≡ four_at text.now }
    ensures small { IfSome result (λ p. p.0 ≤ 9999) }
{
    let (a, rest) = read_two(text)?;
    let (b, rest) = read_two(rest)?;
    Some((a * 100 + b, rest))
}

/// The number of two digits behind the byte, and what follows them; none where they do not stand there.
#[tactic(auto, unfolding(crate::specs::ReadingDates::next_at))]
pub fn read_next(byte: u8, text: &[u8]) -> Option<(u16, &[u8])>
    ensures value { option_map (λ p. (p.0, p.1.now)) result ≡ next_at byte text.now }
    ensures small { IfSome result (λ p. p.0 ≤ 99) }
{
    let rest = skip_mark(byte, text)?;
    read_two(rest)
}

/// What follows one of two bytes, which has to stand at the front; none where neither does.
#[tactic(auto, unfolding(crate::specs::ReadingDates::either_at))]
pub fn skip_either(one: u8, other: u8, text: &[u8]) -> Option<&[u8]>
    ensures { option_map (λ r. r.now) result ≡ either_at one other text.now }
{
    let (x, rest) = text.split_first()?;
    if *x == one || *x == other {
        Some(rest)
    } else {
        None
    }
}
