//! The session tokens of an endpoint.
ghost use Rattle.std.specs.Prelude.{◌≡◌, ◌↔◌, ℕ, ◌<◌, ◌≤◌, IsTrue, IfOk, IfSome, IfNone, Some as some};
ghost use Rattle.std.specs.Fmt.{decimal};
ghost use Rattle.cfg_world.specs.Faults.{full_count};
ghost use Rattle.cfg_endpoint.specs.Endpoints.{token_text};

use cfg_types::{Bytes, OutOfMemory};
use std::alloc::Global;

/// The session token of this number.
pub(crate) fn token(alloc: Global, number: u64) -> Result<Bytes, OutOfMemory>
    ensures { IfOk result (λ bytes. bytes ≡ token_text number) }
{
    let mut digits = itoa::Buffer::new();
    let mut bytes = Vec::from_slice(alloc, b"token-")?;
    bytes.extend_from_slice(digits.format(number).as_bytes())?;
    Ok(Bytes::from_vec(bytes))
}

/// Whether it is a session token whose number is above the first of these and not above the second.
pub(crate) fn is_accepted(bytes: &[u8], since: u64, given: u64) -> bool
    ensures { IsTrue result ↔ ((n : ℕ) × (since < n) × (n ≤ given) × (bytes.now ≡ token_text n)) }
{
    match number_of(bytes) {
        Some(number) => is_between(number, since, given),
        None => false,
    }
}

fn is_between(number: u64, since: u64, given: u64) -> bool
    ensures { IsTrue result ↔ ((since < number) × (number ≤ given)) }
{
    since < number && number <= given
}

// The number of a session token, where the bytes are one.
fn number_of(bytes: &[u8]) -> Option<u64>
    ensures some { IfSome result (λ n. bytes.now ≡ token_text n) }
    ensures small { IfSome result (λ n. n ≤ full_count) }
    ensures none { IfNone result ((n : ℕ) → n ≤ full_count → bytes.now ≡ token_text n → ⊥) }
{
    let digits = bytes.strip_prefix(b"token-")?;
    let number = written_number(digits)?;
    Some(number)
}

// The number that these digits write as `Display` does: without a sign and without a zero before them.
fn written_number(digits: &[u8]) -> Option<u64>
    ensures some { IfSome result (λ n. digits.now ≡ decimal n) }
    ensures none { IfNone result ((n : ℕ) → n ≤ full_count → digits.now ≡ decimal n → ⊥) }
{
    let number = read_number(digits)?;
    let mut written = itoa::Buffer::new();
    if written.format(number).as_bytes() == digits {
        Some(number)
    } else {
        None
    }
}

// The number that these digits are, if they are one.
fn read_number(digits: &[u8]) -> Option<u64>
    ensures { (n : ℕ) → n ≤ full_count → digits.now ≡ decimal n → result ≡ some n }
{
    match str::from_utf8(digits) {
        Ok(digits) => cfg_exchange::steps::number(digits),
        Err(_) => None,
    }
}
