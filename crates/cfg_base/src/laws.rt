//! Laws of moments and of addresses, each on a call that shows it.
ghost use Rattle.std.specs.Prelude.{◌≡◌, ◌↔◌, ◌<ℤ◌, IsTrue, List, ℕ};
ghost use Rattle.std.specs.Ordering.{int_cmp};
ghost use Rattle.cfg_base.specs.Addresses.{IsAddress};
ghost use Rattle.cfg_base.specs.declared.address.Address.{Address};
ghost use Rattle.cfg_base.specs.Instant.{number};

use crate::instant::Instant;
use std::cmp::Ordering;

/// Two moments compare equal exactly where they stand for one number.
pub fn instants_are_equal_as_numbers(a: Instant, b: Instant) -> bool
    ensures { IsTrue result ↔ (number a ≡ number b) }
{
    let _below = (a.nanos(), b.nanos());
    a == b
}

/// Moments are ordered as the numbers that they stand for.
pub fn instants_are_ordered_as_numbers(a: Instant, b: Instant) -> Ordering
    ensures { result ≡ int_cmp (number a) (number b) }
{
    let _below = (a.nanos(), b.nanos());
    a.cmp(&b)
}

/// A moment is before another exactly where its number is below the other's.
pub fn instants_are_before_as_numbers(a: Instant, b: Instant) -> bool
    ensures { IsTrue result ↔ (number a <ℤ number b) }
{
    let _below = (a.nanos(), b.nanos());
    a < b
}

/// A text is one address at most.
pub fn one_address()
    ensures { (text : List ℕ) (a b : Address) → IsAddress text a → IsAddress text b → a ≡ b }
{}
