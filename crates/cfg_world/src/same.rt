//! Whether two values are one and the same: true exactly where they are equal as contracts see them.
ghost use Rattle.std.specs.Prelude.{◌≡◌, ◌↔◌, IsTrue};

mod causes;
mod credentials;
mod entries;
mod errors;
mod imds;
mod replies;
mod requests;
mod settings;

use cfg_types::{Bytes, Instant, Outcome, Seq, Text};

/// Values that can be told apart exactly: whole questions, answers and entries, and all that a call comes to, its
/// errors with every cause. A derived `==` promises no more than an equivalence, and nothing of an error that
/// holds errors.
pub trait Same {
    /// Whether both are the same value.
    fn same(&self, other: &Self) -> bool
        ensures { IsTrue result ↔ (self.now ≡ other.now) };
}

impl Same for bool {
    fn same(&self, other: &bool) -> bool {
        *self == *other
    }
}

impl Same for u16 {
    fn same(&self, other: &u16) -> bool {
        *self == *other
    }
}

impl Same for u32 {
    fn same(&self, other: &u32) -> bool {
        *self == *other
    }
}

impl Same for i32 {
    fn same(&self, other: &i32) -> bool {
        *self == *other
    }
}

impl Same for i64 {
    fn same(&self, other: &i64) -> bool {
        *self == *other
    }
}

impl Same for u64 {
    fn same(&self, other: &u64) -> bool {
        *self == *other
    }
}

impl Same for Text {
    #[tactic(auto, using(crate::proofs::Sameness::same_list))]
    fn same(&self, other: &Text) -> bool {
        self == other
    }
}

impl Same for Bytes {
    #[tactic(auto, using(crate::proofs::Sameness::same_list))]
    fn same(&self, other: &Bytes) -> bool {
        self == other
    }
}

impl Same for Instant {
    fn same(&self, other: &Instant) -> bool {
        self.seconds() == other.seconds() && self.nanos() == other.nanos()
    }
}

impl<T: Same> Same for Option<T> {
    fn same(&self, other: &Option<T>) -> bool {
        match (self, other) {
            (None, None) => true,
            (Some(one), Some(other)) => one.same(other),
            _ => false,
        }
    }
}

impl<T: Same, E: Same> Same for Result<T, E> {
    fn same(&self, other: &Result<T, E>) -> bool {
        match (self, other) {
            (Ok(one), Ok(other)) => one.same(other),
            (Err(one), Err(other)) => one.same(other),
            _ => false,
        }
    }
}

impl<T: Same, E: Same> Same for Outcome<T, E> {
    fn same(&self, other: &Outcome<T, E>) -> bool {
        self.answer.same(&other.answer)
    }
}

impl<T: Same> Same for Seq<T> {
    fn same(&self, other: &Seq<T>) -> bool {
        same_items(self.as_slice(), other.as_slice())
    }
}

// Whether both have the same items.
fn same_items<T: Same>(one: &[T], other: &[T]) -> bool
    ensures { IsTrue result ↔ (one.now ≡ other.now) }
{
    if one.len() != other.len() {
        return false;
    }
    for index in 0..one.len() {
        if !one[index].same(&other[index]) {
            return false;
        }
    }
    true
}
