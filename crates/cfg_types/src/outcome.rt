//! What a call answered, as a value that a caller lets go.

/// What a call answered. A `Result` is dropped case by case in the proof of every caller; this is dropped by one
/// call.
pub struct Outcome<T, E> {
    /// What it gave, or its error.
    pub answer: Result<T, E>,
}

impl<T: Drop, E: Drop> Drop for Outcome<T, E> {
    fn drop(self) {
        let Outcome { answer: _ } = self;
    }
}
