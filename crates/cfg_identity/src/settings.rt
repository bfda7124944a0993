//! How long held credentials are used.
ghost use Rattle.cfg_identity.specs.Lives.{IsEnd};

use cfg_types::Instant;

/// How long held credentials are used.
#[derive(Clone, Copy, Debug, PartialEq, Eq)]
pub struct CacheSettings {
    /// They are used while more than so many seconds of their life are left.
    pub buffer_seconds: u64,
    /// The life of credentials without an expiry, from the reading of the clock on with which their call began.
    pub default_life_seconds: u64,
}

impl CacheSettings {
    // The end of the life of credentials with this expiry, whose call began with this reading.
    pub(crate) fn end_of(self, expiry: Option<Instant>, now: Instant) -> Instant
        ensures { IsEnd self expiry now result }
    {
        match expiry {
            Some(expiry) => expiry,
            None => now.plus(self.default_life_seconds),
        }
    }
}
