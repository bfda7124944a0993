//! Held credentials.
ghost use Rattle.std.specs.Prelude.{◌≡◌};
ghost use Rattle.std.specs.Option.{ForSome};

use crate::settings::CacheSettings;
use cfg_types::{Credentials, Instant, OutOfMemory, TryCopy};
use std::alloc::Global;

/// Credentials that are held, and the end of their life. Where they have an expiry, that is the end.
#[derive(Drop)]
pub struct Held {
    /// The credentials.
    pub credentials: Credentials,
    /// Their expiry, or where they have none the default life behind the reading of the clock with which their call
    /// began.
    pub life: Instant,
    pub ghost until_expiry: { ForSome credentials.expiry (λ expiry. life ≡ expiry) },
}

impl TryCopy for Held {
    fn copy(&self, alloc: Global) -> Result<Held, OutOfMemory> {
        Ok(Held {
            credentials: self.credentials.copy(alloc)?,
            life: self.life,
        })
    }
}

impl Held {
    ghost use Rattle.std.specs.Option.{option_copied};
    ghost use Rattle.cfg_identity.specs.Lives.{lasting as lasting_of};

    // What is held, where more of its life is left at this reading than the settings' buffer.
    pub(crate) fn lasting(
        held: &Option<Held>,
        settings: CacheSettings,
        now: Instant,
    ) -> Option<&Held>
        ensures { option_copied result ≡ lasting_of settings held.now now }
    {
        match held {
            Some(held) if held.life.is_later_by(settings.buffer_seconds, now) => Some(held),
            _ => None,
        }
    }
}
