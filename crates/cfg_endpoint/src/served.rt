//! What an endpoint serves.
use cfg_types::{Instant, Text};

/// Credentials that an endpoint serves.
pub struct Served {
    /// The access key id.
    pub id: Text,
    /// The secret access key.
    pub secret: Text,
    /// The session token.
    pub token: Text,
    /// When they end.
    pub expires: Instant,
}

impl Drop for Served {
    fn drop(self) {
        let Served {
            id: _,
            secret: _,
            token: _,
            expires: _,
        } = self;
    }
}
