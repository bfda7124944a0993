//! The client that a provider asks by.
use crate::endpoint::Endpoint;
use crate::imds::client::Client;

/// The client that a provider asks by. No crate above hands out a client that another crate's call made, since
/// a client may hold a boxed classifier: so a provider keeps where its own client asks, and makes it within
/// each call by [`crate::steps::client_at`].
#[derive(Drop)]
pub enum AskedClient {
    /// The one that the caller gave.
    Given(Client),
    /// The provider's own, which asks here.
    Own(Endpoint),
}
