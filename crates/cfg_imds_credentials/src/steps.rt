//! What the crates above use: the body of the provider, for who has its parts.
pub use crate::follow::follow_metadata;
