//! The selected profile: what it gives credentials by, and its provider.

pub mod base;
pub mod credentials;
pub mod plan;
pub mod provider;
