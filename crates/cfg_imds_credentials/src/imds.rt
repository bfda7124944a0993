//! Credentials of the instance metadata service, under the names that the crate gives them.
pub mod builder;
pub mod credentials;
