//! Profiles.
pub mod region;
pub(crate) mod settings;
