//! The selected profile.

pub mod token;
