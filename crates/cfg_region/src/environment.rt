//! The environment.
pub mod region;
