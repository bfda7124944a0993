//! The default chain.
pub mod region;
