//! The default chains.

pub mod token;
