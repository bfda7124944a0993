//! Instance metadata.
pub mod region;
