//! Chains of region providers, under the name that the crate gives them.
pub mod region;
