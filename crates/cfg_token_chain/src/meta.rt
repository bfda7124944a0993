//! Chains of token providers, under the name that the crate gives them.
pub mod token;
