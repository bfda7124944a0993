//! Chains of credentials providers over members that the caller gives. It stands on cfg_meta and on the
//! crates of the providers. The layers above may use that a chain's journal is the parts of its members in
//! order, up to the first that was not passed over, whose answer is the chain's, and that each part has its
//! cause.
#![tactic(auto)]

pub mod laws;
pub mod member;
pub mod meta;
mod named;

pub use cfg_types::{CredentialsError, OutOfMemory};
pub use member::Member;
pub use meta::credentials::CredentialsProviderChain;
