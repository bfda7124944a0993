//! Credentials of the instance metadata service of Amazon EC2. It stands on cfg_imds and cfg_kept. The
//! layers above may use that a call's journal is the gets of the listing and of the role, a reading of the
//! clock and at most one jitter, that what is retrieved is kept and answers later refusals, and that each
//! answer has its cause.
#![tactic(auto)]

mod document;
mod follow;
mod get;
pub mod imds;
pub mod laws;
mod listing;
pub mod steps;

pub use cfg_types::{CredentialsError, OutOfMemory};
pub use imds::builder::Builder;
pub use imds::credentials::ImdsCredentialsProvider;
