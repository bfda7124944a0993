//! Credentials for a role by AWS STS `AssumeRole`, over the credentials of a base. It stands on cfg_chain,
//! cfg_providers and cfg_kept. The layers above may use that a call's journal is the part of its base
//! and then at most one exchange, signed by what the base gave, and that each answer has its cause.
#![tactic(auto)]

pub mod base;
pub mod call;
mod exchange;
pub mod laws;
pub mod sts;

pub use base::RoleBase;
pub use call::{RoleCall, RoleSession};
pub use cfg_types::{CredentialsError, OutOfMemory};
pub use sts::{AssumeRoleProvider, AssumeRoleProviderBuilder};
