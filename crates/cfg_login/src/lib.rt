//! Credentials of sign-in sessions (`aws login`). It stands on cfg_login_token, cfg_kept and cfg_profile.
//! The layers above may use that credentials are those of one section of the session's token; that
//! each answer has its cause; and that no credentials are handed out that have expired by the last
//! reading of their section.
#![tactic(auto)]

mod asked_by;
pub mod laws;
pub mod login;
mod section;
pub mod steps;

pub use asked_by::AskedBy;
pub use cfg_types::{CredentialsError, OutOfMemory};
pub use login::LoginCredentialsProvider;
