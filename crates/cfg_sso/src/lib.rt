//! Credentials and tokens of AWS IAM Identity Center. It stands on cfg_token, cfg_kept and
//! cfg_profile. The layers above may use that credentials come of one token, of a section of its
//! session or else of the file that a start URL names, and of one request with it; that each answer has
//! its cause; and that no token is sent that has expired by the last reading before it.
#![tactic(auto)]

mod base;
pub mod config;
pub mod laws;
mod role;
mod section;
pub mod sso;
mod start_url;
pub mod steps;

pub use base::session_of_base;
pub use cfg_types::{CredentialsError, OutOfMemory, TokenError};
pub use config::SsoProviderConfig;
pub use sso::credentials::SsoCredentialsProvider;
pub use sso::token::{SsoTokenProvider, is_memory};
