//! The bodies of this crate's calls, over anything that can be asked. The crates above build their own calls
//! of them.

pub use crate::assume_role::follow_role_chain;
pub use crate::credential_process::follow_credential_process;
pub use crate::custom::{answer_of, names_of, provide_by_name};
pub use crate::environment::credentials::{environment_credentials, follow_environment};
pub use crate::session_name::session_name;
pub use crate::sts::reply_credentials;
pub use crate::web_identity_token::{
    SessionPolicies, WebIdentity, assume_by_web_identity, web_identity,
};
