//! How the resolver fetches over HTTP: attempts and which of them are repeated, where a container's
//! credentials may be asked for, and how they are asked for. It stands on cfg_world and cfg_json. The
//! layers above may use that an exchange is attempts of one request, of which each but the last is
//! repeated, that the target of a full address is HTTPS, or an allowed address, or a name that has
//! allowed addresses alone, and that a container's answer has its cause in its variables and its part.
#![tactic(auto)]

mod addresses;
mod attempts;
mod classify;
mod container;
mod documents;
mod full_uri;
mod header_value;
pub mod laws;
mod lifetime;
mod reading;
pub mod steps;
mod target;

pub use addresses::is_full_uri_ip_allowed;
pub use attempts::exchange;
pub use cfg_types::{CredentialsError, InvalidFullUriError, OutOfMemory};
pub use classify::{ClassifyRetry, HttpCredentialRetryClassifier, ImdsResponseRetryClassifier};
pub use full_uri::validate_full_uri;
pub use header_value::is_header_value;
pub use reading::{Reading, ReplyKind};
pub use target::{Target, relative_target};
