//! Providers of credentials, each over anything that can be asked. It stands on cfg_profile, cfg_world,
//! cfg_json and cfg_exchange. The layers above may use that a provider asks what its tree of questions
//! asks, in that order, and answers what the tree says over their answers.
#![tactic(auto)]

mod assume_role;
pub mod credential_process;
mod custom;
pub mod ecs;
pub mod environment;
pub mod laws;
mod session_name;
pub mod steps;
mod sts;
mod utf8;
pub mod web_identity_token;

pub use assume_role::assume_roles;
pub use cfg_types::{CredentialsError, OutOfMemory, UnhandledCause};
pub use credential_process::CredentialProcessProvider;
pub use custom::{CustomProvider, CustomSource, ProvideCredentials};
pub use ecs::EcsCredentialsProvider;
pub use environment::credentials::EnvironmentVariableCredentialsProvider;
pub use session_name::default_session_name;
pub use sts::{into_credentials, parse_account_id};
pub use web_identity_token::{StaticConfiguration, WebIdentityTokenCredentialsProvider};
