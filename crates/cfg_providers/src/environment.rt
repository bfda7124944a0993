//! The environment, under the name that the crate gives it.
pub mod credentials;

pub use credentials::EnvironmentVariableCredentialsProvider;
