//! The providers of IAM Identity Center, under the names that the crate gives them.
pub mod credentials;
pub mod token;

pub use credentials::SsoCredentialsProvider;
pub use token::SsoTokenProvider;
