//! The provider of a role, under the name that the crate gives it.
pub mod builder;
pub mod provider;

pub use builder::AssumeRoleProviderBuilder;
pub use provider::AssumeRoleProvider;
