//! The client of the instance metadata service, under the names that the crate gives it.
pub mod builder;
pub mod client;

pub use builder::Builder;
pub use cfg_types::imds::{
    BuildError, EndpointMode, ErrorResponse, FailedToLoadToken, ImdsError, InvalidEndpointMode,
    TokenError, UnexpectedCause,
};
pub use client::Client;
