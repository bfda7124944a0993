//! The default chain of credentials, and the provider of a profile's credentials. It stands on cfg_meta,
//! cfg_providers, cfg_imds_credentials, cfg_sso, cfg_login, cfg_region, cfg_kept and cfg_profile. The layers
//! above may use that a call's journal is the parts of the members up to the one that answered, in order,
//! that every earlier one was not loaded, and that each part has its cause.
#![tactic(auto)]

mod call;
mod chain;
mod chain_core;
pub mod default_provider;
pub mod laws;
mod member;
pub mod profile;
mod settled;

pub use cfg_imds::Client;
pub use cfg_kept::{Found, Kept, SharedKept};
pub use cfg_profile::{ProfileSet, ProfileSource, ProviderConfig, Section};
pub use cfg_providers::{CustomProvider, CustomSource, ProvideCredentials};
pub use cfg_region::RegionSource;
pub use cfg_token::TokenKey;
pub use cfg_types::{CredentialsError, OutOfMemory, ProfileFileError};
pub use chain_core::ChainCore;
pub use default_provider::credentials::DefaultCredentialsChain;
pub use default_provider::{Answered, Fallback};
pub use member::Member;
pub use profile::credentials::ProfileFileCredentialsProvider;
