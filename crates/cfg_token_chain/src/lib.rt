//! Bearer tokens: the selected profile's, a caller's own, and chains of them. It stands on cfg_meta,
//! cfg_sso and cfg_region. The layers above may use that a chain's journal is the parts of its members in
//! order, up to the first that was not passed over, whose answer is the chain's, and that each part has its
//! cause.
#![tactic(auto)]

pub mod custom;
pub mod default_provider;
pub mod laws;
pub mod member;
pub mod meta;
pub mod profile;
mod session;

pub use cfg_sso::SsoTokenProvider;
pub use cfg_types::{OutOfMemory, TokenError};
pub use custom::{CustomToken, ProvideToken};
pub use default_provider::token::DefaultTokenChain;
pub use member::TokenMember;
pub use meta::token::TokenProviderChain;
pub use profile::token::ProfileFileTokenProvider;
