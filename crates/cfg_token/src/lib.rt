//! Tokens that files keep: the cached token of IAM Identity Center, its file, what is done with it, and
//! sections that hand it out or refresh it and keep the history of their loads. It stands on cfg_types,
//! cfg_world and cfg_json. The layers above may use that a file is read and written exactly as its
//! format says, and that a section is one step of its rules and adds its record.
#![tactic(auto)]

pub mod decision;
mod file_name;
pub mod file_token;
mod finding;
mod history;
pub mod laws;
mod leaves;
pub mod lifetime;
mod loading;
pub mod loads;
pub mod lookup;
pub mod paths;
pub mod polls;
mod replay;
mod sections;
mod shared_state;
mod sso;
mod sso_file;
mod sso_token;
mod sso_writing;
mod state;
mod token_key;
pub mod writing;

pub use cfg_types::{
    CachedSsoTokenError, Field, IoStep, OutOfMemory, Region, SsoTokenProviderError,
};
pub use decision::{Decision, decide};
pub use file_token::FileToken;
pub use finding::Finding;
pub use history::{Load, Record};
pub use paths::cached_sso_token_path;
pub use shared_state::{SharedAnswer, SharedTokenState};
pub use sso_file::parse_cached_sso_token;
pub use sso_token::{CachedSsoToken, SsoTokenFields};
pub use sso_writing::write_cached_sso_token;
pub use state::{TokenState, finish, next_question, section, section_after};
pub use token_key::TokenKey;
