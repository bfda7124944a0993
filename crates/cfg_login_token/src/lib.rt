//! Tokens of sign-in sessions (`aws login`): the cached token, its file, and its rules, by which a
//! section of cfg_token hands it out or refreshes it. It stands on cfg_token and cfg_json. The layers
//! above may use that a file is read and written exactly as its format says, and that sections and
//! states of cfg_token serve this token with their history.
#![tactic(auto)]

mod access;
mod dpop_key;
pub mod laws;
mod login;
mod login_file;
mod login_token;
mod login_writing;
mod lookup;
mod paths;
mod renewal;

pub use cfg_types::{Field, IoStep, LoginJsonFault, LoginTokenError, OutOfMemory};
pub use login_file::parse_cached_login_token;
pub use login_token::{LoginToken, LoginTokenFields};
pub use login_writing::write_cached_login_token;
pub use paths::cached_login_token_path;
