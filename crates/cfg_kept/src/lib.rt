//! Kept values: trees of questions that also find what is kept from earlier calls and leave other
//! values in its place, chains of such trees, the rules by which a call follows a tree, and what keeps
//! the values: the token of one key, which is of IAM Identity Center or of a sign-in session, and for
//! each place of a metadata client its session token and the credentials that were retrieved there. It
//! stands on cfg_world, cfg_token, cfg_login_token and cfg_imds. The layers above may use that an inquiry is
//! such a tree that finds and leaves nothing, that kept states which are told decide with the answers
//! what is found, what is left and what comes out, that a load which a holding finished adds its record,
//! that after memory ran out each kept value is as the last finished holding left it, and that retrieved
//! credentials are those that their receipts tell.
#![tactic(auto)]

mod found;
mod holding;
mod keeper;
mod kept;
mod keyed;
pub mod laws;
mod metadata;
mod place;
mod retrieved;
mod role_document;
mod shared_kept;
mod shared_keyed;
mod shared_pass;
pub mod steps;

pub use cfg_login_token::LoginToken;
pub use cfg_token::{CachedSsoToken, Load, TokenKey, TokenState};
pub use cfg_types::imds::ImdsError;
pub use cfg_types::{
    CachedSsoTokenError, CredentialsError, LoginTokenError, OutOfMemory, SsoTokenProviderError,
};
pub use found::Found;
pub use holding::KeptToken;
pub use keeper::{Keeper, imds_token, kept_section};
pub use kept::Kept;
pub use metadata::PlaceState;
pub use place::Place;
pub use retrieved::{CREDENTIAL_EXPIRATION_INTERVAL, MAX_JITTER, Retrieved};
pub use role_document::RoleDocument;
pub use shared_kept::SharedKept;
pub use shared_pass::SharedPass;
