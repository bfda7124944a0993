//! What an error of credentials or of tokens comes of: the error and each of its causes as text, from the
//! outside in. It stands on cfg_types. The layers above may write [`Causes`] in one line, or line by line.
#![tactic(auto)]

mod addresses;
mod credentials;
mod kind;
pub mod laws;
mod lines;
mod parts;
mod tokens;
mod words;

pub use cfg_types::OutOfMemory;
pub use credentials::causes_of;
pub use kind::LineKind;
pub use lines::{CauseLine, Causes};
pub use tokens::token_causes_of;
