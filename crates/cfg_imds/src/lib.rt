//! The client of the instance metadata service of Amazon EC2: where it is asked, its session tokens,
//! and what it is asked for. It stands on cfg_exchange and cfg_profile. The layers above may use that a
//! session token has the value and the expiry that its receipts tell, that a call of a client follows
//! its tree of questions, and that its error has its cause in the part of the journal that it added.
#![tactic(auto)]

mod asked;
mod classifier;
mod endpoint;
mod fetch;
pub mod imds;
pub mod laws;
mod path;
mod region;
mod requests;
mod settle;
mod state;
pub mod steps;
mod token;

pub use cfg_types::OutOfMemory;
pub use classifier::BoxedClassifier;
pub use imds::{Builder, Client};
pub use state::ImdsTokenState;
pub use token::MetadataToken;
