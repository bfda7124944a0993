//! The default chain.

pub mod credentials;
mod shared;

pub use shared::{Answered, Fallback};
