//! Chains over given members.

pub mod credentials;
