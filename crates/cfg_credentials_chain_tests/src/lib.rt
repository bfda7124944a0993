//! The tests of roles that a caller assumes, and chains over given members, over public calls: what no clause says.
#![tactic(auto)]

#[cfg(test)]
mod assume_role;
#[cfg(test)]
mod credentials_chain;
#[cfg(test)]
mod setup;
