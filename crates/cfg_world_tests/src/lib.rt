//! The tests of the world and its exchanges, over public calls: what no clause says.
#![tactic(auto)]

#[cfg(test)]
mod exchange;
#[cfg(test)]
mod world;
