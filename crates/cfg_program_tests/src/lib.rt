//! The tests of bearer tokens and the program, over public calls: what no clause says.
#![tactic(auto)]

#[cfg(test)]
mod program;
#[cfg(test)]
mod token_chain;
