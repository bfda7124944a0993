//! The tests of cfg_endpoint, over public calls: what no clause says.
#![tactic(auto)]

#[cfg(test)]
mod calls;
#[cfg(test)]
mod replies;
#[cfg(test)]
mod setup;
