//! The tests of the metadata client and the providers of a region, over public calls: what no clause says.
#![tactic(auto)]

#[cfg(test)]
mod imds;
#[cfg(test)]
mod region;
