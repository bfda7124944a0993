//! The tests of cfg_assume_role, over public calls: what no clause says.
mod provider;
