//! The tests of cfg_providers, over public calls: what no clause says.
mod account;
mod calls;
mod custom;
