//! The tests of cfg_kept, over public calls: what no clause says.
mod fitting;
mod holdings;
