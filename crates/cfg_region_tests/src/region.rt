//! The tests of cfg_region, over public calls: what no clause says.
mod regions;
mod setup;
