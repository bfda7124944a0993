//! The tests of cfg_profile, over public calls: what no clause says.
mod chains;
mod configurations;
mod long_paths;
mod sets;
