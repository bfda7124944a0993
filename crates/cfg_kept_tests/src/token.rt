//! The tests of cfg_token, over public calls: what no clause says, and worked examples.
mod files;
mod held;
mod paths;
mod sections;
mod shared;
