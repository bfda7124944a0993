//! The tests of cfg_imds, over public calls: what no clause says.
mod calls;
mod settings;
