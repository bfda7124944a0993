//! The tests of cfg_imds_credentials, over public calls: what no clause says.
mod calls;
mod setup;
