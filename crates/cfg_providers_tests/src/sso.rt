//! The tests of cfg_sso, over public calls: what no clause says.
mod credentials;
