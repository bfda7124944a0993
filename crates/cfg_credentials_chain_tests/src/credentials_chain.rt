//! The tests of cfg_credentials_chain, over public calls: what no clause says.
mod chains;
mod own;
mod words;
