//! The tests of cfg_token_chain, over public calls: what no clause says, and worked examples.
mod builders;
mod chains;
mod defaults;
mod own;
mod setup;
