//! The tests of cfg_login_token, over public calls: what no clause says, and worked examples.
mod files;
mod paths;
mod sections;
