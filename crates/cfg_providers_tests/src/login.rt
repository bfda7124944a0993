//! The tests of cfg_login, over public calls: what no clause says.
mod calls;
