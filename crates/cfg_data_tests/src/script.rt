//! The tests of cfg_script, over public calls: what no clause says.
mod script;
