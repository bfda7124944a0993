//! The tests of cfg_error_report, over public calls: what no clause says.
mod lines;
