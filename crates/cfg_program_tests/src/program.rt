//! The tests of cfg_program, over public calls: what no clause says.
mod faults;
mod own;
mod runs;
mod shared_runs;
