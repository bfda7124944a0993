//! The tests of cfg_gate, over public calls: what no clause says.
mod callers;
mod passes;
mod scarce;
mod sections;
mod tokens;
