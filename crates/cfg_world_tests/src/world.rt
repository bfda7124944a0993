//! The tests of cfg_world, over public calls: what no clause says.
mod devices;
mod leaves;
mod local;
mod questions;
mod receipts;
mod streams;
