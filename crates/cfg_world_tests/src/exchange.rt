//! The tests of cfg_exchange, over public calls: what no clause says.
mod attempts;
mod containers;
mod readings;
mod targets;
