//! The tests of cfg_types, over public calls: what no clause says.
mod addresses;
mod errors;
mod markers;
mod replies;
mod requests;
mod shown;
mod texts;
mod values;
