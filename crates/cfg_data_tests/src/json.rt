//! The tests of cfg_json, over public calls: what no clause says.
mod dates;
mod documents;
mod objects;
mod writer;
