//! One call of the default chain over a conversation of lines: the configuration is read, then each question is
//! written and its answer read, and last the outcome is written. It stands on cfg_run, cfg_explain, cfg_program and
//! cfg_lines.
#![tactic(auto)]

mod configured;
mod conversation;
mod driven;
mod exchanges;
pub mod laws;
mod line_reader;
mod object;
mod outcome;

pub use conversation::drive;
pub use driven::{Broken, Cause, Driven};
pub use line_reader::{LONGEST, LineError, LineReader};
