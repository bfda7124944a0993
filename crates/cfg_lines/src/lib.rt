//! Questions as lines of JSON, and lines as their answers. It stands on cfg_world, cfg_script, serde_json and
//! hex. The layers above may use that a question has one line, byte for byte; that a line is of one question,
//! but for what is known, beside its keys, of the credentials that sign a call; that a line is an answer exactly
//! where it is a script of one item of what was asked, and nothing else; and that the answer is the one that
//! devices over that script give.
#![tactic(auto)]

mod answers;
mod called;
mod fields;
mod items;
pub mod laws;
mod line;
mod questions;
mod reason;
mod values;

pub use answers::{AnswerError, answer_in};
pub use cfg_types::OutOfMemory;
pub use line::question_line;
pub use reason::{NoAnswer, find_no_answer};
