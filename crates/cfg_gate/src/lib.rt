//! One token's sections, one at a time, among many callers: a lock of tickets, which counts the loads of the state
//! that it keeps. It stands on cfg_token and atomic_table. The layers above may use that what a section finds has at
//! least as many loads as its caller had seen, and that the section is one of cfg_token on it.
#![tactic(auto)]

mod answer;
mod calls;
mod gate;
mod places;
pub mod rule;
mod section;
mod sections;
mod steps;
mod token;
mod turns;

pub use answer::{GateAnswer, GateError, GateFault};
pub use calls::{Called, GatedCalls, gated_calls};
pub use gate::{Gate, Pass, new_gate};
pub use token::GatedToken;
