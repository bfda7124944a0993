//! The program without its process: `run` does what a command asks for, over any source, sink and
//! world, and answers how it ended; `run_shared` does what is done on several threads. It stands on cfg_chain,
//! cfg_region, cfg_token_chain, cfg_gate, cfg_identity, cfg_sharing, cfg_explain, cfg_endpoint, cfg_script and
//! cfg_error_report.
#![tactic(auto)]

mod audit;
mod cached;
mod causes;
mod commands;
pub mod configuration;
mod endpoint;
mod explain;
mod gated;
mod generated;
mod input;
pub mod laws;
pub mod lines;
mod local;
mod outcome;
pub mod output;
mod region;
pub mod resolve;
pub mod run;
pub mod run_shared;
mod share;
mod shared_commands;
mod status;
mod token;
mod why;

pub use causes::Below;
pub use commands::{Command, HELP, MOST_PROFILES, USAGE, VERSION, command_of};
pub use endpoint::endpoint_for;
pub use input::LIMIT;
pub use lines::{ESCAPED, LineForm};
pub use shared_commands::{SharedCommand, shared_command_of};
pub use status::Status;
