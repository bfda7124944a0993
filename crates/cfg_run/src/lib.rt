//! Calls as polled states: a caller without devices drives the default chain of credentials, or a chain of
//! regions, by receipts. Each poll shows the next question, or gives the answer. It stands on cfg_chain and
//! cfg_region. The layers above may use that the question which is shown is the one that the order allows next
//! after what was asked, and that an answer is that of a call whose journal is what was asked.
#![tactic(auto)]

pub mod future;
mod kept_progress;
mod last_role;
pub mod laws;
mod next;
mod planned;
mod progress;
mod region_run;
mod replay;
mod roles;
mod run;

pub use cfg_types::OutOfMemory;
pub use region_run::{RegionRun, RegionStep};
pub use run::{Run, Step};
