//! Audits: whether a journal and an outcome, or answers by the kinds of their questions, can be those of a call of the
//! default chain; which member of the chain asked each question; and which members a call passed over, and why. It stands
//! on cfg_chain and cfg_run. The layers above may use that a verdict is the one that is true of what was handed in, that a
//! yes is said, and a whole call told, exactly where there is such a call, that each entry's owner is the member that asked
//! its question, and that the reasons of a call are the members that it passed over, each with its error, and the one whose
//! answer ended it.
#![tactic(auto)]

pub mod alike;
pub mod answering;
pub mod asking;
mod journals;
pub mod kinds;
pub mod laws;
pub mod reasons;
pub mod replaying;
pub mod subjects;
pub mod verdict;

pub use answering::{Answering, Replay};
pub use asking::owners;
pub use cfg_types::OutOfMemory;
pub use kinds::kind_of;
pub use reasons::{PassedOver, Reasons, own_part, reasons_of};
pub use subjects::subject_of;
pub use verdict::{Verdict, check};
