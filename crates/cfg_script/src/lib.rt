//! The program's script: one JSON object that says what the outside world answers. It stands on
//! cfg_types, cfg_world, serde_json, hex and http_header. The layers above read bytes with
//! `read_script`, `read_share`, `read_audit` and `read_endpoint`, whose contracts say what they are by one
//! definition each over the value that serde_json reads. Where they are no script, `find_fault` and its
//! like tell the place and what is wanted there.
//!
//! Each form of a value has one function, which gives what the value says or its first fault, and one
//! definition of the same (`specs/Forms`). The members of an object are, for the code, a type of pairs,
//! each of a name and a form (`settings`, `replies`), and for the definition the same as a value
//! (`specs/Settings`, `specs/Replies`).
#![tactic(auto)]

mod audits;
mod callers;
mod endpoint;
mod fault;
mod fault_text;
mod form;
mod json;
pub mod laws;
mod member_names;
mod members;
mod moments;
mod object;
mod reading;
mod replies;
mod scalars;
mod script;
mod sections;
mod service;
mod settings;

pub use cfg_types::OutOfMemory;
pub use endpoint::{EndpointMode, EndpointScript, find_endpoint_fault, read_endpoint};
pub use fault::{Fault, Position, ScriptFault, Step, Wanted};
pub use reading::{
    find_audit_fault, find_fault, find_share_fault, read_audit, read_script, read_share,
};
pub use script::{AuditScript, Script, ScriptError, ScriptProfiles, ShareScript};
pub use service::ServiceConfig;
