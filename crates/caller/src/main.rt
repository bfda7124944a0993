//! The program `caller`: a caller of the default chain, as one is written. It makes three calls over devices of
//! its own, and writes a line for each: whose credentials the call gave, what it asked, and what an error comes
//! of. Behind them stands a line for each other use.
#![tactic(auto)]

mod calls;
mod configuration;
mod devices;
mod held;
mod keys;
mod lines;
mod receipts;
mod region;
mod source;
mod threads;
mod uses;

use calls::report;
use std::process::ExitCode;
use uses::uses;

fn main(rt: HostRuntime) -> ExitCode {
    let (Ok(calls), Ok(uses)) = (report(rt.alloc()), uses(&rt, rt.alloc())) else {
        return ExitCode::FAILURE;
    };
    match print!(rt; "{calls}{uses}") {
        Ok(()) => ExitCode::SUCCESS,
        Err(_) => ExitCode::FAILURE,
    }
}
