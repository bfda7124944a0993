//! The program `bujerova`: it hands `cfg_program::run` its arguments, standard input and
//! output, the variables that are set and one source of credentials of its own, or where the command is done on
//! several threads `run_shared` what that takes, and ends with the number of the status. For a call over a
//! conversation of lines it hands standard input and output to `cfg_drive::drive`. Where the status says that
//! the input was refused, standard error has a line that says why, unless memory ran out for it. For an unknown
//! command it has the usage.
#![tactic(auto)]

mod fixed;
mod keeping;

use cfg_drive::{Driven, drive};
use cfg_endpoint::EndpointFault;
use cfg_program::run::run;
use cfg_program::run_shared::run_shared;
use cfg_program::{Command, LIMIT, Status, USAGE, command_of, endpoint_for, shared_command_of};
use cfg_providers::CustomSource;
use cfg_script::{
    ScriptFault, find_audit_fault, find_endpoint_fault, find_fault, find_share_fault, read_endpoint,
};
use cfg_types::{EnvText, OutOfMemory, Text};
use cfg_world::{LocalDevices, ReaderSource, Sink, Source, World, WriterSink};
use fixed::Fixed;
use keeping::KeepingSource;
use std::alloc::Global;
use std::env;
use std::env::VarError;
use std::io::ErrorKind;
use std::process::ExitCode;
use std::rt::{Clock, Env, Files};
use std::sync::Wait;
use std::thread::Threads;

fn main(rt: HostRuntime) -> ExitCode {
    let arguments = match arguments_of(&rt) {
        Ok(arguments) => arguments,
        Err(status) => return ended(&rt, status),
    };
    let mut sink = WriterSink::new(rt.stdout());
    let input = ReaderSource::new(rt.stdin());
    match arguments.as_slice() {
        [name] if name.as_str() == "drive" => converse(&rt, input, &mut sink),
        arguments => answer(&rt, arguments, input, &mut sink),
    }
}

// A call over a conversation of lines.
fn converse<R: AllocGlobal + Eprint, S: Source + Drop, K: Sink>(
    rt: &R,
    mut source: S,
    sink: &mut K,
) -> ExitCode {
    let driven = drive(rt.alloc(), &mut source, sink);
    match &driven {
        Driven::Broken(broken) => {
            let _ = eprintln!(rt; "bujerova: {broken}");
        }
        Driven::Unwritten => {
            let _ = rt.eprintln("bujerova: the output failed");
        }
        _ => {}
    }
    ExitCode::from(driven.number())
}

// Any other command. The bytes of the input are kept, from which it is told why they are refused.
fn answer<R, S: Source + Drop, K: Sink>(
    rt: &R,
    arguments: &[String],
    input: S,
    sink: &mut K,
) -> ExitCode
where
    R: AllocGlobal + Eprint + Env + Files + Clock + Threads + Wait + Sync,
{
    let alloc = rt.alloc();
    let mut source = KeepingSource::new(alloc, input);
    let status = match variables_for(rt, arguments) {
        Ok(variables) => run_with(rt, arguments, &mut source, sink, variables),
        Err(OutOfMemory) => Err(OutOfMemory),
    };
    let status = status.unwrap_or(Status::OutOfMemory);
    if let Ok(Some(reason)) = reason_of(alloc, status, arguments, source.kept()) {
        let _ = eprintln!(rt; "bujerova: {reason}");
    }
    ended(rt, status)
}

// The number of the status, with the usage behind it for an unknown command.
fn ended<R: Eprint>(rt: &R, status: Status) -> ExitCode {
    if status == Status::UnknownCommand {
        let _ = rt.eprintln(USAGE);
    }
    ExitCode::from(status.number())
}

// How a run ends that has the program's own source of credentials.
fn run_with<R: AllocGlobal + Threads + Wait + Sync + Files + Clock, S: Source, K: Sink>(
    rt: &R,
    arguments: &[String],
    source: &mut S,
    sink: &mut K,
    variables: Vec<(String, EnvText)>,
) -> Result<Status, OutOfMemory> {
    let alloc = rt.alloc();
    let name = Text::of(alloc, fixed::NAME)?;
    let provider = Box::new(alloc, Fixed::new(alloc))?;
    let own = CustomSource { name, provider };
    let custom = vec![in alloc; own]?;
    let mut world = World::new(alloc, LocalDevices::new(alloc, rt));
    let ended = match shared_command_of(arguments) {
        Some(_) => run_shared(rt, alloc, arguments, source, sink, custom),
        None => run(arguments, source, sink, variables, &mut world, custom),
    };
    Ok(ended)
}

// The variables that are set, where the command reads them. Asking the process for them costs more than a whole call
// over a small script.
fn variables_for<R: Env + AllocGlobal>(
    rt: &R,
    arguments: &[String],
) -> Result<Vec<(String, EnvText)>, OutOfMemory> {
    match command_of(arguments) {
        Some(Command::Local) => variables_of(rt),
        _ => Ok(Vec::new(rt.alloc())),
    }
}

// Why the input was refused, where the status says that it was, and what was read of it is known.
fn reason_of(
    alloc: Global,
    status: Status,
    arguments: &[String],
    kept: Option<&[u8]>,
) -> Result<Option<String>, OutOfMemory> {
    let Some(bytes) = kept else {
        return Ok(None);
    };
    let reason = match status {
        Status::NoScript => match fault_in(alloc, arguments, bytes)? {
            Some(fault) => format!(in alloc; "{fault}")?,
            None => unfit_for(alloc, command_of(arguments), bytes)?,
        },
        Status::TooLong => format!(in alloc; "more than {LIMIT} bytes")?,
        _ => return Ok(None),
    };
    Ok(Some(reason))
}

// Why the bytes are no script of the command's kind, or none where they are one.
fn fault_in(
    alloc: Global,
    arguments: &[String],
    bytes: &[u8],
) -> Result<Option<ScriptFault>, OutOfMemory> {
    if shared_command_of(arguments).is_some() {
        return find_share_fault(alloc, bytes);
    }
    match command_of(arguments) {
        Some(Command::Audit) => find_audit_fault(alloc, bytes),
        Some(Command::Endpoint) => find_endpoint_fault(alloc, bytes),
        _ => find_fault(alloc, bytes),
    }
}

// Why a script is refused that is one of the command's kind: no endpoint is made of it, or it has several calls where
// the command makes one.
fn unfit_for(alloc: Global, command: Option<Command>, bytes: &[u8]) -> Result<String, OutOfMemory> {
    match command {
        Some(Command::Endpoint) => unmade(alloc, bytes),
        _ => Ok(String::from_str(alloc, "calls: this command makes one call")?),
    }
}

// Why no endpoint is made of the object that the bytes are.
fn unmade(alloc: Global, bytes: &[u8]) -> Result<String, OutOfMemory> {
    let Ok(script) = read_endpoint(alloc, bytes) else {
        return Err(OutOfMemory);
    };
    let Err(fault) = endpoint_for(alloc, &script) else {
        return Err(OutOfMemory);
    };
    match &fault {
        EndpointFault::BadRole(_) => {
            Ok(String::from_str(alloc, "role: no path can be asked for it")?)
        }
        EndpointFault::BadExpiry(_) => Ok(format!(in alloc; "expires: {fault}")?),
        EndpointFault::OutOfMemory => Err(OutOfMemory),
    }
}

// The program's arguments. Those that are no texts are no known command.
fn arguments_of(rt: &(impl Env + AllocGlobal)) -> Result<Vec<String>, Status> {
    let given = match env::args(rt) {
        Ok(given) => given,
        Err(error) => return Err(status_of(error.kind())),
    };
    let mut arguments = Vec::new(rt.alloc());
    for argument in given.skip(1) {
        let Ok(()) = arguments.push(argument) else {
            return Err(Status::OutOfMemory);
        };
    }
    Ok(arguments)
}

fn status_of(kind: ErrorKind) -> Status {
    match kind {
        ErrorKind::OutOfMemory => Status::OutOfMemory,
        _ => Status::UnknownCommand,
    }
}

// The names of the variables that providers ask for where there are no sections. The standard library's list of all
// variables drops those that are not Unicode, or fails at them.
const ASKED: [&str; 16] = [
    "AWS_ACCESS_KEY_ID",
    "AWS_SECRET_ACCESS_KEY",
    "SECRET_ACCESS_KEY",
    "AWS_SESSION_TOKEN",
    "AWS_ACCOUNT_ID",
    "AWS_PROFILE",
    "AWS_WEB_IDENTITY_TOKEN_FILE",
    "AWS_ROLE_ARN",
    "AWS_ROLE_SESSION_NAME",
    "AWS_CONTAINER_CREDENTIALS_RELATIVE_URI",
    "AWS_CONTAINER_CREDENTIALS_FULL_URI",
    "AWS_CONTAINER_AUTHORIZATION_TOKEN_FILE",
    "AWS_CONTAINER_AUTHORIZATION_TOKEN",
    "AWS_EC2_METADATA_DISABLED",
    "AWS_EC2_METADATA_SERVICE_ENDPOINT",
    "AWS_EC2_METADATA_SERVICE_ENDPOINT_MODE",
];

// The variables that are set, of those that providers ask for where there are no sections.
fn variables_of(rt: &(impl Env + AllocGlobal)) -> Result<Vec<(String, EnvText)>, OutOfMemory> {
    let mut vars = Vec::new(rt.alloc());
    for name in ASKED {
        let value = match env::var(rt, name) {
            Ok(text) => EnvText::Text(Text::from_string(text)),
            Err(VarError::NotUnicode) => EnvText::NotUnicode,
            Err(VarError::NotPresent) => continue,
            Err(VarError::OutOfMemory) => return Err(OutOfMemory),
        };
        vars.push((String::from_str(rt.alloc(), name)?, value))?;
    }
    Ok(vars)
}
