//! The texts of faults.
ghost use Rattle.std.specs.Prelude.{◌≡◌};
ghost use Rattle.std.specs.List.{list_all};
ghost use Rattle.std.specs.Fmt.{DisplaysOnOk};
ghost use Rattle.cfg_script.specs.FaultTexts.{is_plain, is_plain_name as is_plain_name_of, name_text, step_text, later_step_text, later_text, path_text};

use crate::fault::{Fault, Position, ScriptFault, Step, Wanted};
use std::fmt;

impl fmt::Display for Wanted {
    ghost use Rattle.std.specs.Prelude.{Some};
    ghost use Rattle.cfg_script.specs.FaultTexts.{wanted_text};

    ghost output = { λ w. Some (wanted_text w) };

    fn fmt<W: fmt::Write>(&self, f: &mut fmt::Formatter<W>) -> fmt::Result {
        f.write_str(match self {
            Wanted::Object => "a script is one JSON object",
            Wanted::KnownName => "no member of this name belongs here",
            Wanted::Present => "this member has to be there",
            Wanted::List => "a list is wanted",
            Wanted::Text => "a text is wanted",
            Wanted::Boolean => "true or false is wanted",
            Wanted::TextOrNull => "a text or null is wanted",
            Wanted::Variable => "a variable is [name, text] or [name, null]",
            Wanted::Section => "a section is [name, list of properties]",
            Wanted::Property => "a property is [key, value]",
            Wanted::RefusedAlone => "no profiles and no sessions stand beside refused",
            Wanted::Service => "service is an object of settings",
            Wanted::Attempts => "attempts are a whole number of 32 bits without sign",
            Wanted::Timeouts => "timeouts are an object of times in milliseconds",
            Wanted::Calls => "calls are a whole number from 1 to 100",
            Wanted::File => "a file is [path, content] or [path, null]",
            Wanted::Content => "a content is a text or {\"hex\": digits}",
            Wanted::HexDigits => "two hexadecimal digits for each byte are wanted",
            Wanted::Moment => "a moment is whole seconds or [seconds, nanos]",
            Wanted::ClockMoment => {
                "a moment of the clock is whole seconds or [seconds, nanos], from 0 on"
            }
            Wanted::UnsignedInteger => "a whole number of 64 bits without sign is wanted",
            Wanted::SignedInteger => "a whole number of 64 bits with sign is wanted",
            Wanted::Command => "a command is [status, output, errors] or \"fail\"",
            Wanted::CommandStatus => "a status is a whole number of 32 bits with sign",
            Wanted::LookUp => "a look-up is a list of addresses or \"fail\"",
            Wanted::Address => "an address is wanted",
            Wanted::Replies => "replies are an object of lists",
            Wanted::HttpReply => {
                "a reply of HTTP is [status, headers, content], \"dispatch\", \"timeout\" or \"broken\""
            }
            Wanted::HttpStatus => "a status of HTTP is a whole number from 100 to 599",
            Wanted::Header => "a header is [name, value]",
            Wanted::HeaderName => "a header name is wanted",
            Wanted::Reply => {
                "a reply is what the service grants, a refusal, null where it may be, \"dispatch\", \"timeout\" or \"broken\""
            }
            Wanted::RefusalKind => {
                "a refusal is RegionDisabled, MalformedPolicyDocument, InsufficientPermissions, TokenExpired, UserCredentialsChanged or Other"
            }
            Wanted::Callers => "callers are a list of 1 to 16 objects",
            Wanted::Caller => "a caller is an object of lists",
            Wanted::Entry => "an entry is [kind, answer]",
            Wanted::Kind => {
                "a kind is now, jitter, read, write, run, lookup or the name of a list of replies"
            }
            Wanted::Written => "a write is true or \"fail\"",
            Wanted::Mode => "a mode is container or metadata",
            Wanted::NoRole => "a container has no role",
            Wanted::CallNumber => "the number of a call is a whole number from 1 to 100",
        })
    }
}

fn is_plain_byte(byte: u8) -> bool
    ensures { result ≡ is_plain byte }
{
    byte.is_ascii_alphanumeric() || byte == b'-' || byte == b'_'
}

fn has_plain_bytes(name: &str) -> bool
    ensures { result ≡ list_all is_plain name.now }
{
    name.as_bytes().iter().all(|byte| is_plain_byte(*byte))
}

fn is_plain_name(name: &str) -> bool
    ensures { result ≡ is_plain_name_of name.now }
{
    !name.is_empty() && has_plain_bytes(name)
}

// A name that could be taken for something else, or that breaks the line, is quoted.
fn write_name<W: fmt::Write>(f: &mut fmt::Formatter<W>, name: &str) -> fmt::Result
    ensures { DisplaysOnOk W.write_str_gives f.old result (name_text name.now) f.new }
{
    if is_plain_name(name) {
        f.write_str(name)
    } else {
        write!(f, "{name:?}")
    }
}

fn write_step<W: fmt::Write>(f: &mut fmt::Formatter<W>, step: &Step) -> fmt::Result
    ensures { DisplaysOnOk W.write_str_gives f.old result (step_text step.now) f.new }
{
    match step {
        Step::Member(name) => write_name(f, name.as_str()),
        Step::Item(place) => write!(f, "[{place}]"),
    }
}

fn write_later_step<W: fmt::Write>(f: &mut fmt::Formatter<W>, step: &Step) -> fmt::Result
    ensures { DisplaysOnOk W.write_str_gives f.old result (later_step_text step.now) f.new }
{
    if let Step::Member(_) = step {
        f.write_str(".")?;
    }
    write_step(f, step)
}

fn write_later<W: fmt::Write>(f: &mut fmt::Formatter<W>, steps: &[Step]) -> fmt::Result
    ensures { DisplaysOnOk W.write_str_gives f.old result (later_text steps.now) f.new }
{
    for step in steps {
        write_later_step(f, step)?;
    }
    Ok(())
}

// The way to a value, where it has steps.
fn write_path<W: fmt::Write>(f: &mut fmt::Formatter<W>, path: &[Step]) -> fmt::Result
    ensures { DisplaysOnOk W.write_str_gives f.old result (path_text path.now) f.new }
{
    match path.split_first() {
        None => Ok(()),
        Some((first, later)) => {
            write_step(f, first)?;
            write_later(f, later)?;
            f.write_str(": ")
        }
    }
}

impl fmt::Display for Fault {
    ghost use Rattle.cfg_script.specs.FaultTexts.{fault_text};

    ghost output = { fault_text };

    fn fmt<W: fmt::Write>(&self, f: &mut fmt::Formatter<W>) -> fmt::Result {
        write_path(f, self.path.as_slice())?;
        self.wanted.fmt(f)
    }
}

impl fmt::Display for ScriptFault {
    ghost use Rattle.cfg_script.specs.FaultTexts.{script_fault_text};

    ghost output = { script_fault_text };

    fn fmt<W: fmt::Write>(&self, f: &mut fmt::Formatter<W>) -> fmt::Result {
        match self {
            ScriptFault::NoJson(Position { line, column }) => {
                write!(f, "line {line}, column {column}: no JSON")
            }
            ScriptFault::Form(fault) => fault.fmt(f),
        }
    }
}
