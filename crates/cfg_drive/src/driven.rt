//! How a conversation ends.
ghost use Rattle.std.specs.Prelude.{◌≡◌};
ghost use Rattle.cfg_drive.specs.Statuses.{number_of, number_of_cause};

use crate::configured::NoConfiguration;
use cfg_lines::NoAnswer;
use cfg_types::OutOfMemory;
use std::alloc::AllocError;
use std::fmt;

/// How a conversation ended.
#[derive(Drop)]
pub enum Driven {
    /// The call gave credentials, and the line of its outcome was written.
    Credentials,
    /// The call answered an error, and the line of its outcome was written.
    Refused,
    /// The conversation broke off at a line that was to be read.
    Broken(Broken),
    /// The output failed.
    Unwritten,
    /// Memory ran out.
    OutOfMemory,
}

/// Where a conversation broke off, and why.
#[derive(Drop)]
pub struct Broken {
    /// The number of the line that was to be read. The configuration is line 1.
    pub line: u64,
    /// Why.
    pub cause: Cause,
}

/// Why a conversation broke off at a line.
#[derive(Drop)]
pub enum Cause {
    /// It is no configuration.
    NoConfiguration(NoConfiguration),
    /// It is no answer to the question.
    NoAnswer(NoAnswer),
    /// The input ended before the line did.
    Ended,
    /// The input failed.
    Failed,
    /// It has more than [`LONGEST`](crate::LONGEST) bytes.
    TooLong,
}

impl Driven {
    /// The number of the status, that the process ends with.
    pub fn number(&self) -> u8
        ensures { result ≡ number_of self.now }
    {
        match self {
            Driven::Credentials => 0,
            Driven::Refused => 1,
            Driven::Broken(broken) => broken.cause.number(),
            Driven::Unwritten => 5,
            Driven::OutOfMemory => 6,
        }
    }
}

impl Cause {
    // The number of its status.
    fn number(&self) -> u8
        ensures { result ≡ number_of_cause self.now }
    {
        match self {
            Cause::NoConfiguration(_) => 3,
            Cause::NoAnswer(_) => 3,
            Cause::Ended => 4,
            Cause::Failed => 4,
            Cause::TooLong => 7,
        }
    }
}

impl fmt::Display for Cause {
    ghost use Rattle.cfg_drive.specs.BrokenTexts.{cause_text};

    ghost output = { cause_text };

    fn fmt<W: fmt::Write>(&self, f: &mut fmt::Formatter<W>) -> fmt::Result {
        match self {
            Cause::NoConfiguration(reason) => reason.fmt(f),
            Cause::NoAnswer(reason) => reason.fmt(f),
            Cause::Ended => f.write_str("the input ended"),
            Cause::Failed => f.write_str("the input failed"),
            Cause::TooLong => f.write_str("more than 1048576 bytes"),
        }
    }
}

impl fmt::Display for Broken {
    ghost use Rattle.cfg_drive.specs.BrokenTexts.{broken_text};

    ghost output = { broken_text };

    fn fmt<W: fmt::Write>(&self, f: &mut fmt::Formatter<W>) -> fmt::Result {
        let line = self.line;
        let cause = &self.cause;
        write!(f, "line {line}: {cause}")
    }
}

/// Why a conversation stopped.
#[derive(Drop)]
pub(crate) enum Stopped {
    /// It broke off at a line that was to be read.
    Broken(Broken),
    /// The output failed.
    Unwritten,
    /// Memory ran out.
    OutOfMemory,
}

impl From<OutOfMemory> for Stopped {
    ghost use Rattle.std.specs.Prelude.{◌≡◌};
    ghost use Rattle.cfg_drive.specs.declared.driven.Stopped.TheVariants.{OutOfMemory as memory};

    ghost from_gives = { λ _ s. s ≡ memory };

    fn from(_: OutOfMemory) -> Stopped {
        Stopped::OutOfMemory
    }
}

/// It broke off at the line of this number.
pub(crate) fn broken_at(line: u64, cause: Cause) -> Stopped
    ensures { result ≡ Stopped.Broken (record { line = line; cause = cause }) }
{
    Stopped::Broken(Broken { line, cause })
}
