//! What a gate answers.
use cfg_token::Load;
use cfg_token::file_token::FileToken;
use cfg_types::Instant;
use std::error::Error;
use std::fmt;

/// Why a section at a gate gave no token.
#[derive(Drop)]
pub enum GateError<T: FileToken> {
    /// The pass has no allowance. Nothing was asked, and no turn was waited for.
    Spent,
    /// The section's own error.
    Token(T::Error),
}

/// What a section at a gate gave, and what it found: the load of the kept token, the last attempt, and how many
/// loads had been made.
#[derive(Drop)]
pub struct GateAnswer<T: FileToken> {
    pub outcome: Result<T, GateError<T>>,
    pub kept: Option<Load<T>>,
    pub last: Option<Instant>,
    pub found: u64,
}

/// Why no pass was split off.
#[derive(Clone, Copy, Debug, PartialEq, Eq)]
pub enum GateFault {
    /// The share is above the allowance.
    Spent,
    /// Memory ran out.
    OutOfMemory,
}

impl fmt::Display for GateFault {
    ghost use Rattle.std.specs.Prelude.{Some};
    ghost use Rattle.cfg_gate.specs.GateFaults.{fault_text};

    ghost output = { λ fault. Some (fault_text fault) };

    ghost styled_output = { λ fault _. Some (fault_text fault) };

    fn fmt<W: fmt::Write>(&self, f: &mut fmt::Formatter<W>) -> fmt::Result {
        f.write_str(match self {
            GateFault::Spent => "the allowance is spent",
            GateFault::OutOfMemory => "out of memory",
        })
    }
}

impl Error for GateFault {}
