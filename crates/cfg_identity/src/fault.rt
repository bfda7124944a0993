//! What a cache refuses, and what its chains answer.
ghost use Rattle.std.specs.Prelude.{◌≡◌};
ghost use Rattle.cfg_identity.specs.Faults.{IsTold};

use cfg_types::{Class, Credentials, CredentialsError, OutOfMemory, Text};
use std::error::Error;
use std::fmt;

/// Why a call of a cache gives nothing.
#[derive(Debug, Drop)]
pub enum CacheFault {
    /// The name to be added is there already.
    Taken(Text),
    /// The name is not there.
    Unknown(Text),
    /// Memory ran out.
    OutOfMemory,
    /// What the chain of the name answered. It is never that memory ran out.
    Chain(CredentialsError),
}

impl From<OutOfMemory> for CacheFault {
    ghost use Rattle.std.specs.Prelude.{◌≡◌};
    ghost use Rattle.cfg_identity.specs.declared.fault.CacheFault.TheVariants.{OutOfMemory as memory};

    ghost from_gives = { λ _ e. e ≡ memory };

    fn from(_: OutOfMemory) -> CacheFault {
        CacheFault::OutOfMemory
    }
}

impl fmt::Display for CacheFault {
    ghost use Rattle.cfg_identity.specs.Faults.{fault_text};
    ghost use Rattle.std.specs.Prelude.{Some};

    ghost output = { λ e. Some (fault_text e) };

    fn fmt<W: fmt::Write>(&self, f: &mut fmt::Formatter<W>) -> fmt::Result {
        match self {
            CacheFault::Taken(name) => write!(f, "the name is taken: {}", name.as_str()),
            CacheFault::Unknown(name) => write!(f, "unknown name: {}", name.as_str()),
            CacheFault::OutOfMemory => f.write_str("out of memory"),
            CacheFault::Chain(error) => write!(f, "{error}"),
        }
    }
}

impl Error for CacheFault {}

// What a chain answered, told as that of a cache.
pub(crate) fn told(
    outcome: Result<Credentials, CredentialsError>,
) -> Result<Credentials, CacheFault>
    ensures { IsTold outcome result }
{
    match outcome {
        Ok(credentials) => Ok(credentials),
        Err(error) if error.class() == Class::OutOfMemory => Err(CacheFault::OutOfMemory),
        Err(error) => Err(CacheFault::Chain(error)),
    }
}
