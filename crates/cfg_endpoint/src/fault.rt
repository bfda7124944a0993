//! Why an endpoint is not made, or does not serve something else.
ghost use Rattle.std.specs.Fmt.{WritesOnOk, WritesStyledOnOk};
ghost use Rattle.cfg_endpoint.specs.FaultTexts.{fault_text};

use cfg_types::{Instant, OutOfMemory, Text};
use std::error::Error;
use std::fmt;

/// Why an endpoint is not made, or does not serve something else.
#[derive(Debug, PartialEq, Eq)]
pub enum EndpointFault {
    /// The role is empty, or a client of the instance metadata service does not ask for its path.
    BadRole(Text),
    /// The moment is outside of the years that a date can have.
    BadExpiry(Instant),
    /// Memory ran out.
    OutOfMemory,
}

impl Drop for EndpointFault {
    fn drop(self) {
        match self {
            EndpointFault::BadRole(_) => {}
            EndpointFault::BadExpiry(_) => {}
            EndpointFault::OutOfMemory => {}
        }
    }
}

impl From<OutOfMemory> for EndpointFault {
    ghost use Rattle.std.specs.Prelude.{◌≡◌};
    ghost use Rattle.cfg_endpoint.specs.declared.fault.EndpointFault.TheVariants.{OutOfMemory as memory};

    ghost from_gives = { λ _ e. e ≡ memory };

    fn from(_: OutOfMemory) -> EndpointFault {
        EndpointFault::OutOfMemory
    }
}

impl fmt::Display for EndpointFault {
    ghost use Rattle.std.specs.Prelude.{Some};
    ghost use Rattle.cfg_endpoint.specs.FaultTexts.{fault_text};

    ghost output = { λ e. Some (fault_text e) };

    ghost styled_output = { λ e _. Some (fault_text e) };

    fn fmt<W: fmt::Write>(&self, f: &mut fmt::Formatter<W>) -> fmt::Result {
        match self {
            EndpointFault::BadRole(role) => write_bad_role(f, role),
            EndpointFault::BadExpiry(_) => f.write_str("the expiry is outside the years 1 to 9999"),
            EndpointFault::OutOfMemory => f.write_str("out of memory"),
        }
    }
}

fn write_bad_role<W: fmt::Write>(f: &mut fmt::Formatter<W>, role: &Text) -> fmt::Result
    ensures writes { WritesOnOk W.write_str_gives f.old result (fault_text (EndpointFault.BadRole role.now)) f.new }
    ensures styled { WritesStyledOnOk W.write_str_gives f.old result (fault_text (EndpointFault.BadRole role.now)) f.new }
{
    f.write_str("no path can be asked for the role `")?;
    f.write_str(role.as_str())?;
    f.write_str("`")
}

impl Error for EndpointFault {}
