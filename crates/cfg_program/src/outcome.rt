//! What a call answered, and its line.
ghost use Rattle.std.specs.Prelude.{◌≡◌, ◌++◌, false, is_ok, IfOk};
ghost use Rattle.cfg_types.specs.Classes.{is_memory};
ghost use Rattle.cfg_program.specs.Lines.{shown_as};

use crate::lines::{LineForm, write_call};
use cfg_types::{Credentials, CredentialsError, OutOfMemory};
use cfg_world::Entry;

/// What calls answered: whether the last one gave what it was asked for, and their lines.
#[derive(Drop)]
pub struct Answered {
    /// Whether the last call gave what it was asked for: credentials, a region or a token.
    pub is_ok: bool,
    /// The lines of the calls, in order.
    pub lines: Vec<u8>,
}

/// Writes the line of a call behind the others, and tells whether it gave credentials. `OutOfMemory` where memory
/// runs out, also where that is what the call answered.
pub fn tell(
    lines: &mut Vec<u8>,
    form: LineForm,
    outcome: &Result<Credentials, CredentialsError>,
    journal: &[Entry],
) -> Result<bool, OutOfMemory>
    ensures memory { IfOk result (λ b. is_memory outcome.now ≡ false) }
    ensures credentials { IfOk result (λ b. b ≡ is_ok outcome.now) }
    ensures line { IfOk result (λ b. lines.new.items ≡ lines.old.items ++ shown_as form outcome.now journal.now) }
{
    if cfg_types::is_memory(outcome) {
        return Err(OutOfMemory);
    }
    write_call(lines, form, outcome, journal)?;
    Ok(outcome.is_ok())
}
