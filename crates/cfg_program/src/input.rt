//! All bytes of a source.
ghost use Rattle.std.specs.Prelude.{◌≡◌, ◌≤◌, [], IfOk, IfSome, MatchResult, Err, length};
ghost use Rattle.cfg_world.specs.Faults.{Rose};
ghost use Rattle.cfg_program.specs.Inputs.{IsTooLong, most_bytes};
ghost use Rattle.cfg_program.specs.Run.{WasRead, EndsEarly};
ghost use Rattle.cfg_program.specs.Streams.{source_seen};

use crate::status::Status;
use cfg_world::{Source, StreamFault};
use std::alloc::{AllocError, Global};

/// The longest script, in bytes.
pub const LIMIT: usize = 1_048_576;

// The most bytes that are asked of the source at once, as std's buffered readers ask.
const PIECE: usize = 8_192;

/// Why the input was not read.
#[derive(Clone, Copy, Debug, PartialEq, Eq)]
pub enum InputError {
    /// The source failed.
    Fault,
    /// Memory ran out.
    OutOfMemory,
    /// There are more bytes than the limit.
    TooLong,
}

impl From<StreamFault> for InputError {
    ghost use Rattle.std.specs.Prelude.{◌≡◌};
    ghost use Rattle.cfg_program.specs.Inputs.{error_from};

    ghost from_gives = { λ e r. r ≡ error_from e };

    fn from(fault: StreamFault) -> InputError {
        match fault {
            StreamFault::Failed => InputError::Fault,
            StreamFault::OutOfMemory => InputError::OutOfMemory,
        }
    }
}

impl From<AllocError> for InputError {
    ghost use Rattle.std.specs.Prelude.{◌≡◌};
    ghost use Rattle.cfg_program.specs.declared.input.InputError.TheVariants.{OutOfMemory as memory};

    ghost from_gives = { λ _ r. r ≡ memory };

    fn from(_: AllocError) -> InputError {
        InputError::OutOfMemory
    }
}

/// All bytes of the source, read to its end. Where there are more than the limit, it is `TooLong`: one more
/// than the limit is read, and the others are left. `Fault` where the source failed, and `OutOfMemory` where
/// memory ran out; what was read before is not handed out.
pub fn read_all<S: Source>(alloc: Global, source: &mut S) -> Result<Vec<u8>, InputError>
    ensures all { IfOk result (λ v. IfSome (S.left source.old) (λ b. b ≡ v.items)) }
    ensures none_left { IfOk result (λ v. IfSome (S.left source.new) (λ b. b ≡ [])) }
    ensures short { IfOk result (λ v. length v.items ≤ most_bytes) }
    ensures long { result ≡ Err InputError.TooLong → IsTooLong (S.left source.old) (S.left source.new) }
    ensures counted { S.faults source.old ≤ S.faults source.new }
    ensures failed { result ≡ Err InputError.Fault → Rose (S.faults source.old) (S.faults source.new) }
{
    let mut out = Vec::with_capacity(alloc, LIMIT + 1)?;
    let mut buffer = [0u8; PIECE];
    while out.len() <= LIMIT {
        let room = (LIMIT + 1 - out.len()).min(PIECE);
        let piece = &mut buffer[..room];
        let n = source.read(piece)?;
        if n == 0 {
            return Ok(out);
        }
        out.extend_from_slice(&piece[..n])?;
    }
    Err(InputError::TooLong)
}

/// All bytes of the source, or how a run ends that has not got them.
pub fn bytes_in<S: Source>(alloc: Global, source: &mut S) -> Result<Vec<u8>, Status>
    ensures { let seen = source_seen ⟦<S as Source>⟧ source.old source.new in
        MatchResult result (λ bytes. WasRead seen bytes.items) (λ ended. EndsEarly seen ended) }
{
    match read_all(alloc, source) {
        Ok(bytes) => Ok(bytes),
        Err(InputError::Fault) => Err(Status::SourceFault),
        Err(InputError::OutOfMemory) => Err(Status::OutOfMemory),
        Err(InputError::TooLong) => Err(Status::TooLong),
    }
}
