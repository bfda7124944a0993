//! Lines of a source.
ghost use Rattle.std.specs.Prelude.{◌≡◌, ◌<◌, ◌≤◌, ◌+◌, ◌++◌, ◌∷◌, [], codes, drop, take, length, IfNone, IfOk, IfSome, OnOk, OnErr, Err, ◌≢◌};
ghost use Rattle.std.specs.Io.KnownBytes.{Consumes, IsAtEnd, Keeps, prepend_known};
ghost use Rattle.cfg_world.specs.Faults.{Rose};
ghost use Rattle.cfg_drive.specs.Lines.{most_bytes, line_feed, HasNoEnd, IsLine, IsTooLong, IsUnended};

use cfg_world::{Source, StreamFault};
use std::alloc::{AllocError, Global};
use std::marker::Model;

/// The longest line, in bytes, with its end.
pub const LONGEST: usize = 1_048_576;

// The most bytes that are asked of the source at once.
const PIECE: usize = 8_192;

/// Why there is no line.
#[derive(Clone, Copy, Debug, PartialEq, Eq)]
pub enum LineError {
    /// The input ended before the line did.
    Ended,
    /// The input failed.
    Failed,
    /// The line has more than [`LONGEST`] bytes.
    TooLong,
    /// Memory ran out.
    OutOfMemory,
}

impl From<StreamFault> for LineError {
    ghost use Rattle.std.specs.Prelude.{◌≡◌};
    ghost use Rattle.cfg_drive.specs.LineErrors.{error_from};

    ghost from_gives = { λ e r. r ≡ error_from e };

    fn from(fault: StreamFault) -> LineError {
        match fault {
            StreamFault::Failed => LineError::Failed,
            StreamFault::OutOfMemory => LineError::OutOfMemory,
        }
    }
}

impl From<AllocError> for LineError {
    ghost use Rattle.std.specs.Prelude.{◌≡◌};
    ghost use Rattle.cfg_drive.specs.declared.line_reader.LineError.TheVariants.{OutOfMemory as memory};

    ghost from_gives = { λ _ r. r ≡ memory };

    fn from(_: AllocError) -> LineError {
        LineError::OutOfMemory
    }
}

/// Reads a source line by line. Contracts see what it holds: what was read behind the last line's end.
#[derive(Drop)]
pub struct LineReader {
    held: Vec<u8>,
}

impl Model for LineReader {
    ghost use Rattle.std.specs.Prelude.{ℕ, List, length, ◌≤◌};
    ghost use Rattle.cfg_drive.specs.Lines.{most_bytes};

    ghost Value = { List ℕ };

    ghost view = { λ r. r.held.items };

    ghost invariant = { λ r. length r.held.items ≤ most_bytes };
}

impl LineReader {
    /// Nothing is held.
    pub fn new(alloc: Global) -> LineReader
        ensures { result ≡ [] }
    {
        LineReader {
            held: Vec::new(alloc),
        }
    }

    /// The next line, without its end.
    ///
    /// # Errors
    ///
    /// - `Ended`: the input ends before a line does, and within [`LONGEST`] bytes.
    /// - `Failed`: the source failed, and its count of faults rose.
    /// - `TooLong`: no line ends within [`LONGEST`] bytes.
    /// - `OutOfMemory` where memory runs out. What was read then may be lost.
    pub fn next_line<S: Source>(&mut self, source: &mut S) -> Result<Vec<u8>, LineError>
        ensures line { IfOk result (λ line. IsLine line.items) }
        ensures taken { IfOk result (λ line. Consumes (prepend_known self.old (S.left source.old))
            (prepend_known self.new (S.left source.new)) (line.items ++ codes "\n")) }
        ensures ended { result ≡ Err LineError.Ended → IfSome (prepend_known self.old (S.left source.old)) IsUnended }
        ensures long { result ≡ Err LineError.TooLong → IfSome (prepend_known self.old (S.left source.old)) IsTooLong }
        ensures failed { result ≡ Err LineError.Failed → Rose (S.faults source.old) (S.faults source.new) }
        ensures counted { S.faults source.old ≤ S.faults source.new }
        ensures kept { OnErr result (result ≢ Err LineError.OutOfMemory →
            Keeps (prepend_known self.old (S.left source.old)) (prepend_known self.new (S.left source.new))) }
    {
        // No line ends in the bytes before it.
        let mut seen = 0;
        while seen < LONGEST {
            self.hold_more(source, seen)?;
            let held = self.held();
            match end_of_line(held, seen) {
                Some(at) => return Ok(self.take_line(at)?),
                None => seen = held.len(),
            }
        }
        Err(LineError::TooLong)
    }

    fn held(&self) -> &[u8]
        ensures is { result.now ≡ self.now }
        ensures short { length result.now ≤ most_bytes }
    {
        self.held.as_slice()
    }

    // Something behind the bytes that were seen: more of the source, where nothing is held there.
    fn hold_more<S: Source>(&mut self, source: &mut S, seen: usize) -> Result<(), LineError>
        requires within { seen ≤ length self.old }
        requires short { seen < most_bytes }
        ensures more { OnOk result (seen < length self.new) }
        ensures seen { OnOk result (take seen self.new ≡ take seen self.old) }
        ensures ended { result ≡ Err LineError.Ended → (length self.old ≡ seen) × IsAtEnd (S.left source.new) }
        ensures failed { result ≡ Err LineError.Failed → Rose (S.faults source.old) (S.faults source.new) }
        ensures counted { S.faults source.old ≤ S.faults source.new }
        ensures long { result ≢ Err LineError.TooLong }
        ensures held { OnErr result (result ≢ Err LineError.OutOfMemory → self.new ≡ self.old) }
        ensures kept { OnOk result (Keeps (prepend_known self.old (S.left source.old)) (prepend_known self.new (S.left source.new))) }
        ensures stays { OnErr result (result ≢ Err LineError.OutOfMemory →
            Keeps (prepend_known self.old (S.left source.old)) (prepend_known self.new (S.left source.new))) }
    {
        if seen < self.held.len() {
            return Ok(());
        }
        let mut buffer = [0u8; PIECE];
        let room = (LONGEST - seen).min(PIECE);
        let piece = &mut buffer[..room];
        let n = source.read(piece)?;
        if n == 0 {
            return Err(LineError::Ended);
        }
        self.held.extend_from_slice(&piece[..n])?;
        Ok(())
    }

    // The bytes before this place, where the line ends; those behind it are held.
    fn take_line(&mut self, at: usize) -> Result<Vec<u8>, AllocError>
        requires { at < length self.old }
        ensures line { IfOk result (λ line. line.items ≡ take at self.old) }
        ensures rest { OnOk result (self.new ≡ drop (at + 1) self.old) }
    {
        let mut rest = Vec::new(*self.held.allocator());
        rest.extend_from_slice(&self.held.as_slice()[at + 1..])?;
        let mut line = std::mem::replace(&mut self.held, rest);
        line.truncate(at);
        Ok(line)
    }
}

// Where the first line of these bytes ends, which is not in those that were seen.
fn end_of_line(bytes: &[u8], seen: usize) -> Option<usize>
    requires within { seen ≤ length bytes.now }
    requires seen { HasNoEnd (take seen bytes.now) }
    ensures none { IfNone result (HasNoEnd bytes.now) }
    ensures line { IfSome result (λ at. HasNoEnd (take at bytes.now)) }
    ensures end { IfSome result (λ at. drop at bytes.now ≡ line_feed ∷ drop (at + 1) bytes.now) }
    ensures within { IfSome result (λ at. at < length bytes.now) }
{
    for at in seen..bytes.len() {
        if bytes[at] == b'\n' {
            return Some(at);
        }
    }
    None
}
