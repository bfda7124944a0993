//! Where bytes come from and go to, in memory and by the standard library's readers and writers.
ghost use Rattle.std.specs.Prelude.{◌≡◌, ℕ, ◌<◌, ◌≤◌, List, Option, length, IfOk, Err};
ghost use Rattle.std.specs.Io.KnownBytes.{ReadConsumes, WriteAppends};
ghost use Rattle.cfg_world.specs.Faults.{Rose};

mod adapters;
mod memory;

pub use adapters::{ReaderSource, WriterSink};
pub use memory::{MemorySink, MemorySource};
use std::error::Error;
use std::fmt;

/// Why a source gave nothing, or a sink took nothing.
#[derive(Clone, Copy, Debug, PartialEq, Eq)]
pub enum StreamFault {
    /// The stream failed, and its count of faults rose.
    Failed,
    /// Memory ran out.
    OutOfMemory,
}

impl fmt::Display for StreamFault {
    ghost use Rattle.std.specs.Prelude.{Some};
    ghost use Rattle.cfg_world.specs.Streams.{stream_fault_text};

    ghost output = { λ e. Some (stream_fault_text e) };

    ghost styled_output = { λ e _. Some (stream_fault_text e) };

    fn fmt<W: fmt::Write>(&self, f: &mut fmt::Formatter<W>) -> fmt::Result {
        match self {
            StreamFault::Failed => f.write_str("the stream failed"),
            StreamFault::OutOfMemory => f.write_str("out of memory"),
        }
    }
}

impl Error for StreamFault {}

/// Where bytes come from.
pub trait Source {
    /// The bytes that are left, where the source tells them.
    ghost left: { Self → Option (List ℕ) };

    /// How often it has failed. A count that is full stands still.
    ghost faults: { Self → ℕ };

    /// The next bytes, at most as many as there is room for, and how many they are. None into room
    /// that is there is the end of the input. After an error the bytes that are left are as before.
    /// What `into` holds behind the bytes, or after an error, no clause says.
    fn read(&mut self, into: &mut [u8]) -> Result<usize, StreamFault>
        ensures within { IfOk result (λ n. n ≤ length into.old) }
        ensures bytes { ReadConsumes (left self.old) (left self.new) result into.new }
        ensures counted { faults self.old ≤ faults self.new }
        ensures failed { result ≡ Err StreamFault.Failed → Rose (faults self.old) (faults self.new) };
}

/// Where bytes go to.
pub trait Sink {
    /// The bytes that were written, where the sink tells them.
    ghost written: { Self → Option (List ℕ) };

    /// How often it has failed. A count that is full stands still.
    ghost faults: { Self → ℕ };

    /// Takes a prefix of the bytes, and says how many they are: at least one. It is called with at
    /// least one byte. After an error the bytes that were written are as before.
    fn write(&mut self, bytes: &[u8]) -> Result<usize, StreamFault>
        requires { 0 < length bytes.now }
        ensures within { IfOk result (λ n. n ≤ length bytes.now) }
        ensures some { IfOk result (λ n. 0 < n) }
        ensures bytes { WriteAppends (written self.old) (written self.new) result bytes.now }
        ensures counted { faults self.old ≤ faults self.new }
        ensures failed { result ≡ Err StreamFault.Failed → Rose (faults self.old) (faults self.new) };
}
