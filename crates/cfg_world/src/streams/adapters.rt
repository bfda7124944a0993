ghost use Rattle.std.specs.Prelude.{◌≡◌, ◌≤◌, ◌<◌, Ok, Err, IfOk, IfErr, length};
ghost use Rattle.std.specs.Io.KnownBytes.{ReadConsumes, WriteAppends};
ghost use Rattle.cfg_world.specs.Faults.{Rose};
ghost use Rattle.cfg_world.specs.Tallies.{one_more};

use crate::streams::{Sink, Source, StreamFault};
use std::io::{Read, Write};

/// A reader as a source. Each error of the reader is a fault, `Failed`, also an interrupted read and
/// one that has no memory.
///
/// The clauses tell what each answer leaves of the bytes and of the count of faults. The standard
/// library does not say when a reader fails, so no clause refuses a body that asks the reader once
/// more after its error; a test does.
#[derive(Drop)]
pub struct ReaderSource<R: Read + Drop> {
    reader: R,
    faults: u64,
}

impl<R: Read + Drop> ReaderSource<R> {
    ghost use Rattle.cfg_world.specs.Adapters.{reader_of, reader_faults};

    /// A source over this reader, without faults so far.
    pub fn new(reader: R) -> ReaderSource<R>
        ensures reader { reader_of result ≡ reader }
        ensures faults { reader_faults result ≡ 0 }
    {
        ReaderSource { reader, faults: 0 }
    }
}

impl<R: Read + Drop> Source for ReaderSource<R> {
    ghost use Rattle.cfg_world.specs.Adapters.{reader_of, reader_faults};

    ghost left = { λ s. R.remaining (reader_of s) };

    ghost faults = { reader_faults };

    fn read(&mut self, into: &mut [u8]) -> Result<usize, StreamFault>
        ensures within { IfOk result (λ n. n ≤ length into.old) }
        ensures bytes { ReadConsumes (R.remaining (reader_of self.old)) (R.remaining (reader_of self.new)) result into.new }
        ensures counted { reader_faults self.old ≤ reader_faults self.new }
        ensures failed { result ≡ Err StreamFault.Failed → Rose (reader_faults self.old) (reader_faults self.new) }
        ensures quiet { IfOk result (λ n. reader_faults self.new ≡ reader_faults self.old) }
        ensures once { IfErr result (λ e. reader_faults self.new ≡ one_more (reader_faults self.old)) }
        ensures memory { IfErr result (λ e. e ≡ StreamFault.Failed) }
    {
        match self.reader.read(into) {
            Ok(n) => Ok(n),
            Err(_) => Err(count(&mut self.faults)),
        }
    }
}

/// A writer as a sink. Each error of the writer is a fault, `Failed`, also an interrupted write and
/// one that has no memory, and so is each write that takes nothing.
///
/// The clauses tell what each answer adds to the bytes and to the count of faults. The standard
/// library does not say when a writer fails, so no clause refuses a body that asks the writer once
/// more after its error; a test does.
#[derive(Drop)]
pub struct WriterSink<W: Write + Drop> {
    writer: W,
    faults: u64,
}

impl<W: Write + Drop> WriterSink<W> {
    ghost use Rattle.cfg_world.specs.Adapters.{writer_of, writer_faults};

    /// A sink over this writer, without faults so far.
    pub fn new(writer: W) -> WriterSink<W>
        ensures writer { writer_of result ≡ writer }
        ensures faults { writer_faults result ≡ 0 }
    {
        WriterSink { writer, faults: 0 }
    }
}

impl<W: Write + Drop> Sink for WriterSink<W> {
    ghost use Rattle.cfg_world.specs.Adapters.{writer_of, writer_faults};

    ghost written = { λ s. W.contents (writer_of s) };

    ghost faults = { writer_faults };

    fn write(&mut self, bytes: &[u8]) -> Result<usize, StreamFault>
        requires { 0 < length bytes.now }
        ensures within { IfOk result (λ n. n ≤ length bytes.now) }
        ensures some { IfOk result (λ n. 0 < n) }
        ensures bytes { WriteAppends (W.contents (writer_of self.old)) (W.contents (writer_of self.new)) result bytes.now }
        ensures counted { writer_faults self.old ≤ writer_faults self.new }
        ensures failed { result ≡ Err StreamFault.Failed → Rose (writer_faults self.old) (writer_faults self.new) }
        ensures quiet { IfOk result (λ n. writer_faults self.new ≡ writer_faults self.old) }
        ensures once { IfErr result (λ e. writer_faults self.new ≡ one_more (writer_faults self.old)) }
        ensures memory { IfErr result (λ e. e ≡ StreamFault.Failed) }
    {
        match self.writer.write(bytes) {
            Ok(n) if n > 0 => Ok(n),
            // A sink is handed at least one byte, so taking none is a fault.
            Ok(_) => Err(count(&mut self.faults)),
            Err(_) => Err(count(&mut self.faults)),
        }
    }
}

// One more fault. A count that is full stands still, and the fault is still told.
pub(crate) fn count(faults: &mut u64) -> StreamFault
    ensures failed { result ≡ StreamFault.Failed }
    ensures later { faults.old ≤ faults.new }
    ensures rose { Rose faults.old faults.new }
    ensures once { faults.new ≡ one_more faults.old }
{
    *faults = faults.saturating_add(1);
    StreamFault::Failed
}
