//! What no clause says: a reader or a writer may fail where no clause knows it. Such failures are
//! tried here.
use cfg_world::{ReaderSource, Sink, Source, WriterSink};
use std::alloc::{AllocError, Global};
use std::io;
use std::io::{Read, Write};
use std::test::Fail;

// What a source answers to three reads into two bytes, and the bytes.
fn source_words<R: Read + Drop>(alloc: Global, reader: R) -> Result<String, AllocError> {
    let mut source = ReaderSource::new(reader);
    let mut bytes = [b'-'; 2];
    let first = source.read(&mut bytes);
    let second = source.read(&mut bytes);
    let third = source.read(&mut bytes);
    format!(in alloc; "{first:?} {second:?} {third:?} {bytes:?}")
}

#[test]
fn a_reader_is_a_source(rt: HostRuntime) -> Result<(), Fail> {
    let words = source_words(rt.alloc(), b"abc".as_slice())?;
    assert_eq!(rt; words.as_str(), "Ok(2) Ok(1) Ok(0) [99, 98]");
    let words = source_words(rt.alloc(), FailsOnce { failed: false })?;
    assert_eq!(rt; words.as_str(), "Err(Failed) Ok(0) Ok(0) [45, 45]");
    Ok(())
}

// What a sink answers to three bytes, once and again.
fn sink_words<W: Write + Drop>(alloc: Global, writer: W) -> Result<String, AllocError> {
    let mut sink = WriterSink::new(writer);
    let first = sink.write(b"abc");
    let second = sink.write(b"abc");
    format!(in alloc; "{first:?} {second:?}")
}

#[test]
fn a_writer_is_a_sink(rt: HostRuntime) -> Result<(), Fail> {
    let words = sink_words(rt.alloc(), io::sink())?;
    assert_eq!(rt; words.as_str(), "Ok(3) Ok(3)");
    let words = sink_words(rt.alloc(), FailsOnce { failed: false })?;
    assert_eq!(rt; words.as_str(), "Err(Failed) Ok(3)");
    let words = sink_words(rt.alloc(), TakesNothing)?;
    assert_eq!(rt; words.as_str(), "Err(Failed) Err(Failed)");
    Ok(())
}

#[derive(Drop)]
struct FailsOnce {
    failed: bool,
}

impl Read for FailsOnce {
    fn read(&mut self, _: &mut [u8]) -> io::Result<usize> {
        if self.failed {
            return Ok(0);
        }
        self.failed = true;
        Err(io::Error::from(io::ErrorKind::BrokenPipe))
    }
}

impl Write for FailsOnce {
    fn write(&mut self, bytes: &[u8]) -> io::Result<usize> {
        if self.failed {
            return Ok(bytes.len());
        }
        self.failed = true;
        Err(io::Error::from(io::ErrorKind::BrokenPipe))
    }

    fn flush(&mut self) -> io::Result<()> {
        Ok(())
    }
}

#[derive(Drop)]
struct TakesNothing;

impl Write for TakesNothing {
    fn write(&mut self, _: &[u8]) -> io::Result<usize> {
        Ok(0)
    }

    fn flush(&mut self) -> io::Result<()> {
        Ok(())
    }
}
