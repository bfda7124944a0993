ghost use Rattle.std.specs.Prelude.{◌≡◌, ◌↔◌, ◌≤◌, ◌<◌, min, [], Some, Err, IfOk, IfErr, IsTrue, length, drop, vec_len};
ghost use Rattle.std.specs.Io.KnownBytes.{ReadConsumes, WriteAppends};
ghost use Rattle.cfg_world.specs.Faults.{Rose};
ghost use Rattle.cfg_world.specs.Tallies.{one_more};

use crate::streams::adapters::count;
use crate::streams::{Sink, Source, StreamFault};
use std::alloc::Global;

/// Bytes that come in pieces. The calls whose numbers are among the failing ones fail with `Failed`;
/// there is no other error.
#[derive(Drop)]
pub struct MemorySource {
    bytes: Vec<u8>,
    at: usize,
    failing: Vec<u64>,
    piece: usize,
    calls: u64,
    faults: u64,
    ghost within: { at ≤ vec_len bytes },
    ghost some: { 0 < piece },
}

impl MemorySource {
    ghost use Rattle.cfg_world.specs.Memory.{source_left, source_pieces, source_faults};

    /// A source of these bytes, at most `piece` of them a call, which is at least 1. `failing` are the
    /// numbers of the calls that fail, counted from 1.
    pub fn new(bytes: Vec<u8>, failing: Vec<u64>, piece: usize) -> MemorySource
        requires { 0 < piece }
        ensures bytes { source_left result ≡ bytes.items }
        ensures pieces { source_pieces result ≡ record { failing = failing.items; most = piece; calls = 0 } }
        ensures faults { source_faults result ≡ 0 }
    {
        MemorySource {
            bytes,
            at: 0,
            failing,
            piece,
            calls: 0,
            faults: 0,
        }
    }
}

impl Source for MemorySource {
    ghost use Rattle.cfg_world.specs.Memory.{source_left, source_pieces, source_faults, called, fails_next};

    ghost left = { λ s. Some (source_left s) };

    ghost faults = { source_faults };

    fn read(&mut self, into: &mut [u8]) -> Result<usize, StreamFault>
        ensures within { IfOk result (λ n. n ≤ length into.old) }
        ensures bytes { ReadConsumes (Some (source_left self.old)) (Some (source_left self.new)) result into.new }
        ensures counted { source_faults self.old ≤ source_faults self.new }
        ensures failed { result ≡ Err StreamFault.Failed → Rose (source_faults self.old) (source_faults self.new) }
        ensures quiet { IfOk result (λ n. source_faults self.new ≡ source_faults self.old) }
        ensures once { result ≡ Err StreamFault.Failed → source_faults self.new ≡ one_more (source_faults self.old) }
        ensures rest { IfOk result (λ n. drop n into.new ≡ drop n into.old) }
        ensures untouched { IfErr result (λ e. into.new ≡ into.old) }
        ensures failing { result ≡ Err StreamFault.Failed ↔ IsTrue (fails_next (source_pieces self.old)) }
        ensures memory { IfErr result (λ e. e ≡ StreamFault.Failed) }
        ensures piece { IfOk result (λ n. n ≡ min (min (length (source_left self.old)) (source_pieces self.old).most) (length into.old)) }
        ensures pieces { source_pieces self.new ≡ called (source_pieces self.old) }
    {
        self.calls = self.calls.saturating_add(1);
        if self.failing.contains(&self.calls) {
            return Err(count(&mut self.faults));
        }
        let left = self.bytes.as_slice().split_at(self.at).1;
        let n = left.len().min(self.piece).min(into.len());
        into[..n].copy_from_slice(left.split_at(n).0);
        self.at += n;
        Ok(n)
    }
}

/// Bytes that are taken in pieces. The calls whose numbers are among the failing ones fail with
/// `Failed`. Where memory runs out a call takes nothing.
#[derive(Drop)]
pub struct MemorySink {
    bytes: Vec<u8>,
    failing: Vec<u64>,
    piece: usize,
    calls: u64,
    faults: u64,
    ghost some: { 0 < piece },
}

impl MemorySink {
    ghost use Rattle.cfg_world.specs.Memory.{sink_written, sink_pieces, sink_faults};

    /// A sink that takes at most `piece` bytes a call, which is at least 1. `failing` are the numbers
    /// of the calls that fail, counted from 1.
    pub fn new(alloc: Global, failing: Vec<u64>, piece: usize) -> MemorySink
        requires { 0 < piece }
        ensures bytes { sink_written result ≡ [] }
        ensures pieces { sink_pieces result ≡ record { failing = failing.items; most = piece; calls = 0 } }
        ensures faults { sink_faults result ≡ 0 }
    {
        MemorySink {
            bytes: Vec::new(alloc),
            failing,
            piece,
            calls: 0,
            faults: 0,
        }
    }

    /// The bytes that were taken, in order.
    pub fn written(&self) -> &[u8]
        ensures { result.now ≡ sink_written self.now }
    {
        self.bytes.as_slice()
    }
}

impl Sink for MemorySink {
    ghost use Rattle.cfg_world.specs.Memory.{sink_written, sink_pieces, sink_faults, called, fails_next};

    ghost written = { λ s. Some (sink_written s) };

    ghost faults = { sink_faults };

    fn write(&mut self, bytes: &[u8]) -> Result<usize, StreamFault>
        requires { 0 < length bytes.now }
        ensures within { IfOk result (λ n. n ≤ length bytes.now) }
        ensures some { IfOk result (λ n. 0 < n) }
        ensures bytes { WriteAppends (Some (sink_written self.old)) (Some (sink_written self.new)) result bytes.now }
        ensures counted { sink_faults self.old ≤ sink_faults self.new }
        ensures failed { result ≡ Err StreamFault.Failed → Rose (sink_faults self.old) (sink_faults self.new) }
        ensures quiet { IfOk result (λ n. sink_faults self.new ≡ sink_faults self.old) }
        ensures once { result ≡ Err StreamFault.Failed → sink_faults self.new ≡ one_more (sink_faults self.old) }
        ensures memory { result ≡ Err StreamFault.OutOfMemory → sink_faults self.new ≡ sink_faults self.old }
        ensures failing { result ≡ Err StreamFault.Failed ↔ IsTrue (fails_next (sink_pieces self.old)) }
        ensures piece { IfOk result (λ n. n ≡ min (length bytes.now) (sink_pieces self.old).most) }
        ensures pieces { sink_pieces self.new ≡ called (sink_pieces self.old) }
    {
        self.calls = self.calls.saturating_add(1);
        if self.failing.contains(&self.calls) {
            return Err(count(&mut self.faults));
        }
        let n = bytes.len().min(self.piece);
        match self.bytes.extend_from_slice(bytes.split_at(n).0) {
            Ok(()) => Ok(n),
            Err(_) => Err(StreamFault::OutOfMemory),
        }
    }
}
