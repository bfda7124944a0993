//! A source that keeps what it gave.
ghost use Rattle.std.specs.Prelude.{◌≡◌, ◌≤◌, [], Some, Err, IfOk, OnErr, length, take, option_map};
ghost use Rattle.std.specs.Io.KnownBytes.{ReadConsumes};
ghost use Rattle.cfg_world.specs.Faults.{Rose};
ghost use Rattle.bujerova.specs.Keeping.{source_of, kept_of, KeepsMore};

use cfg_program::LIMIT;
use cfg_world::{Source, StreamFault};
use std::alloc::Global;

/// A source that keeps what was read of it, as long as memory suffices for that.
#[derive(Drop)]
pub struct KeepingSource<S: Source + Drop> {
    source: S,
    kept: Vec<u8>,
    is_whole: bool,
}

impl<S: Source + Drop> KeepingSource<S> {
    /// A source of the bytes of this one, of which nothing was read.
    pub fn new(alloc: Global, source: S) -> KeepingSource<S>
        ensures source { source_of result ≡ source }
        ensures kept { kept_of result ≡ Some [] }
    {
        let mut kept = Vec::new(alloc);
        // Room for the longest script at once; without it the bytes take room as they come.
        let _ = kept.reserve(LIMIT + 1);
        KeepingSource {
            source,
            kept,
            is_whole: true,
        }
    }

    /// The bytes that were read, or none where memory did not suffice to keep them all.
    pub fn kept(&self) -> Option<&[u8]>
        ensures { option_map (λ b. b.now) result ≡ kept_of self.now }
    {
        if self.is_whole {
            Some(self.kept.as_slice())
        } else {
            None
        }
    }

    fn keep(&mut self, bytes: &[u8])
        ensures source { source_of self.new ≡ source_of self.old }
        ensures kept { KeepsMore (kept_of self.old) (kept_of self.new) bytes.now }
    {
        if self.is_whole && self.kept.extend_from_slice(bytes).is_err() {
            self.is_whole = false;
        }
    }
}

impl<S: Source + Drop> Source for KeepingSource<S> {
    ghost use Rattle.bujerova.specs.Keeping.{source_of};

    ghost left = { λ s. S.left (source_of s) };

    ghost faults = { λ s. S.faults (source_of s) };

    fn read(&mut self, into: &mut [u8]) -> Result<usize, StreamFault>
        ensures within { IfOk result (λ n. n ≤ length into.old) }
        ensures bytes { ReadConsumes (S.left (source_of self.old)) (S.left (source_of self.new)) result into.new }
        ensures counted { S.faults (source_of self.old) ≤ S.faults (source_of self.new) }
        ensures failed { result ≡ Err StreamFault.Failed → Rose (S.faults (source_of self.old)) (S.faults (source_of self.new)) }
        ensures kept { IfOk result (λ n. KeepsMore (kept_of self.old) (kept_of self.new) (take n into.new)) }
        ensures still { OnErr result (kept_of self.new ≡ kept_of self.old) }
    {
        let n = self.source.read(into)?;
        self.keep(&into[..n]);
        Ok(n)
    }
}
