//! Names, each with a number.
ghost use Rattle.std.specs.Prelude.{◌≡◌, ◌<◌, ◌+◌, None, Some, IfSome, IsTrue, OnOk, OnErr, string_bytes};
ghost use Rattle.std.specs.FinMap.{get, insert, len, empty};
ghost use Rattle.cfg_identity.specs.Names.{AreNumbered, IsOnlyAt, AreBelow};

use cfg_types::{OutOfMemory, TextMap};
use std::alloc::Global;

/// Names, each with its number: those from 0 on, in the order in which they came.
#[derive(Drop)]
pub(crate) struct Names {
    pub(crate) numbers: TextMap<usize>,
    ghost numbered: { AreNumbered numbers },
}

impl Names {
    /// No name. Takes no memory.
    pub(crate) fn new(alloc: Global) -> Names
        ensures { result.numbers ≡ empty }
    {
        Names {
            numbers: TextMap::new(alloc),
        }
    }

    /// The number of a name, none where it has none. It is no other name's.
    pub(crate) fn find(&self, name: &str) -> Option<usize>
        ensures value { result ≡ get self.now.numbers name.now }
        ensures below { IfSome result (λ i. i < len self.now.numbers) }
        ensures only { IfSome result (IsOnlyAt self.now.numbers name.now) }
    {
        self.numbers.get(name).copied()
    }

    /// The next number for a new name. `OutOfMemory` where memory runs out, and no name has it then.
    pub(crate) fn add(&mut self, name: String) -> Result<(), OutOfMemory>
        requires { get self.old.numbers (string_bytes name) ≡ None }
        ensures added { OnOk result (self.new.numbers ≡ insert self.old.numbers (string_bytes name) (len self.old.numbers)) }
        ensures grows { OnOk result (len self.new.numbers ≡ len self.old.numbers + 1) }
        ensures below { AreBelow self.old.numbers }
        ensures stays { OnErr result (self.new.numbers ≡ self.old.numbers) }
    {
        let next = self.numbers.len();
        self.numbers.set(name, next)
    }

    /// How many names there are.
    pub(crate) fn len(&self) -> usize
        ensures { result ≡ len self.now.numbers }
    {
        self.numbers.len()
    }
}
