//! Values by name.
ghost use Rattle.std.specs.Prelude.{◌≡◌, ◌↔◌, IsTrue, IfOk, OnOk, OnErr, string_bytes};
ghost use Rattle.std.specs.Option.{option_copied};
ghost use Rattle.std.specs.FinMap.{get, insert, empty, len, len as size};

use crate::copies::TryCopy;
use crate::memory::OutOfMemory;
use std::alloc::Global;
use std::collections::HashMap;
use std::marker::Model;

/// Values by name. Contracts see the finite map from the names' bytes to the values.
// The hasher has a fixed seed: the names come from the user's own machine, and nobody else chooses them.
#[derive(Drop)]
pub struct TextMap<V> {
    entries: HashMap<String, V>,
}

impl<V> Model for TextMap<V> {
    ghost use Rattle.cfg_base.specs.TextMap.{Named, named_code, map_of};

    ghost Value = { Named V };

    ghost coded = { named_code V.code };

    ghost view = { λ m. map_of m.entries.entries };
}

impl<V: Drop> TextMap<V> {
    /// A map of nothing. It takes no memory yet.
    pub fn new(alloc: Global) -> TextMap<V>
        ensures { result ≡ empty }
    {
        TextMap {
            entries: HashMap::new(alloc),
        }
    }

    /// A map of nothing, with room for so many names. `OutOfMemory` where memory runs out.
    pub fn with_capacity(alloc: Global, names: usize) -> Result<TextMap<V>, OutOfMemory>
        ensures { IfOk result (λ map. map ≡ empty) }
    {
        Ok(TextMap {
            entries: HashMap::with_capacity(alloc, names)?,
        })
    }

    /// Sets the value of a name, in place of the one that it had. `OutOfMemory` where memory runs
    /// out; the map stays as it was then, and name and value are given up.
    pub fn set(&mut self, name: String, value: V) -> Result<(), OutOfMemory>
        ensures ok { OnOk result (self.new ≡ insert self.old (string_bytes name) value) }
        ensures err { OnErr result (self.new ≡ self.old) }
    {
        let _before = self.entries.insert(name, value)?;
        Ok(())
    }

    /// The value of a name, lent; none where it has none. Names are compared exactly.
    pub fn get(&self, name: &str) -> Option<&V>
        ensures { option_copied result ≡ get self.now name.now }
    {
        self.entries.get(name)
    }

    /// Whether no name has a value.
    pub fn is_empty(&self) -> bool
        ensures { IsTrue result ↔ (len self.now ≡ 0) }
    {
        self.entries.is_empty()
    }

    /// How many names have a value.
    pub fn len(&self) -> usize
        ensures { result ≡ size self.now }
    {
        self.entries.len()
    }
}

impl<V: TryCopy> TryCopy for TextMap<V> {
    fn copy(&self, alloc: Global) -> Result<TextMap<V>, OutOfMemory> {
        let mut copied = TextMap::with_capacity(alloc, self.entries.len())?;
        for (name, value) in self.entries.iter() {
            copied.set(name.clone()?, value.copy(alloc)?)?;
        }
        Ok(copied)
    }
}
