//! What was written, in order.
ghost use Rattle.std.specs.Prelude.{◌≡◌, ◌++◌, ◌∷◌, [], OnOk, OnErr};
ghost use Rattle.std.specs.Option.{option_copied};
ghost use Rattle.cfg_base.specs.Text.{characters};
ghost use Rattle.cfg_world.specs.Script.{latest};

use super::paths;
use cfg_types::{Bytes, OutOfMemory, Text, TextMap};
use std::alloc::Global;
use std::marker::Model;

/// Paths with what was written to them, in order.
pub(super) struct Writes {
    entries: Vec<(Text, Bytes)>,
    index: TextMap<usize>,
}

impl Drop for Writes {
    fn drop(self) {
        let Writes {
            entries: _,
            index: _,
        } = self;
    }
}

impl Model for Writes {
    ghost use Rattle.std.specs.Prelude.{List, ℕ};
    ghost use Rattle.cfg_world.specs.Paths.{Finds};

    ghost Value = { List (List ℕ × List ℕ) };

    ghost view = { λ w. w.entries.items };

    ghost invariant = { λ w. Finds w.index w.entries.items };
}

impl Writes {
    /// No writes.
    pub(super) fn new(alloc: Global) -> Writes
        ensures { result ≡ [] }
    {
        Writes {
            entries: Vec::new(alloc),
            index: TextMap::new(alloc),
        }
    }

    /// One write more. Where memory runs out the writes stay as they were.
    pub(super) fn push(
        &mut self,
        alloc: Global,
        path: &str,
        bytes: &[u8],
    ) -> Result<(), OutOfMemory>
        ensures ok { OnOk result (self.new ≡ self.old ++ (characters path.now, bytes.now) ∷ []) }
        ensures err { OnErr result (self.new ≡ self.old) }
    {
        let name = String::from_str(alloc, path)?;
        let written = (Text::of(alloc, path)?, Bytes::of(alloc, bytes)?);
        let at = self.entries.len();
        self.entries.push(written)?;
        match self.index.set(name, at) {
            Ok(()) => Ok(()),
            Err(no_memory) => {
                let _undone = self.entries.pop();
                Err(no_memory)
            }
        }
    }

    /// What was last written to a path, lent.
    pub(super) fn last(&self, path: &str) -> Option<&Bytes>
        ensures { option_copied result ≡ latest (characters path.now) self.now }
    {
        paths::last_under(&self.index, self.entries.as_slice(), path)
    }
}
