//! Names of regions.
ghost use Rattle.std.specs.Prelude.{◌≡◌, IfOk};
ghost use Rattle.std.specs.Str.{encode_utf8_all};
ghost use Rattle.cfg_base.specs.Text.{characters};

use cfg_base::{OutOfMemory, Shared, Text, TryCopy};
use std::alloc::Global;
use std::fmt;
use std::marker::Model;

/// The name of a region, such as `eu-west-1`. Any text is one. Contracts see its characters. A copy shares them
/// with its source.
#[derive(PartialEq, Eq, Drop)]
pub struct Region {
    name: Shared<Text>,
}

impl Model for Region {
    ghost use Rattle.std.specs.Prelude.{List, ℕ};

    ghost Value = { List ℕ };

    ghost view = { λ r. r.name };

    ghost inverse = { λ name. record { name = name } };
}

impl Region {
    /// The region of this name. `OutOfMemory` where memory runs out.
    pub fn new(alloc: Global, text: &str) -> Result<Region, OutOfMemory>
        ensures { IfOk result (λ region. region ≡ characters text.now) }
    {
        let name = Text::of(alloc, text)?;
        Ok(Region {
            name: Shared::new(alloc, name)?,
        })
    }

    /// The name, lent.
    pub fn as_str(&self) -> &str
        ensures chars { characters result.now ≡ self.now }
        ensures bytes { result.now ≡ encode_utf8_all self.now }
    {
        self.name.get().as_str()
    }
}

impl fmt::Debug for Region {
    ghost use Rattle.std.specs.Str.{encode_utf8_all};
    ghost use Rattle.std.specs.Fmt.{debug_str};

    ghost debug_output = { λ r. debug_str (encode_utf8_all r) };

    fn fmt<W: fmt::Write>(&self, f: &mut fmt::Formatter<W>) -> fmt::Result {
        fmt::Debug::fmt(&self.name, f)
    }
}

impl TryCopy for Region {
    fn copy(&self, alloc: Global) -> Result<Region, OutOfMemory> {
        Ok(Region {
            name: self.name.copy(alloc)?,
        })
    }
}
