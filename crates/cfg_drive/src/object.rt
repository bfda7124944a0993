//! JSON objects that are written.
ghost use Rattle.std.specs.Prelude.{◌≡◌, IfOk, Some};
ghost use Rattle.serde_json.specs.Data.{object, no_members, string};
ghost use Rattle.serde_json.specs.View.{view};
ghost use Rattle.cfg_lines.specs.Members.{put_or_keep};
ghost use Rattle.cfg_drive.specs.Objects.{told_in};

use cfg_types::OutOfMemory;
use serde_json::{Map, Value};
use std::alloc::Global;

/// An object, a member after another.
pub(crate) struct Object {
    alloc: Global,
    map: Map<String, Value>,
}

impl Drop for Object {
    fn drop(self) {
        let Object { alloc: _, map: _ } = self;
    }
}

#[tactic(auto, unfolding(cfg_lines::specs::Members::put_or_keep))]
impl Object {
    /// No members.
    pub(crate) fn new(alloc: Global) -> Object
        ensures { told_in result ≡ no_members }
    {
        Object {
            alloc,
            map: Map::new(alloc),
        }
    }

    /// One member more.
    pub(crate) fn with(mut self, name: &str, value: Value) -> Result<Object, OutOfMemory>
        ensures { IfOk result (λ o. told_in o ≡ put_or_keep name.now (Some (view value)) (told_in self)) }
    {
        serde_json::put(&mut self.map, self.alloc, name, value)?;
        Ok(self)
    }

    /// One more, a text.
    pub(crate) fn word(self, name: &str, word: &str) -> Result<Object, OutOfMemory>
        ensures { IfOk result (λ o. told_in o ≡ put_or_keep name.now (Some (string word.now)) (told_in self)) }
    {
        let value = Value::try_from_str(self.alloc, word)?;
        self.with(name, value)
    }

    /// The object as a value.
    pub(crate) fn into_value(self) -> Value
        ensures { view result ≡ object (told_in self) }
    {
        let Object { alloc: _, map } = self;
        Value::Object(map)
    }
}
