//! JSON objects, a member after another.
ghost use Rattle.std.specs.Prelude.{◌≡◌, IfOk, IfSome, Some, option_map};
ghost use Rattle.hex.specs.Hex.{IsBytes};
ghost use Rattle.serde_json.specs.Data.{object, no_members, boolean, string};
ghost use Rattle.serde_json.specs.View.{view};
ghost use Rattle.cfg_lines.specs.Members.{members_in, put_or_keep, text_value, whole, signed, content_value, list_value};
ghost use Rattle.cfg_lines.specs.Questions.{tag_value};

use crate::values::{content, tag_list, text_list};
use cfg_types::{Bytes, OutOfMemory, Seq, Tag, Text};
use serde_json::{Map, Value};
use std::alloc::Global;

/// The members of an object.
pub(crate) struct Fields {
    alloc: Global,
    map: Map<String, Value>,
}

impl Drop for Fields {
    fn drop(self) {
        let Fields { alloc: _, map: _ } = self;
    }
}

#[tactic(auto, unfolding(crate::specs::Members::put_or_keep, crate::specs::Members::text_value))]
impl Fields {
    /// None.
    pub(crate) fn new(alloc: Global) -> Fields
        ensures { members_in result ≡ no_members }
    {
        Fields {
            alloc,
            map: Map::new(alloc),
        }
    }

    /// One member more.
    pub(crate) fn with(mut self, name: &str, value: Value) -> Result<Fields, OutOfMemory>
        ensures { IfOk result (λ f. members_in f ≡ put_or_keep name.now (Some (view value)) (members_in self)) }
    {
        serde_json::put(&mut self.map, self.alloc, name, value)?;
        Ok(self)
    }

    /// A word.
    pub(crate) fn word(self, name: &str, word: &str) -> Result<Fields, OutOfMemory>
        ensures { IfOk result (λ f. members_in f ≡ put_or_keep name.now (Some (string word.now)) (members_in self)) }
    {
        let value = Value::try_from_str(self.alloc, word)?;
        self.with(name, value)
    }

    /// A text.
    pub(crate) fn text(self, name: &str, text: &Text) -> Result<Fields, OutOfMemory>
        ensures { IfOk result (λ f. members_in f ≡ put_or_keep name.now (Some (text_value text.now)) (members_in self)) }
    {
        self.word(name, text.as_str())
    }

    /// A text, where there is one.
    pub(crate) fn text_or_none(self, name: &str, text: &Option<Text>) -> Result<Fields, OutOfMemory>
        ensures { IfOk result (λ f. members_in f ≡ put_or_keep name.now (option_map text_value text.now) (members_in self)) }
    {
        match text {
            Some(text) => self.text(name, text),
            None => Ok(self),
        }
    }

    /// A list of texts, where there is one.
    pub(crate) fn texts_or_none(
        self,
        name: &str,
        texts: &Option<Seq<Text>>,
    ) -> Result<Fields, OutOfMemory>
        ensures { IfOk result (λ f. members_in f ≡ put_or_keep name.now (option_map (list_value text_value) texts.now) (members_in self)) }
    {
        match texts {
            Some(texts) => {
                let list = text_list(self.alloc, texts.as_slice())?;
                self.with(name, list)
            }
            None => Ok(self),
        }
    }

    /// A list of tags, where there is one.
    pub(crate) fn tags_or_none(
        self,
        name: &str,
        tags: &Option<Seq<Tag>>,
    ) -> Result<Fields, OutOfMemory>
        ensures { IfOk result (λ f. members_in f ≡ put_or_keep name.now (option_map (list_value tag_value) tags.now) (members_in self)) }
    {
        match tags {
            Some(tags) => {
                let list = tag_list(self.alloc, tags.as_slice())?;
                self.with(name, list)
            }
            None => Ok(self),
        }
    }

    /// Bytes.
    pub(crate) fn content(self, name: &str, bytes: &Bytes) -> Result<Fields, OutOfMemory>
        ensures member { IfOk result (λ f. members_in f ≡ put_or_keep name.now (Some (content_value bytes.now)) (members_in self)) }
        ensures bytes { IfOk result (λ f. IsBytes bytes.now) }
    {
        let value = content(self.alloc, bytes.as_slice())?;
        self.with(name, value)
    }

    /// Bytes, where there are some.
    pub(crate) fn content_or_none(
        self,
        name: &str,
        bytes: &Option<Bytes>,
    ) -> Result<Fields, OutOfMemory>
        ensures member { IfOk result (λ f. members_in f ≡ put_or_keep name.now (option_map content_value bytes.now) (members_in self)) }
        ensures bytes { IfOk result (λ f. IfSome bytes.now IsBytes) }
    {
        match bytes {
            Some(bytes) => self.content(name, bytes),
            None => Ok(self),
        }
    }

    /// A whole number.
    pub(crate) fn number(self, name: &str, number: u64) -> Result<Fields, OutOfMemory>
        ensures { IfOk result (λ f. members_in f ≡ put_or_keep name.now (Some (whole number)) (members_in self)) }
    {
        self.with(name, Value::from(number))
    }

    /// A whole number, where there is one.
    pub(crate) fn number_or_none(
        self,
        name: &str,
        number: Option<u64>,
    ) -> Result<Fields, OutOfMemory>
        ensures { IfOk result (λ f. members_in f ≡ put_or_keep name.now (option_map whole number) (members_in self)) }
    {
        match number {
            Some(number) => self.number(name, number),
            None => Ok(self),
        }
    }

    /// A whole number with sign, where there is one.
    pub(crate) fn signed_or_none(
        self,
        name: &str,
        number: Option<i32>,
    ) -> Result<Fields, OutOfMemory>
        ensures { IfOk result (λ f. members_in f ≡ put_or_keep name.now (option_map signed number) (members_in self)) }
    {
        match number {
            Some(number) => self.with(name, Value::from(number)),
            None => Ok(self),
        }
    }

    /// True or false, where it is told.
    pub(crate) fn truth_or_none(
        self,
        name: &str,
        truth: Option<bool>,
    ) -> Result<Fields, OutOfMemory>
        ensures { IfOk result (λ f. members_in f ≡ put_or_keep name.now (option_map boolean truth) (members_in self)) }
    {
        match truth {
            Some(truth) => self.with(name, Value::from(truth)),
            None => Ok(self),
        }
    }

    /// The object.
    pub(crate) fn into_value(self) -> Value
        ensures { view result ≡ object (members_in self) }
    {
        let Fields { alloc: _, map } = self;
        Value::Object(map)
    }
}
