//! Values of members: contents and lists.
ghost use Rattle.std.specs.Prelude.{◌≡◌, IfOk};
ghost use Rattle.hex.specs.Hex.{IsBytes};
ghost use Rattle.serde_json.specs.View.{view};
ghost use Rattle.cfg_lines.specs.Members.{text_value, content_value, list_value};
ghost use Rattle.cfg_lines.specs.Questions.{tag_value};

use crate::fields::Fields;
use cfg_types::{OutOfMemory, Tag, Text};
use serde_json::Value;
use std::alloc::Global;

/// Bytes: a text, where they are UTF-8, and else an object with their digits.
#[tactic(auto, unfolding(crate::specs::Members::content_value, crate::specs::Members::put_or_keep))]
pub(crate) fn content(alloc: Global, bytes: &[u8]) -> Result<Value, OutOfMemory>
    ensures value { IfOk result (λ v. view v ≡ content_value bytes.now) }
    ensures bytes { IfOk result (λ v. IsBytes bytes.now) }
{
    match std::str::from_utf8(bytes) {
        Ok(text) => Ok(Value::try_from_str(alloc, text)?),
        Err(_) => {
            let digits = hex::encode(alloc, bytes)?;
            let fields = Fields::new(alloc).with("hex", Value::from(digits))?;
            Ok(fields.into_value())
        }
    }
}

/// The texts as a list.
#[tactic(auto, unfolding(crate::specs::Members::text_value))]
pub(crate) fn text_list(alloc: Global, texts: &[Text]) -> Result<Value, OutOfMemory>
    ensures { IfOk result (λ v. view v ≡ list_value text_value texts.now) }
{
    let mut list = Vec::with_capacity(alloc, texts.len())?;
    for text in texts {
        list.push(Value::try_from_str(alloc, text.as_str())?)?;
    }
    Ok(Value::Array(list))
}

#[tactic(auto, unfolding(crate::specs::Questions::tag_value, crate::specs::Members::text_value))]
fn tag(alloc: Global, tag: &Tag) -> Result<Value, OutOfMemory>
    ensures { IfOk result (λ v. view v ≡ tag_value tag.now) }
{
    let mut pair = Vec::with_capacity(alloc, 2)?;
    pair.push(Value::try_from_str(alloc, tag.key.as_str())?)?;
    pair.push(Value::try_from_str(alloc, tag.value.as_str())?)?;
    Ok(Value::Array(pair))
}

/// The tags as a list.
pub(crate) fn tag_list(alloc: Global, tags: &[Tag]) -> Result<Value, OutOfMemory>
    ensures { IfOk result (λ v. view v ≡ list_value tag_value tags.now) }
{
    let mut list = Vec::with_capacity(alloc, tags.len())?;
    for each in tags {
        list.push(tag(alloc, each)?)?;
    }
    Ok(Value::Array(list))
}
