//! Bytes that are a text.
ghost use Rattle.std.specs.Prelude.{◌≡◌, IfOk};
ghost use Rattle.cfg_providers.specs.Utf8.{text_in as text_in_of};

use cfg_json::utf8_text;
use cfg_types::{OutOfMemory, Text};
use std::alloc::Global;

// A copy of the text that these bytes are, where they are UTF-8.
pub fn text_in(alloc: Global, bytes: &[u8]) -> Result<Option<Text>, OutOfMemory>
    ensures { IfOk result (λ text. text ≡ text_in_of bytes.now) }
{
    match utf8_text(bytes) {
        Some(text) => Ok(Some(Text::of(alloc, text)?)),
        None => Ok(None),
    }
}
