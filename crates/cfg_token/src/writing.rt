//! Members of a token's file, written one after the other.
ghost use Rattle.std.specs.Prelude.{◌≡◌, true, OnOk};
ghost use Rattle.std.specs.Str.{all_scalars};
ghost use Rattle.cfg_base.specs.Text.{characters};
ghost use Rattle.cfg_token.specs.SsoText.{with_text, with_text_if_there, HasScalarsIfThere};

use cfg_json::ObjectWriter;
use cfg_types::{Field, OutOfMemory, Text};

/// Writes the member of this field. `OutOfMemory` where memory runs out; what is written is then of no use.
pub fn push_text(file: &mut ObjectWriter, field: Field, text: &str) -> Result<(), OutOfMemory>
    ensures member { OnOk result (file.new ≡ with_text field (characters text.now) file.old) }
    ensures scalars { all_scalars (characters text.now) ≡ true }
{
    file.text(field.as_str(), text)
}

/// Writes the member of this field where there is a text. `OutOfMemory` where memory runs out; what is written is
/// then of no use.
pub fn push_if_there(
    file: &mut ObjectWriter,
    field: Field,
    text: &Option<Text>,
) -> Result<(), OutOfMemory>
    ensures member { OnOk result (file.new ≡ with_text_if_there field text.now file.old) }
    ensures scalars { HasScalarsIfThere text.now }
{
    match text {
        Some(text) => push_text(file, field, text.as_str()),
        None => Ok(()),
    }
}
