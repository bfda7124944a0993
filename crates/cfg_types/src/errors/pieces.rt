//! Texts that are written around values.
ghost use Rattle.std.specs.Prelude.{◌++◌};
ghost use Rattle.std.specs.Str.{encode_utf8_all};
ghost use Rattle.std.specs.Fmt.{WritesOnOk, WritesStyledOnOk};
ghost use Rattle.cfg_types.specs.Field.{field_name};
ghost use Rattle.cfg_types.specs.ErrorTexts.{name_and_message};

use crate::document::Field;
use cfg_base::Text;
use std::fmt;

/// Writes a text behind a label.
pub(crate) fn labelled<W: fmt::Write>(
    f: &mut fmt::Formatter<W>,
    label: &str,
    text: &Text,
) -> fmt::Result
    ensures writes { WritesOnOk W.write_str_gives f.old result (label.now ++ encode_utf8_all text.now) f.new }
    ensures styled { WritesStyledOnOk W.write_str_gives f.old result (label.now ++ encode_utf8_all text.now) f.new }
{
    f.write_str(label)?;
    f.write_str(text.as_str())
}

/// Writes a text between two others.
pub(crate) fn around<W: fmt::Write>(
    f: &mut fmt::Formatter<W>,
    before: &str,
    text: &Text,
    after: &str,
) -> fmt::Result
    ensures writes { WritesOnOk W.write_str_gives f.old result (before.now ++ (encode_utf8_all text.now ++ after.now)) f.new }
    ensures styled { WritesStyledOnOk W.write_str_gives f.old result (before.now ++ (encode_utf8_all text.now ++ after.now)) f.new }
{
    labelled(f, before, text)?;
    f.write_str(after)
}

/// Writes a text between two others, and another one behind them.
pub(crate) fn around_before<W: fmt::Write>(
    f: &mut fmt::Formatter<W>,
    before: &str,
    text: &Text,
    between: &str,
    last: &Text,
) -> fmt::Result
    ensures writes { WritesOnOk W.write_str_gives f.old result (name_and_message before.now text.now between.now last.now) f.new }
    ensures styled { WritesStyledOnOk W.write_str_gives f.old result (name_and_message before.now text.now between.now last.now) f.new }
{
    labelled(f, before, text)?;
    labelled(f, between, last)
}

/// Writes the name of a field between two texts.
pub(crate) fn around_field<W: fmt::Write>(
    f: &mut fmt::Formatter<W>,
    before: &str,
    field: Field,
    after: &str,
) -> fmt::Result
    ensures writes { WritesOnOk W.write_str_gives f.old result (before.now ++ (field_name field ++ after.now)) f.new }
    ensures styled { WritesStyledOnOk W.write_str_gives f.old result (before.now ++ (field_name field ++ after.now)) f.new }
{
    f.write_str(before)?;
    f.write_str(field.as_str())?;
    f.write_str(after)
}
