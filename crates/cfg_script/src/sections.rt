//! Variables and sections.
ghost use Rattle.std.specs.Prelude.{◌≡◌};
ghost use Rattle.serde_json.specs.View.{view};
ghost use Rattle.cfg_script.specs.Sections.{env_text_from};

use crate::fault::{FormError, Wanted, wanting};
use crate::form::{Form, Items, read_pair};
use crate::scalars::KeyText;
use cfg_types::{EnvText, Text};
use serde_json::Value;
use std::alloc::Global;

fn read_env_text(value: Value) -> Option<EnvText>
    ensures { result ≡ env_text_from (view value) }
{
    match value {
        Value::Null => Some(EnvText::NotUnicode),
        Value::String(text) => Some(EnvText::Text(Text::from_string(text))),
        _ => None,
    }
}

/// A text, or null for a value that is not Unicode.
pub(crate) struct VariableText;

impl Form for VariableText {
    ghost use Rattle.cfg_types.specs.declared.environment.EnvText.{EnvText};
    ghost use Rattle.cfg_script.specs.Sections.{env_text};

    type Read = EnvText;

    ghost Plain = { EnvText };

    ghost seen = { λ t. t };

    ghost form = { env_text };

    fn read(alloc: Global, value: Value) -> Result<EnvText, FormError> {
        wanting(alloc, Wanted::TextOrNull, read_env_text(value))
    }
}

/// A variable's name and what it is set to.
pub(crate) struct Variable;

impl Form for Variable {
    ghost use Rattle.std.specs.Prelude.{List, ℕ};
    ghost use Rattle.cfg_base.specs.TextMap.{named};
    ghost use Rattle.cfg_types.specs.declared.environment.EnvText.{EnvText};
    ghost use Rattle.cfg_script.specs.Sections.{variable};

    type Read = (String, EnvText);

    ghost Plain = { List ℕ × EnvText };

    ghost seen = { named };

    ghost form = { variable };

    fn read(alloc: Global, value: Value) -> Result<(String, EnvText), FormError> {
        read_pair::<KeyText, VariableText>(alloc, Wanted::Variable, value)
    }
}

/// A key and its value.
pub(crate) struct Property;

impl Form for Property {
    ghost use Rattle.cfg_script.specs.Script.{Property, property_bytes};
    ghost use Rattle.cfg_script.specs.Sections.{property_form};

    type Read = (String, String);

    ghost Plain = { Property };

    ghost seen = { property_bytes };

    ghost form = { property_form };

    fn read(alloc: Global, value: Value) -> Result<(String, String), FormError> {
        read_pair::<KeyText, KeyText>(alloc, Wanted::Property, value)
    }
}

/// A section's name and its properties.
pub(crate) struct Section;

impl Form for Section {
    ghost use Rattle.cfg_script.specs.Script.{Section, section_bytes};
    ghost use Rattle.cfg_script.specs.Sections.{section};

    type Read = (String, Vec<(String, String)>);

    ghost Plain = { Section };

    ghost seen = { section_bytes };

    ghost form = { section };

    fn read(alloc: Global, value: Value) -> Result<(String, Vec<(String, String)>), FormError> {
        read_pair::<KeyText, Items<Property>>(alloc, Wanted::Section, value)
    }
}
