//! Texts, booleans, whole numbers and contents.
ghost use Rattle.std.specs.Prelude.{◌≡◌, IfOk};
ghost use Rattle.serde_json.specs.View.{view};
ghost use Rattle.hex.specs.Hex.{decode_of};
ghost use Rattle.http_header.specs.FieldName.{is_field_name};
ghost use Rattle.std.specs.Result.{result_ok};
ghost use Rattle.cfg_script.specs.Scalars.{header_name_of, hex_bytes_of, command_status_of, http_status_of, call_count_of};

use crate::fault::{FormError, Wanted, wanting};
use crate::form::Form;
use crate::json::{text_of, text_or_other};
use crate::member_names::Hex;
use crate::members::Required;
use crate::object::read_object;
use cfg_types::{Bytes, OutOfMemory, Text};
use http_header::{HeaderName, HeaderNameError};
use serde_json::Value;
use std::alloc::Global;

/// A text, for a name or a key.
pub(crate) struct KeyText;

impl Form for KeyText {
    ghost use Rattle.std.specs.Prelude.{List, ℕ, string_bytes};
    ghost use Rattle.cfg_script.specs.Scalars.{text};

    type Read = String;

    ghost Plain = { List ℕ };

    ghost seen = { λ t. string_bytes t };

    ghost form = { text };

    fn read(alloc: Global, value: Value) -> Result<String, FormError> {
        wanting(alloc, Wanted::Text, text_of(value))
    }
}

/// A text as a value.
pub(crate) struct ValueText;

impl Form for ValueText {
    ghost use Rattle.std.specs.Prelude.{List, ℕ};
    ghost use Rattle.cfg_script.specs.Scalars.{characters_of};

    type Read = Text;

    ghost Plain = { List ℕ };

    ghost seen = { λ t. t };

    ghost form = { characters_of };

    fn read(alloc: Global, value: Value) -> Result<Text, FormError> {
        let text = wanting(alloc, Wanted::Text, text_of(value))?;
        Ok(Text::from_string(text))
    }
}

/// True or false.
pub(crate) struct Boolean;

impl Form for Boolean {
    ghost use Rattle.std.specs.Prelude.{Bool};
    ghost use Rattle.cfg_script.specs.Scalars.{boolean};

    type Read = bool;

    ghost Plain = { Bool };

    ghost seen = { λ b. b };

    ghost form = { boolean };

    fn read(alloc: Global, value: Value) -> Result<bool, FormError> {
        wanting(alloc, Wanted::Boolean, value.as_bool())
    }
}

/// A whole number of 64 bits with sign.
pub(crate) struct SignedInteger;

impl Form for SignedInteger {
    ghost use Rattle.std.specs.Prelude.{ℤ};
    ghost use Rattle.cfg_script.specs.Scalars.{signed_integer};

    type Read = i64;

    ghost Plain = { ℤ };

    ghost seen = { λ z. z };

    ghost form = { signed_integer };

    fn read(alloc: Global, value: Value) -> Result<i64, FormError> {
        wanting(alloc, Wanted::SignedInteger, value.as_i64())
    }
}

/// A whole number of 64 bits without sign.
pub(crate) struct UnsignedInteger;

impl Form for UnsignedInteger {
    ghost use Rattle.std.specs.Prelude.{ℕ};
    ghost use Rattle.cfg_script.specs.Scalars.{unsigned_integer};

    type Read = u64;

    ghost Plain = { ℕ };

    ghost seen = { λ n. n };

    ghost form = { unsigned_integer };

    fn read(alloc: Global, value: Value) -> Result<u64, FormError> {
        wanting(alloc, Wanted::UnsignedInteger, value.as_u64())
    }
}

#[tactic(auto, unfolding(crate::specs::Scalars::call_count_of))]
fn read_call_count(value: &Value) -> Option<u64>
    ensures { result ≡ call_count_of (view value.now) }
{
    let count = value.as_u64()?;
    if 1 <= count && count <= 100 {
        Some(count)
    } else {
        None
    }
}

/// How many calls are made.
pub(crate) struct CallCount;

impl Form for CallCount {
    ghost use Rattle.std.specs.Prelude.{ℕ};
    ghost use Rattle.cfg_script.specs.Scalars.{call_count};

    type Read = u64;

    ghost Plain = { ℕ };

    ghost seen = { λ n. n };

    ghost form = { call_count };

    fn read(alloc: Global, value: Value) -> Result<u64, FormError> {
        wanting(alloc, Wanted::Calls, read_call_count(&value))
    }
}

/// The number of a call.
pub(crate) struct CallNumber;

impl Form for CallNumber {
    ghost use Rattle.std.specs.Prelude.{ℕ};
    ghost use Rattle.cfg_script.specs.Scalars.{call_number};

    type Read = u64;

    ghost Plain = { ℕ };

    ghost seen = { λ n. n };

    ghost form = { call_number };

    fn read(alloc: Global, value: Value) -> Result<u64, FormError> {
        wanting(alloc, Wanted::CallNumber, read_call_count(&value))
    }
}

#[tactic(auto, unfolding(crate::specs::Scalars::command_status_of))]
fn read_command_status(value: &Value) -> Option<i32>
    ensures { result ≡ command_status_of (view value.now) }
{
    let status = value.as_i64()?;
    if status < -2_147_483_648 || 2_147_483_647 < status {
        return None;
    }
    Some(status as i32)
}

/// The status of a command.
pub(crate) struct CommandStatus;

impl Form for CommandStatus {
    ghost use Rattle.std.specs.Prelude.{ℤ};
    ghost use Rattle.cfg_script.specs.Scalars.{command_status};

    type Read = i32;

    ghost Plain = { ℤ };

    ghost seen = { λ z. z };

    ghost form = { command_status };

    fn read(alloc: Global, value: Value) -> Result<i32, FormError> {
        wanting(alloc, Wanted::CommandStatus, read_command_status(&value))
    }
}

#[tactic(auto, unfolding(crate::specs::Scalars::http_status_of))]
fn read_http_status(value: &Value) -> Option<u16>
    ensures { result ≡ http_status_of (view value.now) }
{
    let status = value.as_u64()?;
    if status < 100 || 599 < status {
        return None;
    }
    Some(status as u16)
}

/// The status of a reply of HTTP.
pub(crate) struct HttpStatus;

impl Form for HttpStatus {
    ghost use Rattle.std.specs.Prelude.{ℕ};
    ghost use Rattle.cfg_script.specs.Scalars.{http_status};

    type Read = u16;

    ghost Plain = { ℕ };

    ghost seen = { λ n. n };

    ghost form = { http_status };

    fn read(alloc: Global, value: Value) -> Result<u16, FormError> {
        wanting(alloc, Wanted::HttpStatus, read_http_status(&value))
    }
}

fn is_header_name(alloc: Global, name: &str) -> Result<bool, OutOfMemory>
    ensures { IfOk result (λ b. b ≡ is_field_name name.now) }
{
    match HeaderName::from_bytes(alloc, name.as_bytes()) {
        Ok(_) => Ok(true),
        Err(HeaderNameError::Invalid) => Ok(false),
        Err(HeaderNameError::OutOfMemory) => Err(OutOfMemory),
    }
}

#[tactic(auto, unfolding(crate::specs::Scalars::header_name_of))]
fn read_header_name(alloc: Global, value: Value) -> Result<Option<Text>, OutOfMemory>
    ensures { IfOk result (λ o. o ≡ header_name_of (view value)) }
{
    let Some(name) = text_of(value) else {
        return Ok(None);
    };
    if is_header_name(alloc, name.as_str())? {
        Ok(Some(Text::from_string(name)))
    } else {
        Ok(None)
    }
}

/// The name of a header, as it stands.
pub(crate) struct HeaderNameText;

impl Form for HeaderNameText {
    ghost use Rattle.std.specs.Prelude.{List, ℕ};
    ghost use Rattle.cfg_script.specs.Scalars.{header_name};

    type Read = Text;

    ghost Plain = { List ℕ };

    ghost seen = { λ t. t };

    ghost form = { header_name };

    fn read(alloc: Global, value: Value) -> Result<Text, FormError> {
        wanting(alloc, Wanted::HeaderName, read_header_name(alloc, value)?)
    }
}

fn decoded(alloc: Global, digits: &str) -> Result<Option<Bytes>, OutOfMemory>
    ensures { IfOk result (λ o. o ≡ result_ok (decode_of digits.now)) }
{
    match hex::decode(alloc, digits.as_bytes()) {
        Ok(bytes) => Ok(Some(Bytes::from_vec(bytes))),
        Err(hex::FromHexError::OutOfMemory) => Err(OutOfMemory),
        Err(_) => Ok(None),
    }
}

#[tactic(auto, unfolding(crate::specs::Scalars::hex_bytes_of))]
fn read_hex(alloc: Global, value: Value) -> Result<Option<Bytes>, OutOfMemory>
    ensures { IfOk result (λ o. o ≡ hex_bytes_of (view value)) }
{
    let Some(digits) = text_of(value) else {
        return Ok(None);
    };
    decoded(alloc, digits.as_str())
}

/// Bytes by their hexadecimal digits.
pub(crate) struct HexBytes;

impl Form for HexBytes {
    ghost use Rattle.std.specs.Prelude.{List, ℕ};
    ghost use Rattle.cfg_script.specs.Scalars.{hex_bytes};

    type Read = Bytes;

    ghost Plain = { List ℕ };

    ghost seen = { λ b. b };

    ghost form = { hex_bytes };

    fn read(alloc: Global, value: Value) -> Result<Bytes, FormError> {
        wanting(alloc, Wanted::HexDigits, read_hex(alloc, value)?)
    }
}

type ByDigits = (Required<Hex, HexBytes>, ());

/// The content of a file or a body.
pub(crate) struct Content;

impl Form for Content {
    ghost use Rattle.std.specs.Prelude.{List, ℕ};
    ghost use Rattle.cfg_script.specs.Scalars.{content};

    type Read = Bytes;

    ghost Plain = { List ℕ };

    ghost seen = { λ b. b };

    ghost form = { content };

    fn read(alloc: Global, value: Value) -> Result<Bytes, FormError> {
        match text_or_other(value) {
            Ok(text) => Ok(Bytes::from_vec(text.into_bytes())),
            Err(other) => Ok(read_object::<ByDigits>(alloc, Wanted::Content, other)?.0),
        }
    }
}

/// A content, or null.
pub(crate) struct ContentOrNull;

impl Form for ContentOrNull {
    ghost use Rattle.std.specs.Prelude.{Option, List, ℕ};
    ghost use Rattle.cfg_script.specs.Scalars.{content_or_null};

    type Read = Option<Bytes>;

    ghost Plain = { Option (List ℕ) };

    ghost seen = { λ o. o };

    ghost form = { content_or_null };

    fn read(alloc: Global, value: Value) -> Result<Option<Bytes>, FormError> {
        if value.is_null() {
            return Ok(None);
        }
        Ok(Some(Content::read(alloc, value)?))
    }
}
