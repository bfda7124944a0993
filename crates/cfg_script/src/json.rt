//! JSON values, taken apart without a copy.
ghost use Rattle.std.specs.Prelude.{◌≡◌, Some, None, option_map, string_bytes, IfOk, IfErr};
ghost use Rattle.serde_json.specs.Find.{as_array, as_object, as_str, get_member};
ghost use Rattle.serde_json.specs.View.{view, items_view, members_view};
ghost use Rattle.cfg_script.specs.Json.{two, three, pair_from, triple_from};

use serde_json::{Map, Value};

/// The text itself, where the value is one.
pub(crate) fn text_of(value: Value) -> Option<String>
    ensures { option_map (λ t. string_bytes t) result ≡ as_str (view value) }
{
    match value {
        Value::String(text) => Some(text),
        _ => None,
    }
}

/// The text itself, or the value where it is none.
pub(crate) fn text_or_other(value: Value) -> Result<String, Value>
    ensures text { IfOk result (λ t. as_str (view value) ≡ Some (string_bytes t)) }
    ensures other { IfErr result (λ v. (v ≡ value) × (as_str (view value) ≡ None)) }
{
    match value {
        Value::String(text) => Ok(text),
        other => Err(other),
    }
}

/// The items of a list.
pub(crate) fn items_of(value: Value) -> Option<Vec<Value>>
    ensures { option_map (λ v. items_view v.items) result ≡ as_array (view value) }
{
    match value {
        Value::Array(items) => Some(items),
        _ => None,
    }
}

/// The members of an object.
pub(crate) fn members_of(value: Value) -> Option<Map<String, Value>>
    ensures { option_map (λ m. members_view m.entries) result ≡ as_object (view value) }
{
    match value {
        Value::Object(members) => Some(members),
        _ => None,
    }
}

fn two_of(mut items: Vec<Value>) -> Option<(Value, Value)>
    ensures { option_map (λ p. (view p.0, view p.1)) result ≡ two (items_view items.items) }
{
    if items.len() != 2 {
        return None;
    }
    let second = items.pop()?;
    let first = items.pop()?;
    Some((first, second))
}

/// Both items of a list of two.
pub(crate) fn two_items(value: Value) -> Option<(Value, Value)>
    ensures { option_map (λ p. (view p.0, view p.1)) result ≡ pair_from (view value) }
{
    two_of(items_of(value)?)
}

fn three_of(mut items: Vec<Value>) -> Option<(Value, Value, Value)>
    ensures { option_map (λ t. (view t.0, view t.1, view t.2)) result ≡ three (items_view items.items) }
{
    if items.len() != 3 {
        return None;
    }
    let third = items.pop()?;
    let second = items.pop()?;
    let first = items.pop()?;
    Some((first, second, third))
}

/// The items of a list of three.
pub(crate) fn three_items(value: Value) -> Option<(Value, Value, Value)>
    ensures { option_map (λ t. (view t.0, view t.1, view t.2)) result ≡ triple_from (view value) }
{
    three_of(items_of(value)?)
}

/// The member of this name, lent.
pub(crate) fn member<'v>(members: &'v Map<String, Value>, name: &str) -> Option<&'v Value>
    ensures { option_map (λ v. view v.now) result ≡ get_member name.now (members_view members.now.entries) }
{
    members.get(name)
}
