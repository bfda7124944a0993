//! The last text of a name among the members of an object.
ghost use Rattle.std.specs.Prelude.{◌≡◌, IfOk, option_map};
ghost use Rattle.cfg_token.specs.SsoFile.{is_named, text_under_name, last_text as last_text_of, text_of};

use cfg_json::{JsonText, Member, MemberValue};
use cfg_types::{Field, OutOfMemory, Text};
use std::alloc::Global;

/// Whether the member has this name, without regard to the case of ASCII letters.
pub fn has_name(member: &Member, name: &str) -> bool
    ensures { result ≡ is_named name.now member.now.key }
{
    member.key.as_str().eq_ignore_ascii_case(name)
}

fn text_under<'a, 't>(member: &'a Member<'t>, name: &str) -> Option<&'a JsonText<'t>>
    ensures { option_map (λ t. t.now) result ≡ text_under_name name.now member.now }
{
    if !has_name(member, name) {
        return None;
    }
    match &member.value {
        MemberValue::Text(text) => Some(text),
        _ => None,
    }
}

// The last text under a name.
fn last_text<'a, 't>(members: &'a [Member<'t>], name: &str) -> Option<&'a JsonText<'t>>
    ensures { option_map (λ t. t.now) result ≡ last_text_of name.now members.now }
{
    let mut found = None;
    for member in members {
        found = text_under(member, name).or(found);
    }
    found
}

/// The last text of a field, without regard to the case of ASCII letters. Members of another kind
/// change nothing.
pub fn find_text<'a, 't>(members: &'a [Member<'t>], field: Field) -> Option<&'a JsonText<'t>>
    ensures { option_map (λ t. t.now) result ≡ text_of members.now field }
{
    last_text(members, field.as_str())
}

/// A copy of that text, or none where there is none. `OutOfMemory` where memory runs out.
pub fn copy_text(
    alloc: Global,
    members: &[Member],
    field: Field,
) -> Result<Option<Text>, OutOfMemory>
    ensures { IfOk result (λ o. o ≡ text_of members.now field) }
{
    match find_text(members, field) {
        Some(text) => {
            let text = text.copy(alloc)?;
            Ok(Some(text))
        }
        None => Ok(None),
    }
}
