//! Where the last object of a name stands.
ghost use Rattle.std.specs.Prelude.{◌≡◌};
ghost use Rattle.cfg_login_token.specs.Access.{place_under, last_place as last_place_of};

use cfg_json::{Member, MemberValue};
use cfg_token::lookup::has_name;

// Where the object under a name begins and ends, where the member is one.
fn place_of(member: &Member, name: &str) -> Option<(usize, usize)>
    ensures { result ≡ place_under name.now member.now }
{
    if !has_name(member, name) {
        return None;
    }
    match &member.value {
        MemberValue::Object { from, to } => Some((*from, *to)),
        _ => None,
    }
}

/// Where the last object under a name begins and ends, in bytes from the front of the text, without
/// regard to the case of ASCII letters. Members of another kind change nothing.
pub fn last_place(members: &[Member], name: &str) -> Option<(usize, usize)>
    ensures { result ≡ last_place_of name.now members.now }
{
    let mut found = None;
    for member in members {
        found = place_of(member, name).or(found);
    }
    found
}
