//! Objects that have the members of their form and no others. Each member is put in its place as the
//! object gives it, in one walk. The members are a pair of one and of those behind it, down to `()`.
ghost use Rattle.std.specs.Prelude.{◌≡◌, ◌⊎◌, Result, Some, None, Err, IfOk, IfErr, bytes_eq, option_map};
ghost use Rattle.serde_json.specs.Data.{Members, no_members, member};
ghost use Rattle.serde_json.specs.View.{view, members_view};
ghost use Rattle.cfg_script.specs.declared.fault.Fault.{Fault};
ghost use Rattle.cfg_script.specs.declared.fault.FormError.TheVariants as error;
ghost use Rattle.cfg_script.specs.Gives.{Reads, carried};
ghost use Rattle.cfg_script.specs.Objects.{ObjectForm, member_said, unknown_name, only, object_of};

use crate::fault::{FormError, Step, Wanted, member_fault, wanting, within};
use crate::json::members_of;
use crate::members::Member;
use cfg_types::Text;
use serde_json::{Map, Value};
use std::alloc::Global;

// Whether the names are the same. Most differ in their lengths.
fn is_same(name: &str, other: &str) -> bool
    ensures { result ≡ bytes_eq name.now other.now }
{
    name.len() == other.len() && name == other
}

/// The members of an object.
pub(crate) trait Object {
    type Read: Drop;

    /// A place for each member.
    type Places: Drop;

    ghost Plain: { Type 0 };

    ghost seen: { Self.Read → Plain };

    ghost object_form: { ObjectForm Plain };

    // What the members in their places and these behind them say.
    ghost read_on: { Self.Places → Members → Result Plain Fault };

    /// Places without members.
    fn empty() -> Self::Places
        ensures { (ms : Members) → read_on result ms ≡ object_form.read ms };

    /// Puts a member in its place, and says whether one of its name belongs to the object.
    fn put(places: &mut Self::Places, name: &str, value: Value) -> bool
        ensures named { result ≡ object_form.has name.now }
        ensures put { (ms : Members) → read_on places.old (member name.now (view value) ms) ≡ read_on places.new ms };

    /// What the members in their places say, or the first fault, in the order of the places.
    fn read_places(alloc: Global, places: Self::Places) -> Result<Self::Read, FormError>
        ensures { Reads seen result (read_on places no_members) };
}

impl Object for () {
    ghost use Rattle.std.specs.Prelude.{Ok};
    ghost use Rattle.cfg_script.specs.Objects.{nothing_more};

    type Read = ();

    type Places = ();

    ghost Plain = { Unit {0} };

    ghost seen = { λ u. tt };

    ghost object_form = { nothing_more };

    ghost read_on = { λ places ms. Ok tt };

    fn empty() {}

    fn put(_: &mut (), _: &str, _: Value) -> bool {
        false
    }

    fn read_places(_: Global, _: ()) -> Result<(), FormError> {
        Ok(())
    }
}

// The member, seen from its object.
fn read_member<M: Member>(alloc: Global, member: Option<Value>) -> Result<M::Read, FormError>
    ensures { Reads M.seen result (member_said M.member_form (option_map view member)) }
{
    match M::read(alloc, member) {
        Ok(read) => Ok(read),
        Err(FormError::Fault(fault)) => {
            let step = Step::Member(Text::of(alloc, M::name())?);
            Err(FormError::Fault(within(step, fault)?))
        }
        Err(FormError::OutOfMemory) => Err(FormError::OutOfMemory),
    }
}

impl<M: Member, O: Object> Object for (M, O) {
    ghost use Rattle.cfg_script.specs.Objects.{◌&◌};
    ghost use Rattle.cfg_script.specs.Places.{with_member};

    type Read = (M::Read, O::Read);

    type Places = (Option<Value>, O::Places);

    ghost Plain = { M.Member.Plain × O.Plain };

    ghost seen = { λ p. (M.Member.seen p.0, O.seen p.1) };

    ghost object_form = { M.Member.member_form & O.object_form };

    ghost read_on = { λ places ms. with_member M.Member.member_form (O.read_on places.1) places.0 ms };

    fn empty() -> (Option<Value>, O::Places) {
        (None, O::empty())
    }

    // A second member of one name is left to the places behind.
    fn put(places: &mut (Option<Value>, O::Places), name: &str, value: Value) -> bool {
        if !is_same(name, M::name()) {
            return O::put(&mut places.1, name, value);
        }
        if places.0.is_none() {
            places.0 = Some(value);
        } else {
            let _ = O::put(&mut places.1, name, value);
        }
        true
    }

    fn read_places(
        alloc: Global,
        places: (Option<Value>, O::Places),
    ) -> Result<(M::Read, O::Read), FormError> {
        let (member, others) = places;
        let first = read_member::<M>(alloc, member)?;
        let others = O::read_places(alloc, others)?;
        Ok((first, others))
    }
}

/// Every member in its place, or the fault of the first name that does not belong to the object.
pub(crate) fn places_of<O: Object>(
    alloc: Global,
    members: Map<String, Value>,
) -> Result<O::Places, FormError>
    ensures known { IfOk result (λ p. unknown_name O.object_form.has (members_view members.entries) ≡ None) }
    ensures placed { IfOk result (λ p. O.read_on p no_members ≡ O.object_form.read (members_view members.entries)) }
    ensures unknown { IfErr result (λ e. (e ≡ error.OutOfMemory) ⊎ (unknown_name O.object_form.has (members_view members.entries) ≡ Some (carried e))) }
{
    let mut places = O::empty();
    let mut entries = members.into_iter();
    // At its end the iterator would look for one leaf more.
    'members: while entries.len() != 0 {
        let Some((name, value)) = entries.next() else {
            unreachable!()
        };
        if !O::put(&mut places, name.as_str(), value) {
            let fault = member_fault(alloc, Text::from_string(name), Wanted::KnownName)?;
            return Err(FormError::Fault(fault));
        }
    }
    Ok(places)
}

fn read_only<O: Object>(alloc: Global, members: Map<String, Value>) -> Result<O::Read, FormError>
    ensures { Reads O.seen result (only O.object_form (members_view members.entries)) }
{
    let places = places_of::<O>(alloc, members)?;
    O::read_places(alloc, places)
}

/// What a value says that has to be such an object, of which this is wanted.
pub(crate) fn read_object<O: Object>(
    alloc: Global,
    wanted: Wanted,
    value: Value,
) -> Result<O::Read, FormError>
    ensures { Reads O.seen result (object_of wanted O.object_form (view value)) }
{
    let members = wanting(alloc, wanted, members_of(value))?;
    read_only::<O>(alloc, members)
}
