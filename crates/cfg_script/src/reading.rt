//! From bytes to a script, or to why they are none.
ghost use Rattle.std.specs.Prelude.{◌≡◌, All, Some, None, Err, IfOk, IsTrue, option_map, length};
ghost use Rattle.serde_json.specs.View.{view, members_view};
ghost use Rattle.cfg_script.specs.Gives.{Reads};
ghost use Rattle.cfg_script.specs.Scalars.{is_call_count};
ghost use Rattle.cfg_script.specs.Reading.{refused_beside, members_said, value_said, json_value, bytes_said, script_of, fault_of, share_of, share_fault_of, audit_of, audit_fault_of, parsed_value, reason_of, plain_or_reason};
ghost use Rattle.cfg_script.specs.Script.{plain, plain_share, plain_audit};
ghost use Rattle.cfg_script.specs.Shares.{is_caller_count};
ghost use Rattle.cfg_script.specs.Devices.{lists_of};
ghost use Rattle.cfg_world.specs.Script.{AllFit};

use crate::audits::WholeAudit;
use crate::callers::WholeShare;
use crate::fault::{FormError, Position, ScriptFault, Wanted, member_fault, wanting};
use crate::json::{member, members_of};
use crate::object::{Object, places_of};
use crate::script::{AuditScript, Script, ScriptError, ShareScript};
use crate::settings::WholeScript;
use cfg_types::{OutOfMemory, Text};
use serde_json::{Map, Value};
use std::alloc::Global;

// The value that the bytes are, or where they are no JSON.
#[tactic(auto, using(crate::proofs::Bytes::value_is, crate::proofs::Bytes::none_is))]
fn parsed(alloc: Global, bytes: &[u8]) -> Result<Result<Value, Position>, OutOfMemory>
    ensures { IfOk result (λ parsed. parsed_value parsed ≡ json_value bytes.now) }
{
    match Value::from_slice(alloc, bytes) {
        Ok(value) => Ok(Ok(value)),
        Err(e) => {
            if e.is_memory() {
                return Err(OutOfMemory);
            }
            let line = e.line();
            let column = e.column();
            Ok(Err(Position { line, column }))
        }
    }
}

// Whether the sections are refused, and a list of sections stands beside that, an empty one too.
fn is_refused_beside(members: &Map<String, Value>) -> bool
    ensures { result ≡ refused_beside (members_view members.now.entries) }
{
    member(members, "refused").is_some()
        && (member(members, "profiles").is_some() || member(members, "sessions").is_some())
}

fn read_members<O: Object>(alloc: Global, members: Map<String, Value>) -> Result<O::Read, FormError>
    ensures { Reads O.seen result (members_said O.object_form (members_view members.entries)) }
{
    let refused_beside = is_refused_beside(&members);
    let places = places_of::<O>(alloc, members)?;
    if refused_beside {
        let name = Text::of(alloc, "refused")?;
        let fault = member_fault(alloc, name, Wanted::RefusedAlone)?;
        return Err(FormError::Fault(fault));
    }
    O::read_places(alloc, places)
}

fn read_value<O: Object>(alloc: Global, value: Value) -> Result<O::Read, FormError>
    ensures { Reads O.seen result (value_said O.object_form (view value)) }
{
    let members = wanting(alloc, Wanted::Object, members_of(value))?;
    read_members::<O>(alloc, members)
}

/// What the bytes say as an object with the members of this form, or why they are none.
#[tactic(auto, unfolding(crate::specs::Reading::bytes_said))]
pub(crate) fn read<O: Object>(
    alloc: Global,
    bytes: &[u8],
) -> Result<Result<O::Read, ScriptFault>, OutOfMemory>
    ensures { IfOk result (λ read. plain_or_reason O.seen read ≡ bytes_said O.object_form bytes.now) }
{
    let value = match parsed(alloc, bytes)? {
        Ok(value) => value,
        Err(position) => return Ok(Err(ScriptFault::NoJson(position))),
    };
    match read_value::<O>(alloc, value) {
        Ok(script) => Ok(Ok(script)),
        Err(FormError::Fault(fault)) => Ok(Err(ScriptFault::Form(fault))),
        Err(FormError::OutOfMemory) => Err(OutOfMemory),
    }
}

/// What the bytes say as a script: JSON (RFC 8259) in UTF-8 (RFC 3629) of at most 127 levels, an object
/// with the members of a script alone. Each list of the devices has answers to its own questions alone.
///
/// # Errors
///
/// - `NoScript`: the bytes are no script. [`find_fault`] tells why.
/// - `OutOfMemory` where memory runs out, in place of any answer.
#[tactic(auto, unfolding(crate::specs::Reading::script_of))]
pub fn read_script(alloc: Global, bytes: &[u8]) -> Result<Script, ScriptError>
    ensures script { IfOk result (λ s. script_of bytes.now ≡ Some (plain s)) }
    ensures fits { IfOk result (λ s. AllFit (lists_of (plain s))) }
    ensures calls { IfOk result (λ s. IsTrue (is_call_count (plain s).calls)) }
    ensures no_script { result ≡ Err ScriptError.NoScript → script_of bytes.now ≡ None }
{
    match read::<WholeScript>(alloc, bytes) {
        Ok(Ok(script)) => Ok(script),
        Ok(Err(_)) => Err(ScriptError::NoScript),
        Err(OutOfMemory) => Err(ScriptError::OutOfMemory),
    }
}

/// Why the bytes are no script, or none where they are one. That they are no JSON comes first. In an
/// object a name that does not belong there, in the order of the names' bytes, comes before the members,
/// which follow in the order of their form. In a script's object `refused` beside sections comes between.
///
/// # Errors
///
/// `OutOfMemory` where memory runs out, in place of any answer.
#[tactic(auto, unfolding(crate::specs::Reading::fault_of))]
pub fn find_fault(alloc: Global, bytes: &[u8]) -> Result<Option<ScriptFault>, OutOfMemory>
    ensures { IfOk result (λ o. option_map reason_of o ≡ fault_of bytes.now) }
{
    match read::<WholeScript>(alloc, bytes)? {
        Ok(_) => Ok(None),
        Err(fault) => Ok(Some(fault)),
    }
}

/// What the bytes say as a script of several callers: as [`read_script`] has it, but that the lists of the devices
/// stand in the member `callers`, once for each of 1 to 16 callers, and not beside it.
///
/// # Errors
///
/// - `NoScript`: the bytes are no such script. [`find_share_fault`] tells why.
/// - `OutOfMemory` where memory runs out, in place of any answer.
#[tactic(auto, unfolding(crate::specs::Reading::share_of))]
pub fn read_share(alloc: Global, bytes: &[u8]) -> Result<ShareScript, ScriptError>
    ensures script { IfOk result (λ s. share_of bytes.now ≡ Some (plain_share s)) }
    ensures fits { IfOk result (λ s. All AllFit s.callers.items) }
    ensures callers { IfOk result (λ s. IsTrue (is_caller_count (length s.callers.items))) }
    ensures no_script { result ≡ Err ScriptError.NoScript → share_of bytes.now ≡ None }
{
    match read::<WholeShare>(alloc, bytes) {
        Ok(Ok(script)) => Ok(script),
        Ok(Err(_)) => Err(ScriptError::NoScript),
        Err(OutOfMemory) => Err(ScriptError::OutOfMemory),
    }
}

/// Why the bytes are no script of several callers, in the order of [`find_fault`], or none where they are one.
///
/// # Errors
///
/// `OutOfMemory` where memory runs out, in place of any answer.
#[tactic(auto, unfolding(crate::specs::Reading::share_fault_of))]
pub fn find_share_fault(alloc: Global, bytes: &[u8]) -> Result<Option<ScriptFault>, OutOfMemory>
    ensures { IfOk result (λ o. option_map reason_of o ≡ share_fault_of bytes.now) }
{
    match read::<WholeShare>(alloc, bytes)? {
        Ok(_) => Ok(None),
        Err(fault) => Ok(Some(fault)),
    }
}

/// What the bytes say as a script of an audit: as [`read_script`] has it, but that in place of `calls` and of the lists
/// of the devices it has the member `journal`, a list of the kinds of questions with an answer to each.
///
/// # Errors
///
/// - `NoScript`: the bytes are no such script. [`find_audit_fault`] tells why.
/// - `OutOfMemory` where memory runs out, in place of any answer.
#[tactic(auto, unfolding(crate::specs::Reading::audit_of))]
pub fn read_audit(alloc: Global, bytes: &[u8]) -> Result<AuditScript, ScriptError>
    ensures script { IfOk result (λ s. audit_of bytes.now ≡ Some (plain_audit s)) }
    ensures no_script { result ≡ Err ScriptError.NoScript → audit_of bytes.now ≡ None }
{
    match read::<WholeAudit>(alloc, bytes) {
        Ok(Ok(script)) => Ok(script),
        Ok(Err(_)) => Err(ScriptError::NoScript),
        Err(OutOfMemory) => Err(ScriptError::OutOfMemory),
    }
}

/// Why the bytes are no script of an audit, in the order of [`find_fault`], or none where they are one.
///
/// # Errors
///
/// `OutOfMemory` where memory runs out, in place of any answer.
#[tactic(auto, unfolding(crate::specs::Reading::audit_fault_of))]
pub fn find_audit_fault(alloc: Global, bytes: &[u8]) -> Result<Option<ScriptFault>, OutOfMemory>
    ensures { IfOk result (λ o. option_map reason_of o ≡ audit_fault_of bytes.now) }
{
    match read::<WholeAudit>(alloc, bytes)? {
        Ok(_) => Ok(None),
        Err(fault) => Ok(Some(fault)),
    }
}
