//! The object of a local endpoint: what the endpoint serves, and the calls that are made over it.
ghost use Rattle.std.specs.Prelude.{◌≡◌, ◌≤ℤ◌, pos, codes, All, Some, None, Err, IfOk, IfSome, IsTrue, option_map};
ghost use Rattle.serde_json.specs.View.{view};
ghost use Rattle.cfg_script.specs.Endpoints.{mode_named, mode_of, with_role, endpoint_in, endpoint_of, endpoint_fault_of};
ghost use Rattle.cfg_script.specs.Faults.{member_fault as member_fault_of};
ghost use Rattle.cfg_script.specs.Gives.{Reads};
ghost use Rattle.cfg_script.specs.Reading.{reason_of};
ghost use Rattle.cfg_script.specs.Scalars.{is_call_count};

use crate::fault::{FormError, ScriptFault, Wanted, member_fault, wanting};
use crate::form::Form;
use crate::member_names::{Calls, Clock, Expires, ForgetAfter, Id, Mode, Role, Secret, Token};
use crate::members::{ListOf, Optional, Required};
use crate::moments::{ClockMoment, Moment};
use crate::object::Object;
use crate::reading::read;
use crate::scalars::{CallCount, CallNumber, ValueText};
use crate::script::ScriptError;
use crate::settings::call_count;
use cfg_types::{Instant, OutOfMemory, Seq, Text};
use serde_json::Value;
use std::alloc::Global;

/// What an endpoint is for.
#[derive(Drop)]
pub enum EndpointMode {
    /// A container's credentials.
    Container,
    /// The instance metadata service, with this role.
    Metadata(Text),
}

/// What the object of an endpoint says.
#[derive(Drop)]
pub struct EndpointScript {
    /// What the endpoint is for.
    pub mode: EndpointMode,
    /// The access key id that it serves.
    pub id: Text,
    /// The secret access key that it serves.
    pub secret: Text,
    /// The session token that it serves.
    pub token: Text,
    /// When the credentials end that it serves.
    pub expires: Instant,
    /// The readings of the clock, none before the epoch.
    pub clock: Seq<Instant>,
    /// How many calls are made, from 1 to 100.
    pub calls: u64,
    /// The call after which the endpoint forgets the tokens that it gave, counted from 1 up to 100, if it does.
    pub forget_after: Option<u64>,
}

/// The name of a mode.
#[derive(Clone, Copy)]
pub(crate) enum ModeName {
    Container,
    Metadata,
}

fn named(name: &str) -> Option<ModeName>
    ensures { result ≡ mode_named name.now }
{
    match name {
        "container" => Some(ModeName::Container),
        "metadata" => Some(ModeName::Metadata),
        _ => None,
    }
}

#[tactic(auto, unfolding(crate::specs::Endpoints::mode_of))]
fn read_mode(value: &Value) -> Option<ModeName>
    ensures { result ≡ mode_of (view value.now) }
{
    named(value.as_str()?)
}

/// A mode by its name.
pub(crate) struct ModeText;

impl Form for ModeText {
    ghost use Rattle.cfg_script.specs.declared.endpoint.ModeName.{ModeName as Named};
    ghost use Rattle.cfg_script.specs.Endpoints.{mode_name};

    type Read = ModeName;

    ghost Plain = { Named };

    ghost seen = { λ m. m };

    ghost form = { mode_name };

    fn read(alloc: Global, value: Value) -> Result<ModeName, FormError> {
        wanting(alloc, Wanted::Mode, read_mode(&value))
    }
}

type EndpointMembers = (
    Required<Mode, ModeText>,
    (
        Optional<Role, ValueText>,
        (
            Required<Id, ValueText>,
            (
                Required<Secret, ValueText>,
                (
                    Required<Token, ValueText>,
                    (
                        Required<Expires, Moment>,
                        (
                            ListOf<Clock, ClockMoment>,
                            (
                                Optional<Calls, CallCount>,
                                (Optional<ForgetAfter, CallNumber>, ()),
                            ),
                        ),
                    ),
                ),
            ),
        ),
    ),
);

// That something else is wanted of the role.
fn role_fault(alloc: Global, wanted: Wanted) -> Result<EndpointMode, FormError>
    ensures { Reads (λ m. m) result (Err (member_fault_of (codes "role") wanted)) }
{
    let name = Text::of(alloc, "role")?;
    Err(FormError::Fault(member_fault(alloc, name, wanted)?))
}

// The mode, with its role.
fn mode_with(alloc: Global, name: ModeName, role: Option<Text>) -> Result<EndpointMode, FormError>
    ensures { Reads (λ m. m) result (with_role name (option_map (λ t. t) role)) }
{
    match (name, role) {
        (ModeName::Container, None) => Ok(EndpointMode::Container),
        (ModeName::Container, Some(_)) => role_fault(alloc, Wanted::NoRole),
        (ModeName::Metadata, None) => role_fault(alloc, Wanted::Present),
        (ModeName::Metadata, Some(role)) => Ok(EndpointMode::Metadata(role)),
    }
}

// Each member in its place, where the mode has the role that it has to have.
#[tactic(auto, unfolding(crate::specs::Endpoints::endpoint_in))]
fn endpoint_by(
    alloc: Global,
    rows: <EndpointMembers as Object>::Read,
) -> Result<EndpointScript, FormError>
    ensures { Reads (λ s. s) result (endpoint_in (⟦<EndpointMembers as Object>⟧.seen rows)) }
{
    let (name, (role, (id, (secret, (token, (expires, rows)))))) = rows;
    let (clock, (calls, (forget_after, ()))) = rows;
    let mode = mode_with(alloc, name, role)?;
    let calls = call_count(calls);
    Ok(EndpointScript {
        mode,
        id,
        secret,
        token,
        expires,
        clock: Seq::of(clock),
        calls,
        forget_after,
    })
}

/// The object of an endpoint.
pub(crate) struct WholeEndpoint;

impl Object for WholeEndpoint {
    ghost use Rattle.cfg_base.specs.Gives.{◌>>=◌};
    ghost use Rattle.cfg_script.specs.declared.endpoint.EndpointScript.{EndpointScript as Said};
    ghost use Rattle.cfg_script.specs.Endpoints.{endpoint_in, endpoint};

    type Read = EndpointScript;

    type Places = <EndpointMembers as Object>::Places;

    ghost Plain = { Said };

    ghost seen = { λ s. s };

    ghost object_form = { endpoint };

    ghost read_on = { λ places ms. ⟦<EndpointMembers as Object>⟧.read_on places ms >>= λ rows. endpoint_in rows };

    fn empty() -> <EndpointMembers as Object>::Places {
        EndpointMembers::empty()
    }

    fn put(places: &mut <EndpointMembers as Object>::Places, name: &str, value: Value) -> bool {
        EndpointMembers::put(places, name, value)
    }

    fn read_places(
        alloc: Global,
        places: <EndpointMembers as Object>::Places,
    ) -> Result<EndpointScript, FormError> {
        let rows = EndpointMembers::read_places(alloc, places)?;
        endpoint_by(alloc, rows)
    }
}

/// What the bytes say as the object of an endpoint: JSON as [`crate::read_script`] reads it, an object with the
/// members `mode`, `role` where the mode is `metadata`, `id`, `secret`, `token` and `expires`, and it may have
/// `clock`, `calls` and `forget_after`.
///
/// # Errors
///
/// - `NoScript`: the bytes are no such object. [`find_endpoint_fault`] tells why.
/// - `OutOfMemory` where memory runs out, in place of any answer.
#[tactic(auto, unfolding(crate::specs::Endpoints::endpoint_of))]
pub fn read_endpoint(alloc: Global, bytes: &[u8]) -> Result<EndpointScript, ScriptError>
    ensures script { IfOk result (λ s. endpoint_of bytes.now ≡ Some s) }
    ensures clock { IfOk result (λ s. All (λ m. pos 0 ≤ℤ m.seconds) s.clock) }
    ensures calls { IfOk result (λ s. IsTrue (is_call_count s.calls)) }
    ensures forgets { IfOk result (λ s. IfSome s.forget_after (λ n. IsTrue (is_call_count n))) }
    ensures no_script { result ≡ Err ScriptError.NoScript → endpoint_of bytes.now ≡ None }
{
    match read::<WholeEndpoint>(alloc, bytes) {
        Ok(Ok(script)) => Ok(script),
        Ok(Err(_)) => Err(ScriptError::NoScript),
        Err(OutOfMemory) => Err(ScriptError::OutOfMemory),
    }
}

/// Why the bytes are no object of an endpoint, or none where they are one: in the order of [`crate::find_fault`],
/// and last a role that is missing or one too many.
///
/// # Errors
///
/// `OutOfMemory` where memory runs out, in place of any answer.
#[tactic(auto, unfolding(crate::specs::Endpoints::endpoint_fault_of))]
pub fn find_endpoint_fault(alloc: Global, bytes: &[u8]) -> Result<Option<ScriptFault>, OutOfMemory>
    ensures { IfOk result (λ o. option_map reason_of o ≡ endpoint_fault_of bytes.now) }
{
    match read::<WholeEndpoint>(alloc, bytes)? {
        Ok(_) => Ok(None),
        Err(fault) => Ok(Some(fault)),
    }
}
