//! The calls over a local endpoint.
ghost use Rattle.std.specs.Prelude.{◌≡◌, ◌≤ℤ◌, pos, All, Some, IfOk, MatchResult, map, option_map, unwrap_or};
ghost use Rattle.cfg_base.specs.TextMap.{named};
ghost use Rattle.cfg_chain.specs.Views.{chain_of};
ghost use Rattle.cfg_endpoint.specs.Endpoints.{forgotten};
ghost use Rattle.cfg_endpoint.specs.Lending.{started_with};
ghost use Rattle.cfg_endpoint.specs.Made.{IsMade, Makes};
ghost use Rattle.cfg_program.specs.Endpoints.{role_of, served_of, endpoint_at_first, if_made, made_endpoint_of, end_of, variables_for as variables_of, StartsNew, AnswersOverEndpoint, EndpointAnswers};
ghost use Rattle.cfg_program.specs.Run.{EndsOver};

use crate::causes::Below;
use crate::lines::LineForm;
use crate::local::chain_without_sections;
use crate::outcome::Answered;
use crate::resolve::calls;
use crate::status::Status;
use cfg_chain::DefaultCredentialsChain;
use cfg_endpoint::{Endpoint, EndpointDevices, EndpointFault, Served};
use cfg_script::{EndpointMode, EndpointScript, ScriptError, read_endpoint};
use cfg_types::{EnvText, OutOfMemory, Text, TryCopy};
use cfg_world::World;
use std::alloc::Global;

// The variable that names a container's endpoint, and where the endpoint is asked.
const CONTAINER_VARIABLE: &str = "AWS_CONTAINER_CREDENTIALS_FULL_URI";

const CONTAINER_ADDRESS: &str = "http://127.0.0.1/c";

// The role of an endpoint for a container, which is never asked for it.
const CONTAINER_ROLE: &str = "r";

// The lines are those of `resolve`.
const FORM: LineForm = LineForm::Call(Below::Nothing);

/// The object of an endpoint that the bytes are, and the endpoint; or how a run ends over them.
pub fn endpoint_by(alloc: Global, bytes: &[u8]) -> Result<(EndpointScript, Endpoint), Status>
    ensures read { MatchResult result (λ found. made_endpoint_of bytes.now ≡ Some found.0) (EndsOver (made_endpoint_of bytes.now)) }
    ensures clock { IfOk result (λ found. All (λ m. pos 0 ≤ℤ m.seconds) found.0.clock) }
    ensures new { IfOk result (λ found. found.1 ≡ endpoint_at_first found.0) }
    ensures made { IfOk result (λ found. IsMade found.1) }
{
    match read_endpoint(alloc, bytes) {
        Ok(script) => made_by(alloc, script),
        Err(ScriptError::NoScript) => Err(Status::NoScript),
        Err(ScriptError::OutOfMemory) => Err(Status::OutOfMemory),
    }
}

// The object, and the endpoint that it says; or how a run ends over one of which none is made.
fn made_by(alloc: Global, script: EndpointScript) -> Result<(EndpointScript, Endpoint), Status>
    ensures read { MatchResult result (λ found. if_made (Some script) ≡ Some found.0) (EndsOver (if_made (Some script))) }
    ensures script { IfOk result (λ found. found.0 ≡ script) }
    ensures new { IfOk result (λ found. found.1 ≡ endpoint_at_first script) }
    ensures made { IfOk result (λ found. IsMade found.1) }
{
    match endpoint_for(alloc, &script) {
        Ok(endpoint) => Ok((script, endpoint)),
        Err(fault) => Err(ended_by(&fault)),
    }
}

// How a run ends of whose object no endpoint is made.
fn ended_by(fault: &EndpointFault) -> Status
    ensures { result ≡ end_of fault.now }
{
    match fault {
        EndpointFault::BadRole(_) | EndpointFault::BadExpiry(_) => Status::NoScript,
        EndpointFault::OutOfMemory => Status::OutOfMemory,
    }
}

/// The endpoint that the object says, which has given no token.
///
/// # Errors
///
/// - `BadRole`: the role is empty, or a client of the instance metadata service does not ask for its path.
/// - `BadExpiry`: the moment is outside the years 1 to 9999.
/// - `OutOfMemory` where memory runs out.
pub fn endpoint_for(alloc: Global, script: &EndpointScript) -> Result<Endpoint, EndpointFault>
    ensures { Makes (role_of script.now.mode) (served_of script.now) result }
{
    let served = served_by(alloc, script)?;
    match &script.mode {
        EndpointMode::Container => Endpoint::new(alloc, CONTAINER_ROLE, served),
        EndpointMode::Metadata(role) => Endpoint::new(alloc, role.as_str(), served),
    }
}

// What the endpoint serves.
fn served_by(alloc: Global, script: &EndpointScript) -> Result<Served, OutOfMemory>
    ensures { IfOk result (λ s. s ≡ served_of script.now) }
{
    Ok(Served {
        id: script.id.copy(alloc)?,
        secret: script.secret.copy(alloc)?,
        token: script.token.copy(alloc)?,
        expires: script.expires,
    })
}

/// Makes the calls that the object says over its endpoint: of the chain that has nothing but a container's endpoint, or
/// nothing but the instance metadata service. `OutOfMemory` where memory runs out.
pub fn answer_by(
    alloc: Global,
    script: EndpointScript,
    endpoint: Endpoint,
) -> Result<Answered, OutOfMemory>
    requires clock { All (λ m. pos 0 ≤ℤ m.seconds) script.clock }
    requires new { endpoint ≡ endpoint_at_first script }
    requires made { IsMade endpoint }
    ensures { IfOk result (λ a. EndpointAnswers script a.is_ok a.lines.items) }
{
    let EndpointScript {
        mode,
        id: _,
        secret: _,
        token: _,
        expires: _,
        clock,
        calls: count,
        forget_after,
    } = script;
    let before = calls_before(forget_after, count);
    let variables = variables_for(alloc, &mode)?;
    let chain = chain_without_sections(alloc, variables, Vec::new(alloc))?;
    let devices = EndpointDevices::new(alloc, endpoint, clock);
    answer_over(alloc, &chain, devices, count, before)
}

// How many calls are made before the tokens are forgotten: all of them, where nothing is said.
fn calls_before(forget_after: Option<u64>, calls: u64) -> u64
    ensures { result ≡ unwrap_or (option_map (λ n. n) forget_after) calls }
{
    match forget_after {
        Some(number) => number,
        None => calls,
    }
}

// The variable that names a container's endpoint, or none.
fn variables_for(alloc: Global, mode: &EndpointMode) -> Result<Vec<(String, EnvText)>, OutOfMemory>
    ensures { IfOk result (λ v. map named v.items ≡ variables_of mode.now) }
{
    let mut variables = Vec::new(alloc);
    if let EndpointMode::Container = mode {
        let name = String::from_str(alloc, CONTAINER_VARIABLE)?;
        let address = Text::of(alloc, CONTAINER_ADDRESS)?;
        variables.push((name, EnvText::Text(address)))?;
    }
    Ok(variables)
}

// So many calls of the chain over these devices, and their lines. The tokens are forgotten behind the first calls,
// which are so many.
fn answer_over(
    alloc: Global,
    chain: &DefaultCredentialsChain,
    devices: EndpointDevices,
    count: u64,
    before: u64,
) -> Result<Answered, OutOfMemory>
    requires new { StartsNew devices }
    ensures { IfOk result (λ a. AnswersOverEndpoint (chain_of value repeated chain.now) devices.endpoint devices.clock count before a.is_ok a.lines.items) }
{
    let mut world = World::new(alloc, devices);
    let mut kept = chain.new_kept()?;
    let mut lines = Vec::new(alloc);
    if count <= before {
        let is_ok = calls(chain, count, FORM, &mut kept, &mut world, &mut lines)?;
        return Ok(Answered { is_ok, lines });
    }
    calls(chain, before, FORM, &mut kept, &mut world, &mut lines)?;
    let mut world = forget(alloc, world);
    let is_ok = calls(
        chain,
        count - before,
        FORM,
        &mut kept,
        &mut world,
        &mut lines,
    )?;
    Ok(Answered { is_ok, lines })
}

// A new world over the same devices, whose endpoint forgot the tokens that it gave.
fn forget(alloc: Global, world: World<EndpointDevices>) -> World<EndpointDevices>
    ensures devices { result.devices ≡ started_with world.devices (forgotten world.devices.endpoint) }
    ensures made { IsMade result.devices.endpoint }
{
    let mut devices = world.into_devices();
    devices.forget();
    World::new(alloc, devices)
}
