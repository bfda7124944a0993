//! What a client answers, how much it asks, and which token it leaves, by scripts.
ghost use Rattle.cfg_world.specs.Script.{AllFit};
ghost use Rattle.cfg_script.specs.Script.{plain};
ghost use Rattle.cfg_script.specs.Devices.{lists_of};

use cfg_imds::steps::follow_region;
use cfg_imds::{Client, ImdsTokenState};
use cfg_profile::ProviderConfig;
use cfg_script::{Script, ScriptError, read_script};
use cfg_types::{Env, OutOfMemory};
use cfg_world::{DeviceLists, Devices, FaultDevices, ScriptDevices, World};
use std::alloc::Global;
use std::test::Fail;

/// What a get of this path answers, how many questions it puts, and the token that it leaves.
pub(crate) fn get_words<D: Devices>(
    alloc: Global,
    client: &Client,
    world: &mut World<D>,
    path: &str,
) -> Result<String, OutOfMemory> {
    let mut state = ImdsTokenState::new();
    let got = client.get(&mut state, world, path);
    let asked = world.journal().len();
    let kept = state.kept();
    Ok(format!(in alloc; "{got:?} {asked} {kept:?}")?)
}

// The token that a get of this path leaves, spread over lines.
fn spread_words(
    alloc: Global,
    client: &Client,
    world: &mut World<ScriptDevices>,
    path: &str,
) -> Result<String, OutOfMemory> {
    let mut state = ImdsTokenState::new();
    let got = client.get(&mut state, world, path);
    let kept = state.kept();
    Ok(format!(in alloc; "{} {kept:#?}", got.is_ok())?)
}

// What a session token is settled to, and what stands at a path with it, where the path is usable.
fn settled_words(
    alloc: Global,
    client: &Client,
    world: &mut World<ScriptDevices>,
    path: &str,
) -> Result<String, OutOfMemory> {
    let mut state = ImdsTokenState::new();
    if let Err(error) = client.usable(path) {
        return Ok(format!(in alloc; "{error:?}")?);
    }
    let token = match client.settle(&mut state, world) {
        Ok(token) => token,
        Err(error) => return Ok(format!(in alloc; "{error:?}")?),
    };
    let got = client.fetch(&token, world, path);
    Ok(format!(in alloc; "{token:?} {}", got.is_ok())?)
}

fn region_words(
    alloc: Global,
    client: &Client,
    world: &mut World<ScriptDevices>,
    env: &Env,
) -> Result<String, OutOfMemory> {
    let mut kept = None;
    let region = follow_region(alloc, env, client, &mut kept, world);
    let asked = world.journal().len();
    Ok(format!(in alloc; "{region:?} {asked}")?)
}

/// Devices over these lists.
pub(crate) fn world(alloc: Global, lists: DeviceLists) -> Result<World<ScriptDevices>, OutOfMemory>
    requires { AllFit lists }
{
    Ok(World::new(alloc, ScriptDevices::new(alloc, lists)?))
}

fn called(
    alloc: Global,
    config: &ProviderConfig,
    world: &mut World<ScriptDevices>,
    path: &str,
) -> Result<String, OutOfMemory> {
    let client = Client::configured(alloc, config)?;
    match path {
        "region" => region_words(alloc, &client, world, config.env()),
        "/settled" => settled_words(alloc, &client, world, path),
        "/spread" => spread_words(alloc, &client, world, path),
        _ => get_words(alloc, &client, world, path),
    }
}

fn called_by(alloc: Global, script: Script, path: &str) -> Result<String, OutOfMemory>
    requires { AllFit (lists_of (plain script)) }
{
    let config = ProviderConfig::empty(alloc)?.with_env(Env::new(alloc, script.variables)?);
    let mut world = world(alloc, script.devices)?;
    called(alloc, &config, &mut world, path)
}

const TABLE: &[(&str, &str, &str)] = &[
    (
        "/a?b",
        r#"{"clock":[100],"replies":{"imds-token":[[200,[["X-aws-ec2-metadata-token-ttl-SECONDS","+21600"]],"tok"]],"imds-get":[[500,[],""],[200,[],"role"]]}}"#,
        "Ok(SensitiveString(\"** redacted **\")) 5 Some(MetadataToken { value: \"** redacted **\", expiry: 21700 s 0 ns })",
    ),
    (
        "/a",
        r#"{"replies":{"imds-token":[[200,[["x-aws-ec2-metadata-token-ttl-seconds","9"]],"t"]],"imds-get":[[404,[],"no"]]}}"#,
        "Err(ErrorResponse(ErrorResponse { reply: HttpReply { status: 404, secrets: \"** redacted **\" } })) 4 Some(MetadataToken { value: \"** redacted **\", expiry: 9 s 0 ns })",
    ),
    ("/a", "{}", "Err(FailedToLoadToken(Sent(Dispatch))) 3 None"),
    (
        "*",
        "{}",
        "Err(Unexpected(Path(\"** redacted **\"))) 0 None",
    ),
    (
        "/a",
        r#"{"variables":[["AWS_EC2_METADATA_SERVICE_ENDPOINT","h"]]}"#,
        "Err(Unexpected(Endpoint(InvalidEndpointUri(h)))) 0 None",
    ),
    (
        "/a",
        r#"{"variables":[["AWS_EC2_METADATA_SERVICE_ENDPOINT_MODE","v5"]]}"#,
        "Err(Unexpected(Endpoint(InvalidEndpointMode(Mode(\"v5\"))))) 0 None",
    ),
    (
        "region",
        r#"{"replies":{"imds-token":[[200,[["x-aws-ec2-metadata-token-ttl-seconds","9"]],"t"]],"imds-get":[[200,[],"eu-west-1"]]}}"#,
        "Ok(Some(\"eu-west-1\")) 4",
    ),
    (
        "/settled",
        r#"{"replies":{"imds-token":[[200,[["x-aws-ec2-metadata-token-ttl-seconds","9"]],"t"]],"imds-get":[[200,[],"role"]]}}"#,
        "[116] true",
    ),
    (
        "/spread",
        r#"{"replies":{"imds-token":[[200,[["x-aws-ec2-metadata-token-ttl-seconds","9"]],"t"]],"imds-get":[[200,[],"role"]]}}"#,
        "true Some(\n    MetadataToken { value: \"** redacted **\", expiry: 9 s 0 ns },\n)",
    ),
    (
        "region",
        r#"{"variables":[["AWS_EC2_METADATA_DISABLED","True"]]}"#,
        "Ok(None) 0",
    ),
];

#[test]
fn calls_of_a_client(rt: HostRuntime) -> Result<(), Fail> {
    for (path, script, want) in TABLE {
        let script = read_script(rt.alloc(), script.as_bytes())?;
        let words = called_by(rt.alloc(), script, path)?;
        assert_eq!(rt; words.as_str(), *want, "{path}");
    }
    Ok(())
}

// What a get of a path answers where the call of the devices of this number fails, none for 0, how many questions it
// puts, and the token that it leaves.
fn fault_words(alloc: Global, script: Script, at: u64) -> Result<String, OutOfMemory>
    requires { AllFit (lists_of (plain script)) }
{
    let config = ProviderConfig::empty(alloc)?;
    let client = Client::configured(alloc, &config)?;
    let devices = ScriptDevices::new(alloc, script.devices)?;
    let mut world = World::new(alloc, FaultDevices::new(devices, at));
    let words = get_words(alloc, &client, &mut world, "/a")?;
    let calls = world.into_devices().calls();
    Ok(format!(in alloc; "{calls}: {words}")?)
}

fn fault_words_by(alloc: Global, script: &str, at: u64) -> Result<String, ScriptError> {
    let script = read_script(alloc, script.as_bytes())?;
    Ok(fault_words(alloc, script, at)?)
}

const REFUSED: &str = r#"{"clock":[100],"replies":{"imds-token":[[403,[],""]]}}"#;

const WITHOUT_LIFETIME: &str = r#"{"clock":[100],"replies":{"imds-token":[[200,[],"tok"]]}}"#;

const ASKED_AGAIN: &str =
    r#"{"clock":[100],"replies":{"imds-token":[[200,[["x-aws-ec2-metadata-token-ttl-seconds","9"]],"t"]],"imds-get":[[500,[],""],[200,[],"role"]]}}"#;

// A request for a token that is not sent is its error, and one for the path, which is asked again for a status of the
// server alone, leaves the token.
const FAULTS: &[(&str, u64, &str)] = &[
    (
        REFUSED,
        0,
        "1: Err(FailedToLoadToken(Token(Forbidden))) 3 None",
    ),
    (
        REFUSED,
        1,
        "1: Err(FailedToLoadToken(Sent(Dispatch))) 3 None",
    ),
    (
        WITHOUT_LIFETIME,
        0,
        "1: Err(FailedToLoadToken(Token(NoTtl))) 3 None",
    ),
    (
        WITHOUT_LIFETIME,
        1,
        "1: Err(FailedToLoadToken(Sent(Dispatch))) 3 None",
    ),
    (
        ASKED_AGAIN,
        1,
        "1: Err(FailedToLoadToken(Sent(Dispatch))) 3 None",
    ),
    (
        ASKED_AGAIN,
        2,
        "2: Err(Unexpected(Dispatch)) 4 Some(MetadataToken { value: \"** redacted **\", expiry: 109 s 0 ns })",
    ),
    (
        ASKED_AGAIN,
        3,
        "3: Err(Unexpected(Dispatch)) 5 Some(MetadataToken { value: \"** redacted **\", expiry: 109 s 0 ns })",
    ),
];

#[test]
fn each_request_of_a_client_may_fail(rt: HostRuntime) -> Result<(), Fail> {
    for (script, at, want) in FAULTS {
        let words = fault_words_by(rt.alloc(), script, *at)?;
        assert_eq!(rt; words.as_str(), *want, "{at} {script}");
    }
    Ok(())
}
