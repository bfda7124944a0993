//! What calls of the default chain over an endpoint give.
ghost use Rattle.std.specs.Prelude.{◌≡◌, IfOk, All, ◌≤ℤ◌, pos};
ghost use Rattle.cfg_kept.specs.KeptStates.{kept_key};
ghost use Rattle.cfg_chain.specs.profile.Plans.{key_of};

use crate::setup::{at, endpoint};
use cfg_chain::{DefaultCredentialsChain, RegionSource};
use cfg_endpoint::{EndpointDevices, EndpointFault};
use cfg_kept::Kept;
use cfg_profile::ProviderConfig;
use cfg_types::{Credentials, CredentialsError, Env, EnvText, Instant, OutOfMemory, Seq, Text};
use cfg_world::{Entry, Question, Request, World};
use std::alloc::{AllocError, Global};
use std::test::Fail;

fn entry_word(entry: &Entry) -> &'static str {
    match entry.question() {
        Question::Now => "now",
        Question::Jitter => "jitter",
        Question::Send(request) => match request.get() {
            Request::Http(_) => "http",
            Request::MetadataToken(_) => "imds-token",
            Request::MetadataGet(_) => "imds-get",
            _ => "another request",
        },
        _ => "another question",
    }
}

fn call_words(
    alloc: Global,
    answer: &Result<Credentials, CredentialsError>,
    journal: &[Entry],
) -> Result<String, AllocError> {
    let mut words = match answer {
        Ok(keys) => {
            let end = keys.expiry().map_or(0, |end| end.seconds());
            let (secret, token) = (keys.secret_access_key(), keys.session_token());
            format!(in alloc;
                "{} {secret} {token:?} {} {end}:",
                keys.access_key_id(),
                keys.provider_name()
            )?
        }
        Err(error) => format!(in alloc; "{error:?}:")?,
    };
    for entry in journal {
        words.push_str(" ")?;
        words.push_str(entry_word(entry))?;
    }
    Ok(words)
}

// One call more, in words; the journal of the call before it is gone.
fn call(
    alloc: Global,
    chain: &DefaultCredentialsChain,
    kept: &mut Kept,
    world: &mut World<EndpointDevices>,
) -> Result<String, AllocError>
    requires { kept_key kept.old ≡ key_of chain.now.core }
    ensures { kept_key kept.new ≡ kept_key kept.old }
{
    world.clear_journal();
    let answer = chain.provide_credentials(kept, world);
    call_words(alloc, &answer, world.journal())
}

fn chain(
    alloc: Global,
    variables: Vec<(String, EnvText)>,
    world: &mut World<EndpointDevices>,
) -> Result<DefaultCredentialsChain, OutOfMemory> {
    let env = Env::new(alloc, variables)?;
    let config = ProviderConfig::without_region(alloc)?.with_env(env);
    let mut builder = DefaultCredentialsChain::builder(alloc)?.configure(config);
    builder.set_region(Some(RegionSource::Fixed(None)));
    builder.build(world)
}

fn container_variables(alloc: Global) -> Result<Vec<(String, EnvText)>, OutOfMemory> {
    let name = String::from_str(alloc, "AWS_CONTAINER_CREDENTIALS_FULL_URI")?;
    let value = EnvText::Text(Text::of(alloc, "http://127.0.0.1/c")?);
    let mut variables = Vec::new(alloc);
    variables.push((name, value))?;
    Ok(variables)
}

// Devices over an endpoint that serves credentials which end then, with a clock that stands at a moment.
fn devices(alloc: Global, expires: Instant, now: u64) -> Result<EndpointDevices, EndpointFault> {
    let endpoint = endpoint(alloc, "r", expires)?;
    let clock = clock_at(alloc, now)?;
    Ok(EndpointDevices::new(alloc, endpoint, clock))
}

fn clock_at(alloc: Global, now: u64) -> Result<Seq<Instant>, OutOfMemory>
    ensures { IfOk result (λ clock. All (λ m. pos 0 ≤ℤ m.seconds) clock) }
{
    let mut clock = Seq::of(Vec::new(alloc));
    clock.push(Instant::epoch().plus(now))?;
    Ok(clock)
}

// Two calls, and after the first of them the tokens are forgotten or not; each in words.
fn two_calls(
    alloc: Global,
    variables: Vec<(String, EnvText)>,
    devices: EndpointDevices,
    forgets: bool,
) -> Result<String, OutOfMemory> {
    let mut world = World::new(alloc, devices);
    let chain = chain(alloc, variables, &mut world)?;
    let mut kept = chain.new_kept()?;
    let mut words = call(alloc, &chain, &mut kept, &mut world)?;
    let mut devices = world.into_devices();
    if forgets {
        devices.forget();
    }
    let mut world = World::new(alloc, devices);
    let again = call(alloc, &chain, &mut kept, &mut world)?;
    words.push_str("; ")?;
    words.push_str(again.as_str())?;
    Ok(words)
}

// The end of the credentials and the clock, in seconds; whether tokens are forgotten; and both calls.
const CALLS: &[(i64, u64, bool, &str)] = &[
    (
        5000,
        0,
        false,
        "I S Some(\"T\") IMDSv2 5000: now imds-token now imds-get now imds-get now; I S Some(\"T\") IMDSv2 5000: now imds-get now imds-get now",
    ),
    (
        5000,
        0,
        true,
        "I S Some(\"T\") IMDSv2 5000: now imds-token now imds-get now imds-get now; I S Some(\"T\") IMDSv2 5000: now imds-get imds-get imds-get imds-get",
    ),
    (
        5001,
        5000,
        false,
        "I S Some(\"T\") IMDSv2 5001: now imds-token now imds-get now imds-get now; I S Some(\"T\") IMDSv2 5001: now imds-get now imds-get now",
    ),
    (
        5000,
        5000,
        false,
        "I S Some(\"T\") IMDSv2 5600: now imds-token now imds-get now imds-get now jitter; I S Some(\"T\") IMDSv2 5600: now imds-get now imds-get now jitter",
    ),
    (
        4999,
        5000,
        false,
        "I S Some(\"T\") IMDSv2 5600: now imds-token now imds-get now imds-get now jitter; I S Some(\"T\") IMDSv2 5600: now imds-get now imds-get now jitter",
    ),
    (
        -1,
        0,
        false,
        "I S Some(\"T\") IMDSv2 600: now imds-token now imds-get now imds-get now jitter; I S Some(\"T\") IMDSv2 600: now imds-get now imds-get now jitter",
    ),
];

#[test]
fn metadata_gives_what_is_served(rt: HostRuntime) -> Result<(), Fail> {
    for (expires, now, forgets, words) in CALLS {
        let devices = devices(rt.alloc(), at(*expires), *now)?;
        let given = two_calls(rt.alloc(), Vec::new(rt.alloc()), devices, *forgets)?;
        assert_eq!(rt; given.as_str(), *words);
    }
    Ok(())
}

#[test]
fn a_container_gives_what_is_served(rt: HostRuntime) -> Result<(), Fail> {
    let devices = devices(rt.alloc(), at(5000), 0)?;
    let variables = container_variables(rt.alloc())?;
    let given = two_calls(rt.alloc(), variables, devices, true)?;
    assert_eq!(rt;
        given.as_str(),
        "I S Some(\"T\") EcsContainer 5000: http; I S Some(\"T\") EcsContainer 5000: http"
    );
    Ok(())
}
