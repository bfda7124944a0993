//! Sections of a shared state, one after another: what they answer, ask and find, and what is left of the state.
ghost use Rattle.std.specs.Prelude.{◌≡◌, true, IfOk};
ghost use Rattle.cfg_script.specs.Devices.{lists_of};
ghost use Rattle.cfg_script.specs.Script.{plain};
ghost use Rattle.cfg_token.specs.SsoTokens.{is_sso};
ghost use Rattle.cfg_world.specs.Script.{AllFit};

use crate::sections::settings;
use crate::token::sections::state;
use cfg_script::{Script, ScriptError, read_script};
use cfg_token::{CachedSsoToken, SharedAnswer, SharedTokenState};
use cfg_types::{Env, OutOfMemory};
use cfg_world::{ScriptDevices, World};
use std::alloc::Global;
use std::sync::Wait;
use std::test::Fail;
use std::thread::{Threads, join};

// What a section answers, how much was asked so far, whether it found a token, and the attempt that it found.
fn section_words<R: Wait>(
    rt: &R,
    alloc: Global,
    shared: &SharedTokenState<CachedSsoToken>,
    env: &Env,
    world: &mut World<ScriptDevices>,
) -> Result<String, OutOfMemory>
    requires { is_sso shared.now.key ≡ true }
{
    let SharedAnswer {
        outcome,
        kept,
        last,
    } = shared.section(rt, env, &settings(), world);
    let asked = world.journal().len();
    let found = kept.is_some();
    Ok(format!(in alloc; "{outcome:?} {asked} {found} {last:?}\n")?)
}

fn three_sections<R: Wait>(
    rt: &R,
    alloc: Global,
    env: &Env,
    world: &mut World<ScriptDevices>,
) -> Result<String, OutOfMemory> {
    let shared = SharedTokenState::new(state(alloc)?);
    let first = section_words(rt, alloc, &shared, env, world)?;
    let second = section_words(rt, alloc, &shared, env, world)?;
    shared.trim(rt);
    let third = section_words(rt, alloc, &shared, env, world)?;
    let state = shared.into_state();
    let key = state.key();
    let records = state.records().len();
    let kept = state.kept().is_some();
    Ok(format!(in alloc; "{first}{second}{third}{key:?} {records} {kept}")?)
}

fn sections_by<R: Wait>(rt: &R, alloc: Global, script: Script) -> Result<String, OutOfMemory>
    requires { AllFit (lists_of (plain script)) }
{
    let env = Env::new(alloc, script.variables)?;
    let mut world = World::new(alloc, ScriptDevices::new(alloc, script.devices)?);
    three_sections(rt, alloc, &env, &mut world)
}

fn sections_of<R: Wait>(rt: &R, alloc: Global, script: &str) -> Result<String, ScriptError> {
    let script = read_script(alloc, script.as_bytes())?;
    Ok(sections_by(rt, alloc, script)?)
}

const SCRIPTS: &[(&str, &str)] = &[
    // A load, a published token, and a load that finds the token used up.
    (
        r#"{"variables":[["HOME","/home/u"]],"clock":[0,0,3299,3300],"files":[["/home/u/.aws/sso/cache/a9993e364706816aba3e25717850c26c9cd0d89d.json","{\"accessToken\":\"t\",\"expiresAt\":\"1970-01-01T01:00:00Z\"}"]]}"#,
        "Ok(CachedSsoToken { secrets: \"** redacted **\", expires_at: 3600 s 0 ns }) 3 false None\nOk(CachedSsoToken { secrets: \"** redacted **\", expires_at: 3600 s 0 ns }) 4 true None\nOk(CachedSsoToken { secrets: \"** redacted **\", expires_at: 3600 s 0 ns }) 7 true None\nSso { session: \"abc\", region: \"us-east-1\", start_url: \"u\" } 1 true",
    ),
    // A granted refresh: whoever is handed the published token is told of the attempt.
    (
        r#"{"variables":[["HOME","/home/u"]],"clock":[700,700,701,702],"files":[["/home/u/.aws/sso/cache/a9993e364706816aba3e25717850c26c9cd0d89d.json","{\"accessToken\":\"t\",\"expiresAt\":\"1970-01-01T00:15:00Z\",\"clientId\":\"i\",\"clientSecret\":\"s\",\"refreshToken\":\"r\",\"registrationExpiresAt\":\"1970-01-02T00:00:00Z\"}"]],"replies":{"create-token":[{"access":"t2","refresh":"r2","expires_in":3600}]}}"#,
        "Ok(CachedSsoToken { secrets: \"** redacted **\", expires_at: 4300 s 0 ns }) 5 false None\nOk(CachedSsoToken { secrets: \"** redacted **\", expires_at: 4300 s 0 ns }) 6 true Some(Instant { seconds: 700, nanos: 0 })\nOk(CachedSsoToken { secrets: \"** redacted **\", expires_at: 4300 s 0 ns }) 7 true Some(Instant { seconds: 700, nanos: 0 })\nSso { session: \"abc\", region: \"us-east-1\", start_url: \"u\" } 0 true",
    ),
    // Loads that fail, a refused refresh among them, leave no token and the last attempt.
    (
        r#"{"variables":[["HOME","/home/u"]],"clock":[1000,1000,1029],"files":[["/home/u/.aws/sso/cache/a9993e364706816aba3e25717850c26c9cd0d89d.json","{\"accessToken\":\"t\",\"expiresAt\":\"1970-01-01T00:15:00Z\",\"clientId\":\"i\",\"clientSecret\":\"s\",\"refreshToken\":\"r\",\"registrationExpiresAt\":\"1970-01-02T00:00:00Z\"}"]],"replies":{"create-token":[{"refused":"Other","message":"m"}]}}"#,
        "Err(ExpiredToken) 4 false None\nErr(ExpiredToken) 7 false Some(Instant { seconds: 1000, nanos: 0 })\nErr(ExpiredToken) 10 false Some(Instant { seconds: 1000, nanos: 0 })\nSso { session: \"abc\", region: \"us-east-1\", start_url: \"u\" } 1 false",
    ),
];

#[test]
fn sections_of_a_shared_state(rt: HostRuntime) -> Result<(), Fail> {
    for (script, want) in SCRIPTS {
        let words = sections_of(&rt, rt.alloc(), script)?;
        assert_eq!(rt; words.as_str(), *want);
    }
    Ok(())
}

// How much a caller asked for its section.
fn asked_by<R: Wait>(
    rt: &R,
    shared: &SharedTokenState<CachedSsoToken>,
    env: &Env,
    mut world: World<ScriptDevices>,
) -> usize
    requires { is_sso shared.now.key ≡ true }
{
    let _answer = shared.section(rt, env, &settings(), &mut world);
    world.journal().len()
}

// Two callers, each on a thread of its own: how much each asked.
fn callers<R: Threads + Wait + Sync>(
    rt: &R,
    shared: &SharedTokenState<CachedSsoToken>,
    env: &Env,
    one: World<ScriptDevices>,
    other: World<ScriptDevices>,
) -> (usize, usize)
    requires { is_sso shared.now.key ≡ true }
{
    join(
        rt,
        || -> usize
            requires { is_sso shared.now.key ≡ true }
        { asked_by(rt, shared, env, one) },
        || -> usize
            requires { is_sso shared.now.key ≡ true }
        { asked_by(rt, shared, env, other) },
    )
}

// How much two callers asked, the less first, and the records of their loads.
fn callers_by<R: Threads + Wait + Sync>(
    rt: &R,
    alloc: Global,
    one: Script,
    other: Script,
) -> Result<String, OutOfMemory>
    requires one { AllFit (lists_of (plain one)) }
    requires other { AllFit (lists_of (plain other)) }
{
    let env = Env::new(alloc, one.variables)?;
    let one = World::new(alloc, ScriptDevices::new(alloc, one.devices)?);
    let other = World::new(alloc, ScriptDevices::new(alloc, other.devices)?);
    let shared = SharedTokenState::new(state(alloc)?);
    let (first, second) = callers(rt, &shared, &env, one, other);
    let (less, more) = if first < second {
        (first, second)
    } else {
        (second, first)
    };
    let records = shared.into_state().records().len();
    Ok(format!(in alloc; "{less} {more} {records}")?)
}

fn callers_of<R: Threads + Wait + Sync>(
    rt: &R,
    alloc: Global,
    script: &str,
) -> Result<String, ScriptError> {
    let one = read_script(alloc, script.as_bytes())?;
    let other = read_script(alloc, script.as_bytes())?;
    Ok(callers_by(rt, alloc, one, other)?)
}

// Whoever comes first loads the token, and the other is handed it.
#[test]
fn callers_share_a_state(rt: HostRuntime) -> Result<(), Fail> {
    let (script, _) = SCRIPTS[0];
    let words = callers_of(&rt, rt.alloc(), script)?;
    assert_eq!(rt; words.as_str(), "1 3 1");
    Ok(())
}
