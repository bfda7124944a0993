//! Callers on threads of their own.
ghost use Rattle.std.specs.Prelude.{◌≡◌, true};

use crate::gate::sections::{FILE, expiry_words};
use crate::gate::tokens::{read, token};
use crate::sections::settings;
use cfg_gate::{Called, GatedCalls, GatedToken, gated_calls};
use cfg_script::ScriptError;
use cfg_token::FileToken;
use cfg_types::OutOfMemory;
use cfg_world::ScriptDevices;
use std::alloc::Global;
use std::fmt;
use std::sync::Wait;
use std::test::Fail;
use std::thread::Threads;

// What a caller's section gave and asked, and the loads that it found and that the caller had seen then.
fn caller_words<T: FileToken>(
    alloc: Global,
    called: &Called<T, ScriptDevices>,
) -> Result<String, OutOfMemory>
where
    T::Error: fmt::Debug,
{
    let outcome = match &called.answer.outcome {
        Ok(token) => expiry_words(alloc, token)?,
        Err(error) => format!(in alloc; "{error:?}")?,
    };
    let asked = called.world.journal().len();
    let kept = called.answer.kept.is_some();
    let last = called.answer.last.map(|at| at.seconds());
    let found = called.found;
    let seen = called.seen;
    Ok(format!(in alloc;
        "{outcome}, asked {asked}, kept {kept}, last {last:?}, found {found}, seen {seen}"
    )?)
}

fn calls_words<T: FileToken>(
    alloc: Global,
    calls: &GatedCalls<T, ScriptDevices>,
) -> Result<String, OutOfMemory>
where
    T::Error: fmt::Debug,
{
    let mut words = String::new(alloc);
    for called in calls.calls.as_slice() {
        let caller = caller_words(alloc, called)?;
        words.push_str(caller.as_str())?;
        words.push_str("; ")?;
    }
    Ok(format!(in alloc; "{words}loads {}", calls.loads)?)
}

// A section over each of these scripts, whose variables are those of the first.
fn callers<T: FileToken + Send + Sync, R: Threads + Wait + Sync>(
    rt: &R,
    alloc: Global,
    token: GatedToken<T>,
    scripts: &[&str],
) -> Result<String, ScriptError>
where
    T::Error: fmt::Debug + Send + Sync,
    requires kind { T.rules.is_kind token.state.key ≡ true }
    requires new { token.loads ≡ 0 }
{
    let first = scripts.first().unwrap_or(&"{}");
    let (env, _) = read(alloc, first)?;
    let mut worlds = Vec::new(alloc);
    for script in scripts {
        let (_, world) = read(alloc, script)?;
        worlds.push(world)?;
    }
    let calls = gated_calls(rt, alloc, token, &env, &settings(), worlds)?;
    Ok(calls_words(alloc, &calls)?)
}

// So many callers over the same script.
fn callers_of_one_script<T: FileToken + Send + Sync, R: Threads + Wait + Sync>(
    rt: &R,
    alloc: Global,
    token: GatedToken<T>,
    number: usize,
) -> Result<String, ScriptError>
where
    T::Error: fmt::Debug + Send + Sync,
    requires kind { T.rules.is_kind token.state.key ≡ true }
    requires new { token.loads ≡ 0 }
{
    let mut scripts = Vec::new(alloc);
    for _ in 0..number {
        scripts.push(FILE)?;
    }
    callers(rt, alloc, token, scripts.as_slice())
}

const LOAD: &str = "3600, asked 3, kept false, last None, found 0, seen 1; ";

const HIT: &str = "3600, asked 1, kept true, last None, found 1, seen 1; ";

// The words where this one of so many callers comes first: it loads the token, and the others are handed it.
fn words_where(alloc: Global, number: usize, first: usize) -> Result<String, OutOfMemory> {
    let mut words = String::new(alloc);
    for place in 0..number {
        words.push_str(if place == first { LOAD } else { HIT })?;
    }
    words.push_str("loads 1")?;
    Ok(words)
}

fn one_comes_first(alloc: Global, number: usize, words: &str) -> Result<bool, OutOfMemory> {
    for first in 0..number {
        if words_where(alloc, number, first)?.as_str() == words {
            return Ok(true);
        }
    }
    Ok(false)
}

#[test]
fn one_to_sixteen_callers(rt: HostRuntime) -> Result<(), Fail> {
    for number in 1..17 {
        let words = callers_of_one_script(&rt, rt.alloc(), token(rt.alloc())?, number)?;
        assert!(rt;
            one_comes_first(rt.alloc(), number, words.as_str())?,
            "{words}"
        );
    }
    Ok(())
}

// The refresh of its file's token is refused.
const REFUSED_AT_700: &str =
    r#"{"variables":[["HOME","/home/u"]],"clock":[700],"files":[["/home/u/.aws/sso/cache/a9993e364706816aba3e25717850c26c9cd0d89d.json","{\"accessToken\":\"t\",\"expiresAt\":\"1970-01-01T00:15:00Z\",\"clientId\":\"i\",\"clientSecret\":\"s\",\"refreshToken\":\"r\",\"registrationExpiresAt\":\"1970-01-02T00:00:00Z\"}"]],"replies":{"create-token":[{"refused":"Other","message":"m"}]}}"#;

// It is granted, 29 seconds or 30 later.
const GRANTED_AT_729: &str =
    r#"{"clock":[729],"files":[["/home/u/.aws/sso/cache/a9993e364706816aba3e25717850c26c9cd0d89d.json","{\"accessToken\":\"t\",\"expiresAt\":\"1970-01-01T00:15:00Z\",\"clientId\":\"i\",\"clientSecret\":\"s\",\"refreshToken\":\"r\",\"registrationExpiresAt\":\"1970-01-02T00:00:00Z\"}"]],"replies":{"create-token":[{"access":"t2","refresh":"r2","expires_in":1000}]}}"#;

const GRANTED_AT_730: &str =
    r#"{"clock":[730],"files":[["/home/u/.aws/sso/cache/a9993e364706816aba3e25717850c26c9cd0d89d.json","{\"accessToken\":\"t\",\"expiresAt\":\"1970-01-01T00:15:00Z\",\"clientId\":\"i\",\"clientSecret\":\"s\",\"refreshToken\":\"r\",\"registrationExpiresAt\":\"1970-01-02T00:00:00Z\"}"]],"replies":{"create-token":[{"access":"t2","refresh":"r2","expires_in":1000}]}}"#;

// The words of both callers where the first one comes first, and where the second does.
const REFRESHES: &[(&str, [&str; 2])] = &[
    (
        GRANTED_AT_729,
        [
            "900, asked 4, kept false, last None, found 0, seen 1; 900, asked 3, kept true, last Some(700), found 1, seen 2; loads 2",
            "1729, asked 1, kept true, last Some(729), found 1, seen 1; 1729, asked 5, kept false, last None, found 0, seen 1; loads 1",
        ],
    ),
    (
        GRANTED_AT_730,
        [
            "900, asked 4, kept false, last None, found 0, seen 1; 1730, asked 5, kept true, last Some(700), found 1, seen 2; loads 2",
            "1730, asked 1, kept true, last Some(730), found 1, seen 1; 1730, asked 5, kept false, last None, found 0, seen 1; loads 1",
        ],
    ),
];

// A refresh is tried again 30 seconds after the attempt that the caller before noted.
#[test]
fn callers_30_seconds_apart(rt: HostRuntime) -> Result<(), Fail> {
    for (later, lawful) in REFRESHES {
        let token = token(rt.alloc())?;
        let words = callers(&rt, rt.alloc(), token, &[REFUSED_AT_700, later])?;
        assert!(rt; lawful.contains(&words.as_str()), "{words}");
    }
    Ok(())
}
