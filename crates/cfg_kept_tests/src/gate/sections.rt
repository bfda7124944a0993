//! Sections of one pass after another.
ghost use Rattle.std.specs.Prelude.{◌≡◌, true};

use crate::gate::tokens::{kept_token, read, scarce_token, token};
use crate::sections::settings;
use cfg_gate::{Gate, GateAnswer, GateError, GatedToken, Pass, new_gate};
use cfg_script::ScriptError;
use cfg_token::FileToken;
use cfg_types::{Env, OutOfMemory};
use cfg_world::{ScriptDevices, World};
use std::alloc::Global;
use std::fmt;
use std::sync::Wait;
use std::test::Fail;

// The second at which the token ends.
pub(crate) fn expiry_words<T: FileToken>(alloc: Global, token: &T) -> Result<String, OutOfMemory> {
    Ok(format!(in alloc; "{}", token.expires_at().seconds())?)
}

// The end of the token, or the error.
fn outcome_words<T: FileToken>(
    alloc: Global,
    outcome: &Result<T, GateError<T>>,
) -> Result<String, OutOfMemory>
where
    T::Error: fmt::Debug,
{
    match outcome {
        Ok(token) => expiry_words(alloc, token),
        Err(GateError::Spent) => Ok(format!(in alloc; "spent")?),
        Err(GateError::Token(error)) => Ok(format!(in alloc; "{error:?}")?),
    }
}

// What a section gave and asked, whether it found a token, and the loads that it found, that the pass has seen
// then, and what is left of the allowance.
fn section_words<T: FileToken, R: Wait>(
    rt: &R,
    alloc: Global,
    gate: &Gate<T>,
    pass: &mut Pass<T>,
    env: &Env,
    world: &mut World<ScriptDevices>,
) -> Result<String, OutOfMemory>
where
    T::Error: fmt::Debug,
    requires of { pass.old.place.table_id ≡ gate.now.table.shared.table_id }
    requires kind { T.rules.is_kind gate.now.key ≡ true }
    ensures { pass.new.place.table_id ≡ pass.old.place.table_id }
{
    let GateAnswer {
        outcome,
        kept,
        last,
        found,
    } = pass.section(rt, gate, env, &settings(), world);
    let outcome = outcome_words(alloc, &outcome)?;
    let asked = world.journal().len();
    let kept = kept.is_some();
    let last = last.map(|at| at.seconds());
    let seen = pass.seen();
    let left = pass.allowance();
    Ok(format!(in alloc;
        "{outcome}, asked {asked}, kept {kept}, last {last:?}, found {found}, seen {seen}, left {left}"
    )?)
}

// Two sections of a pass with this allowance over one world.
fn two_sections<T: FileToken, R: Wait>(
    rt: &R,
    alloc: Global,
    token: GatedToken<T>,
    allowance: u64,
    script: &str,
) -> Result<String, ScriptError>
where
    T::Error: fmt::Debug,
    requires kind { T.rules.is_kind token.state.key ≡ true }
    requires new { token.loads ≡ 0 }
{
    let (gate, mut pass) = new_gate(alloc, token, allowance)?;
    let (env, mut world) = read(alloc, script)?;
    let first = section_words(rt, alloc, &gate, &mut pass, &env, &mut world)?;
    let second = section_words(rt, alloc, &gate, &mut pass, &env, &mut world)?;
    Ok(format!(in alloc; "{first}; {second}")?)
}

/// A caller at clock 0, whose file has a token to 3600.
pub(crate) const FILE: &str =
    r#"{"variables":[["HOME","/home/u"]],"clock":[0,0,3299],"files":[["/home/u/.aws/sso/cache/a9993e364706816aba3e25717850c26c9cd0d89d.json","{\"accessToken\":\"t\",\"expiresAt\":\"1970-01-01T01:00:00Z\"}"]]}"#;

const REFRESHED: &str =
    r#"{"variables":[["HOME","/home/u"]],"clock":[700,700,730,730],"files":[["/home/u/.aws/sso/cache/a9993e364706816aba3e25717850c26c9cd0d89d.json","{\"accessToken\":\"t\",\"expiresAt\":\"1970-01-01T00:15:00Z\",\"clientId\":\"i\",\"clientSecret\":\"s\",\"refreshToken\":\"r\",\"registrationExpiresAt\":\"1970-01-02T00:00:00Z\"}"]],"replies":{"create-token":[{"refused":"Other","message":"m"},{"access":"t2","refresh":"r2","expires_in":1000}]}}"#;

const TABLE: &[(u64, &str, &str)] = &[
    (
        1,
        FILE,
        "3600, asked 3, kept false, last None, found 0, seen 1, left 0; spent, asked 3, kept false, last None, found 1, seen 1, left 0",
    ),
    (
        2,
        FILE,
        "3600, asked 3, kept false, last None, found 0, seen 1, left 1; 3600, asked 4, kept true, last None, found 1, seen 1, left 0",
    ),
    (
        2,
        REFRESHED,
        "900, asked 4, kept false, last None, found 0, seen 1, left 1; 1730, asked 9, kept true, last Some(700), found 1, seen 2, left 0",
    ),
    (
        2,
        r#"{"clock":[5]}"#,
        "FailedToLoadToken(NoHomeDirectory), asked 1, kept false, last None, found 0, seen 1, left 1; FailedToLoadToken(NoHomeDirectory), asked 2, kept false, last None, found 1, seen 2, left 0",
    ),
    (
        0,
        FILE,
        "spent, asked 0, kept false, last None, found 0, seen 0, left 0; spent, asked 0, kept false, last None, found 0, seen 0, left 0",
    ),
];

#[test]
fn sections_of_one_pass(rt: HostRuntime) -> Result<(), Fail> {
    for (allowance, script, want) in TABLE {
        let words = two_sections(&rt, rt.alloc(), token(rt.alloc())?, *allowance, script)?;
        assert_eq!(rt; words.as_str(), *want);
    }
    Ok(())
}

// Each script's token is kept with the attempt at it, and its record is given up before the gate is made.
const KEPT_TABLE: &[(&str, &str)] = &[
    (
        FILE,
        "3600, asked 1, kept true, last None, found 0, seen 0, left 1; 3600, asked 2, kept true, last None, found 0, seen 0, left 0",
    ),
    (
        REFRESHED,
        "900, asked 3, kept true, last Some(700), found 0, seen 1, left 1; 900, asked 7, kept true, last Some(700), found 1, seen 2, left 0",
    ),
];

#[test]
fn a_gate_begins_with_what_its_token_keeps(rt: HostRuntime) -> Result<(), Fail> {
    for (script, want) in KEPT_TABLE {
        let token = kept_token(rt.alloc(), script)?;
        let words = two_sections(&rt, rt.alloc(), token, 2, script)?;
        assert_eq!(rt; words.as_str(), *want);
    }
    Ok(())
}

// A section of a pass that was split off a pass of allowance 3, which then takes it in, or is taken in by it.
fn joined_words<T: FileToken, R: Wait>(
    rt: &R,
    alloc: Global,
    token: GatedToken<T>,
    script: &str,
    other_way: bool,
) -> Result<String, ScriptError>
where
    T::Error: fmt::Debug,
    requires kind { T.rules.is_kind token.state.key ≡ true }
    requires new { token.loads ≡ 0 }
{
    let (gate, mut pass) = new_gate(alloc, token, 3)?;
    let (env, mut world) = read(alloc, script)?;
    let Ok(mut other) = pass.split(&gate, 1) else {
        return Ok(format!(in alloc; "not split")?);
    };
    let words = section_words(rt, alloc, &gate, &mut other, &env, &mut world)?;
    let joined = if other_way {
        other.join(&gate, pass);
        other
    } else {
        pass.join(&gate, other);
        pass
    };
    let seen = joined.seen();
    Ok(format!(in alloc; "{words}; joined, seen {seen}, left {}", joined.allowance())?)
}

const JOINED: &str =
    "3600, asked 3, kept false, last None, found 0, seen 1, left 0; joined, seen 1, left 2";

#[test]
fn a_joined_pass_has_seen_what_both_had(rt: HostRuntime) -> Result<(), Fail> {
    for other_way in [false, true] {
        let words = joined_words(&rt, rt.alloc(), token(rt.alloc())?, FILE, other_way)?;
        assert_eq!(rt; words.as_str(), JOINED);
    }
    Ok(())
}

// Three sections, over a world of their own each: what each found and gave, without what it asked.
fn three_sections<T: FileToken, R: Wait>(
    rt: &R,
    alloc: Global,
    token: GatedToken<T>,
    scripts: [&str; 3],
) -> Result<String, ScriptError>
where
    T::Error: fmt::Debug,
    requires kind { T.rules.is_kind token.state.key ≡ true }
    requires new { token.loads ≡ 0 }
{
    let (gate, mut pass) = new_gate(alloc, token, 3)?;
    let (env, mut world) = read(alloc, scripts[0])?;
    let first = pass.section(rt, &gate, &env, &settings(), &mut world);
    let after_first = pass.seen();
    let (_, mut world) = read(alloc, scripts[1])?;
    let second = pass.section(rt, &gate, &env, &settings(), &mut world);
    let after_second = pass.seen();
    let (_, mut world) = read(alloc, scripts[2])?;
    let third = pass.section(rt, &gate, &env, &settings(), &mut world);
    let first = found_words(alloc, &first, after_first)?;
    let second = found_words(alloc, &second, after_second)?;
    let third = found_words(alloc, &third, pass.seen())?;
    Ok(format!(in alloc; "{first}; {second}; {third}")?)
}

fn found_words<T: FileToken>(
    alloc: Global,
    answer: &GateAnswer<T>,
    seen: u64,
) -> Result<String, OutOfMemory>
where
    T::Error: fmt::Debug,
{
    let outcome = outcome_words(alloc, &answer.outcome)?;
    let kept = answer.kept.is_some();
    Ok(format!(in alloc;
        "{outcome} after {}, kept {kept}, then {seen}",
        answer.found
    )?)
}

// Its file is empty, and the clock shows a time at which the token of `FILE` is used up.
const EMPTY: &str =
    r#"{"clock":[3400],"files":[["/home/u/.aws/sso/cache/a9993e364706816aba3e25717850c26c9cd0d89d.json",""]]}"#;

const WITHOUT_MEMORY: &str =
    "3600 after 0, kept false, then 1; OutOfMemory after 1, kept true, then 1; 3600 after 1, kept true, then 1";

#[test]
fn a_section_without_memory_leaves_the_state(rt: HostRuntime) -> Result<(), Fail> {
    let token = scarce_token(rt.alloc())?;
    let words = three_sections(&rt, rt.alloc(), token, [FILE, EMPTY, FILE])?;
    assert_eq!(rt; words.as_str(), WITHOUT_MEMORY);
    Ok(())
}
