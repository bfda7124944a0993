//! Caches that callers share, one call after another and on threads: what each call answers and asks, and what it
//! tells that it found.
use crate::identity::{added, answer_words, held_words, settings};
use crate::setup::{Configured, read_configuration};
use cfg_identity::{CacheAnswer, CacheSettings, IdentityCache, SharedIdentityCache};
use cfg_profile::ProviderConfig;
use cfg_script::ScriptError;
use cfg_types::OutOfMemory;
use cfg_world::{Entry, ScriptDevices, World};
use std::alloc::{AllocError, Global};
use std::sync::Wait;
use std::test::Fail;
use std::thread;
use std::thread::Threads;

// What a call answers and asks, what it found held, and how many kept values its chain found.
fn found_words(
    alloc: Global,
    answer: &CacheAnswer,
    journal: &[Entry],
) -> Result<String, AllocError> {
    let words = answer_words(alloc, &answer.outcome, journal)?;
    let held = held_words(alloc, answer.held.as_ref())?;
    let kept = answer.kept.as_slice().len();
    format!(in alloc; "{words}; {held}; {kept}\n")
}

// A chain of one configuration under each name.
fn add_all(
    alloc: Global,
    cache: &mut IdentityCache,
    config: &ProviderConfig,
    world: &mut World<ScriptDevices>,
    names: &[&str],
) -> Result<(), OutOfMemory> {
    for name in names {
        let _added = added(alloc, cache, config, world, name)?;
    }
    Ok(())
}

fn words_over<R: Wait>(
    rt: &R,
    alloc: Global,
    shared: &SharedIdentityCache,
    world: &mut World<ScriptDevices>,
    asked: &[&str],
) -> Result<String, AllocError> {
    let mut words = String::new(alloc);
    for name in asked {
        world.clear_journal();
        let answer = shared.resolve(rt, name, world);
        let line = found_words(alloc, &answer, world.journal())?;
        words.push_str(line.as_str())?;
    }
    Ok(words)
}

// A case: the seconds of the settings, the script that configures the chains, their names, those that are asked for,
// and what the calls come to.
type Case = (
    (u64, u64),
    &'static str,
    &'static [&'static str],
    &'static [&'static str],
    &'static str,
);

// How many names there are, and a line for each call.
fn words_of<R: Wait>(
    rt: &R,
    alloc: Global,
    settings: CacheSettings,
    script: &str,
    names: &[&str],
    asked: &[&str],
) -> Result<String, ScriptError> {
    let Configured { config, mut world } = read_configuration(alloc, script)?;
    let mut cache = IdentityCache::new(alloc, settings);
    add_all(alloc, &mut cache, &config, &mut world, names)?;
    let shared = SharedIdentityCache::new(cache)?;
    let words = words_over(rt, alloc, &shared, &mut world, asked)?;
    Ok(format!(in alloc; "{}\n{words}", shared.len())?)
}

const ROLES: &str =
    r#"{"profiles":[["default",[["role_arn","arn:aws:iam::1:role/A"],["source_profile","b"]]],["b",[["role_arn","arn:aws:iam::1:role/B"],["source_profile","c"],["role_session_name","sb"]]],["c",[["aws_access_key_id","KC"],["aws_secret_access_key","SC"],["role_arn","arn:aws:iam::1:role/C"]]]],"clock":[5,5,1989,1990],"replies":{"assume-role":[{"id":"KB","secret":"SB","token":"TB","expires":1000},{"id":"KA","secret":"SA","token":"TA","expires":2000}]}}"#;

const CALLS: &[Case] = &[
    // A load, a hit, and an error, after which what was held is held.
    (
        (10, 900),
        ROLES,
        &["a"],
        &["a", "a", "a", "a"],
        "1\nKA AssumeRoleProvider 1 now assume-role now assume-role; nothing; 0\nKA AssumeRoleProvider 1 now; held KA 2000 0; 0\nprovider error now assume-role; held KA 2000 0; 0\nprovider error now assume-role; held KA 2000 0; 0\n",
    ),
    // No name, and another name.
    (
        (10, 900),
        ROLES,
        &[],
        &["a"],
        "0\nunknown name: a; nothing; 0\n",
    ),
    (
        (10, 900),
        r#"{"variables":[["AWS_ACCESS_KEY_ID","access"],["SECRET_ACCESS_KEY","secret"]],"clock":[0,890]}"#,
        &["a", "b"],
        &["c", "a", "", "a", "b"],
        "2\nunknown name: c; nothing; 0\naccess EnvironmentVariable 1 now; nothing; 0\nunknown name: ; nothing; 0\naccess EnvironmentVariable 1 now; held access 900 0; 0\naccess EnvironmentVariable 1 now; nothing; 0\n",
    ),
    // Two names of one configuration.
    (
        (10, 900),
        r#"{"profiles":[["default",[["role_arn","r"],["role_session_name","s"],["source_profile","c"]]],["c",[["aws_access_key_id","KC"],["aws_secret_access_key","SC"]]]],"clock":[0,1,2,3],"replies":{"assume-role":[{"id":"KA","secret":"SA","token":"TA","expires":2000},{"id":"KB","secret":"SB","token":"TB","expires":3000}]}}"#,
        &["a", "b"],
        &["a", "b", "a", "b"],
        "2\nKA AssumeRoleProvider 1 now assume-role; nothing; 0\nKB AssumeRoleProvider 1 now assume-role; nothing; 0\nKA AssumeRoleProvider 1 now; held KA 2000 0; 0\nKB AssumeRoleProvider 1 now; held KB 3000 0; 0\n",
    ),
    // A kept token of IAM Identity Center, which a load finds and a hit does not look for.
    (
        (10, 900),
        r#"{"variables":[["HOME","/home/u"]],"profiles":[["default",[["sso_session","abc"],["sso_account_id","1"],["sso_role_name","r"]]]],"sessions":[["abc",[["sso_region","us-east-1"],["sso_start_url","u"]]]],"files":[["/home/u/.aws/sso/cache/a9993e364706816aba3e25717850c26c9cd0d89d.json","{\"accessToken\":\"t\",\"expiresAt\":\"1970-01-01T01:00:00Z\"}"]],"clock":[0,0,0,1,90,90,90],"replies":{"role-credentials":[{"id":"R","secret":"S","token":"T","expires_ms":100000},{"id":"Q","secret":"S","token":"T","expires_ms":200000}]}}"#,
        &["a"],
        &["a", "a", "a"],
        "1\nR SSO 2 now now read now send; nothing; 1\nR SSO 2 now; held R 100 0; 0\nQ SSO 2 now now send; held R 100 0; 1\n",
    ),
    // Kept values of instance metadata: its session token, and behind a refusal the credentials that it gave before.
    (
        (18446744073709551615, 900),
        r#"{"clock":[100],"replies":{"imds-token":[[200,[["x-aws-ec2-metadata-token-ttl-seconds","21600"]],"tok"]],"imds-get":[[200,[],"role"],[200,[],"{\"AccessKeyId\":\"M\",\"SecretAccessKey\":\"S\",\"Token\":\"T\",\"Expiration\":\"2016-02-25T06:03:31Z\"}"],[404,[],""]]}}"#,
        &["a"],
        &["a", "a"],
        "1\nM IMDSv2 1 now now imds-token now imds-get now imds-get now; nothing; 2\nM IMDSv2 0 now now imds-get; held M 1456380211 0; 2\n",
    ),
];

#[test]
fn calls_tell_what_they_found(rt: HostRuntime) -> Result<(), Fail> {
    for ((buffer, life), script, names, asked, want) in CALLS {
        let settings = settings(*buffer, *life);
        let words = words_of(&rt, rt.alloc(), settings, script, names, asked)?;
        assert_eq!(rt; words.as_str(), *want, "{script}");
    }
    Ok(())
}

// A caller of a name, over a world of its own.
#[derive(Drop)]
struct Caller {
    name: &'static str,
    world: World<ScriptDevices>,
}

// What a caller of a name was given and found held, by the ids, and whether its call asked the chain.
#[derive(Drop)]
struct Given {
    name: &'static str,
    id: String,
    held: String,
    loaded: bool,
}

fn call<R: Wait>(
    rt: &R,
    alloc: Global,
    shared: &SharedIdentityCache,
    caller: Caller,
) -> Result<Given, AllocError> {
    let Caller { name, mut world } = caller;
    let answer = shared.resolve(rt, name, &mut world);
    let id = match &answer.outcome {
        Ok(keys) => String::from_str(alloc, keys.access_key_id())?,
        Err(fault) => format!(in alloc; "{fault}")?,
    };
    let held = match &answer.held {
        Some(held) => String::from_str(alloc, held.credentials.access_key_id())?,
        None => String::new(alloc),
    };
    let loaded = world.journal().len() > 1;
    Ok(Given {
        name,
        id,
        held,
        loaded,
    })
}

// The callers' calls, each on a thread of its own.
fn call_each<R: Threads + Wait + Sync>(
    rt: &R,
    alloc: Global,
    shared: &SharedIdentityCache,
    callers: Vec<Caller>,
) -> Result<Vec<Given>, AllocError> {
    let given = thread::map_vec(
        rt,
        callers,
        &|caller: Caller| -> Result<Given, AllocError> { call(rt, alloc, shared, caller) },
    )?;
    let mut all = Vec::new(alloc);
    for one in given {
        all.push(one?)?;
    }
    Ok(all)
}

// What the caller was given that asked the chain.
fn loader_of<'a>(given: &'a [Given], name: &str) -> &'a str {
    match given.iter().find(|one| one.name == name && one.loaded) {
        Some(one) => one.id.as_str(),
        None => "",
    }
}

// A load over nothing held, a load, a hit of what the loader was given, or anything else.
fn mark_of(one: &Given, loader: &str) -> &'static str {
    if one.loaded && one.held.is_empty() {
        "load "
    } else if one.loaded {
        "reload "
    } else if one.id.as_str() == loader && one.held.as_str() == loader {
        "hit "
    } else {
        "other "
    }
}

// This mark, once for each caller of the name that has it.
fn write_marks(
    words: &mut String,
    given: &[Given],
    name: &str,
    mark: &str,
) -> Result<(), AllocError> {
    let loader = loader_of(given, name);
    for one in given {
        if one.name == name && mark_of(one, loader) == mark {
            words.push_str(mark)?;
        }
    }
    Ok(())
}

// The marks of the callers of each name, in an order that does not depend on who came first.
fn marks_of(alloc: Global, given: &[Given], names: &[&str]) -> Result<String, AllocError> {
    let mut words = String::new(alloc);
    for name in names {
        words.push_str(name)?;
        words.push_str(": ")?;
        for mark in &["load ", "reload ", "hit ", "other "] {
            write_marks(&mut words, given, name, mark)?;
        }
    }
    Ok(words)
}

// A script of one role, whose reply has this id.
fn script_with(alloc: Global, id: &str) -> Result<String, AllocError> {
    format!(in alloc;
        "{{\"profiles\":[[\"default\",[[\"role_arn\",\"r\"],[\"source_profile\",\"c\"]]],[\"c\",[[\"aws_access_key_id\",\"KC\"],[\"aws_secret_access_key\",\"SC\"]]]],\"clock\":[5],\"replies\":{{\"assume-role\":[{{\"id\":\"{id}\",\"secret\":\"SA\",\"token\":\"TA\",\"expires\":2000}}]}}}}"
    )
}

// So many callers of a name more, each of whose worlds would give credentials of its own.
fn add_callers(
    alloc: Global,
    callers: &mut Vec<Caller>,
    name: &'static str,
    count: u64,
) -> Result<(), ScriptError> {
    for number in 0..count {
        let id = format!(in alloc; "{name}{number}")?;
        let script = script_with(alloc, id.as_str())?;
        let Configured { config: _, world } = read_configuration(alloc, script.as_str())?;
        callers.push(Caller { name, world })?;
    }
    Ok(())
}

// So many callers of each name.
fn callers_of(
    alloc: Global,
    names: &[&'static str],
    count: u64,
) -> Result<Vec<Caller>, ScriptError> {
    let mut callers = Vec::new(alloc);
    for name in names {
        add_callers(alloc, &mut callers, name, count)?;
    }
    Ok(callers)
}

// So many calls of each name, each on a thread of its own, all on one cache.
fn called_at_once<R: Threads + Wait + Sync>(
    rt: &R,
    alloc: Global,
    names: &[&'static str],
    count: u64,
) -> Result<String, ScriptError> {
    let script = script_with(alloc, "KA")?;
    let Configured { config, mut world } = read_configuration(alloc, script.as_str())?;
    let mut cache = IdentityCache::new(alloc, settings(10, 900));
    add_all(alloc, &mut cache, &config, &mut world, names)?;
    let shared = SharedIdentityCache::new(cache)?;
    let callers = callers_of(alloc, names, count)?;
    let given = call_each(rt, alloc, &shared, callers)?;
    Ok(marks_of(alloc, given.as_slice(), names)?)
}

// Whoever comes first loads the credentials of a name, and the others are handed these.
#[test]
fn callers_share_a_cache(rt: HostRuntime) -> Result<(), Fail> {
    let table: &[(&[&'static str], u64, &str)] = &[
        (&["a"], 2, "a: load hit "),
        (
            &["a", "b", "c", "d"],
            4,
            "a: load hit hit hit b: load hit hit hit c: load hit hit hit d: load hit hit hit ",
        ),
    ];
    for (names, count, want) in table {
        let words = called_at_once(&rt, rt.alloc(), names, *count)?;
        assert_eq!(rt; words.as_str(), *want);
    }
    Ok(())
}
