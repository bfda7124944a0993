//! Caches of credentials over chains that a script configures: what each call answers and asks, and what is held
//! behind it.
mod shared;

use crate::setup::{Configured, chain_of, read_configuration};
use cfg_identity::{CacheFault, CacheSettings, Credentials, Held, IdentityCache};
use cfg_profile::ProviderConfig;
use cfg_script::ScriptError;
use cfg_types::{OutOfMemory, Region, Request, TryCopy};
use cfg_world::{Entry, Question, ScriptDevices, World};
use std::alloc::{AllocError, Global};
use std::process::Abort;
use std::test::Fail;

// A step on a cache.
#[derive(Clone, Copy)]
enum Step {
    Add(&'static str),
    Ask(&'static str),
    Held(&'static str),
    Forget(&'static str),
    Len,
}

fn kind_of(question: &Question) -> &'static str {
    match question {
        Question::Now => " now",
        Question::Jitter => " jitter",
        Question::Read { path: _ } => " read",
        Question::Write { path: _, bytes: _ } => " write",
        Question::Run { command: _ } => " run",
        Question::LookUp { host: _ } => " look-up",
        Question::Send(request) => match request.get() {
            Request::AssumeRole(_) => " assume-role",
            Request::MetadataToken(_) => " imds-token",
            Request::MetadataGet(_) => " imds-get",
            _ => " send",
        },
    }
}

fn write_asked(words: &mut String, journal: &[Entry]) -> Result<(), AllocError> {
    for entry in journal {
        words.push_str(kind_of(entry.question()))?;
    }
    Ok(())
}

pub(crate) fn answer_words(
    alloc: Global,
    answer: &Result<Credentials, CacheFault>,
    journal: &[Entry],
) -> Result<String, AllocError> {
    let mut words = match answer {
        Ok(keys) => {
            let id = keys.access_key_id();
            let provider = keys.provider_name();
            let features = keys.features().len();
            format!(in alloc; "{id} {provider} {features}")?
        }
        Err(fault) => format!(in alloc; "{fault}")?,
    };
    write_asked(&mut words, journal)?;
    Ok(words)
}

pub(crate) fn held_words(alloc: Global, held: Option<&Held>) -> Result<String, AllocError> {
    match held {
        Some(held) => {
            let id = held.credentials.access_key_id();
            let seconds = held.life.seconds();
            let nanos = held.life.nanos();
            format!(in alloc; "held {id} {seconds} {nanos}")
        }
        None => String::from_str(alloc, "nothing"),
    }
}

pub(crate) fn added(
    alloc: Global,
    cache: &mut IdentityCache,
    config: &ProviderConfig,
    world: &mut World<ScriptDevices>,
    name: &str,
) -> Result<String, OutOfMemory> {
    let region = Region::new(alloc, "eu-west-1")?;
    let chain = chain_of(alloc, config.copy(alloc)?, Some(region), world)?;
    match cache.add(name, chain) {
        Ok(()) => Ok(String::from_str(alloc, "added")?),
        Err(fault) => Ok(format!(in alloc; "{fault}")?),
    }
}

fn step_words(
    alloc: Global,
    cache: &mut IdentityCache,
    config: &ProviderConfig,
    world: &mut World<ScriptDevices>,
    step: Step,
) -> Result<String, OutOfMemory> {
    world.clear_journal();
    match step {
        Step::Add(name) => added(alloc, cache, config, world, name),
        Step::Ask(name) => {
            let answer = cache.resolve(name, world);
            Ok(answer_words(alloc, &answer, world.journal())?)
        }
        Step::Held(name) => Ok(held_words(alloc, cache.held(name))?),
        Step::Forget(name) => {
            let held = cache.forget(name);
            Ok(held_words(alloc, held.as_ref())?)
        }
        Step::Len => Ok(format!(in alloc; "{}", cache.len())?),
    }
}

// What the steps come to, a line for each.
fn steps_of(
    alloc: Global,
    settings: CacheSettings,
    script: &str,
    steps: &[Step],
) -> Result<String, ScriptError> {
    let Configured { config, mut world } = read_configuration(alloc, script)?;
    let mut cache = IdentityCache::new(alloc, settings);
    let mut words = String::new(alloc);
    for step in steps {
        let line = step_words(alloc, &mut cache, &config, &mut world, *step)?;
        words.push_str(line.as_str())?;
        words.push_str("\n")?;
    }
    Ok(words)
}

pub(crate) const fn settings(buffer_seconds: u64, default_life_seconds: u64) -> CacheSettings {
    CacheSettings {
        buffer_seconds,
        default_life_seconds,
    }
}

// A case: the seconds of the settings, the script that configures the chains, the steps, and what they come to.
type Case = ((u64, u64), &'static str, &'static [Step], &'static str);

// How long before their end held credentials are given no more.
const BUFFERS: &[Case] = &[
    // A nanosecond more than the buffer, exactly the buffer, and a clock that goes back.
    (
        (10, 900),
        r#"{"profiles":[["default",[["role_arn","r"],["role_session_name","s"],["source_profile","c"]]],["c",[["aws_access_key_id","KC"],["aws_secret_access_key","SC"]]]],"clock":[5,[1989,999999999],0,1990],"replies":{"assume-role":[{"id":"KA","secret":"SA","token":"TA","expires":2000},{"id":"KB","secret":"SB","token":"TB","expires":3000}]}}"#,
        &[
            Step::Add("a"),
            Step::Ask("a"),
            Step::Ask("a"),
            Step::Ask("a"),
            Step::Ask("a"),
            Step::Held("a"),
        ],
        "added\nKA AssumeRoleProvider 1 now assume-role\nKA AssumeRoleProvider 1 now\nKA AssumeRoleProvider 1 now\nKB AssumeRoleProvider 1 now assume-role\nheld KB 3000 0\n",
    ),
    // No buffer.
    (
        (0, 900),
        r#"{"profiles":[["default",[["role_arn","r"],["role_session_name","s"],["source_profile","c"]]],["c",[["aws_access_key_id","KC"],["aws_secret_access_key","SC"]]]],"clock":[5,[1999,999999999],2000],"replies":{"assume-role":[{"id":"KA","secret":"SA","token":"TA","expires":2000},{"id":"KB","secret":"SB","token":"TB","expires":3000}]}}"#,
        &[
            Step::Add("a"),
            Step::Ask("a"),
            Step::Ask("a"),
            Step::Ask("a"),
        ],
        "added\nKA AssumeRoleProvider 1 now assume-role\nKA AssumeRoleProvider 1 now\nKB AssumeRoleProvider 1 now assume-role\n",
    ),
    // The last moment of all, and a buffer without end.
    (
        (10, 18446744073709551615),
        r#"{"variables":[["AWS_ACCESS_KEY_ID","access"],["SECRET_ACCESS_KEY","secret"]],"clock":[5,[9223372036854775797,999999998],[9223372036854775797,999999999]]}"#,
        &[
            Step::Add("a"),
            Step::Ask("a"),
            Step::Held("a"),
            Step::Ask("a"),
            Step::Held("a"),
            Step::Ask("a"),
            Step::Held("a"),
        ],
        "added\naccess EnvironmentVariable 1 now\nheld access 9223372036854775807 999999999\naccess EnvironmentVariable 1 now\nheld access 9223372036854775807 999999999\naccess EnvironmentVariable 1 now\nheld access 9223372036854775807 999999999\n",
    ),
    (
        (18446744073709551615, 900),
        r#"{"variables":[["AWS_ACCESS_KEY_ID","access"],["SECRET_ACCESS_KEY","secret"]],"clock":[0,0]}"#,
        &[
            Step::Add("a"),
            Step::Ask("a"),
            Step::Held("a"),
            Step::Ask("a"),
        ],
        "added\naccess EnvironmentVariable 1 now\nheld access 900 0\naccess EnvironmentVariable 1 now\n",
    ),
    // A nanosecond less than the buffer.
    (
        (10, 900),
        r#"{"profiles":[["default",[["role_arn","r"],["role_session_name","s"],["source_profile","c"]]],["c",[["aws_access_key_id","KC"],["aws_secret_access_key","SC"]]]],"clock":[5,[1990,1]],"replies":{"assume-role":[{"id":"KA","secret":"SA","token":"TA","expires":2000},{"id":"KB","secret":"SB","token":"TB","expires":3000}]}}"#,
        &[Step::Add("a"), Step::Ask("a"), Step::Ask("a")],
        "added\nKA AssumeRoleProvider 1 now assume-role\nKB AssumeRoleProvider 1 now assume-role\n",
    ),
    // A default life of the buffer is none, and one of a second more is one of less than a second.
    (
        (10, 10),
        r#"{"variables":[["AWS_ACCESS_KEY_ID","access"],["SECRET_ACCESS_KEY","secret"]],"clock":[7,7]}"#,
        &[
            Step::Add("a"),
            Step::Ask("a"),
            Step::Held("a"),
            Step::Ask("a"),
            Step::Held("a"),
        ],
        "added\naccess EnvironmentVariable 1 now\nheld access 17 0\naccess EnvironmentVariable 1 now\nheld access 17 0\n",
    ),
    (
        (10, 11),
        r#"{"profiles":[["default",[["credential_process","p"]]]],"commands":[[0,"{\"Version\":1,\"AccessKeyId\":\"P\",\"SecretAccessKey\":\"S\"}",""],[0,"{\"Version\":1,\"AccessKeyId\":\"Q\",\"SecretAccessKey\":\"S\"}",""]],"clock":[7,[7,999999999],8]}"#,
        &[
            Step::Add("a"),
            Step::Ask("a"),
            Step::Ask("a"),
            Step::Ask("a"),
            Step::Held("a"),
        ],
        "added\nP CredentialProcess 2 now run\nP CredentialProcess 2 now\nQ CredentialProcess 2 now run\nheld Q 19 0\n",
    ),
];

// Until when credentials are held.
const LIVES: &[Case] = &[
    // Keys without an expiry.
    (
        (10, 900),
        r#"{"variables":[["AWS_ACCESS_KEY_ID","access"],["SECRET_ACCESS_KEY","secret"]],"clock":[0,889,890]}"#,
        &[
            Step::Add("a"),
            Step::Ask("a"),
            Step::Held("a"),
            Step::Ask("a"),
            Step::Held("a"),
            Step::Ask("a"),
            Step::Held("a"),
        ],
        "added\naccess EnvironmentVariable 1 now\nheld access 900 0\naccess EnvironmentVariable 1 now\nheld access 900 0\naccess EnvironmentVariable 1 now\nheld access 1790 0\n",
    ),
    // No default life, and no buffer.
    (
        (0, 0),
        r#"{"variables":[["AWS_ACCESS_KEY_ID","access"],["SECRET_ACCESS_KEY","secret"]],"clock":[7,7,6]}"#,
        &[
            Step::Add("a"),
            Step::Ask("a"),
            Step::Held("a"),
            Step::Ask("a"),
            Step::Ask("a"),
            Step::Held("a"),
        ],
        "added\naccess EnvironmentVariable 1 now\nheld access 7 0\naccess EnvironmentVariable 1 now\naccess EnvironmentVariable 1 now\nheld access 7 0\n",
    ),
    // Credentials that have ended when they come are given, and asked for again.
    (
        (10, 900),
        r#"{"profiles":[["default",[["role_arn","r"],["role_session_name","s"],["source_profile","c"]]],["c",[["aws_access_key_id","KC"],["aws_secret_access_key","SC"]]]],"clock":[100,100],"replies":{"assume-role":[{"id":"KA","secret":"SA","token":"TA","expires":50},{"id":"KB","secret":"SB","token":"TB","expires":3000}]}}"#,
        &[
            Step::Add("a"),
            Step::Ask("a"),
            Step::Held("a"),
            Step::Ask("a"),
            Step::Held("a"),
        ],
        "added\nKA AssumeRoleProvider 1 now assume-role\nheld KA 50 0\nKB AssumeRoleProvider 1 now assume-role\nheld KB 3000 0\n",
    ),
    // An expiry with nanoseconds is compared with them.
    (
        (10, 900),
        r#"{"profiles":[["default",[["role_arn","r"],["role_session_name","s"],["source_profile","c"]]],["c",[["aws_access_key_id","KC"],["aws_secret_access_key","SC"]]]],"clock":[5,[1990,499999999],[1990,500000000]],"replies":{"assume-role":[{"id":"KA","secret":"SA","token":"TA","expires":[2000,500000000]},{"id":"KB","secret":"SB","token":"TB","expires":3000}]}}"#,
        &[
            Step::Add("a"),
            Step::Ask("a"),
            Step::Held("a"),
            Step::Ask("a"),
            Step::Ask("a"),
        ],
        "added\nKA AssumeRoleProvider 1 now assume-role\nheld KA 2000 500000000\nKA AssumeRoleProvider 1 now\nKB AssumeRoleProvider 1 now assume-role\n",
    ),
    // What a process gives with an expiry is held until then, and not for the default life.
    (
        (10, 900),
        r#"{"profiles":[["default",[["credential_process","p"]]]],"commands":[[0,"{\"Version\":1,\"AccessKeyId\":\"P\",\"SecretAccessKey\":\"S\",\"Expiration\":\"1970-01-01T00:01:00Z\"}",""]],"clock":[7,49,50]}"#,
        &[
            Step::Add("a"),
            Step::Ask("a"),
            Step::Held("a"),
            Step::Ask("a"),
            Step::Ask("a"),
            Step::Held("a"),
        ],
        "added\nP CredentialProcess 2 now run\nheld P 60 0\nP CredentialProcess 2 now\nprovider error now run\nheld P 60 0\n",
    ),
    // An expiry before the epoch.
    (
        (10, 900),
        r#"{"profiles":[["default",[["role_arn","r"],["role_session_name","s"],["source_profile","c"]]],["c",[["aws_access_key_id","KC"],["aws_secret_access_key","SC"]]]],"clock":[0],"replies":{"assume-role":[{"id":"KA","secret":"SA","token":"TA","expires":[-5,7]},{"id":"KB","secret":"SB","token":"TB","expires":3000}]}}"#,
        &[
            Step::Add("a"),
            Step::Ask("a"),
            Step::Held("a"),
            Step::Ask("a"),
            Step::Ask("a"),
        ],
        "added\nKA AssumeRoleProvider 1 now assume-role\nheld KA -5 7\nKB AssumeRoleProvider 1 now assume-role\nKB AssumeRoleProvider 1 now\n",
    ),
];

// What is added, held and given up under names.
const NAMES: &[Case] = &[
    // A name that is there, and names that are not.
    (
        (10, 900),
        r#"{"variables":[["AWS_ACCESS_KEY_ID","access"],["SECRET_ACCESS_KEY","secret"]],"clock":[0,1]}"#,
        &[
            Step::Len,
            Step::Ask("a"),
            Step::Held("a"),
            Step::Forget("a"),
            Step::Add("a"),
            Step::Ask("a"),
            Step::Add("a"),
            Step::Held("a"),
            Step::Ask(""),
            Step::Add(""),
            Step::Held(""),
            Step::Len,
        ],
        "0\nunknown name: a\nnothing\nnothing\nadded\naccess EnvironmentVariable 1 now\nthe name is taken: a\nheld access 900 0\nunknown name: \nadded\nnothing\n2\n",
    ),
    // Two names with one key hold each its own.
    (
        (10, 900),
        r#"{"profiles":[["default",[["role_arn","r"],["role_session_name","s"],["source_profile","c"]]],["c",[["aws_access_key_id","KC"],["aws_secret_access_key","SC"]]]],"clock":[0,1,2,3],"replies":{"assume-role":[{"id":"KA","secret":"SA","token":"TA","expires":2000},{"id":"KB","secret":"SB","token":"TB","expires":3000}]}}"#,
        &[
            Step::Add("a"),
            Step::Add("b"),
            Step::Ask("a"),
            Step::Held("b"),
            Step::Ask("b"),
            Step::Ask("a"),
            Step::Ask("b"),
            Step::Held("a"),
            Step::Held("b"),
            Step::Len,
        ],
        "added\nadded\nKA AssumeRoleProvider 1 now assume-role\nnothing\nKB AssumeRoleProvider 1 now assume-role\nKA AssumeRoleProvider 1 now\nKB AssumeRoleProvider 1 now\nheld KA 2000 0\nheld KB 3000 0\n2\n",
    ),
    // What is given up is asked for again, and another name's is held.
    (
        (10, 900),
        r#"{"profiles":[["default",[["role_arn","r"],["role_session_name","s"],["source_profile","c"]]],["c",[["aws_access_key_id","KC"],["aws_secret_access_key","SC"]]]],"clock":[0,1,2,3],"replies":{"assume-role":[{"id":"KA","secret":"SA","token":"TA","expires":2000},{"id":"KB","secret":"SB","token":"TB","expires":3000},{"id":"KD","secret":"SD","token":"TD","expires":4000}]}}"#,
        &[
            Step::Add("a"),
            Step::Add("b"),
            Step::Ask("a"),
            Step::Ask("b"),
            Step::Forget("a"),
            Step::Held("a"),
            Step::Forget("a"),
            Step::Ask("a"),
            Step::Ask("b"),
        ],
        "added\nadded\nKA AssumeRoleProvider 1 now assume-role\nKB AssumeRoleProvider 1 now assume-role\nheld KA 2000 0\nnothing\nnothing\nKD AssumeRoleProvider 1 now assume-role\nKB AssumeRoleProvider 1 now\n",
    ),
    // What is given up after an error is not held either.
    (
        (10, 900),
        r#"{"profiles":[["default",[["role_arn","r"],["role_session_name","s"],["source_profile","c"]]],["c",[["aws_access_key_id","KC"],["aws_secret_access_key","SC"]]]],"clock":[0],"replies":{"assume-role":["broken",{"id":"KA","secret":"SA","token":"TA","expires":2000}]}}"#,
        &[
            Step::Add("a"),
            Step::Ask("a"),
            Step::Forget("a"),
            Step::Ask("a"),
            Step::Forget("a"),
            Step::Held("a"),
            Step::Ask("a"),
        ],
        "added\nprovider error now assume-role\nnothing\nKA AssumeRoleProvider 1 now assume-role\nheld KA 2000 0\nnothing\nprovider error now assume-role\n",
    ),
];

// Errors, after which what was held is held.
const ERRORS: &[Case] = &[
    // Two roles, whose session is named by the clock; then the last second that is not enough, and a refusal, after
    // which what was held is held.
    (
        (10, 900),
        r#"{"profiles":[["default",[["role_arn","arn:aws:iam::1:role/A"],["source_profile","b"]]],["b",[["role_arn","arn:aws:iam::1:role/B"],["source_profile","c"],["role_session_name","sb"]]],["c",[["aws_access_key_id","KC"],["aws_secret_access_key","SC"],["role_arn","arn:aws:iam::1:role/C"]]]],"clock":[5,5,1989,1990],"replies":{"assume-role":[{"id":"KB","secret":"SB","token":"TB","expires":1000},{"id":"KA","secret":"SA","token":"TA","expires":2000}]}}"#,
        &[
            Step::Add("a"),
            Step::Ask("a"),
            Step::Ask("a"),
            Step::Ask("a"),
            Step::Held("a"),
        ],
        "added\nKA AssumeRoleProvider 1 now assume-role now assume-role\nKA AssumeRoleProvider 1 now\nprovider error now assume-role\nheld KA 2000 0\n",
    ),
    // An error between two loads.
    (
        (10, 900),
        r#"{"profiles":[["default",[["role_arn","r"],["role_session_name","s"],["source_profile","c"]]],["c",[["aws_access_key_id","KC"],["aws_secret_access_key","SC"]]]],"clock":[0,1995,1996,1997],"replies":{"assume-role":[{"id":"KA","secret":"SA","token":"TA","expires":2000},"dispatch",{"id":"KB","secret":"SB","token":"TB","expires":4000}]}}"#,
        &[
            Step::Add("a"),
            Step::Ask("a"),
            Step::Ask("a"),
            Step::Held("a"),
            Step::Ask("a"),
            Step::Ask("a"),
        ],
        "added\nKA AssumeRoleProvider 1 now assume-role\nprovider error now assume-role\nheld KA 2000 0\nKB AssumeRoleProvider 1 now assume-role\nKB AssumeRoleProvider 1 now\n",
    ),
    // A chain that gives nothing.
    (
        (10, 900),
        r#"{"variables":[["AWS_EC2_METADATA_DISABLED","TRUE"]],"clock":[0,1]}"#,
        &[
            Step::Add("a"),
            Step::Ask("a"),
            Step::Held("a"),
            Step::Ask("a"),
        ],
        "added\nnot loaded now\nnothing\nnot loaded now\n",
    ),
    // Two errors, before which and behind which credentials are given.
    (
        (10, 900),
        r#"{"profiles":[["default",[["role_arn","r"],["role_session_name","s"],["source_profile","c"]]],["c",[["aws_access_key_id","KC"],["aws_secret_access_key","SC"]]]],"clock":[0,1990,1991,0],"replies":{"assume-role":[{"id":"KA","secret":"SA","token":"TA","expires":2000},"timeout",null]}}"#,
        &[
            Step::Add("a"),
            Step::Ask("a"),
            Step::Ask("a"),
            Step::Ask("a"),
            Step::Ask("a"),
            Step::Held("a"),
        ],
        "added\nKA AssumeRoleProvider 1 now assume-role\nprovider error now assume-role\nprovider error now assume-role\nKA AssumeRoleProvider 1 now\nheld KA 2000 0\n",
    ),
];

// What the chain keeps between loads.
const KEPT: &[Case] = &[
    // A session of IAM Identity Center, whose token is kept when its credentials are asked for again.
    (
        (10, 900),
        r#"{"variables":[["HOME","/home/u"]],"profiles":[["default",[["sso_session","abc"],["sso_account_id","1"],["sso_role_name","r"]]]],"sessions":[["abc",[["sso_region","us-east-1"],["sso_start_url","u"]]]],"files":[["/home/u/.aws/sso/cache/a9993e364706816aba3e25717850c26c9cd0d89d.json","{\"accessToken\":\"t\",\"expiresAt\":\"1970-01-01T01:00:00Z\"}"]],"clock":[0,0,0,90,90,90],"replies":{"role-credentials":[{"id":"R","secret":"S","token":"T","expires_ms":100000},{"id":"Q","secret":"S","token":"T","expires_ms":200000}]}}"#,
        &[
            Step::Add("a"),
            Step::Ask("a"),
            Step::Ask("a"),
            Step::Ask("a"),
            Step::Held("a"),
        ],
        "added\nR SSO 2 now now read now send\nQ SSO 2 now now send\nQ SSO 2 now\nheld Q 200 0\n",
    ),
    // Two names with one session each keep a token of their own.
    (
        (10, 900),
        r#"{"variables":[["HOME","/home/u"]],"profiles":[["default",[["sso_session","abc"],["sso_account_id","1"],["sso_role_name","r"]]]],"sessions":[["abc",[["sso_region","us-east-1"],["sso_start_url","u"]]]],"files":[["/home/u/.aws/sso/cache/a9993e364706816aba3e25717850c26c9cd0d89d.json","{\"accessToken\":\"t\",\"expiresAt\":\"1970-01-01T01:00:00Z\"}"]],"clock":[0],"replies":{"role-credentials":[{"id":"R","secret":"S","token":"T","expires_ms":100000},{"id":"Q","secret":"S","token":"T","expires_ms":200000}]}}"#,
        &[
            Step::Add("a"),
            Step::Add("b"),
            Step::Ask("a"),
            Step::Ask("b"),
            Step::Ask("a"),
            Step::Ask("b"),
        ],
        "added\nadded\nR SSO 2 now now read now send\nQ SSO 2 now now read now send\nR SSO 2 now\nQ SSO 2 now\n",
    ),
    // Credentials that were retrieved from instance metadata answer a refusal: they are what the chain gives, and
    // are held.
    (
        (18446744073709551615, 900),
        r#"{"clock":[100],"replies":{"imds-token":[[200,[["x-aws-ec2-metadata-token-ttl-seconds","21600"]],"tok"]],"imds-get":[[200,[],"role"],[200,[],"{\"AccessKeyId\":\"M\",\"SecretAccessKey\":\"S\",\"Token\":\"T\",\"Expiration\":\"2016-02-25T06:03:31Z\"}"],[404,[],""]]}}"#,
        &[
            Step::Add("a"),
            Step::Ask("a"),
            Step::Held("a"),
            Step::Ask("a"),
            Step::Held("a"),
            Step::Forget("a"),
            Step::Ask("a"),
        ],
        "added\nM IMDSv2 1 now now imds-token now imds-get now imds-get now\nheld M 1456380211 0\nM IMDSv2 0 now now imds-get\nheld M 1456380211 0\nheld M 1456380211 0\nM IMDSv2 0 now now imds-get\n",
    ),
];

fn assert_cases(rt: &impl Abort, alloc: Global, cases: &[Case]) -> Result<(), Fail> {
    for ((buffer, life), script, steps, want) in cases {
        let words = steps_of(alloc, settings(*buffer, *life), script, steps)?;
        assert_eq!(rt; words.as_str(), *want, "{script}");
    }
    Ok(())
}

#[test]
fn buffers_before_an_end(rt: HostRuntime) -> Result<(), Fail> {
    assert_cases(&rt, rt.alloc(), BUFFERS)
}

#[test]
fn lives_of_what_is_held(rt: HostRuntime) -> Result<(), Fail> {
    assert_cases(&rt, rt.alloc(), LIVES)
}

#[test]
fn names_of_a_cache(rt: HostRuntime) -> Result<(), Fail> {
    assert_cases(&rt, rt.alloc(), NAMES)
}

#[test]
fn errors_between_loads(rt: HostRuntime) -> Result<(), Fail> {
    assert_cases(&rt, rt.alloc(), ERRORS)
}

#[test]
fn kept_values_under_names(rt: HostRuntime) -> Result<(), Fail> {
    assert_cases(&rt, rt.alloc(), KEPT)
}
