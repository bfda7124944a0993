//! Runs of callers on threads of their own: that calls succeed, that callers share what is kept, and how a run ends
//! whose source or sink fails.
ghost use Rattle.std.specs.Prelude.{◌<◌};

use crate::program::own::own_source;
use cfg_program::run_shared::run_shared;
use cfg_types::OutOfMemory;
use cfg_world::{MemorySink, MemorySource};
use std::alloc::Global;
use std::str;
use std::sync::Wait;
use std::test::Fail;
use std::thread::Threads;

// How many bytes a read and a write take at most, and which read and which write fails: they are counted from 1, and
// none has the number 0.
#[derive(Clone, Copy)]
struct Streams {
    most: usize,
    source_fails: u64,
    sink_fails: u64,
}

// How a run over this input ends: its status, and what was written.
fn run_over<R: Threads + Wait + Sync>(
    rt: &R,
    alloc: Global,
    word: &str,
    input: &str,
    streams: Streams,
) -> Result<String, OutOfMemory>
    requires { 0 < streams.most }
{
    let Streams {
        most,
        source_fails,
        sink_fails,
    } = streams;
    let words = vec![in alloc; String::from_str(alloc, word)?]?;
    let input = Vec::from_slice(alloc, input.as_bytes())?;
    let mut source = MemorySource::new(input, Vec::from_slice(alloc, &[source_fails])?, most);
    let mut sink = MemorySink::new(alloc, Vec::from_slice(alloc, &[sink_fails])?, most);
    let custom = vec![in alloc; own_source(alloc, "Own")?]?;
    let status = run_shared(rt, alloc, words.as_slice(), &mut source, &mut sink, custom);
    match str::from_utf8(sink.written()) {
        Ok(text) => Ok(format!(in alloc; "{status:?} {text}")?),
        Err(_) => Ok(format!(in alloc; "{status:?} not UTF-8")?),
    }
}

// Two callers, each with a reply of its own, over a source of the caller's own.
const OWN: &str =
    r#"{"profiles":[["default",[["role_arn","r"],["role_session_name","s"],["credential_source","OWN"]]]],"callers":[{"replies":{"assume-role":[{"id":"KA","secret":"SA","token":"TA","expires":2000}]}},{}]}"#;

const OWN_ANSWERS: &str =
    "Refused credentials =KA =AssumeRoleProvider 2000.000000000 assume-role\nerror ProviderError assume-role!\nrecords 0\n";

// Two callers over one session of IAM Identity Center.
const SESSION: &str =
    r#"{"variables":[["HOME","/h"]],"profiles":[["default",[["sso_session","abc"],["sso_account_id","1"],["sso_role_name","r"]]]],"sessions":[["abc",[["sso_region","us-east-1"],["sso_start_url","u"]]]],"callers":[{"files":[["/h/.aws/sso/cache/a9993e364706816aba3e25717850c26c9cd0d89d.json","{\"accessToken\":\"t\",\"expiresAt\":\"1970-01-01T01:00:00Z\"}"]],"replies":{"role-credentials":[{"id":"R1","secret":"S","token":"T","expires_ms":5000000}]}},{"files":[["/h/.aws/sso/cache/a9993e364706816aba3e25717850c26c9cd0d89d.json","{\"accessToken\":\"t\",\"expiresAt\":\"1970-01-01T01:00:00Z\"}"]],"replies":{"role-credentials":[{"id":"R2","secret":"S","token":"T","expires_ms":5000000}]}}]}"#;

const FIRST_LOADS: &str =
    "Done credentials =R1 =SSO 5000.000000000 now,read,now,role-credentials\ncredentials =R2 =SSO 5000.000000000 now,role-credentials\nrecords 1\n";

const SECOND_LOADS: &str =
    "Done credentials =R1 =SSO 5000.000000000 now,role-credentials\ncredentials =R2 =SSO 5000.000000000 now,read,now,role-credentials\nrecords 1\n";

// Two calls of one caller.
const SEVERAL_CALLS: &str = r#"{"calls":2,"callers":[{}]}"#;

const FIRST_LOADS_AT_A_GATE: &str =
    "Done token 3600.000000000 now,read,now\ntoken 3600.000000000 now\nloads 1\n";

const SECOND_LOADS_AT_A_GATE: &str =
    "Done token 3600.000000000 now\ntoken 3600.000000000 now,read,now\nloads 1\n";

const NOT_LOADED_AT_A_GATE: &str =
    "Refused error TokenNotLoaded -\nerror TokenNotLoaded -\nloads 0\n";

const NO_PROFILES: &str = r#"{"callers":[{}]}"#;

const NO_PROFILES_AT_A_GATE: &str = "Refused error InvalidConfiguration -\nloads 0\n";

// The word, the input, which read and which write fails, and two endings of which a run has one.
const RUNS: &[(&str, &str, u64, u64, &str, &str)] = &[
    ("share", OWN, 0, 0, OWN_ANSWERS, OWN_ANSWERS),
    ("share", OWN, 1, 0, "SourceFault ", "SourceFault "),
    ("share", OWN, 0, 1, "SinkFault ", "SinkFault "),
    ("share", SESSION, 0, 0, FIRST_LOADS, SECOND_LOADS),
    ("share", "{}", 0, 0, "NoScript ", "NoScript "),
    ("share", SEVERAL_CALLS, 0, 0, "NoScript ", "NoScript "),
    ("resolve", OWN, 0, 0, "UnknownCommand ", "UnknownCommand "),
    (
        "gated",
        OWN,
        0,
        0,
        NOT_LOADED_AT_A_GATE,
        NOT_LOADED_AT_A_GATE,
    ),
    (
        "gated",
        NO_PROFILES,
        0,
        0,
        NO_PROFILES_AT_A_GATE,
        NO_PROFILES_AT_A_GATE,
    ),
    ("gated", OWN, 1, 0, "SourceFault ", "SourceFault "),
    ("gated", OWN, 0, 1, "SinkFault ", "SinkFault "),
    (
        "gated",
        SESSION,
        0,
        0,
        FIRST_LOADS_AT_A_GATE,
        SECOND_LOADS_AT_A_GATE,
    ),
    ("gated", "{}", 0, 0, "NoScript ", "NoScript "),
    ("gated", SEVERAL_CALLS, 0, 0, "NoScript ", "NoScript "),
];

#[test]
fn runs_of_callers(rt: HostRuntime) -> Result<(), Fail> {
    for (word, input, source_fails, sink_fails, one, other) in RUNS {
        let streams = Streams {
            most: 8_192,
            source_fails: *source_fails,
            sink_fails: *sink_fails,
        };
        let told = run_over(&rt, rt.alloc(), word, input, streams)?;
        assert!(rt;
            told.as_str() == *one || told.as_str() == *other,
            "{word} {input}: {told}"
        );
    }
    Ok(())
}

// The first read whose failing does not end the run of callers as it should, and how the run ends then.
fn failing_reads<R: Threads + Wait + Sync>(
    rt: &R,
    alloc: Global,
    most: usize,
) -> Result<String, OutOfMemory>
    requires { 0 < most }
{
    for source_fails in 1..=1_000 {
        let streams = Streams {
            most,
            source_fails,
            sink_fails: 0,
        };
        let told = run_over(rt, alloc, "share", OWN, streams)?;
        if told.as_str() != "SourceFault " {
            return Ok(format!(in alloc; "{source_fails} {told}")?);
        }
    }
    Ok(String::from_str(alloc, "too many reads")?)
}

// The same of writes, behind which a beginning of the lines stands.
fn failing_writes<R: Threads + Wait + Sync>(
    rt: &R,
    alloc: Global,
    most: usize,
) -> Result<String, OutOfMemory>
    requires { 0 < most }
{
    let lines = OWN_ANSWERS.strip_prefix("Refused ");
    for sink_fails in 1..=1_000 {
        let streams = Streams {
            most,
            source_fails: 0,
            sink_fails,
        };
        let told = run_over(rt, alloc, "share", OWN, streams)?;
        match (told.as_str().strip_prefix("SinkFault "), lines) {
            (Some(written), Some(lines)) if lines.starts_with(written) => {}
            _ => return Ok(format!(in alloc; "{sink_fails} {told}")?),
        }
    }
    Ok(String::from_str(alloc, "too many writes")?)
}

// Each read fails in turn, and each write: the first one behind the last changes nothing. The script has 198 bytes, which
// come in so many pieces and then end; the lines have 106.
#[test]
fn each_read_and_each_write_of_callers_may_fail(rt: HostRuntime) -> Result<(), Fail> {
    for (most, reads, writes) in [(1, 198, 106), (3, 66, 36), (8_192, 1, 1)] {
        let told = failing_reads(&rt, rt.alloc(), most)?;
        let want = format!(in rt.alloc(); "{} {OWN_ANSWERS}", reads + 2)?;
        assert_eq!(rt; told.as_str(), want.as_str(), "reads of {most}");
        let told = failing_writes(&rt, rt.alloc(), most)?;
        let want = format!(in rt.alloc(); "{} {OWN_ANSWERS}", writes + 1)?;
        assert_eq!(rt; told.as_str(), want.as_str(), "writes of {most}");
    }
    Ok(())
}
