//! What no clause says: worked examples of the definitions, how often a source is read and a sink
//! written, and that calls succeed.
ghost use Rattle.std.specs.Prelude.{◌<◌};

use crate::program::own::own_source;
use cfg_program::run::run;
use cfg_types::{EnvText, OutOfMemory, Text};
use cfg_world::{
    DeviceLists, MemorySink, MemorySource, ReaderSource, ScriptDevices, Source, World,
};
use std::alloc::{AllocError, Global};
use std::io::Read;
use std::test::Fail;
use std::{io, str};

fn world(alloc: Global) -> Result<World<ScriptDevices>, OutOfMemory> {
    let devices = ScriptDevices::new(alloc, DeviceLists::empty(alloc))?;
    Ok(World::new(alloc, devices))
}

fn words_in(alloc: Global, given: &[&str]) -> Result<Vec<String>, AllocError> {
    let mut words = Vec::new(alloc);
    for word in given {
        words.push(String::from_str(alloc, word)?)?;
    }
    Ok(words)
}

// The variables that are handed in: keys of this machine.
fn variables(alloc: Global) -> Result<Vec<(String, EnvText)>, OutOfMemory> {
    let mut variables = Vec::new(alloc);
    let id = String::from_str(alloc, "AWS_ACCESS_KEY_ID")?;
    variables.push((id, EnvText::Text(Text::of(alloc, "L")?)))?;
    let secret = String::from_str(alloc, "AWS_SECRET_ACCESS_KEY")?;
    variables.push((secret, EnvText::Text(Text::of(alloc, "S")?)))?;
    Ok(variables)
}

// How a run over a source ends: its status, and what was written. Of the sink, which takes so many bytes
// a call, this call fails.
fn run_over<S: Source>(
    alloc: Global,
    words: &[&str],
    source: &mut S,
    most: usize,
    fails: u64,
) -> Result<String, OutOfMemory>
    requires { 0 < most }
{
    let words = words_in(alloc, words)?;
    let mut sink = MemorySink::new(alloc, Vec::from_slice(alloc, &[fails])?, most);
    let mut world = world(alloc)?;
    let variables = variables(alloc)?;
    let custom = vec![in alloc; own_source(alloc, "Own")?]?;
    let status = run(
        words.as_slice(),
        source,
        &mut sink,
        variables,
        &mut world,
        custom,
    );
    match str::from_utf8(sink.written()) {
        Ok(text) => Ok(format!(in alloc; "{status:?} {text}")?),
        Err(_) => Ok(format!(in alloc; "{status:?} not UTF-8")?),
    }
}

// How a run over these bytes ends, which come and go in pieces of so many. Of the source this call
// fails, and of the sink that: calls are counted from 1, and no call has the number 0.
fn run_in_pieces(
    alloc: Global,
    words: &[&str],
    input: &[u8],
    most: usize,
    source_fails: u64,
    sink_fails: u64,
) -> Result<String, OutOfMemory>
    requires { 0 < most }
{
    let input = Vec::from_slice(alloc, input)?;
    let failing = Vec::from_slice(alloc, &[source_fails])?;
    let mut source = MemorySource::new(input, failing, most);
    run_over(alloc, words, &mut source, most, sink_fails)
}

// A script of keys, and its line.
const KEYS: &str = r#"{"variables":[["AWS_ACCESS_KEY_ID","A"],["AWS_SECRET_ACCESS_KEY","S"]]}"#;

const LINE: &str = "credentials =A =EnvironmentVariable none -\n";

// The words, the input, and how the run ends with what it writes.
const WORDS: &[(&[&str], &str, &str)] = &[
    (
        &["resolve"],
        KEYS,
        "Done credentials =A =EnvironmentVariable none -\n",
    ),
    (
        &["resolve"],
        r#"{"profiles":[["default",[["role_arn","r"],["credential_source","OWN"]]]],"clock":[7],"replies":{"assume-role":[{"id":"%\u0000 \u007f\u00e9\ud83d\ude00~!","secret":"SA","token":"TA","expires":[-5,7]}]}}"#,
        "Done credentials =%25%00%20%7F%C3%A9%F0%9F%98%80~! =AssumeRoleProvider -5.000000007 now,assume-role\n",
    ),
    (&["resolve"], r#"{"bogus":1}"#, "NoScript "),
    (
        &["why"],
        r#"{"calls":2,"profiles":[["default",[["credential_process","x"]]]],"commands":[[3,"","a\nb\u009b\u202e%é"],[0,"{\"Version\":1,\"AccessKeyId\":\"P\",\"SecretAccessKey\":\"S\"}",""]]}"#,
        "Done error ProviderError run\n  provider error\n    the base gave no credentials\n  provider error\n  the command ended with status 3: a%0Ab%C2%9B%E2%80%AE%25é\n  asked\n    run x\ncredentials =P =CredentialProcess none run\n  Environment passed over: not loaded: environment variable not set (`AWS_ACCESS_KEY_ID` is not set, or blank)\n  Profile answered\n    run x\n",
    ),
    (
        &["cached"],
        r#"{"calls":4,"profiles":[["default",[["role_arn","r"],["role_session_name","s"],["credential_source","OWN"]]]],"clock":[5,1989,1990,1991],"replies":{"assume-role":[{"id":"KA","secret":"SA","token":"TA","expires":2000},"dispatch",{"id":"KB","secret":"SB","token":"TB","expires":5000}]}}"#,
        "Done credentials =KA =AssumeRoleProvider 2000.000000000 now,assume-role\ncredentials =KA =AssumeRoleProvider 2000.000000000 now\nerror ProviderError now,assume-role!\ncredentials =KB =AssumeRoleProvider 5000.000000000 now,assume-role\n",
    ),
    (&["cached"], r#"{"calls":0}"#, "NoScript "),
    (
        &["region"],
        r#"{"variables":[["AWS_REGION","a b"]]}"#,
        "Done region =a%20b -\n",
    ),
    (
        &["token"],
        r#"{"variables":[["HOME","/h"]],"profiles":[["default",[["sso_session","abc"]]]],"sessions":[["abc",[["sso_region","us-east-1"],["sso_start_url","u"]]]],"files":[["/h/.aws/sso/cache/a9993e364706816aba3e25717850c26c9cd0d89d.json","{\"accessToken\":\"t\",\"expiresAt\":\"1970-01-01T01:00:00Z\"}"]]}"#,
        "Done token 3600.000000000 now,read,now\n",
    ),
    (
        &["why-token"],
        "{}",
        "Refused error InvalidConfiguration -\n  invalid configuration\n  No profiles were defined\n    there are no profiles, or `default` is selected and is not there\n",
    ),
    (
        &["explain"],
        r#"{"profiles":[["default",[["role_arn","r"],["credential_source","OWN"]]]],"clock":[7],"replies":{"assume-role":[{"id":"KA","secret":"SA","token":"TA","expires":2000}]}}"#,
        "Done entry 1 now Profile\nentry 2 assume-role Profile\ncredentials =KA =AssumeRoleProvider 2000.000000000 now,assume-role\n",
    ),
    (
        &["explain"],
        r#"{"calls":2,"variables":[["AWS_ACCESS_KEY_ID","A"]]}"#,
        "NoScript ",
    ),
    (
        &["audit"],
        r#"{"profiles":[["default",[["role_arn","r"],["credential_source","OWN"]]]],"journal":[["now",7],["assume-role",{"id":"KA","secret":"SA","token":"TA","expires":2000}]]}"#,
        "Done audit yes credentials =KA =AssumeRoleProvider 2000.000000000 now,assume-role\n",
    ),
    (&["audit"], "{}", "Refused audit no 1 now\n"),
    (
        &["audit"],
        r#"{"refused":"bad","journal":[["jitter",18446744073709551615]]}"#,
        "Refused audit no 1 end\n",
    ),
    (
        &["audit"],
        r#"{"calls":1,"journal":[["now",7]]}"#,
        "NoScript ",
    ),
    (
        &["endpoint"],
        r#"{"mode":"metadata","role":"r","id":"I","secret":"S","token":"T","expires":5000,"calls":2,"forget_after":1}"#,
        "Done credentials =I =IMDSv2 5000.000000000 now,imds-token,now,imds-get,now,imds-get,now\ncredentials =I =IMDSv2 5000.000000000 now,imds-get,imds-get,imds-get,imds-get\n",
    ),
    (
        &["endpoint"],
        r#"{"mode":"container","id":"I","secret":"S","token":"T","expires":5000}"#,
        "Done credentials =I =EcsContainer 5000.000000000 http\n",
    ),
    (
        &["endpoint"],
        r#"{"mode":"metadata","role":"a\n","id":"I","secret":"S","token":"T","expires":5000}"#,
        "NoScript ",
    ),
    (
        &["local"],
        "",
        "Done credentials =L =EnvironmentVariable none -\n",
    ),
    (&["generate", "1000"], "", "Done generate 1000 999 =K999\n"),
    (&["generate", "1001"], KEYS, "UnknownCommand "),
    (&[], KEYS, "UnknownCommand "),
];

// Each word once, and a line that is one write: the sink's second call would fail.
#[test]
fn words(rt: HostRuntime) -> Result<(), Fail> {
    for (words, input, want) in WORDS {
        let told = run_in_pieces(rt.alloc(), words, input.as_bytes(), 100_000, 0, 2)?;
        assert_eq!(rt; told.as_str(), *want, "{words:?} {input}");
    }
    Ok(())
}

// So many bytes of white space, and what comes behind them.
fn behind_white_space(alloc: Global, length: usize, text: &str) -> Result<String, OutOfMemory> {
    let mut input = Vec::new(alloc);
    for _ in 0..length {
        input.push(b' ')?;
    }
    input.extend_from_slice(text.as_bytes())?;
    run_in_pieces(alloc, &["resolve"], input.as_slice(), 65_536, 0, 0)
}

#[test]
fn long_scripts(rt: HostRuntime) -> Result<(), Fail> {
    for (length, want) in [(70_000, "NoScript "), (1_048_576, "TooLong ")] {
        let told = behind_white_space(rt.alloc(), length, "{")?;
        assert_eq!(rt; told.as_str(), want, "{length}");
    }
    Ok(())
}

// The reads of each byte in turn, and of the end.
#[test]
fn a_source_that_fails_at_any_read(rt: HostRuntime) -> Result<(), Fail> {
    for at in 0..=KEYS.len() {
        let call = at as u64 + 1;
        let told = run_in_pieces(rt.alloc(), &["resolve"], KEYS.as_bytes(), 1, call, 0)?;
        assert_eq!(rt; told.as_str(), "SourceFault ", "{at}");
    }
    Ok(())
}

// The write of each byte in turn is the call of its number: no call writes nothing.
#[test]
fn a_sink_that_fails_has_a_prefix_of_the_line(rt: HostRuntime) -> Result<(), Fail> {
    for at in 0..LINE.len() {
        let call = at as u64 + 1;
        let told = run_in_pieces(rt.alloc(), &["resolve"], KEYS.as_bytes(), 1, 0, call)?;
        let prefix = LINE.get(..at).ok_or("no prefix")?;
        let want = format!(in rt.alloc(); "SinkFault {prefix}")?;
        assert_eq!(rt; told.as_str(), want.as_str());
    }
    Ok(())
}

// Two calls over metadata, of which the second fails, and their lines.
const METADATA: &str =
    r#"{"calls":2,"clock":[100],"replies":{"imds-token":[[200,[["x-aws-ec2-metadata-token-ttl-seconds","21600"]],"tok"]],"imds-get":[[200,[],"role"],[200,[],"{\"AccessKeyId\":\"MUA...\",\"SecretAccessKey\":\"S\",\"Token\":\"T\",\"Expiration\":\"2016-02-25T06:03:31Z\"}"],[500,[],""],[500,[],""],[500,[],""],[500,[],""]]}}"#;

const LINES: &str =
    "credentials =MUA... =IMDSv2 1456380211.000000000 now,imds-token,now,imds-get,now,imds-get,now\ncredentials =MUA... =IMDSv2 1456380211.000000000 now,imds-get,imds-get,imds-get,imds-get\n";

// The first call of the source whose failing does not end the run as it should, and how the run ends then.
fn failing_reads(alloc: Global, most: usize) -> Result<String, OutOfMemory>
    requires { 0 < most }
{
    for call in 1..=1_000 {
        let told = run_in_pieces(alloc, &["resolve"], METADATA.as_bytes(), most, call, 0)?;
        if told.as_str() != "SourceFault " {
            return Ok(format!(in alloc; "{call} {told}")?);
        }
    }
    Ok(String::from_str(alloc, "too many reads")?)
}

// The same of the sink, which then has a beginning of the lines.
fn failing_writes(alloc: Global, most: usize) -> Result<String, OutOfMemory>
    requires { 0 < most }
{
    for call in 1..=1_000 {
        let told = run_in_pieces(alloc, &["resolve"], METADATA.as_bytes(), most, 0, call)?;
        match told.as_str().strip_prefix("SinkFault ") {
            Some(written) if LINES.starts_with(written) => {}
            _ => return Ok(format!(in alloc; "{call} {told}")?),
        }
    }
    Ok(String::from_str(alloc, "too many writes")?)
}

// Each read fails in turn, and each write: the first call behind the last one changes nothing. The script has 314
// bytes, which come in so many pieces and then end; the lines have 183.
#[test]
fn each_read_and_each_write_may_fail(rt: HostRuntime) -> Result<(), Fail> {
    for (most, reads, writes) in [(1, 314, 183), (3, 105, 61), (8_192, 1, 1)] {
        let told = failing_reads(rt.alloc(), most)?;
        let want = format!(in rt.alloc(); "{} Done {LINES}", reads + 2)?;
        assert_eq!(rt; told.as_str(), want.as_str(), "reads of {most}");
        let told = failing_writes(rt.alloc(), most)?;
        let want = format!(in rt.alloc(); "{} Done {LINES}", writes + 1)?;
        assert_eq!(rt; told.as_str(), want.as_str(), "writes of {most}");
    }
    Ok(())
}

/// A reader that fails where it is read again after its end.
#[derive(Drop)]
struct EndsOnce {
    text: &'static [u8],
    ended: bool,
}

impl Read for EndsOnce {
    fn read(&mut self, into: &mut [u8]) -> io::Result<usize> {
        if self.ended {
            return Err(io::Error::from(io::ErrorKind::BrokenPipe));
        }
        let read = self.text.read(into)?;
        self.ended = read == 0;
        Ok(read)
    }
}

#[test]
fn a_source_is_not_read_after_its_end(rt: HostRuntime) -> Result<(), Fail> {
    let mut source = ReaderSource::new(EndsOnce {
        text: KEYS.as_bytes(),
        ended: false,
    });
    let told = run_over(rt.alloc(), &["resolve"], &mut source, 4096, 0)?;
    assert!(rt; told.as_str().starts_with("Done "));
    let mut buffer = [0; 1];
    assert!(rt; source.read(&mut buffer).is_err());
    Ok(())
}
