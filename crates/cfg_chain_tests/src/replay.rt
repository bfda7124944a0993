//! What no clause says: the chain over devices of which one call fails, each in turn, and over each
//! beginning of the receipts of a call.
use crate::setup::{Setup, followed, set_up};
use cfg_script::ScriptError;
use cfg_types::{OutOfMemory, Seq, TryCopy};
use cfg_world::{Answers, Entry, FaultDevices, Receipt, ScriptDevices, World};
use std::alloc::Global;
use std::test::Fail;

// One role over keys.
pub(crate) const ROLE: &str =
    r#"{"profiles":[["default",[["role_arn","r"],["source_profile","b"]]],["b",[["aws_access_key_id","K"],["aws_secret_access_key","S"]]]],"clock":[7],"replies":{"assume-role":[{"id":"KA","secret":"SA","token":"TA","expires":2000}]}}"#;

// Two roles over a process. The first one's session has the clock's name.
pub(crate) const PROCESS: &str =
    r#"{"profiles":[["default",[["role_arn","r"],["source_profile","b"],["role_session_name","s"]]],["b",[["role_arn","q"],["source_profile","c"]]],["c",[["credential_process","p"]]]],"clock":[7],"commands":[[0,"{\"Version\":1,\"AccessKeyId\":\"P\",\"SecretAccessKey\":\"S\"}",""]],"replies":{"assume-role":[{"id":"KB","secret":"SB","token":"TB","expires":1000},{"id":"KA","secret":"SA","token":"TA","expires":2000}]}}"#;

// A web identity of the environment.
pub(crate) const IDENTITY: &str =
    r#"{"variables":[["AWS_WEB_IDENTITY_TOKEN_FILE","/j"],["AWS_ROLE_ARN","r"]],"files":[["/j","jwt"]],"clock":[1],"replies":{"web-identity":[{"id":"W","secret":"SW","token":"TW","expires":900}]}}"#;

// A container with a token, whose third attempt has a document.
pub(crate) const CONTAINER: &str =
    r#"{"variables":[["AWS_CONTAINER_CREDENTIALS_FULL_URI","http://n/c"],["AWS_CONTAINER_AUTHORIZATION_TOKEN_FILE","/t"]],"files":[["/t","tok"]],"lookups":[["127.0.0.1"]],"replies":{"http":[[500,[],""],[200,[],"no document"],[200,[],"{\"AccessKeyId\":\"MUA\",\"SecretAccessKey\":\"S\",\"Token\":\"T\",\"Expiration\":\"2016-02-25T06:03:31Z\"}"]]}}"#;

// Metadata, with a session token that ends at once and a document that ended.
pub(crate) const METADATA: &str =
    r#"{"clock":[1456380211],"jitter":[7],"replies":{"imds-token":[[200,[["x-aws-ec2-metadata-token-ttl-seconds","0"]],"tok"],[200,[["x-aws-ec2-metadata-token-ttl-seconds","0"]],"tok"]],"imds-get":[[200,[],"role"],[200,[],"{\"AccessKeyId\":\"MUA\",\"SecretAccessKey\":\"S\",\"Token\":\"T\",\"Expiration\":\"2016-02-25T06:03:31Z\"}"]]}}"#;

// A session of IAM Identity Center, whose token is refreshed.
pub(crate) const SESSION: &str =
    r#"{"variables":[["HOME","/home/u"]],"profiles":[["default",[["sso_session","abc"],["sso_account_id","1"],["sso_role_name","r"]]]],"sessions":[["abc",[["sso_region","us-east-1"],["sso_start_url","u"]]]],"files":[["/home/u/.aws/sso/cache/a9993e364706816aba3e25717850c26c9cd0d89d.json","{\"accessToken\":\"t\",\"expiresAt\":\"1970-01-01T00:15:00Z\",\"clientId\":\"i\",\"clientSecret\":\"s\",\"refreshToken\":\"r\",\"registrationExpiresAt\":\"1970-01-02T00:00:00Z\"}"]],"clock":[700],"replies":{"create-token":[{"access":"t2","expires_in":3600}],"role-credentials":[{"id":"R","secret":"S","token":"T","expires_ms":5000000}]}}"#;

// A role over a sign-in session, whose token is refreshed.
pub(crate) const SIGN_IN: &str =
    r#"{"variables":[["AWS_LOGIN_CACHE_DIRECTORY","/c"]],"profiles":[["default",[["role_arn","r"],["source_profile","b"],["role_session_name","s"]]],["b",[["login_session","abc"]]]],"files":[["/c/ba7816bf8f01cfea414140de5dae2223b00361a396177a9cb410ff61f20015ad.json","{\"accessToken\":{\"accessKeyId\":\"AK\",\"secretAccessKey\":\"SK\",\"sessionToken\":\"ST\",\"accountId\":\"012345678901\",\"expiresAt\":\"1970-01-01T00:15:00Z\"},\"refreshToken\":\"rt\",\"clientId\":\"ci\",\"dpopKey\":\"dk\"}"]],"clock":[1000],"replies":{"sign-in":[{"id":"AK2","secret":"SK2","token":"ST2","refresh":"rt2","expires_in":900}],"assume-role":[{"id":"KA","secret":"SA","token":"TA","expires":2000}]}}"#;

// What a script's chain comes to where the call of the devices of this number fails, none for 0, after how
// many questions, and how many calls of the devices could fail.
fn with_fault(alloc: Global, setup: Setup, at: u64) -> Result<(String, u64), OutOfMemory> {
    let Setup { chain, devices } = setup;
    let mut world = World::new(alloc, FaultDevices::new(devices, at));
    let answer = followed(alloc, &chain, &mut world)?;
    let asked = world.journal().len();
    let devices = world.into_devices();
    let words = format!(in alloc; "{at}: {asked} {answer}\n")?;
    Ok((words, devices.calls()))
}

fn fault_of(alloc: Global, script: &str, at: u64) -> Result<(String, u64), ScriptError> {
    let setup = set_up(alloc, script)?;
    Ok(with_fault(alloc, setup, at)?)
}

// A line for each call of the devices that may fail.
fn faults_of(alloc: Global, script: &str) -> Result<String, ScriptError> {
    let (_, calls) = fault_of(alloc, script, 0)?;
    let mut lines = String::new(alloc);
    for at in 1..=calls {
        let (line, _) = fault_of(alloc, script, at)?;
        lines.push_str(line.as_str())?;
    }
    Ok(lines)
}

/// What a call over all of a script's devices comes to, and its journal.
pub(crate) fn whole_call(
    alloc: Global,
    setup: Setup,
    journal: &mut Vec<Entry>,
) -> Result<String, OutOfMemory> {
    let Setup { chain, devices } = setup;
    let mut world = World::new(alloc, devices);
    let answer = followed(alloc, &chain, &mut world)?;
    for entry in world.journal() {
        journal.push(entry.copy(alloc)?)?;
    }
    Ok(answer)
}

/// The receipts of these entries, which a world that answers alike gives.
pub(crate) fn receipts(
    alloc: Global,
    entries: &[Entry],
    devices: ScriptDevices,
) -> Result<Seq<Receipt>, OutOfMemory> {
    let mut world = World::new(alloc, devices);
    let mut receipts = Seq::of(Vec::new(alloc));
    for entry in entries {
        let question = entry.question().copy(alloc)?;
        receipts.push(world.ask(question)?)?;
    }
    Ok(receipts)
}

// What a script's chain comes to over the receipts of these entries, and the question that stays open.
fn over_receipts(alloc: Global, setup: Setup, entries: &[Entry]) -> Result<String, OutOfMemory> {
    let Setup { chain, devices } = setup;
    let mut answers = Answers::new(receipts(alloc, entries, devices)?);
    let answer = followed(alloc, &chain, &mut answers)?;
    let open = answers.question();
    Ok(format!(in alloc; "{answer} {open:?}")?)
}

fn beginning(alloc: Global, script: &str, entries: &[Entry]) -> Result<String, ScriptError> {
    let setup = set_up(alloc, script)?;
    Ok(over_receipts(alloc, setup, entries)?)
}

// What the same comes to by the whole journal: the next question stays open, or none behind the last.
fn by_journal(
    alloc: Global,
    answer: &str,
    journal: &[Entry],
    count: usize,
) -> Result<String, OutOfMemory> {
    match journal.get(count) {
        Some(entry) => {
            let question = entry.question();
            Ok(format!(in alloc; "Open Some({question:?})")?)
        }
        None => Ok(format!(in alloc; "{answer} None")?),
    }
}

// How many questions of a call were answered, where behind each beginning of its receipts the next one is
// open and all of them give the call's answer. Otherwise the first beginning that comes to something else.
fn beginnings(
    alloc: Global,
    script: &str,
    answer: &str,
    journal: &[Entry],
) -> Result<String, ScriptError> {
    let asked = journal.len();
    for count in 0..=asked {
        let entries = journal.get(..count).unwrap_or(journal);
        let got = beginning(alloc, script, entries)?;
        let want = by_journal(alloc, answer, journal, count)?;
        if got != want {
            return Ok(format!(in alloc; "behind {count} of {asked}: {got} in place of {want}")?);
        }
    }
    Ok(format!(in alloc; "{asked} answered")?)
}

fn beginnings_of(alloc: Global, script: &str) -> Result<String, ScriptError> {
    let mut journal = Vec::new(alloc);
    let setup = set_up(alloc, script)?;
    let answer = whole_call(alloc, setup, &mut journal)?;
    beginnings(alloc, script, answer.as_str(), journal.as_slice())
}

// The script, and for each call of its devices that may fail, how many questions are asked then and what comes of it.
const FAILING_CALLS: &[(&str, &str)] = &[
    (
        ROLE,
        r#"1: 2 ProviderError(Role(ProviderError(Sent(Dispatch))))
"#,
    ),
    (
        PROCESS,
        r#"1: 1 ProviderError(Base(ProviderError(Process(NotRun))))
2: 3 ProviderError(Role(ProviderError(Sent(Dispatch))))
3: 4 ProviderError(Role(ProviderError(Sent(Dispatch))))
"#,
    ),
    (
        IDENTITY,
        r#"1: 2 ProviderError(File("/j"))
2: 3 ProviderError(Sent(Dispatch))
"#,
    ),
    (
        CONTAINER,
        r#"1: 1 ProviderError(File("/t"))
2: 2 InvalidConfiguration(FullUri(http://n/c: failed to perform DNS lookup while validating URI))
3: 5 Unhandled(NoDocument(JsonError(NotObject)))
4: 5 Unhandled(NoDocument(JsonError(NotObject)))
5: 5 Unhandled(Sent(Dispatch))
"#,
    ),
    (
        METADATA,
        r#"1: 3 CredentialsNotLoaded(Chain(ProviderChainError { attempts: [ProviderAttempt { name: "Environment", error: CredentialsNotLoaded(NotSet("AWS_ACCESS_KEY_ID")) }, ProviderAttempt { name: "Profile", error: CredentialsNotLoaded(Profile(NoProfilesDefined)) }, ProviderAttempt { name: "WebIdentityToken", error: CredentialsNotLoaded(NotSet("AWS_WEB_IDENTITY_TOKEN_FILE")) }, ProviderAttempt { name: "EcsContainer", error: CredentialsNotLoaded(NotConfigured) }, ProviderAttempt { name: "Ec2InstanceMetadata", error: CredentialsNotLoaded(MetadataUnreachable) }] }))
2: 4 ProviderError(Metadata(Unexpected(Dispatch)))
3: 7 ProviderError(Metadata(FailedToLoadToken(Sent(Dispatch))))
4: 8 ProviderError(Metadata(Unexpected(Dispatch)))
"#,
    ),
    (
        SESSION,
        r#"1: 2 ProviderError(Base(ProviderError(SsoToken(FailedToLoadToken(IoError { what: Read, path: "/home/u/.aws/sso/cache/a9993e364706816aba3e25717850c26c9cd0d89d.json" })))))
2: 5 Credentials { provider_name: "SSO", access_key_id: "R", secret_access_key: "** redacted **", expires_after: 5000 s 0 ns, account_id: "1" } S Some("T") [CredentialsSso, CredentialsProfile]
3: 5 ProviderError(Base(ProviderError(SsoToken(FailedToLoadToken(IoError { what: Write, path: "/home/u/.aws/sso/cache/a9993e364706816aba3e25717850c26c9cd0d89d.json" })))))
4: 6 ProviderError(Base(ProviderError(Sent(Dispatch))))
"#,
    ),
    (
        SIGN_IN,
        r#"1: 2 ProviderError(Base(Unhandled(LoginToken(IoError { what: Read, path: "/c/ba7816bf8f01cfea414140de5dae2223b00361a396177a9cb410ff61f20015ad.json" }))))
2: 4 ProviderError(Base(ProviderError(LoginToken(RefreshFailed { message: None }))))
3: 6 Credentials { provider_name: "AssumeRoleProvider", access_key_id: "KA", secret_access_key: "** redacted **", expires_after: 2000 s 0 ns } SA Some("TA") [CredentialsProfile]
4: 6 ProviderError(Role(ProviderError(Sent(Dispatch))))
"#,
    ),
];

#[test]
fn each_call_of_the_devices_may_fail(rt: HostRuntime) -> Result<(), Fail> {
    for (script, want) in FAILING_CALLS {
        let lines = faults_of(rt.alloc(), script)?;
        assert_eq!(rt; lines.as_str(), *want, "{script}");
    }
    Ok(())
}

#[test]
fn the_question_behind_a_beginning_is_open(rt: HostRuntime) -> Result<(), Fail> {
    let table: &[(&str, &str)] = &[
        (ROLE, "2 answered"),
        (PROCESS, "4 answered"),
        (IDENTITY, "3 answered"),
        (CONTAINER, "5 answered"),
        (METADATA, "10 answered"),
        (SESSION, "6 answered"),
        (SIGN_IN, "6 answered"),
    ];
    for (script, want) in table {
        let words = beginnings_of(rt.alloc(), script)?;
        assert_eq!(rt; words.as_str(), *want, "{script}");
    }
    Ok(())
}
