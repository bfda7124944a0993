//! Calls on one `Kept`: what they answer, how much they ask and find kept, and what stands in for a call
//! that is interrupted then.
use crate::replay::{SESSION, SIGN_IN};
use crate::setup::{Setup, answer_words, called, called_shared, set_up};
use cfg_chain::DefaultCredentialsChain;
use cfg_imds::Client;
use cfg_kept::{Keeper, Kept, Place, SharedKept};
use cfg_script::ScriptError;
use cfg_token::{FileToken, TokenState};
use cfg_types::OutOfMemory;
use cfg_world::{ScriptDevices, World};
use std::alloc::{AllocError, Global};
use std::fmt;
use std::sync::Wait;
use std::test::Fail;

// The token, the last attempt and how many loads there were.
fn token_words<T: FileToken + fmt::Debug>(
    alloc: Global,
    state: Option<&TokenState<T>>,
) -> Result<String, AllocError> {
    let Some(state) = state else {
        return String::from_str(alloc, "-");
    };
    let token = state.kept();
    let last = state.last_attempt();
    let loads = state.records().len();
    format!(in alloc; "{token:?} {last:?} {loads}")
}

fn retrieved_words(alloc: Global, kept: &Kept, place: Place) -> Result<String, AllocError> {
    match kept.retrieved_for(place) {
        None => String::from_str(alloc, "-"),
        Some(retrieved) => {
            let credentials = retrieved.credentials();
            format!(in alloc; "{credentials:?}")
        }
    }
}

/// What is kept, as far as it can be seen.
pub(crate) fn kept_words(alloc: Global, kept: &Kept) -> Result<String, AllocError> {
    let session = token_words(alloc, kept.sso_state())?;
    let sign_in = token_words(alloc, kept.login_state())?;
    let chain = retrieved_words(alloc, kept, Place::Chain)?;
    let named = retrieved_words(alloc, kept, Place::Named)?;
    let found = kept.found().len();
    format!(in alloc; "{session}; {sign_in}; {chain}; {named}; {found}")
}

fn call_words(
    alloc: Global,
    chain: &DefaultCredentialsChain,
    kept: &mut Kept,
    world: &mut World<ScriptDevices>,
) -> Result<String, OutOfMemory> {
    world.clear_journal();
    let answer = match called(chain, kept, world) {
        Some(outcome) => answer_words(alloc, &outcome.answer)?,
        None => String::from_str(alloc, "another key")?,
    };
    let asked = world.journal().len();
    let found = kept.found().len();
    let fallback = chain.fallback_on_interrupt(kept)?;
    Ok(format!(in alloc; "{answer} {asked} {found} {fallback:?}\n")?)
}

// How many loads of the chain's token are on record.
fn loads_of(kept: &Kept) -> usize {
    let session = kept.sso_state().map(|state| state.records().len());
    let sign_in = kept.login_state().map(|state| state.records().len());
    session.or(sign_in).unwrap_or(0)
}

// Two calls, a line each, and how many loads are on record then.
fn calls_by(
    alloc: Global,
    setup: Setup,
    imds_client: Option<Client>,
) -> Result<String, OutOfMemory> {
    let Setup { mut chain, devices } = setup;
    chain.imds_client = imds_client;
    let mut world = World::new(alloc, devices);
    let mut kept = chain.new_kept()?;
    let first = call_words(alloc, &chain, &mut kept, &mut world)?;
    let second = call_words(alloc, &chain, &mut kept, &mut world)?;
    Ok(format!(in alloc; "{first}{second}loads {}", loads_of(&kept))?)
}

// The same over kept states that are shared.
fn shared_call_words<R: Wait>(
    rt: &R,
    alloc: Global,
    chain: &DefaultCredentialsChain,
    kept: &SharedKept,
    world: &mut World<ScriptDevices>,
) -> Result<String, OutOfMemory> {
    world.clear_journal();
    let (answer, found) = match called_shared(rt, chain, kept, world) {
        Some(answered) => {
            let words = answer_words(alloc, &answered.outcome)?;
            (words, answered.found.as_slice().len())
        }
        None => (String::from_str(alloc, "another key")?, 0),
    };
    let asked = world.journal().len();
    let fallback = chain.fallback_on_interrupt_shared(rt, kept)?.credentials;
    Ok(format!(in alloc; "{answer} {asked} {found} {fallback:?}\n")?)
}

// Two calls over kept states that are shared, whose records are given up between them, and what comes back of them.
fn shared_calls_by<R: Wait>(
    rt: &R,
    alloc: Global,
    setup: Setup,
    imds_client: Option<Client>,
) -> Result<String, OutOfMemory> {
    let Setup { mut chain, devices } = setup;
    chain.imds_client = imds_client;
    let mut world = World::new(alloc, devices);
    let shared = SharedKept::new(chain.new_kept()?);
    let first = shared_call_words(rt, alloc, &chain, &shared, &mut world)?;
    shared.trim(rt);
    let second = shared_call_words(rt, alloc, &chain, &shared, &mut world)?;
    let kept = shared.into_kept();
    let fits = kept.fits(chain.token_key());
    let found = kept.found().len();
    let loads = loads_of(&kept);
    Ok(format!(in alloc; "{first}{second}{fits} {found} loads {loads}")?)
}

// A client of this endpoint, none for an empty text. No client for what is no address.
fn client_at(alloc: Global, endpoint: &str) -> Result<Option<Client>, OutOfMemory> {
    if endpoint.is_empty() {
        return Ok(None);
    }
    match Client::builder(alloc)?.endpoint(endpoint) {
        Ok(builder) => Ok(Some(builder.build()?)),
        Err(_) => Ok(None),
    }
}

// Two calls over a script, a line each, of a chain with a client of this endpoint.
fn calls_of(alloc: Global, endpoint: &str, script: &str) -> Result<String, ScriptError> {
    let client = client_at(alloc, endpoint)?;
    let setup = set_up(alloc, script)?;
    Ok(calls_by(alloc, setup, client)?)
}

// The same over kept states that are shared.
fn shared_calls_of<R: Wait>(
    rt: &R,
    alloc: Global,
    endpoint: &str,
    script: &str,
) -> Result<String, ScriptError> {
    let client = client_at(alloc, endpoint)?;
    let setup = set_up(alloc, script)?;
    Ok(shared_calls_by(rt, alloc, setup, client)?)
}

#[test]
fn two_calls(rt: HostRuntime) -> Result<(), Fail> {
    let table: &[(&str, &str, &str, usize, usize)] = &[
        // Metadata, and then a refusal.
        (
            "http://lent",
            r#"{"variables":[["AWS_EC2_METADATA_SERVICE_ENDPOINT","no host"]],"clock":[100],"replies":{"imds-token":[[200,[["x-aws-ec2-metadata-token-ttl-seconds","21600"]],"tok"]],"imds-get":[[200,[],"role"],[200,[],"{\"AccessKeyId\":\"M\",\"SecretAccessKey\":\"S\",\"Token\":\"T\",\"Expiration\":\"2016-02-25T06:03:31Z\"}"],[404,[],""]]}}"#,
            "Credentials { provider_name: \"IMDSv2\", access_key_id: \"M\", secret_access_key: \"** redacted **\", expires_after: 1456380211 s 0 ns } S Some(\"T\") [CredentialsImds] 7 2 Some(Credentials { provider_name: \"IMDSv2\", access_key_id: \"M\", secret_access_key: \"** redacted **\", expires_after: 1456380211 s 0 ns })\nCredentials { provider_name: \"IMDSv2\", access_key_id: \"M\", secret_access_key: \"** redacted **\", expires_after: 1456380211 s 0 ns } S Some(\"T\") [] 2 2 Some(Credentials { provider_name: \"IMDSv2\", access_key_id: \"M\", secret_access_key: \"** redacted **\", expires_after: 1456380211 s 0 ns })\n",
            0,
            0,
        ),
        // A session of IAM Identity Center, whose token is refreshed.
        (
            "",
            r#"{"variables":[["HOME","/home/u"]],"profiles":[["default",[["sso_session","abc"],["sso_account_id","1"],["sso_role_name","r"]]]],"sessions":[["abc",[["sso_region","us-east-1"],["sso_start_url","u"]]]],"files":[["/home/u/.aws/sso/cache/a9993e364706816aba3e25717850c26c9cd0d89d.json","{\"accessToken\":\"t\",\"expiresAt\":\"1970-01-01T00:15:00Z\",\"clientId\":\"i\",\"clientSecret\":\"s\",\"refreshToken\":\"r\",\"registrationExpiresAt\":\"1970-01-02T00:00:00Z\"}"]],"clock":[700],"replies":{"create-token":[{"access":"t2","expires_in":3600}],"role-credentials":[{"id":"R","secret":"S","token":"T","expires_ms":5000000},"dispatch"]}}"#,
            "Credentials { provider_name: \"SSO\", access_key_id: \"R\", secret_access_key: \"** redacted **\", expires_after: 5000 s 0 ns, account_id: \"1\" } S Some(\"T\") [CredentialsSso, CredentialsProfile] 6 1 None\nProviderError(Base(ProviderError(Sent(Dispatch)))) 2 1 None\n",
            1,
            0,
        ),
        // A sign-in session, whose refresh is granted at the second call, half a minute after a failed one.
        (
            "",
            r#"{"variables":[["AWS_LOGIN_CACHE_DIRECTORY","/c"]],"profiles":[["default",[["login_session","abc"]]]],"files":[["/c/ba7816bf8f01cfea414140de5dae2223b00361a396177a9cb410ff61f20015ad.json","{\"accessToken\":{\"accessKeyId\":\"AK\",\"secretAccessKey\":\"SK\",\"sessionToken\":\"ST\",\"accountId\":\"012345678901\",\"expiresAt\":\"1970-01-01T00:15:00Z\"},\"refreshToken\":\"rt\",\"clientId\":\"ci\",\"dpopKey\":\"dk\"}"]],"clock":[1000,1000,1030],"replies":{"sign-in":["dispatch",{"id":"AK2","secret":"SK2","token":"ST2","refresh":"rt2","expires_in":900}]}}"#,
            "ProviderError(Base(ProviderError(LoginToken(RefreshFailed { message: None })))) 4 1 None\nCredentials { provider_name: \"Login\", access_key_id: \"AK2\", secret_access_key: \"** redacted **\", expires_after: 1930 s 0 ns, account_id: \"012345678901\" } SK2 Some(\"ST2\") [CredentialsProfileLogin, CredentialsProfile] 5 1 None\n",
            2,
            1,
        ),
    ];
    for (endpoint, script, calls, loads, last_loads) in table {
        let words = calls_of(rt.alloc(), endpoint, script)?;
        let want = format!(in rt.alloc(); "{calls}loads {loads}")?;
        assert_eq!(rt; words.as_str(), want.as_str(), "{script}");
        let shared = shared_calls_of(&rt, rt.alloc(), endpoint, script)?;
        let want = format!(in rt.alloc(); "{calls}true 0 loads {last_loads}")?;
        assert_eq!(rt; shared.as_str(), want.as_str(), "shared {script}");
    }
    Ok(())
}

// A call of a chain that metadata answers, and then one of a chain for which it is switched off, on the same kept
// values.
fn switched_off(alloc: Global, on: &str, off: &str) -> Result<String, ScriptError> {
    let Setup { chain, devices } = set_up(alloc, on)?;
    let mut world = World::new(alloc, devices);
    let mut kept = chain.new_kept()?;
    let answered = call_words(alloc, &chain, &mut kept, &mut world)?;
    let Setup { chain, devices } = set_up(alloc, off)?;
    let mut world = World::new(alloc, devices);
    let later = call_words(alloc, &chain, &mut kept, &mut world)?;
    Ok(format!(in alloc; "{answered}{later}")?)
}

#[test]
fn two_chains_on_one_kept(rt: HostRuntime) -> Result<(), Fail> {
    let on =
        r#"{"clock":[100],"replies":{"imds-token":[[200,[["x-aws-ec2-metadata-token-ttl-seconds","21600"]],"tok"]],"imds-get":[[200,[],"role"],[200,[],"{\"AccessKeyId\":\"M\",\"SecretAccessKey\":\"S\",\"Token\":\"T\",\"Expiration\":\"2016-02-25T06:03:31Z\"}"]]}}"#;
    let off = r#"{"variables":[["AWS_EC2_METADATA_DISABLED","true"]]}"#;
    let words = switched_off(rt.alloc(), on, off)?;
    let want =
        "Credentials { provider_name: \"IMDSv2\", access_key_id: \"M\", secret_access_key: \"** redacted **\", expires_after: 1456380211 s 0 ns } S Some(\"T\") [CredentialsImds] 7 2 Some(Credentials { provider_name: \"IMDSv2\", access_key_id: \"M\", secret_access_key: \"** redacted **\", expires_after: 1456380211 s 0 ns })\nCredentials { provider_name: \"IMDSv2\", access_key_id: \"M\", secret_access_key: \"** redacted **\", expires_after: 1456380211 s 0 ns } S Some(\"T\") [] 0 1 Some(Credentials { provider_name: \"IMDSv2\", access_key_id: \"M\", secret_access_key: \"** redacted **\", expires_after: 1456380211 s 0 ns })\n";
    assert_eq!(rt; words.as_str(), want);
    Ok(())
}

/// Metadata, and a session token that is kept.
pub(crate) const TOKEN: &str =
    r#"{"clock":[100],"replies":{"imds-token":[[200,[["x-aws-ec2-metadata-token-ttl-seconds","21600"]],"tok"]],"imds-get":[[200,[],"role"],[200,[],"{\"AccessKeyId\":\"M\",\"SecretAccessKey\":\"S\",\"Token\":\"T\",\"Expiration\":\"2016-02-25T06:03:31Z\"}"]]}}"#;

// The same for a source that a profile names.
const NAMED: &str =
    r#"{"profiles":[["default",[["role_arn","r"],["credential_source","Ec2InstanceMetadata"],["role_session_name","s"]]]],"clock":[100],"replies":{"imds-token":[[200,[["x-aws-ec2-metadata-token-ttl-seconds","21600"]],"tok"]],"imds-get":[[200,[],"role"],[200,[],"{\"AccessKeyId\":\"M\",\"SecretAccessKey\":\"S\",\"Token\":\"T\",\"Expiration\":\"2016-02-25T06:03:31Z\"}"]],"assume-role":[{"id":"KA","secret":"SA","token":"TA","expires":2000}]}}"#;

// What comes back of kept states that were shared for a call, the records of loads given up.
fn returned_by<R: Wait>(rt: &R, alloc: Global, setup: Setup) -> Result<String, OutOfMemory> {
    let Setup { chain, devices } = setup;
    let mut world = World::new(alloc, devices);
    let shared = SharedKept::new(chain.new_kept()?);
    let _call = shared_call_words(rt, alloc, &chain, &shared, &mut world)?;
    shared.trim(rt);
    let kept = shared.into_kept();
    Ok(kept_words(alloc, &kept)?)
}

fn returned<R: Wait>(rt: &R, alloc: Global, script: &str) -> Result<String, ScriptError> {
    let setup = set_up(alloc, script)?;
    Ok(returned_by(rt, alloc, setup)?)
}

#[test]
fn shared_states_come_back(rt: HostRuntime) -> Result<(), Fail> {
    let retrieved =
        r#"Credentials { provider_name: "IMDSv2", access_key_id: "M", secret_access_key: "** redacted **", expires_after: 1456380211 s 0 ns }"#;
    let of_chain = format!(in rt.alloc(); "-; -; {retrieved}; -; 0")?;
    let of_named = format!(in rt.alloc(); "-; -; -; {retrieved}; 0")?;
    let table: &[(&str, &str)] = &[
        (
            SESSION,
            r#"Some(CachedSsoToken { secrets: "** redacted **", expires_at: 4300 s 0 ns }) Some(Instant { seconds: 700, nanos: 0 }) 0; -; -; -; 0"#,
        ),
        (
            SIGN_IN,
            r#"-; Some(LoginToken { access_token: Credentials { provider_name: "Login", access_key_id: "AK2", secret_access_key: "** redacted **", expires_after: 1900 s 0 ns, account_id: "012345678901" }, secrets: "** redacted **" }) Some(Instant { seconds: 1000, nanos: 0 }) 0; -; -; 0"#,
        ),
        (TOKEN, of_chain.as_str()),
        (NAMED, of_named.as_str()),
    ];
    for (script, want) in table {
        let words = returned(&rt, rt.alloc(), script)?;
        assert_eq!(rt; words.as_str(), *want, "{script}");
    }
    Ok(())
}
