//! Credentials and bearer tokens of IAM Identity Center over scripts: what a call answers, and how much it
//! asks.
ghost use Rattle.cfg_script.specs.Devices.{lists_of};
ghost use Rattle.cfg_script.specs.Script.{plain};
ghost use Rattle.cfg_world.specs.Script.{AllFit};

use crate::outcome::answer_words;
use cfg_kept::Kept;
use cfg_profile::ProviderConfig;
use cfg_script::{Script, read_script};
use cfg_sso::sso::credentials::Builder;
use cfg_sso::{SsoCredentialsProvider, SsoTokenProvider};
use cfg_types::{Env, OutOfMemory, Outcome, Region, Text, TryCopy};
use cfg_world::{DeviceLists, ScriptDevices, World};
use std::alloc::Global;
use std::test::Fail;

// For the role `r` of the account `1`, by the start URL `abc` and, where it is wanted, by a session.
fn builder_of(
    alloc: Global,
    is_session: bool,
    config: &ProviderConfig,
) -> Result<Builder, OutOfMemory> {
    let region = Region::new(alloc, "us-east-1")?;
    let builder = SsoCredentialsProvider::builder(alloc)?.configure(config)?;
    let builder = builder.account_id("1")?.role_name("r")?.region(region);
    let builder = builder.start_url("abc")?;
    if is_session {
        return builder.session_name("abc");
    }
    Ok(builder)
}

fn credentials(
    alloc: Global,
    is_session: bool,
    config: &ProviderConfig,
    world: &mut World<ScriptDevices>,
) -> Result<String, OutOfMemory> {
    let builder = builder_of(alloc, is_session, config)?;
    if !builder.is_complete() {
        return Ok(String::from_str(alloc, "not complete")?);
    }
    let provider = builder.build()?;
    let key = match provider.token_key() {
        Some(key) => Some(key.copy(alloc)?),
        None => None,
    };
    let mut kept = Kept::new(alloc, key);
    let outcome = Outcome {
        answer: provider.provide_credentials(&mut kept, world),
    };
    answer_words(alloc, &outcome)
}

fn bearer_token(
    alloc: Global,
    config: &ProviderConfig,
    world: &mut World<ScriptDevices>,
) -> Result<String, OutOfMemory> {
    let region = Region::new(alloc, "us-east-1")?;
    let builder = SsoTokenProvider::builder(alloc)?.configure(config)?;
    let builder = builder.region(region).session_name("abc")?.start_url("u")?;
    if !builder.is_complete() {
        return Ok(String::from_str(alloc, "not complete")?);
    }
    let provider = builder.build()?;
    let key = match provider.token_key() {
        Some(key) => Some(key.copy(alloc)?),
        None => None,
    };
    let mut kept = Kept::new(alloc, key);
    let outcome = Outcome {
        answer: provider.provide_token(&mut kept, world),
    };
    match &outcome.answer {
        Ok(token) => {
            let text = token.token();
            Ok(format!(in alloc; "{text} {token:?}")?)
        }
        Err(error) => Ok(format!(in alloc; "{error:?}")?),
    }
}

fn words_by(
    alloc: Global,
    kind: &str,
    config: &ProviderConfig,
    lists: DeviceLists,
) -> Result<String, OutOfMemory>
    requires { AllFit lists }
{
    let devices = ScriptDevices::new(alloc, lists)?;
    let mut world = World::new(alloc, devices);
    let answer = match kind {
        "session" => credentials(alloc, true, config, &mut world)?,
        "start URL" => credentials(alloc, false, config, &mut world)?,
        _ => bearer_token(alloc, config, &mut world)?,
    };
    let asked = world.journal().len();
    Ok(format!(in alloc; "{answer} {asked}")?)
}

fn words_over(alloc: Global, kind: &str, script: Script) -> Result<String, OutOfMemory>
    requires { AllFit (lists_of (plain script)) }
{
    let env = Env::new(alloc, script.variables)?;
    let config = ProviderConfig::empty(alloc)?.with_env(env);
    words_by(alloc, kind, &config, script.devices)
}

// Whether a builder is complete: with all four settings, and without the start URL.
fn completeness(alloc: Global) -> Result<(bool, bool), OutOfMemory> {
    let mut builder = SsoCredentialsProvider::builder(alloc)?;
    builder.set_account_id(Some(Text::of(alloc, "1")?));
    builder.set_region(Some(Region::new(alloc, "us-east-1")?));
    builder.set_role_name(Some(Text::of(alloc, "r")?));
    builder.set_start_url(Some(Text::of(alloc, "abc")?));
    let with_all = builder.is_complete();
    builder.set_start_url(None);
    Ok((with_all, builder.is_complete()))
}

#[test]
fn a_start_url_completes_a_builder(rt: HostRuntime) -> Result<(), Fail> {
    let (with_all, without_url) = completeness(rt.alloc())?;
    assert!(rt; with_all);
    assert!(rt; !without_url);
    Ok(())
}

#[test]
fn calls(rt: HostRuntime) -> Result<(), Fail> {
    let table: &[(&str, &str, &str)] = &[
        (
            "session",
            r#"{"variables":[["HOME","/home/u"]],"clock":[1000,1000],"files":[["/home/u/.aws/sso/cache/a9993e364706816aba3e25717850c26c9cd0d89d.json","{\"accessToken\":\"t\",\"expiresAt\":\"1970-01-01T00:15:00Z\",\"clientId\":\"ci\",\"clientSecret\":\"cs\",\"refreshToken\":\"rt\",\"registrationExpiresAt\":\"1970-01-02T00:00:00Z\"}"]],"replies":{"create-token":[{"access":"t2","expires_in":3600}],"role-credentials":[{"id":"R1","secret":"S1","token":"T1","expires_ms":-1500}]}}"#,
            r#"Credentials { provider_name: "SSO", access_key_id: "R1", secret_access_key: "** redacted **", expires_after: -2 s 500000000 ns, account_id: "1" } S1 Some("T1") [CredentialsSso] 6"#,
        ),
        (
            "session",
            r#"{"variables":[["HOME","/home/u"]],"clock":[3600,3600],"files":[["/home/u/.aws/sso/cache/a9993e364706816aba3e25717850c26c9cd0d89d.json","{\"accessToken\":\"t\",\"expiresAt\":\"1970-01-01T01:00:00Z\"}"]]}"#,
            "ProviderError(SsoToken(ExpiredToken)) 3",
        ),
        (
            "start URL",
            r#"{"variables":[["HOME","/home/u"]],"files":[["/home/u/.aws/sso/cache/a9993e364706816aba3e25717850c26c9cd0d89d.json","{\"accessToken\":\"t\",\"expiresAt\":\"1970-01-01T00:00:01Z\"}"]],"replies":{"role-credentials":[{"id":"R1","secret":"S1","expires_ms":9223372036854775807}]}}"#,
            r#"Credentials { provider_name: "SSO", access_key_id: "R1", secret_access_key: "** redacted **", expires_after: 9223372036854775 s 807000000 ns, account_id: "1" } S1 None [CredentialsSso] 3"#,
        ),
        (
            "start URL",
            r#"{"variables":[["HOME","/home/u"]],"files":[["/home/u/.aws/sso/cache/a9993e364706816aba3e25717850c26c9cd0d89d.json","{\"accessToken\":\"t\",\"expiresAt\":\"1970-01-01T00:00:00Z\"}"]]}"#,
            "ProviderError(SsoToken(ExpiredToken)) 2",
        ),
        (
            "bearer token",
            r#"{"variables":[["HOME","/home/u"]],"clock":[1000,1000],"files":[["/home/u/.aws/sso/cache/a9993e364706816aba3e25717850c26c9cd0d89d.json","{\"accessToken\":\"t\",\"expiresAt\":\"1970-01-01T00:15:00Z\",\"clientId\":\"ci\",\"clientSecret\":\"cs\",\"refreshToken\":\"rt\",\"registrationExpiresAt\":\"1970-01-02T00:00:00Z\"}"]],"replies":{"create-token":[{"access":"t2","expires_in":3600}]}}"#,
            r#"t2 Token { token: "** redacted **", expires_after: 4600 s 0 ns } 5"#,
        ),
    ];
    for (kind, text, want) in table {
        let script = read_script(rt.alloc(), text.as_bytes())?;
        let words = words_over(rt.alloc(), kind, script)?;
        assert_eq!(rt; words.as_str(), *want, "{text}");
    }
    Ok(())
}
