//! Each provider over a script: what it answers, and what it asks.
ghost use Rattle.cfg_script.specs.Devices.{lists_of};
ghost use Rattle.cfg_script.specs.Script.{plain};
ghost use Rattle.cfg_world.specs.Script.{AllFit};

use crate::outcome::{CredentialsOutcome, answer_words};
use cfg_profile::{ProviderConfig, RoleArn, call_settings};
use cfg_providers::{
    CredentialProcessProvider, EcsCredentialsProvider, EnvironmentVariableCredentialsProvider,
    StaticConfiguration, WebIdentityTokenCredentialsProvider, assume_roles,
};
use cfg_script::{Script, read_script};
use cfg_types::{AccountId, CredentialsBuilder, Env, OutOfMemory, Outcome, Text, TryCopy};
use cfg_world::{DeviceLists, ScriptDevices, World};
use std::alloc::Global;
use std::test::Fail;

fn environment(
    alloc: Global,
    env: &Env,
    world: &mut World<ScriptDevices>,
) -> Result<CredentialsOutcome, OutOfMemory> {
    let env = env.copy(alloc)?;
    let provider = EnvironmentVariableCredentialsProvider::new(alloc, env).copy(alloc)?;
    let answer = provider.provide_credentials(world);
    Ok(Outcome { answer })
}

fn process(
    alloc: Global,
    world: &mut World<ScriptDevices>,
) -> Result<CredentialsOutcome, OutOfMemory> {
    let account = AccountId::new(alloc, "7")?;
    let provider = CredentialProcessProvider::new(alloc, "/opt/creds --user helen")?;
    let answer = provider.with_account_id(account).provide_credentials(world);
    Ok(Outcome { answer })
}

fn container(
    alloc: Global,
    config: &ProviderConfig,
    world: &mut World<ScriptDevices>,
) -> Result<CredentialsOutcome, OutOfMemory> {
    let builder = EcsCredentialsProvider::builder(alloc)?
        .configure(config)?
        .dns(true);
    let provider = builder.connect_timeout(7).read_timeout(9).build()?;
    let answer = provider.provide_credentials(world);
    Ok(Outcome { answer })
}

// The same in two steps: where the variables say that the credentials are, and then what is asked.
fn named_container(
    alloc: Global,
    config: &ProviderConfig,
    world: &mut World<ScriptDevices>,
) -> Result<CredentialsOutcome, OutOfMemory> {
    let builder = EcsCredentialsProvider::builder(alloc)?.configure(config)?;
    let provider = builder.dns(true).build()?;
    let named = provider.container_uri()?;
    match provider.follow_named(&named, world) {
        Ok(answer) => Ok(Outcome { answer }),
        Err(_) => Err(OutOfMemory),
    }
}

fn web_identity(
    alloc: Global,
    config: &ProviderConfig,
    world: &mut World<ScriptDevices>,
) -> Result<CredentialsOutcome, OutOfMemory> {
    let builder = WebIdentityTokenCredentialsProvider::builder(alloc)?.configure(config)?;
    let provider = builder.build()?;
    let answer = provider.provide_credentials(world);
    Ok(Outcome { answer })
}

fn limited_web_identity(
    alloc: Global,
    world: &mut World<ScriptDevices>,
) -> Result<CredentialsOutcome, OutOfMemory> {
    let given = StaticConfiguration {
        web_identity_token_file: Text::of(alloc, "/f")?,
        role_arn: Text::of(alloc, "b")?,
        session_name: Text::of(alloc, "n")?,
    };
    let mut arns = Vec::new(alloc);
    arns.push(String::from_str(alloc, "arn")?)?;
    let given = given.copy(alloc)?;
    let builder = WebIdentityTokenCredentialsProvider::builder(alloc)?.static_configuration(given);
    let provider = builder.policy("p")?.policy_arns(arns)?.build()?;
    let answer = provider.provide_credentials(world);
    Ok(Outcome { answer })
}

fn role(
    alloc: Global,
    config: &ProviderConfig,
    world: &mut World<ScriptDevices>,
) -> Result<CredentialsOutcome, OutOfMemory> {
    let base = CredentialsBuilder::new(alloc, "K", "S", "Fixed")?.build()?;
    let mut roles = Vec::new(alloc);
    roles.push(RoleArn {
        role_arn: Text::of(alloc, "r")?,
        external_id: None,
        session_name: None,
    })?;
    let settings = call_settings(alloc, config)?;
    let answer = assume_roles(alloc, base, roles.as_slice(), &settings, world);
    Ok(Outcome { answer })
}

fn outcome_of(
    alloc: Global,
    provider: &str,
    env: Env,
    world: &mut World<ScriptDevices>,
) -> Result<CredentialsOutcome, OutOfMemory> {
    let config = ProviderConfig::empty(alloc)?
        .with_env(env)
        .with_sleep_impl(true);
    match provider {
        "environment" => environment(alloc, config.env(), world),
        "process" => process(alloc, world),
        "container" => container(alloc, &config, world),
        "named container" => named_container(alloc, &config, world),
        "web identity" => web_identity(alloc, &config, world),
        "role" => role(alloc, &config, world),
        _ => limited_web_identity(alloc, world),
    }
}

fn words_by(
    alloc: Global,
    provider: &str,
    env: Env,
    lists: DeviceLists,
) -> Result<String, OutOfMemory>
    requires { AllFit lists }
{
    let devices = ScriptDevices::new(alloc, lists)?;
    let mut world = World::new(alloc, devices);
    let outcome = outcome_of(alloc, provider, env, &mut world)?;
    let mut words = answer_words(alloc, &outcome)?;
    for entry in world.journal() {
        let question = entry.question();
        let question = format!(in alloc; " {question:?}")?;
        words.push_str(question.as_str())?;
    }
    Ok(words)
}

fn words_over(alloc: Global, provider: &str, script: Script) -> Result<String, OutOfMemory>
    requires { AllFit (lists_of (plain script)) }
{
    let env = Env::new(alloc, script.variables)?;
    words_by(alloc, provider, env, script.devices)
}

const PROVIDERS: &[(&str, &str, &str)] = &[
    (
        "environment",
        r#"{"variables":[["AWS_ACCESS_KEY_ID"," A"],["AWS_SECRET_ACCESS_KEY",""],["SECRET_ACCESS_KEY","S "],["AWS_SESSION_TOKEN"," T "],["AWS_ACCOUNT_ID"," "]]}"#,
        r#"Credentials { provider_name: "EnvironmentVariable", access_key_id: " A", secret_access_key: "** redacted **", expires_after: never } S  Some("T") [CredentialsEnvVars]"#,
    ),
    (
        "process",
        r#"{"commands":[[0,"{\"Version\":1,\"AccessKeyId\":\"ASIARTESTID\",\"SecretAccessKey\":\"S\",\"SessionToken\":\"T\",\"Expiration\":\"2022-05-02T18:36:00+02:00\"}","a warning"]]}"#,
        r#"Credentials { provider_name: "CredentialProcess", access_key_id: "ASIARTESTID", secret_access_key: "** redacted **", expires_after: 1651509360 s 0 ns, account_id: "7" } S Some("T") [CredentialsProcess] Run { command: "/opt/creds ** arguments redacted **" }"#,
    ),
    (
        "process",
        r#"{"commands":[[3,"","bad"]]}"#,
        r#"ProviderError(Process(Status { code: 3, errors: Some("bad") })) Run { command: "/opt/creds ** arguments redacted **" }"#,
    ),
    (
        "container",
        r#"{"variables":[["AWS_CONTAINER_CREDENTIALS_FULL_URI","http://n/c"],["AWS_CONTAINER_AUTHORIZATION_TOKEN_FILE","/t"]],"files":[["/t","a"]],"lookups":[["127.0.0.1"]],"replies":{"http":[[500,[],""],[200,[],"{\"AccessKeyId\":\"MUA\",\"SecretAccessKey\":\"S\",\"Token\":\"T\",\"Expiration\":\"2016-02-25T06:03:31Z\"}"]]}}"#,
        r#"Credentials { provider_name: "EcsContainer", access_key_id: "MUA", secret_access_key: "** redacted **", expires_after: 1456380211 s 0 ns } S Some("T") [CredentialsHttp] Read { path: "/t" } LookUp { host: "n" } Send(Http(Http { endpoint: "http://n", path: "/c", secrets: "** redacted **" })) Send(Http(Http { endpoint: "http://n", path: "/c", secrets: "** redacted **" }))"#,
    ),
    (
        "named container",
        r#"{"variables":[["AWS_CONTAINER_CREDENTIALS_FULL_URI","http://n/c"],["AWS_CONTAINER_AUTHORIZATION_TOKEN_FILE","/t"]],"files":[["/t","a"]],"lookups":[["127.0.0.1"]],"replies":{"http":[[500,[],""],[200,[],"{\"AccessKeyId\":\"MUA\",\"SecretAccessKey\":\"S\",\"Token\":\"T\",\"Expiration\":\"2016-02-25T06:03:31Z\"}"]]}}"#,
        r#"Credentials { provider_name: "EcsContainer", access_key_id: "MUA", secret_access_key: "** redacted **", expires_after: 1456380211 s 0 ns } S Some("T") [CredentialsHttp] Read { path: "/t" } LookUp { host: "n" } Send(Http(Http { endpoint: "http://n", path: "/c", secrets: "** redacted **" })) Send(Http(Http { endpoint: "http://n", path: "/c", secrets: "** redacted **" }))"#,
    ),
    (
        "web identity",
        r#"{"variables":[["AWS_WEB_IDENTITY_TOKEN_FILE","/j"],["AWS_ROLE_ARN","a"]],"files":[["/j","jwt"]],"clock":[1],"replies":{"web-identity":[{"id":"W","secret":"S","token":"T","expires":900,"arn":"a:b:c:d:7"}]}}"#,
        r#"Credentials { provider_name: "WebIdentityToken", access_key_id: "W", secret_access_key: "** redacted **", expires_after: 900 s 0 ns, account_id: "7" } S Some("T") [CredentialsProfileStsWebIdToken] Now Read { path: "/j" } Send(AssumeRoleWithWebIdentity(AssumeRoleWithWebIdentity { role_arn: "a", session_name: "web-identity-token-1000", secrets: "** redacted **" }))"#,
    ),
    (
        "limited web identity",
        r#"{"files":[["/f"," x\n"]],"replies":{"web-identity":[null]}}"#,
        r#"Unhandled(StsNoCredentials) Read { path: "/f" } Send(AssumeRoleWithWebIdentity(AssumeRoleWithWebIdentity { role_arn: "b", session_name: "n", secrets: "** redacted **" }))"#,
    ),
    (
        "role",
        r#"{"clock":[5],"replies":{"assume-role":[{"id":"KA","secret":"SA","token":"TA","expires":2000,"arn":"a:b:c:d:e:f"}]}}"#,
        r#"Credentials { provider_name: "AssumeRoleProvider", access_key_id: "KA", secret_access_key: "** redacted **", expires_after: 2000 s 0 ns, account_id: "e" } SA Some("TA") [] Now Send(AssumeRole(AssumeRole { signer: Credentials { provider_name: "Fixed", access_key_id: "K", secret_access_key: "** redacted **", expires_after: never }, role_arn: "r", session_name: "assume-role-from-profile-5000", external_id: None, policy: None, policy_arns: None, duration_seconds: None, tags: None, settings: CallSettings { region: None, use_fips: None, use_dual_stack: None, max_attempts: 3, timeouts: Timeouts { connect_ms: None, read_ms: None, operation_ms: None, attempt_ms: None } } }))"#,
    ),
];

#[test]
fn providers(rt: HostRuntime) -> Result<(), Fail> {
    for (provider, text, want) in PROVIDERS {
        let script = read_script(rt.alloc(), text.as_bytes())?;
        let words = words_over(rt.alloc(), provider, script)?;
        assert_eq!(rt; words.as_str(), *want, "{text}");
    }
    Ok(())
}
