//! Chains over given members: what a call answers, what the chain then falls back on, and what was asked.
use crate::credentials_chain::own::{Failing, Sparing};
use crate::credentials_chain::words::{Outcome, kinds, words_of};
use crate::setup::{Setup, set_up};
use cfg_assume_role::{AssumeRoleProvider, RoleBase};
use cfg_chain::DefaultCredentialsChain;
use cfg_credentials_chain::{CredentialsProviderChain, Member};
use cfg_imds::Client;
use cfg_imds_credentials::ImdsCredentialsProvider;
use cfg_login::LoginCredentialsProvider;
use cfg_profile::ProviderConfig;
use cfg_providers::EnvironmentVariableCredentialsProvider;
use cfg_region::RegionSource;
use cfg_sso::SsoCredentialsProvider;
use cfg_types::{Credentials, CredentialsBuilder, OutOfMemory, Region, TryCopy};
use cfg_world::{ScriptDevices, World};
use std::alloc::Global;
use std::test::Fail;

fn keys(alloc: Global, id: &str) -> Result<Credentials, OutOfMemory> {
    CredentialsBuilder::new(alloc, id, "s", "Own")?.build()
}

// Over the variables of the configuration.
fn environment(
    alloc: Global,
    config: &ProviderConfig,
) -> Result<EnvironmentVariableCredentialsProvider, OutOfMemory> {
    let env = config.env().copy(alloc)?;
    Ok(EnvironmentVariableCredentialsProvider::new(alloc, env))
}

// By the file of the start URL `abc`.
fn sso(alloc: Global, config: &ProviderConfig) -> Result<SsoCredentialsProvider, OutOfMemory> {
    SsoCredentialsProvider::builder(alloc)?
        .configure(config)?
        .account_id("1")?
        .role_name("r")?
        .region(Region::new(alloc, "us-east-1")?)
        .start_url("abc")?
        .build()
}

fn login(alloc: Global, config: &ProviderConfig) -> Result<LoginCredentialsProvider, OutOfMemory> {
    LoginCredentialsProvider::builder(alloc, "abc")?
        .configure(config)?
        .build()
}

fn call_words(
    alloc: Global,
    chain: &CredentialsProviderChain,
    world: &mut World<ScriptDevices>,
) -> Result<String, OutOfMemory> {
    let mut kept = chain.new_kept()?;
    let answer = chain.provide_credentials(kept.as_mut_slice(), world);
    let fallback = chain.fallback_on_interrupt(kept.as_slice())?;
    let words = words_of(alloc, &Outcome { answer, fallback })?;
    let questions = kinds(alloc, world.journal())?;
    Ok(format!(in alloc; "{words}{questions}")?)
}

// A chain of two members.
fn two_words(
    alloc: Global,
    first: Member,
    second: Member,
    world: &mut World<ScriptDevices>,
) -> Result<String, OutOfMemory> {
    let chain = CredentialsProviderChain::first_try(alloc, "First", first)?;
    let chain = chain.or_else("Second", second)?;
    call_words(alloc, &chain, world)
}

// By letters: the member of a source behind the environment, or behind a source of the test's own.
fn source_words(alloc: Global, setup: Setup, letter: char) -> Result<String, OutOfMemory> {
    let Setup { config, mut world } = setup;
    let first = Member::Environment(environment(alloc, &config)?);
    match letter {
        'F' => two_words(alloc, first, Member::Fixed(keys(alloc, "F")?), &mut world),
        'S' => two_words(alloc, first, Member::Sso(sso(alloc, &config)?), &mut world),
        'L' => two_words(
            alloc,
            first,
            Member::Login(login(alloc, &config)?),
            &mut world,
        ),
        'R' => role_words(alloc, first, world),
        'D' => default_words(alloc, first, config, world),
        'Z' => behind_default_words(alloc, first, config, world),
        'M' => metadata_words(alloc, first, config, world),
        'P' => spare_words(alloc, config, world),
        'X' => failing_words(alloc, &config, world),
        _ => call_words(alloc, &CredentialsProviderChain::empty(alloc), &mut world),
    }
}

// A role over keys that were given.
fn role_words(
    alloc: Global,
    first: Member,
    mut world: World<ScriptDevices>,
) -> Result<String, OutOfMemory> {
    let builder = AssumeRoleProvider::builder(alloc, "r")?
        .session_name("s")?
        .region(Region::new(alloc, "us-east-1")?);
    let base = RoleBase::Fixed(keys(alloc, "B")?);
    let provider = builder.build_from_provider(base, &mut world)?;
    two_words(alloc, first, Member::AssumeRole(provider), &mut world)
}

fn default_words(
    alloc: Global,
    first: Member,
    config: ProviderConfig,
    mut world: World<ScriptDevices>,
) -> Result<String, OutOfMemory> {
    let builder = DefaultCredentialsChain::builder(alloc)?
        .configure(config)
        .region(RegionSource::Fixed(None));
    let default = builder.build(&mut world)?;
    two_words(alloc, first, Member::Default(default), &mut world)
}

fn behind_default_words(
    alloc: Global,
    first: Member,
    config: ProviderConfig,
    mut world: World<ScriptDevices>,
) -> Result<String, OutOfMemory> {
    let chain = CredentialsProviderChain::first_try(alloc, "First", first)?;
    let chain = chain.or_default_provider(config, &mut world)?;
    call_words(alloc, &chain, &mut world)
}

fn metadata_words(
    alloc: Global,
    first: Member,
    config: ProviderConfig,
    mut world: World<ScriptDevices>,
) -> Result<String, OutOfMemory> {
    let client = Client::builder(alloc)?.configure(&config)?.build()?;
    let builder = ImdsCredentialsProvider::builder(alloc)?.imds_client(client);
    let provider = builder.configure(&config)?.build()?;
    two_words(alloc, first, Member::Imds(provider), &mut world)
}

// What is spared stands before what is retrieved.
fn spare_words(
    alloc: Global,
    config: ProviderConfig,
    world: World<ScriptDevices>,
) -> Result<String, OutOfMemory> {
    let spare = keys(alloc, "P")?;
    let sparing = Box::new(alloc, Sparing { alloc, spare })?;
    metadata_words(alloc, Member::Custom(sparing), config, world)
}

fn failing_words(
    alloc: Global,
    config: &ProviderConfig,
    mut world: World<ScriptDevices>,
) -> Result<String, OutOfMemory> {
    let second = Member::Environment(environment(alloc, config)?);
    let failing = Box::new(alloc, Failing)?;
    two_words(alloc, Member::Custom(failing), second, &mut world)
}

const LISTED: &str =
    r#"{"variables":[["AWS_REGION","r"]],"clock":[100],"replies":{"imds-token":[[200,[["x-aws-ec2-metadata-token-ttl-seconds","21600"]],"tok"]],"imds-get":[[200,[],"role"],[200,[],"{\"AccessKeyId\":\"M\",\"SecretAccessKey\":\"s\",\"Token\":\"t\",\"Expiration\":\"2016-02-25T06:03:31Z\"}"]]}}"#;

const SIGNED_ON: &str =
    r#"{"variables":[["HOME","/home/u"]],"files":[["/home/u/.aws/sso/cache/a9993e364706816aba3e25717850c26c9cd0d89d.json","{\"accessToken\":\"t\",\"expiresAt\":\"1970-01-01T01:00:00Z\"}"]],"replies":{"role-credentials":[{"id":"R1","secret":"S1","token":"T1","expires_ms":5000000}]}}"#;

const SIGNED_IN: &str =
    r#"{"variables":[["AWS_LOGIN_CACHE_DIRECTORY","/c"]],"clock":[0],"files":[["/c/ba7816bf8f01cfea414140de5dae2223b00361a396177a9cb410ff61f20015ad.json","{\"accessToken\":{\"accessKeyId\":\"AK\",\"secretAccessKey\":\"SK\",\"sessionToken\":\"ST\",\"accountId\":\"012345678901\",\"expiresAt\":\"1970-01-01T00:15:00Z\"},\"refreshToken\":\"rt\",\"clientId\":\"ci\",\"dpopKey\":\"dk\"}"]]}"#;

const MEMBERS: &[(char, &str, &str)] = &[
    ('X', "{}", "ProviderError(Sent(Timeout)); none;"),
    (
        ' ',
        "{}",
        "CredentialsNotLoaded(Chain(ProviderChainError { attempts: [] })); none;",
    ),
    ('F', "{}", "F Own []; none;"),
    (
        'M',
        "{}",
        r#"CredentialsNotLoaded(Chain(ProviderChainError { attempts: [ProviderAttempt { name: "First", error: CredentialsNotLoaded(NotSet("AWS_ACCESS_KEY_ID")) }, ProviderAttempt { name: "Second", error: CredentialsNotLoaded(MetadataUnreachable) }] })); none; now imds-token now"#,
    ),
    (
        'M',
        LISTED,
        "M IMDSv2 [CredentialsImds]; M; now imds-token now imds-get now imds-get now",
    ),
    (
        'P',
        LISTED,
        "M IMDSv2 [CredentialsImds]; P; now imds-token now imds-get now imds-get now",
    ),
    (
        'D',
        LISTED,
        "M IMDSv2 [CredentialsImds]; M; now imds-token now imds-get now imds-get now",
    ),
    (
        'Z',
        LISTED,
        "M IMDSv2 [CredentialsImds]; M; now imds-token now imds-get now imds-get now",
    ),
    (
        'S',
        SIGNED_ON,
        "R1 SSO [CredentialsSso]; none; read now role-credentials",
    ),
    (
        'L',
        SIGNED_IN,
        "AK Login [CredentialsProfile]; none; now read now",
    ),
    (
        'R',
        r#"{"replies":{"assume-role":[{"id":"X","secret":"SX","token":"TX","expires":9}]}}"#,
        "X AssumeRoleProvider [CredentialsStsAssumeRole]; none; assume-role",
    ),
];

#[test]
fn members_in_order(rt: HostRuntime) -> Result<(), Fail> {
    for (letter, script, want) in MEMBERS {
        let setup = set_up(rt.alloc(), script)?;
        let words = source_words(rt.alloc(), setup, *letter)?;
        assert_eq!(rt; words.as_str(), *want, "{letter}");
    }
    Ok(())
}
