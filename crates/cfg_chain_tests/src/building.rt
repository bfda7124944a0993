//! What builders build, by scripts: a chain in its region, and a provider of a profile.
use crate::own::source_of;
use crate::setup::{Configured, answer_words, answered, read_configuration};
use cfg_chain::{DefaultCredentialsChain, ProfileFileCredentialsProvider};
use cfg_profile::{ProfileSource, ProviderConfig};
use cfg_region::{EnvironmentVariableRegionProvider, RegionSource};
use cfg_types::{OutOfMemory, Outcome, Region, Request, Text, TryCopy};
use cfg_world::{Entry, Question, ScriptDevices, World};
use std::alloc::{AllocError, Global};
use std::test::Fail;

const PROFILES: &str =
    r#""profiles":[["default",[["role_arn","r"],["source_profile","keys"],["role_session_name","s"],["region","p"]]],["b",[["role_arn","b"],["source_profile","keys"],["role_session_name","s"],["region","q"]]],["c",[["role_arn","c"],["source_profile","keys"],["role_session_name","s"]]],["keys",[["aws_access_key_id","K"],["aws_secret_access_key","S"]]],["own",[["role_arn","o"],["credential_source","mine"],["role_session_name","s"]]]]"#;

const METADATA: &str =
    r#""imds-token":[[200,[["x-aws-ec2-metadata-token-ttl-seconds","21600"]],"t"]],"imds-get":[[200,[],"m"]]"#;

const GRANTED: &str = r#""assume-role":[{"id":"X","secret":"SX","token":"TX","expires":9}]"#;

fn script_of(alloc: Global, variables: &str) -> Result<String, AllocError> {
    format!(in alloc;
        r#"{{"variables":[{variables}],{PROFILES},"replies":{{{METADATA},{GRANTED}}}}}"#
    )
}

// The kind of a question; of an exchange for a role, the role, who signs it, and the region.
fn word_of(alloc: Global, entry: &Entry) -> Result<String, AllocError> {
    match entry.question() {
        Question::Now => String::from_str(alloc, " now"),
        Question::Send(request) => request_word(alloc, request.get()),
        _ => String::from_str(alloc, " other"),
    }
}

fn request_word(alloc: Global, request: &Request) -> Result<String, AllocError> {
    match request {
        Request::MetadataToken(_) => String::from_str(alloc, " imds-token"),
        Request::MetadataGet(_) => String::from_str(alloc, " imds-get"),
        Request::AssumeRole(call) => {
            let role = call.role_arn.as_str();
            let signer = call.signer.access_key_id();
            let region = &call.settings.region;
            format!(in alloc; " {role} by {signer} in {region:?}")
        }
        _ => String::from_str(alloc, " other"),
    }
}

fn journal_words(alloc: Global, journal: &[Entry]) -> Result<String, AllocError> {
    let mut words = String::new(alloc);
    for entry in journal {
        words.push_str(word_of(alloc, entry)?.as_str())?;
    }
    Ok(words)
}

// The chain that a builder gives, by what it is set to besides its configuration.
fn chain_by(
    alloc: Global,
    config: ProviderConfig,
    call: u8,
    world: &mut World<ScriptDevices>,
) -> Result<DefaultCredentialsChain, OutOfMemory> {
    let env = config.env().copy(alloc)?;
    let own = RegionSource::Environment(EnvironmentVariableRegionProvider::new(alloc, env));
    let given = RegionSource::Fixed(Some(Region::new(alloc, "given")?));
    let mut builder = DefaultCredentialsChain::builder(alloc)?;
    match call {
        0 => builder.configure(config).build(world),
        1 => builder.configure(config).region(given).build(world),
        2 => builder.region(given).configure(config).build(world),
        3 => builder.configure(config).region(own).build(world),
        4 => builder.profile_name("b")?.configure(config).build(world),
        5 => builder
            .configure(config)
            .region(RegionSource::Fixed(None))
            .build(world),
        6 => builder
            .profile_name("b")?
            .region(given)
            .configure(config)
            .build(world),
        _ => {
            builder.set_region(Some(given));
            builder.set_region(None);
            builder.configure(config).build(world)
        }
    }
}

// What is asked for the chain, and by its call.
fn built(alloc: Global, configured: Configured, call: u8) -> Result<String, OutOfMemory> {
    let Configured { config, mut world } = configured;
    let chain = chain_by(alloc, config, call, &mut world)?;
    let _answer = answered(alloc, &chain, &mut world)?;
    Ok(journal_words(alloc, world.journal())?)
}

#[test]
fn regions_of_chains(rt: HostRuntime) -> Result<(), Fail> {
    let variable = r#"["AWS_REGION","e"]"#;
    let without = r#"["AWS_PROFILE","c"]"#;
    let off = r#"["AWS_PROFILE","c"],["AWS_EC2_METADATA_DISABLED","true"]"#;
    let table: &[(&str, u8, &str)] = &[
        ("", 0, r#" r by K in Some("p")"#),
        (variable, 0, r#" r by K in Some("e")"#),
        (
            without,
            0,
            r#" now imds-token now imds-get c by K in Some("m")"#,
        ),
        (off, 0, " c by K in None"),
        (variable, 1, r#" r by K in Some("given")"#),
        (without, 2, r#" c by K in Some("given")"#),
        (variable, 3, r#" r by K in Some("e")"#),
        (without, 3, " c by K in None"),
        (without, 4, r#" b by K in Some("q")"#),
        (variable, 5, " r by K in None"),
        (variable, 6, r#" b by K in Some("given")"#),
        (
            without,
            7,
            r#" now imds-token now imds-get c by K in Some("m")"#,
        ),
    ];
    for (variables, call, want) in table {
        let script = script_of(rt.alloc(), variables)?;
        let configured = read_configuration(rt.alloc(), script.as_str())?;
        let words = built(rt.alloc(), configured, *call)?;
        assert_eq!(rt; words.as_str(), *want, "{variables} {call}");
    }
    Ok(())
}

// The provider that a builder gives, by what it is set to besides its configuration.
fn provider_by(
    alloc: Global,
    config: &ProviderConfig,
    call: u8,
) -> Result<ProfileFileCredentialsProvider, OutOfMemory> {
    let refused = ProfileSource::Refused(Text::of(alloc, "line 3")?);
    let builder = ProfileFileCredentialsProvider::builder(alloc)?;
    match call {
        0 => builder.configure(config)?.build(),
        1 => builder.profile_name("b")?.configure(config)?.build(),
        2 => builder.configure(config)?.profiles(refused).build(),
        3 => builder.configure(config)?.profile_name("gone")?.build(),
        4 => builder.configure(config)?.profile_name("own")?.build(),
        5 => {
            let builder = builder.configure(config)?.profile_name("own")?;
            let builder = builder.with_custom_provider("mine", source_of(alloc, "OTHER")?)?;
            builder
                .with_custom_provider("Mine", source_of(alloc, "OWN")?)?
                .build()
        }
        _ => builder.build(),
    }
}

// What the provider answers, and what was asked.
fn provided(alloc: Global, configured: Configured, call: u8) -> Result<String, OutOfMemory> {
    let Configured { config, mut world } = configured;
    let provider = provider_by(alloc, &config, call)?;
    let mut kept = provider.new_kept()?;
    let outcome = Outcome {
        answer: provider.provide_credentials(&mut kept, &mut world),
    };
    let answer = answer_words(alloc, &outcome.answer)?;
    let asked = journal_words(alloc, world.journal())?;
    Ok(format!(in alloc; "{answer}{asked}")?)
}

#[test]
fn providers_of_a_profile(rt: HostRuntime) -> Result<(), Fail> {
    let granted =
        r#"Credentials { provider_name: "AssumeRoleProvider", access_key_id: "X", secret_access_key: "** redacted **", expires_after: 9 s 0 ns } SX Some("TX") [CredentialsProfile]"#;
    let by_selected = format!(in rt.alloc(); "{granted} r by K in None")?;
    let by_name = format!(in rt.alloc(); "{granted} b by K in None")?;
    let by_own = format!(in rt.alloc(); "{granted} o by OWN in None")?;
    let table: &[(u8, &str)] = &[
        (0, by_selected.as_str()),
        (1, by_name.as_str()),
        (
            2,
            r#"InvalidConfiguration(Profile(InvalidProfile("line 3")))"#,
        ),
        (
            3,
            r#"CredentialsNotLoaded(Profile(MissingProfile { profile: "gone", message: "could not find source profile gone referenced from the root profile" }))"#,
        ),
        (
            4,
            r#"InvalidConfiguration(Profile(UnknownProvider { name: "mine" }))"#,
        ),
        (5, by_own.as_str()),
        (6, "CredentialsNotLoaded(Profile(NoProfilesDefined))"),
    ];
    let script = script_of(rt.alloc(), r#"["AWS_REGION","e"]"#)?;
    for (call, want) in table {
        let configured = read_configuration(rt.alloc(), script.as_str())?;
        let words = provided(rt.alloc(), configured, *call)?;
        assert_eq!(rt; words.as_str(), *want, "{call}");
    }
    Ok(())
}
