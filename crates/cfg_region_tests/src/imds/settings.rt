//! What a builder sets: limits, attempts, lifetimes, endpoints and classifiers.
ghost use Rattle.cfg_world.specs.Script.{AllFit};
ghost use Rattle.cfg_script.specs.Script.{plain};
ghost use Rattle.cfg_script.specs.Devices.{lists_of};

use crate::imds::calls::{get_words, world};
use cfg_exchange::{ClassifyRetry, Reading};
use cfg_imds::{Builder, Client};
use cfg_script::{Script, read_script};
use cfg_types::imds::{BuildError, EndpointMode};
use cfg_types::{HttpReply, OutOfMemory};
use std::alloc::Global;
use std::test::Fail;

// Repeats a status of 404, and no other reply and no failure.
struct Missing;

impl Drop for Missing {
    fn drop(self) {
        let Missing = self;
    }
}

impl ClassifyRetry for Missing {
    ghost use Rattle.std.specs.Prelude.{codes};
    ghost use Rattle.cfg_region_tests.specs.Classifiers.{repeats_missing};

    ghost repeated = { λ _. repeats_missing };

    ghost named = { λ _. codes "Missing" };

    fn name(&self) -> &str {
        "Missing"
    }

    fn repeats(&self, reply: Option<&HttpReply>, _reading: Reading) -> bool {
        match reply {
            None => false,
            Some(reply) => reply.status == 404,
        }
    }
}

// The builder with each setting. Its endpoint is given.
fn with_settings(alloc: Global, builder: Builder) -> Result<Builder, OutOfMemory> {
    let classifier = Box::new(alloc, Missing)?;
    Ok(
        builder
            .retry_classifier(classifier)
            .max_attempts(2)
            .endpoint_mode(EndpointMode::IpV6)
            .token_ttl(7)
            .connect_timeout(1)
            .read_timeout(2)
            .operation_timeout(3)
            .operation_attempt_timeout(4),
    )
}

// What a get of the builder's client answers, and the second question of it.
fn get_by(alloc: Global, builder: Builder, script: Script) -> Result<String, OutOfMemory>
    requires { AllFit (lists_of (plain script)) }
{
    let mut world = world(alloc, script.devices)?;
    let client = builder.build()?;
    let words = get_words(alloc, &client, &mut world, "/a")?;
    match world.journal().get(1) {
        Some(entry) => Ok(format!(in alloc; "{words} {:?}", entry.question())?),
        None => Ok(words),
    }
}

#[test]
fn a_client_with_each_setting(rt: HostRuntime) -> Result<(), Fail> {
    let script =
        r#"{"replies":{"imds-token":[[404,[],"t"],[200,[["x-aws-ec2-metadata-token-ttl-seconds","9"]],"t"]],"imds-get":[[404,[],""],[500,[],""],[200,[],""]]}}"#;
    let script = read_script(rt.alloc(), script.as_bytes())?;
    let builder = with_settings(rt.alloc(), Client::builder(rt.alloc())?)?;
    let words = get_by(rt.alloc(), builder, script)?;
    assert_eq!(rt;
        words.as_str(),
        "Err(ErrorResponse(ErrorResponse { reply: HttpReply { status: 500, secrets: \"** redacted **\" } })) 6 Some(MetadataToken { value: \"** redacted **\", expiry: 9 s 0 ns }) Send(MetadataToken(MetadataToken { endpoint: \"http://[fd00:ec2::254]\", ttl_seconds: 7, timeouts: Timeouts { connect_ms: Some(1), read_ms: Some(2), operation_ms: Some(3), attempt_ms: Some(4) } }))"
    );
    Ok(())
}

// What a builder gives that is to have an endpoint.
struct Built {
    builder: Result<Builder, BuildError>,
}

impl Drop for Built {
    fn drop(self) {
        let Built { builder: _ } = self;
    }
}

// Whether a text is taken as an endpoint, and the mode that it names.
fn endpoint_words(alloc: Global, text: &str) -> Result<String, OutOfMemory> {
    let mode = EndpointMode::from_text(alloc, text);
    let built = Built {
        builder: Client::builder(alloc)?.endpoint(text),
    };
    match &built.builder {
        Ok(_) => Ok(format!(in alloc; "{mode:?} taken")?),
        Err(error) => Ok(format!(in alloc; "{mode:?} {error:?}")?),
    }
}

#[test]
fn endpoints_and_modes_by_their_texts(rt: HostRuntime) -> Result<(), Fail> {
    let table: &[(&str, &str)] = &[
        ("ipv4", "Ok(IpV4) taken"),
        ("IPV6", "Ok(IpV6) taken"),
        ("http://h", "Err(Mode(\"http://h\")) taken"),
        (" ", "Err(Mode(\" \")) InvalidEndpointUri( )"),
    ];
    for (text, want) in table {
        let words = endpoint_words(rt.alloc(), text)?;
        assert_eq!(rt; words.as_str(), *want);
    }
    Ok(())
}
