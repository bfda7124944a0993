//! What no clause says: that memory suffices for reasons; and by a table, which members calls passed over, and whose answer
//! ended them.
use crate::replay::{CONTAINER, METADATA, ROLE};
use crate::setup::{Setup, set_up};
use cfg_explain::reasons::{Reasons, reasons_of};
use cfg_script::ScriptError;
use cfg_types::{OutOfMemory, Outcome};
use cfg_world::World;
use std::alloc::{AllocError, Global};
use std::test::Fail;

// The members that were passed over, and behind a bar the one that answered.
fn words_of(alloc: Global, reasons: &Reasons) -> Result<String, AllocError> {
    let mut words = String::new(alloc);
    for passed in reasons.passed_over.as_slice() {
        words.push_str(passed.member.name())?;
        words.push_str(" ")?;
    }
    words.push_str("| ")?;
    match reasons.answered {
        Some(member) => words.push_str(member.name())?,
        None => words.push_str("none")?,
    }
    Ok(words)
}

fn ended(alloc: Global, setup: Setup) -> Result<String, OutOfMemory> {
    let Setup { chain, devices } = setup;
    let mut world = World::new(alloc, devices);
    let mut kept = chain.new_kept()?;
    let outcome = Outcome {
        answer: chain.provide_credentials(&mut kept, &mut world),
    };
    let reasons = reasons_of(alloc, &chain, &outcome.answer)?;
    Ok(words_of(alloc, &reasons)?)
}

fn ended_in(alloc: Global, script: &str) -> Result<String, ScriptError> {
    let setup = set_up(alloc, script)?;
    Ok(ended(alloc, setup)?)
}

const FIRST_FOUR: &str = "Environment Profile WebIdentityToken EcsContainer | Ec2InstanceMetadata";

const NONE: &str = "Environment Profile WebIdentityToken EcsContainer Ec2InstanceMetadata | none";

const BY_CONTAINER: &str = "Environment Profile WebIdentityToken | EcsContainer";

const ENDS: &[(&str, &str)] = &[
    (ROLE, "Environment | Profile"),
    (CONTAINER, BY_CONTAINER),
    (METADATA, FIRST_FOUR),
    (
        r#"{"variables":[["AWS_ACCESS_KEY_ID",null]]}"#,
        "| Environment",
    ),
    (r#"{"refused":"bad"}"#, "Environment | Profile"),
    // The token of a web identity is a file, too.
    (
        r#"{"variables":[["AWS_WEB_IDENTITY_TOKEN_FILE","/t"],["AWS_ROLE_ARN","r"]]}"#,
        "Environment Profile | WebIdentityToken",
    ),
    // The token of a container is looked at before its address.
    (
        r#"{"variables":[["AWS_CONTAINER_AUTHORIZATION_TOKEN_FILE","/t"]],"files":[["/t",null]]}"#,
        BY_CONTAINER,
    ),
    (
        r#"{"variables":[["AWS_CONTAINER_AUTHORIZATION_TOKEN","a\nb"]]}"#,
        BY_CONTAINER,
    ),
    (
        r#"{"variables":[["AWS_CONTAINER_AUTHORIZATION_TOKEN_FILE","/t"]],"files":[["/t","tok"]],"clock":[100],"replies":{"imds-token":[[403,[],""]]}}"#,
        FIRST_FOUR,
    ),
    (
        r#"{"variables":[["AWS_EC2_METADATA_DISABLED","true"]]}"#,
        NONE,
    ),
    (
        r#"{"clock":[100],"replies":{"imds-token":[[200,[["x-aws-ec2-metadata-token-ttl-seconds","21600"]],"tok"]],"imds-get":[[404,[],""]]}}"#,
        NONE,
    ),
    ("{}", NONE),
];

#[test]
fn reasons_of_calls(rt: HostRuntime) -> Result<(), Fail> {
    for (script, want) in ENDS {
        let words = ended_in(rt.alloc(), script)?;
        assert_eq!(rt; words.as_str(), *want, "{script}");
    }
    Ok(())
}
