//! The default chain over scripts: what building it asks, and what its calls answer and ask.
ghost use Rattle.std.specs.Prelude.{◌≡◌};
ghost use Rattle.cfg_kept.specs.KeptStates.{kept_key};
ghost use Rattle.cfg_token_chain.specs.Sessions.{session_key};

use crate::token_chain::setup::{FILES, SESSIONS, Setup, asked, set_up, token_words};
use cfg_kept::Kept;
use cfg_token_chain::DefaultTokenChain;
use cfg_types::{OutOfMemory, Outcome};
use cfg_world::{ScriptDevices, World};
use std::alloc::Global;
use std::test::Fail;

fn call_words(
    alloc: Global,
    chain: &DefaultTokenChain,
    kept: &mut Kept,
    world: &mut World<ScriptDevices>,
) -> Result<String, OutOfMemory>
    requires { kept_key kept.old ≡ session_key chain.now }
    ensures { kept_key kept.new ≡ kept_key kept.old }
{
    let outcome = Outcome {
        answer: chain.provide_token(kept, world),
    };
    let answer = token_words(alloc, &outcome)?;
    let questions = asked(alloc, world)?;
    Ok(format!(in alloc; "{answer}{questions}")?)
}

/// A call of a chain.
pub(crate) fn first_words(
    alloc: Global,
    chain: &DefaultTokenChain,
    world: &mut World<ScriptDevices>,
) -> Result<String, OutOfMemory> {
    let mut kept = chain.new_kept()?;
    call_words(alloc, chain, &mut kept, world)
}

// Two calls of a chain, one after the other.
fn two_words(
    alloc: Global,
    chain: &DefaultTokenChain,
    world: &mut World<ScriptDevices>,
) -> Result<String, OutOfMemory> {
    let mut kept = chain.new_kept()?;
    let first = call_words(alloc, chain, &mut kept, world)?;
    let second = call_words(alloc, chain, &mut kept, world)?;
    Ok(format!(in alloc; "{first}; {second}")?)
}

fn words_by(alloc: Global, setup: Setup) -> Result<String, OutOfMemory> {
    let Setup { config, devices } = setup;
    let mut world = World::new(alloc, devices);
    let builder = DefaultTokenChain::builder(alloc)?;
    let chain = builder.configure(config).build(&mut world)?;
    two_words(alloc, &chain, &mut world)
}

const NONE: &str =
    r#"TokenNotLoaded(Chain(ProviderChainError { attempts: [ProviderAttempt { name: "Profile", error: TokenNotLoaded(NoSession) }] }))"#;

const LOOPED: &str =
    r#"InvalidConfiguration(CredentialLoop { profiles: ["default", "b"], next: "default" })"#;

const MISSING: &str =
    r#"InvalidConfiguration(MissingSsoSession { profile: "default", sso_session: "other" })"#;

const PATHS: &[(&str, &str, &str)] = &[
    (
        r#"["default",[["sso_session","abc"]]]"#,
        "=t now read now",
        "=t now",
    ),
    (
        r#"["default",[["role_arn","r"],["source_profile","b"]]],["b",[["sso_session","abc"]]]"#,
        "=t now read now",
        "=t now",
    ),
    (
        r#"["default",[["aws_access_key_id","k"],["aws_secret_access_key","s"]]]"#,
        NONE,
        NONE,
    ),
    (
        r#"["default",[["sso_account_id","1"],["sso_role_name","r"],["sso_region","x"],["sso_start_url","u"]]]"#,
        NONE,
        NONE,
    ),
    (r#"["default",[["sso_session","other"]]]"#, MISSING, MISSING),
    (
        r#"["default",[["role_arn","r"],["source_profile","b"]]],["b",[["role_arn","r"],["source_profile","default"]]]"#,
        LOOPED,
        LOOPED,
    ),
];

#[test]
fn paths_of_profiles(rt: HostRuntime) -> Result<(), Fail> {
    for (profiles, first, second) in PATHS {
        let script = format!(in rt.alloc();
            r#"{{"variables":[["HOME","/home/u"],["AWS_REGION","x"]],"profiles":[{profiles}],{SESSIONS},{FILES}}}"#
        )?;
        let setup = set_up(rt.alloc(), script.as_str())?;
        let words = words_by(rt.alloc(), setup)?;
        let want = format!(in rt.alloc(); "{first}; {second}")?;
        assert_eq!(rt; words.as_str(), want.as_str(), "{profiles}");
    }
    Ok(())
}

#[test]
fn refused_sections(rt: HostRuntime) -> Result<(), Fail> {
    let script = r#"{"variables":[["AWS_REGION","x"]],"refused":"unreadable"}"#;
    let setup = set_up(rt.alloc(), script)?;
    let words = words_by(rt.alloc(), setup)?;
    let refused = r#"InvalidConfiguration(InvalidProfile("unreadable"))"#;
    let want = format!(in rt.alloc(); "{refused}; {refused}")?;
    assert_eq!(rt; words.as_str(), want.as_str());
    Ok(())
}
