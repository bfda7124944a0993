//! What no clause says: that memory suffices for a poll, and what the first poll of a run shows or gives.
use crate::replay::{CONTAINER, IDENTITY, METADATA, PROCESS, ROLE, SESSION, SIGN_IN};
use crate::setup::{Setup, answer_words, set_up};
use cfg_chain::DefaultCredentialsChain;
use cfg_region::{RegionProviderChain, RegionSource};
use cfg_run::future::ProvideRegion;
use cfg_run::{RegionRun, RegionStep, Run, Step};
use cfg_script::ScriptError;
use cfg_types::{OutOfMemory, Outcome, Region};
use cfg_world::Question;
use std::alloc::{AllocError, Global};
use std::test::Fail;

/// The question, if there is one.
pub(crate) fn question_words(
    alloc: Global,
    question: Option<&Question>,
) -> Result<String, AllocError> {
    match question {
        Some(question) => format!(in alloc; "{question:?}"),
        None => String::from_str(alloc, "none"),
    }
}

// What the first poll of a run of the script's chain shows or gives, and whether what is kept then is of its key.
fn first_poll(alloc: Global, chain: &DefaultCredentialsChain) -> Result<String, OutOfMemory> {
    let kept = chain.new_kept()?;
    let mut run = Run::start(chain, kept);
    let words = match run.poll(None)? {
        Step::Ready(answer) => {
            let outcome = Outcome { answer };
            answer_words(alloc, &outcome.answer)?
        }
        Step::Pending => question_words(alloc, run.question())?,
    };
    let asked = run.asked().len();
    let fits = run.into_kept().fits(chain.token_key());
    Ok(format!(in alloc; "{words} {asked} {fits}")?)
}

fn words_of(alloc: Global, script: &str) -> Result<String, ScriptError> {
    let Setup { chain, devices: _ } = set_up(alloc, script)?;
    Ok(first_poll(alloc, &chain)?)
}

const KEYS: &str =
    r#"{"variables":[["AWS_ACCESS_KEY_ID","access"],["AWS_SECRET_ACCESS_KEY","secret"]]}"#;

const FIRST: &[(&str, &str)] = &[
    (
        KEYS,
        "Credentials { provider_name: \"EnvironmentVariable\", access_key_id: \"access\", secret_access_key: \"** redacted **\", expires_after: never } secret None [CredentialsEnvVars] 0 true",
    ),
    (ROLE, "Now 0 true"),
    (PROCESS, "Run { command: \"p\" } 0 true"),
    (IDENTITY, "Now 0 true"),
    (CONTAINER, "Read { path: \"/t\" } 0 true"),
    (METADATA, "Now 0 true"),
    (SESSION, "Now 0 true"),
    (SIGN_IN, "Now 0 true"),
];

#[test]
fn first_polls(rt: HostRuntime) -> Result<(), Fail> {
    for (script, want) in FIRST {
        let words = words_of(rt.alloc(), script)?;
        assert_eq!(rt; words.as_str(), *want, "{script}");
    }
    Ok(())
}

// The region that a first poll gives.
fn given(step: RegionStep) -> Option<Region> {
    match step {
        RegionStep::Ready(region) => region,
        RegionStep::Pending => None,
    }
}

// The region that a chain has without a question: by its run, and by a future of such a run.
fn by_runs(alloc: Global, chain: &RegionProviderChain) -> Result<String, OutOfMemory> {
    let mut run = RegionRun::start(alloc, chain);
    let by_run = given(run.poll(None)?);
    let mut future = ProvideRegion::new(RegionRun::start(alloc, chain));
    let by_future = given(future.poll(None)?);
    Ok(format!(in alloc; "{by_run:?} {by_future:?}")?)
}

// The region that is known already.
fn known(alloc: Global) -> Result<String, OutOfMemory> {
    let mut future = ProvideRegion::ready(Some(Region::new(alloc, "eu-west-2")?));
    let region = given(future.poll(None)?);
    Ok(format!(in alloc; "{region:?}")?)
}

fn regions(alloc: Global) -> Result<String, OutOfMemory> {
    let fixed = RegionSource::Fixed(Some(Region::new(alloc, "eu-west-1")?));
    let chain = RegionProviderChain::first_try(alloc, fixed)?;
    let by_runs = by_runs(alloc, &chain)?;
    let known = known(alloc)?;
    Ok(format!(in alloc; "{by_runs} {known}")?)
}

#[test]
fn regions_by_polls(rt: HostRuntime) -> Result<(), Fail> {
    let words = regions(rt.alloc())?;
    assert_eq!(rt;
        words.as_str(),
        "Some(\"eu-west-1\") Some(\"eu-west-1\") Some(\"eu-west-2\")"
    );
    Ok(())
}
