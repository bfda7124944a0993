//! What no clause says: that memory suffices for the run of a chain of regions; and, by the worked rows, that one which
//! is driven by receipts gives and asks what the direct call does.
ghost use Rattle.std.specs.Prelude.{◌≡◌, IsTrue, IsSome, IfOk, Some};
ghost use Rattle.cfg_region.specs.SourceLists.{region_sources, chain_tree};
ghost use Rattle.cfg_run.specs.RegionRuns.{IsUnderWay};

use crate::driven::asked_words;
use crate::runs::question_words;
use crate::setup::{Configured, questions, read_configuration};
use cfg_region::RegionProviderChain;
use cfg_run::{RegionRun, RegionStep};
use cfg_script::ScriptError;
use cfg_types::{OutOfMemory, TryCopy};
use cfg_world::{Receipt, ScriptDevices, World};
use std::alloc::{AllocError, Global};
use std::test::Fail;

// More than the questions of any call here.
const MOST: usize = 40;

fn shown(alloc: Global, run: &RegionRun<'_>) -> Result<String, AllocError> {
    let question = question_words(alloc, run.question())?;
    let asked = asked_words(alloc, run.asked())?;
    format!(in alloc; "{question}{asked}")
}

// Whether a poll without a receipt is `Pending`, and what is shown stays.
fn stays(alloc: Global, run: &mut RegionRun<'_>) -> Result<bool, OutOfMemory>
    requires { IsUnderWay (chain_tree (region_sources told_region repeated run.old.chain.now)) run.old.progress.asked run.old.progress.question }
    ensures shown { IfOk result (λ same. IsTrue same → IsSome run.new.progress.question) }
    ensures under_way { IfOk result (λ same. IsTrue same →
        IsUnderWay (chain_tree (region_sources told_region repeated run.new.chain.now)) run.new.progress.asked run.new.progress.question) }
{
    let before = shown(alloc, run)?;
    match run.poll(None)? {
        RegionStep::Pending => {
            let again = shown(alloc, run)?;
            Ok(before == again)
        }
        RegionStep::Ready(_) => Ok(false),
    }
}

// The receipt of the question that is shown.
fn answered(
    alloc: Global,
    run: &RegionRun<'_>,
    world: &mut World<ScriptDevices>,
) -> Result<Receipt, OutOfMemory>
    requires { IsSome run.now.progress.question }
    ensures { IfOk result (λ e. run.now.progress.question ≡ Some e.0) }
{
    let question = run.question().unwrap().copy(alloc)?;
    world.ask(question)
}

// The region of a run by the answers of this world, and what it asked. Each poll is made once more without a receipt.
fn by_run(
    alloc: Global,
    chain: &RegionProviderChain,
    world: &mut World<ScriptDevices>,
) -> Result<String, OutOfMemory> {
    let mut run = RegionRun::start(alloc, chain);
    let mut receipt = None;
    for _ in 0..=MOST {
        match run.poll(receipt)? {
            RegionStep::Ready(region) => {
                let asked = asked_words(alloc, run.asked())?;
                return Ok(format!(in alloc; "{region:?}{asked}")?);
            }
            RegionStep::Pending => {
                if !stays(alloc, &mut run)? {
                    return Ok(String::from_str(alloc, "a poll changes more than its receipt")?);
                }
                receipt = Some(answered(alloc, &run, world)?);
            }
        }
    }
    Ok(String::from_str(alloc, "no region")?)
}

fn by_call(
    alloc: Global,
    chain: &RegionProviderChain,
    world: &mut World<ScriptDevices>,
) -> Result<String, OutOfMemory> {
    let region = chain.region(world)?;
    let asked = questions(alloc, world.journal())?;
    Ok(format!(in alloc; "{region:?}{asked}")?)
}

// The region of the default chain of what is configured.
fn region_by(alloc: Global, configured: Configured, is_run: bool) -> Result<String, OutOfMemory> {
    let Configured { config, mut world } = configured;
    let chain = RegionProviderChain::default_provider(alloc, config)?;
    if is_run {
        by_run(alloc, &chain, &mut world)
    } else {
        by_call(alloc, &chain, &mut world)
    }
}

fn region_of(alloc: Global, script: &str, is_run: bool) -> Result<String, ScriptError> {
    let configured = read_configuration(alloc, script)?;
    Ok(region_by(alloc, configured, is_run)?)
}

const REGIONS: &[&str] = &[
    r#"{"variables":[["AWS_REGION",""],["AWS_DEFAULT_REGION","us-east-2"]]}"#,
    r#"{"selected":"needs-source","profiles":[["needs-source",[["role_arn","x"],["source_profile","credentials"]]],["credentials",[["region","us-east-1"]]]]}"#,
    r#"{"clock":[0],"replies":{"imds-token":[[200,[["x-aws-ec2-metadata-token-ttl-seconds","21600"]],"tok"]],"imds-get":[[200,[],"eu-west-1"]]}}"#,
    r#"{"variables":[["AWS_EC2_METADATA_DISABLED","TRUE"]],"clock":[0],"replies":{"imds-token":[[200,[["x-aws-ec2-metadata-token-ttl-seconds","21600"]],"tok"]],"imds-get":[[200,[],"eu-west-1"]]}}"#,
];

#[test]
fn worked_regions_as_runs(rt: HostRuntime) -> Result<(), Fail> {
    for script in REGIONS {
        let by_run = region_of(rt.alloc(), script, true)?;
        let by_call = region_of(rt.alloc(), script, false)?;
        assert_eq!(rt; by_run.as_str(), by_call.as_str(), "{script}");
    }
    Ok(())
}
