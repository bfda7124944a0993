//! The worked calls over devices of which one call fails, each in turn. The lines are worked out by docs/RULES.md, and
//! beside each stands why they are these.
ghost use Rattle.std.specs.Prelude.{◌≡◌};
ghost use Rattle.cfg_world.specs.Script.{AllFit};
ghost use Rattle.cfg_script.specs.Script.{plain};
ghost use Rattle.cfg_script.specs.Devices.{lists_of};

mod providers;
mod tokens;

use crate::program::own::own_source;
use cfg_profile::ProviderConfig;
use cfg_program::configuration::configuration;
use cfg_program::lines::{write_expiry, write_questions, write_text};
use cfg_program::resolve::{calls, chain_over};
use cfg_program::{Below, LineForm};
use cfg_region::{DefaultRegionChain, RegionSource};
use cfg_script::{Script, ScriptError, read_script};
use cfg_token_chain::DefaultTokenChain;
use cfg_types::{OutOfMemory, Outcome};
use cfg_world::{FaultDevices, ScriptDevices, World};
use std::alloc::Global;
use std::str;

type FaultWorld = World<FaultDevices<ScriptDevices>>;

// The lines of so many calls of the chain of credentials.
fn call_lines(
    alloc: Global,
    config: ProviderConfig,
    count: u64,
    world: &mut FaultWorld,
) -> Result<Vec<u8>, OutOfMemory> {
    let custom = vec![in alloc; own_source(alloc, "FIXED")?]?;
    let chain = chain_over(alloc, config, None, custom)?;
    let mut kept = chain.new_kept()?;
    let mut lines = Vec::new(alloc);
    let form = LineForm::Call(Below::Nothing);
    calls(&chain, count, form, &mut kept, world, &mut lines)?;
    Ok(lines)
}

// The line of a call of the default region chain.
fn region_line(
    alloc: Global,
    config: &ProviderConfig,
    world: &mut FaultWorld,
) -> Result<Vec<u8>, OutOfMemory> {
    let chain = DefaultRegionChain::builder(alloc)?
        .configure(config)?
        .build()?;
    let region = chain.region(world)?;
    let mut line = Vec::from_slice(alloc, b"region ")?;
    match region {
        Some(region) => write_text(&mut line, region.as_str())?,
        None => line.extend_from_slice(b"none")?,
    }
    write_questions(&mut line, world.journal())?;
    Ok(line)
}

// The line of a call of the default token chain.
fn token_line(
    alloc: Global,
    config: ProviderConfig,
    world: &mut FaultWorld,
) -> Result<Vec<u8>, OutOfMemory> {
    let chain = DefaultTokenChain::builder(alloc)?
        .configure(config)
        .region(RegionSource::Fixed(None))
        .build(world)?;
    let mut kept = chain.new_kept()?;
    let outcome = Outcome {
        answer: chain.provide_token(&mut kept, world),
    };
    let mut line = Vec::new(alloc);
    match &outcome.answer {
        Ok(token) => {
            line.extend_from_slice(b"token ")?;
            write_expiry(&mut line, token.expiry())?;
        }
        Err(error) => {
            line.extend_from_slice(b"error ")?;
            line.extend_from_slice(error.class().name().as_bytes())?;
        }
    }
    write_questions(&mut line, world.journal())?;
    Ok(line)
}

// What this command writes where the call of the devices of this number fails, none for 0, and how many of their
// calls could fail.
fn told(
    alloc: Global,
    command: &str,
    script: Script,
    at: u64,
) -> Result<(Vec<u8>, u64), OutOfMemory>
    requires { AllFit (lists_of (plain script)) }
{
    let Script {
        variables,
        profiles,
        selected,
        region: _,
        sleep,
        service,
        calls,
        devices,
    } = script;
    let config = configuration(alloc, variables, profiles, selected, sleep, service)?;
    let devices = ScriptDevices::new(alloc, devices)?;
    let mut world = World::new(alloc, FaultDevices::new(devices, at));
    let lines = match command {
        "region" => region_line(alloc, &config, &mut world)?,
        "token" => token_line(alloc, config, &mut world)?,
        _ => call_lines(alloc, config, calls, &mut world)?,
    };
    Ok((lines, world.into_devices().calls()))
}

fn told_by(
    alloc: Global,
    command: &str,
    script: &str,
    at: u64,
) -> Result<(String, u64), ScriptError> {
    let script = read_script(alloc, script.as_bytes())?;
    let (lines, calls) = told(alloc, command, script, at)?;
    let lines = str::from_utf8(lines.as_slice()).unwrap_or("not UTF-8");
    Ok((String::from_str(alloc, lines)?, calls))
}

// A case: what it is, its command, its script and what is written where no call of the devices fails; and for each
// number, from 1, what is written where the call of this number fails, and why.
pub(crate) struct Case {
    what: &'static str,
    command: &'static str,
    script: &'static str,
    whole: &'static str,
    faults: &'static [(&'static str, &'static str)],
}

// The first number where something else is written, and what that is; or what is written where none fails, and how
// many calls could.
fn unlike(alloc: Global, case: &Case) -> Result<String, ScriptError> {
    let mut at: u64 = 0;
    for (lines, why) in case.faults {
        at = at.saturating_add(1);
        let (told, _) = told_by(alloc, case.command, case.script, at)?;
        if told.as_str() != *lines {
            return Ok(format!(in alloc; "{at}: {told} though {why}")?);
        }
    }
    let (whole, calls) = told_by(alloc, case.command, case.script, 0)?;
    Ok(format!(in alloc; "{whole}{calls} could fail")?)
}

// The first case of which something else is told, and what that is.
pub(crate) fn first_unlike(alloc: Global, cases: &[Case]) -> Result<Option<String>, ScriptError> {
    for case in cases {
        let told = unlike(alloc, case)?;
        let want = format!(in alloc; "{}{} could fail", case.whole, case.faults.len())?;
        if told != want {
            return Ok(Some(format!(in alloc; "{}: {told}", case.what)?));
        }
    }
    Ok(None)
}
