//! The lines of the other uses: what each came to, and what it asked.
ghost use Rattle.std.specs.Prelude.{◌≡◌, [], All, IfOk};

use crate::configuration::{TOKEN, TOKEN_PATH, chain_for};
use crate::devices::OneFile;
use crate::held::held_calls;
use crate::keys::keys_of;
use crate::lines::call_line;
use crate::receipts::call_by_receipts;
use crate::region::region_of;
use crate::source::Vault;
use crate::threads::calls_on_threads;
use aws_config::default_provider::credentials::DefaultCredentialsChain;
use aws_config::default_provider::region::RegionSource;
use aws_config::devices::World;
use aws_config::journal::{Entry, Question};
use aws_config::profile::{ProfileSet, ProfileSource, Section};
use aws_config::provider_config::ProviderConfig;
use aws_config::{Env, EnvText, OutOfMemory, Region, Text};
use std::alloc::Global;
use std::sync::Wait;
use std::thread::Threads;

/// A line for each: three calls by receipts, of which the last has too few questions; keys in variables; a role
/// over a source of the caller's own; a region; a held call; and two callers on threads. `OutOfMemory` where
/// memory runs out.
pub fn uses<R: Threads + Wait + Sync>(rt: &R, alloc: Global) -> Result<String, OutOfMemory> {
    let mut lines = String::new(alloc);
    for (profile, limit) in [("reader", 3), ("auditor", 5), ("reader", 2)] {
        let line = line_by_receipts(alloc, profile, limit)?;
        lines.push_str(line.as_str())?;
    }
    lines.push_str(line_of_keys(alloc)?.as_str())?;
    lines.push_str(line_over_vault(alloc)?.as_str())?;
    lines.push_str(line_of_region(alloc)?.as_str())?;
    lines.push_str(line_of_held(alloc)?.as_str())?;
    lines.push_str(line_on_threads(rt, alloc)?.as_str())?;
    Ok(lines)
}

fn new_world(alloc: Global) -> World<OneFile>
    ensures { result.journal ≡ [] }
{
    let devices = OneFile {
        alloc,
        path: TOKEN_PATH,
        content: TOKEN,
        failures: 0,
    };
    World::new(alloc, devices)
}

// The line of a call by receipts, which may ask so many questions.
fn line_by_receipts(alloc: Global, profile: &str, limit: usize) -> Result<String, OutOfMemory> {
    let mut world = new_world(alloc);
    let chain = chain_for(alloc, profile)?;
    let kept = chain.new_kept()?;
    match call_by_receipts(alloc, &chain, kept, &mut world, limit)? {
        Some(called) => call_line(alloc, &called.answer, world.journal()),
        None => Ok(format!(in alloc; "more than {limit} questions\n")?),
    }
}

// Variables of these names and texts.
fn env_of(alloc: Global, variables: &[(&str, &str)]) -> Result<Env, OutOfMemory> {
    let mut held = Vec::new(alloc);
    for (name, text) in variables {
        held.push((
            String::from_str(alloc, name)?,
            EnvText::Text(Text::of(alloc, text)?),
        ))?;
    }
    Env::new(alloc, held)
}

fn line_of_keys(alloc: Global) -> Result<String, OutOfMemory> {
    let env = env_of(
        alloc,
        &[("AWS_ACCESS_KEY_ID", "K"), ("AWS_SECRET_ACCESS_KEY", "S")],
    )?;
    let mut world = new_world(alloc);
    let answer = keys_of(alloc, env, &mut world);
    call_line(alloc, &answer, world.journal())
}

// A role over the source of the caller's own.
fn role_over_vault(alloc: Global) -> Result<ProviderConfig, OutOfMemory> {
    let mut properties = Vec::new(alloc);
    for (key, value) in [("role_arn", "r"), ("credential_source", "Vault")] {
        properties.push((
            String::from_str(alloc, key)?,
            String::from_str(alloc, value)?,
        ))?;
    }
    let profiles = vec![in alloc; Section::new(alloc, "default", properties)?]?;
    let set = ProfileSet::new(alloc, profiles, Vec::new(alloc), "default")?;
    let config = ProviderConfig::without_region(alloc)?;
    Ok(config.with_profiles(ProfileSource::Sections(set)))
}

fn line_over_vault(alloc: Global) -> Result<String, OutOfMemory> {
    let mut world = new_world(alloc);
    let region = RegionSource::Fixed(Some(Region::new(alloc, "eu-west-1")?));
    let builder = DefaultCredentialsChain::builder(alloc)?.configure(role_over_vault(alloc)?);
    let vault = Box::new(alloc, Vault::new(alloc))?;
    let builder = builder
        .with_custom_credential_source("Vault", vault)?
        .region(region);
    let chain = builder.build(&mut world)?;
    let mut kept = chain.new_kept()?;
    let answer = chain.provide_credentials(&mut kept, &mut world);
    call_line(alloc, &answer, world.journal())
}

fn line_of_region(alloc: Global) -> Result<String, OutOfMemory> {
    let env = env_of(alloc, &[("AWS_REGION", "eu-west-1")])?;
    let config = ProviderConfig::without_region(alloc)?.with_env(env);
    let mut world = new_world(alloc);
    match region_of(alloc, &config, &mut world)? {
        Some(region) => Ok(format!(in alloc; "{}\n", region.as_str())?),
        None => Ok(String::from_str(alloc, "no region\n")?),
    }
}

// The line of the second call, over the journal of both.
fn line_of_held(alloc: Global) -> Result<String, OutOfMemory> {
    let mut world = new_world(alloc);
    match held_calls(alloc, &mut world) {
        Ok((_, second)) => call_line(alloc, &Ok(second), world.journal()),
        Err(fault) => Ok(format!(in alloc; "{fault}\n")?),
    }
}

fn two_worlds(alloc: Global) -> Result<Vec<World<OneFile>>, OutOfMemory>
    ensures { IfOk result (λ worlds. All (λ w. w.journal ≡ []) worlds.items) }
{
    Ok(vec![in alloc; new_world(alloc), new_world(alloc)]?)
}

// Either caller may load the token, and the other one finds it kept.
fn line_on_threads<R: Threads + Wait + Sync>(rt: &R, alloc: Global) -> Result<String, OutOfMemory> {
    let chain = chain_for(alloc, "reader")?;
    let Ok(calls) = calls_on_threads(rt, alloc, &chain, two_worlds(alloc)?) else {
        return Ok(String::from_str(alloc, "histories differ\n")?);
    };
    let mut loads: usize = 0;
    for called in calls.as_slice() {
        if reads_a_file(called.world.journal()) {
            loads = loads.saturating_add(1);
        }
    }
    let callers = calls.as_slice().len();
    Ok(format!(in alloc; "{callers} callers, {loads} load\n")?)
}

fn reads_a_file(journal: &[Entry]) -> bool {
    journal
        .iter()
        .any(|entry| matches!(entry.question(), Question::Read { .. }))
}
