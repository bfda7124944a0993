//! The region that each source gives over a script, and how much is asked for it.
use crate::region::setup::{Setup, set_up};
use cfg_imds::{Client, ImdsTokenState};
use cfg_profile::ProviderConfig;
use cfg_region::steps::with_region_from;
use cfg_region::{
    DefaultRegionChain, EnvironmentVariableRegionProvider, ImdsRegionProvider,
    ProfileFileRegionProvider, ProvideRegion, RegionProviderChain, RegionSource,
    load_default_region, with_default_region,
};
use cfg_types::{OutOfMemory, Region, TryCopy, copy_option};
use cfg_world::{ScriptDevices, World};
use std::alloc::Global;
use std::test::Fail;

// A region of the test's own, or none.
struct Own {
    alloc: Global,
    region: Option<Region>,
}

impl Drop for Own {
    fn drop(self) {
        let Own {
            alloc: _,
            region: _,
        } = self;
    }
}

impl ProvideRegion for Own {
    ghost told_region = { λ o. o.region };

    fn region(&self) -> Result<Option<Region>, OutOfMemory> {
        copy_option(self.alloc, &self.region)
    }
}

// Of two sources that give none, metadata among them, then the default chain, a fixed none, and then two that
// give one.
fn of_sources(
    alloc: Global,
    config: &ProviderConfig,
    world: &mut World<ScriptDevices>,
) -> Result<Option<Region>, OutOfMemory> {
    let region = None;
    let none = RegionSource::Custom(Box::new(alloc, Own { alloc, region })?);
    let client = Client::configured(alloc, config)?;
    let metadata = ImdsRegionProvider::builder(alloc)?
        .imds_client(client)
        .build()?;
    let region = Some(Region::new(alloc, "own")?);
    let own = RegionSource::Custom(Box::new(alloc, Own { alloc, region })?);
    let last = RegionSource::Fixed(Some(Region::new(alloc, "last")?));
    let chain = RegionProviderChain::first_try(alloc, none)?.or_else(RegionSource::Imds(metadata))?;
    let chain = chain.or_default_provider(config.copy(alloc)?)?;
    let chain = chain.or_else(RegionSource::Fixed(None))?;
    chain.or_else(own)?.or_else(last)?.region(world)
}

fn of_metadata(
    alloc: Global,
    config: &ProviderConfig,
    world: &mut World<ScriptDevices>,
) -> Result<Option<Region>, OutOfMemory> {
    let builder = ImdsRegionProvider::builder(alloc)?;
    let mut state = ImdsTokenState::new();
    builder
        .configure(config)?
        .build()?
        .region(&mut state, world)
}

// Of the default chain, by this profile.
fn of_default_chain(
    alloc: Global,
    config: &ProviderConfig,
    name: &str,
    world: &mut World<ScriptDevices>,
) -> Result<Option<Region>, OutOfMemory> {
    let builder = DefaultRegionChain::builder(alloc)?.configure(config)?;
    builder.profile_name(name)?.build()?.region(world)
}

fn of_profile(
    alloc: Global,
    config: &ProviderConfig,
    name: &str,
) -> Result<Option<Region>, OutOfMemory> {
    let profiles = config.profiles().copy(alloc)?;
    let builder = ProfileFileRegionProvider::builder(alloc)?.configure(config)?;
    builder
        .profile_name(name)?
        .profiles(profiles)
        .build()?
        .region()
}

// A configuration with a region by each of the three calls that give one.
fn given(
    alloc: Global,
    call: &str,
    config: &ProviderConfig,
    world: &mut World<ScriptDevices>,
) -> Result<Option<Region>, OutOfMemory> {
    let config = config.copy(alloc)?;
    let env = config.env().copy(alloc)?;
    let profiles = config.profiles().copy(alloc)?;
    let config = match call {
        "fixed" => {
            let source = RegionSource::Fixed(Some(Region::new(alloc, "new")?));
            with_region_from(alloc, Some(source), config, world)?
        }
        "loaded" => load_default_region(alloc, config, world)?,
        _ => with_default_region(alloc, env, profiles, world)?,
    };
    match config.region() {
        Some(region) => Ok(Some(region.copy(alloc)?)),
        None => Ok(None),
    }
}

fn region_of(
    alloc: Global,
    call: &str,
    config: &ProviderConfig,
    world: &mut World<ScriptDevices>,
) -> Result<Option<Region>, OutOfMemory> {
    match call {
        "environment" => {
            let env = config.env().copy(alloc)?;
            EnvironmentVariableRegionProvider::new(alloc, env).region()
        }
        "profile" => of_profile(alloc, config, "b"),
        "metadata" => of_metadata(alloc, config, world),
        "default chain" => of_default_chain(alloc, config, "b", world),
        "first default" => {
            let chain = RegionProviderChain::default_provider(alloc, config.copy(alloc)?)?;
            chain.region(world)
        }
        "sources" => of_sources(alloc, config, world),
        _ => given(alloc, call, config, world),
    }
}

fn words_of(alloc: Global, call: &str, setup: Setup) -> Result<String, OutOfMemory> {
    let Setup { config, mut world } = setup;
    let region = region_of(alloc, call, &config, &mut world)?;
    let asked = world.journal().len();
    Ok(format!(in alloc; "{region:?} {asked}")?)
}

// Regions of two profiles.
const PROFILES: &str =
    r#"{"variables":[["AWS_PROFILE","b"]],"profiles":[["default",[["region","a"]]],["b",[["REGION","b"]]]]}"#;

// Two session tokens, a get that is not found, and one that gives a region.
const METADATA: &str =
    r#"{"replies":{"imds-token":[[200,[["x-aws-ec2-metadata-token-ttl-seconds","21600"]],"t"],[200,[["x-aws-ec2-metadata-token-ttl-seconds","21600"]],"t"]],"imds-get":[[404,[],""],[200,[],"eu-west-1"]]}}"#;

#[test]
fn regions(rt: HostRuntime) -> Result<(), Fail> {
    let table: &[(&str, &str, &str)] = &[
        (
            "environment",
            r#"{"variables":[["AWS_REGION",""],["AWS_DEFAULT_REGION","b"]]}"#,
            r#"Some("") 0"#,
        ),
        ("profile", PROFILES, r#"Some("b") 0"#),
        ("metadata", METADATA, "None 4"),
        ("default chain", PROFILES, r#"Some("b") 0"#),
        ("first default", PROFILES, r#"Some("b") 0"#),
        ("sources", METADATA, r#"Some("eu-west-1") 8"#),
        ("sources", "{}", r#"Some("own") 6"#),
        ("fixed", METADATA, r#"Some("new") 0"#),
        ("loaded", PROFILES, r#"Some("b") 0"#),
        ("of variables and profiles", PROFILES, r#"Some("b") 0"#),
    ];
    for (call, script, want) in table {
        let setup = set_up(rt.alloc(), script)?;
        let words = words_of(rt.alloc(), call, setup)?;
        assert_eq!(rt; words.as_str(), *want, "{call}");
    }
    Ok(())
}
