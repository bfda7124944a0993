//! Configurations that are given a region.
ghost use Rattle.std.specs.Prelude.{◌≡◌, IfOk, OnErr, Some, None, option_map};
ghost use Rattle.cfg_region.specs.Calls.{configured_with, RegionSet, RegionBreaks};
ghost use Rattle.cfg_region.specs.Sources.{source_of};

use crate::default_provider::region::DefaultRegionChain;
use crate::source::RegionSource;
use cfg_profile::{ProfileSource, ProviderConfig};
use cfg_types::{Env, OutOfMemory};
use cfg_world::{Devices, World};
use std::alloc::Global;

// The configuration with the region of this source.
fn with_region_of<D: Devices>(
    alloc: Global,
    source: &RegionSource,
    config: ProviderConfig,
    world: &mut World<D>,
) -> Result<ProviderConfig, OutOfMemory>
    ensures set { IfOk result (RegionSet ⟦<D as Devices>⟧ (Some (source_of told_region repeated source.now)) config world.old world.new) }
    ensures breaks { OnErr result (RegionBreaks ⟦<D as Devices>⟧ (Some (source_of told_region repeated source.now)) config world.old world.new) }
{
    match source.follow(alloc, world) {
        Ok(region) => Ok(config.with_region(region)),
        Err(_) => Err(OutOfMemory),
    }
}

/// The configuration with the region of its default chain, as [`DefaultRegionChain::region`] gives it, in
/// place of its own. None where that gives none.
///
/// # Errors
///
/// `OutOfMemory` where memory runs out. The journal then has gained the beginning of what the call asks, or
/// nothing.
pub fn load_default_region<D: Devices>(
    alloc: Global,
    config: ProviderConfig,
    world: &mut World<D>,
) -> Result<ProviderConfig, OutOfMemory>
    ensures set { IfOk result (RegionSet ⟦<D as Devices>⟧ None config world.old world.new) }
    ensures breaks { OnErr result (RegionBreaks ⟦<D as Devices>⟧ None config world.old world.new) }
{
    let chain = DefaultRegionChain::of(alloc, config)?;
    match chain.follow(world) {
        Ok(region) => Ok(chain.into_configuration().with_region(region)),
        Err(_) => Err(OutOfMemory),
    }
}

/// A configuration of these variables and sections, with the region of its default chain, as
/// [`load_default_region`] gives it. Providers may sleep.
///
/// # Errors
///
/// `OutOfMemory` where memory runs out. The journal then has gained the beginning of what the call asks, or
/// nothing.
pub fn with_default_region<D: Devices>(
    alloc: Global,
    env: Env,
    profiles: ProfileSource,
    world: &mut World<D>,
) -> Result<ProviderConfig, OutOfMemory>
    ensures set { IfOk result (RegionSet ⟦<D as Devices>⟧ None (configured_with env profiles) world.old world.new) }
    ensures breaks { OnErr result (RegionBreaks ⟦<D as Devices>⟧ None (configured_with env profiles) world.old world.new) }
{
    let config = ProviderConfig::without_region(alloc)?;
    let config = config.with_env(env).with_profiles(profiles);
    load_default_region(alloc, config, world)
}

/// The configuration with the region of this source in place of its own or, where no source is given, with
/// that of its default chain. What is asked gives the region, none included, and nothing else is asked.
///
/// # Errors
///
/// `OutOfMemory` where memory runs out. The journal then has gained the beginning of what the call asks, or
/// nothing.
pub fn with_region_from<D: Devices>(
    alloc: Global,
    source: Option<RegionSource>,
    config: ProviderConfig,
    world: &mut World<D>,
) -> Result<ProviderConfig, OutOfMemory>
    ensures set { IfOk result (RegionSet ⟦<D as Devices>⟧ (option_map (source_of told_region repeated) source) config world.old world.new) }
    ensures breaks { OnErr result (RegionBreaks ⟦<D as Devices>⟧ (option_map (source_of told_region repeated) source) config world.old world.new) }
{
    match source {
        Some(source) => with_region_of(alloc, &source, config, world),
        None => load_default_region(alloc, config, world),
    }
}
