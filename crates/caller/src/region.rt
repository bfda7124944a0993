//! The region of a configuration.
ghost use Rattle.std.specs.Prelude.{◌≡◌, IfOk};
ghost use Rattle.cfg_region.specs.Calls.{AsksInOrder};
ghost use Rattle.cfg_region.specs.Defaults.{default_trees};
ghost use Rattle.caller.specs.Regions.{RegionTold};

use aws_config::default_provider::region::DefaultRegionChain;
use aws_config::devices::{Devices, World};
use aws_config::{OutOfMemory, ProviderConfig, Region};
use std::alloc::Global;

/// The region that the default chain gives for this configuration: that of its variables, else of its selected
/// profile, else of instance metadata. `OutOfMemory` where memory runs out.
pub fn region_of<D: Devices>(
    alloc: Global,
    config: &ProviderConfig,
    world: &mut World<D>,
) -> Result<Option<Region>, OutOfMemory>
    ensures { IfOk result (RegionTold ⟦<D as Devices>⟧ config.now world.old world.new) }
{
    let builder = DefaultRegionChain::builder(alloc)?;
    let configured = builder.configure(config)?;
    let chain = configured.build()?;
    chain.region(world)
}
