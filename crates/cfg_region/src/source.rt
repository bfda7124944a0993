//! Where a region comes from.
ghost use Rattle.cfg_world.specs.Follows.{Follows};

use crate::custom::{CustomRegion, region_told};
use crate::default_provider::region::DefaultRegionChain;
use crate::environment::region::EnvironmentVariableRegionProvider;
use crate::imds::region::ImdsRegionProvider;
use crate::profile::region::ProfileFileRegionProvider;
use cfg_types::{Region, copy_option};
use cfg_world::{Asking, Stop};
use std::alloc::Global;

/// Where a region comes from.
#[derive(Drop)]
pub enum RegionSource {
    /// This region, or none. Nothing is asked.
    Fixed(Option<Region>),
    /// The environment's variables. Nothing is asked.
    Environment(EnvironmentVariableRegionProvider),
    /// The selected profile. Nothing is asked.
    Profile(ProfileFileRegionProvider),
    /// Instance metadata. Each call begins with no session token.
    Imds(ImdsRegionProvider),
    /// A default chain.
    Default(DefaultRegionChain),
    /// A source of the caller's own. Nothing is asked.
    Custom(CustomRegion),
}

impl RegionSource {
    ghost use Rattle.cfg_region.specs.Sources.{source_of, tree};

    /// The region of the source, or none, over anything that can be asked.
    ///
    /// # Errors
    ///
    /// `Stop::OutOfMemory` where memory runs out, `Stop::Open` where an answer is not known yet.
    #[tactic(auto, using(cfg_world::proofs::Inquiries::asking_steps), unfolding(crate::specs::Sources::tree))]
    pub fn follow<A: Asking>(&self, alloc: Global, asking: &mut A) -> Result<Option<Region>, Stop>
        ensures { Follows ⟦<A as Asking>⟧ (tree (source_of told_region repeated self.now)) asking.old asking.new result }
    {
        match self {
            RegionSource::Fixed(region) => {
                let region = copy_option(alloc, region)?;
                Ok(region)
            }
            RegionSource::Environment(provider) => {
                let region = provider.region()?;
                Ok(region)
            }
            RegionSource::Profile(provider) => {
                let region = provider.region()?;
                Ok(region)
            }
            RegionSource::Imds(provider) => provider.follow_anew(asking),
            RegionSource::Default(chain) => chain.follow(asking),
            RegionSource::Custom(own) => {
                let region = region_told(own)?;
                Ok(region)
            }
        }
    }
}
