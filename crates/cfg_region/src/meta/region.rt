//! Chains of regions.
ghost use Rattle.std.specs.Prelude.{◌≡◌, ◌∷◌, ◌++◌, [], IfOk, OnErr, map};
ghost use Rattle.cfg_world.specs.Follows.{Follows};
ghost use Rattle.cfg_imds.specs.Calls.{CallBreaks};
ghost use Rattle.cfg_region.specs.Calls.{AsksInOrder};
ghost use Rattle.cfg_region.specs.Sources.{source_of};
ghost use Rattle.cfg_region.specs.Chains.{first_given};
ghost use Rattle.cfg_region.specs.Sources.{tree};

use crate::default_provider::region::DefaultRegionChain;
use crate::source::RegionSource;
use cfg_profile::ProviderConfig;
use cfg_types::{OutOfMemory, Region};
use cfg_world::{Asking, Devices, Stop, World};
use std::alloc::Global;

/// Sources of a region, of which the first that gives one is the answer.
#[derive(Drop)]
pub struct RegionProviderChain {
    alloc: Global,
    sources: Vec<RegionSource>,
}

// Asks the sources in order, up to the first that gives a region.
fn follow_sources<A: Asking>(
    alloc: Global,
    sources: &[RegionSource],
    asking: &mut A,
) -> Result<Option<Region>, Stop>
    ensures { Follows ⟦<A as Asking>⟧ (first_given (map tree (map (source_of told_region repeated) sources.now))) asking.old asking.new result }
{
    for source in sources {
        match source.follow(alloc, asking)? {
            Some(region) => return Ok(Some(region)),
            None => {}
        }
    }
    Ok(None)
}

impl RegionProviderChain {
    ghost use Rattle.cfg_region.specs.SourceLists.{sources_of, trees, chain_tree, EndsByDefault};

    /// A chain of this source. `OutOfMemory` where memory runs out.
    pub fn first_try(
        alloc: Global,
        source: RegionSource,
    ) -> Result<RegionProviderChain, OutOfMemory>
        ensures { IfOk result (λ c. sources_of told_region repeated c ≡ source_of told_region repeated source ∷ []) }
    {
        let mut sources = Vec::new(alloc);
        sources.push(source)?;
        Ok(RegionProviderChain { alloc, sources })
    }

    /// With this source behind those that it has. `OutOfMemory` where memory runs out.
    pub fn or_else(mut self, source: RegionSource) -> Result<RegionProviderChain, OutOfMemory>
        ensures { IfOk result (λ c. sources_of told_region repeated c ≡
            sources_of told_region repeated self ++ source_of told_region repeated source ∷ []) }
    {
        self.sources.push(source)?;
        Ok(self)
    }

    /// A chain of the default chain of this configuration, for which nothing is asked yet. `OutOfMemory` where
    /// memory runs out.
    pub fn default_provider(
        alloc: Global,
        config: ProviderConfig,
    ) -> Result<RegionProviderChain, OutOfMemory>
        ensures { IfOk result (λ c. EndsByDefault config [] (sources_of told_region repeated c)) }
    {
        let default = DefaultRegionChain::of(alloc, config)?;
        let chain = RegionProviderChain::first_try(alloc, RegionSource::Default(default))?;
        Ok(chain)
    }

    /// With the default chain of this configuration behind those that it has. `OutOfMemory` where memory runs
    /// out.
    pub fn or_default_provider(
        self,
        config: ProviderConfig,
    ) -> Result<RegionProviderChain, OutOfMemory>
        ensures { IfOk result (λ c. EndsByDefault config (sources_of told_region repeated self) (sources_of told_region repeated c)) }
    {
        let default = DefaultRegionChain::of(self.alloc, config)?;
        let chain = self.or_else(RegionSource::Default(default))?;
        Ok(chain)
    }

    /// The body of [`Self::region`], over anything that can be asked.
    ///
    /// # Errors
    ///
    /// `Stop::OutOfMemory` where memory runs out, `Stop::Open` where an answer is not known yet.
    pub fn follow<A: Asking>(&self, asking: &mut A) -> Result<Option<Region>, Stop>
        ensures { Follows ⟦<A as Asking>⟧ (chain_tree (sources_of told_region repeated self.now)) asking.old asking.new result }
    {
        follow_sources(self.alloc, self.sources.as_slice(), asking)
    }

    /// The region of the first source that gives one, in order. None exactly where no source gives one. Each
    /// source of instance metadata begins with no session token.
    ///
    /// # Errors
    ///
    /// `OutOfMemory` where memory runs out. The journal then has gained the beginning of what the call asks, or
    /// nothing.
    pub fn region<D: Devices>(&self, world: &mut World<D>) -> Result<Option<Region>, OutOfMemory>
        ensures tells { IfOk result (AsksInOrder ⟦<D as Devices>⟧ (trees (sources_of told_region repeated self.now)) world.old world.new) }
        ensures breaks { OnErr result (CallBreaks ⟦<D as Devices>⟧ (chain_tree (sources_of told_region repeated self.now)) world.old world.new) }
    {
        match self.follow(world) {
            Ok(region) => Ok(region),
            Err(_) => Err(OutOfMemory),
        }
    }
}
