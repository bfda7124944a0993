//! The default chain of regions.
ghost use Rattle.std.specs.Prelude.{◌≡◌, IfOk, OnErr, Some};
ghost use Rattle.cfg_world.specs.Follows.{Follows};
ghost use Rattle.cfg_imds.specs.Calls.{CallBreaks};
ghost use Rattle.cfg_region.specs.Calls.{AsksInOrder};
ghost use Rattle.cfg_region.specs.Chains.{first_given};
ghost use Rattle.cfg_region.specs.Defaults.{default_metadata, later_trees, default_trees, default_tree, IsDefault};
ghost use Rattle.cfg_region.specs.Profiles.{profile_region};

use crate::environment::region::region_of_environment;
use crate::imds::region::follow_metadata;
use crate::profile::region::region_by_name;
use crate::profile::settings::with_name;
use cfg_imds::steps::{Endpoint, client_at, endpoint_of};
use cfg_profile::{ProviderConfig, selected_name};
use cfg_types::{OutOfMemory, Region, TryCopy};
use cfg_world::{Asking, Devices, Stop, World};
use std::alloc::Global;
use std::marker::Model;

/// The default chain of regions, as aws-config has it: the environment's variables, the selected profile,
/// instance metadata. Contracts see its configuration, and where it asks instance metadata.
pub struct DefaultRegionChain {
    alloc: Global,
    config: ProviderConfig,
    endpoint: Endpoint,
}

impl Drop for DefaultRegionChain {
    fn drop(self) {
        let DefaultRegionChain {
            alloc: _,
            config: _,
            endpoint: _,
        } = self;
    }
}

impl Model for DefaultRegionChain {
    ghost use Rattle.std.specs.Prelude.{None};
    ghost use Rattle.cfg_imds.specs.Endpoints.{IsEndpoint};
    ghost use Rattle.cfg_region.specs.Defaults.{DefaultRegions, default_regions_code};

    ghost Value = { DefaultRegions };

    ghost coded = { default_regions_code };

    ghost view = { λ c. record {
      configuration = c.config;
      endpoint = c.endpoint;
    } };

    ghost invariant = { λ c. IsEndpoint c.config None None c.endpoint };
}

impl DefaultRegionChain {
    ghost use Rattle.cfg_region.specs.DefaultSetups.{nothing_set};

    /// A builder with no variables and no sections. `OutOfMemory` where memory runs out.
    pub fn builder(alloc: Global) -> Result<Builder, OutOfMemory>
        ensures { IfOk result (λ b. b ≡ nothing_set) }
    {
        Builder::new(alloc)
    }

    // The chain of this configuration.
    pub(crate) fn of(
        alloc: Global,
        config: ProviderConfig,
    ) -> Result<DefaultRegionChain, OutOfMemory>
        ensures { IfOk result (IsDefault config) }
    {
        let endpoint = endpoint_of(alloc, &config, &None, None)?;
        Ok(DefaultRegionChain {
            alloc,
            config,
            endpoint,
        })
    }

    // Its configuration.
    pub(crate) fn into_configuration(self) -> ProviderConfig
        ensures { result ≡ self.configuration }
    {
        let DefaultRegionChain {
            alloc: _,
            config,
            endpoint: _,
        } = self;
        config
    }

    fn profile_region(&self) -> Result<Option<Region>, OutOfMemory>
        ensures { IfOk result (λ region. region ≡ profile_region self.now.configuration) }
    {
        region_by_name(
            self.alloc,
            self.config.profiles(),
            selected_name(&self.config),
        )
    }

    // The metadata client is made now. It asks where the chain has it.
    #[tactic(auto, using(cfg_world::proofs::Inquiries::asking_steps))]
    fn follow_service<A: Asking>(&self, asking: &mut A) -> Result<Option<Region>, Stop>
        ensures { Follows ⟦<A as Asking>⟧ (default_metadata self.now) asking.old asking.new result }
    {
        let endpoint = self.endpoint.copy(self.alloc)?;
        let client = client_at(self.alloc, endpoint);
        follow_metadata(self.alloc, self.config.env(), &client, asking)
    }

    // The profile, and then metadata.
    #[tactic(auto, using(crate::proofs::RegionSteps::region_steps))]
    fn follow_profile<A: Asking>(&self, asking: &mut A) -> Result<Option<Region>, Stop>
        ensures { Follows ⟦<A as Asking>⟧ (first_given (later_trees self.now)) asking.old asking.new result }
    {
        match self.profile_region()? {
            Some(region) => Ok(Some(region)),
            None => self.follow_service(asking),
        }
    }

    /// The body of [`Self::region`], over anything that can be asked.
    ///
    /// # Errors
    ///
    /// `Stop::OutOfMemory` where memory runs out, `Stop::Open` where an answer is not known yet.
    #[tactic(auto, using(crate::proofs::RegionSteps::region_steps), unfolding(crate::specs::Defaults::default_tree))]
    pub fn follow<A: Asking>(&self, asking: &mut A) -> Result<Option<Region>, Stop>
        ensures { Follows ⟦<A as Asking>⟧ (default_tree self.now) asking.old asking.new result }
    {
        match region_of_environment(self.alloc, self.config.env())? {
            Some(region) => Ok(Some(region)),
            None => self.follow_profile(asking),
        }
    }

    /// The region of the environment's variables, else that of the profile, else that of instance metadata,
    /// which is asked with no session token at first. None where none of them gives one. Only metadata asks
    /// the world.
    ///
    /// # Errors
    ///
    /// `OutOfMemory` where memory runs out. The journal then has gained the beginning of what the call asks, or
    /// nothing.
    pub fn region<D: Devices>(&self, world: &mut World<D>) -> Result<Option<Region>, OutOfMemory>
        ensures tells { IfOk result (λ region. AsksInOrder ⟦<D as Devices>⟧ (default_trees self.now) world.old world.new region) }
        ensures breaks { OnErr result (CallBreaks ⟦<D as Devices>⟧ (default_tree self.now) world.old world.new) }
    {
        match self.follow(world) {
            Ok(region) => Ok(region),
            Err(_) => Err(OutOfMemory),
        }
    }
}

/// Sets up the default chain of regions. Contracts see its configuration, and the name of its profile where
/// one was given. A setter changes its field alone.
pub struct Builder {
    alloc: Global,
    config: ProviderConfig,
    profile_name: Option<String>,
}

impl Drop for Builder {
    fn drop(self) {
        let Builder {
            alloc: _,
            config: _,
            profile_name: _,
        } = self;
    }
}

impl Model for Builder {
    ghost use Rattle.std.specs.Prelude.{option_map, string_bytes};
    ghost use Rattle.cfg_region.specs.DefaultSetups.{DefaultSetup, default_setup_code};

    ghost Value = { DefaultSetup };

    ghost coded = { default_setup_code };

    ghost view = { λ b. record {
      configuration = b.config;
      profile_name = option_map (λ s. string_bytes s) b.profile_name;
    } };
}

impl Builder {
    ghost use Rattle.cfg_region.specs.DefaultSetups.{nothing_set, default_configured};

    /// A builder with no variables and no sections. `OutOfMemory` where memory runs out.
    pub fn new(alloc: Global) -> Result<Builder, OutOfMemory>
        ensures { IfOk result (λ b. b ≡ nothing_set) }
    {
        let config = ProviderConfig::without_region(alloc)?;
        Ok(Builder {
            alloc,
            config,
            profile_name: None,
        })
    }

    /// With a copy of this configuration, in place of the one that it had. `OutOfMemory` where memory runs out.
    pub fn configure(mut self, config: &ProviderConfig) -> Result<Builder, OutOfMemory>
        ensures { IfOk result (λ b. b ≡ record self { configuration = config.now }) }
    {
        self.config = config.copy(self.alloc)?;
        Ok(self)
    }

    /// The profile of this name, whatever the configuration says. It is asked for its region, and it says where
    /// instance metadata is asked. `OutOfMemory` where memory runs out.
    pub fn profile_name(mut self, name: &str) -> Result<Builder, OutOfMemory>
        ensures { IfOk result (λ b. b ≡ record self { profile_name = Some name.now }) }
    {
        self.profile_name = Some(String::from_str(self.alloc, name)?);
        Ok(self)
    }

    /// The chain. Where instance metadata is asked is read from the selected profile now, and nothing is asked
    /// for it. `OutOfMemory` where memory runs out.
    pub fn build(self) -> Result<DefaultRegionChain, OutOfMemory>
        ensures { IfOk result (IsDefault (default_configured self)) }
    {
        let Builder {
            alloc,
            config,
            profile_name,
        } = self;
        let config = with_name(alloc, config, profile_name)?;
        DefaultRegionChain::of(alloc, config)
    }
}
