//! A chain without what its caller brings.
ghost use Rattle.std.specs.Option.{option_copied};
ghost use Rattle.std.specs.Prelude.{◌≡◌, [], IfOk, IfSome, OnErr, option_map};
ghost use Rattle.cfg_kept.specs.Kinds.{no_states};
ghost use Rattle.cfg_kept.specs.KeptStates.{kept_key, states_of};
ghost use Rattle.cfg_kept.specs.KeyedStates.{HasNoLoads};
ghost use Rattle.cfg_region.specs.Calls.{RegionSet, RegionBreaks};
ghost use Rattle.cfg_region.specs.Sources.{region_source};
ghost use Rattle.cfg_chain.specs.Settled.{IsSettled};
ghost use Rattle.cfg_chain.specs.profile.Plans.{key_of};

use crate::settled::Settled;
use cfg_kept::Kept;
use cfg_profile::ProviderConfig;
use cfg_region::RegionSource;
use cfg_region::steps::with_region_from;
use cfg_token::TokenKey;
use cfg_types::{OutOfMemory, copy_option};
use cfg_world::{Devices, World};
use std::alloc::Global;
use std::marker::Model;

/// What a chain has of its configuration: the configuration itself, which is what contracts see, and what it settles
/// of every call. It holds nothing boxed, so that any crate may make one and hand it on; a function that hands on what
/// holds a box has to make it itself.
pub struct ChainCore {
    alloc: Global,
    config: ProviderConfig,
    settled: Settled,
}

impl Drop for ChainCore {
    fn drop(self) {
        let ChainCore {
            alloc: _,
            config: _,
            settled: _,
        } = self;
    }
}

impl Model for ChainCore {
    ghost use Rattle.cfg_profile.specs.Configuration.{Configuration, configuration_code};
    ghost use Rattle.cfg_chain.specs.Settled.{IsSettled};

    ghost Value = { Configuration };

    ghost coded = { configuration_code };

    ghost view = { λ c. c.config };

    ghost invariant = { λ c. IsSettled c.config c.settled };
}

impl ChainCore {
    /// The core of a chain of this configuration, in the region that this source gives, none included, or where
    /// none is given here, that the default region chain over the configuration gives. Nothing else is asked.
    /// What the configuration settles of every call is read from it now: whose token the chain needs, the plan of the
    /// selected profile, the address of a container, and where instance metadata is asked.
    ///
    /// # Errors
    ///
    /// `OutOfMemory` where memory runs out. The journal then has gained the beginning of such a part.
    pub fn new<D: Devices>(
        alloc: Global,
        config: ProviderConfig,
        region: Option<RegionSource>,
        world: &mut World<D>,
    ) -> Result<ChainCore, OutOfMemory>
        ensures set { IfOk result (λ core. RegionSet ⟦<D as Devices>⟧ (option_map (region_source told_region repeated) region) config
            world.old world.new core) }
        ensures breaks { OnErr result (RegionBreaks ⟦<D as Devices>⟧ (option_map (region_source told_region repeated) region) config world.old world.new) }
    {
        let settled = Settled::of(alloc, &config)?;
        let config = with_region_from(alloc, region, config, world)?;
        Ok(ChainCore {
            alloc,
            config,
            settled,
        })
    }

    /// The core of a chain of this configuration as it is. Nothing is asked. `OutOfMemory` where memory runs out.
    pub fn of(alloc: Global, config: ProviderConfig) -> Result<ChainCore, OutOfMemory>
        ensures { IfOk result (λ core. core ≡ config) }
    {
        let settled = Settled::of(alloc, &config)?;
        Ok(ChainCore {
            alloc,
            config,
            settled,
        })
    }

    /// The configuration.
    pub fn config(&self) -> &ProviderConfig
        ensures { result.now ≡ self.now }
    {
        &self.config
    }

    /// Whose token the chain needs: that of a session of IAM Identity Center, or of a sign-in session, where
    /// the selected profile's plan begins with one.
    pub fn token_key(&self) -> Option<&TokenKey>
        ensures { option_copied result ≡ key_of self.now }
    {
        self.settled.token_key.as_ref()
    }

    /// What the chain keeps between calls, with nothing kept. `OutOfMemory` where memory runs out.
    pub fn new_kept(&self) -> Result<Kept, OutOfMemory>
        ensures nothing { IfOk result (λ kept. states_of kept ≡ no_states) }
        ensures loads { IfOk result (λ kept. IfSome kept.token HasNoLoads) }
        ensures found { IfOk result (λ kept. kept.found.items ≡ []) }
        ensures key { IfOk result (λ kept. kept_key kept ≡ key_of self.now) }
    {
        let key = copy_option(self.alloc, &self.settled.token_key)?;
        Ok(Kept::new(self.alloc, key))
    }

    // What the configuration settles of every call.
    pub(crate) fn settled(&self) -> &Settled
        ensures { IsSettled self.now result.now }
    {
        &self.settled
    }

    pub(crate) fn alloc(&self) -> Global {
        self.alloc
    }
}
