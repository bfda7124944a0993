//! The region of the selected profile.
ghost use Rattle.std.specs.Prelude.{◌≡◌, IfOk};
ghost use Rattle.cfg_region.specs.Profiles.{region_in, profile_region};

use crate::profile::settings::{FromProfile, ProfileBuilder};
use cfg_profile::{ProfileSource, ProviderConfig, region_of_profile, selected_name};
use cfg_types::{OutOfMemory, Region};
use std::alloc::Global;
use std::marker::Model;

// The region of the profile of this name. Refused sections have none.
pub(crate) fn region_by_name(
    alloc: Global,
    profiles: &ProfileSource,
    name: &str,
) -> Result<Option<Region>, OutOfMemory>
    ensures { IfOk result (λ region. region ≡ region_in profiles.now name.now) }
{
    match profiles {
        ProfileSource::Refused(_) => Ok(None),
        ProfileSource::Sections(set) => {
            let region = region_of_profile(alloc, set, name)?;
            Ok(region)
        }
    }
}

/// The region of the selected profile. Contracts see the configuration.
pub struct ProfileFileRegionProvider {
    alloc: Global,
    config: ProviderConfig,
}

impl Drop for ProfileFileRegionProvider {
    fn drop(self) {
        let ProfileFileRegionProvider {
            alloc: _,
            config: _,
        } = self;
    }
}

impl Model for ProfileFileRegionProvider {
    ghost use Rattle.cfg_profile.specs.Configuration.{Configuration, configuration_code};

    ghost Value = { Configuration };

    ghost coded = { configuration_code };

    ghost view = { λ p. p.config };
}

impl ProfileFileRegionProvider {
    ghost use Rattle.cfg_region.specs.ProfileSetups.{no_profile_set};

    /// A provider over this configuration.
    pub fn new(alloc: Global, config: ProviderConfig) -> ProfileFileRegionProvider
        ensures { result ≡ config }
    {
        ProfileFileRegionProvider { alloc, config }
    }

    /// A builder with no variables and no sections. `OutOfMemory` where memory runs out.
    pub fn builder(alloc: Global) -> Result<Builder, OutOfMemory>
        ensures { IfOk result (λ b. b ≡ no_profile_set) }
    {
        ProfileBuilder::new(alloc)
    }

    /// The region of the selected profile: its own `region`, also an empty one, else that of its
    /// `source_profile`, and so on. None where that comes back, leads to no profile, or ends at a profile with
    /// neither key; refused sections have none. Selected is the profile whose name the configuration was given,
    /// else that of a readable `AWS_PROFILE`, else `default`. Nothing is asked. `OutOfMemory` where memory runs
    /// out.
    pub fn region(&self) -> Result<Option<Region>, OutOfMemory>
        ensures { IfOk result (λ region. region ≡ profile_region self.now) }
    {
        region_by_name(
            self.alloc,
            self.config.profiles(),
            selected_name(&self.config),
        )
    }
}

impl FromProfile for ProfileFileRegionProvider {
    ghost configuration = { λ p. p };

    fn from_profile(
        alloc: Global,
        config: ProviderConfig,
    ) -> Result<ProfileFileRegionProvider, OutOfMemory> {
        Ok(ProfileFileRegionProvider::new(alloc, config))
    }
}

/// Sets up a provider of a profile's region.
pub type Builder = ProfileBuilder<ProfileFileRegionProvider>;
