//! The builder of a provider that reads a profile: of a region, of credentials, of a token.
ghost use Rattle.std.specs.Prelude.{◌≡◌, IfOk, Some, option_map, string_bytes, unwrap_or};
ghost use Rattle.cfg_region.specs.ProfileSetups.{no_profile_set, profile_configured, with_name as with_name_of};

use cfg_profile::{ProfileSource, ProviderConfig};
use cfg_types::{OutOfMemory, TryCopy};
use std::alloc::Global;
use std::marker::{Model, PhantomData};

/// What is made of a configuration, for its selected profile.
pub trait FromProfile {
    ghost use Rattle.cfg_profile.specs.Configuration.{Configuration};

    /// The configuration that it is made of.
    ghost configuration: { Self → Configuration };

    /// That which reads this configuration. `OutOfMemory` where memory runs out.
    fn from_profile(alloc: Global, config: ProviderConfig) -> Result<Self, OutOfMemory>
        ensures { IfOk result (λ made. configuration made ≡ config) };
}

// Itself, for a builder that has more to set than these: that of a profile's credentials holds one of this kind.
impl FromProfile for ProviderConfig {
    ghost configuration = { λ config. config };

    fn from_profile(_alloc: Global, config: ProviderConfig) -> Result<ProviderConfig, OutOfMemory> {
        Ok(config)
    }
}

/// Sets up a provider that reads a profile. Contracts see its configuration, and the name and the sections that
/// are in place of the configuration's. A setter changes its field alone, and one that runs out of memory gives the
/// builder up.
pub struct ProfileBuilder<P> {
    alloc: Global,
    config: ProviderConfig,
    profile_name: Option<String>,
    profiles: Option<ProfileSource>,
    provider: PhantomData<P>,
}

impl<P> Drop for ProfileBuilder<P> {
    fn drop(self) {
        let ProfileBuilder {
            alloc: _,
            config: _,
            profile_name: _,
            profiles: _,
            provider: _,
        } = self;
    }
}

impl<P> Model for ProfileBuilder<P> {
    ghost use Rattle.std.specs.Prelude.{option_map, string_bytes};
    ghost use Rattle.cfg_region.specs.ProfileSetups.{ProfileSetup, profile_setup_code};

    ghost Value = { ProfileSetup };

    ghost coded = { profile_setup_code };

    ghost view = { λ b. record {
      configuration = b.config;
      profile_name = option_map (λ s. string_bytes s) b.profile_name;
      profiles = b.profiles;
    } };
}

impl<P: FromProfile> ProfileBuilder<P> {
    /// With no variables and no sections. `OutOfMemory` where memory runs out.
    pub fn new(alloc: Global) -> Result<ProfileBuilder<P>, OutOfMemory>
        ensures { IfOk result (λ b. b ≡ no_profile_set) }
    {
        let config = ProviderConfig::without_region(alloc)?;
        Ok(ProfileBuilder {
            alloc,
            config,
            profile_name: None,
            profiles: None,
            provider: PhantomData,
        })
    }

    /// With a copy of this configuration, in place of the one that it had. `OutOfMemory` where memory runs out.
    pub fn configure(mut self, config: &ProviderConfig) -> Result<ProfileBuilder<P>, OutOfMemory>
        ensures { IfOk result (λ b. b ≡ record self { configuration = config.now }) }
    {
        self.config = config.copy(self.alloc)?;
        Ok(self)
    }

    /// The profile of this name, whatever the configuration says. `OutOfMemory` where memory runs out.
    pub fn profile_name(mut self, name: &str) -> Result<ProfileBuilder<P>, OutOfMemory>
        ensures { IfOk result (λ b. b ≡ record self { profile_name = Some name.now }) }
    {
        self.profile_name = Some(String::from_str(self.alloc, name)?);
        Ok(self)
    }

    /// With these sections, or why they were refused, whatever the configuration has.
    pub fn profiles(mut self, profiles: ProfileSource) -> ProfileBuilder<P>
        ensures { result ≡ record self { profiles = Some profiles } }
    {
        self.profiles = Some(profiles);
        self
    }

    /// The provider, over the configuration with the name and the sections that were set, each in place of its own.
    /// Nothing is asked. `OutOfMemory` where memory runs out.
    pub fn build(self) -> Result<P, OutOfMemory>
        ensures { IfOk result (λ p. P.configuration p ≡ profile_configured self) }
    {
        let ProfileBuilder {
            alloc,
            config,
            profile_name,
            profiles,
            provider: _,
        } = self;
        let config = with_name(alloc, with_profiles(config, profiles), profile_name)?;
        P::from_profile(alloc, config)
    }
}

/// The configuration with this name of a profile, where one was given, in place of its own. Its one error is
/// that memory ran out.
pub fn with_name(
    alloc: Global,
    config: ProviderConfig,
    name: Option<String>,
) -> Result<ProviderConfig, OutOfMemory>
    ensures { IfOk result (λ c. c ≡ with_name_of (option_map (λ s. string_bytes s) name) config) }
{
    match name {
        None => Ok(config),
        Some(name) => config.with_profile_name(alloc, name.as_str()),
    }
}

// With these sections in place of the configuration's, where there are some.
fn with_profiles(config: ProviderConfig, profiles: Option<ProfileSource>) -> ProviderConfig
    ensures { result ≡ record config { profiles = unwrap_or profiles config.profiles } }
{
    match profiles {
        None => config,
        Some(profiles) => config.with_profiles(profiles),
    }
}
