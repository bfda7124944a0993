//! What providers are given.
ghost use Rattle.std.specs.Prelude.{◌≡◌, IfOk, Some, None, true, false, [], option_map, MatchOption};
ghost use Rattle.std.specs.FinMap.{empty};
ghost use Rattle.cfg_base.specs.Text.{characters};
ghost use Rattle.cfg_profile.specs.Configuration.{nothing_configured};
ghost use Rattle.cfg_profile.specs.Selected.{selected_name as selected_name_of};

use crate::sections::{ProfileSet, ProfileSource};
use cfg_types::{
    BehaviorVersion, Env, OutOfMemory, Region, RetryConfig, Timeouts, TryCopy, copy_option,
};
use std::alloc::Global;
use std::marker::Model;

/// What providers are given: environment variables, sections, the name of a profile, a region, how
/// calls are sent, and whether they may sleep between attempts. Each call changes what it is named for,
/// and nothing else.
pub struct ProviderConfig {
    env: Env,
    profiles: ProfileSource,
    profile_name: Option<String>,
    region: Option<Region>,
    use_fips: Option<bool>,
    use_dual_stack: Option<bool>,
    retry_config: Option<RetryConfig>,
    timeout_config: Option<Timeouts>,
    behavior_version: Option<BehaviorVersion>,
    sleep: bool,
}

impl Drop for ProviderConfig {
    fn drop(self) {
        let ProviderConfig {
            env: _,
            profiles: _,
            profile_name: _,
            region: _,
            use_fips: _,
            use_dual_stack: _,
            retry_config: _,
            timeout_config: _,
            behavior_version: _,
            sleep: _,
        } = self;
    }
}

impl Model for ProviderConfig {
    ghost use Rattle.std.specs.Prelude.{option_map, string_bytes};
    ghost use Rattle.cfg_profile.specs.Configuration.{Configuration, configuration_code};

    ghost Value = { Configuration };

    ghost coded = { configuration_code };

    ghost view = { λ c. record {
      environment = c.env;
      profiles = c.profiles;
      profile_name = option_map (λ s. string_bytes s) c.profile_name;
      region = c.region;
      use_fips = c.use_fips;
      use_dual_stack = c.use_dual_stack;
      retry_config = c.retry_config;
      timeout_config = c.timeout_config;
      behavior_version = c.behavior_version;
      sleep = c.sleep;
    } };
}

impl ProviderConfig {
    /// No variables, no sections, no region, no settings of calls, and providers may not sleep.
    /// `OutOfMemory` where memory runs out.
    pub fn empty(alloc: Global) -> Result<ProviderConfig, OutOfMemory>
        ensures { IfOk result (λ c. c ≡ nothing_configured false) }
    {
        Ok(ProviderConfig {
            env: Env::new(alloc, Vec::new(alloc))?,
            profiles: ProfileSource::Sections(ProfileSet::new(
                alloc,
                Vec::new(alloc),
                Vec::new(alloc),
                "default",
            )?),
            profile_name: None,
            region: None,
            use_fips: None,
            use_dual_stack: None,
            retry_config: None,
            timeout_config: None,
            behavior_version: None,
            sleep: false,
        })
    }

    /// No variables, no sections, no region and no settings of calls. Providers may sleep.
    /// `OutOfMemory` where memory runs out.
    pub fn without_region(alloc: Global) -> Result<ProviderConfig, OutOfMemory>
        ensures { IfOk result (λ c. c ≡ nothing_configured true) }
    {
        let config = ProviderConfig::empty(alloc)?;
        Ok(config.with_sleep_impl(true))
    }

    /// With these environment variables.
    pub fn with_env(mut self, env: Env) -> ProviderConfig
        ensures { result ≡ record self { environment = env } }
    {
        self.env = env;
        self
    }

    /// With these sections, or why they were refused.
    pub fn with_profiles(mut self, profiles: ProfileSource) -> ProviderConfig
        ensures { result ≡ record self { profiles = profiles } }
    {
        self.profiles = profiles;
        self
    }

    /// With the profile of this name selected, whatever the environment says. `OutOfMemory` where memory
    /// runs out.
    pub fn with_profile_name(
        mut self,
        alloc: Global,
        name: &str,
    ) -> Result<ProviderConfig, OutOfMemory>
        ensures { IfOk result (λ c. c ≡ record self { profile_name = Some name.now }) }
    {
        self.profile_name = Some(String::from_str(alloc, name)?);
        Ok(self)
    }

    /// With this region, or none.
    pub fn with_region(mut self, region: Option<Region>) -> ProviderConfig
        ensures { result ≡ record self { region = region } }
    {
        self.region = region;
        self
    }

    /// With or without endpoints that are validated by FIPS 140; none where nothing is said of it.
    pub fn with_use_fips(mut self, use_fips: Option<bool>) -> ProviderConfig
        ensures { result ≡ record self { use_fips = use_fips } }
    {
        self.use_fips = use_fips;
        self
    }

    /// With or without endpoints of both IPv4 and IPv6; none where nothing is said of it.
    pub fn with_use_dual_stack(mut self, use_dual_stack: Option<bool>) -> ProviderConfig
        ensures { result ≡ record self { use_dual_stack = use_dual_stack } }
    {
        self.use_dual_stack = use_dual_stack;
        self
    }

    /// With this number of attempts of a call, the first one counted.
    pub fn with_retry_config(mut self, retry_config: RetryConfig) -> ProviderConfig
        ensures { result ≡ record self { retry_config = Some retry_config } }
    {
        self.retry_config = Some(retry_config);
        self
    }

    /// With these limits of time of calls, in milliseconds.
    pub fn with_timeout_config(mut self, timeout_config: Timeouts) -> ProviderConfig
        ensures { result ≡ record self { timeout_config = Some timeout_config } }
    {
        self.timeout_config = Some(timeout_config);
        self
    }

    /// With this behavior version, or none. It decides nothing.
    pub fn with_behavior_version(
        mut self,
        behavior_version: Option<BehaviorVersion>,
    ) -> ProviderConfig
        ensures { result ≡ record self { behavior_version = behavior_version } }
    {
        self.behavior_version = behavior_version;
        self
    }

    /// Whether providers may sleep between attempts.
    pub fn with_sleep_impl(mut self, sleep: bool) -> ProviderConfig
        ensures { result ≡ record self { sleep = sleep } }
    {
        self.sleep = sleep;
        self
    }

    /// The environment variables.
    pub fn env(&self) -> &Env
        ensures { result.now ≡ self.now.environment }
    {
        &self.env
    }

    /// The sections, or why they were refused.
    pub fn profiles(&self) -> &ProfileSource
        ensures { result.now ≡ self.now.profiles }
    {
        &self.profiles
    }

    /// The name of a profile, where one was given. It goes before that of the environment.
    pub fn profile_name(&self) -> Option<&str>
        ensures { option_map (λ n. n.now) result ≡ self.now.profile_name }
    {
        match &self.profile_name {
            None => None,
            Some(name) => Some(name.as_str()),
        }
    }

    /// The region, where there is one.
    pub fn region(&self) -> Option<&Region>
        ensures { option_map (λ r. r.now) result ≡ self.now.region }
    {
        self.region.as_ref()
    }

    /// Whether calls go to endpoints that are validated by FIPS 140, where that was said.
    pub fn use_fips(&self) -> Option<bool>
        ensures { result ≡ self.now.use_fips }
    {
        self.use_fips
    }

    /// Whether calls go to endpoints of both IPv4 and IPv6, where that was said.
    pub fn use_dual_stack(&self) -> Option<bool>
        ensures { result ≡ self.now.use_dual_stack }
    {
        self.use_dual_stack
    }

    /// How often a call may be tried in all, where that was said.
    pub fn retry_config(&self) -> Option<&RetryConfig>
        ensures { option_map (λ r. r.now) result ≡ self.now.retry_config }
    {
        self.retry_config.as_ref()
    }

    /// The limits of time of calls, in milliseconds, where they were said.
    pub fn timeout_config(&self) -> Option<&Timeouts>
        ensures { option_map (λ t. t.now) result ≡ self.now.timeout_config }
    {
        self.timeout_config.as_ref()
    }

    /// The behavior version, where there is one.
    pub fn behavior_version(&self) -> Option<BehaviorVersion>
        ensures { result ≡ self.now.behavior_version }
    {
        self.behavior_version
    }

    /// Whether providers may sleep between attempts.
    pub fn sleep_impl(&self) -> bool
        ensures { result ≡ self.now.sleep }
    {
        self.sleep
    }
}

/// The name of the selected profile: the one that the configuration was given, else what `AWS_PROFILE` is
/// set to where that is Unicode, else `default`. An empty name is a name.
pub fn selected_name(config: &ProviderConfig) -> &str
    ensures { result.now ≡ selected_name_of config.now }
{
    match config.profile_name() {
        Some(name) => name,
        None => match config.env().get("AWS_PROFILE") {
            Ok(name) => name,
            Err(_) => "default",
        },
    }
}

impl TryCopy for ProviderConfig {
    fn copy(&self, alloc: Global) -> Result<ProviderConfig, OutOfMemory> {
        let env = self.env.copy(alloc)?;
        let profiles = self.profiles.copy(alloc)?;
        let profile_name = match self.profile_name() {
            None => None,
            Some(name) => Some(String::from_str(alloc, name)?),
        };
        let region = copy_option(alloc, &self.region)?;
        Ok(ProviderConfig {
            env,
            profiles,
            profile_name,
            region,
            use_fips: self.use_fips,
            use_dual_stack: self.use_dual_stack,
            retry_config: self.retry_config,
            timeout_config: self.timeout_config,
            behavior_version: self.behavior_version,
            sleep: self.sleep,
        })
    }
}
