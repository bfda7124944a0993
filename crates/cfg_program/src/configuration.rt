//! What a script configures.
ghost use Rattle.std.specs.Prelude.{◌≡◌, IfOk, map};
ghost use Rattle.cfg_base.specs.TextMap.{named};
ghost use Rattle.cfg_script.specs.Script.{plain_profiles, section_bytes};
ghost use Rattle.cfg_program.specs.Calls.{bytes_of, region_of, section_parts, source_of, sent_by, configured_by};

use cfg_profile::{ProfileSet, ProfileSource, ProviderConfig, Section};
use cfg_script::{ScriptProfiles, ServiceConfig};
use cfg_types::{Env, EnvText, OutOfMemory, Region, RetryConfig};
use std::alloc::Global;

/// What the script configures, but for its region. `OutOfMemory` where memory runs out.
pub fn configuration(
    alloc: Global,
    variables: Vec<(String, EnvText)>,
    profiles: ScriptProfiles,
    selected: Option<String>,
    sleep: bool,
    service: ServiceConfig,
) -> Result<ProviderConfig, OutOfMemory>
    ensures { IfOk result (λ c. c ≡ configured_by (map named variables.items) (source_of (plain_profiles profiles)) (bytes_of selected) sleep service) }
{
    let source = source(alloc, profiles)?;
    configured_with(alloc, variables, source, selected, sleep, service)
}

// The sections that the script says, or their refusal.
fn source(alloc: Global, profiles: ScriptProfiles) -> Result<ProfileSource, OutOfMemory>
    ensures { IfOk result (λ s. s ≡ source_of (plain_profiles profiles)) }
{
    match profiles {
        ScriptProfiles::Refused(reason) => Ok(ProfileSource::Refused(reason)),
        ScriptProfiles::Sections { profiles, sessions } => {
            let profiles = sections(alloc, profiles)?;
            let sessions = sections(alloc, sessions)?;
            let set = ProfileSet::new(alloc, profiles, sessions, "default")?;
            Ok(ProfileSource::Sections(set))
        }
    }
}

/// These variables, sections and selected name, whether providers may sleep, and how calls are sent. There is no
/// region: a chain is given it when it is built. `OutOfMemory` where memory runs out.
pub fn configured_with(
    alloc: Global,
    variables: Vec<(String, EnvText)>,
    source: ProfileSource,
    selected: Option<String>,
    sleep: bool,
    service: ServiceConfig,
) -> Result<ProviderConfig, OutOfMemory>
    ensures { IfOk result (λ c. c ≡ configured_by (map named variables.items) source (bytes_of selected) sleep service) }
{
    let env = Env::new(alloc, variables)?;
    let config = sent_as(alloc, service)?;
    let config = config.with_env(env);
    let config = config.with_profiles(source);
    let config = config.with_sleep_impl(sleep);
    match selected {
        None => Ok(config),
        Some(name) => config.with_profile_name(alloc, name.as_str()),
    }
}

// Nothing is configured but how calls are sent. `OutOfMemory` where memory runs out.
fn sent_as(alloc: Global, service: ServiceConfig) -> Result<ProviderConfig, OutOfMemory>
    ensures { IfOk result (λ c. c ≡ sent_by service) }
{
    let config = ProviderConfig::without_region(alloc)?;
    let config = config.with_use_fips(service.use_fips);
    let config = config.with_use_dual_stack(service.use_dual_stack);
    let config = match service.max_attempts {
        None => config,
        Some(max_attempts) => config.with_retry_config(RetryConfig { max_attempts }),
    };
    match service.timeouts {
        None => Ok(config),
        Some(timeouts) => Ok(config.with_timeout_config(timeouts)),
    }
}

fn sections(
    alloc: Global,
    profiles: Vec<(String, Vec<(String, String)>)>,
) -> Result<Vec<Section>, OutOfMemory>
    ensures { IfOk result (λ v. v.items ≡ map section_parts (map section_bytes profiles.items)) }
{
    let mut sections = Vec::new(alloc);
    for (name, properties) in profiles {
        sections.push(Section::of(name, properties))?;
    }
    Ok(sections)
}

/// The region of this name, or none. `OutOfMemory` where memory runs out.
pub fn region_named(alloc: Global, name: Option<String>) -> Result<Option<Region>, OutOfMemory>
    ensures { IfOk result (λ r. r ≡ region_of name) }
{
    match name {
        None => Ok(None),
        Some(name) => Ok(Some(Region::new(alloc, name.as_str())?)),
    }
}
