//! What no clause says: that settings are taken over, in an example.
use crate::profile::sets::set_of;
use cfg_profile::{ProfileSource, ProviderConfig, call_settings, selected_name};
use cfg_types::{BehaviorVersion, OutOfMemory, Region, RetryConfig, Timeouts, TryCopy};
use std::alloc::Global;
use std::test::Fail;

const TIMEOUTS: Timeouts = Timeouts {
    connect_ms: Some(1),
    read_ms: Some(2),
    operation_ms: None,
    attempt_ms: Some(4),
};

// A configuration with every setting.
fn config(alloc: Global) -> Result<ProviderConfig, OutOfMemory> {
    let region = Region::new(alloc, "r")?;
    let set = set_of(alloc, "A", "A:k=v")?;
    let config = ProviderConfig::without_region(alloc)?
        .with_region(Some(region))
        .with_profiles(ProfileSource::Sections(set))
        .with_use_fips(Some(true))
        .with_use_dual_stack(Some(false))
        .with_retry_config(RetryConfig { max_attempts: 0 })
        .with_timeout_config(TIMEOUTS)
        .with_behavior_version(Some(BehaviorVersion(5)));
    config.with_profile_name(alloc, "n")?.copy(alloc)
}

// The selected name, the version, and how calls are sent.
fn words_of(alloc: Global, config: &ProviderConfig) -> Result<String, OutOfMemory> {
    let settings = call_settings(alloc, config)?;
    let name = selected_name(config);
    let version = config.behavior_version();
    Ok(format!(in alloc; "{name} {version:?} {settings:?}")?)
}

#[test]
fn configurations(rt: HostRuntime) -> Result<(), Fail> {
    let words = words_of(rt.alloc(), &ProviderConfig::empty(rt.alloc())?)?;
    assert_eq!(rt;
        words.as_str(),
        "default None CallSettings { region: None, use_fips: None, use_dual_stack: None, max_attempts: 3, timeouts: Timeouts { connect_ms: None, read_ms: None, operation_ms: None, attempt_ms: None } }"
    );
    let words = words_of(rt.alloc(), &config(rt.alloc())?)?;
    assert_eq!(rt;
        words.as_str(),
        "n Some(BehaviorVersion(5)) CallSettings { region: Some(\"r\"), use_fips: Some(true), use_dual_stack: Some(false), max_attempts: 0, timeouts: Timeouts { connect_ms: Some(1), read_ms: Some(2), operation_ms: None, attempt_ms: Some(4) } }"
    );
    Ok(())
}
