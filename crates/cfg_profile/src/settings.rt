//! How the calls of a configuration are sent.
ghost use Rattle.std.specs.Prelude.{◌≡◌, IfOk};
ghost use Rattle.cfg_profile.specs.Settings.{attempts_of, timeouts_of, settings_of};

use crate::provider_config::ProviderConfig;
use cfg_types::{CallSettings, OutOfMemory, Timeouts, TryCopy};
use std::alloc::Global;

/// How the calls of a configuration are sent: its region, its endpoints and its limits of time in
/// milliseconds, in as many attempts as its retry configuration says, and in three where it has none, as in
/// the standard retry mode of the AWS SDKs. Where it has no limits of time, they are left to the transport.
/// `OutOfMemory` where memory runs out.
pub fn call_settings(alloc: Global, config: &ProviderConfig) -> Result<CallSettings, OutOfMemory>
    ensures { IfOk result (λ s. s ≡ settings_of config.now) }
{
    let region = match config.region() {
        None => None,
        Some(region) => Some(region.copy(alloc)?),
    };
    Ok(CallSettings {
        region,
        use_fips: config.use_fips(),
        use_dual_stack: config.use_dual_stack(),
        max_attempts: max_attempts(config),
        timeouts: timeouts(config),
    })
}

fn max_attempts(config: &ProviderConfig) -> u32
    ensures { result ≡ attempts_of config.now.retry_config }
{
    match config.retry_config() {
        // The standard retry mode of the AWS SDKs makes three attempts.
        None => 3,
        Some(retry) => retry.max_attempts,
    }
}

fn timeouts(config: &ProviderConfig) -> Timeouts
    ensures { result ≡ timeouts_of config.now.timeout_config }
{
    match config.timeout_config() {
        None => Timeouts {
            connect_ms: None,
            read_ms: None,
            operation_ms: None,
            attempt_ms: None,
        },
        Some(timeouts) => *timeouts,
    }
}
