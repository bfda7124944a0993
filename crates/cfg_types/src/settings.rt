//! How a service is called: its region, its endpoints, its attempts and its limits of time.
ghost use Rattle.std.specs.Prelude.{◌≡◌, IfOk, Some};

use crate::region::Region;
use cfg_base::{OutOfMemory, TryCopy, copy_option};
use std::alloc::Global;

/// Limits of time, in milliseconds. None leaves the limit to the transport.
#[derive(Clone, Copy, Debug, PartialEq, Eq)]
pub struct Timeouts {
    /// To connect.
    pub connect_ms: Option<u64>,
    /// To read the reply.
    pub read_ms: Option<u64>,
    /// For all attempts of a call together.
    pub operation_ms: Option<u64>,
    /// For each attempt of a call.
    pub attempt_ms: Option<u64>,
}

/// How a service is called.
#[derive(Debug, PartialEq, Eq, Drop)]
pub struct CallSettings {
    /// The region of the service, where there is one.
    pub region: Option<Region>,
    /// Whether the endpoint is one of FIPS. None where nothing is configured.
    pub use_fips: Option<bool>,
    /// Whether the endpoint is one of both IPv4 and IPv6. None where nothing is configured.
    pub use_dual_stack: Option<bool>,
    /// How often a call may be tried in all, the first time included.
    pub max_attempts: u32,
    /// The limits of time of the call.
    pub timeouts: Timeouts,
}

impl CallSettings {
    /// The same in this region. `OutOfMemory` where memory runs out.
    pub fn in_region(&self, alloc: Global, region: &Region) -> Result<CallSettings, OutOfMemory>
        ensures { IfOk result (λ settings. settings ≡ record self.now { region = Some region.now }) }
    {
        Ok(CallSettings {
            region: Some(region.copy(alloc)?),
            use_fips: self.use_fips,
            use_dual_stack: self.use_dual_stack,
            max_attempts: self.max_attempts,
            timeouts: self.timeouts,
        })
    }
}

impl TryCopy for CallSettings {
    fn copy(&self, alloc: Global) -> Result<CallSettings, OutOfMemory> {
        Ok(CallSettings {
            region: copy_option(alloc, &self.region)?,
            use_fips: self.use_fips,
            use_dual_stack: self.use_dual_stack,
            max_attempts: self.max_attempts,
            timeouts: self.timeouts,
        })
    }
}

/// How often calls are tried.
#[derive(Clone, Copy, Debug, PartialEq, Eq)]
pub struct RetryConfig {
    /// How often a call may be tried in all, the first time included.
    pub max_attempts: u32,
}

/// The number of a behavior version. It decides nothing here.
#[derive(Clone, Copy, Debug, PartialEq, Eq)]
pub struct BehaviorVersion(pub u32);
