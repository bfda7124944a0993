//! How a script says that calls are sent.
ghost use Rattle.std.specs.Prelude.{◌≡◌};
ghost use Rattle.serde_json.specs.View.{view};
ghost use Rattle.cfg_script.specs.Gives.{Reads};
ghost use Rattle.cfg_script.specs.Services.{attempt_count_of, service, nothing_set};

use crate::fault::{FormError, Wanted, wanting};
use crate::form::Form;
use crate::member_names::{
    AttemptMs, ConnectMs, MaxAttempts, OperationMs, ReadMs, Service, TimeLimits, UseDualStack,
    UseFips,
};
use crate::members::{Member, Name, Optional};
use crate::object::read_object;
use crate::scalars::{Boolean, UnsignedInteger};
use cfg_types::Timeouts;
use serde_json::Value;
use std::alloc::Global;

/// How calls are sent. None leaves it to what holds where nothing is configured.
#[derive(Clone, Copy, Debug, PartialEq, Eq)]
pub struct ServiceConfig {
    /// Whether the endpoint is one of FIPS.
    pub use_fips: Option<bool>,
    /// Whether the endpoint is one of both IPv4 and IPv6.
    pub use_dual_stack: Option<bool>,
    /// How often a call may be tried in all, the first time included.
    pub max_attempts: Option<u32>,
    /// The limits of time of a call.
    pub timeouts: Option<Timeouts>,
}

impl ServiceConfig {
    /// Nothing is said of how calls are sent.
    pub fn unset() -> ServiceConfig
        ensures { result ≡ nothing_set }
    {
        ServiceConfig {
            use_fips: None,
            use_dual_stack: None,
            max_attempts: None,
            timeouts: None,
        }
    }
}

#[tactic(auto, unfolding(crate::specs::Services::attempt_count_of))]
fn read_attempt_count(value: &Value) -> Option<u32>
    ensures { result ≡ attempt_count_of (view value.now) }
{
    u32::try_from(value.as_u64()?).ok()
}

/// How often a call may be tried.
pub(crate) struct AttemptCount;

impl Form for AttemptCount {
    ghost use Rattle.std.specs.Prelude.{ℕ};
    ghost use Rattle.cfg_script.specs.Services.{attempt_count};

    type Read = u32;

    ghost Plain = { ℕ };

    ghost seen = { λ n. n };

    ghost form = { attempt_count };

    fn read(alloc: Global, value: Value) -> Result<u32, FormError> {
        wanting(alloc, Wanted::Attempts, read_attempt_count(&value))
    }
}

type TimeoutMembers = (
    Optional<ConnectMs, UnsignedInteger>,
    (
        Optional<ReadMs, UnsignedInteger>,
        (
            Optional<OperationMs, UnsignedInteger>,
            (Optional<AttemptMs, UnsignedInteger>, ()),
        ),
    ),
);

/// Limits of time, in milliseconds.
pub(crate) struct TimeoutObject;

impl Form for TimeoutObject {
    ghost use Rattle.cfg_types.specs.declared.settings.Timeouts.{Timeouts as Limits};
    ghost use Rattle.cfg_script.specs.Services.{timeouts};

    type Read = Timeouts;

    ghost Plain = { Limits };

    ghost seen = { λ t. t };

    ghost form = { timeouts };

    fn read(alloc: Global, value: Value) -> Result<Timeouts, FormError> {
        let (connect_ms, (read_ms, (operation_ms, (attempt_ms, ())))) = read_object::<
            TimeoutMembers,
        >(alloc, Wanted::Timeouts, value)?;
        Ok(Timeouts {
            connect_ms,
            read_ms,
            operation_ms,
            attempt_ms,
        })
    }
}

type ServiceMembers = (
    Optional<UseFips, Boolean>,
    (
        Optional<UseDualStack, Boolean>,
        (
            Optional<MaxAttempts, AttemptCount>,
            (Optional<TimeLimits, TimeoutObject>, ()),
        ),
    ),
);

fn read_service(alloc: Global, value: Value) -> Result<ServiceConfig, FormError>
    ensures { Reads (λ s. s) result (service (view value)) }
{
    let (use_fips, (use_dual_stack, (max_attempts, (timeouts, ())))) = read_object::<
        ServiceMembers,
    >(alloc, Wanted::Service, value)?;
    Ok(ServiceConfig {
        use_fips,
        use_dual_stack,
        max_attempts,
        timeouts,
    })
}

/// How calls are sent, of which nothing is said where the member is missing.
pub(crate) struct ServiceSettings;

impl Member for ServiceSettings {
    ghost use Rattle.cfg_script.specs.declared.service.ServiceConfig.{ServiceConfig as Said};
    ghost use Rattle.cfg_script.specs.Services.{service_member};

    type Read = ServiceConfig;

    ghost Plain = { Said };

    ghost seen = { λ s. s };

    ghost member_form = { service_member };

    fn name() -> &'static str {
        Service::name()
    }

    fn read(alloc: Global, member: Option<Value>) -> Result<ServiceConfig, FormError> {
        match member {
            Some(value) => read_service(alloc, value),
            None => Ok(ServiceConfig::unset()),
        }
    }
}
