//! How services are called, as values: limits of time, settings and the keys of a signer.
ghost use Rattle.std.specs.Prelude.{◌≡◌, IfOk, codes, option_map};
ghost use Rattle.serde_json.specs.View.{view};
ghost use Rattle.cfg_lines.specs.Members.{members_in, put_or_keep, text_value};
ghost use Rattle.cfg_lines.specs.Questions.{timeouts_value, settings_value, signer_value};

use crate::fields::Fields;
use cfg_types::{CallSettings, Credentials, OutOfMemory, Region, Timeouts};
use serde_json::Value;
use std::alloc::Global;

/// Limits of time. One that is left to the transport is left out.
#[tactic(auto, unfolding(crate::specs::Members::object_with, crate::specs::Questions::timeouts_value))]
pub(crate) fn timeouts(alloc: Global, limits: &Timeouts) -> Result<Value, OutOfMemory>
    ensures { IfOk result (λ v. view v ≡ timeouts_value limits.now) }
{
    let fields = Fields::new(alloc)
        .number_or_none("connect_ms", limits.connect_ms)?
        .number_or_none("read_ms", limits.read_ms)?
        .number_or_none("operation_ms", limits.operation_ms)?
        .number_or_none("attempt_ms", limits.attempt_ms)?;
    Ok(fields.into_value())
}

// The region, where there is one.
#[tactic(auto, unfolding(crate::specs::Members::put_or_keep, crate::specs::Members::text_value))]
fn with_region(fields: Fields, region: &Option<Region>) -> Result<Fields, OutOfMemory>
    ensures { IfOk result (λ f. members_in f ≡ put_or_keep (codes "region") (option_map text_value region.now) (members_in fields)) }
{
    match region {
        Some(region) => fields.word("region", region.as_str()),
        None => Ok(fields),
    }
}

// The session token, where there is one.
#[tactic(auto, unfolding(crate::specs::Members::put_or_keep, crate::specs::Members::text_value))]
fn with_token(fields: Fields, keys: &Credentials) -> Result<Fields, OutOfMemory>
    ensures { IfOk result (λ f. members_in f ≡ put_or_keep (codes "token") (option_map text_value keys.now.session_token) (members_in fields)) }
{
    match keys.session_token() {
        Some(token) => fields.word("token", token),
        None => Ok(fields),
    }
}

/// How a service is called. What is not configured is left out.
#[tactic(auto, unfolding(crate::specs::Members::object_with, crate::specs::Questions::settings_value))]
pub(crate) fn settings(alloc: Global, settings: &CallSettings) -> Result<Value, OutOfMemory>
    ensures { IfOk result (λ v. view v ≡ settings_value settings.now) }
{
    let fields = with_region(Fields::new(alloc), &settings.region)?
        .truth_or_none("use_fips", settings.use_fips)?
        .truth_or_none("use_dual_stack", settings.use_dual_stack)?
        .number("max_attempts", u64::from(settings.max_attempts))?
        .with("timeouts", timeouts(alloc, &settings.timeouts)?)?;
    Ok(fields.into_value())
}

/// The keys that sign a call, and nothing else that is known of them.
#[tactic(auto, unfolding(crate::specs::Members::object_with, crate::specs::Questions::signer_value))]
pub(crate) fn signer(alloc: Global, keys: &Credentials) -> Result<Value, OutOfMemory>
    ensures { IfOk result (λ v. view v ≡ signer_value keys.now) }
{
    let fields = Fields::new(alloc)
        .word("id", keys.access_key_id())?
        .word("secret", keys.secret_access_key())?;
    Ok(with_token(fields, keys)?.into_value())
}
