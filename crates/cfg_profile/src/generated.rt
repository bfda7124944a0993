//! Sets of profiles that come from a number.
ghost use Rattle.std.specs.Prelude.{◌≡◌, ◌+◌, ◌<◌, ◌^◌, IfOk};
ghost use Rattle.cfg_profile.specs.Generated.{generated_role as role_of, generated_keys as keys_of, generated};

use crate::sections::{ProfileSet, Section};
use cfg_types::OutOfMemory;
use std::alloc::Global;

/// The set of the profiles `p1` to `pn`, of which `p1` is selected. Each profile `pi` but the last is a
/// role over the next one: its `role_arn` is `arn:aws:iam::`, the number in at least twelve digits,
/// `:role/r` and the number, its `role_session_name` is `s` and the number. The last one has the keys `AK`
/// and `SK`. For 0 the set has the profile `p0` alone, with these keys, and no `p1`.
///
/// # Errors
///
/// `OutOfMemory` where memory runs out.
pub fn generated_set(alloc: Global, n: u64) -> Result<ProfileSet, OutOfMemory>
    ensures { IfOk result (λ set. set ≡ generated n) }
{
    let mut profiles = Vec::new(alloc);
    for before in 0..n.saturating_sub(1) {
        profiles.push(role(alloc, before + 1)?)?;
    }
    profiles.push(keys(alloc, n)?)?;
    ProfileSet::new(alloc, profiles, Vec::new(alloc), "p1")
}

// The profile of this number, a role over the next one.
fn role(alloc: Global, i: u64) -> Result<Section, OutOfMemory>
    requires { i + 1 < 2 ^ 64 }
    ensures { IfOk result (λ section. section ≡ role_of i) }
{
    let next = i + 1;
    let name = format!(in alloc; "p{i}")?;
    let arn = format!(in alloc; "arn:aws:iam::{i:012}:role/r{i}")?;
    let source = format!(in alloc; "p{next}")?;
    let session = format!(in alloc; "s{i}")?;
    let mut properties = Vec::new(alloc);
    properties.push((String::from_str(alloc, "role_arn")?, arn))?;
    properties.push((String::from_str(alloc, "source_profile")?, source))?;
    properties.push((String::from_str(alloc, "role_session_name")?, session))?;
    Ok(Section::of(name, properties))
}

// The profile of this number, with keys.
fn keys(alloc: Global, i: u64) -> Result<Section, OutOfMemory>
    ensures { IfOk result (λ section. section ≡ keys_of i) }
{
    let name = format!(in alloc; "p{i}")?;
    let id = String::from_str(alloc, "AK")?;
    let secret = String::from_str(alloc, "SK")?;
    let mut properties = Vec::new(alloc);
    properties.push((String::from_str(alloc, "aws_access_key_id")?, id))?;
    properties.push((String::from_str(alloc, "aws_secret_access_key")?, secret))?;
    Ok(Section::of(name, properties))
}
