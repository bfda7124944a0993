//! The region that the instance metadata service tells.
ghost use Rattle.std.specs.Prelude.{◌≡◌, option_map, IfOk, OnErr};
ghost use Rattle.cfg_imds.specs.Clients.{rules_of};
ghost use Rattle.cfg_imds.specs.Left.{RegionLeftBy};
ghost use Rattle.cfg_imds.specs.Regions.{is_true_text as is_true_text_of, is_disabled as is_disabled_of, region_in, region as region_of};
ghost use Rattle.cfg_imds.specs.Settles.{FollowsKept};
ghost use Rattle.cfg_imds.specs.Tokens.{bare_kept};

use crate::imds::client::{Client, follow_get};
use crate::token::MetadataToken;
use cfg_types::imds::ImdsError;
use cfg_types::{Env, OutOfMemory, Region, SensitiveString};
use cfg_world::{Asking, Stop};
use std::alloc::Global;

fn is_true_text(text: Option<&str>) -> bool
    ensures { result ≡ is_true_text_of (option_map (λ t. t.now) text.entry) }
{
    match text {
        Some(text) => text.eq_ignore_ascii_case("true"),
        None => false,
    }
}

/// Whether metadata is switched off: `AWS_EC2_METADATA_DISABLED` is `true`, whatever the ASCII case of
/// its letters.
#[tactic(auto, unfolding(crate::specs::Regions::is_disabled))]
pub fn is_disabled(env: &Env) -> bool
    ensures { result ≡ is_disabled_of env.now }
{
    is_true_text(env.readable("AWS_EC2_METADATA_DISABLED"))
}

fn region_of_text(
    alloc: Global,
    got: Result<SensitiveString, ImdsError>,
) -> Result<Option<Region>, OutOfMemory>
    ensures { IfOk result (λ region. region_in got ≡ region) }
{
    match got {
        Ok(text) => {
            let region = Region::new(alloc, text.as_str())?;
            Ok(Some(region))
        }
        Err(_) => Ok(None),
    }
}

/// The region of the machine: the text at `/latest/meta-data/placement/region`, as it stands. None where
/// metadata is switched off, and nothing is asked then; none, too, after each error but that memory ran
/// out, which is a stop. What is kept is as [`crate::imds::Client::get`] leaves it, and as it was where metadata
/// is switched off. After a stop it is as it was, or as a settle or a get that came to its end left it.
#[tactic(auto, using(crate::proofs::Located::located_steps), unfolding(crate::specs::Regions::region))]
pub fn follow_region<A: Asking>(
    alloc: Global,
    env: &Env,
    client: &Client,
    kept: &mut Option<MetadataToken>,
    asking: &mut A,
) -> Result<Option<Region>, Stop>
    ensures follows { FollowsKept ⟦<A as Asking>⟧
        (region_of (is_disabled_of env.now) (rules_of repeated client.now) (bare_kept kept.old))
        asking.old asking.new (bare_kept kept.new) result }
    ensures left { OnErr result (RegionLeftBy ⟦<A as Asking>⟧ (rules_of repeated client.now) asking.old asking.new kept.old kept.new) }
{
    if is_disabled(env) {
        return Ok(None);
    }
    let got = follow_get(client, kept, "/latest/meta-data/placement/region", asking)?;
    let region = region_of_text(alloc, got)?;
    Ok(region)
}
