//! The call over a set of profiles that comes from a number.
ghost use Rattle.std.specs.Prelude.{◌≡◌, ◌≤◌, IfOk};
ghost use Rattle.cfg_world.specs.Script.{AllFit};
ghost use Rattle.cfg_program.specs.Generated.{generated_reply as reply_of, generated_lists as lists_of, GeneratedAnswers};
ghost use Rattle.cfg_program.specs.Commands.{most_profiles};

use crate::configuration::configured_with;
use crate::lines::LineForm;
use crate::outcome::Answered;
use crate::resolve::{answer_over, chain_over};
use cfg_profile::{ProfileSource, generated_set};
use cfg_script::ServiceConfig;
use cfg_types::{Instant, OutOfMemory, Reply, Seq, StsCredentials, StsReply, Text};
use cfg_world::DeviceLists;
use std::alloc::Global;

/// Makes the call over the set of `n` profiles, each but the last a role over the next one, and over
/// devices that grant one exchange for each role. There are no sources of the caller's own. `OutOfMemory` where
/// memory runs out.
pub fn generate(alloc: Global, n: u64) -> Result<Answered, OutOfMemory>
    requires { n ≤ most_profiles }
    ensures { IfOk result (λ a. GeneratedAnswers n a.is_ok a.lines.items) }
{
    let set = generated_set(alloc, n)?;
    let selected = String::from_str(alloc, "p1")?;
    let config = configured_with(
        alloc,
        Vec::new(alloc),
        ProfileSource::Sections(set),
        Some(selected),
        true,
        ServiceConfig::unset(),
    )?;
    let lists = lists(alloc, n)?;
    let chain = chain_over(alloc, config, None, Vec::new(alloc))?;
    answer_over(alloc, &chain, lists, 1, LineForm::Generated(n))
}

// Devices that grant one exchange for each role of the set of n profiles.
fn lists(alloc: Global, n: u64) -> Result<DeviceLists, OutOfMemory>
    requires { n ≤ most_profiles }
    ensures value { IfOk result (λ lists. lists ≡ lists_of n) }
    ensures fit { IfOk result (λ lists. AllFit lists) }
{
    let mut replies = Vec::new(alloc);
    for before in 0..n.saturating_sub(1) {
        replies.push(Ok(granted(alloc, before + 1)?))?;
    }
    let mut lists = DeviceLists::empty(alloc);
    lists.assume_role = Seq::of(replies);
    Ok(lists)
}

// The reply to the exchange of this number, counted from 1. Its credentials expire so many seconds after 1700000000.
fn granted(alloc: Global, j: u64) -> Result<Reply, OutOfMemory>
    requires { j ≤ most_profiles }
    ensures { IfOk result (λ reply. Ok reply ≡ reply_of j) }
{
    let id = format!(in alloc; "K{j}")?;
    let secret = format!(in alloc; "S{j}")?;
    let token = format!(in alloc; "T{j}")?;
    let credentials = StsCredentials {
        access_key_id: Text::from_string(id),
        secret_access_key: Text::from_string(secret),
        session_token: Text::from_string(token),
        expiration: Instant::new(1_700_000_000 + j as i64, 0).unwrap(),
    };
    Ok(Reply::Sts(StsReply {
        credentials: Some(credentials),
        arn: None,
    }))
}
