//! How a session token is had: a kept one, or a new one.
ghost use Rattle.std.specs.Prelude.{◌≡◌, IfOk, OnErr, true};
ghost use Rattle.cfg_world.specs.Follows.{Follows};
ghost use Rattle.cfg_exchange.specs.Attempts.{asked};
ghost use Rattle.cfg_world.specs.declared.ask.Question.TheVariants.{Now};
ghost use Rattle.cfg_imds.specs.Requests.{service};
ghost use Rattle.cfg_imds.specs.Tokens.{bare_kept, is_token_request};
ghost use Rattle.cfg_imds.specs.Settles.{has_time_left as has_time_left_of, kept_value as kept_value_of, renewal, renew as renew_of, settle_at as settle_at_of, FollowsKept};

use crate::requests::{ImdsSettings, ask_token};
use crate::token::MetadataToken;
use cfg_exchange::ClassifyRetry;
use cfg_types::imds::ImdsError;
use cfg_types::{Bytes, Instant, OutOfMemory, Text, TryCopy};
use cfg_world::{Asking, Question, Receipt, Stop, read_clock};
use std::alloc::Global;

// A kept token is used while more than so many seconds of it are left.
const TOKEN_REFRESH_BUFFER: u64 = 120;

// Whether enough of a kept token is left.
fn has_time_left(kept: &Option<MetadataToken>, now: Instant) -> bool
    ensures { result ≡ has_time_left_of (bare_kept kept.now) now }
{
    match kept {
        None => false,
        Some(token) => token.expiry().is_later_by(TOKEN_REFRESH_BUFFER, now),
    }
}

fn kept_value(alloc: Global, kept: &Option<MetadataToken>) -> Result<Bytes, OutOfMemory>
    ensures { IfOk result (λ value. value ≡ kept_value_of (bare_kept kept.now)) }
{
    match kept {
        None => Bytes::of(alloc, b""),
        Some(token) => token.value().copy(alloc),
    }
}

// Keeps the token that these receipts give, and answers its value. After a refusal none is kept.
#[tactic(auto, unfolding(crate::specs::Settles::renewal))]
fn keep_read(
    alloc: Global,
    kept: &mut Option<MetadataToken>,
    reply: Receipt,
    reading: Receipt,
) -> Result<Result<Bytes, ImdsError>, OutOfMemory>
    requires sends { is_token_request reply.0 ≡ true }
    requires reads { reading.0 ≡ Now }
    ensures kept { IfOk result (λ r. renewal reply reading ≡ (r, bare_kept kept.new)) }
    ensures stays { OnErr result (kept.new ≡ kept.old) }
{
    match MetadataToken::read(alloc, reply, reading)? {
        Ok(token) => {
            let value = token.value().copy(alloc)?;
            *kept = Some(token);
            Ok(Ok(value))
        }
        Err(error) => {
            *kept = None;
            Ok(Err(ImdsError::FailedToLoadToken(error)))
        }
    }
}

// A reading of the clock, with its receipt.
#[tactic(auto, unfolding(cfg_exchange::specs::Attempts::asked))]
fn read_again<A: Asking>(asking: &mut A) -> Result<Receipt, Stop>
    ensures follows { Follows ⟦<A as Asking>⟧ (asked Now) asking.old asking.new result }
    ensures asks { IfOk result (λ e. e.0 ≡ Now) }
{
    asking.put(Question::Now)
}

// A token request, and a reading of the clock after it.
#[tactic(auto, using(crate::proofs::SaidSteps::said_steps), unfolding(crate::specs::Settles::renew))]
fn renew<A: Asking, C: ClassifyRetry>(
    alloc: Global,
    settings: &ImdsSettings,
    classifier: &C,
    endpoint: &Text,
    kept: &mut Option<MetadataToken>,
    asking: &mut A,
) -> Result<Result<Bytes, ImdsError>, Stop>
    ensures follows { FollowsKept ⟦<A as Asking>⟧
        (renew_of (service settings.now (C.repeated classifier.now)) endpoint.now)
        asking.old asking.new (bare_kept kept.new) result }
    ensures stays { OnErr result (kept.new ≡ kept.old) }
{
    let reply = ask_token(alloc, settings, classifier, endpoint, asking)?;
    let reading = read_again(asking)?;
    let outcome = keep_read(alloc, kept, reply, reading)?;
    Ok(outcome)
}

// A session token of the service at this endpoint.
#[tactic(auto, using(cfg_world::proofs::Inquiries::asking_steps), unfolding(crate::specs::Settles::settle_at))]
pub fn settle_at<A: Asking, C: ClassifyRetry>(
    alloc: Global,
    settings: &ImdsSettings,
    classifier: &C,
    endpoint: &Text,
    kept: &mut Option<MetadataToken>,
    asking: &mut A,
) -> Result<Result<Bytes, ImdsError>, Stop>
    ensures follows { FollowsKept ⟦<A as Asking>⟧
        (settle_at_of (service settings.now (C.repeated classifier.now)) endpoint.now (bare_kept kept.old))
        asking.old asking.new (bare_kept kept.new) result }
    ensures stays { OnErr result (kept.new ≡ kept.old) }
{
    let now = read_clock(asking)?;
    if has_time_left(kept, now) {
        let value = kept_value(alloc, kept)?;
        return Ok(Ok(value));
    }
    renew(alloc, settings, classifier, endpoint, kept, asking)
}
