//! What the instance metadata service is sent.
ghost use Rattle.std.specs.Prelude.{◌≡◌, IfOk, true};
ghost use Rattle.cfg_world.specs.declared.ask.Question.TheVariants.{Send};
ghost use Rattle.cfg_world.specs.Follows.{Follows};
ghost use Rattle.cfg_imds.specs.Fetches.{is_get};
ghost use Rattle.cfg_imds.specs.Tokens.{is_token_request};
ghost use Rattle.cfg_imds.specs.Requests.{service, tries as tries_of, token_request, get_request, token_attempts, get_attempts};

use cfg_exchange::steps::follow_exchange;
use cfg_exchange::{ClassifyRetry, ReplyKind};
use cfg_types::{
    Bytes, MetadataGet, MetadataToken as TokenRequest, OutOfMemory, Request, Text, Timeouts,
    TryCopy,
};
use cfg_world::{Asking, Receipt, Stop};
use std::alloc::Global;

/// How the service is asked, wherever that is.
#[derive(Clone, Copy, Debug, PartialEq, Eq)]
pub struct ImdsSettings {
    /// How many seconds a session token is to live.
    pub ttl_seconds: u64,
    /// How often a request may be sent in all. 0 is taken as 1.
    pub max_attempts: u32,
    /// The limits of time of each request, in milliseconds.
    pub timeouts: Timeouts,
}

fn make_token_request(
    alloc: Global,
    settings: &ImdsSettings,
    endpoint: &Text,
) -> Result<Request, OutOfMemory>
    ensures { IfOk result (λ r. r ≡ token_request settings.now endpoint.now) }
{
    let endpoint = endpoint.copy(alloc)?;
    Ok(Request::MetadataToken(TokenRequest {
        endpoint,
        ttl_seconds: settings.ttl_seconds,
        timeouts: settings.timeouts,
    }))
}

fn make_get_request(
    alloc: Global,
    settings: &ImdsSettings,
    endpoint: &Text,
    path: &str,
    token: &Bytes,
) -> Result<Request, OutOfMemory>
    ensures { IfOk result (λ r. r ≡ get_request settings.now endpoint.now path.now token.now) }
{
    let endpoint = endpoint.copy(alloc)?;
    let path = Text::of(alloc, path)?;
    let token = token.copy(alloc)?;
    Ok(Request::MetadataGet(MetadataGet {
        endpoint,
        path,
        token,
        timeouts: settings.timeouts,
    }))
}

// One request in attempts.
#[tactic(auto, unfolding(crate::specs::Requests::tries))]
fn tries<A: Asking, C: ClassifyRetry>(
    alloc: Global,
    settings: &ImdsSettings,
    classifier: &C,
    request: &Request,
    kind: ReplyKind,
    asking: &mut A,
) -> Result<Receipt, Stop>
    ensures follows { Follows ⟦<A as Asking>⟧ (tries_of (service settings.now (C.repeated classifier.now)) kind request.now) asking.old asking.new result }
    ensures asks { IfOk result (λ e. e.0 ≡ Send request.now) }
{
    follow_exchange(
        alloc,
        request,
        settings.max_attempts,
        kind,
        classifier,
        asking,
    )
}

// The attempts at a session token.
#[tactic(auto, using(cfg_world::proofs::Inquiries::asking_steps))]
pub fn ask_token<A: Asking, C: ClassifyRetry>(
    alloc: Global,
    settings: &ImdsSettings,
    classifier: &C,
    endpoint: &Text,
    asking: &mut A,
) -> Result<Receipt, Stop>
    ensures follows { Follows ⟦<A as Asking>⟧ (token_attempts (service settings.now (C.repeated classifier.now)) endpoint.now) asking.old asking.new result }
    ensures sends { IfOk result (λ e. is_token_request e.0 ≡ true) }
{
    let request = make_token_request(alloc, settings, endpoint)?;
    let kind = ReplyKind::MetadataToken;
    tries(alloc, settings, classifier, &request, kind, asking)
}

// The attempts at what stands at a path.
#[tactic(auto, using(cfg_world::proofs::Inquiries::asking_steps))]
pub fn ask_path<A: Asking, C: ClassifyRetry>(
    alloc: Global,
    settings: &ImdsSettings,
    classifier: &C,
    endpoint: &Text,
    path: &str,
    token: &Bytes,
    asking: &mut A,
) -> Result<Receipt, Stop>
    ensures follows { Follows ⟦<A as Asking>⟧
        (get_attempts (service settings.now (C.repeated classifier.now)) endpoint.now path.now token.now)
        asking.old asking.new result }
    ensures get { IfOk result (λ e. is_get e.0 ≡ true) }
{
    let request = make_get_request(alloc, settings, endpoint, path, token)?;
    let kind = ReplyKind::MetadataText;
    tries(alloc, settings, classifier, &request, kind, asking)
}
