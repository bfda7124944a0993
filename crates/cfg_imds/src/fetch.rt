//! What stands at a path of the instance metadata service.
ghost use Rattle.std.specs.Prelude.{◌≡◌, None as none, IfOk, true};
ghost use Rattle.cfg_world.specs.Follows.{Follows};
ghost use Rattle.cfg_world.specs.Leaves.{http_of};
ghost use Rattle.cfg_imds.specs.Requests.{service};
ghost use Rattle.cfg_imds.specs.Fetches.{is_get, send_error as send_error_of, reply_fault as reply_fault_of, sent_fault, entry_fault as entry_fault_of, fetched as fetched_of, fetch_at as fetch_at_of, entry_text as entry_text_of};
ghost use Rattle.cfg_base.specs.Text.{characters};

use crate::requests::{ImdsSettings, ask_path};
use cfg_exchange::ClassifyRetry;
use cfg_exchange::steps::is_success;
use cfg_json::utf8_text;
use cfg_types::imds::{ErrorResponse, ImdsError, UnexpectedCause};
use cfg_types::{Bytes, FailKind, HttpReply, OutOfMemory, Reply, Text, TryCopy};
use cfg_world::{Answer, Asking, Receipt, Stop};
use std::alloc::Global;

fn send_error(kind: FailKind) -> ImdsError
    ensures { result ≡ send_error_of kind }
{
    match kind {
        FailKind::Dispatch => ImdsError::Unexpected(UnexpectedCause::Dispatch),
        _ => ImdsError::IoError(kind),
    }
}

// What is wrong with a reply, if anything is.
#[tactic(auto, unfolding(crate::specs::Fetches::reply_fault))]
fn reply_fault(alloc: Global, reply: &HttpReply) -> Result<Option<ImdsError>, OutOfMemory>
    ensures { IfOk result (λ fault. fault ≡ reply_fault_of reply.now) }
{
    if !is_success(reply.status) {
        let error = ErrorResponse::new(reply.copy(alloc)?);
        return Ok(Some(ImdsError::ErrorResponse(error)));
    }
    match utf8_text(reply.body.as_slice()) {
        Some(_) => Ok(None),
        None => Ok(Some(ImdsError::Unexpected(UnexpectedCause::NotUtf8))),
    }
}

// What is wrong with an answer, if anything is. An answer of another kind never comes.
fn answer_fault(alloc: Global, answer: &Answer) -> Result<Option<ImdsError>, OutOfMemory>
    ensures { IfOk result (λ fault. fault ≡ sent_fault (http_of answer.now)) }
{
    let kind = match answer {
        Answer::Replied(Reply::Http(reply)) => return reply_fault(alloc, reply),
        Answer::Failed(kind) => *kind,
        _ => FailKind::Io,
    };
    Ok(Some(send_error(kind)))
}

#[tactic(auto, unfolding(crate::specs::Fetches::entry_fault))]
fn entry_fault(alloc: Global, receipt: &Receipt) -> Result<Option<ImdsError>, OutOfMemory>
    ensures { IfOk result (λ fault. fault ≡ entry_fault_of receipt.now) }
{
    answer_fault(alloc, receipt.entry().answer())
}

// A receipt with whose answer nothing is wrong, or what is.
#[tactic(auto, unfolding(crate::specs::Fetches::fetched))]
fn fetched(alloc: Global, receipt: Receipt) -> Result<Result<Receipt, ImdsError>, OutOfMemory>
    ensures fetched { IfOk result (λ r. fetched_of receipt ≡ r) }
    ensures same { IfOk result (λ r. IfOk r (λ e. e ≡ receipt)) }
    ensures fine { IfOk result (λ r. IfOk r (λ e. entry_fault_of e ≡ none)) }
{
    match entry_fault(alloc, &receipt)? {
        None => Ok(Ok(receipt)),
        Some(error) => Ok(Err(error)),
    }
}

// What stands at a path of the service at this endpoint, in attempts.
#[tactic(auto, using(crate::proofs::SaidSteps::said_steps), unfolding(crate::specs::Fetches::fetch_at))]
pub fn fetch_at<A: Asking, C: ClassifyRetry>(
    alloc: Global,
    settings: &ImdsSettings,
    classifier: &C,
    endpoint: &Text,
    path: &str,
    token: &Bytes,
    asking: &mut A,
) -> Result<Result<Receipt, ImdsError>, Stop>
    ensures follows { Follows ⟦<A as Asking>⟧
        (fetch_at_of (service settings.now (C.repeated classifier.now)) endpoint.now path.now token.now)
        asking.old asking.new result }
    ensures get { IfOk result (λ r. IfOk r (λ e. is_get e.0 ≡ true)) }
    ensures fine { IfOk result (λ r. IfOk r (λ e. entry_fault_of e ≡ none)) }
{
    let receipt = ask_path(alloc, settings, classifier, endpoint, path, token, asking)?;
    let outcome = fetched(alloc, receipt)?;
    Ok(outcome)
}

// The text of a reply with which nothing is wrong.
#[tactic(auto, unfolding(crate::specs::Fetches::reply_fault, cfg_json::specs::Reading::utf8_of))]
fn reply_text(alloc: Global, reply: &HttpReply) -> Result<Text, OutOfMemory>
    requires { reply_fault_of reply.now ≡ none }
    ensures { IfOk result (λ t. t ≡ characters reply.now.body) }
{
    match utf8_text(reply.body.as_slice()) {
        Some(text) => Text::of(alloc, text),
        None => unreachable!(),
    }
}

/// The text of what was fetched, by a receipt as `Client::fetch` gives it. `OutOfMemory` where memory runs
/// out.
#[tactic(auto, unfolding(crate::specs::Fetches::entry_fault, crate::specs::Fetches::entry_text))]
pub fn entry_text(alloc: Global, receipt: &Receipt) -> Result<Text, OutOfMemory>
    requires { entry_fault_of receipt.now ≡ none }
    ensures { IfOk result (λ t. t ≡ entry_text_of receipt.now) }
{
    match receipt.entry().answer() {
        Answer::Replied(Reply::Http(reply)) => reply_text(alloc, reply),
        _ => unreachable!(),
    }
}
