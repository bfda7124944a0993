//! One request, sent again while its answer is repeated.
ghost use Rattle.std.specs.Prelude.{◌≡◌, IfOk, IfSome, OnErr, Some};
ghost use Rattle.cfg_world.specs.Follows.{Follows};
ghost use Rattle.cfg_exchange.specs.Classifiers.{is_repeated as is_repeated_by, repeats_reply as repeats_reply_of};
ghost use Rattle.cfg_exchange.specs.Attempts.{asked, outcome_of};
ghost use Rattle.cfg_exchange.specs.Documents.{body_document};
ghost use Rattle.cfg_exchange.specs.Exchanges.{exchange as exchange_of, Exchanged, Unexchanged};
ghost use Rattle.cfg_exchange.specs.Readings.{IsReadOf};

use crate::classify::ClassifyRetry;
use crate::documents::Said;
use crate::reading::{Reading, ReplyKind};
use cfg_types::{HttpReply, OutOfMemory, Reply, Request, TryCopy};
use cfg_world::{Answer, Asking, Devices, Question, Receipt, Stop, World};
use std::alloc::Global;

/// Sends the request until its answer is not repeated, `limit` times at most, and once where that is
/// 0. An answer is repeated where it does not read as fine and the classifier says so. Nothing is asked
/// between two attempts. The receipt is that of the last attempt, whatever its answer: a send that
/// failed is no error here. Any request may be sent: the answer to one of another kind than `Http`,
/// `MetadataToken` and `MetadataGet` is never repeated, unless its send failed.
///
/// # Errors
///
/// `OutOfMemory` where memory runs out. The journal then has gained the attempts that were made so far, or
/// nothing.
pub fn exchange<D: Devices, C: ClassifyRetry>(
    alloc: Global,
    world: &mut World<D>,
    request: &Request,
    limit: u32,
    kind: ReplyKind,
    classifier: &C,
) -> Result<Receipt, OutOfMemory>
    ensures exchanged { IfOk result (Exchanged ⟦<D as Devices>⟧ limit request.now kind (C.repeated classifier.now) world.old world.new) }
    ensures memory { OnErr result (Unexchanged ⟦<D as Devices>⟧ limit request.now kind (C.repeated classifier.now) world.old world.new) }
{
    match follow_exchange(alloc, request, limit, kind, classifier, world) {
        Ok(receipt) => Ok(receipt),
        Err(_) => Err(OutOfMemory),
    }
}

/// The body of [`exchange`], over anything that can be asked. After a stop the journal has gained the
/// attempts that were made so far.
#[tactic(auto, using(cfg_world::proofs::Inquiries::asking_steps))]
pub fn follow_exchange<A: Asking, C: ClassifyRetry>(
    alloc: Global,
    request: &Request,
    limit: u32,
    kind: ReplyKind,
    classifier: &C,
    asking: &mut A,
) -> Result<Receipt, Stop>
    ensures follows { Follows ⟦<A as Asking>⟧ (exchange_of limit request.now kind (C.repeated classifier.now)) asking.old asking.new result }
    ensures asks { IfOk result (λ e. e.0 ≡ Question.Send request.now) }
{
    let (receipt, _) = exchange_and_read(alloc, request, limit, kind, classifier, asking)?;
    Ok(receipt)
}

// The same, with what the last reply's document says, where it was read to see whether the attempt is
// repeated: so no document is read twice.
#[tactic(auto, using(crate::proofs::Repeats::attempts_steps))]
pub(crate) fn exchange_and_read<A: Asking, C: ClassifyRetry>(
    alloc: Global,
    request: &Request,
    limit: u32,
    kind: ReplyKind,
    classifier: &C,
    asking: &mut A,
) -> Result<(Receipt, Option<Said>), Stop>
    ensures follows { Follows ⟦<A as Asking>⟧ (exchange_of limit request.now kind (C.repeated classifier.now)) asking.old asking.new (outcome_of result) }
    ensures asks { IfOk result (λ x. x.0.0 ≡ Question.Send request.now) }
    ensures said { IfOk result (λ x. IsReadOf x.0.1 x.1) }
{
    let mut more = limit.saturating_sub(1);
    loop {
        let receipt = attempt(alloc, request, asking)?;
        if more == 0 {
            return Ok((receipt, None));
        }
        let (repeated, said) = is_repeated(alloc, receipt.entry().answer(), kind, classifier)?;
        if !repeated {
            return Ok((receipt, said));
        }
        more -= 1;
    }
}

// One attempt.
#[tactic(auto, using(cfg_world::proofs::Inquiries::asking_steps), unfolding(crate::specs::Attempts::asked))]
fn attempt<A: Asking>(alloc: Global, request: &Request, asking: &mut A) -> Result<Receipt, Stop>
    ensures follows { Follows ⟦<A as Asking>⟧ (asked (Question.Send request.now)) asking.old asking.new result }
    ensures asks { IfOk result (λ e. e.0 ≡ Question.Send request.now) }
{
    let request = request.copy(alloc)?;
    asking.put(Question::send(alloc, request)?)
}

// Whether an attempt with this answer is repeated, and what its document says, where that was read.
fn is_repeated<C: ClassifyRetry>(
    alloc: Global,
    answer: &Answer,
    kind: ReplyKind,
    classifier: &C,
) -> Result<(bool, Option<Said>), OutOfMemory>
    ensures repeated { IfOk result (λ x. x.0 ≡ is_repeated_by kind (C.repeated classifier.now) answer.now) }
    ensures said { IfOk result (λ x. IsReadOf answer.now x.1) }
{
    match answer {
        Answer::Replied(Reply::Http(reply)) => repeats_reply(alloc, reply, kind, classifier),
        Answer::Failed(_) => Ok((classifier.repeats(None, Reading::Unreadable), None)),
        _ => Ok((false, None)),
    }
}

fn repeats_reply<C: ClassifyRetry>(
    alloc: Global,
    reply: &HttpReply,
    kind: ReplyKind,
    classifier: &C,
) -> Result<(bool, Option<Said>), OutOfMemory>
    ensures repeated { IfOk result (λ x. x.0 ≡ repeats_reply_of kind (C.repeated classifier.now) (Some reply.now)) }
    ensures said { IfOk result (λ x. IfSome x.1 (λ said. said ≡ body_document reply.now.body)) }
{
    let (reading, said) = kind.read(alloc, reply)?;
    if matches!(reading, Reading::Fine) {
        return Ok((false, said));
    }
    Ok((classifier.repeats(Some(reply), reading), said))
}
