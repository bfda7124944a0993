//! One question at a time, and what its answer is read as. Each call stops where its question has no
//! answer, and the journal is then as it was. It stops with `OutOfMemory` also where memory runs out
//! while the question is made, and nothing was asked then, or while the answer is copied; the journal
//! has question and answer then.
ghost use Rattle.std.specs.Prelude.{◌≡◌};
ghost use Rattle.cfg_world.specs.Follows.{Follows};
ghost use Rattle.cfg_world.specs.Leaves.{clock, jitter, reading_file, writing_file, running, looking_up, sending, fetching, fetching_token, fetching_metadata, assuming, assuming_by_web_identity, getting_role_credentials, creating_token, signing_in};

use crate::ask::{Answer, Question};
use crate::asking::{Asking, Stop};
use cfg_types::{
    Address, AssumeRole, AssumeRoleWithWebIdentity, Bytes, CommandWithSensitiveArgs,
    CreateOAuth2Token, CreateToken, FailKind, Finished, GetRoleCredentials, Http, HttpReply,
    Instant, MetadataGet, MetadataToken, Refusal, Reply, Request, RoleReply, Seq, SignInReply,
    StsReply, Text, TokenReply, TryCopy,
};
use std::alloc::Global;

/// Why a call of a service gives nothing.
#[derive(Debug, PartialEq, Eq, Drop)]
pub enum NotGranted {
    /// The transport failed.
    Failed(FailKind),
    /// The service refused.
    Refused(Refusal),
}

/// A reading of the clock, in seconds and nanoseconds from the epoch on.
#[tactic(auto, unfolding(crate::specs::Leaves::clock))]
pub fn read_clock<A: Asking>(asking: &mut A) -> Result<Instant, Stop>
    ensures { Follows ⟦<A as Asking>⟧ (clock) asking.old asking.new result }
{
    let receipt = asking.put(Question::Now)?;
    match receipt.entry().answer() {
        Answer::Moment(moment) => Ok(*moment),
        _ => unreachable!(),
    }
}

/// A jitter: a number that nobody should be able to foresee.
#[tactic(auto, unfolding(crate::specs::Leaves::jitter))]
pub fn read_jitter<A: Asking>(asking: &mut A) -> Result<u64, Stop>
    ensures { Follows ⟦<A as Asking>⟧ (jitter) asking.old asking.new result }
{
    let receipt = asking.put(Question::Jitter)?;
    match receipt.entry().answer() {
        Answer::Jitter(number) => Ok(*number),
        _ => unreachable!(),
    }
}

/// What the file of this path holds, or `Io` where it cannot be read. The outer error is a stop.
#[tactic(auto, using(crate::proofs::Inquiries::asking_steps), unfolding(crate::specs::Leaves::reading_file))]
pub fn read_file<A: Asking>(
    alloc: Global,
    path: &Text,
    asking: &mut A,
) -> Result<Result<Bytes, FailKind>, Stop>
    ensures { Follows ⟦<A as Asking>⟧ (reading_file path.now) asking.old asking.new result }
{
    let path = path.copy(alloc)?;
    let receipt = asking.put(Question::Read { path })?;
    Ok(receipt.into_answer(alloc)?.into_contents())
}

/// Lets the file of this path hold these bytes, or `Io` where that failed. The outer error is a stop.
#[tactic(auto, unfolding(crate::specs::Leaves::writing_file))]
pub fn write_file<A: Asking>(
    alloc: Global,
    path: Text,
    bytes: Bytes,
    asking: &mut A,
) -> Result<Result<(), FailKind>, Stop>
    ensures { Follows ⟦<A as Asking>⟧ (writing_file path bytes) asking.old asking.new result }
{
    let receipt = asking.put(Question::Write { path, bytes })?;
    Ok(receipt.into_answer(alloc)?.into_written())
}

/// What this command leaves behind, or `Io` where it did not run. The outer error is a stop.
#[tactic(auto, using(crate::proofs::Inquiries::asking_steps), unfolding(crate::specs::Leaves::running))]
pub fn run_command<A: Asking>(
    alloc: Global,
    command: &CommandWithSensitiveArgs,
    asking: &mut A,
) -> Result<Result<Finished, FailKind>, Stop>
    ensures { Follows ⟦<A as Asking>⟧ (running command.now) asking.old asking.new result }
{
    let command = Text::of(alloc, command.unredacted())?;
    let receipt = asking.put(Question::Run { command })?;
    Ok(receipt.into_answer(alloc)?.into_finished())
}

/// The addresses of this host, or `Io` where the look-up failed. The outer error is a stop.
#[tactic(auto, unfolding(crate::specs::Leaves::looking_up))]
pub fn look_up<A: Asking>(
    alloc: Global,
    host: Text,
    asking: &mut A,
) -> Result<Result<Seq<Address>, FailKind>, Stop>
    ensures { Follows ⟦<A as Asking>⟧ (looking_up host) asking.old asking.new result }
{
    let receipt = asking.put(Question::LookUp { host })?;
    Ok(receipt.into_answer(alloc)?.into_addresses())
}

/// The reply to one request, or how the transport failed: `Dispatch`, `Timeout` or `Broken`. The outer
/// error is a stop.
#[tactic(auto, using(crate::proofs::Inquiries::asking_steps), unfolding(crate::specs::Leaves::sending))]
pub fn send<A: Asking>(
    alloc: Global,
    request: Request,
    asking: &mut A,
) -> Result<Result<Reply, FailKind>, Stop>
    ensures { Follows ⟦<A as Asking>⟧ (sending request) asking.old asking.new result }
{
    let receipt = asking.put(Question::send(alloc, request)?)?;
    Ok(receipt.into_answer(alloc)?.into_reply())
}

/// The reply to a GET, or how the transport failed. The outer error is a stop.
#[tactic(auto, using(crate::proofs::Inquiries::asking_steps), unfolding(crate::specs::Leaves::fetching))]
pub fn fetch<A: Asking>(
    alloc: Global,
    call: Http,
    asking: &mut A,
) -> Result<Result<HttpReply, FailKind>, Stop>
    ensures { Follows ⟦<A as Asking>⟧ (fetching call) asking.old asking.new result }
{
    let receipt = asking.put(Question::send(alloc, Request::Http(call))?)?;
    Ok(receipt.into_answer(alloc)?.into_http())
}

/// The reply to a request for a metadata token, or how the transport failed. The outer error is a
/// stop.
#[tactic(auto, using(crate::proofs::Inquiries::asking_steps), unfolding(crate::specs::Leaves::fetching_token))]
pub fn fetch_metadata_token<A: Asking>(
    alloc: Global,
    call: MetadataToken,
    asking: &mut A,
) -> Result<Result<HttpReply, FailKind>, Stop>
    ensures { Follows ⟦<A as Asking>⟧ (fetching_token call) asking.old asking.new result }
{
    let receipt = asking.put(Question::send(alloc, Request::MetadataToken(call))?)?;
    Ok(receipt.into_answer(alloc)?.into_http())
}

/// The reply to a request for metadata, or how the transport failed. The outer error is a stop.
#[tactic(auto, using(crate::proofs::Inquiries::asking_steps), unfolding(crate::specs::Leaves::fetching_metadata))]
pub fn fetch_metadata<A: Asking>(
    alloc: Global,
    call: MetadataGet,
    asking: &mut A,
) -> Result<Result<HttpReply, FailKind>, Stop>
    ensures { Follows ⟦<A as Asking>⟧ (fetching_metadata call) asking.old asking.new result }
{
    let receipt = asking.put(Question::send(alloc, Request::MetadataGet(call))?)?;
    Ok(receipt.into_answer(alloc)?.into_http())
}

/// The reply to `AssumeRole`, or why there is none. The outer error is a stop.
#[tactic(auto, using(crate::proofs::Inquiries::asking_steps), unfolding(crate::specs::Leaves::assuming))]
pub fn assume_role<A: Asking>(
    alloc: Global,
    call: AssumeRole,
    asking: &mut A,
) -> Result<Result<StsReply, NotGranted>, Stop>
    ensures { Follows ⟦<A as Asking>⟧ (assuming call) asking.old asking.new result }
{
    let receipt = asking.put(Question::send(alloc, Request::AssumeRole(call))?)?;
    Ok(receipt.into_answer(alloc)?.into_sts())
}

/// The reply to `AssumeRoleWithWebIdentity`, or why there is none. The outer error is a stop.
#[tactic(auto, using(crate::proofs::Inquiries::asking_steps), unfolding(crate::specs::Leaves::assuming_by_web_identity))]
pub fn assume_role_with_web_identity<A: Asking>(
    alloc: Global,
    call: AssumeRoleWithWebIdentity,
    asking: &mut A,
) -> Result<Result<StsReply, NotGranted>, Stop>
    ensures { Follows ⟦<A as Asking>⟧ (assuming_by_web_identity call) asking.old asking.new result }
{
    let receipt = asking.put(Question::send(alloc, Request::AssumeRoleWithWebIdentity(call))?)?;
    Ok(receipt.into_answer(alloc)?.into_sts())
}

/// The reply to `GetRoleCredentials`, or why there is none. The outer error is a stop.
#[tactic(auto, using(crate::proofs::Inquiries::asking_steps), unfolding(crate::specs::Leaves::getting_role_credentials))]
pub fn get_role_credentials<A: Asking>(
    alloc: Global,
    call: GetRoleCredentials,
    asking: &mut A,
) -> Result<Result<RoleReply, NotGranted>, Stop>
    ensures { Follows ⟦<A as Asking>⟧ (getting_role_credentials call) asking.old asking.new result }
{
    let receipt = asking.put(Question::send(alloc, Request::GetRoleCredentials(call))?)?;
    Ok(receipt.into_answer(alloc)?.into_role())
}

/// The reply to `CreateToken`, or why there is none. The outer error is a stop.
#[tactic(auto, using(crate::proofs::Inquiries::asking_steps), unfolding(crate::specs::Leaves::creating_token))]
pub fn create_token<A: Asking>(
    alloc: Global,
    call: CreateToken,
    asking: &mut A,
) -> Result<Result<TokenReply, NotGranted>, Stop>
    ensures { Follows ⟦<A as Asking>⟧ (creating_token call) asking.old asking.new result }
{
    let receipt = asking.put(Question::send(alloc, Request::CreateToken(call))?)?;
    Ok(receipt.into_answer(alloc)?.into_token())
}

/// The reply to `CreateOAuth2Token`, or why there is none. The outer error is a stop.
#[tactic(auto, using(crate::proofs::Inquiries::asking_steps), unfolding(crate::specs::Leaves::signing_in))]
pub fn create_oauth2_token<A: Asking>(
    alloc: Global,
    call: CreateOAuth2Token,
    asking: &mut A,
) -> Result<Result<SignInReply, NotGranted>, Stop>
    ensures { Follows ⟦<A as Asking>⟧ (signing_in call) asking.old asking.new result }
{
    let receipt = asking.put(Question::send(alloc, Request::CreateOAuth2Token(call))?)?;
    Ok(receipt.into_answer(alloc)?.into_sign_in())
}
