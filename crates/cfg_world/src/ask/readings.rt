//! What an answer is read as. One of another kind than its question's never comes; it is read as a
//! failure with `Io`.
ghost use Rattle.std.specs.Prelude.{◌≡◌};
ghost use Rattle.cfg_types.specs.Replies.{sts_in, role_in, token_in, sign_in_in};
ghost use Rattle.cfg_world.specs.Leaves.{contents_of, written_of, finished_of, addresses_of, reply_of, http_of, or_refused as or_refused_of, replied_of, granted_of};

use crate::ask::Answer;
use crate::leaves::NotGranted;
use cfg_types::{
    Address, Bytes, FailKind, Finished, HttpReply, Refusal, Reply, RoleReply, Seq, SignInReply,
    StsReply, TokenReply,
};

impl Answer {
    /// What a file holds, or how it failed. An answer of another kind is `Io`.
    pub fn into_contents(self) -> Result<Bytes, FailKind>
        ensures { result ≡ contents_of self }
    {
        match self {
            Answer::Contents(bytes) => Ok(bytes),
            Answer::Failed(kind) => Err(kind),
            _ => Err(FailKind::Io),
        }
    }

    /// That a file was written, or how it failed. An answer of another kind is `Io`.
    pub fn into_written(self) -> Result<(), FailKind>
        ensures { result ≡ written_of self }
    {
        match self {
            Answer::Written => Ok(()),
            Answer::Failed(kind) => Err(kind),
            _ => Err(FailKind::Io),
        }
    }

    /// What a command left behind, or how it failed. An answer of another kind is `Io`.
    pub fn into_finished(self) -> Result<Finished, FailKind>
        ensures { result ≡ finished_of self }
    {
        match self {
            Answer::Finished(finished) => Ok(finished),
            Answer::Failed(kind) => Err(kind),
            _ => Err(FailKind::Io),
        }
    }

    /// The addresses of a host, or how the look-up failed. An answer of another kind is `Io`.
    pub fn into_addresses(self) -> Result<Seq<Address>, FailKind>
        ensures { result ≡ addresses_of self }
    {
        match self {
            Answer::Addresses(addresses) => Ok(addresses),
            Answer::Failed(kind) => Err(kind),
            _ => Err(FailKind::Io),
        }
    }

    /// The reply of a transport, or how it failed. An answer of another kind is `Io`.
    pub fn into_reply(self) -> Result<Reply, FailKind>
        ensures { result ≡ reply_of self }
    {
        match self {
            Answer::Replied(reply) => Ok(reply),
            Answer::Failed(kind) => Err(kind),
            _ => Err(FailKind::Io),
        }
    }

    /// The reply to an HTTP request, or how the transport failed. An answer or a reply of another
    /// kind is `Io`.
    pub fn into_http(self) -> Result<HttpReply, FailKind>
        ensures { result ≡ http_of self }
    {
        self.into_reply()?.into_http().ok_or(FailKind::Io)
    }

    /// The reply of the Security Token Service, or why there is none: it refused, or the transport
    /// failed. An answer or a reply of another kind is `Failed(Io)`.
    pub fn into_sts(self) -> Result<StsReply, NotGranted>
        ensures { result ≡ granted_of sts_in self }
    {
        or_refused(self.into_granting()?.into_sts())
    }

    /// The reply to `GetRoleCredentials`, or why there is none. An answer or a reply of another kind
    /// is `Failed(Io)`.
    pub fn into_role(self) -> Result<RoleReply, NotGranted>
        ensures { result ≡ granted_of role_in self }
    {
        or_refused(self.into_granting()?.into_role())
    }

    /// The reply to `CreateToken`, or why there is none. An answer or a reply of another kind is
    /// `Failed(Io)`.
    pub fn into_token(self) -> Result<TokenReply, NotGranted>
        ensures { result ≡ granted_of token_in self }
    {
        or_refused(self.into_granting()?.into_token())
    }

    /// The reply to `CreateOAuth2Token`, or why there is none. An answer or a reply of another kind
    /// is `Failed(Io)`.
    pub fn into_sign_in(self) -> Result<SignInReply, NotGranted>
        ensures { result ≡ granted_of sign_in_in self }
    {
        or_refused(self.into_granting()?.into_sign_in())
    }

    // The reply of a service.
    fn into_granting(self) -> Result<Reply, NotGranted>
        ensures { result ≡ replied_of self }
    {
        match self {
            Answer::Replied(reply) => Ok(reply),
            Answer::Failed(kind) => Err(NotGranted::Failed(kind)),
            _ => Err(NotGranted::Failed(FailKind::Io)),
        }
    }
}

// A reply of its kind, or its refusal.
fn or_refused<T: Drop>(reply: Option<Result<T, Refusal>>) -> Result<T, NotGranted>
    ensures { result ≡ or_refused_of reply }
{
    match reply {
        Some(Ok(reply)) => Ok(reply),
        Some(Err(refusal)) => Err(NotGranted::Refused(refusal)),
        None => Err(NotGranted::Failed(FailKind::Io)),
    }
}
