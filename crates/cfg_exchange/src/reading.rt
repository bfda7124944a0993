//! How a reply reads.
ghost use Rattle.std.specs.Prelude.{◌≡◌, IfOk, IfSome};
ghost use Rattle.cfg_exchange.specs.Documents.{body_document as body_document_of};
ghost use Rattle.cfg_exchange.specs.Readings.{is_success as is_success_of, said_reading as said_reading_of, document_reading as document_reading_of, token_reading as token_reading_of, text_reading as text_reading_of, reading as reading_of};

use crate::documents::{Said, body_document, is_utf8};
use crate::header_value::is_header_value;
use crate::lifetime::lifetime;
use cfg_json::JsonCredentials;
use cfg_types::{HttpReply, OutOfMemory};
use std::alloc::Global;

/// How a reply reads.
#[derive(Clone, Copy, Debug, PartialEq, Eq)]
pub enum Reading {
    /// It holds what was asked for.
    Fine,
    /// Its status, or the error document that it is, says that it does not.
    Refused,
    /// It holds something else.
    Unreadable,
}

/// What a reply is to hold.
#[derive(Clone, Copy, Debug, PartialEq, Eq)]
pub enum ReplyKind {
    /// A document of credentials.
    Document,
    /// A token of the instance metadata service, and how many seconds it lives.
    MetadataToken,
    /// A text of the instance metadata service, in UTF-8.
    MetadataText,
}

/// Whether it is a status of success, from 200 to 299 (RFC 9110, section 15.3).
pub fn is_success(status: u16) -> bool
    ensures { result ≡ is_success_of status }
{
    status >= 200 && status <= 299
}

fn said_reading(said: &Said) -> Reading
    ensures { result ≡ said_reading_of said.now }
{
    match said {
        Ok(
            JsonCredentials::RefreshableCredentials {
                access_key_id: _,
                secret_access_key: _,
                session_token: _,
                account_id: _,
                expiration: _,
            },
        ) => Reading::Fine,
        Ok(
            JsonCredentials::Error {
                code: _,
                message: _,
            },
        ) => Reading::Refused,
        Err(_) => Reading::Unreadable,
    }
}

// How the reply reads, and what its document says where its status lets it be read.
#[tactic(auto, unfolding(crate::specs::Readings::document_reading))]
fn read_document(alloc: Global, reply: &HttpReply) -> Result<(Reading, Option<Said>), OutOfMemory>
    ensures reading { IfOk result (λ x. x.0 ≡ document_reading_of reply.now) }
    ensures said { IfOk result (λ x. IfSome x.1 (λ said. said ≡ body_document_of reply.now.body)) }
{
    if !is_success(reply.status) {
        return Ok((Reading::Refused, None));
    }
    let said = body_document(alloc, reply.body.as_slice())?;
    let reading = said_reading(&said);
    Ok((reading, Some(said)))
}

#[tactic(auto, unfolding(crate::specs::Readings::token_reading))]
fn token_reading(reply: &HttpReply) -> Reading
    ensures { result ≡ token_reading_of reply.now }
{
    if reply.status == 400 || reply.status == 403 {
        return Reading::Refused;
    }
    let is_timed = lifetime(reply).is_some();
    if is_header_value(reply.body.as_slice()) && is_timed {
        Reading::Fine
    } else {
        Reading::Unreadable
    }
}

#[tactic(auto, unfolding(crate::specs::Readings::text_reading))]
fn text_reading(reply: &HttpReply) -> Reading
    ensures { result ≡ text_reading_of reply.now }
{
    if !is_success(reply.status) {
        return Reading::Refused;
    }
    if is_utf8(reply.body.as_slice()) {
        Reading::Fine
    } else {
        Reading::Unreadable
    }
}

impl ReplyKind {
    /// How a reply reads that is to hold this. `OutOfMemory` where memory runs out.
    ///
    /// | it is to hold | refused | unreadable |
    /// |---|---|---|
    /// | a document | no success, or an error document | a success that is not UTF-8, or no document |
    /// | a metadata token | the statuses 400 and 403 | a body that is no header value, or no lifetime of 64 bits |
    /// | a text | no success | a success that is not UTF-8 |
    ///
    /// All else is fine.
    pub fn reading(&self, alloc: Global, reply: &HttpReply) -> Result<Reading, OutOfMemory>
        ensures { IfOk result (λ r. r ≡ reading_of self.now reply.now) }
    {
        let (reading, _) = self.read(alloc, reply)?;
        Ok(reading)
    }

    // How the reply reads, and what its document says, where it is read as one.
    pub(crate) fn read(
        &self,
        alloc: Global,
        reply: &HttpReply,
    ) -> Result<(Reading, Option<Said>), OutOfMemory>
        ensures reading { IfOk result (λ x. x.0 ≡ reading_of self.now reply.now) }
        ensures said { IfOk result (λ x. IfSome x.1 (λ said. said ≡ body_document_of reply.now.body)) }
    {
        match self {
            ReplyKind::Document => read_document(alloc, reply),
            ReplyKind::MetadataToken => Ok((token_reading(reply), None)),
            ReplyKind::MetadataText => Ok((text_reading(reply), None)),
        }
    }
}
