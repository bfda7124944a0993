//! Session tokens of the instance metadata service, with the receipts that they were read from.
ghost use Rattle.std.specs.Prelude.{◌≡◌, ok_or, option_and_then, IfOk, true};
ghost use Rattle.cfg_types.specs.declared.errors.imds.TokenError.TheVariants.{InvalidTtl};
ghost use Rattle.cfg_world.specs.declared.ask.Question.TheVariants.{Now};
ghost use Rattle.cfg_exchange.specs.Lifetimes.{number as number_of};
ghost use Rattle.cfg_imds.specs.Tokens.{bare_token, in_ok, is_token_request, later, reply_expiry as reply_expiry_of, reply_token as reply_token_of, sent_token, read_token, IsRead};

use cfg_exchange::is_header_value;
use cfg_exchange::steps::number;
use cfg_types::imds::{FailedToLoadToken, TokenError};
use cfg_types::{Bytes, FailKind, HttpReply, Instant, OutOfMemory, Reply, TryCopy};
use cfg_world::{Answer, Receipt};
use std::alloc::Global;
use std::fmt;
use std::marker::Model;

/// A session token of the instance metadata service. Its value and its expiry are those that the rule
/// reads from the reply to a request for one, and from the reading of the clock after it.
pub struct MetadataToken {
    value: Bytes,
    expiry: Instant,
    reply: Receipt,
    reading: Receipt,
}

impl Model for MetadataToken {
    ghost use Rattle.cfg_imds.specs.Tokens.{ReceiptedToken, IsRead};

    ghost Value = { ReceiptedToken };

    ghost view = { λ t. record { value = t.value; expiry = t.expiry; reply = t.reply; reading = t.reading } };

    ghost invariant = { λ t. IsRead (record { value = t.value; expiry = t.expiry; reply = t.reply; reading = t.reading }) };
}

impl Drop for MetadataToken {
    fn drop(self) {
        let MetadataToken {
            value: _,
            expiry: _,
            reply: _,
            reading: _,
        } = self;
    }
}

// A token without its receipts.
#[derive(Drop)]
struct ReadToken {
    value: Bytes,
    expiry: Instant,
}

impl Model for ReadToken {
    ghost use Rattle.cfg_imds.specs.Tokens.{Token};

    ghost Value = { Token };

    ghost view = { λ t. record { value = t.value; expiry = t.expiry } };
}

impl MetadataToken {
    /// The token of the reply to a request for one, and of the reading of the clock after it, or why there
    /// is none.
    ///
    /// # Errors
    ///
    /// - `Sent`: the request was not answered.
    /// - `Token(InvalidParameters)`, `Token(Forbidden)`: the reply has the status 400 or 403. No other
    ///   status is looked at.
    /// - `Token(InvalidToken)`: its body is no header value.
    /// - `Token(NoTtl)`: it has no header `x-aws-ec2-metadata-token-ttl-seconds`.
    /// - `Token(InvalidTtl)`: the header is no number of seconds of 64 bits, or the token would end past
    ///   the last moment of all.
    /// - `OutOfMemory` where memory runs out.
    pub fn read(
        alloc: Global,
        reply: Receipt,
        reading: Receipt,
    ) -> Result<Result<MetadataToken, FailedToLoadToken>, OutOfMemory>
        requires sends { is_token_request reply.0 ≡ true }
        requires reads { reading.0 ≡ Now }
        ensures { IfOk result (λ r. in_ok bare_token r ≡ read_token reply reading) }
    {
        match read_receipts(alloc, &reply, &reading)? {
            Ok(ReadToken { value, expiry }) => Ok(Ok(MetadataToken {
                value,
                expiry,
                reply,
                reading,
            })),
            Err(error) => Ok(Err(error)),
        }
    }

    /// What is sent with each request for a path.
    pub fn value(&self) -> &Bytes
        ensures value { result.now ≡ self.now.value }
        ensures read { IsRead self.now }
    {
        &self.value
    }

    /// When it ends: the seconds that its reply tells after the reading of the clock.
    pub fn expiry(&self) -> Instant
        ensures { result ≡ self.now.expiry }
    {
        self.expiry
    }

    /// The reply that it is the body of.
    pub fn reply(&self) -> &Receipt
        ensures { result.now ≡ self.now.reply }
    {
        &self.reply
    }

    /// The reading of the clock after the reply. The token's lifetime begins with it.
    pub fn reading(&self) -> &Receipt
        ensures { result.now ≡ self.now.reading }
    {
        &self.reading
    }
}

impl TryCopy for MetadataToken {
    fn copy(&self, alloc: Global) -> Result<MetadataToken, OutOfMemory> {
        let value = self.value.copy(alloc)?;
        let reply = self.reply.copy(alloc)?;
        let reading = self.reading.copy(alloc)?;
        Ok(MetadataToken {
            value,
            expiry: self.expiry,
            reply,
            reading,
        })
    }
}

// The text tells when the token ends, and no more.
impl fmt::Debug for MetadataToken {
    ghost use Rattle.std.specs.Prelude.{Some};
    ghost use Rattle.cfg_imds.specs.Shown.{shown_metadata_token};

    ghost debug_output = { λ t. Some (shown_metadata_token t.expiry) };

    fn fmt<W: fmt::Write>(&self, f: &mut fmt::Formatter<W>) -> fmt::Result {
        let seconds = self.expiry.seconds();
        let nanos = self.expiry.nanos();
        write!(
            f,
            "MetadataToken {{ value: \"** redacted **\", expiry: {seconds} s {nanos} ns }}"
        )
    }
}

fn expiry_after(now: Instant, text: &str) -> Result<Instant, TokenError>
    ensures { result ≡ ok_or (option_and_then (later now) (number_of text.now)) InvalidTtl }
{
    let Some(seconds) = number(text) else {
        return Err(TokenError::InvalidTtl);
    };
    match now.checked_plus(seconds) {
        Some(expiry) => Ok(expiry),
        None => Err(TokenError::InvalidTtl),
    }
}

// When the token of a reply ends.
fn reply_expiry(reply: &HttpReply, now: Instant) -> Result<Instant, TokenError>
    ensures { result ≡ reply_expiry_of reply.now now }
{
    match reply.header("x-aws-ec2-metadata-token-ttl-seconds") {
        None => Err(TokenError::NoTtl),
        Some(text) => expiry_after(now, text),
    }
}

#[tactic(auto, unfolding(crate::specs::Tokens::reply_token))]
fn reply_token(
    alloc: Global,
    reply: &HttpReply,
    now: Instant,
) -> Result<Result<ReadToken, TokenError>, OutOfMemory>
    ensures { IfOk result (λ token. token ≡ reply_token_of reply.now now) }
{
    if reply.status == 400 {
        return Ok(Err(TokenError::InvalidParameters));
    }
    if reply.status == 403 {
        return Ok(Err(TokenError::Forbidden));
    }
    if !is_header_value(reply.body.as_slice()) {
        return Ok(Err(TokenError::InvalidToken));
    }
    match reply_expiry(reply, now) {
        Ok(expiry) => {
            let value = reply.body.copy(alloc)?;
            Ok(Ok(ReadToken { value, expiry }))
        }
        Err(error) => Ok(Err(error)),
    }
}

fn replied_token(
    alloc: Global,
    reply: &HttpReply,
    now: Instant,
) -> Result<Result<ReadToken, FailedToLoadToken>, OutOfMemory>
    ensures { IfOk result (λ token. token ≡ sent_token (Ok reply.now) now) }
{
    match reply_token(alloc, reply, now)? {
        Ok(token) => Ok(Ok(token)),
        Err(error) => Ok(Err(FailedToLoadToken::Token(error))),
    }
}

// An answer of another kind never comes.
#[tactic(auto, unfolding(crate::specs::Tokens::read_token))]
fn read_receipts(
    alloc: Global,
    reply: &Receipt,
    reading: &Receipt,
) -> Result<Result<ReadToken, FailedToLoadToken>, OutOfMemory>
    ensures { IfOk result (λ token. token ≡ read_token reply.now reading.now) }
{
    let now = reading.moment();
    let kind = match reply.entry().answer() {
        Answer::Replied(Reply::Http(reply)) => return replied_token(alloc, reply, now),
        Answer::Failed(kind) => *kind,
        _ => FailKind::Io,
    };
    Ok(Err(FailedToLoadToken::Sent(kind)))
}
