//! Credentials that were retrieved from the instance metadata service, with their receipts.
ghost use Rattle.std.specs.Prelude.{◌≡◌, ◌∷◌, IfOk, IfSome, is_some};
ghost use Rattle.std.specs.Option.{option_to_list};
ghost use Rattle.cfg_world.specs.declared.ask.Question.TheVariants.{Now, Jitter};
ghost use Rattle.cfg_world.specs.Leaves.{moment_of, jitter_of};
ghost use Rattle.cfg_kept.specs.RoleDocuments.{bare_role};
ghost use Rattle.cfg_kept.specs.Retrieved.{is_due, later_or_last as later_or_last_of, cut_jitter as cut_jitter_of, extended as extended_of, expiry_by as expiry_by_of, keys_at, keys_until, IsRetrieved};

use crate::role_document::RoleDocument;
use cfg_types::{Credentials, CredentialsBuilder, Instant, OutOfMemory, Seq, Text, TryCopy};
use cfg_world::{Answer, Receipt};
use std::alloc::Global;
use std::marker::Model;

/// For how many seconds more the credentials of an expired document serve: ten minutes, as in aws-config.
pub const CREDENTIAL_EXPIRATION_INTERVAL: u64 = 600;

/// How many seconds the jitter adds at most, as in aws-config.
pub const MAX_JITTER: u64 = 300;

/// Credentials of a role, as they were retrieved from the instance metadata service. They have the
/// provider's name `IMDSv2`, no account and no features.
pub struct Retrieved {
    credentials: Credentials,
    receipts: Seq<Receipt>,
}

impl Model for Retrieved {
    ghost use Rattle.cfg_kept.specs.Retrieved.{ReceiptedKeys, IsRetrieved};

    ghost Value = { ReceiptedKeys };

    ghost view = { λ r. record { keys = r.credentials; receipts = r.receipts } };

    ghost invariant = { λ r. IsRetrieved (record { keys = r.credentials; receipts = r.receipts }) };
}

impl Drop for Retrieved {
    fn drop(self) {
        let Retrieved {
            credentials: _,
            receipts: _,
        } = self;
    }
}

impl Retrieved {
    /// The credentials of a document at a reading of the clock. They end when the document says so,
    /// where that is after the reading. Else a jitter was asked for, and as aws-config does they end
    /// 600 seconds and the jitter after the reading; of a jitter at most 300 seconds count. Where that
    /// is past the last moment of all, they end at the last moment. `OutOfMemory` where memory runs
    /// out.
    pub fn read(
        alloc: Global,
        document: RoleDocument,
        reading: Receipt,
        jitter: Option<Receipt>,
    ) -> Result<Retrieved, OutOfMemory>
        requires reads { reading.0 ≡ Now }
        requires asks { IfSome jitter (λ e. e.0 ≡ Jitter) }
        requires due { is_some jitter ≡ is_due document.expiry (moment_of reading.1) }
        ensures keys { IfOk result (λ r. r.keys ≡ keys_at reading jitter (bare_role document)) }
        ensures receipts { IfOk result (λ r. r.receipts ≡ document.get ∷ reading ∷ option_to_list jitter) }
    {
        let end = expiry_by(document.expiry, reading.moment(), &jitter);
        let credentials = credentials_until(alloc, &document, end)?;
        let receipts = receipts_of(alloc, &document, reading, jitter)?;
        Ok(Retrieved {
            credentials,
            receipts,
        })
    }

    /// The credentials.
    pub fn credentials(&self) -> &Credentials
        ensures is { result.now ≡ self.now.keys }
        ensures retrieved { IsRetrieved self.now }
    {
        &self.credentials
    }

    /// The receipt of the document's get, that of the reading of the clock, and that of the jitter,
    /// where one was asked for.
    pub fn receipts(&self) -> &[Receipt]
        ensures { result.now ≡ self.now.receipts }
    {
        self.receipts.as_slice()
    }
}

impl TryCopy for Retrieved {
    fn copy(&self, alloc: Global) -> Result<Retrieved, OutOfMemory> {
        let credentials = self.credentials.copy(alloc)?;
        let receipts = self.receipts.copy(alloc)?;
        Ok(Retrieved {
            credentials,
            receipts,
        })
    }
}

// So many seconds later, or the last moment of all.
fn later_or_last(moment: Instant, seconds: u64) -> Instant
    ensures { result ≡ later_or_last_of moment seconds }
{
    let (seconds, nanos) = match moment.seconds().checked_add_unsigned(seconds) {
        Some(seconds) => (seconds, moment.nanos()),
        None => (i64::MAX, 999_999_999),
    };
    match Instant::new(seconds, nanos) {
        Some(later) => later,
        None => unreachable!(),
    }
}

fn cut_jitter(jitter: u64) -> u64
    ensures { result ≡ cut_jitter_of jitter }
{
    if jitter > MAX_JITTER {
        MAX_JITTER
    } else {
        jitter
    }
}

// Expired credentials still serve where the service gives none that are newer. What is added is at most 15
// minutes, the shortest time for which credentials are given.
fn extended(now: Instant, jitter: u64) -> Instant
    ensures { result ≡ extended_of now jitter }
{
    later_or_last(now, CREDENTIAL_EXPIRATION_INTERVAL + cut_jitter(jitter))
}

// The number that a receipt of a jitter tells. An answer of another kind never comes.
fn number(jitter: &Receipt) -> u64
    ensures { result ≡ jitter_of jitter.now.1 }
{
    match jitter.entry().answer() {
        Answer::Jitter(number) => *number,
        _ => 0,
    }
}

// When credentials end: with their document, where no jitter was asked for.
fn expiry_by(expiry: Instant, now: Instant, jitter: &Option<Receipt>) -> Instant
    ensures { result ≡ expiry_by_of expiry now jitter.now }
{
    match jitter {
        None => expiry,
        Some(jitter) => extended(now, number(jitter)),
    }
}

// The credentials of a document, until then.
fn credentials_until(
    alloc: Global,
    document: &RoleDocument,
    end: Instant,
) -> Result<Credentials, OutOfMemory>
    ensures { IfOk result (λ c. c ≡ keys_until (bare_role document.now) end) }
{
    let id = document.access_key_id.as_str();
    let secret = document.secret_access_key.as_str();
    let token = document.session_token.copy(alloc)?;
    let mut builder = CredentialsBuilder::new(alloc, id, secret, "IMDSv2")?;
    builder.set_session_token(Some(token)).set_expiry(Some(end));
    builder.build()
}

// The receipts in order.
fn receipts_of(
    alloc: Global,
    document: &RoleDocument,
    reading: Receipt,
    jitter: Option<Receipt>,
) -> Result<Seq<Receipt>, OutOfMemory>
    ensures { IfOk result (λ r. r ≡ document.now.get ∷ reading ∷ option_to_list jitter) }
{
    let mut receipts = Vec::with_capacity(alloc, 3)?;
    receipts.push(document.get.copy(alloc)?)?;
    receipts.push(reading)?;
    if let Some(jitter) = jitter {
        receipts.push(jitter)?;
    }
    Ok(Seq::of(receipts))
}
