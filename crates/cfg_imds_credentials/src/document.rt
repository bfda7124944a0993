//! The document of a role's credentials, and until when they are good.
ghost use Rattle.std.specs.Prelude.{◌≡◌, IfOk, IfSome, is_some, true, None as none};
ghost use Rattle.cfg_world.specs.declared.ask.Question.TheVariants.{Now, Jitter};
ghost use Rattle.cfg_world.specs.Follows.{Follows};
ghost use Rattle.cfg_world.specs.Leaves.{moment_of};
ghost use Rattle.cfg_exchange.specs.Attempts.{asked};
ghost use Rattle.cfg_imds.specs.Clients.{client_rules};
ghost use Rattle.cfg_imds.specs.Fetches.{is_get, entry_fault};
ghost use Rattle.cfg_imds.specs.Tokens.{in_ok};
ghost use Rattle.cfg_kept.specs.Holds.{HoldsFollows};
ghost use Rattle.cfg_kept.specs.Retrieved.{is_due, keys_of_retrieved};
ghost use Rattle.cfg_kept.specs.RoleDocuments.{bare_role};
ghost use Rattle.cfg_imds_credentials.specs.Metadata.{documented, document as document_of, dated_keys, jittered, extended, dated};

use crate::get::metadata_get;
use crate::listing::get_error;
use cfg_imds::Client;
use cfg_kept::{Keeper, Place, Retrieved, RoleDocument};
use cfg_types::imds::ImdsError;
use cfg_types::{CredentialsError, OutOfMemory};
use cfg_world::{Asking, Question, Receipt, Stop};
use std::alloc::Global;

// The document that was got, or why there are no keys.
#[tactic(auto, unfolding(crate::specs::Metadata::documented))]
fn read_document(
    alloc: Global,
    got: Result<Receipt, ImdsError>,
) -> Result<Result<RoleDocument, CredentialsError>, OutOfMemory>
    requires gets { IfOk got (λ e. is_get e.0 ≡ true) }
    requires success { IfOk got (λ e. entry_fault e ≡ none) }
    ensures { IfOk result (λ r. documented got ≡ in_ok bare_role r) }
{
    match got {
        Ok(receipt) => RoleDocument::read(alloc, receipt),
        Err(error) => Ok(Err(get_error(error))),
    }
}

/// The document at this path, or why there are no keys. An error of the get is `ProviderError(Metadata)`,
/// and those of the text are those of [`RoleDocument::read`].
#[tactic(auto, using(cfg_kept::proofs::HoldingSteps::holding_steps), unfolding(crate::specs::Metadata::document))]
pub fn get_document<P: Keeper, A: Asking>(
    alloc: Global,
    client: &Client,
    place: Place,
    path: &str,
    keeper: &mut P,
    asking: &mut A,
) -> Result<Result<RoleDocument, CredentialsError>, Stop>
    ensures follows { HoldsFollows ⟦<A as Asking>⟧ (document_of (client_rules repeated client.now) place path.now)
        asking.old (P.holdings keeper.old) asking.new (P.holdings keeper.new) (in_ok (in_ok bare_role) result) }
    ensures key { P.key_held keeper.new ≡ P.key_held keeper.old }
{
    let got = metadata_get(alloc, client, place, path, keeper, asking)?;
    let outcome = read_document(alloc, got)?;
    Ok(outcome)
}

// A reading of the clock, with its receipt.
#[tactic(auto, unfolding(cfg_exchange::specs::Attempts::asked))]
fn read_clock<A: Asking>(asking: &mut A) -> Result<Receipt, Stop>
    ensures follows { Follows ⟦<A as Asking>⟧ (asked Now) asking.old asking.new result }
    ensures asks { IfOk result (λ e. e.0 ≡ Now) }
{
    asking.put(Question::Now)
}

// A jitter, with its receipt.
#[tactic(auto, unfolding(cfg_exchange::specs::Attempts::asked))]
fn read_jitter<A: Asking>(asking: &mut A) -> Result<Receipt, Stop>
    ensures follows { Follows ⟦<A as Asking>⟧ (asked Jitter) asking.old asking.new result }
    ensures asks { IfOk result (λ e. e.0 ≡ Jitter) }
{
    asking.put(Question::Jitter)
}

// The credentials of a document, of a reading and of a jitter.
#[tactic(auto, unfolding(crate::specs::Metadata::dated_keys))]
fn read_dated(
    alloc: Global,
    document: RoleDocument,
    reading: Receipt,
    jitter: Option<Receipt>,
) -> Result<Result<Retrieved, CredentialsError>, OutOfMemory>
    requires reads { reading.0 ≡ Now }
    requires asks { IfSome jitter (λ e. e.0 ≡ Jitter) }
    requires due { is_some jitter ≡ is_due document.expiry (moment_of reading.1) }
    ensures { IfOk result (λ r. dated_keys (bare_role document) reading jitter ≡ in_ok keys_of_retrieved r) }
{
    let retrieved = Retrieved::read(alloc, document, reading, jitter)?;
    Ok(Ok(retrieved))
}

// A jitter, and what comes of it.
#[tactic(auto, using(cfg_imds::proofs::SaidSteps::said_steps), unfolding(crate::specs::Metadata::jittered))]
fn extend<A: Asking>(
    alloc: Global,
    document: RoleDocument,
    reading: Receipt,
    asking: &mut A,
) -> Result<Result<Retrieved, CredentialsError>, Stop>
    requires reads { reading.0 ≡ Now }
    requires due { is_due document.expiry (moment_of reading.1) ≡ true }
    ensures { Follows ⟦<A as Asking>⟧ (jittered (bare_role document) reading) asking.old asking.new (in_ok (in_ok keys_of_retrieved) result) }
{
    let jitter = read_jitter(asking)?;
    let outcome = read_dated(alloc, document, reading, Some(jitter))?;
    Ok(outcome)
}

// A jitter, where the document's expiry is not after the reading.
#[tactic(auto, using(cfg_imds::proofs::SaidSteps::said_steps), unfolding(crate::specs::Metadata::extended))]
fn extend_if_due<A: Asking>(
    alloc: Global,
    document: RoleDocument,
    reading: Receipt,
    asking: &mut A,
) -> Result<Result<Retrieved, CredentialsError>, Stop>
    requires reads { reading.0 ≡ Now }
    ensures { Follows ⟦<A as Asking>⟧ (extended (bare_role document) reading) asking.old asking.new (in_ok (in_ok keys_of_retrieved) result) }
{
    if document.is_due(&reading) {
        let outcome = extend(alloc, document, reading, asking)?;
        Ok(outcome)
    } else {
        let outcome = read_dated(alloc, document, reading, None)?;
        Ok(outcome)
    }
}

/// A reading of the clock, and the credentials of the document then. Where they have ended by then a
/// jitter is asked, in seconds.
#[tactic(auto, using(cfg_imds::proofs::SaidSteps::said_steps), unfolding(crate::specs::Metadata::dated))]
pub fn date<A: Asking>(
    alloc: Global,
    document: RoleDocument,
    asking: &mut A,
) -> Result<Result<Retrieved, CredentialsError>, Stop>
    ensures { Follows ⟦<A as Asking>⟧ (dated (bare_role document)) asking.old asking.new (in_ok (in_ok keys_of_retrieved) result) }
{
    let reading = read_clock(asking)?;
    let outcome = extend_if_due(alloc, document, reading, asking)?;
    Ok(outcome)
}
