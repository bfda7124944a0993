//! What stands at a path of the instance metadata service, with the session token that is kept.
ghost use Rattle.std.specs.Prelude.{◌≡◌, IfOk, true, None as none};
ghost use Rattle.cfg_imds.specs.Calls.{is_memory as is_memory_of};
ghost use Rattle.cfg_imds.specs.Clients.{endpoint_fault, usable_error, client_rules};
ghost use Rattle.cfg_imds.specs.Fetches.{is_get, entry_fault};
ghost use Rattle.cfg_kept.specs.Holds.{HoldsFollows};
ghost use Rattle.cfg_imds_credentials.specs.Metadata.{token_and_text as token_and_text_of, metadata_get as metadata_get_of};

use cfg_imds::Client;
use cfg_imds::steps::follow_fetch;
use cfg_kept::{Keeper, Place};
use cfg_types::OutOfMemory;
use cfg_types::imds::ImdsError;
use cfg_world::{Asking, Receipt, Stop};
use std::alloc::Global;

fn is_memory(usable: &Result<(), ImdsError>) -> bool
    ensures { result ≡ is_memory_of usable.now }
{
    matches!(usable, Err(ImdsError::OutOfMemory))
}

// Why a path is not asked for, if it is not.
fn get_fault(client: &Client, path: &str) -> Result<Option<ImdsError>, OutOfMemory>
    ensures fault { IfOk result (λ fault. fault ≡ usable_error (client_rules repeated client.now) path.now) }
    ensures endpoint { IfOk result (λ fault. fault ≡ none → endpoint_fault (client_rules repeated client.now).endpoint ≡ none) }
{
    let usable = client.usable(path);
    if is_memory(&usable) {
        return Err(OutOfMemory);
    }
    match usable {
        Ok(()) => Ok(None),
        Err(error) => Ok(Some(error)),
    }
}

// A session token, and with it what stands at the path.
#[tactic(auto, using(cfg_kept::proofs::HoldingSteps::holding_steps), unfolding(crate::specs::Metadata::token_and_text))]
fn token_and_text<P: Keeper, A: Asking>(
    alloc: Global,
    client: &Client,
    place: Place,
    path: &str,
    keeper: &mut P,
    asking: &mut A,
) -> Result<Result<Receipt, ImdsError>, Stop>
    requires { endpoint_fault (client_rules repeated client.now).endpoint ≡ none }
    ensures follows { HoldsFollows ⟦<A as Asking>⟧ (token_and_text_of (client_rules repeated client.now) place path.now)
        asking.old (P.holdings keeper.old) asking.new (P.holdings keeper.new) result }
    ensures get { IfOk result (λ r. IfOk r (λ e. is_get e.0 ≡ true)) }
    ensures fine { IfOk result (λ r. IfOk r (λ e. entry_fault e ≡ none)) }
    ensures key { P.key_held keeper.new ≡ P.key_held keeper.old }
{
    let token = match keeper.imds_token(alloc, place, client, asking)? {
        Ok(token) => token,
        Err(error) => return Ok(Err(error)),
    };
    let outcome = follow_fetch(client, path, &token, asking)?;
    Ok(outcome)
}

/// The receipt of what stands at a path. Nothing is asked where the path or the endpoint is not usable.
/// Else a session token is settled on the one that is kept for the place. The errors are those of
/// [`Client::get`].
#[tactic(auto, using(cfg_kept::proofs::HoldingSteps::holding_steps), unfolding(crate::specs::Metadata::metadata_get))]
pub fn metadata_get<P: Keeper, A: Asking>(
    alloc: Global,
    client: &Client,
    place: Place,
    path: &str,
    keeper: &mut P,
    asking: &mut A,
) -> Result<Result<Receipt, ImdsError>, Stop>
    ensures follows { HoldsFollows ⟦<A as Asking>⟧ (metadata_get_of (client_rules repeated client.now) place path.now)
        asking.old (P.holdings keeper.old) asking.new (P.holdings keeper.new) result }
    ensures get { IfOk result (λ r. IfOk r (λ e. is_get e.0 ≡ true)) }
    ensures fine { IfOk result (λ r. IfOk r (λ e. entry_fault e ≡ none)) }
    ensures key { P.key_held keeper.new ≡ P.key_held keeper.old }
{
    match get_fault(client, path)? {
        Some(error) => Ok(Err(error)),
        None => {
            let outcome = token_and_text(alloc, client, place, path, keeper, asking)?;
            Ok(outcome)
        }
    }
}
