//! The path of the machine's role.
ghost use Rattle.std.specs.Prelude.{◌≡◌, IfOk, string_bytes, None as none};
ghost use Rattle.cfg_imds.specs.Clients.{client_rules};
ghost use Rattle.cfg_imds.specs.Fetches.{entry_fault};
ghost use Rattle.cfg_imds.specs.Tokens.{in_ok};
ghost use Rattle.cfg_kept.specs.Holds.{HoldsFollows};
ghost use Rattle.cfg_imds_credentials.specs.Metadata.{get_error as get_error_of, role_path as role_path_of, absence as absence_of, listing_error as listing_error_of, listed, listing, path_of_role as path_of_role_of};

use crate::get::metadata_get;
use cfg_imds::Client;
use cfg_imds::steps::entry_text;
use cfg_kept::{Keeper, Place};
use cfg_types::imds::ImdsError;
use cfg_types::{CredentialsError, NotLoadedCause, OutOfMemory, ProviderCause, Text};
use cfg_world::{Asking, Receipt, Stop};
use std::alloc::Global;

/// An error of a get, as the provider tells it.
pub fn get_error(error: ImdsError) -> CredentialsError
    ensures { result ≡ get_error_of error }
{
    CredentialsError::ProviderError(ProviderCause::Metadata(error))
}

// Why the listing names no role, where there is none.
fn absence(error: &ImdsError) -> Option<NotLoadedCause>
    ensures { result ≡ absence_of error.now }
{
    match error {
        ImdsError::ErrorResponse(error) if error.response().status == 404 => {
            Some(NotLoadedCause::MetadataNoRole)
        }
        ImdsError::FailedToLoadToken(error) if error.is_dispatch_failure() => {
            Some(NotLoadedCause::MetadataUnreachable)
        }
        _ => None,
    }
}

// An error of the listing, as the provider tells it.
fn listing_error(error: ImdsError) -> CredentialsError
    ensures { result ≡ listing_error_of error }
{
    match absence(&error) {
        Some(cause) => CredentialsError::CredentialsNotLoaded(cause),
        None => get_error(error),
    }
}

// The listing's path, followed by the role's name as it stands.
fn role_path(alloc: Global, role: &Text) -> Result<String, OutOfMemory>
    ensures { IfOk result (λ path. string_bytes path ≡ role_path_of role.now) }
{
    let mut path = String::from_str(alloc, "/latest/meta-data/iam/security-credentials/")?;
    path.push_str(role.as_str())?;
    Ok(path)
}

// The path of the role that a listing names.
#[tactic(auto, unfolding(crate::specs::Metadata::listed))]
fn read_listing(
    alloc: Global,
    got: Result<Receipt, ImdsError>,
) -> Result<Result<String, CredentialsError>, OutOfMemory>
    requires { IfOk got (λ e. entry_fault e ≡ none) }
    ensures { IfOk result (λ r. listed got ≡ in_ok string_bytes r) }
{
    match got {
        Ok(receipt) => {
            let role = entry_text(alloc, &receipt)?;
            let path = role_path(alloc, &role)?;
            Ok(Ok(path))
        }
        Err(error) => Ok(Err(listing_error(error))),
    }
}

#[tactic(auto, using(cfg_kept::proofs::HoldingSteps::holding_steps), unfolding(crate::specs::Metadata::listing))]
fn list_role<P: Keeper, A: Asking>(
    alloc: Global,
    client: &Client,
    place: Place,
    keeper: &mut P,
    asking: &mut A,
) -> Result<Result<String, CredentialsError>, Stop>
    ensures follows { HoldsFollows ⟦<A as Asking>⟧ (listing (client_rules repeated client.now) place)
        asking.old (P.holdings keeper.old) asking.new (P.holdings keeper.new) (in_ok (in_ok string_bytes) result) }
    ensures key { P.key_held keeper.new ≡ P.key_held keeper.old }
{
    let path = "/latest/meta-data/iam/security-credentials/";
    let got = metadata_get(alloc, client, place, path, keeper, asking)?;
    match read_listing(alloc, got) {
        Ok(outcome) => Ok(outcome),
        Err(_) => Err(Stop::OutOfMemory),
    }
}

/// The path of the role that is set, and else of the one that the service lists. An error of the listing
/// is `CredentialsNotLoaded` where it answers 404 (`MetadataNoRole`) or where its token request could not
/// be sent (`MetadataUnreachable`), and else `ProviderError(Metadata)`.
#[tactic(auto, using(cfg_kept::proofs::HoldingSteps::holding_steps), unfolding(crate::specs::Metadata::path_of_role))]
pub fn path_of_role<P: Keeper, A: Asking>(
    alloc: Global,
    client: &Client,
    place: Place,
    role: &Option<Text>,
    keeper: &mut P,
    asking: &mut A,
) -> Result<Result<String, CredentialsError>, Stop>
    ensures follows { HoldsFollows ⟦<A as Asking>⟧ (path_of_role_of (client_rules repeated client.now) place role.now)
        asking.old (P.holdings keeper.old) asking.new (P.holdings keeper.new) (in_ok (in_ok string_bytes) result) }
    ensures key { P.key_held keeper.new ≡ P.key_held keeper.old }
{
    match role {
        Some(role) => {
            let path = role_path(alloc, role)?;
            Ok(Ok(path))
        }
        None => list_role(alloc, client, place, keeper, asking),
    }
}
