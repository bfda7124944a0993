//! What is kept for one place of a metadata client, and the holdings of it.
ghost use Rattle.std.specs.Prelude.{◌≡◌, ◌++◌, ◌∷◌, [], IfOk, OnOk, OnErr, map, option_map};
ghost use Rattle.cfg_imds.specs.Clients.{client_rules};
ghost use Rattle.cfg_kept.specs.FoundValues.{bare};
ghost use Rattle.cfg_kept.specs.Holds.{HoldsOne};
ghost use Rattle.cfg_kept.specs.Kinds.{RetrievedAt};
ghost use Rattle.cfg_kept.specs.MetadataHoldings.{token_at, token_holding};
ghost use Rattle.cfg_kept.specs.Retrieved.{keys_of_retrieved};

use crate::found::{Found, note_found};
use crate::place::Place;
use crate::retrieved::Retrieved;
use crate::shared_kept::SharedPlace;
use cfg_exchange::ClassifyRetry;
use cfg_imds::steps::follow_settle;
use cfg_imds::{Client, MetadataToken};
use cfg_types::imds::ImdsError;
use cfg_types::{Bytes, OutOfMemory, TryCopy, copy_option};
use cfg_world::{Asking, Stop};
use std::alloc::Global;

/// What is kept for one place: the session token, and the credentials that were retrieved, if any.
pub struct PlaceState {
    pub(crate) token: Option<MetadataToken>,
    pub(crate) retrieved: Option<Retrieved>,
}

impl Drop for PlaceState {
    fn drop(self) {
        let PlaceState {
            token: _,
            retrieved: _,
        } = self;
    }
}

impl PlaceState {
    ghost use Rattle.cfg_kept.specs.KeptStates.{bare_place};
    ghost use Rattle.cfg_kept.specs.Kinds.{no_place_states};

    /// Nothing is kept.
    pub fn new() -> PlaceState
        ensures { bare_place result ≡ no_place_states }
    {
        PlaceState {
            token: None,
            retrieved: None,
        }
    }

    // The same values, each behind a lock.
    pub(crate) fn into_shared(self) -> SharedPlace {
        let PlaceState { token, retrieved } = self;
        SharedPlace::new(token, retrieved)
    }
}

impl TryCopy for PlaceState {
    fn copy(&self, alloc: Global) -> Result<PlaceState, OutOfMemory> {
        let token = copy_option(alloc, &self.token)?;
        let retrieved = copy_option(alloc, &self.retrieved)?;
        Ok(PlaceState { token, retrieved })
    }
}

/// One holding of the session token of a place, wherever it is kept. What was found is added to the
/// list, before anything is asked. After a refusal, which is `FailedToLoadToken`, no token is kept, and
/// after a stop, which is the outer error, the token is as it was.
pub fn hold_token<A: Asking>(
    alloc: Global,
    found: &mut Vec<Found>,
    place: Place,
    token: &mut Option<MetadataToken>,
    client: &Client,
    asking: &mut A,
) -> Result<Result<Bytes, ImdsError>, Stop>
    ensures { HoldsOne ⟦<A as Asking>⟧ (token_holding (client_rules repeated client.now) place) asking.old asking.new
        (map bare found.old.items) (map bare found.new.items) (token_at place token.old) (token_at place token.new) result }
{
    note_token(alloc, found, place, token)?;
    let outcome = follow_settle(client, token, asking)?;
    Ok(outcome)
}

// The token that is found, added to the list.
fn note_token(
    alloc: Global,
    found: &mut Vec<Found>,
    place: Place,
    token: &Option<MetadataToken>,
) -> Result<(), OutOfMemory>
    ensures ok { OnOk result (map bare found.new.items ≡ map bare found.old.items ++ token_at place token.now ∷ []) }
    ensures err { OnErr result (found.new.items ≡ found.old.items) }
{
    let token = copy_option(alloc, token)?;
    note_found(found, Found::ImdsToken { place, token })
}

/// The credentials that were retrieved for a place, wherever they are kept: a copy. What was found is
/// added to the list. `OutOfMemory` where memory runs out, and the list stays as it was.
pub fn find_retrieved(
    alloc: Global,
    found: &mut Vec<Found>,
    place: Place,
    retrieved: &Option<Retrieved>,
) -> Result<Option<Retrieved>, OutOfMemory>
    ensures is { IfOk result (λ r. r ≡ retrieved.now) }
    ensures ok { OnOk result (map bare found.new.items ≡ map bare found.old.items ++ RetrievedAt place (option_map keys_of_retrieved retrieved.now) ∷ []) }
    ensures err { OnErr result (found.new.items ≡ found.old.items) }
{
    let copy = copy_option(alloc, retrieved)?;
    let retrieved = copy_option(alloc, retrieved)?;
    note_found(found, Found::Retrieved { place, retrieved })?;
    Ok(copy)
}
