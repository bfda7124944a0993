//! The body of a provider of metadata credentials, over anything that can be asked.
ghost use Rattle.std.specs.Prelude.{◌≡◌, IfOk, Some, Ok, Err, option_map};
ghost use Rattle.cfg_imds.specs.Clients.{client_rules};
ghost use Rattle.cfg_imds.specs.Tokens.{in_ok};
ghost use Rattle.cfg_kept.specs.Holds.{HoldsFollows};
ghost use Rattle.cfg_kept.specs.Retrieved.{keys_of_retrieved};
ghost use Rattle.cfg_imds_credentials.specs.Settings.{setting};
ghost use Rattle.cfg_imds_credentials.specs.Metadata.{retrieves_at, retrieves, unless_disabled, just_read as just_read_of, or_found as or_found_of, settled, metadata};

use crate::document::{date, get_document};
use crate::listing::path_of_role;
use cfg_imds::Client;
use cfg_kept::{Keeper, Place, Retrieved};
use cfg_types::{
    AwsCredentialFeature, Credentials, CredentialsError, NotLoadedCause, OutOfMemory, Text, TryCopy,
};
use cfg_world::{Asking, Stop};
use std::alloc::Global;

// The role's document at this path, and until when its keys are good.
#[tactic(auto, using(cfg_kept::proofs::HoldingSteps::holding_steps), unfolding(crate::specs::Metadata::retrieves_at))]
fn retrieve_at<P: Keeper, A: Asking>(
    alloc: Global,
    client: &Client,
    place: Place,
    path: &str,
    keeper: &mut P,
    asking: &mut A,
) -> Result<Result<Retrieved, CredentialsError>, Stop>
    ensures follows { HoldsFollows ⟦<A as Asking>⟧ (retrieves_at (client_rules repeated client.now) place path.now)
        asking.old (P.holdings keeper.old) asking.new (P.holdings keeper.new) (in_ok (in_ok keys_of_retrieved) result) }
    ensures key { P.key_held keeper.new ≡ P.key_held keeper.old }
{
    let document = match get_document(alloc, client, place, path, keeper, asking)? {
        Ok(document) => document,
        Err(error) => return Ok(Err(error)),
    };
    let outcome = date(alloc, document, asking)?;
    Ok(outcome)
}

// The credentials of the role, with their receipts.
#[tactic(auto, using(cfg_kept::proofs::HoldingSteps::holding_steps), unfolding(crate::specs::Metadata::retrieves))]
fn retrieve<P: Keeper, A: Asking>(
    alloc: Global,
    client: &Client,
    role: &Option<Text>,
    place: Place,
    keeper: &mut P,
    asking: &mut A,
) -> Result<Result<Retrieved, CredentialsError>, Stop>
    ensures follows { HoldsFollows ⟦<A as Asking>⟧ (retrieves (client_rules repeated client.now) place role.now)
        asking.old (P.holdings keeper.old) asking.new (P.holdings keeper.new) (in_ok (in_ok keys_of_retrieved) result) }
    ensures key { P.key_held keeper.new ≡ P.key_held keeper.old }
{
    let path = match path_of_role(alloc, client, place, role, keeper, asking)? {
        Ok(path) => path,
        Err(error) => return Ok(Err(error)),
    };
    let outcome = retrieve_at(alloc, client, place, path.as_str(), keeper, asking)?;
    Ok(outcome)
}

// Nothing is asked where metadata is switched off.
#[tactic(auto, using(cfg_kept::proofs::HoldingSteps::holding_steps), unfolding(crate::specs::Metadata::unless_disabled))]
fn retrieve_unless_disabled<P: Keeper, A: Asking>(
    alloc: Global,
    disabled: bool,
    client: &Client,
    role: &Option<Text>,
    place: Place,
    keeper: &mut P,
    asking: &mut A,
) -> Result<Result<Retrieved, CredentialsError>, Stop>
    ensures follows { HoldsFollows ⟦<A as Asking>⟧ (unless_disabled (setting disabled (client_rules repeated client.now) role.now place))
        asking.old (P.holdings keeper.old) asking.new (P.holdings keeper.new) (in_ok (in_ok keys_of_retrieved) result) }
    ensures key { P.key_held keeper.new ≡ P.key_held keeper.old }
{
    if disabled {
        let cause = NotLoadedCause::MetadataDisabled;
        return Ok(Err(CredentialsError::CredentialsNotLoaded(cause)));
    }
    let outcome = retrieve(alloc, client, role, place, keeper, asking)?;
    Ok(outcome)
}

// A copy of retrieved credentials, marked as just read. Those that are kept are not marked, as in aws-config:
// so a later refusal answers them without the feature.
fn just_read(alloc: Global, retrieved: &Retrieved) -> Result<Credentials, OutOfMemory>
    ensures { IfOk result (λ c. c ≡ just_read_of (keys_of_retrieved retrieved.now)) }
{
    let mut credentials = retrieved.credentials().copy(alloc)?;
    credentials.add_feature(AwsCredentialFeature::CredentialsImds)?;
    Ok(credentials)
}

// What was retrieved takes the place of what is kept, and is answered.
#[tactic(auto, using(cfg_kept::proofs::HoldingSteps::holding_steps))]
fn keep_retrieved<P: Keeper, A: Asking>(
    alloc: Global,
    place: Place,
    retrieved: Retrieved,
    keeper: &mut P,
    _asking: &mut A,
) -> Result<Result<Credentials, CredentialsError>, Stop>
    ensures follows { HoldsFollows ⟦<A as Asking>⟧ (settled place (Ok (keys_of_retrieved retrieved)))
        _asking.old (P.holdings keeper.old) _asking.new (P.holdings keeper.new) result }
    ensures key { P.key_held keeper.new ≡ P.key_held keeper.old }
{
    let credentials = just_read(alloc, &retrieved)?;
    keeper.set_retrieved(place, retrieved);
    Ok(Ok(credentials))
}

// The credentials that are kept, where some are; else the error.
#[tactic(auto, unfolding(crate::specs::Metadata::or_found))]
fn or_found(
    alloc: Global,
    error: CredentialsError,
    kept: &Option<Retrieved>,
) -> Result<Result<Credentials, CredentialsError>, OutOfMemory>
    ensures { IfOk result (λ r. or_found_of error (option_map keys_of_retrieved kept.now) ≡ r) }
{
    match kept {
        Some(retrieved) => {
            let credentials = retrieved.credentials().copy(alloc)?;
            Ok(Ok(credentials))
        }
        None => Ok(Err(error)),
    }
}

// After a refusal what is kept is answered.
#[tactic(auto, using(cfg_kept::proofs::HoldingSteps::holding_steps))]
fn answer_refusal<P: Keeper, A: Asking>(
    alloc: Global,
    place: Place,
    error: CredentialsError,
    keeper: &mut P,
    _asking: &mut A,
) -> Result<Result<Credentials, CredentialsError>, Stop>
    ensures follows { HoldsFollows ⟦<A as Asking>⟧ (settled place (Err error)) _asking.old (P.holdings keeper.old) _asking.new (P.holdings keeper.new) result }
    ensures key { P.key_held keeper.new ≡ P.key_held keeper.old }
{
    let kept = keeper.retrieved(alloc, place)?;
    let outcome = or_found(alloc, error, &kept)?;
    Ok(outcome)
}

/// The credentials of the machine's role, over anything that can be asked: the body of
/// [`crate::ImdsCredentialsProvider::provide_credentials`], for who has its parts. `disabled` says
/// whether metadata is switched off, and `role` is the role's name, where one is set. The errors are
/// those that stand there.
#[tactic(auto, using(cfg_kept::proofs::HoldingSteps::holding_steps), unfolding(crate::specs::Metadata::metadata))]
pub fn follow_metadata<P: Keeper, A: Asking>(
    disabled: bool,
    client: &Client,
    role: &Option<Text>,
    place: Place,
    keeper: &mut P,
    asking: &mut A,
) -> Result<Result<Credentials, CredentialsError>, Stop>
    ensures follows { HoldsFollows ⟦<A as Asking>⟧ (metadata (setting disabled (client_rules repeated client.now) role.now place))
        asking.old (P.holdings keeper.old) asking.new (P.holdings keeper.new) result }
    ensures key { P.key_held keeper.new ≡ P.key_held keeper.old }
{
    let alloc = client.alloc();
    match retrieve_unless_disabled(alloc, disabled, client, role, place, keeper, asking)? {
        Ok(retrieved) => keep_retrieved(alloc, place, retrieved, keeper, asking),
        Err(error) => answer_refusal(alloc, place, error, keeper, asking),
    }
}
