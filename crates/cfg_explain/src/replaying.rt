//! Calls of the default chain over answers that are handed in.
ghost use Rattle.std.specs.Prelude.{◌≡◌, IfOk, slice_get};
ghost use Rattle.std.specs.Option.{option_copied};
ghost use Rattle.cfg_kept.specs.KeptStates.{kept_key};
ghost use Rattle.cfg_chain.specs.Views.{chain_of};
ghost use Rattle.cfg_chain.specs.profile.Plans.{key_of};
ghost use Rattle.cfg_explain.specs.Replays.{TellsOn, IsToldOf, IsToldBy};

use crate::answering::{Answering, Replay, answers_in, first_departure};
use crate::journals::copied;
use crate::kinds::kind_of;
use cfg_chain::DefaultCredentialsChain;
use cfg_kept::Kept;
use cfg_types::{Credentials, CredentialsError, OutOfMemory, Text};
use cfg_world::{Entry, HandedDevices, World};
use std::alloc::Global;

/// The call of the chain on what is kept that asks questions of these kinds and is answered so, where there is one;
/// else the first place where none is. What is kept is that of a chain with this key, as
/// [`new_kept`](cfg_chain::DefaultCredentialsChain::new_kept) makes it, and stays so. After `Whole` it is what the
/// call leaves, with the values that the call found; after any other answer use it no more.
///
/// # Errors
///
/// `OutOfMemory` where memory runs out.
pub fn replay(
    alloc: Global,
    chain: &DefaultCredentialsChain,
    kept: &mut Kept,
    answers: &[Answering],
) -> Result<Replay, OutOfMemory>
    requires { kept_key kept.old ≡ key_of chain.now.core }
    ensures tells { IfOk result (TellsOn (chain_of value repeated chain.now) kept.old kept.new answers.now) }
    ensures key { kept_key kept.new ≡ kept_key kept.old }
{
    let given = answers_in(alloc, answers)?;
    let mut world = World::new(alloc, HandedDevices::new(given));
    let outcome = chain.provide_credentials(kept, &mut world);
    if cfg_types::is_memory(&outcome) {
        return Err(OutOfMemory);
    }
    compared(alloc, world.journal(), answers, outcome)
}

// What is told of answers that were handed in, by the journal that was made over them, and what its call came to.
fn compared(
    alloc: Global,
    journal: &[Entry],
    answers: &[Answering],
    outcome: Result<Credentials, CredentialsError>,
) -> Result<Replay, OutOfMemory>
    ensures { IfOk result (IsToldBy journal.now answers.now outcome) }
{
    let at = first_departure(journal, answers);
    told_of(alloc, journal, answers.get(at), at, outcome)
}

// What the entries and the answers say at the first place at which they are not the same, and where there is none, the
// call.
fn told_of(
    alloc: Global,
    journal: &[Entry],
    answering: Option<&Answering>,
    at: usize,
    outcome: Result<Credentials, CredentialsError>,
) -> Result<Replay, OutOfMemory>
    ensures { IfOk result (IsToldOf journal.now (slice_get journal.now at) (option_copied answering.entry) at outcome) }
{
    match (journal.get(at), answering) {
        (Some(entry), Some(_)) => Ok(Replay::Other {
            at,
            wanted: Text::of(alloc, kind_of(entry.question()))?,
        }),
        (Some(entry), None) => Ok(Replay::Short {
            wanted: Text::of(alloc, kind_of(entry.question()))?,
        }),
        (None, Some(_)) => Ok(Replay::Long { at }),
        (None, None) => {
            let journal = copied(alloc, journal)?;
            Ok(Replay::Whole { journal, outcome })
        }
    }
}
