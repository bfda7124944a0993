//! Whether a journal and an outcome are those of a call of the default chain.
ghost use Rattle.std.specs.Prelude.{◌≡◌, IfOk};
ghost use Rattle.std.specs.Option.{option_copied};
ghost use Rattle.cfg_kept.specs.KeptStates.{kept_key};
ghost use Rattle.cfg_chain.specs.Views.{chain_of};
ghost use Rattle.cfg_chain.specs.profile.Plans.{key_of};
ghost use Rattle.cfg_explain.specs.Verdicts.{JudgesOn, IsSaidOf, IsSaidBy};

use crate::alike::is_alike;
use crate::journals::{all_fit, answers_of, first_difference};
use cfg_chain::DefaultCredentialsChain;
use cfg_kept::Kept;
use cfg_types::{Credentials, CredentialsError, OutOfMemory, Outcome, TryCopy};
use cfg_world::{Entry, HandedDevices, Question, World};
use std::alloc::Global;

/// What is said of a journal and of an outcome that are handed in. Places count from 0.
#[derive(Drop)]
pub enum Verdict {
    /// They are those of a call.
    Yes,
    /// The entries before this place are those of a call, and the entry there has another question than the call
    /// asks then.
    Other { at: usize, wanted: Question },
    /// All entries are those of a call, and it asks this question more.
    Short { wanted: Question },
    /// The entries before this place are those of a whole call.
    Long { at: usize },
    /// The journal is that of a call that came to another outcome.
    Outcome,
}

/// Whether the journal and the outcome are those of a call of the chain on what is kept, features of credentials
/// aside. The first place where the journal departs from that of a call is told. What is kept is that of a chain
/// with this key, as [`new_kept`](cfg_chain::DefaultCredentialsChain::new_kept) makes it, and stays so. After `Yes`
/// it is what the call leaves, with the values that the call found; after any other answer use it no more.
///
/// # Errors
///
/// `OutOfMemory` where memory runs out.
pub fn check(
    alloc: Global,
    chain: &DefaultCredentialsChain,
    kept: &mut Kept,
    journal: &[Entry],
    outcome: &Result<Credentials, CredentialsError>,
) -> Result<Verdict, OutOfMemory>
    requires { kept_key kept.old ≡ key_of chain.now.core }
    ensures judged { IfOk result (JudgesOn (chain_of value repeated chain.now) kept.old kept.new journal.now outcome.now) }
    ensures key { kept_key kept.new ≡ kept_key kept.old }
{
    all_fit(journal);
    let answers = answers_of(alloc, journal)?;
    let mut world = World::new(alloc, HandedDevices::new(answers));
    let given = Outcome {
        answer: chain.provide_credentials(kept, &mut world),
    };
    if cfg_types::is_memory(&given.answer) {
        return Err(OutOfMemory);
    }
    compared(
        alloc,
        world.journal(),
        journal,
        is_alike(&given.answer, outcome),
    )
}

// The verdict on a journal that was handed in, by the one that was made over its answers, and by whether both came to
// the same.
fn compared(
    alloc: Global,
    made: &[Entry],
    handed: &[Entry],
    is_alike: bool,
) -> Result<Verdict, OutOfMemory>
    ensures { IfOk result (IsSaidBy made.now handed.now is_alike) }
{
    let at = first_difference(made, handed);
    said_of(alloc, made.get(at), handed.get(at), at, is_alike)
}

// What the entries say at the first place at which not both ask the same, and where there is none, whether both came
// to the same.
fn said_of(
    alloc: Global,
    made: Option<&Entry>,
    handed: Option<&Entry>,
    at: usize,
    is_alike: bool,
) -> Result<Verdict, OutOfMemory>
    ensures { IfOk result (IsSaidOf (option_copied made.entry) (option_copied handed.entry) at is_alike) }
{
    match (made, handed) {
        (Some(entry), Some(_)) => Ok(Verdict::Other {
            at,
            wanted: entry.question().copy(alloc)?,
        }),
        (Some(entry), None) => Ok(Verdict::Short {
            wanted: entry.question().copy(alloc)?,
        }),
        (None, Some(_)) => Ok(Verdict::Long { at }),
        (None, None) => {
            if is_alike {
                Ok(Verdict::Yes)
            } else {
                Ok(Verdict::Outcome)
            }
        }
    }
}
