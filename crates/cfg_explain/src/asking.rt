//! Which member of the default chain asked what.
ghost use Rattle.std.specs.Prelude.{◌≡◌, IfOk, IfNone, OnErr};
ghost use Rattle.cfg_kept.specs.KeptStates.{kept_key};
ghost use Rattle.cfg_chain.specs.Views.{chain_of};
ghost use Rattle.cfg_chain.specs.profile.Plans.{key_of};
ghost use Rattle.cfg_explain.specs.Owners.{OwnsOn, TellsOwner};

use crate::journals::{all_fit, answers_of};
use cfg_chain::DefaultCredentialsChain;
use cfg_kept::Kept;
use cfg_run::{Run, Step};
use cfg_types::{OutOfMemory, Seq, Text, TryCopy};
use cfg_world::same::Same;
use cfg_world::{Entry, HandedDevices, World};
use std::alloc::Global;

/// The name of the member in whose part of a call each entry stands, in order; none exactly where the journal is not
/// that of a whole call of the chain on what is kept. What is kept is that of a chain with this key, as
/// [`new_kept`](cfg_chain::DefaultCredentialsChain::new_kept) makes it, and stays so. After names it is what the call
/// leaves, with the values that the call found; else it is as it was.
///
/// # Errors
///
/// `OutOfMemory` where memory runs out.
pub fn owners(
    alloc: Global,
    chain: &DefaultCredentialsChain,
    kept: &mut Kept,
    journal: &[Entry],
) -> Result<Option<Seq<Text>>, OutOfMemory>
    requires { kept_key kept.old ≡ key_of chain.now.core }
    ensures owns { IfOk result (OwnsOn (chain_of value repeated chain.now) kept.old kept.new journal.now) }
    ensures key { kept_key kept.new ≡ kept_key kept.old }
    ensures none { IfOk result (λ names. IfNone names (kept.new ≡ kept.old)) }
    ensures breaks { OnErr result (kept.new ≡ kept.old) }
{
    all_fit(journal);
    let answers = answers_of(alloc, journal)?;
    let mut world = World::new(alloc, HandedDevices::new(answers));
    let mut run = Run::start(chain, kept.copy(alloc)?);
    let mut names = Vec::with_capacity(alloc, journal.len())?;
    let mut receipt = None;
    for entry in journal {
        let Step::Pending = run.poll(receipt)? else {
            return Ok(None);
        };
        let Some(name) = owner_of(alloc, &run, entry)? else {
            return Ok(None);
        };
        names.push(name)?;
        receipt = Some(world.ask(entry.question().copy(alloc)?)?);
    }
    let Step::Ready(_) = run.poll(receipt)? else {
        return Ok(None);
    };
    *kept = run.into_kept();
    Ok(Some(Seq::of(names)))
}

// The name of the member that asks the question of this entry next, if that is the question which is shown.
fn owner_of(alloc: Global, run: &Run, entry: &Entry) -> Result<Option<Text>, OutOfMemory>
    ensures { IfOk result (TellsOwner run.now.progress.question run.now.progress.member entry.now.0) }
{
    match (run.question(), run.member()) {
        (Some(question), Some(name)) => {
            if question.same(entry.question()) {
                return Ok(Some(Text::of(alloc, name)?));
            }
            Ok(None)
        }
        _ => Ok(None),
    }
}
