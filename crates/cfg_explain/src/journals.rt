//! How far two journals ask the same.
ghost use Rattle.std.specs.Prelude.{◌≡◌, IfOk, map, true, false};
ghost use Rattle.std.specs.Option.{option_copied};
ghost use Rattle.cfg_world.specs.Fits.{EachFits};
ghost use Rattle.cfg_explain.specs.Journals.{AskAlike, DoNotAskAlike, AskAlikeUntil};

use cfg_types::{OutOfMemory, Seq, TryCopy};
use cfg_world::same::Same;
use cfg_world::{Answer, Entry};
use std::alloc::Global;

// Each entry's answer fits its question.
pub(crate) fn all_fit(journal: &[Entry])
    ensures { EachFits journal.now }
{
    for entry in journal {
        let _answer = entry.answer();
    }
}

// The answers of these entries, in order.
pub(crate) fn answers_of(alloc: Global, journal: &[Entry]) -> Result<Vec<Answer>, OutOfMemory>
    ensures { IfOk result (λ answers. answers.items ≡ map (λ e. e.1) journal.now) }
{
    let mut answers = Vec::new(alloc);
    for entry in journal {
        answers.push(entry.answer().copy(alloc)?)?;
    }
    Ok(answers)
}

// The entries again.
pub(crate) fn copied(alloc: Global, journal: &[Entry]) -> Result<Seq<Entry>, OutOfMemory>
    ensures { IfOk result (λ copies. copies ≡ journal.now) }
{
    let mut copies = Vec::with_capacity(alloc, journal.len())?;
    for entry in journal {
        copies.push(entry.copy(alloc)?)?;
    }
    Ok(Seq::of(copies))
}

// The first place at which not both ask the same: one of them has ended, or they ask different questions.
#[tactic(auto, using(crate::proofs::JournalSteps::asks_more))]
pub(crate) fn first_difference(one: &[Entry], other: &[Entry]) -> usize
    ensures { AskAlikeUntil one.now other.now result }
{
    let mut at = 0;
    while !is_parting(one.get(at), other.get(at)) {
        at += 1;
    }
    at
}

fn is_parting(one: Option<&Entry>, other: Option<&Entry>) -> bool
    ensures parts { result ≡ true → DoNotAskAlike (option_copied one.entry) (option_copied other.entry) }
    ensures goes_on { result ≡ false → AskAlike (option_copied one.entry) (option_copied other.entry) }
{
    match (one, other) {
        (Some(one), Some(other)) => !one.question().same(other.question()),
        _ => true,
    }
}
