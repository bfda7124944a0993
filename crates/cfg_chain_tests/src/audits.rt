//! What no clause says: that memory suffices for a verdict and for a replay; and, by tables, what is said of the
//! journals of calls, as they are and each changed in one place.
use crate::audited::AUDITED;
use crate::replay::{CONTAINER, IDENTITY, METADATA, PROCESS, ROLE, SESSION, SIGN_IN};
use crate::setup::{Setup, called, set_up};
use cfg_chain::DefaultCredentialsChain;
use cfg_explain::answering::{Answering, Replay};
use cfg_explain::kinds::kind_of;
use cfg_explain::replaying::replay;
use cfg_explain::verdict::{Verdict, check};
use cfg_kept::Kept;
use cfg_script::ScriptError;
use cfg_types::{Credentials, CredentialsError, FailKind, OutOfMemory, Outcome, Text, TryCopy};
use cfg_world::{Answer, Entry, Question, ScriptDevices, World};
use std::alloc::{AllocError, Global};
use std::test::Fail;

// One place of a journal, changed.
#[derive(Clone, Copy, PartialEq, Eq)]
pub(crate) enum Change {
    LeftOut,
    Doubled,
    Exchanged,
    Answered,
}

pub(crate) const CHANGES: [(Change, &str); 4] = [
    (Change::LeftOut, "left out"),
    (Change::Doubled, "doubled"),
    (Change::Exchanged, "exchanged with the next"),
    (Change::Answered, "another answer"),
];

// Another answer to the question of the entry: a failure, where it can fail, or a later moment.
fn answered_otherwise(alloc: Global, entry: &Entry) -> Result<Option<Entry>, OutOfMemory> {
    let question = entry.question().copy(alloc)?;
    let answer = match (&question, entry.answer()) {
        (_, Answer::Moment(moment)) => Answer::Moment(moment.plus(100_000)),
        (_, Answer::Jitter(number)) => Answer::Jitter(number.wrapping_add(1)),
        (Question::Send(_), _) => Answer::Failed(FailKind::Broken),
        _ => Answer::Failed(FailKind::Io),
    };
    Entry::new(alloc, question, answer)
}

fn push_changed(
    alloc: Global,
    entries: &mut Vec<Entry>,
    change: Change,
    entry: &Entry,
    next: Option<&Entry>,
) -> Result<(), OutOfMemory> {
    if change == Change::Answered {
        if let Some(other) = answered_otherwise(alloc, entry)? {
            entries.push(other)?;
        }
        return Ok(());
    }
    if change == Change::Exchanged {
        if let Some(next) = next {
            entries.push(next.copy(alloc)?)?;
        }
    }
    if change == Change::Doubled {
        entries.push(entry.copy(alloc)?)?;
    }
    if change != Change::LeftOut {
        entries.push(entry.copy(alloc)?)?;
    }
    Ok(())
}

// The journal, with the entry of this place changed.
pub(crate) fn changed(
    alloc: Global,
    journal: &[Entry],
    change: Change,
    at: usize,
) -> Result<Vec<Entry>, OutOfMemory> {
    let behind = at.saturating_add(1);
    let mut entries = Vec::new(alloc);
    for (index, entry) in journal.iter().enumerate() {
        if index == at {
            push_changed(alloc, &mut entries, change, entry, journal.get(behind))?;
        } else if index != behind || change != Change::Exchanged {
            entries.push(entry.copy(alloc)?)?;
        }
    }
    Ok(entries)
}

// What a verdict says, with places from 1.
fn verdict_words(alloc: Global, verdict: &Verdict) -> Result<String, AllocError> {
    match verdict {
        Verdict::Yes => String::from_str(alloc, "yes"),
        Verdict::Other { at, wanted } => {
            let place = at.saturating_add(1);
            let kind = kind_of(wanted);
            format!(in alloc; "{place} {kind}")
        }
        Verdict::Short { wanted } => {
            let kind = kind_of(wanted);
            format!(in alloc; "short of {kind}")
        }
        Verdict::Long { at } => {
            let place = at.saturating_add(1);
            format!(in alloc; "{place} end")
        }
        Verdict::Outcome => String::from_str(alloc, "another outcome"),
    }
}

// The verdict on a journal and an outcome, from nothing kept.
pub(crate) fn judged(
    alloc: Global,
    chain: &DefaultCredentialsChain,
    journal: &[Entry],
    outcome: &Result<Credentials, CredentialsError>,
) -> Result<String, OutOfMemory> {
    let mut kept = chain.new_kept()?;
    let verdict = check(alloc, chain, &mut kept, journal, outcome)?;
    Ok(verdict_words(alloc, &verdict)?)
}

// The verdicts on a journal with each entry changed so.
fn judged_changed(
    alloc: Global,
    chain: &DefaultCredentialsChain,
    journal: &[Entry],
    outcome: &Result<Credentials, CredentialsError>,
    change: Change,
) -> Result<String, OutOfMemory> {
    let mut words = String::new(alloc);
    for at in 0..journal.len() {
        if change == Change::Exchanged && journal.get(at.saturating_add(1)).is_none() {
            continue;
        }
        let entries = changed(alloc, journal, change, at)?;
        let verdict = judged(alloc, chain, entries.as_slice(), outcome)?;
        words.push_str("; ")?;
        words.push_str(verdict.as_str())?;
    }
    Ok(words)
}

fn table_of(
    alloc: Global,
    chain: &DefaultCredentialsChain,
    world: &World<ScriptDevices>,
    outcome: &Result<Credentials, CredentialsError>,
) -> Result<String, OutOfMemory> {
    let mut table = String::new(alloc);
    let whole = judged(alloc, chain, world.journal(), outcome)?;
    let late = Outcome {
        answer: Err(CredentialsError::ProviderTimedOut),
    };
    let other = judged(alloc, chain, world.journal(), &late.answer)?;
    table.push_str(format!(in alloc; "{whole}; {other}\n")?.as_str())?;
    for (change, name) in CHANGES {
        let words = judged_changed(alloc, chain, world.journal(), outcome, change)?;
        table.push_str(format!(in alloc; "{name}{words}\n")?.as_str())?;
    }
    Ok(table)
}

fn tabled(alloc: Global, setup: Setup) -> Result<String, OutOfMemory> {
    let Setup { chain, devices } = setup;
    let mut world = World::new(alloc, devices);
    let mut kept = chain.new_kept()?;
    let outcome = Outcome {
        answer: chain.provide_credentials(&mut kept, &mut world),
    };
    table_of(alloc, &chain, &world, &outcome.answer)
}

// The verdicts on the journal of a script's call, as it is, with another outcome, and with each entry changed.
fn verdicts(alloc: Global, script: &str) -> Result<String, ScriptError> {
    let setup = set_up(alloc, script)?;
    Ok(tabled(alloc, setup)?)
}

const VERDICTS: &[(&str, &str)] = &[
    (
        ROLE,
        "yes; another outcome\n\
         left out; 1 now; short of assume-role\n\
         doubled; 2 assume-role; 3 end\n\
         exchanged with the next; 1 now\n\
         another answer; 2 assume-role; another outcome\n",
    ),
    (
        PROCESS,
        "yes; another outcome\n\
         left out; 1 run; 2 now; 3 assume-role; short of assume-role\n\
         doubled; 2 now; 3 assume-role; 4 assume-role; 5 end\n\
         exchanged with the next; 1 run; 2 now; 3 assume-role\n\
         another answer; 2 end; 3 assume-role; 4 end; another outcome\n",
    ),
    (
        IDENTITY,
        "yes; another outcome\n\
         left out; 1 now; 2 read; short of web-identity\n\
         doubled; 2 read; 3 web-identity; 4 end\n\
         exchanged with the next; 1 now; 2 read\n\
         another answer; 3 web-identity; 3 end; another outcome\n",
    ),
    (
        CONTAINER,
        "yes; another outcome\n\
         left out; 1 read; 2 lookup; yes; yes; short of http\n\
         doubled; 2 lookup; 3 http; 6 end; 6 end; 6 end\n\
         exchanged with the next; 1 read; 2 lookup; yes; 5 end\n\
         another answer; 2 end; 3 end; yes; yes; another outcome\n",
    ),
    (
        METADATA,
        "yes; another outcome\n\
         left out; 1 now; 2 imds-token; 3 now; 4 imds-get; 5 now; 6 imds-token; 7 now; 8 imds-get; 9 now; short of jitter\n\
         doubled; 2 imds-token; 3 now; 4 imds-get; 5 now; 6 imds-token; 7 now; 8 imds-get; 9 now; 10 jitter; 11 end\n\
         exchanged with the next; 1 now; 2 imds-token; 3 now; 4 imds-get; 5 now; 6 imds-token; 7 now; 8 imds-get; 9 now\n\
         another answer; yes; 4 end; 6 imds-get; 5 end; yes; 8 end; yes; 9 end; another outcome; another outcome\n",
    ),
    (
        SESSION,
        "yes; another outcome\n\
         left out; 1 now; 2 read; 3 now; 4 create-token; 5 write; short of role-credentials\n\
         doubled; 2 read; 3 now; 4 create-token; 5 write; 6 role-credentials; 7 end\n\
         exchanged with the next; 1 now; 2 read; 3 now; 4 create-token; 5 write\n\
         another answer; yes; 3 end; 4 end; 5 role-credentials; 6 end; another outcome\n",
    ),
    (
        SIGN_IN,
        "yes; another outcome\n\
         left out; 1 now; 2 read; 3 now; 4 sign-in; 5 write; short of assume-role\n\
         doubled; 2 read; 3 now; 4 sign-in; 5 write; 6 assume-role; 7 end\n\
         exchanged with the next; 1 now; 2 read; 3 now; 4 sign-in; 5 write\n\
         another answer; yes; 3 end; 5 write; 5 end; yes; another outcome\n",
    ),
];

#[test]
fn verdicts_on_changed_journals(rt: HostRuntime) -> Result<(), Fail> {
    for (script, want) in VERDICTS {
        let table = verdicts(rt.alloc(), script)?;
        assert_eq!(rt; table.as_str(), *want, "{script}");
    }
    Ok(())
}

// The kinds and the answers of these entries.
fn answers_of(alloc: Global, journal: &[Entry]) -> Result<Vec<Answering>, OutOfMemory> {
    let mut answers = Vec::new(alloc);
    for entry in journal {
        answers.push(Answering {
            kind: Text::of(alloc, kind_of(entry.question()))?,
            answer: entry.answer().copy(alloc)?,
        })?;
    }
    Ok(answers)
}

// What a replay tells, with places from 1; of a whole call how many questions it asks, and what it comes to.
fn replay_words(alloc: Global, told: &Replay) -> Result<String, AllocError> {
    match told {
        Replay::Whole { journal, outcome } => {
            let asked = journal.as_slice().len();
            match outcome {
                Ok(keys) => {
                    let id = keys.access_key_id();
                    format!(in alloc; "yes, {asked} {id}")
                }
                Err(error) => format!(in alloc; "yes, {asked} {error}"),
            }
        }
        Replay::Other { at, wanted } => {
            let place = at.saturating_add(1);
            let wanted = wanted.as_str();
            format!(in alloc; "{place} {wanted}")
        }
        Replay::Short { wanted } => {
            let wanted = wanted.as_str();
            format!(in alloc; "short of {wanted}")
        }
        Replay::Long { at } => {
            let place = at.saturating_add(1);
            format!(in alloc; "{place} end")
        }
    }
}

// What is told of the answers of a journal, from nothing kept.
fn replayed(
    alloc: Global,
    chain: &DefaultCredentialsChain,
    journal: &[Entry],
) -> Result<String, OutOfMemory> {
    let answers = answers_of(alloc, journal)?;
    let mut kept = chain.new_kept()?;
    let told = replay(alloc, chain, &mut kept, answers.as_slice())?;
    Ok(replay_words(alloc, &told)?)
}

fn replays_of(alloc: Global, setup: Setup) -> Result<String, OutOfMemory> {
    let Setup { chain, devices } = setup;
    let mut world = World::new(alloc, devices);
    let mut kept = chain.new_kept()?;
    let _outcome = Outcome {
        answer: chain.provide_credentials(&mut kept, &mut world),
    };
    let mut words = replayed(alloc, &chain, world.journal())?;
    for at in 0..world.journal().len() {
        let entries = changed(alloc, world.journal(), Change::LeftOut, at)?;
        let told = replayed(alloc, &chain, entries.as_slice())?;
        words.push_str("; ")?;
        words.push_str(told.as_str())?;
    }
    Ok(words)
}

// What is told of the answers to a script's call, and of those with each left out in turn.
fn replays(alloc: Global, script: &str) -> Result<String, ScriptError> {
    let setup = set_up(alloc, script)?;
    Ok(replays_of(alloc, setup)?)
}

const REPLAYS: &[(&str, &str)] = &[
    (ROLE, "yes, 2 KA; 1 now; short of assume-role"),
    (
        PROCESS,
        "yes, 4 KA; 1 run; 2 now; short of assume-role; short of assume-role",
    ),
    (IDENTITY, "yes, 3 W; 1 now; 2 read; short of web-identity"),
    (
        CONTAINER,
        "yes, 5 MUA; 1 read; 2 lookup; yes, 4 MUA; yes, 4 MUA; short of http",
    ),
    (
        METADATA,
        "yes, 10 MUA; 1 now; 2 imds-token; 3 now; 4 imds-get; 5 now; 6 imds-token; 7 now; 8 imds-get; 9 now; short of jitter",
    ),
    (
        SESSION,
        "yes, 6 R; 1 now; 2 read; 3 now; 4 create-token; 5 write; short of role-credentials",
    ),
    (
        SIGN_IN,
        "yes, 6 KA; 1 now; 2 read; 3 now; 4 sign-in; 5 write; short of assume-role",
    ),
];

#[test]
fn replays_of_answers(rt: HostRuntime) -> Result<(), Fail> {
    for (script, want) in REPLAYS {
        let words = replays(rt.alloc(), script)?;
        assert_eq!(rt; words.as_str(), *want, "{script}");
    }
    Ok(())
}

// Whether the next call of the chain on what is kept is told to be one, on what earlier verdicts left kept.
fn is_next_call(
    alloc: Global,
    chain: &DefaultCredentialsChain,
    kept: &mut Kept,
    audited: &mut Kept,
    world: &mut World<ScriptDevices>,
) -> Result<bool, OutOfMemory> {
    world.clear_journal();
    let Some(outcome) = called(chain, kept, world) else {
        return Ok(false);
    };
    if !audited.fits(chain.token_key()) {
        return Ok(false);
    }
    let verdict = check(alloc, chain, audited, world.journal(), &outcome.answer)?;
    Ok(matches!(verdict, Verdict::Yes))
}

fn are_calls(alloc: Global, setup: Setup) -> Result<bool, OutOfMemory> {
    let Setup { chain, devices } = setup;
    let mut world = World::new(alloc, devices);
    let mut kept = chain.new_kept()?;
    let mut audited = chain.new_kept()?;
    for _ in 0..4 {
        if !is_next_call(alloc, &chain, &mut kept, &mut audited, &mut world)? {
            return Ok(false);
        }
    }
    Ok(true)
}

// Whether four calls of a script's chain, one after another, are told to be calls.
fn audited(alloc: Global, script: &str) -> Result<bool, ScriptError> {
    let setup = set_up(alloc, script)?;
    Ok(are_calls(alloc, setup)?)
}

#[test]
fn worked_journals_are_those_of_calls(rt: HostRuntime) -> Result<(), Fail> {
    for script in AUDITED {
        let are_calls = audited(rt.alloc(), script)?;
        assert!(rt; are_calls, "{script}");
    }
    Ok(())
}
