//! What no clause says: that memory suffices for owners; by a table, who they are; and that of every worked journal
//! verdicts tell each single change where the rule says so.
use crate::audited::AUDITED;
use crate::audits::{CHANGES, Change, changed, judged};
use crate::replay::{CONTAINER, IDENTITY, METADATA, PROCESS, ROLE, SESSION, SIGN_IN};
use crate::setup::{Setup, set_up};
use cfg_chain::DefaultCredentialsChain;
use cfg_explain::asking::owners;
use cfg_explain::kinds::kind_of;
use cfg_script::ScriptError;
use cfg_types::{OutOfMemory, Outcome};
use cfg_world::same::Same;
use cfg_world::{Entry, World};
use std::alloc::{AllocError, Global};
use std::test::Fail;

// Who asked each question of a journal, from nothing kept; or that it is that of no call.
fn owned(
    alloc: Global,
    chain: &DefaultCredentialsChain,
    journal: &[Entry],
) -> Result<String, OutOfMemory> {
    let mut kept = chain.new_kept()?;
    let Some(names) = owners(alloc, chain, &mut kept, journal)? else {
        return Ok(String::from_str(alloc, "none")?);
    };
    let mut words = String::new(alloc);
    for (at, name) in names.as_slice().iter().enumerate() {
        let Some(entry) = journal.get(at) else {
            continue;
        };
        words.push_str(kind_of(entry.question()))?;
        words.push_str(" ")?;
        words.push_str(name.as_str())?;
        words.push_str("; ")?;
    }
    Ok(words)
}

fn owned_and_shortened(alloc: Global, setup: Setup) -> Result<String, OutOfMemory> {
    let Setup { chain, devices } = setup;
    let mut world = World::new(alloc, devices);
    let mut kept = chain.new_kept()?;
    let _outcome = Outcome {
        answer: chain.provide_credentials(&mut kept, &mut world),
    };
    let whole = owned(alloc, &chain, world.journal())?;
    let shorter = changed(alloc, world.journal(), Change::LeftOut, 0)?;
    let other = owned(alloc, &chain, shorter.as_slice())?;
    Ok(format!(in alloc; "{whole}| {other}")?)
}

// Who asked each question of a script's call, and of its journal without the first entry.
fn owners_in(alloc: Global, script: &str) -> Result<String, ScriptError> {
    let setup = set_up(alloc, script)?;
    Ok(owned_and_shortened(alloc, setup)?)
}

const OWNERS: &[(&str, &str)] = &[
    (ROLE, "now Profile; assume-role Profile; | none"),
    (
        PROCESS,
        "run Profile; now Profile; assume-role Profile; assume-role Profile; | none",
    ),
    (
        IDENTITY,
        "now WebIdentityToken; read WebIdentityToken; web-identity WebIdentityToken; | none",
    ),
    (
        CONTAINER,
        "read EcsContainer; lookup EcsContainer; http EcsContainer; http EcsContainer; http EcsContainer; | none",
    ),
    (
        METADATA,
        "now Ec2InstanceMetadata; imds-token Ec2InstanceMetadata; now Ec2InstanceMetadata; imds-get Ec2InstanceMetadata; now Ec2InstanceMetadata; imds-token Ec2InstanceMetadata; now Ec2InstanceMetadata; imds-get Ec2InstanceMetadata; now Ec2InstanceMetadata; jitter Ec2InstanceMetadata; | none",
    ),
    (
        SESSION,
        "now Profile; read Profile; now Profile; create-token Profile; write Profile; role-credentials Profile; | none",
    ),
    (
        SIGN_IN,
        "now Profile; read Profile; now Profile; sign-in Profile; write Profile; assume-role Profile; | none",
    ),
    // A container is passed over, whose token's file was read, and metadata comes behind it.
    (
        r#"{"variables":[["AWS_CONTAINER_AUTHORIZATION_TOKEN_FILE","/t"]],"files":[["/t","tok"]]}"#,
        "read EcsContainer; now Ec2InstanceMetadata; imds-token Ec2InstanceMetadata; now Ec2InstanceMetadata; | none",
    ),
    (r#"{"refused":"bad"}"#, "| "),
];

#[test]
fn owners_of_questions(rt: HostRuntime) -> Result<(), Fail> {
    for (script, want) in OWNERS {
        let words = owners_in(rt.alloc(), script)?;
        assert_eq!(rt; words.as_str(), *want, "{script}");
    }
    Ok(())
}

// What the rule says of a journal that is changed so: at the first place where it asks otherwise than the call did, what
// the call asks. None where both entries ask the same there, so that their answers decide.
fn ruled(
    alloc: Global,
    change: Change,
    at: usize,
    entry: &Entry,
    next: Option<&Entry>,
) -> Result<Option<String>, AllocError> {
    let asks_same = match next {
        Some(next) => next.question().same(entry.question()),
        None => false,
    };
    if asks_same {
        return Ok(None);
    }
    let kind = kind_of(entry.question());
    let place = at.saturating_add(1);
    let behind = at.saturating_add(2);
    match (change, next) {
        (Change::Answered, _) | (Change::Exchanged, None) => Ok(None),
        (Change::LeftOut, None) => Ok(Some(format!(in alloc; "short of {kind}")?)),
        (Change::Doubled, None) => Ok(Some(format!(in alloc; "{behind} end")?)),
        (Change::Doubled, Some(next)) => {
            let kind = kind_of(next.question());
            Ok(Some(format!(in alloc; "{behind} {kind}")?))
        }
        _ => Ok(Some(format!(in alloc; "{place} {kind}")?)),
    }
}

// How many changes of a call's journal the rule speaks of, and of those how many are told otherwise.
#[derive(Clone, Copy)]
struct Tally {
    ruled: u64,
    otherwise: u64,
}

fn tally_of(alloc: Global, setup: Setup, change: Change) -> Result<Tally, OutOfMemory> {
    let Setup { chain, devices } = setup;
    let mut world = World::new(alloc, devices);
    let mut kept = chain.new_kept()?;
    let outcome = Outcome {
        answer: chain.provide_credentials(&mut kept, &mut world),
    };
    let journal = world.journal();
    let mut tally = Tally {
        ruled: 0,
        otherwise: 0,
    };
    for (at, entry) in journal.iter().enumerate() {
        let next = journal.get(at.saturating_add(1));
        let Some(want) = ruled(alloc, change, at, entry, next)? else {
            continue;
        };
        let entries = changed(alloc, journal, change, at)?;
        let told = judged(alloc, &chain, entries.as_slice(), &outcome.answer)?;
        tally.ruled = tally.ruled.saturating_add(1);
        if told.as_str() != want.as_str() {
            tally.otherwise = tally.otherwise.saturating_add(1);
        }
    }
    Ok(tally)
}

fn tally_in(alloc: Global, script: &str, change: Change) -> Result<Tally, ScriptError> {
    let setup = set_up(alloc, script)?;
    Ok(tally_of(alloc, setup, change)?)
}

#[test]
fn verdicts_follow_the_rule(rt: HostRuntime) -> Result<(), Fail> {
    let alloc = rt.alloc();
    let mut table = String::new(alloc);
    for (change, name) in CHANGES {
        let mut told: u64 = 0;
        for script in AUDITED {
            let tally = tally_in(alloc, script, change)?;
            told = told.saturating_add(tally.ruled);
            assert_eq!(rt; tally.otherwise, 0, "{name}: {script}");
        }
        table.push_str(format!(in alloc; "{name} {told}; ")?.as_str())?;
    }
    assert_eq!(rt;
        table.as_str(),
        "left out 119; doubled 119; exchanged with the next 82; another answer 0; "
    );
    Ok(())
}
