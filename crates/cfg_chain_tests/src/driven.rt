//! What no clause says: that memory suffices for a whole run; and, by the worked rows, that a run which is driven by
//! receipts tells, asks and leaves what the direct call does, and that one which is given up leaves what its receipts
//! finished.
ghost use Rattle.std.specs.Prelude.{◌≡◌, IsTrue, IsSome, IfOk, Some};
ghost use Rattle.cfg_kept.specs.KeptStates.{kept_key};
ghost use Rattle.cfg_chain.specs.Views.{chain_of};
ghost use Rattle.cfg_chain.specs.profile.Plans.{key_of};
ghost use Rattle.cfg_run.specs.Runs.{IsUnderWay};

use crate::audited::AUDITED;
use crate::kept::{TOKEN, kept_words};
use crate::replay::{
    CONTAINER, IDENTITY, METADATA, PROCESS, ROLE, SESSION, SIGN_IN, receipts, whole_call,
};
use crate::runs::question_words;
use crate::setup::{Setup, answer_words, called, followed_on, questions, set_up};
use cfg_chain::DefaultCredentialsChain;
use cfg_explain::kinds::kind_of;
use cfg_kept::Kept;
use cfg_run::{Run, Step};
use cfg_script::ScriptError;
use cfg_types::{Credentials, CredentialsError, OutOfMemory, Outcome, TryCopy};
use cfg_world::{Answers, Entry, Receipt, ScriptDevices, World};
use std::alloc::{AllocError, Global};
use std::test::Fail;

// More than the questions of any call here.
const MOST: usize = 40;

// How many calls are made, one after another. A script is silent behind those that it has answers for.
const CALLS: usize = 4;

// What a call answered, asked and left.
fn tell(
    alloc: Global,
    answer: &Result<Credentials, CredentialsError>,
    asked: &str,
    kept: &Kept,
) -> Result<String, AllocError> {
    let answer = answer_words(alloc, answer)?;
    let kept = kept_words(alloc, kept)?;
    format!(in alloc; "{answer}{asked}; {kept}\n")
}

// What the direct call tells. The journal is that of the call alone.
fn tell_call(
    alloc: Global,
    chain: &DefaultCredentialsChain,
    kept: &mut Kept,
    world: &mut World<ScriptDevices>,
) -> Result<String, OutOfMemory> {
    world.clear_journal();
    let Some(outcome) = called(chain, kept, world) else {
        return Ok(String::from_str(alloc, "another key")?);
    };
    let asked = questions(alloc, world.journal())?;
    Ok(tell(alloc, &outcome.answer, asked.as_str(), kept)?)
}

// The end of a run: the kinds of its questions, each with the member that asked it; what it tells; what is kept.
struct Driven {
    steps: String,
    told: String,
    kept: Kept,
}

impl Drop for Driven {
    fn drop(self) {
        let Driven {
            steps: _,
            told: _,
            kept: _,
        } = self;
    }
}

impl Driven {
    fn into_kept(self) -> Kept {
        let Driven {
            steps: _,
            told: _,
            kept,
        } = self;
        kept
    }

    fn into_steps(self) -> String {
        let Driven {
            steps,
            told: _,
            kept: _,
        } = self;
        steps
    }
}

/// The questions of these receipts.
pub(crate) fn asked_words(alloc: Global, asked: &[Receipt]) -> Result<String, AllocError> {
    let mut words = String::new(alloc);
    for receipt in asked {
        let question = receipt.entry().question();
        let question = format!(in alloc; " {question:?}")?;
        words.push_str(question.as_str())?;
    }
    Ok(words)
}

fn ended(
    alloc: Global,
    run: Run<'_>,
    steps: String,
    outcome: &Outcome<Credentials, CredentialsError>,
) -> Result<Driven, OutOfMemory> {
    let asked = asked_words(alloc, run.asked())?;
    let kept = run.into_kept();
    let told = tell(alloc, &outcome.answer, asked.as_str(), &kept)?;
    Ok(Driven { steps, told, kept })
}

fn given_up(alloc: Global, run: Run<'_>, steps: String, why: &str) -> Result<Driven, OutOfMemory> {
    let told = String::from_str(alloc, why)?;
    let kept = run.into_kept();
    Ok(Driven { steps, told, kept })
}

// The kind of the question that is shown, and the member that asks it.
fn step_words(alloc: Global, run: &Run<'_>) -> Result<String, AllocError> {
    let Some(question) = run.question() else {
        return String::from_str(alloc, "nothing; ");
    };
    let kind = kind_of(question);
    let member = run.member();
    format!(in alloc; "{kind} {member:?}; ")
}

// All that a run shows.
fn shown(alloc: Global, run: &Run<'_>) -> Result<String, AllocError> {
    let question = question_words(alloc, run.question())?;
    let member = run.member();
    let asked = asked_words(alloc, run.asked())?;
    format!(in alloc; "{question} {member:?}{asked}")
}

// Whether a poll without a receipt is `Pending`, and what is shown stays.
fn stays(alloc: Global, run: &mut Run<'_>) -> Result<bool, OutOfMemory>
    requires { IsUnderWay (chain_of value repeated run.old.chain.now) run.old.progress }
    ensures shown { IfOk result (λ same. IsTrue same → IsSome run.new.progress.question) }
    ensures under_way { IfOk result (λ same. IsTrue same → IsUnderWay (chain_of value repeated run.new.chain.now) run.new.progress) }
{
    let before = shown(alloc, run)?;
    match run.poll(None)? {
        Step::Pending => {
            let again = shown(alloc, run)?;
            Ok(before == again)
        }
        Step::Ready(answer) => {
            let _outcome = Outcome { answer };
            Ok(false)
        }
    }
}

// The receipt of the question that is shown.
fn answered(
    alloc: Global,
    run: &Run<'_>,
    world: &mut World<ScriptDevices>,
) -> Result<Receipt, OutOfMemory>
    requires { IsSome run.now.progress.question }
    ensures { IfOk result (λ e. run.now.progress.question ≡ Some e.0) }
{
    let question = run.question().unwrap().copy(alloc)?;
    world.ask(question)
}

// A run by the answers of this world, each poll made once more without a receipt. It is given up where it asks more
// questions than these.
fn drive(
    alloc: Global,
    chain: &DefaultCredentialsChain,
    kept: Kept,
    world: &mut World<ScriptDevices>,
    limit: usize,
) -> Result<Driven, OutOfMemory>
    requires { kept_key kept ≡ key_of chain.now.core }
{
    let mut run = Run::start(chain, kept);
    let mut steps = String::new(alloc);
    let mut receipt = None;
    for _ in 0..=limit {
        match run.poll(receipt)? {
            Step::Ready(answer) => return ended(alloc, run, steps, &Outcome { answer }),
            Step::Pending => {
                if !stays(alloc, &mut run)? {
                    return given_up(alloc, run, steps, "a poll changes more than its receipt");
                }
                steps.push_str(step_words(alloc, &run)?.as_str())?;
                receipt = Some(answered(alloc, &run, world)?);
            }
        }
    }
    given_up(alloc, run, steps, "no answer")
}

// The next call as a run.
fn call_by_run(
    alloc: Global,
    chain: &DefaultCredentialsChain,
    kept: Kept,
    world: &mut World<ScriptDevices>,
    limit: usize,
) -> Result<Driven, OutOfMemory> {
    if kept.fits(chain.token_key()) {
        return drive(alloc, chain, kept, world, limit);
    }
    let told = String::from_str(alloc, "another key")?;
    let steps = String::new(alloc);
    Ok(Driven { steps, told, kept })
}

// Calls, one after another, as runs.
fn by_runs(alloc: Global, setup: Setup) -> Result<String, OutOfMemory> {
    let Setup { chain, devices } = setup;
    let mut world = World::new(alloc, devices);
    let mut kept = chain.new_kept()?;
    let mut words = String::new(alloc);
    for _ in 0..CALLS {
        let driven = call_by_run(alloc, &chain, kept, &mut world, MOST)?;
        words.push_str(driven.told.as_str())?;
        kept = driven.into_kept();
    }
    Ok(words)
}

// The same directly.
fn by_calls(alloc: Global, setup: Setup) -> Result<String, OutOfMemory> {
    let Setup { chain, devices } = setup;
    let mut world = World::new(alloc, devices);
    let mut kept = chain.new_kept()?;
    let mut words = String::new(alloc);
    for _ in 0..CALLS {
        words.push_str(tell_call(alloc, &chain, &mut kept, &mut world)?.as_str())?;
    }
    Ok(words)
}

fn runs_of(alloc: Global, script: &str) -> Result<String, ScriptError> {
    let setup = set_up(alloc, script)?;
    Ok(by_runs(alloc, setup)?)
}

fn calls_of(alloc: Global, script: &str) -> Result<String, ScriptError> {
    let setup = set_up(alloc, script)?;
    Ok(by_calls(alloc, setup)?)
}

#[test]
fn worked_calls_as_runs(rt: HostRuntime) -> Result<(), Fail> {
    for script in AUDITED {
        let by_runs = runs_of(rt.alloc(), script)?;
        let by_calls = calls_of(rt.alloc(), script)?;
        assert_eq!(rt; by_runs.as_str(), by_calls.as_str(), "{script}");
    }
    Ok(())
}

// What one run shows at each poll.
fn steps_of(alloc: Global, script: &str) -> Result<String, ScriptError> {
    let Setup { chain, devices } = set_up(alloc, script)?;
    let mut world = World::new(alloc, devices);
    let kept = chain.new_kept()?;
    let driven = call_by_run(alloc, &chain, kept, &mut world, MOST)?;
    Ok(driven.into_steps())
}

// Two roles over keys, of which the deeper one has a session name.
const ROLES: &str =
    r#"{"profiles":[["default",[["role_arn","arn:aws:iam::1:role/A"],["source_profile","b"]]],["b",[["role_arn","arn:aws:iam::1:role/B"],["source_profile","c"],["role_session_name","sb"]]],["c",[["aws_access_key_id","KC"],["aws_secret_access_key","SC"]]]],"clock":[5],"replies":{"assume-role":[{"id":"KB","secret":"SKB","token":"TKB","expires":1000},{"id":"KA","secret":"SKA","token":"TKA","expires":2000}]}}"#;

// Two roles over a process, neither of which names its session. The later one is refused.
const UNNAMED: &str =
    r#"{"profiles":[["default",[["role_arn","arn:aws:iam::1:role/A"],["source_profile","b"]]],["b",[["role_arn","arn:aws:iam::1:role/B"],["source_profile","c"]]],["c",[["credential_process","x"]]]],"commands":[[0,"{\"Version\":1,\"AccessKeyId\":\"P\",\"SecretAccessKey\":\"S\"}",""]],"clock":[5,6],"replies":{"assume-role":[{"id":"KB","secret":"SB","token":"TB","expires":1000},"dispatch"]}}"#;

const STEPS: &[(&str, &str)] = &[
    (
        ROLES,
        r#"assume-role Some("Profile"); now Some("Profile"); assume-role Some("Profile"); "#,
    ),
    (
        UNNAMED,
        r#"run Some("Profile"); now Some("Profile"); assume-role Some("Profile"); now Some("Profile"); assume-role Some("Profile"); "#,
    ),
    (
        ROLE,
        r#"now Some("Profile"); assume-role Some("Profile"); "#,
    ),
    (
        PROCESS,
        r#"run Some("Profile"); now Some("Profile"); assume-role Some("Profile"); assume-role Some("Profile"); "#,
    ),
    (
        IDENTITY,
        r#"now Some("WebIdentityToken"); read Some("WebIdentityToken"); web-identity Some("WebIdentityToken"); "#,
    ),
    (
        CONTAINER,
        r#"read Some("EcsContainer"); lookup Some("EcsContainer"); http Some("EcsContainer"); http Some("EcsContainer"); http Some("EcsContainer"); "#,
    ),
    (
        SESSION,
        r#"now Some("Profile"); read Some("Profile"); now Some("Profile"); create-token Some("Profile"); write Some("Profile"); role-credentials Some("Profile"); "#,
    ),
    (
        "{}",
        r#"now Some("Ec2InstanceMetadata"); imds-token Some("Ec2InstanceMetadata"); now Some("Ec2InstanceMetadata"); "#,
    ),
];

#[test]
fn steps_of_runs(rt: HostRuntime) -> Result<(), Fail> {
    for (script, want) in STEPS {
        let steps = steps_of(rt.alloc(), script)?;
        assert_eq!(rt; steps.as_str(), *want, "{script}");
    }
    Ok(())
}

// What is kept where a run is given up behind so many receipts.
fn left_by_run(alloc: Global, setup: Setup, count: usize) -> Result<Kept, OutOfMemory> {
    let Setup { chain, devices } = setup;
    let mut world = World::new(alloc, devices);
    let kept = chain.new_kept()?;
    let driven = call_by_run(alloc, &chain, kept, &mut world, count)?;
    Ok(driven.into_kept())
}

// What is kept where a call stops behind the receipts of these entries.
fn left_by_call(alloc: Global, setup: Setup, entries: &[Entry]) -> Result<Kept, OutOfMemory> {
    let Setup { chain, devices } = setup;
    let mut answers = Answers::new(receipts(alloc, entries, devices)?);
    let mut kept = chain.new_kept()?;
    let _stop = followed_on(alloc, &chain, &mut kept, &mut answers)?;
    Ok(kept)
}

// What a direct call tells then, over a script's devices from their start, and how many questions it asks.
fn tell_next(alloc: Global, setup: Setup, mut kept: Kept) -> Result<(String, usize), OutOfMemory> {
    let Setup { chain, devices } = setup;
    let mut world = World::new(alloc, devices);
    let words = tell_call(alloc, &chain, &mut kept, &mut world)?;
    Ok((words, world.journal().len()))
}

// What is kept behind so many receipts of a script's call by a run, and by the call that stops there, and the calls
// on these. How many questions is told where they are the same.
fn behind(
    alloc: Global,
    script: &str,
    entries: &[Entry],
    count: usize,
) -> Result<String, ScriptError> {
    let by_run = left_by_run(alloc, set_up(alloc, script)?, count)?;
    let by_call = left_by_call(alloc, set_up(alloc, script)?, entries)?;
    let one = kept_words(alloc, &by_run)?;
    let other = kept_words(alloc, &by_call)?;
    let (next, asked) = tell_next(alloc, set_up(alloc, script)?, by_run)?;
    let (other_next, _) = tell_next(alloc, set_up(alloc, script)?, by_call)?;
    if one == other && next == other_next {
        Ok(format!(in alloc; "{asked} ")?)
    } else {
        Ok(format!(in alloc; "{one} in place of {other}, and {next} in place of {other_next} ")?)
    }
}

// The same behind each beginning of the receipts of the call.
fn behind_each_of(alloc: Global, script: &str, journal: &[Entry]) -> Result<String, ScriptError> {
    let mut words = String::new(alloc);
    for count in 0..=journal.len() {
        let entries = journal.get(..count).unwrap_or(journal);
        words.push_str(behind(alloc, script, entries, count)?.as_str())?;
    }
    Ok(words)
}

fn behind_each(alloc: Global, script: &str) -> Result<String, ScriptError> {
    let mut journal = Vec::new(alloc);
    let setup = set_up(alloc, script)?;
    let _answer = whole_call(alloc, setup, &mut journal)?;
    behind_each_of(alloc, script, journal.as_slice())
}

// A token is kept, and need not be asked again, from the receipt on that finishes its holding.
const BEHIND: &[(&str, &str)] = &[
    (ROLE, "2 2 2 "),
    (CONTAINER, "5 5 5 5 5 5 "),
    (TOKEN, "7 7 7 5 5 5 5 5 "),
    (METADATA, "10 10 10 10 10 10 10 10 10 10 10 "),
    (SESSION, "6 6 6 6 6 2 2 "),
    (SIGN_IN, "6 6 6 6 6 2 2 "),
];

#[test]
fn what_is_kept_behind_each_receipt(rt: HostRuntime) -> Result<(), Fail> {
    for (script, want) in BEHIND {
        let words = behind_each(rt.alloc(), script)?;
        assert_eq!(rt; words.as_str(), *want, "{script}");
    }
    Ok(())
}
