//! What sections of a token's state answer over a script, for tokens of every kind.
ghost use Rattle.std.specs.Prelude.{◌≡◌, true, IfOk};
ghost use Rattle.cfg_script.specs.Devices.{lists_of};
ghost use Rattle.cfg_script.specs.Script.{plain};
ghost use Rattle.cfg_token.specs.SectionCalls.{section_on};
ghost use Rattle.cfg_token.specs.SsoTokens.{is_sso};
ghost use Rattle.cfg_world.specs.Inquiry.{Begun};
ghost use Rattle.cfg_world.specs.Script.{AllFit};

use cfg_script::{Script, ScriptError, read_script};
use cfg_token::{FileToken, TokenKey, TokenState, finish, next_question, section, section_after};
use cfg_types::{CallSettings, Env, OutOfMemory, Region, Seq, Text, Timeouts, TryCopy};
use cfg_world::{DeviceLists, Question, Receipt, ScriptDevices, World};
use std::alloc::Global;
use std::fmt;

/// Settings that say nothing but three attempts.
pub(crate) fn settings() -> CallSettings {
    CallSettings {
        region: None,
        use_fips: None,
        use_dual_stack: None,
        max_attempts: 3,
        timeouts: Timeouts {
            connect_ms: None,
            read_ms: None,
            operation_ms: None,
            attempt_ms: None,
        },
    }
}

/// The key of the session `abc`.
pub(crate) fn session_key(alloc: Global) -> Result<TokenKey, OutOfMemory>
    ensures { IfOk result (λ key. is_sso key ≡ true) }
{
    let session = Text::of(alloc, "abc")?;
    let region = Region::new(alloc, "us-east-1")?;
    let start_url = Text::of(alloc, "u")?;
    Ok(TokenKey::Sso {
        session,
        region,
        start_url,
    })
}

// What a section answers; the questions and the records so far, the last attempt, and whether a token is
// kept then.
fn section_words<T: FileToken + fmt::Debug>(
    alloc: Global,
    state: &mut TokenState<T>,
    env: &Env,
    world: &mut World<ScriptDevices>,
) -> Result<String, OutOfMemory>
where
    T::Error: fmt::Debug,
    requires { T.rules.is_kind state.old.key ≡ true }
    ensures { state.new.key ≡ state.old.key }
{
    let answer = section(state, env, &settings(), world);
    let asked = world.journal().len();
    let records = state.records().len();
    let last = state.last_attempt();
    let kept = state.kept().is_some();
    Ok(format!(in alloc; "{answer:?} {asked} {records} {last:?} {kept}")?)
}

// A section, and one more on the state that was trimmed.
fn two_sections<T: FileToken + fmt::Debug>(
    alloc: Global,
    state: &mut TokenState<T>,
    env: &Env,
    lists: DeviceLists,
) -> Result<String, OutOfMemory>
where
    T::Error: fmt::Debug,
    requires kind { T.rules.is_kind state.old.key ≡ true }
    requires fit { AllFit lists }
{
    let mut world = World::new(alloc, ScriptDevices::new(alloc, lists)?);
    let first = section_words(alloc, state, env, &mut world)?;
    state.trim();
    let second = section_words(alloc, state, env, &mut world)?;
    Ok(format!(in alloc; "{first}; {second}")?)
}

// The receipts of a section of this state over this world: those of its first three questions, or of all
// where it has fewer.
#[tactic(auto, using(crate::proofs::Answered::answered_steps))]
fn receipts_of<T: FileToken>(
    alloc: Global,
    state: &TokenState<T>,
    env: &Env,
    settings: &CallSettings,
    world: &mut World<ScriptDevices>,
) -> Result<Seq<Receipt>, OutOfMemory>
    requires { T.rules.is_kind state.now.key ≡ true }
    ensures { IfOk result (Begun (section_on T.rules state.now.key state.now.loads env.now settings.now)) }
{
    let mut receipts = Seq::of(Vec::new(alloc));
    for _ in 0..3 {
        let Some(question) = next_question(state, env, settings, receipts.as_slice())? else {
            return Ok(receipts);
        };
        receipts.push(world.ask(question)?)?;
    }
    Ok(receipts)
}

// A section over its receipts: what it asks before the first of them and behind the last, what they come
// to, the records, and the last attempt.
#[tactic(auto, using(crate::proofs::Answered::answered_steps))]
fn polled_words<T: FileToken + fmt::Debug>(
    alloc: Global,
    state: &mut TokenState<T>,
    env: &Env,
    world: &mut World<ScriptDevices>,
) -> Result<String, OutOfMemory>
where
    T::Error: fmt::Debug,
    requires { T.rules.is_kind state.old.key ≡ true }
    ensures { state.new.key ≡ state.old.key }
{
    let settings = settings();
    let first = next_question(state, env, &settings, &[])?;
    let receipts = receipts_of(alloc, state, env, &settings, world)?;
    match next_question(state, env, &settings, receipts.as_slice())? {
        Some(next) => Ok(format!(in alloc; "{first:?} Some({next:?})")?),
        None => {
            let given = finish(state, env, &settings, receipts);
            let records = state.records().len();
            let last = state.last_attempt();
            Ok(format!(in alloc; "{first:?} None {given:?} {records} {last:?}")?)
        }
    }
}

// A section whose first reading was asked for before.
fn words_after<T: FileToken + fmt::Debug>(
    alloc: Global,
    state: &mut TokenState<T>,
    env: &Env,
    world: &mut World<ScriptDevices>,
) -> Result<String, OutOfMemory>
where
    T::Error: fmt::Debug,
    requires { T.rules.is_kind state.old.key ≡ true }
{
    let first = world.ask(Question::Now)?;
    let answer = section_after(state, first, env, &settings(), world);
    let asked = world.journal().len();
    let records = state.records().len();
    Ok(format!(in alloc; "{answer:?} {asked} {records}")?)
}

// A section over its receipts, and on a copy of the state after it a section whose first reading was asked
// for before.
fn polled_by<T: FileToken + fmt::Debug>(
    alloc: Global,
    state: &mut TokenState<T>,
    script: Script,
) -> Result<String, OutOfMemory>
where
    T::Error: fmt::Debug,
    requires kind { T.rules.is_kind state.old.key ≡ true }
    requires fit { AllFit (lists_of (plain script)) }
{
    let env = Env::new(alloc, script.variables)?;
    let mut world = World::new(alloc, ScriptDevices::new(alloc, script.devices)?);
    let polled = polled_words(alloc, state, &env, &mut world)?;
    let mut copy = state.copy(alloc)?;
    let after = words_after(alloc, &mut copy, &env, &mut world)?;
    Ok(format!(in alloc; "{polled}; {after}")?)
}

fn sections_by<T: FileToken + fmt::Debug>(
    alloc: Global,
    state: &mut TokenState<T>,
    script: Script,
) -> Result<String, OutOfMemory>
where
    T::Error: fmt::Debug,
    requires kind { T.rules.is_kind state.old.key ≡ true }
    requires fit { AllFit (lists_of (plain script)) }
{
    let env = Env::new(alloc, script.variables)?;
    two_sections(alloc, state, &env, script.devices)
}

/// What two sections of this state answer over the script, the state trimmed between them.
pub(crate) fn sections<T: FileToken + fmt::Debug>(
    alloc: Global,
    state: &mut TokenState<T>,
    script: &str,
) -> Result<String, ScriptError>
where
    T::Error: fmt::Debug,
    requires { T.rules.is_kind state.old.key ≡ true }
{
    let script = read_script(alloc, script.as_bytes())?;
    Ok(sections_by(alloc, state, script)?)
}

/// What a section over its receipts comes to on this state and this script, and a section after it.
pub(crate) fn polled<T: FileToken + fmt::Debug>(
    alloc: Global,
    state: &mut TokenState<T>,
    script: &str,
) -> Result<String, ScriptError>
where
    T::Error: fmt::Debug,
    requires { T.rules.is_kind state.old.key ≡ true }
{
    let script = read_script(alloc, script.as_bytes())?;
    Ok(polled_by(alloc, state, script)?)
}
