//! What a script gives a chain of bearer tokens, and the words of what it asks and answers.
ghost use Rattle.cfg_world.specs.Script.{AllFit};
ghost use Rattle.cfg_script.specs.Script.{plain};
ghost use Rattle.cfg_script.specs.Devices.{lists_of};

use cfg_profile::{ProfileSet, ProfileSource, ProviderConfig, Section};
use cfg_script::{Script, ScriptError, ScriptProfiles, read_script};
use cfg_types::{Env, EnvText, OutOfMemory, Outcome, Request, Token, TokenError};
use cfg_world::{Entry, Question, ScriptDevices, World};
use std::alloc::{AllocError, Global};

/// A configuration, and devices for its calls.
pub(crate) struct Setup {
    pub(crate) config: ProviderConfig,
    pub(crate) devices: ScriptDevices,
}

fn sections(
    alloc: Global,
    given: Vec<(String, Vec<(String, String)>)>,
) -> Result<Vec<Section>, OutOfMemory> {
    let mut sections = Vec::new(alloc);
    for (name, properties) in given {
        sections.push(Section::of(name, properties))?;
    }
    Ok(sections)
}

fn source(alloc: Global, profiles: ScriptProfiles) -> Result<ProfileSource, OutOfMemory> {
    match profiles {
        ScriptProfiles::Refused(reason) => Ok(ProfileSource::Refused(reason)),
        ScriptProfiles::Sections { profiles, sessions } => {
            let profiles = sections(alloc, profiles)?;
            let sessions = sections(alloc, sessions)?;
            let set = ProfileSet::new(alloc, profiles, sessions, "default")?;
            Ok(ProfileSource::Sections(set))
        }
    }
}

fn configuration(
    alloc: Global,
    variables: Vec<(String, EnvText)>,
    profiles: ScriptProfiles,
) -> Result<ProviderConfig, OutOfMemory> {
    let config = ProviderConfig::empty(alloc)?
        .with_env(Env::new(alloc, variables)?)
        .with_profiles(source(alloc, profiles)?);
    Ok(config)
}

fn set_up_by(alloc: Global, script: Script) -> Result<Setup, OutOfMemory>
    requires { AllFit (lists_of (plain script)) }
{
    let devices = ScriptDevices::new(alloc, script.devices)?;
    let config = configuration(alloc, script.variables, script.profiles)?;
    Ok(Setup { config, devices })
}

/// The configuration of a script, and the devices that it scripts.
pub(crate) fn set_up(alloc: Global, script: &str) -> Result<Setup, ScriptError> {
    let script = read_script(alloc, script.as_bytes())?;
    Ok(set_up_by(alloc, script)?)
}

/// A token's text, or why there is none.
pub(crate) fn token_words(
    alloc: Global,
    outcome: &Outcome<Token, TokenError>,
) -> Result<String, AllocError> {
    match &outcome.answer {
        Ok(token) => {
            let text = token.token();
            format!(in alloc; "={text}")
        }
        Err(error) => format!(in alloc; "{error:?}"),
    }
}

fn kind(question: &Question) -> &'static str {
    match question {
        Question::Now => " now",
        Question::Read { path: _ } => " read",
        Question::Write { path: _, bytes: _ } => " write",
        Question::Send(request) => request_kind(request.get()),
        _ => " another",
    }
}

fn request_kind(request: &Request) -> &'static str {
    match request {
        Request::CreateToken(_) => " create-token",
        Request::MetadataToken(_) => " imds-token",
        Request::MetadataGet(_) => " imds-get",
        _ => " another",
    }
}

fn kinds(alloc: Global, journal: &[Entry]) -> Result<String, AllocError> {
    let mut words = String::new(alloc);
    for entry in journal {
        words.push_str(kind(entry.question()))?;
    }
    Ok(words)
}

/// The kinds of what a world was asked since the last look, in order.
pub(crate) fn asked(alloc: Global, world: &mut World<ScriptDevices>) -> Result<String, AllocError> {
    let words = kinds(alloc, world.journal())?;
    world.clear_journal();
    Ok(words)
}

/// The session `abc`.
pub(crate) const SESSIONS: &str =
    r#""sessions":[["abc",[["sso_region","us-east-1"],["sso_start_url","u"]]]]"#;

/// A file of its token `t`, which expires at 3600.
pub(crate) const FILES: &str =
    r#""files":[["/home/u/.aws/sso/cache/a9993e364706816aba3e25717850c26c9cd0d89d.json","{\"accessToken\":\"t\",\"expiresAt\":\"1970-01-01T01:00:00Z\"}"]]"#;
