//! The first line: what the call is configured with.
ghost use Rattle.std.specs.Prelude.{◌≡◌, IfOk, MatchResult};
ghost use Rattle.cfg_script.specs.Script.{plain};
ghost use Rattle.cfg_script.specs.Reading.{fault_of, reason_of};
ghost use Rattle.cfg_drive.specs.Configured.{has_no_answers as has_no_answers_in, has_no_replies as has_no_replies_in, IsConfiguration, Misconfigures};

use crate::driven::{Cause, Stopped, broken_at};
use cfg_script::{Script, ScriptError, ScriptFault, find_fault, read_script};
use cfg_types::OutOfMemory;
use cfg_world::DeviceLists;
use std::alloc::Global;
use std::fmt;

/// The number of the line.
pub(crate) const FIRST: u64 = 1;

/// Why a line is no configuration.
#[derive(Drop)]
pub enum NoConfiguration {
    /// It is no script, for this fault.
    NoScript(ScriptFault),
    /// It has lists of answers.
    HasAnswers,
    /// It makes several calls.
    SeveralCalls,
}

impl fmt::Display for NoConfiguration {
    ghost use Rattle.cfg_drive.specs.BrokenTexts.{no_configuration_text};

    ghost output = { no_configuration_text };

    fn fmt<W: fmt::Write>(&self, f: &mut fmt::Formatter<W>) -> fmt::Result {
        match self {
            NoConfiguration::NoScript(fault) => fault.fmt(f),
            NoConfiguration::HasAnswers => {
                f.write_str("a configuration has no lists of answers")
            }
            NoConfiguration::SeveralCalls => f.write_str("calls: this command makes one call"),
        }
    }
}

/// The script that the line is, where it makes one call and has no answers.
pub(crate) fn script_in(alloc: Global, line: &[u8]) -> Result<Script, Stopped>
    ensures { MatchResult result (λ script. IsConfiguration line.now (plain script)) (λ stopped. Misconfigures line.now stopped) }
{
    let script = match read_script(alloc, line) {
        Ok(script) => script,
        Err(ScriptError::NoScript) => return Err(no_script(fault_in(alloc, line)?)),
        Err(ScriptError::OutOfMemory) => return Err(Stopped::OutOfMemory),
    };
    if !has_no_answers(&script.devices) {
        return Err(misconfigured(NoConfiguration::HasAnswers));
    }
    if script.calls != 1 {
        return Err(misconfigured(NoConfiguration::SeveralCalls));
    }
    Ok(script)
}

fn no_script(fault: ScriptFault) -> Stopped
    ensures { result ≡ Stopped.Broken (record { line = FIRST; cause = Cause.NoConfiguration (NoConfiguration.NoScript fault) }) }
{
    misconfigured(NoConfiguration::NoScript(fault))
}

fn misconfigured(reason: NoConfiguration) -> Stopped
    ensures { result ≡ Stopped.Broken (record { line = FIRST; cause = Cause.NoConfiguration reason }) }
{
    broken_at(FIRST, Cause::NoConfiguration(reason))
}

// Why the line is no script.
fn fault_in(alloc: Global, line: &[u8]) -> Result<ScriptFault, OutOfMemory>
    ensures { IfOk result (λ fault. fault_of line.now ≡ Some (reason_of fault)) }
{
    match find_fault(alloc, line)? {
        Some(fault) => Ok(fault),
        // It was read as no script, so that it has a fault.
        None => Err(OutOfMemory),
    }
}

#[tactic(auto, unfolding(crate::specs::Configured::has_no_answers))]
fn has_no_answers(lists: &DeviceLists) -> bool
    ensures { result ≡ has_no_answers_in lists.now }
{
    lists.files.as_slice().is_empty()
        && lists.unwritable.as_slice().is_empty()
        && lists.clock.as_slice().is_empty()
        && lists.jitter.as_slice().is_empty()
        && lists.commands.as_slice().is_empty()
        && lists.lookups.as_slice().is_empty()
        && has_no_replies(lists)
}

#[tactic(auto, unfolding(crate::specs::Configured::has_no_replies))]
fn has_no_replies(lists: &DeviceLists) -> bool
    ensures { result ≡ has_no_replies_in lists.now }
{
    lists.http.as_slice().is_empty()
        && lists.imds_token.as_slice().is_empty()
        && lists.imds_get.as_slice().is_empty()
        && lists.assume_role.as_slice().is_empty()
        && lists.web_identity.as_slice().is_empty()
        && lists.role_credentials.as_slice().is_empty()
        && lists.create_token.as_slice().is_empty()
        && lists.sign_in.as_slice().is_empty()
}
