//! What a script says, and why bytes are no script.
ghost use Rattle.std.specs.Prelude.{◌≡◌};
ghost use Rattle.cfg_script.specs.declared.script.ScriptError.TheVariants as error;

use crate::service::ServiceConfig;
use cfg_types::{EnvText, OutOfMemory, Text};
use cfg_world::{Answer, DeviceLists};
use std::alloc::{AllocError, AllocFailed};

/// The sections of profile files, or the message that they are refused with.
#[derive(Drop)]
pub enum ScriptProfiles {
    /// The sections, in the script's order.
    Sections {
        /// Profile sections, each a name and its properties, which are keys with values.
        profiles: Vec<(String, Vec<(String, String)>)>,
        /// Sections of sessions, in the same form.
        sessions: Vec<(String, Vec<(String, String)>)>,
    },
    /// The message that they are refused with.
    Refused(Text),
}

/// What a script says. Members that are missing are empty lists, or none; `sleep` is true without one,
/// `service` sets nothing, and `calls` is 1.
#[derive(Drop)]
pub struct Script {
    /// Environment variables, in the script's order.
    pub variables: Vec<(String, EnvText)>,
    /// The sections of profile files, or that they are refused.
    pub profiles: ScriptProfiles,
    /// The selected profile's name, whatever the environment says. None leaves it to the environment.
    pub selected: Option<String>,
    /// The region of the calls that are sent, if they have one.
    pub region: Option<String>,
    /// Whether providers may sleep between attempts.
    pub sleep: bool,
    /// How calls are sent.
    pub service: ServiceConfig,
    /// How many calls are made, from 1 to 100.
    pub calls: u64,
    /// What the devices answer.
    pub devices: DeviceLists,
}

/// What a script of several callers says: settings as a [`Script`] has them, and what each caller's own devices answer.
#[derive(Drop)]
pub struct ShareScript {
    /// Environment variables, in the script's order.
    pub variables: Vec<(String, EnvText)>,
    /// The sections of profile files, or that they are refused.
    pub profiles: ScriptProfiles,
    /// The selected profile's name, whatever the environment says. None leaves it to the environment.
    pub selected: Option<String>,
    /// The region of the calls that are sent, if they have one.
    pub region: Option<String>,
    /// Whether providers may sleep between attempts.
    pub sleep: bool,
    /// How calls are sent.
    pub service: ServiceConfig,
    /// How many calls are made, from 1 to 100.
    pub calls: u64,
    /// What the devices of each caller answer, from 1 to 16 of them.
    pub callers: Vec<DeviceLists>,
}

/// What a script of an audit says: what one call is configured with, as a [`Script`] has it, and a journal.
#[derive(Drop)]
pub struct AuditScript {
    /// Environment variables, in the script's order.
    pub variables: Vec<(String, EnvText)>,
    /// The sections of profile files, or that they are refused.
    pub profiles: ScriptProfiles,
    /// The selected profile's name, whatever the environment says. None leaves it to the environment.
    pub selected: Option<String>,
    /// The region of the calls that are sent, if they have one.
    pub region: Option<String>,
    /// Whether providers may sleep between attempts.
    pub sleep: bool,
    /// How calls are sent.
    pub service: ServiceConfig,
    /// The kind of each question, by its name, and the answer to it, in order.
    pub journal: Vec<(Text, Answer)>,
}

/// Why bytes were not read.
#[derive(Clone, Copy, Debug, PartialEq, Eq)]
pub enum ScriptError {
    /// They are no script.
    NoScript,
    /// Memory ran out.
    OutOfMemory,
}

impl From<AllocError> for ScriptError {
    ghost from_gives = { λ _ e. e ≡ error.OutOfMemory };

    fn from(_: AllocError) -> ScriptError {
        ScriptError::OutOfMemory
    }
}

impl<T: Drop> From<AllocFailed<T>> for ScriptError {
    ghost from_gives = { λ _ e. e ≡ error.OutOfMemory };

    fn from(_: AllocFailed<T>) -> ScriptError {
        ScriptError::OutOfMemory
    }
}

impl From<OutOfMemory> for ScriptError {
    ghost from_gives = { λ _ e. e ≡ error.OutOfMemory };

    fn from(_: OutOfMemory) -> ScriptError {
        ScriptError::OutOfMemory
    }
}
