//! The members of a script, a row each: the settings, and the lists of the devices.
ghost use Rattle.std.specs.Prelude.{◌≡◌, true, map, option_map, unwrap_or};
ghost use Rattle.cfg_script.specs.Settings.{no_queues, lists_in, profiles_of, plain_in};
ghost use Rattle.cfg_script.specs.Script.{plain, plain_profiles, section_bytes};

use crate::fault::{FormError, Wanted};
use crate::form::{Form, read_pair};
use crate::member_names::{
    AssumeRole, Calls, Clock, Commands, CreateToken, Files, Http, ImdsGet, ImdsToken, Jitter,
    Lookups, Profiles, Refused, Region, Replies, RoleCredentials, Selected, Sessions, SignIn,
    Sleep, Unwritable, Variables, WebIdentity,
};
use crate::members::{ListOf, Member, Name, Optional};
use crate::moments::ClockMoment;
use crate::object::{Object, read_object};
use crate::replies::{Command, HttpSent, LookUp, Role, Sent, SignsIn, Sts, Tokens};
use crate::scalars::{Boolean, CallCount, ContentOrNull, KeyText, UnsignedInteger, ValueText};
use crate::script::{Script, ScriptProfiles};
use crate::sections::{Section, Variable};
use crate::service::ServiceSettings;
use cfg_types::{Bytes, Seq, Text};
use cfg_world::DeviceLists;
use serde_json::Value;
use std::alloc::Global;

/// A file's path and its content.
pub(crate) struct File;

impl Form for File {
    ghost use Rattle.std.specs.Prelude.{List, ℕ, Option};
    ghost use Rattle.cfg_script.specs.Settings.{file};

    type Read = (Text, Option<Bytes>);

    ghost Plain = { List ℕ × Option (List ℕ) };

    ghost seen = { λ f. f };

    ghost form = { file };

    fn read(alloc: Global, value: Value) -> Result<(Text, Option<Bytes>), FormError> {
        read_pair::<ValueText, ContentOrNull>(alloc, Wanted::File, value)
    }
}

type QueueMembers = (
    ListOf<Http, HttpSent>,
    (
        ListOf<ImdsToken, HttpSent>,
        (
            ListOf<ImdsGet, HttpSent>,
            (
                ListOf<AssumeRole, Sent<Sts>>,
                (
                    ListOf<WebIdentity, Sent<Sts>>,
                    (
                        ListOf<RoleCredentials, Sent<Role>>,
                        (
                            ListOf<CreateToken, Sent<Tokens>>,
                            (ListOf<SignIn, Sent<SignsIn>>, ()),
                        ),
                    ),
                ),
            ),
        ),
    ),
);

// No list has an item.
fn no_replies(alloc: Global) -> <QueueMembers as Object>::Read
    ensures { ⟦<QueueMembers as Object>⟧.seen result ≡ no_queues }
{
    let services = (
        Vec::new(alloc),
        (Vec::new(alloc), (Vec::new(alloc), (Vec::new(alloc), ()))),
    );
    (
        Vec::new(alloc),
        (
            Vec::new(alloc),
            (Vec::new(alloc), (Vec::new(alloc), services)),
        ),
    )
}

/// The lists of replies, without items where the member is missing.
pub(crate) struct ReplyLists;

impl Member for ReplyLists {
    ghost use Rattle.std.specs.Prelude.{codes};
    ghost use Rattle.cfg_script.specs.Objects.{member_or};
    ghost use Rattle.cfg_script.specs.Settings.{Queues, no_queues, replies};

    type Read = <QueueMembers as Object>::Read;

    ghost Plain = { Queues };

    ghost seen = { ⟦<QueueMembers as Object>⟧.seen };

    ghost member_form = { member_or (codes "replies") no_queues replies };

    fn name() -> &'static str {
        Replies::name()
    }

    fn read(
        alloc: Global,
        member: Option<Value>,
    ) -> Result<<QueueMembers as Object>::Read, FormError> {
        match member {
            Some(value) => read_object::<QueueMembers>(alloc, Wanted::Replies, value),
            None => Ok(no_replies(alloc)),
        }
    }
}

type DeviceMembers = (
    ListOf<Files, File>,
    (
        ListOf<Unwritable, ValueText>,
        (
            ListOf<Clock, ClockMoment>,
            (
                ListOf<Jitter, UnsignedInteger>,
                (
                    ListOf<Commands, Command>,
                    (ListOf<Lookups, LookUp>, (ReplyLists, ())),
                ),
            ),
        ),
    ),
);

// Each list in its place.
#[tactic(auto, unfolding(crate::specs::Settings::lists_in))]
fn lists(rows: <DeviceMembers as Object>::Read) -> DeviceLists
    ensures { result ≡ lists_in (⟦<DeviceMembers as Object>⟧.seen rows) }
{
    let (files, (unwritable, (clock, (jitter, (commands, (lookups, (queues, ()))))))) = rows;
    let (http, (imds_token, (imds_get, (assume_role, queues)))) = queues;
    let (web_identity, (role_credentials, (create_token, (sign_in, ())))) = queues;
    DeviceLists {
        files: Seq::of(files),
        unwritable: Seq::of(unwritable),
        clock: Seq::of(clock),
        jitter: Seq::of(jitter),
        commands: Seq::of(commands),
        lookups: Seq::of(lookups),
        http: Seq::of(http),
        imds_token: Seq::of(imds_token),
        imds_get: Seq::of(imds_get),
        assume_role: Seq::of(assume_role),
        web_identity: Seq::of(web_identity),
        role_credentials: Seq::of(role_credentials),
        create_token: Seq::of(create_token),
        sign_in: Seq::of(sign_in),
    }
}

// A type of its own, since the way to a bound of pairs doubles with each pair.
/// The members of the lists in their places.
#[derive(Drop)]
pub(crate) struct DevicePlaces {
    lists: <DeviceMembers as Object>::Places,
}

/// The lists of the devices.
pub(crate) struct Devices;

impl Object for Devices {
    ghost use Rattle.std.specs.Prelude.{Ok};
    ghost use Rattle.cfg_base.specs.Gives.{◌>>=◌};
    ghost use Rattle.cfg_world.specs.declared.script.DeviceLists.{DeviceLists};
    ghost use Rattle.cfg_script.specs.Settings.{lists_in, devices};

    type Read = DeviceLists;

    type Places = DevicePlaces;

    ghost Plain = { DeviceLists };

    ghost seen = { λ lists. lists };

    ghost object_form = { devices };

    ghost read_on = { λ places ms. ⟦<DeviceMembers as Object>⟧.read_on places.lists ms >>= λ rows. Ok (lists_in rows) };

    fn empty() -> DevicePlaces {
        DevicePlaces {
            lists: DeviceMembers::empty(),
        }
    }

    fn put(places: &mut DevicePlaces, name: &str, value: Value) -> bool {
        DeviceMembers::put(&mut places.lists, name, value)
    }

    fn read_places(alloc: Global, places: DevicePlaces) -> Result<DeviceLists, FormError> {
        let rows = DeviceMembers::read_places(alloc, places.lists)?;
        Ok(lists(rows))
    }
}

/// What one call is configured with, and other members behind that.
pub(crate) type ConfigurationMembers<O> = (
    ListOf<Variables, Variable>,
    (
        ListOf<Profiles, Section>,
        (
            ListOf<Sessions, Section>,
            (
                Optional<Refused, ValueText>,
                (
                    Optional<Selected, KeyText>,
                    (
                        Optional<Region, KeyText>,
                        (Optional<Sleep, Boolean>, (ServiceSettings, O)),
                    ),
                ),
            ),
        ),
    ),
);

/// The settings of a script, and other members behind them.
pub(crate) type SettingMembers<O> = ConfigurationMembers<(Optional<Calls, CallCount>, O)>;

/// All members of a script: the settings, and the lists of the devices.
pub(crate) type ScriptMembers = SettingMembers<Devices>;

/// Sections, unless they are refused.
pub(crate) fn profiles_by(
    refused: Option<Text>,
    profiles: Vec<(String, Vec<(String, String)>)>,
    sessions: Vec<(String, Vec<(String, String)>)>,
) -> ScriptProfiles
    ensures { plain_profiles result ≡ profiles_of (option_map (λ t. t) refused) (map section_bytes profiles.items) (map section_bytes sessions.items) }
{
    match refused {
        Some(message) => ScriptProfiles::Refused(message),
        None => ScriptProfiles::Sections { profiles, sessions },
    }
}

/// Whether providers may sleep: true, where nothing is said.
pub(crate) fn is_to_sleep(sleep: Option<bool>) -> bool
    ensures { result ≡ unwrap_or (option_map (λ b. b) sleep) true }
{
    match sleep {
        Some(sleep) => sleep,
        None => true,
    }
}

/// How many calls are made: one, where nothing is said.
pub(crate) fn call_count(calls: Option<u64>) -> u64
    ensures { result ≡ unwrap_or (option_map (λ n. n) calls) 1 }
{
    match calls {
        Some(calls) => calls,
        None => 1,
    }
}

// Each member in its place.
#[tactic(auto, unfolding(crate::specs::Settings::plain_in))]
fn script_by(rows: <ScriptMembers as Object>::Read) -> Script
    ensures { plain result ≡ plain_in (⟦<ScriptMembers as Object>⟧.seen rows) }
{
    let (variables, (profiles, (sessions, (refused, rows)))) = rows;
    let (selected, (region, (sleep, (service, (calls, devices))))) = rows;
    let profiles = profiles_by(refused, profiles, sessions);
    let sleep = is_to_sleep(sleep);
    let calls = call_count(calls);
    Script {
        variables,
        profiles,
        selected,
        region,
        sleep,
        service,
        calls,
        devices,
    }
}

/// A script.
pub(crate) struct WholeScript;

impl Object for WholeScript {
    ghost use Rattle.std.specs.Prelude.{Ok};
    ghost use Rattle.cfg_base.specs.Gives.{◌>>=◌};
    ghost use Rattle.cfg_script.specs.Script.{Plain as PlainScript, plain};
    ghost use Rattle.cfg_script.specs.Settings.{plain_in, script};

    type Read = Script;

    type Places = <ScriptMembers as Object>::Places;

    ghost Plain = { PlainScript };

    ghost seen = { plain };

    ghost object_form = { script };

    ghost read_on = { λ places ms. ⟦<ScriptMembers as Object>⟧.read_on places ms >>= λ rows. Ok (plain_in rows) };

    fn empty() -> <ScriptMembers as Object>::Places {
        ScriptMembers::empty()
    }

    fn put(places: &mut <ScriptMembers as Object>::Places, name: &str, value: Value) -> bool {
        ScriptMembers::put(places, name, value)
    }

    fn read_places(
        alloc: Global,
        places: <ScriptMembers as Object>::Places,
    ) -> Result<Script, FormError> {
        let rows = ScriptMembers::read_places(alloc, places)?;
        Ok(script_by(rows))
    }
}
