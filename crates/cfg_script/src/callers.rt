//! The members of a script of several callers: the settings, and the lists of each caller's devices.
ghost use Rattle.std.specs.Prelude.{◌≡◌, option_map};
ghost use Rattle.cfg_script.specs.Script.{plain_share};
ghost use Rattle.cfg_script.specs.Shares.{counted_callers, share_in};

use crate::fault::{FormError, Wanted, wanting};
use crate::form::{Form, read_list};
use crate::member_names::Callers;
use crate::members::Required;
use crate::object::{Object, read_object};
use crate::script::ShareScript;
use crate::settings::{Devices, SettingMembers, call_count, is_to_sleep, profiles_by};
use cfg_world::DeviceLists;
use serde_json::Value;
use std::alloc::Global;

/// The lists of one caller's devices.
pub(crate) struct Caller;

impl Form for Caller {
    ghost use Rattle.cfg_world.specs.declared.script.DeviceLists.{DeviceLists};
    ghost use Rattle.cfg_script.specs.Shares.{caller};

    type Read = DeviceLists;

    ghost Plain = { DeviceLists };

    ghost seen = { λ lists. lists };

    ghost form = { caller };

    fn read(alloc: Global, value: Value) -> Result<DeviceLists, FormError> {
        read_object::<Devices>(alloc, Wanted::Caller, value)
    }
}

// The most callers.
const MOST_CALLERS: usize = 16;

// So many of them as there may be.
#[tactic(auto, unfolding(crate::specs::Shares::counted_callers))]
fn counted(callers: Vec<DeviceLists>) -> Option<Vec<DeviceLists>>
    ensures { option_map (λ v. v.items) result ≡ counted_callers callers.items }
{
    if callers.is_empty() || MOST_CALLERS < callers.len() {
        None
    } else {
        Some(callers)
    }
}

/// The callers, each by the lists of its devices.
pub(crate) struct CallerLists;

impl Form for CallerLists {
    ghost use Rattle.std.specs.Prelude.{List};
    ghost use Rattle.cfg_world.specs.declared.script.DeviceLists.{DeviceLists};
    ghost use Rattle.cfg_script.specs.Shares.{callers};

    type Read = Vec<DeviceLists>;

    ghost Plain = { List DeviceLists };

    ghost seen = { λ v. v.items };

    ghost form = { callers };

    fn read(alloc: Global, value: Value) -> Result<Vec<DeviceLists>, FormError> {
        let callers = read_list::<Caller>(alloc, Wanted::Callers, value)?;
        wanting(alloc, Wanted::Callers, counted(callers))
    }
}

type ShareMembers = SettingMembers<(Required<Callers, CallerLists>, ())>;

// Each member in its place.
#[tactic(auto, unfolding(crate::specs::Shares::share_in))]
fn share_by(rows: <ShareMembers as Object>::Read) -> ShareScript
    ensures { plain_share result ≡ share_in (⟦<ShareMembers as Object>⟧.seen rows) }
{
    let (variables, (profiles, (sessions, (refused, rows)))) = rows;
    let (selected, (region, (sleep, (service, (calls, (callers, ())))))) = rows;
    let profiles = profiles_by(refused, profiles, sessions);
    let sleep = is_to_sleep(sleep);
    let calls = call_count(calls);
    ShareScript {
        variables,
        profiles,
        selected,
        region,
        sleep,
        service,
        calls,
        callers,
    }
}

/// A script of several callers.
pub(crate) struct WholeShare;

impl Object for WholeShare {
    ghost use Rattle.std.specs.Prelude.{Ok};
    ghost use Rattle.cfg_base.specs.Gives.{◌>>=◌};
    ghost use Rattle.cfg_script.specs.Script.{PlainShare, plain_share};
    ghost use Rattle.cfg_script.specs.Shares.{share_in, share};

    type Read = ShareScript;

    type Places = <ShareMembers as Object>::Places;

    ghost Plain = { PlainShare };

    ghost seen = { plain_share };

    ghost object_form = { share };

    ghost read_on = { λ places ms. ⟦<ShareMembers as Object>⟧.read_on places ms >>= λ rows. Ok (share_in rows) };

    fn empty() -> <ShareMembers as Object>::Places {
        ShareMembers::empty()
    }

    fn put(places: &mut <ShareMembers as Object>::Places, name: &str, value: Value) -> bool {
        ShareMembers::put(places, name, value)
    }

    fn read_places(
        alloc: Global,
        places: <ShareMembers as Object>::Places,
    ) -> Result<ShareScript, FormError> {
        let rows = ShareMembers::read_places(alloc, places)?;
        Ok(share_by(rows))
    }
}
