//! Names for the sessions of a role.
ghost use Rattle.std.specs.Prelude.{◌≡◌, IfOk};
ghost use Rattle.cfg_world.specs.Follows.{Follows};
ghost use Rattle.cfg_providers.specs.SessionNames.{default_session_name as default_name, session_name as session_name_of};

use cfg_types::{Instant, OutOfMemory, Text, TryCopy};
use cfg_world::{Asking, Stop, read_clock};
use std::alloc::Global;
use std::string::ToString;

/// A name for a session: the base, a hyphen, and the whole milliseconds from the epoch to now, in
/// decimal digits. `OutOfMemory` where memory runs out.
pub fn default_session_name(alloc: Global, base: &str, now: Instant) -> Result<Text, OutOfMemory>
    ensures { IfOk result (λ name. name ≡ default_name base.now now) }
{
    let mut name = String::from_str(alloc, base)?;
    name.push_str("-")?;
    let digits = now.millis().to_string(alloc)?;
    name.push_str(digits.as_str())?;
    Ok(Text::from_string(name))
}

/// The name of a session that was given, or one made from a reading of the clock. It stops with `Open` at a
/// reading that is left open, and with `OutOfMemory` where memory runs out.
#[tactic(auto, using(cfg_world::proofs::Inquiries::asking_steps), unfolding(crate::specs::SessionNames::session_name))]
pub fn session_name<A: Asking>(
    alloc: Global,
    base: &str,
    given: &Option<Text>,
    asking: &mut A,
) -> Result<Text, Stop>
    ensures { Follows ⟦<A as Asking>⟧ (session_name_of base.now given.now) asking.old asking.new result }
{
    match given {
        Some(name) => {
            let name = name.copy(alloc)?;
            Ok(name)
        }
        None => {
            let now = read_clock(asking)?;
            let name = default_session_name(alloc, base, now)?;
            Ok(name)
        }
    }
}
