ghost use Rattle.std.specs.Prelude.{◌≡◌, true, IfOk};
ghost use Rattle.std.specs.Option.{option_copied};
ghost use Rattle.cfg_token.specs.Notes.{Notes};
ghost use Rattle.cfg_token.specs.Sections.{section as section_of, by_reading, hit as hit_of};

use crate::decision::outlasts_buffer;
use crate::file_token::FileToken;
use crate::leaves::read_clock;
use crate::loading::{Loaded, load};
use crate::token_key::TokenKey;
use cfg_types::{CallSettings, Env, Instant, OutOfMemory, TryCopy};
use cfg_world::{Asking, Receipt, Stop};
use std::alloc::Global;

/// What a section gave: the kept token, or a load.
#[derive(Drop)]
pub enum Sectioned<T, E> {
    /// A copy of the kept token, of which more than 300 seconds were left.
    Hit(T),
    /// What a load gave, and whether it noted an attempt.
    Load(Loaded<T, E>),
}

/// A copy of the kept token, where more than 300 seconds of it are left at this reading.
/// `OutOfMemory` where memory runs out.
pub fn hit<T: FileToken>(
    alloc: Global,
    kept: Option<&T>,
    reading: Instant,
) -> Result<Option<T>, OutOfMemory>
    ensures { IfOk result (λ token. token ≡ hit_of T.rules (option_copied kept.entry) reading) }
{
    match kept {
        Some(token) if outlasts_buffer(token, reading) => {
            let token = token.copy(alloc)?;
            Ok(Some(token))
        }
        _ => Ok(None),
    }
}

/// The kept token is handed out while more than 300 seconds of it are left, or else a load is made.
/// The receipts of what was asked are added. An error says why it was stopped: memory ran out, or a
/// question was left open.
#[tactic(auto, using(crate::proofs::NotedSteps::noted_steps), unfolding(crate::specs::Sections::section))]
pub fn follow_section<T: FileToken, A: Asking>(
    alloc: Global,
    key: &TokenKey,
    env: &Env,
    settings: &CallSettings,
    kept: Option<&T>,
    last: Option<Instant>,
    asking: &mut A,
    receipts: &mut Vec<Receipt>,
) -> Result<Sectioned<T, T::Error>, Stop>
    requires { T.rules.is_kind key.now ≡ true }
    ensures { Notes ⟦<A as Asking>⟧ (section_of T.rules key.now env.now settings.now (option_copied kept.entry) last)
        asking.old receipts.old.items asking.new receipts.new.items result }
{
    let reading = read_clock(asking, receipts)?;
    follow_reading(
        alloc, key, env, settings, kept, last, reading, asking, receipts,
    )
}

// What follows the first reading.
#[tactic(auto, using(crate::proofs::ReadingSteps::reading_steps))]
fn follow_reading<T: FileToken, A: Asking>(
    alloc: Global,
    key: &TokenKey,
    env: &Env,
    settings: &CallSettings,
    kept: Option<&T>,
    last: Option<Instant>,
    reading: Instant,
    asking: &mut A,
    receipts: &mut Vec<Receipt>,
) -> Result<Sectioned<T, T::Error>, Stop>
    requires { T.rules.is_kind key.now ≡ true }
    ensures { Notes ⟦<A as Asking>⟧ (by_reading T.rules key.now env.now settings.now (option_copied kept.entry) last reading)
        asking.old receipts.old.items asking.new receipts.new.items result }
{
    if let Some(token) = hit(alloc, kept, reading)? {
        return Ok(Sectioned::Hit(token));
    }
    let name = T::file_name(alloc, key.session())?;
    let loaded = load(
        alloc,
        key,
        name.as_str(),
        env,
        settings,
        last,
        asking,
        receipts,
    )?;
    Ok(Sectioned::Load(loaded))
}
