// One section on the loads that were taken, with what it found.
ghost use Rattle.std.specs.Prelude.{◌≡◌, ◌+◌, ◌≤◌, ℕ, length, IfSome, true};
ghost use Rattle.cfg_token.specs.Histories.{IsTokenLoad};
ghost use Rattle.cfg_gate.specs.GatedSections.{AnswersTurn};

use cfg_token::file_token::FileToken;
use cfg_token::loads::{Loads, section_on};
use cfg_token::{Load, SharedAnswer, TokenKey};
use cfg_types::{CallSettings, Env};
use cfg_world::{Asking, Devices, World};

// What the type of a load keeps: it gave a token by its own receipts.
fn carries_receipts<T: FileToken>(load: &Option<Load<T>>)
    ensures { IfSome load.now (IsTokenLoad T.rules) }
{
    if let Some(load) = load {
        let _record = load.loaded_by();
    }
}

// One section on these loads, and a copy of what it found, made before it changes anything.
fn section_found<T: FileToken, D: Devices>(
    loads: &mut Loads<T>,
    key: &TokenKey,
    env: &Env,
    settings: &CallSettings,
    world: &mut World<D>,
) -> SharedAnswer<T>
    requires { T.rules.is_kind key.now ≡ true }
    ensures turn { AnswersTurn T.rules ⟦<World<D> as Asking>⟧ key.now env.now settings.now world.old world.new
        result.kept result.last (length loads.old.records) (length loads.new.records) result.outcome }
    ensures most { (length loads.old.records ≤ length loads.new.records) × (length loads.new.records ≤ length loads.old.records + 1) }
{
    let _records = loads.records();
    let last = loads.last_attempt();
    let Ok(kept) = loads.load() else {
        return SharedAnswer {
            outcome: Err(T::out_of_memory()),
            kept: None,
            last,
        };
    };
    carries_receipts(&kept);
    let outcome = section_on(loads, key, env, settings, world);
    SharedAnswer {
        outcome,
        kept,
        last,
    }
}

// The same on loads that are handed in and back, of which there are so many, with the number of those that it made.
pub(crate) fn counted_section<T: FileToken, D: Devices>(
    mut loads: Loads<T>,
    found: u64,
    key: &TokenKey,
    env: &Env,
    settings: &CallSettings,
    world: &mut World<D>,
) -> (Loads<T>, SharedAnswer<T>, u64)
    requires kind { T.rules.is_kind key.now ≡ true }
    requires found { found ≡ length loads.records }
    ensures turn { AnswersTurn T.rules ⟦<World<D> as Asking>⟧ key.now env.now settings.now world.old world.new
        result.1.kept result.1.last found (found + result.2) result.1.outcome }
    ensures loads { length result.0.records ≡ found + result.2 }
    ensures most { result.2 ≤ 1 }
{
    let answer = section_found(&mut loads, key, env, settings, world);
    let made = loads.records().len() as u64 - found;
    (loads, answer, made)
}
