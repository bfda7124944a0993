//! A section at a gate.
ghost use Rattle.std.specs.Prelude.{◌≡◌, ◌↔◌, ◌+◌, ◌-◌, ◌<◌, ◌≤◌, ℕ, None, Err, true};
ghost use Rattle.cfg_gate.specs.GatedSections.{IsTurn, AnswersTurn};
ghost use Rattle.cfg_gate.specs.GateErrors.{by_token};
ghost use Rattle.cfg_gate.specs.declared.answer.GateError.TheVariants.{Spent};

use crate::answer::{GateAnswer, GateError};
use crate::gate::{Gate, Pass};
use crate::sections::counted_section;
use crate::turns::{Taken, end_turn, take_turn};
use cfg_token::SharedAnswer;
use cfg_token::file_token::FileToken;
use cfg_types::{CallSettings, Env};
use cfg_world::{Asking, Devices, World};
use std::sync::Wait;

fn by_token<T: FileToken>(answer: Result<T, T::Error>) -> Result<T, GateError<T>>
    ensures { result ≡ by_token answer }
{
    match answer {
        Ok(token) => Ok(token),
        Err(error) => Err(GateError::Token(error)),
    }
}

impl<T: FileToken> Pass<T> {
    /// One section of the gate's token, as [`cfg_token::section`] is one, once this caller's turn comes. It takes 1
    /// from the allowance. What it found has at least as many loads as the pass had seen; afterwards the pass has
    /// seen these, and the section's own.
    ///
    /// # Errors
    ///
    /// `Spent` exactly where the pass has no allowance. Nothing is then asked or waited for, nothing found is told,
    /// `found` is what the pass has seen, and the pass stays as it was. Each other error is the section's. Where
    /// memory runs out the gate's state is as it was.
    pub fn section<R: Wait, D: Devices>(
        &mut self,
        rt: &R,
        gate: &Gate<T>,
        env: &Env,
        settings: &CallSettings,
        world: &mut World<D>,
    ) -> GateAnswer<T>
        requires of { self.old.place.table_id ≡ gate.now.table.shared.table_id }
        requires kind { T.rules.is_kind gate.now.key ≡ true }
        ensures of { self.new.place.table_id ≡ self.old.place.table_id }
        ensures spent { (result.outcome ≡ Err Spent) ↔ (self.old.allowance ≡ 0) }
        ensures stays { self.old.allowance ≡ 0 → (self.new ≡ self.old) × (world.new ≡ world.old) }
        ensures nothing { self.old.allowance ≡ 0 → (result.kept ≡ None) × (result.last ≡ None) × (result.found ≡ self.old.seen) }
        ensures fresh { self.old.seen ≤ result.found }
        ensures left { self.new.allowance ≡ self.old.allowance - 1 }
        ensures turn { 0 < self.old.allowance → IsTurn T.rules ⟦<World<D> as Asking>⟧ gate.now.key env.now settings.now world.old world.new
            result.kept result.last result.found self.new.seen result.outcome }
    {
        if self.allowance == 0 {
            return GateAnswer {
                outcome: Err(GateError::Spent),
                kept: None,
                last: None,
                found: self.seen,
            };
        }
        let (answer, found) = self.take_turn(rt, gate, env, settings, world);
        GateAnswer {
            outcome: by_token(answer.outcome),
            kept: answer.kept,
            last: answer.last,
            found,
        }
    }

    /// A section of a pass that has an allowance, and how many loads it found.
    pub(crate) fn take_turn<R: Wait, D: Devices>(
        &mut self,
        rt: &R,
        gate: &Gate<T>,
        env: &Env,
        settings: &CallSettings,
        world: &mut World<D>,
    ) -> (SharedAnswer<T>, u64)
        requires of { self.old.place.table_id ≡ gate.now.table.shared.table_id }
        requires kind { T.rules.is_kind gate.now.key ≡ true }
        requires left { 0 < self.old.allowance }
        ensures of { self.new.place.table_id ≡ self.old.place.table_id }
        ensures fresh { self.old.seen ≤ result.1 }
        ensures left { self.new.allowance ≡ self.old.allowance - 1 }
        ensures turn { AnswersTurn T.rules ⟦<World<D> as Asking>⟧ gate.now.key env.now settings.now world.old world.new
            result.0.kept result.0.last result.1 self.new.seen result.0.outcome }
    {
        let board = &gate.table.shared;
        let Taken {
            state,
            ticket,
            loads: found,
        } = take_turn(rt, board, &mut self.place);
        let (state, answer, made) = counted_section(state, found, &gate.key, env, settings, world);
        end_turn(board, &mut self.place, ticket, made, state);
        self.allowance -= 1;
        self.seen = found + made;
        (answer, found)
    }
}
