//! One section a thread.
ghost use Rattle.std.specs.Prelude.{◌≡◌, ◌+◌, ◌<◌, ◌≤◌, ◌^◌, ℕ, All, IfOk, true, vec_len, map};
ghost use Rattle.std.specs.List.{AllZip};
ghost use Rattle.cfg_gate.specs.GatedSections.{AnswersTurn};
ghost use Rattle.cfg_gate.specs.Turns.{greatest};
ghost use Rattle.cfg_gate.specs.Worlds.{worlds_of};

use crate::gate::{Gate, Pass, new_gate};
use crate::token::GatedToken;
use cfg_token::SharedAnswer;
use cfg_token::file_token::FileToken;
use cfg_types::{CallSettings, Env, OutOfMemory, Seq};
use cfg_world::{Devices, World};
use std::alloc::{AllocError, Global};
use std::sync::Wait;
use std::thread;
use std::thread::Threads;

/// What one caller came to.
#[derive(Drop)]
pub struct Called<T: FileToken, D: Devices + Drop> {
    /// Its world, whose journal has the section's entries.
    pub world: World<D>,
    /// What the section gave, and the load and the attempt that it found.
    pub answer: SharedAnswer<T>,
    /// How many loads it found.
    pub found: u64,
    /// How many loads the caller had seen then.
    pub seen: u64,
}

/// What callers came to, and how many loads they have seen together: the greatest number that one of their passes, or
/// the first pass, has seen.
#[derive(Drop)]
pub struct GatedCalls<T: FileToken, D: Devices + Drop> {
    pub calls: Seq<Called<T, D>>,
    pub loads: u64,
}

// What a caller takes to its thread.
#[derive(Drop)]
struct Caller<T: FileToken, D: Devices + Drop> {
    pass: Pass<T>,
    world: World<D>,
}

// What it brings back.
#[derive(Drop)]
struct Returned<T: FileToken, D: Devices + Drop> {
    pass: Pass<T>,
    called: Called<T, D>,
}

/// One section of a token over each of these worlds, each on a thread of its own, at one gate. It ends when all have
/// ended, and hands back what they came to, in the order of the worlds, and what their passes have seen together.
/// `OutOfMemory` where memory runs out beside the sections; the worlds are given up then.
pub fn gated_calls<T: FileToken + Send + Sync, R: Threads + Wait + Sync, D: Devices + Send + Drop>(
    rt: &R,
    alloc: Global,
    token: GatedToken<T>,
    env: &Env,
    settings: &CallSettings,
    worlds: Vec<World<D>>,
) -> Result<GatedCalls<T, D>, OutOfMemory>
where
    T::Error: Send + Sync,
    requires kind { T.rules.is_kind token.state.key ≡ true }
    requires bound { token.loads + vec_len worlds < 2 ^ 64 }
    ensures calls { IfOk result (λ g. AllZip (λ world called. AnswersTurn T.rules (worlds_of ⟦<D as Devices>⟧) token.state.key env.now settings.now
        world called.world called.answer.kept called.answer.last called.found called.seen called.answer.outcome) worlds.items g.calls) }
    ensures loads { IfOk result (λ g. g.loads ≡ greatest token.loads (map (λ called. called.seen) g.calls)) }
{
    let (gate, mut pass) = new_gate(alloc, token, worlds.len() as u64)?;
    let callers = split_each(alloc, &gate, &mut pass, worlds)?;
    let returned = call_each(rt, &gate, env, settings, callers)?;
    join_each(alloc, &gate, pass, returned)
}

// A pass with an allowance of 1 for each of these worlds.
fn split_each<T: FileToken, D: Devices + Drop>(
    alloc: Global,
    gate: &Gate<T>,
    pass: &mut Pass<T>,
    worlds: Vec<World<D>>,
) -> Result<Vec<Caller<T, D>>, AllocError>
    requires of { pass.old.place.table_id ≡ gate.now.table.shared.table_id }
    requires allowance { vec_len worlds ≤ pass.old.allowance }
    ensures first { pass.new.place.table_id ≡ pass.old.place.table_id }
    ensures seen { pass.new.seen ≡ pass.old.seen }
    ensures worlds { IfOk result (λ c. map (λ caller. caller.world) c.items ≡ worlds.items) }
    ensures of { IfOk result (λ c. All (λ caller. caller.pass.place.table_id ≡ gate.now.table.shared.table_id) c.items) }
    ensures ready { IfOk result (λ c. All (λ caller. 0 < caller.pass.allowance) c.items) }
{
    let mut callers = Vec::with_capacity(alloc, worlds.len())?;
    for world in worlds {
        let pass = pass.cut(gate, 1);
        callers.push(Caller { pass, world })?;
    }
    Ok(callers)
}

// A section of each caller, on a thread of its own.
fn call_each<T: FileToken + Send + Sync, R: Threads + Wait + Sync, D: Devices + Send + Drop>(
    rt: &R,
    gate: &Gate<T>,
    env: &Env,
    settings: &CallSettings,
    callers: Vec<Caller<T, D>>,
) -> Result<Vec<Returned<T, D>>, AllocError>
where
    T::Error: Send + Sync,
    requires kind { T.rules.is_kind gate.now.key ≡ true }
    requires of { All (λ caller. caller.pass.place.table_id ≡ gate.now.table.shared.table_id) callers.items }
    requires ready { All (λ caller. 0 < caller.pass.allowance) callers.items }
    ensures each { IfOk result (λ r. AllZip (λ caller back. AnswersTurn T.rules (worlds_of ⟦<D as Devices>⟧) gate.now.key env.now settings.now
        caller.world back.called.world back.called.answer.kept back.called.answer.last back.called.found
        back.called.seen back.called.answer.outcome) callers.items r.items) }
    ensures of { IfOk result (λ r. All (λ back. back.pass.place.table_id ≡ gate.now.table.shared.table_id) r.items) }
    ensures seen { IfOk result (λ r. All (λ back. back.called.seen ≡ back.pass.seen) r.items) }
{
    thread::map_vec(
        rt,
        callers,
        &|caller: Caller<T, D>| -> Returned<T, D>
            requires kind { T.rules.is_kind gate.now.key ≡ true }
            requires of { caller.pass.place.table_id ≡ gate.now.table.shared.table_id }
            requires left { 0 < caller.pass.allowance }
            ensures turn { AnswersTurn T.rules (worlds_of D.Devices) gate.entry.now.key env.entry.now settings.entry.now caller.world result.called.world
                result.called.answer.kept result.called.answer.last result.called.found result.called.seen result.called.answer.outcome }
            ensures of { result.pass.place.table_id ≡ gate.entry.now.table.shared.table_id }
            ensures seen { result.called.seen ≡ result.pass.seen }
        { call(rt, gate, env, settings, caller) },
    )
}

// One caller's section.
fn call<T: FileToken, R: Wait, D: Devices + Drop>(
    rt: &R,
    gate: &Gate<T>,
    env: &Env,
    settings: &CallSettings,
    caller: Caller<T, D>,
) -> Returned<T, D>
    requires kind { T.rules.is_kind gate.now.key ≡ true }
    requires of { caller.pass.place.table_id ≡ gate.now.table.shared.table_id }
    requires left { 0 < caller.pass.allowance }
    ensures turn { AnswersTurn T.rules (worlds_of ⟦<D as Devices>⟧) gate.now.key env.now settings.now caller.world result.called.world
        result.called.answer.kept result.called.answer.last result.called.found result.called.seen result.called.answer.outcome }
    ensures of { result.pass.place.table_id ≡ gate.now.table.shared.table_id }
    ensures seen { result.called.seen ≡ result.pass.seen }
{
    let Caller {
        mut pass,
        mut world,
    } = caller;
    let (answer, found) = pass.take_turn(rt, gate, env, settings, &mut world);
    let seen = pass.seen();
    Returned {
        pass,
        called: Called {
            world,
            answer,
            found,
            seen,
        },
    }
}

// All passes become one, which has seen what each had.
fn join_each<T: FileToken, D: Devices + Drop>(
    alloc: Global,
    gate: &Gate<T>,
    mut pass: Pass<T>,
    returned: Vec<Returned<T, D>>,
) -> Result<GatedCalls<T, D>, OutOfMemory>
    requires of { pass.place.table_id ≡ gate.now.table.shared.table_id }
    requires all_of { All (λ back. back.pass.place.table_id ≡ gate.now.table.shared.table_id) returned.items }
    requires seen { All (λ back. back.called.seen ≡ back.pass.seen) returned.items }
    ensures calls { IfOk result (λ g. g.calls ≡ map (λ back. back.called) returned.items) }
    ensures loads { IfOk result (λ g. g.loads ≡ greatest pass.seen (map (λ called. called.seen) g.calls)) }
{
    let mut calls = Vec::with_capacity(alloc, returned.len())?;
    for back in returned {
        let Returned {
            pass: other,
            called,
        } = back;
        pass.join(gate, other);
        calls.push(called)?;
    }
    Ok(GatedCalls {
        calls: Seq::of(calls),
        loads: pass.seen(),
    })
}
