// A turn: a ticket is drawn and waited for, the state is taken, changed by a section, and put back.
ghost use Rattle.std.specs.Prelude.{◌≡◌, ◌+◌, ◌-◌, ◌<◌, ◌≤◌, ℕ, [], ◌∷◌, None};
ghost use Rattle.cfg_gate.specs.Turns.{IsSized, view};
ghost use Rattle.cfg_gate.specs.declared.rule.Stage.TheVariants.{Idle, Waits, Turn, Holds};

use crate::rule::{Board, Counted, Place};
use crate::steps::{count, draw, look, pass_on, put_back, take, take_out};
use std::sync::Wait;
use std::thread;

// Looks until this ticket is served.
fn wait_turn<S: Counted, R: Wait>(rt: &R, board: &Board<S>, place: &mut Place<S>, ticket: u64)
    requires table { (place.old.table_id ≡ board.now.table_id) × IsSized board.now.table_id }
    requires waits { place.old.me.0.stage ≡ Waits ticket }
    ensures table { place.new.table_id ≡ place.old.table_id }
    ensures turn { place.new.me ≡ (view place.old.me.0.left place.old.me.0.seen (Turn ticket), place.old.me.1) }
{
    for _ in rt.forever() {
        if look(board, place, ticket) {
            return;
        }
        thread::yield_now();
    }
}

/// A state that was taken in its turn.
pub(crate) struct Taken<S> {
    pub(crate) state: S,
    pub(crate) ticket: u64,
    pub(crate) loads: u64,
}

// Draws a ticket, waits for its turn, and takes the state, which has so many loads.
pub(crate) fn take_turn<S: Counted, R: Wait>(
    rt: &R,
    board: &Board<S>,
    place: &mut Place<S>,
) -> Taken<S>
    requires table { (place.old.table_id ≡ board.now.table_id) × IsSized board.now.table_id }
    requires idle { (place.old.me.0.stage ≡ Idle) × (place.old.me.1 ≡ []) }
    requires left { 0 < place.old.me.0.left }
    ensures table { place.new.table_id ≡ place.old.table_id }
    ensures fresh { place.old.me.0.seen ≤ result.loads }
    ensures loads { S.loads result.state ≡ result.loads }
    ensures holds { place.new.me ≡ (view (place.old.me.0.left - 1) result.loads (Holds result.ticket), (0, None) ∷ []) }
{
    let ticket = draw(board, place);
    wait_turn(rt, board, place, ticket);
    let loads = take(board, place, ticket);
    let state = take_out(board, place);
    Taken {
        state,
        ticket,
        loads,
    }
}

// Counts the loads that were made, puts the state back, and passes the turn on.
pub(crate) fn end_turn<S: Counted>(
    board: &Board<S>,
    place: &mut Place<S>,
    ticket: u64,
    made: u64,
    state: S,
)
    requires table { (place.old.table_id ≡ board.now.table_id) × IsSized board.now.table_id }
    requires holds { (place.old.me.0.stage ≡ Holds ticket) × (place.old.me.1 ≡ (0, None) ∷ []) }
    requires most { made ≤ 1 }
    requires loads { S.loads state ≡ place.old.me.0.seen + made }
    ensures table { place.new.table_id ≡ place.old.table_id }
    ensures idle { place.new.me ≡ (view place.old.me.0.left (place.old.me.0.seen + made) Idle, []) }
    ensures fits { place.old.me.0.seen + made < 18446744073709551616 }
{
    count(board, place, ticket, made);
    put_back(board, place, state);
    pass_on(board, place, ticket);
}
