// One step at the table each.
ghost use Rattle.std.specs.Prelude.{◌≡◌, ◌+◌, ◌-◌, ◌<◌, ◌≤◌, ℕ, [], ◌∷◌, Some, None, true, false};
ghost use Rattle.cfg_gate.specs.Turns.{IsSized, view, Bears, HasTurn};
ghost use Rattle.cfg_gate.specs.declared.rule.Stage.TheVariants.{Idle, Waits, Turn, Holds, Added};

use crate::rule::{Board, Count, Counted, Draw, Fitting, Look, PassOn, Place, Take};

// Draws a ticket.
pub(crate) fn draw<S: Counted>(board: &Board<S>, place: &mut Place<S>) -> u64
    requires table { (place.old.table_id ≡ board.now.table_id) × IsSized board.now.table_id }
    requires idle { (place.old.me.0.stage ≡ Idle) × (0 < place.old.me.0.left) }
    ensures table { place.new.table_id ≡ place.old.table_id }
    ensures drawn { place.new.me ≡ (view (place.old.me.0.left - 1) place.old.me.0.seen (Waits result), place.old.me.1) }
{
    board.fetch_add::<Draw>(place, 0, 1)
}

// Whether this ticket is served.
pub(crate) fn look<S: Counted>(board: &Board<S>, place: &mut Place<S>, ticket: u64) -> bool
    requires table { (place.old.table_id ≡ board.now.table_id) × IsSized board.now.table_id }
    requires waits { place.old.me.0.stage ≡ Waits ticket }
    ensures table { place.new.table_id ≡ place.old.table_id }
    ensures turn { result ≡ true → place.new.me ≡ (view place.old.me.0.left place.old.me.0.seen (Turn ticket), place.old.me.1) }
    ensures not_yet { result ≡ false → place.new.me ≡ place.old.me }
{
    board.load::<Look>(place, 1) == ticket
}

// A look at the ticket that is served, which tells that the allowance fits a word.
pub(crate) fn learn_fit<S: Counted>(board: &Board<S>, place: &mut Place<S>)
    requires table { (place.old.table_id ≡ board.now.table_id) × IsSized board.now.table_id }
    ensures table { place.new.table_id ≡ place.old.table_id }
    ensures same { place.new.me ≡ place.old.me }
    ensures fits { place.old.me.0.left < 18446744073709551616 }
{
    let _served = board.load::<Fitting>(place, 1);
}

// Adds nothing to the count, which is answered: so many loads has the state.
pub(crate) fn take<S: Counted>(board: &Board<S>, place: &mut Place<S>, ticket: u64) -> u64
    requires table { (place.old.table_id ≡ board.now.table_id) × IsSized board.now.table_id }
    requires turn { (place.old.me.0.stage ≡ Turn ticket) × (place.old.me.1 ≡ []) }
    ensures table { place.new.table_id ≡ place.old.table_id }
    ensures seen { place.old.me.0.seen ≤ result }
    ensures view { place.new.me.0 ≡ view place.old.me.0.left result (Holds ticket) }
    ensures bears { Bears S.loads result place.new.me.1 }
{
    board.fetch_add::<Take>(place, 2, 0)
}

// Adds the loads of the section to the count.
pub(crate) fn count<S: Counted>(board: &Board<S>, place: &mut Place<S>, ticket: u64, more: u64)
    requires table { (place.old.table_id ≡ board.now.table_id) × IsSized board.now.table_id }
    requires holds { (place.old.me.0.stage ≡ Holds ticket) × (more ≤ 1) }
    ensures table { place.new.table_id ≡ place.old.table_id }
    ensures added { place.new.me ≡ (view place.old.me.0.left (place.old.me.0.seen + more) (Added ticket), place.old.me.1) }
    ensures fits { place.old.me.0.seen + more < 18446744073709551616 }
{
    board.fetch_add::<Count>(place, 2, more);
}

// The next ticket is served, and the state is in the slot for it.
pub(crate) fn pass_on<S: Counted>(board: &Board<S>, place: &mut Place<S>, ticket: u64)
    requires table { (place.old.table_id ≡ board.now.table_id) × IsSized board.now.table_id }
    requires added { (place.old.me.0.stage ≡ Added ticket) × Bears S.loads place.old.me.0.seen place.old.me.1 }
    ensures table { place.new.table_id ≡ place.old.table_id }
    ensures idle { place.new.me ≡ (view place.old.me.0.left place.old.me.0.seen Idle, []) }
{
    board.fetch_add::<PassOn>(place, 1, 1);
}

// Takes the state out of the slot that the caller has.
pub(crate) fn take_out<S: Counted>(board: &Board<S>, place: &mut Place<S>) -> S
    requires table { (place.old.table_id ≡ board.now.table_id) × IsSized board.now.table_id }
    requires turn { HasTurn place.old.me.0.stage }
    requires bears { Bears S.loads place.old.me.0.seen place.old.me.1 }
    ensures table { place.new.table_id ≡ place.old.table_id }
    ensures loads { S.loads result ≡ place.old.me.0.seen }
    ensures empty { place.new.me ≡ (place.old.me.0, (0, None) ∷ []) }
{
    match board.exchange(place, 0, None) {
        Some(found) => found,
        None => unreachable!(),
    }
}

// Puts a state into the slot, from which one was taken.
pub(crate) fn put_back<S: Counted>(board: &Board<S>, place: &mut Place<S>, state: S)
    requires table { (place.old.table_id ≡ board.now.table_id) × IsSized board.now.table_id }
    requires turn { HasTurn place.old.me.0.stage }
    requires empty { place.old.me.1 ≡ (0, None) ∷ [] }
    ensures table { place.new.table_id ≡ place.old.table_id }
    ensures held { place.new.me ≡ (place.old.me.0, (0, Some state) ∷ []) }
{
    match board.exchange(place, 0, Some(state)) {
        Some(_) => unreachable!(),
        None => {}
    }
}
