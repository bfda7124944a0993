// A table with its first caller's place; a place is cut in two, and two are put together.
ghost use Rattle.std.specs.Prelude.{◌≡◌, ◌+◌, ◌-◌, ◌<◌, ◌≤◌, ◌^◌, ℕ, [], IfOk};
ghost use Rattle.cfg_gate.specs.Turns.{IsSized, view, greater};
ghost use Rattle.cfg_gate.specs.declared.rule.Stage.TheVariants.{Idle};

use crate::rule::{Board, Counted, InTurn, Place, Terms, View};
use crate::steps::learn_fit;
use atomic_table::{Join, Split, Table};
use cfg_types::OutOfMemory;
use std::alloc::Global;
use std::marker::{Brand, PhantomData};

// A share, picked where a place is cut.
pub(crate) trait Share {
    ghost use Rattle.std.specs.Prelude.{ℕ};

    ghost share: { ℕ };
}

impl Share for Brand {
    ghost share = { 0 };
}

struct CutOff<K> {
    share: PhantomData<K>,
}

impl<K: Share> Split<View> for CutOff<K> {
    ghost use Rattle.cfg_gate.specs.Turns.{keeps_share, gets_share};

    ghost left = { keeps_share K.share };

    ghost right = { gets_share K.share };
}

struct Joined;

impl Join<View> for Joined {
    ghost use Rattle.cfg_gate.specs.Turns.{joined, nobody};

    ghost both = { joined };

    ghost spent = { nobody };
}

pub(crate) type TurnTable<S> = Table<Option<S>, View, Terms, InTurn, Global>;

// A table with a state of so many loads, and the place of a caller that has the whole allowance.
pub(crate) fn new_table<S: Counted + Drop>(
    alloc: Global,
    state: S,
    loads: u64,
    allowance: u64,
) -> Result<(TurnTable<S>, Place<S>), OutOfMemory>
    requires loads { S.loads state ≡ loads }
    requires bound { loads + allowance < 2 ^ 64 }
    ensures table { IfOk result (λ r. r.1.table_id ≡ r.0.shared.table_id) }
    ensures sized { IfOk result (λ r. IsSized r.0.shared.table_id) }
    ensures view { IfOk result (λ r. r.1.me ≡ (view allowance loads Idle, [])) }
{
    let mut slots = Vec::new(alloc);
    slots.push(Some(state))?;
    let terms = Terms { allowance, loads };
    match Table::new(alloc, &[0, 0, loads], slots, &terms) {
        Ok(made) => Ok(made),
        Err(_) => Err(OutOfMemory),
    }
}

fn cut<S: Counted, K: Share>(board: &Board<S>, place: &mut Place<S>, share: u64) -> Place<S>
    requires is { share ≡ K.share }
    requires table { (place.old.table_id ≡ board.now.table_id) × IsSized board.now.table_id }
    requires idle { (place.old.me.0.stage ≡ Idle) × (place.old.me.1 ≡ []) }
    requires share { share ≤ place.old.me.0.left }
    ensures table { (place.new.table_id ≡ place.old.table_id) × (result.table_id ≡ place.old.table_id) }
    ensures keeps { place.new.me ≡ (view (place.old.me.0.left - share) place.old.me.0.seen Idle, []) }
    ensures gets { result.me ≡ (view share place.old.me.0.seen Idle, []) }
{
    board.split_seat::<CutOff<K>>(place)
}

// Another place, which gets this share of the allowance, and has seen as much.
pub(crate) fn cut_off<S: Counted>(board: &Board<S>, place: &mut Place<S>, share: u64) -> Place<S>
    requires table { (place.old.table_id ≡ board.now.table_id) × IsSized board.now.table_id }
    requires idle { (place.old.me.0.stage ≡ Idle) × (place.old.me.1 ≡ []) }
    requires share { share ≤ place.old.me.0.left }
    ensures table { (place.new.table_id ≡ place.old.table_id) × (result.table_id ≡ place.old.table_id) }
    ensures keeps { place.new.me ≡ (view (place.old.me.0.left - share) place.old.me.0.seen Idle, []) }
    ensures gets { result.me ≡ (view share place.old.me.0.seen Idle, []) }
{
    cut::<S, Brand>(board, place, share)
}

// The allowance of both, which fits a word, and the greater of what they have seen.
pub(crate) fn put_together<S: Counted>(board: &Board<S>, place: &mut Place<S>, other: Place<S>)
    requires table { (place.old.table_id ≡ board.now.table_id) × IsSized board.now.table_id }
    requires other { other.table_id ≡ board.now.table_id }
    requires idle { (place.old.me.0.stage ≡ Idle) × (place.old.me.1 ≡ []) }
    requires other_idle { (other.me.0.stage ≡ Idle) × (other.me.1 ≡ []) }
    ensures table { place.new.table_id ≡ place.old.table_id }
    ensures both { place.new.me ≡ (view (place.old.me.0.left + other.me.0.left) (greater place.old.me.0.seen other.me.0.seen) Idle, []) }
    ensures fits { place.old.me.0.left + other.me.0.left < 2 ^ 64 }
{
    board.join_seat::<Joined>(place, other);
    learn_fit(board, place);
}
