//! What a caller of the lock knows, and the rule of the lock's table.
use atomic_table::{Play, Seat, Shared, TableRule};

/// A state that counts its loads.
pub trait Counted {
    ghost use Rattle.std.specs.Prelude.{ℕ};

    ghost loads: { Self → ℕ };
}

/// How far a caller is with a section.
pub enum Stage {
    /// It makes none.
    Idle,
    /// It drew this ticket.
    Waits(u64),
    /// Its ticket is served.
    Turn(u64),
    /// And the state is out with it.
    Holds(u64),
    /// And the loads of its section are counted.
    Added(u64),
}

/// What a caller knows: how many sections it may still make, how many loads it has seen, and how far it is. No value
/// of it is made.
pub struct View {
    pub left: u64,
    pub seen: u64,
    pub stage: Stage,
}

/// What a lock is told when it is made: how many sections all callers may make, and the loads of its state.
#[derive(Drop)]
pub struct Terms {
    pub allowance: u64,
    pub loads: u64,
}

/// Sections take turns. The words are the ticket that is drawn next, the one that is served, and the count of loads.
pub struct InTurn;

impl<S: Counted> TableRule<Option<S>, View, Terms> for InTurn {
    ghost use Rattle.cfg_gate.specs.Turns.{TakesTurns, first};

    ghost holds = { TakesTurns S.loads };

    ghost first = { first };
}

/// A caller's place at the table.
pub type Place<S> = Seat<Option<S>, View>;

/// The table, as all callers share it.
pub type Board<S> = Shared<Option<S>, View, Terms, InTurn>;

/// A ticket is drawn.
pub struct Draw;

impl<S> Play<Option<S>, View> for Draw {
    ghost use Rattle.cfg_gate.specs.Turns.{drawn};

    ghost then = { drawn };
}

/// Who waits looks at the ticket that is served.
pub struct Look;

impl<S> Play<Option<S>, View> for Look {
    ghost use Rattle.cfg_gate.specs.Turns.{looked};

    ghost then = { looked };
}

/// Anyone looks at the ticket that is served, and learns that its allowance fits a word.
pub struct Fitting;

impl<S> Play<Option<S>, View> for Fitting {
    ghost use Rattle.cfg_gate.specs.Turns.{fitted};

    ghost then = { fitted };
}

/// Nothing is added to the count, and the state may be taken out.
pub struct Take;

impl<S: Counted> Play<Option<S>, View> for Take {
    ghost use Rattle.cfg_gate.specs.Turns.{taken};

    ghost then = { taken S.loads };
}

/// The loads of the section are added to the count.
pub struct Count;

impl<S> Play<Option<S>, View> for Count {
    ghost use Rattle.cfg_gate.specs.Turns.{added};

    ghost then = { added };
}

/// The next ticket is served.
pub struct PassOn;

impl<S> Play<Option<S>, View> for PassOn {
    ghost use Rattle.cfg_gate.specs.Turns.{passed};

    ghost then = { passed };
}
