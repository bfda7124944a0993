//! A gate round the loads of one token, and the passes of its callers.
ghost use Rattle.std.specs.Prelude.{◌≡◌, ◌↔◌, ◌+◌, ◌-◌, ◌<◌, ◌≤◌, ◌^◌, ℕ, [], IfOk, IsErr, Err};
ghost use Rattle.cfg_gate.specs.Turns.{IsSized, greater};
ghost use Rattle.cfg_gate.specs.declared.rule.Stage.TheVariants.{Idle};
ghost use Rattle.cfg_gate.specs.declared.answer.GateFault.TheVariants.{Spent};

use crate::answer::GateFault;
use crate::places::{TurnTable, cut_off, new_table, put_together};
use crate::rule::Place;
use crate::token::GatedToken;
use cfg_token::TokenKey;
use cfg_token::file_token::FileToken;
use cfg_token::loads::Loads;
use cfg_types::OutOfMemory;
use std::alloc::Global;

/// A token's key, and a lock round its loads.
#[derive(Drop)]
pub struct Gate<T: FileToken> {
    pub(crate) key: TokenKey,
    pub(crate) table: TurnTable<Loads<T>>,
    ghost sized: { IsSized table.shared.table_id },
}

/// A caller's leave to make sections at a gate, so many, and how many loads it has seen.
#[derive(Drop)]
pub struct Pass<T: FileToken> {
    pub(crate) place: Place<Loads<T>>,
    pub(crate) allowance: u64,
    pub(crate) seen: u64,
    ghost rests: { (place.me.0.stage ≡ Idle) × (place.me.1 ≡ []) },
    ghost left: { allowance ≡ place.me.0.left },
    ghost known: { seen ≡ place.me.0.seen },
}

/// A gate with this token's state, and the first pass, which has the whole allowance and has seen the token's loads.
/// `OutOfMemory` where memory runs out; the token is then given up.
pub fn new_gate<T: FileToken>(
    alloc: Global,
    token: GatedToken<T>,
    allowance: u64,
) -> Result<(Gate<T>, Pass<T>), OutOfMemory>
    requires { token.loads + allowance < 2 ^ 64 }
    ensures of { IfOk result (λ r. r.1.place.table_id ≡ r.0.table.shared.table_id) }
    ensures key { IfOk result (λ r. r.0.key ≡ token.state.key) }
    ensures pass { IfOk result (λ r. (r.1.allowance ≡ allowance) × (r.1.seen ≡ token.loads)) }
{
    let (state, count) = token.into_parts();
    let (key, loads) = state.into_parts();
    let (table, place) = new_table(alloc, loads, count, allowance)?;
    let gate = Gate { key, table };
    let pass = Pass {
        place,
        allowance,
        seen: count,
    };
    Ok((gate, pass))
}

fn larger(a: u64, b: u64) -> u64
    ensures is { result ≡ greater a b }
    ensures keeps { (a ≤ result) × (b ≤ result) }
{
    if a <= b { b } else { a }
}

impl<T: FileToken> Pass<T> {
    /// How many loads it has seen.
    pub fn seen(&self) -> u64
        ensures { result ≡ self.now.seen }
    {
        self.seen
    }

    /// How many sections it may still make.
    pub fn allowance(&self) -> u64
        ensures { result ≡ self.now.allowance }
    {
        self.allowance
    }

    /// A pass with this share of the allowance, that has seen as much.
    ///
    /// # Errors
    ///
    /// `Spent` exactly where the share is above the allowance. After an error the pass is as it was.
    pub fn split(&mut self, gate: &Gate<T>, share: u64) -> Result<Pass<T>, GateFault>
        requires of { self.old.place.table_id ≡ gate.now.table.shared.table_id }
        ensures of { self.new.place.table_id ≡ self.old.place.table_id }
        ensures spent { (result ≡ Err Spent) ↔ (self.old.allowance < share) }
        ensures stays { IsErr result → self.new ≡ self.old }
        ensures given { IfOk result (λ p. (p.place.table_id ≡ self.old.place.table_id) × (p.allowance ≡ share) × (p.seen ≡ self.old.seen)) }
        ensures kept { IfOk result (λ _. (self.new.allowance ≡ self.old.allowance - share) × (self.new.seen ≡ self.old.seen)) }
    {
        if self.allowance < share {
            return Err(GateFault::Spent);
        }
        Ok(self.cut(gate, share))
    }

    pub(crate) fn cut(&mut self, gate: &Gate<T>, share: u64) -> Pass<T>
        requires of { self.old.place.table_id ≡ gate.now.table.shared.table_id }
        requires share { share ≤ self.old.allowance }
        ensures of { (self.new.place.table_id ≡ self.old.place.table_id) × (result.place.table_id ≡ self.old.place.table_id) }
        ensures given { (result.allowance ≡ share) × (result.seen ≡ self.old.seen) }
        ensures kept { (self.new.allowance ≡ self.old.allowance - share) × (self.new.seen ≡ self.old.seen) }
    {
        let place = cut_off(&gate.table.shared, &mut self.place, share);
        self.allowance -= share;
        Pass {
            place,
            allowance: share,
            seen: self.seen,
        }
    }

    /// Takes another pass in: its allowance is added, and what is seen is the greater of what both had seen.
    pub fn join(&mut self, gate: &Gate<T>, other: Pass<T>)
        requires of { self.old.place.table_id ≡ gate.now.table.shared.table_id }
        requires other { other.place.table_id ≡ gate.now.table.shared.table_id }
        ensures of { self.new.place.table_id ≡ self.old.place.table_id }
        ensures allowance { self.new.allowance ≡ self.old.allowance + other.allowance }
        ensures seen { self.new.seen ≡ greater self.old.seen other.seen }
        ensures keeps { (self.old.seen ≤ self.new.seen) × (other.seen ≤ self.new.seen) }
    {
        let Pass {
            place,
            allowance,
            seen,
        } = other;
        put_together(&gate.table.shared, &mut self.place, place);
        self.allowance += allowance;
        self.seen = larger(self.seen, seen);
    }
}
