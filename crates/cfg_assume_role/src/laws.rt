//! Laws of the provider of a role's credentials, each on a call that carries it.
ghost use Rattle.std.specs.Prelude.{List};
ghost use Rattle.cfg_world.specs.Held.{Held};
ghost use Rattle.cfg_kept.specs.Kinds.{Value, States};
ghost use Rattle.cfg_providers.specs.CustomSources.{Answer};
ghost use Rattle.cfg_world.specs.Gains.{Gains};
ghost use Rattle.cfg_assume_role.specs.declared.call.RoleCall.{RoleCall as Call};
ghost use Rattle.cfg_assume_role.specs.Bases.{Base};
ghost use Rattle.cfg_assume_role.specs.Provides.{Provides, Interrupted};
ghost use Rattle.cfg_assume_role.specs.SafeCalls.{BaseAsksSafely};
ghost use Rattle.cfg_assume_role.specs.Sessions.{RoleReadsSession, RoleStopsInSession};
ghost use Rattle.cfg_assume_role.specs.SignOns.{BaseSignsOn};

use cfg_world::Devices;

/// A call asks IAM Identity Center for a role's credentials as the default chain does, where that is its base, and else
/// not at all: with a token that ends after the last reading of the clock in the part that gave it. It holds of a call
/// for which memory ran out, too.
pub fn a_call_sends_no_expired_token<D: Devices>()
    ensures answered { (call : Call) (base : Base) (old new : States) (found : List Value) (before later : Held D) (out : Answer) →
        Provides ⟦<D as Devices>⟧ call base old new found before later out → Gains before.journal later.journal (BaseSignsOn base found) }
    ensures interrupted { (call : Call) (base : Base) (old new : States) (found : List Value) (before later : Held D) →
        Interrupted ⟦<D as Devices>⟧ call base old new found before later → Gains before.journal later.journal (BaseSignsOn base found) }
{}

/// A call reads a sign-in session as the default chain does, where that is its base, and else none: credentials that
/// the session's part gives end after its last reading of the clock. What the base gives signs the call's request. A
/// call for which memory ran out may also have stopped within the base's part, or before anything was asked.
pub fn a_call_reads_no_expired_session<D: Devices>()
    ensures answered { (call : Call) (base : Base) (old new : States) (found : List Value) (before later : Held D) (out : Answer) →
        Provides ⟦<D as Devices>⟧ call base old new found before later out →
        Gains before.journal later.journal (λ part. RoleReadsSession call base found part out) }
    ensures interrupted { (call : Call) (base : Base) (old new : States) (found : List Value) (before later : Held D) →
        Interrupted ⟦<D as Devices>⟧ call base old new found before later →
        Gains before.journal later.journal (RoleStopsInSession call base found) }
{}

/// All `Http` requests of a call are those of its base. Over a default chain each goes to the agent of Amazon
/// ECS, or to the target of the full address that the variable holds: HTTPS, an allowed address, or a name that
/// has allowed addresses alone by a look-up in the part of that container. Over any other base there is none. It
/// holds of a call for which memory ran out, too.
pub fn a_call_asks_safe_targets<D: Devices>()
    ensures answered { (call : Call) (base : Base) (old new : States) (found : List Value) (before later : Held D) (out : Answer) →
        Provides ⟦<D as Devices>⟧ call base old new found before later out → Gains before.journal later.journal (BaseAsksSafely base) }
    ensures interrupted { (call : Call) (base : Base) (old new : States) (found : List Value) (before later : Held D) →
        Interrupted ⟦<D as Devices>⟧ call base old new found before later → Gains before.journal later.journal (BaseAsksSafely base) }
{}
