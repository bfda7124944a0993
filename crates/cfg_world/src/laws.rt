//! Laws of inquiries and of scripted devices, each on a call that carries it.
ghost use Rattle.std.specs.Prelude.{◌≡◌, ◌↔◌, ◌⊎◌, List};
ghost use Rattle.cfg_world.specs.declared.script.DeviceLists.{DeviceLists as Lists};
ghost use Rattle.cfg_world.specs.Fits.{Pair};
ghost use Rattle.cfg_world.specs.Inquiry.{Inquiry, Reads, Begun, after};
ghost use Rattle.cfg_world.specs.Agreeing.{AnswerAlike};
ghost use Rattle.cfg_world.specs.Beginnings.{IsPrefix, BegunInTurn};
ghost use Rattle.cfg_world.specs.Script.{Place, Given, Script, Allows};
ghost use Rattle.cfg_world.specs.Ordered.{InOrder};

/// An inquiry has one journal: two journals that it reads, whose answers agree as far as both ask
/// the same, are equal, and so are their outcomes.
pub fn one_journal<R>()
    ensures { (inquiry : Inquiry R) (one other : List Pair) (x y : R) →
        Reads inquiry one x → Reads inquiry other y → AnswerAlike one other → (one ≡ other) × (x ≡ y) }
{}

/// Two lists that one script of devices gives from one place have answers that agree.
pub fn one_script_answers_alike()
    ensures { (lists : Lists) (place : Place) (one other : List Pair) →
        Given lists place one → Given lists place other → AnswerAlike one other }
{}

/// Over one script of devices, from one place, an inquiry has one journal and one outcome.
pub fn one_script_one_journal<R>()
    ensures { (inquiry : Inquiry R) (lists : Lists) (place : Place) (one other : List Pair) (x y : R) →
        Given lists place one → Given lists place other → Reads inquiry one x → Reads inquiry other y → (one ≡ other) × (x ≡ y) }
{}

/// Of two beginnings of one inquiry whose answers agree, one is a prefix of the other.
pub fn one_beginning<R>()
    ensures { (inquiry : Inquiry R) (one other : List Pair) →
        Begun inquiry one → Begun inquiry other → AnswerAlike one other → IsPrefix one other ⊎ IsPrefix other one }
{}

/// A beginning of an inquiry is a prefix of each whole journal of it whose answers agree.
pub fn a_beginning_is_a_prefix<R>()
    ensures { (inquiry : Inquiry R) (one other : List Pair) (x : R) →
        Begun inquiry one → Reads inquiry other x → AnswerAlike one other → IsPrefix one other }
{}

/// One inquiry after another begins as the first does, or as the second does behind a whole journal
/// of the first.
pub fn inquiries_begin_in_turn<A, B>()
    ensures { (first : Inquiry A) (second : A → Inquiry B) (journal : List Pair) →
        Begun (after first second) journal ↔ BegunInTurn first second journal }
{}

/// Scripted devices allow exactly the lists of entries in which the answers of each list come in its
/// order, readings of files say what was last written, else what the last listing says, and writes
/// fail for unwritable paths alone.
pub fn scripted_answers_come_in_order()
    ensures { (script : Script) (entries : List Pair) → Allows script entries ↔ InOrder script.lists entries }
{}
