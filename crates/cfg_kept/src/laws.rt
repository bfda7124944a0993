//! Laws of trees that find and leave kept values, each on a call that carries it.
ghost use Rattle.std.specs.Prelude.{◌≡◌, ◌↔◌, ◌⊎◌, ◌++◌, ◌∷◌, [], List, Option, Some};
ghost use Rattle.cfg_world.specs.declared.ask.Question.{Question as Asked};
ghost use Rattle.cfg_world.specs.Fits.{Pair};
ghost use Rattle.cfg_world.specs.Inquiry.{Inquiry, Reads as ReadsBelow};
ghost use Rattle.cfg_world.specs.Agreeing.{AnswerAlike};
ghost use Rattle.cfg_token.specs.Histories.{History, trimmed};
ghost use Rattle.cfg_kept.specs.Kinds.{Value, States};
ghost use Rattle.cfg_kept.specs.KeptInquiry.{KeptInquiry, Runs, Begins, Reads, lift, onwards, found_by, kept_after};
ghost use Rattle.cfg_kept.specs.Beginnings.{GoesOn, IsWhole, IsNext, AsksOne, BeginsInTurn};
ghost use Rattle.cfg_kept.specs.SectionHoldings.{kept_of};

/// From one kept state a tree has one journal: two runs whose answers agree as far as both ask the
/// same have the same journal, find the same values, come to the same outcome, and leave the same.
pub fn one_journal<R>()
    ensures { (tree : KeptInquiry R) (old : States) (one other : List Pair) (found more : List Value) (x y : R) (new newer : Option States) →
        Runs tree (Some old) found one x new → Runs tree (Some old) more other y newer → AnswerAlike one other →
        (one ≡ other) × (found ≡ more) × (x ≡ y) × (new ≡ newer) }
{}

/// What is kept and what is asked decide the rest: a run from kept states that are told finds, each
/// time, what was last left at the spot, and leaves what its tree leaves over this journal.
pub fn kept_states_decide<R>()
    ensures { (tree : KeptInquiry R) (old : States) (found : List Value) (journal : List Pair) (out : R) (new : Option States) →
        Runs tree (Some old) found journal out new ↔
        (found ≡ found_by tree old journal) × (new ≡ Some (kept_after tree old journal)) × Reads tree (found_by tree old journal) journal out }
{}

/// Of two beginnings of one tree from one kept state, whose answers agree, one goes on as the other.
pub fn one_beginning<R>()
    ensures { (tree : KeptInquiry R) (old : States) (one other : List Pair) (found more : List Value) (new newer : Option States) →
        Begins tree (Some old) found one new → Begins tree (Some old) more other newer → AnswerAlike one other →
        GoesOn found one more other ⊎ GoesOn more other found one }
{}

/// A beginning of a tree is a prefix of each whole run of it, from the same kept state, whose answers
/// agree.
pub fn a_beginning_is_a_prefix<R>()
    ensures { (tree : KeptInquiry R) (old : States) (one other : List Pair) (found more : List Value) (x : R) (new newer : Option States) →
        Begins tree (Some old) found one new → Runs tree (Some old) more other x newer → AnswerAlike one other → GoesOn found one more other }
{}

/// After a beginning the tree has come to an end, or asks exactly one question next.
pub fn one_question_is_next<R>()
    ensures { (tree : KeptInquiry R) (old : States) (found : List Value) (journal : List Pair) (new : Option States) →
        Begins tree (Some old) found journal new → IsWhole tree (Some old) journal ⊎ AsksOne tree (Some old) journal }
{}

/// Each journal that goes on behind one after which a question is next has this question there.
pub fn the_next_question_is_asked<R>()
    ensures { (tree : KeptInquiry R) (old : States) (journal : List Pair) (question : Asked) (entry : Pair) (rest : List Pair)
        (found : List Value) (new : Option States) →
        IsNext tree (Some old) journal question → Begins tree (Some old) found (journal ++ entry ∷ rest) new → entry.0 ≡ question }
{}

/// One tree after another begins as the first does, or as the second does behind a whole run of the
/// first.
pub fn trees_begin_in_turn<A, B>()
    ensures { (first : KeptInquiry A) (second : A → KeptInquiry B) (old : Option States) (found : List Value) (journal : List Pair) (new : Option States) →
        Begins (onwards first second) old found journal new ↔ BeginsInTurn first second old found journal new }
{}

/// An inquiry as a tree finds nothing, and reads as the inquiry itself.
pub fn inquiries_find_nothing<R>()
    ensures { (inquiry : Inquiry R) (found : List Value) (journal : List Pair) (out : R) →
        Reads (lift inquiry) found journal out ↔ (found ≡ []) × ReadsBelow inquiry journal out }
{}

/// What a holding finds of a token does not depend on records: where what is kept becomes the origin and
/// the records are given up, the token and the last attempt stay.
pub fn records_are_not_found<T, E>()
    ensures { (history : History T E) → kept_of (trimmed history) ≡ kept_of history }
{}
