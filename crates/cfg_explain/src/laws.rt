//! Laws of verdicts, of replays, of owners and of reasons, each on a call that carries it.
ghost use Rattle.std.specs.Prelude.{◌≡◌, ◌↔◌, ℕ, List, Option, IsSome, IsTrue};
ghost use Rattle.cfg_world.specs.Fits.{Pair};
ghost use Rattle.cfg_kept.specs.Kinds.{Value, States};
ghost use Rattle.cfg_providers.specs.CustomSources.{Answer};
ghost use Rattle.cfg_chain.specs.Provides.{IsCall};
ghost use Rattle.cfg_chain.specs.Settings.{ChainSetting};
ghost use Rattle.cfg_explain.specs.Owners.{Owns, is_of_a_call};
ghost use Rattle.cfg_explain.specs.Reasons.{reasons_of, AreReasonsOf};
ghost use Rattle.cfg_explain.specs.Replays.{Tells, IsAnsweredCall};
ghost use Rattle.cfg_explain.specs.Verdicts.{Judges, IsCallTo};
ghost use Rattle.cfg_explain.specs.declared.answering.Answering.{Answering as Handed};
ghost use Rattle.cfg_explain.specs.declared.answering.Replay.{Replay as Told};
ghost use Rattle.cfg_explain.specs.declared.answering.Replay.TheVariants.{Whole};
ghost use Rattle.cfg_explain.specs.declared.verdict.Verdict.{Verdict as Said};
ghost use Rattle.cfg_explain.specs.declared.verdict.Verdict.TheVariants.{Yes};

/// The verdict is yes exactly where the journal is that of a call which came to this outcome, features of credentials
/// aside.
pub fn yes_is_said_exactly_of_calls()
    ensures { (over : ChainSetting) (old new : States) (found : List Value) (journal : List Pair) (out : Answer) (verdict : Said) →
        Judges over old new found journal out verdict →
        (verdict ≡ Yes) ↔ ((after : States) × (finds : List Value) × IsCallTo over old after finds journal out) }
{}

/// Of one journal and one outcome there is one verdict, so that each comes exactly where it is true.
pub fn one_verdict_is_true()
    ensures { (over : ChainSetting) (old new newer : States) (found more : List Value) (journal : List Pair) (out : Answer) (verdict also : Said) →
        Judges over old new found journal out verdict → Judges over old newer more journal out also → verdict ≡ also }
{}

/// A whole call is told exactly where there is one that asks questions of these kinds and is answered so, and it is
/// that call.
pub fn a_whole_call_is_told_exactly_where_there_is_one()
    ensures { (over : ChainSetting) (old new : States) (found : List Value) (answers : List Handed) (told : Told) (journal : List Pair) (out : Answer) →
        Tells over old new found answers told → (told ≡ Whole journal out) ↔ IsAnsweredCall over old answers journal out }
{}

/// Of one list of answers there is one replay, so that each comes exactly where it is true.
pub fn one_replay_is_true()
    ensures { (over : ChainSetting) (old new newer : States) (found more : List Value) (answers : List Handed) (told also : Told) →
        Tells over old new found answers told → Tells over old newer more answers also → told ≡ also }
{}

/// Owners are told exactly where the journal is that of a call: none exactly where the verdict tells where it departs from
/// a call's, or that it is short or long.
pub fn owners_are_told_exactly_of_calls()
    ensures { (over : ChainSetting) (old new newer : States) (found more : List Value) (journal : List Pair) (out : Answer) (verdict : Said)
        (names : Option (List (List ℕ))) →
        Judges over old new found journal out verdict → Owns over old newer more journal names → IsSome names ↔ IsTrue (is_of_a_call verdict) }
{}

/// Of one journal there is one list of owners.
pub fn one_list_of_owners_is_true()
    ensures { (over : ChainSetting) (old new newer : States) (found more : List Value) (journal : List Pair) (names also : Option (List (List ℕ))) →
        Owns over old new found journal names → Owns over old newer more journal also → names ≡ also }
{}

/// The reasons of a call are its own: the members that it passed over, each with its error, the one that gave the
/// credentials or whose error ended it, and what this one asked; or none was loaded, and these are all.
pub fn reasons_are_those_of_the_call()
    ensures { (over : ChainSetting) (old new : States) (found : List Value) (journal : List Pair) (out : Answer) →
        IsCall over old new found journal out → AreReasonsOf over found journal out (reasons_of over out) }
{}
