//! Laws of chains over given members, each on a call that carries it.
ghost use Rattle.std.specs.Prelude.{◌≡◌, ◌⊎◌, ◌↔◌, ◌++◌, List, Result};
ghost use Rattle.cfg_world.specs.Fits.{Pair};
ghost use Rattle.cfg_world.specs.Agreeing.{AnswerAlike};
ghost use Rattle.cfg_meta.specs.MemberParts.{Keeping, AreMemberParts};
ghost use Rattle.cfg_meta.specs.FirstAnswers.{IsFirstAnswer, IsNoneLoaded};
ghost use Rattle.cfg_meta.specs.NextQuestions.{HasEnded, AsksOne};

use crate::member::ChainMember;

/// A chain answers what the first member gave that was not passed over, as it gave it over the last part of
/// the call's; or each member was passed over, and it tells of each. The parts of those before are theirs, in
/// order, and each member goes from what was kept of it to what is kept now. There is no other such call.
pub fn the_first_answer_is_the_chains<M: ChainMember>()
    ensures { (members : List M) (olds news : List Keeping) (part : List Pair) (out : Result M.Value M.Error) →
        AreMemberParts M.Error.rules (λ m. M.named m) (λ m. M.is_tree m) members olds news part out ↔
        (IsFirstAnswer M.Error.rules (λ m. M.named m) (λ m. M.is_tree m) members olds news part out ⊎
        IsNoneLoaded M.Error.rules (λ m. M.named m) (λ m. M.is_tree m) members olds news part out) }
{}

/// From what is kept of the members there is one journal: of two calls whose answers agree as far as both
/// ask the same, the parts, what is kept and the outcome are the same.
pub fn one_journal<M: ChainMember>()
    ensures { (members : List M) (olds news newer : List Keeping) (one other : List Pair) (x y : Result M.Value M.Error) →
        AreMemberParts M.Error.rules (λ m. M.named m) (λ m. M.is_tree m) members olds news one x →
        AreMemberParts M.Error.rules (λ m. M.named m) (λ m. M.is_tree m) members olds newer other y →
        AnswerAlike one other → (one ≡ other) × (news ≡ newer) × (x ≡ y) }
{}

/// A prefix of a call's journal is that of a whole call, or exactly one question is next behind it, and never both.
pub fn one_question_is_next<M: ChainMember>()
    ensures { (members : List M) (olds news : List Keeping) (one rest : List Pair) (out : Result M.Value M.Error) →
        AreMemberParts M.Error.rules (λ m. M.named m) (λ m. M.is_tree m) members olds news (one ++ rest) out →
        HasEnded M.Error.rules (λ m. M.named m) (λ m. M.is_tree m) members olds one ⊎
        AsksOne M.Error.rules (λ m. M.named m) (λ m. M.is_tree m) members olds one }
{}
