//! Laws of bearer tokens, each on a call that carries it.
ghost use Rattle.std.specs.Prelude.{◌≡◌, ◌⊎◌, ◌↔◌, ◌++◌, ℕ, List, Some, Result, IfOk};
ghost use Rattle.cfg_types.specs.declared.errors.ProfileFileError.{ProfileFileError as ProfileError};
ghost use Rattle.cfg_world.specs.Agreeing.{AnswerAlike};
ghost use Rattle.cfg_world.specs.Fits.{Pair};
ghost use Rattle.cfg_world.specs.Held.{Held};
ghost use Rattle.cfg_world.specs.declared.script.DeviceLists.{DeviceLists as Lists};
ghost use Rattle.cfg_world.specs.Script.{Place, Given};
ghost use Rattle.cfg_kept.specs.Beginnings.{GoesOn, IsWhole, AsksOne};
ghost use Rattle.cfg_kept.specs.Kinds.{Value, States};
ghost use Rattle.cfg_kept.specs.KeptInquiry.{Reads, Begins};
ghost use Rattle.cfg_meta.specs.FirstAnswers.{IsFirstAnswer, IsNoneLoaded};
ghost use Rattle.cfg_meta.specs.MemberParts.{Keeping, AreMemberParts};
ghost use Rattle.cfg_meta.specs.NextQuestions.{HasEnded, AsksOne as AsksOneOf};
ghost use Rattle.cfg_profile.specs.Configuration.{Configuration};
ghost use Rattle.cfg_profile.specs.declared.chain.ProfileChain.{ProfileChain as Chain};
ghost use Rattle.cfg_profile.specs.Plans.{IsChain};
ghost use Rattle.cfg_profile.specs.SectionSets.{SectionSets};
ghost use Rattle.cfg_sso.specs.BearerTokens.{Bearer, IsUnexpired};
ghost use Rattle.cfg_token_chain.specs.Members.{Asked, member_tree, TokenCause, NamedAsked, name_in, IsTokenTree};
ghost use Rattle.cfg_token_chain.specs.ProfileTokens.{profile_token, ProfileTokenCause, default_token, DefaultTokenCause};
ghost use Rattle.cfg_token_chain.specs.Provides.{ProvidesToken, IsTokenCall};
ghost use Rattle.cfg_token_chain.specs.Sessions.{profile_chain};
ghost use Rattle.cfg_token_chain.specs.Unexpired.{GivesUnexpired};
ghost use Rattle.cfg_meta.specs.TokenAnswers.{token_rules};

use cfg_world::Devices;

/// Each answer of a member has its cause over its part, by the rule of its provider.
pub fn members_have_causes()
    ensures { (member : Asked) (found : List Value) (part : List Pair) (out : Bearer) →
        Reads (member_tree member) found part out → TokenCause member found part out }
{}

/// A token of a session ends after the last reading of the clock in the part that gave it: that of a member of a chain,
/// and that of a call of [`ProfileFileTokenProvider`](crate::ProfileFileTokenProvider) or
/// [`DefaultTokenChain`](crate::DefaultTokenChain).
pub fn a_call_gives_no_expired_token<D: Devices>()
    ensures member { (member : Asked) (found : List Value) (part : List Pair) (out : Bearer) →
        Reads (member_tree member) found part out → GivesUnexpired member part out }
    ensures profile { (conf : Configuration) (old new : States) (found : List Value) (before later : Held D) (out : Bearer)
        (call : ProvidesToken (profile_token conf) (ProfileTokenCause conf) ⟦<D as Devices>⟧ old new found before later out) →
        IfOk out (IsUnexpired call.part) }
    ensures chain { (conf : Configuration) (old new : States) (found : List Value) (before later : Held D) (out : Bearer)
        (call : ProvidesToken (default_token conf) (DefaultTokenCause conf) ⟦<D as Devices>⟧ old new found before later out) →
        IfOk out (IsUnexpired call.part) }
{}

/// The session of a profile is that of its path: there is no other answer.
pub fn the_session_is_that_of_the_path()
    ensures path { (sets : SectionSets) (name : List ℕ) → IsChain sets name (profile_chain sets name) }
    ensures only { (sets : SectionSets) (name : List ℕ) (answer : Result Chain ProfileError) → IsChain sets name answer → profile_chain sets name ≡ answer }
{}

/// A chain answers the first token, passes over members that were not loaded alone, and answers the
/// first other error as it is, over the last part of the call's; or each member was passed over, and it tells of
/// each. The parts of those before are theirs, in order, and each member goes from what was kept of it to what
/// is kept now. There is no other such call.
pub fn the_first_answer_is_the_chains()
    ensures { (members : List NamedAsked) (olds news : List Keeping) (part : List Pair) (out : Bearer) →
        AreMemberParts token_rules name_in IsTokenTree members olds news part out ↔
        (IsFirstAnswer token_rules name_in IsTokenTree members olds news part out ⊎ IsNoneLoaded token_rules name_in IsTokenTree members olds news part out) }
{}

/// From what is kept there is one journal: two calls whose answers agree as far as both ask the same have the
/// same journal, come to the same answer, and leave the same. So it is of the default chain, of the selected
/// profile, and of a chain over given members.
pub fn one_journal()
    ensures default { (conf : Configuration) (old new newer : States) (found more : List Value) (one other : List Pair) (x y : Bearer) →
        IsTokenCall (default_token conf) (DefaultTokenCause conf) old new found one x →
        IsTokenCall (default_token conf) (DefaultTokenCause conf) old newer more other y →
        AnswerAlike one other → (one ≡ other) × (found ≡ more) × (x ≡ y) × (new ≡ newer) }
    ensures profile { (conf : Configuration) (old new newer : States) (found more : List Value) (one other : List Pair) (x y : Bearer) →
        IsTokenCall (profile_token conf) (ProfileTokenCause conf) old new found one x →
        IsTokenCall (profile_token conf) (ProfileTokenCause conf) old newer more other y →
        AnswerAlike one other → (one ≡ other) × (found ≡ more) × (x ≡ y) × (new ≡ newer) }
    ensures members { (members : List NamedAsked) (olds news newer : List Keeping) (one other : List Pair) (x y : Bearer) →
        AreMemberParts token_rules name_in IsTokenTree members olds news one x →
        AreMemberParts token_rules name_in IsTokenTree members olds newer other y →
        AnswerAlike one other → (one ≡ other) × (news ≡ newer) × (x ≡ y) }
{}

/// A call that has begun, as one for which memory ran out, is a prefix of each call from the same kept state
/// whose answers agree.
pub fn a_beginning_is_a_prefix()
    ensures default { (conf : Configuration) (old new newer : States) (found more : List Value) (one other : List Pair) (x : Bearer) →
        Begins (default_token conf) (Some old) found one (Some new) → IsTokenCall (default_token conf) (DefaultTokenCause conf) old newer more other x →
        AnswerAlike one other → GoesOn found one more other }
    ensures profile { (conf : Configuration) (old new newer : States) (found more : List Value) (one other : List Pair) (x : Bearer) →
        Begins (profile_token conf) (Some old) found one (Some new) → IsTokenCall (profile_token conf) (ProfileTokenCause conf) old newer more other x →
        AnswerAlike one other → GoesOn found one more other }
{}

/// A call that has begun came to its end, or asks exactly one question next, and never both. So it is of a prefix of
/// the journal of a chain over given members.
pub fn one_question_is_next()
    ensures default { (conf : Configuration) (old new : States) (found : List Value) (part : List Pair) →
        Begins (default_token conf) (Some old) found part (Some new) →
        IsWhole (default_token conf) (Some old) part ⊎ AsksOne (default_token conf) (Some old) part }
    ensures profile { (conf : Configuration) (old new : States) (found : List Value) (part : List Pair) →
        Begins (profile_token conf) (Some old) found part (Some new) →
        IsWhole (profile_token conf) (Some old) part ⊎ AsksOne (profile_token conf) (Some old) part }
    ensures members { (members : List NamedAsked) (olds news : List Keeping) (one rest : List Pair) (out : Bearer) →
        AreMemberParts token_rules name_in IsTokenTree members olds news (one ++ rest) out →
        HasEnded token_rules name_in IsTokenTree members olds one ⊎ AsksOneOf token_rules name_in IsTokenTree members olds one }
{}

/// Over the same members, what is kept of them and one script of devices, from one place, a chain has one
/// journal and one answer, and leaves the same.
pub fn one_script_one_call()
    ensures { (members : List NamedAsked) (lists : Lists) (place : Place) (olds news newer : List Keeping) (one other : List Pair) (x y : Bearer) →
        AreMemberParts token_rules name_in IsTokenTree members olds news one x →
        AreMemberParts token_rules name_in IsTokenTree members olds newer other y →
        Given lists place one → Given lists place other → (one ≡ other) × (news ≡ newer) × (x ≡ y) }
{}
