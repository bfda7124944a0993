//! Laws of chains of credentials providers, each on a call that carries it.
ghost use Rattle.std.specs.Prelude.{◌≡◌, ◌⊎◌, ◌↔◌, ◌++◌, List, map};
ghost use Rattle.cfg_world.specs.Agreeing.{AnswerAlike};
ghost use Rattle.cfg_world.specs.Beginnings.{IsPrefix};
ghost use Rattle.cfg_world.specs.Fits.{Pair};
ghost use Rattle.cfg_world.specs.Held.{Held};
ghost use Rattle.cfg_world.specs.declared.script.DeviceLists.{DeviceLists as Lists};
ghost use Rattle.cfg_world.specs.Script.{Place, Given};
ghost use Rattle.cfg_world.specs.Gains.{Gains};
ghost use Rattle.cfg_kept.specs.declared.kept.Kept.{Kept};
ghost use Rattle.cfg_meta.specs.FirstAnswers.{IsFirstAnswer, IsNoneLoaded};
ghost use Rattle.cfg_meta.specs.MemberParts.{Keeping, keeping_of, IsMemberPart, AreMemberParts, AreBegunParts, IsMemberBeginning};
ghost use Rattle.cfg_meta.specs.NextQuestions.{HasEnded, AsksOne};
ghost use Rattle.cfg_providers.specs.CustomSources.{Answer};
ghost use Rattle.cfg_credentials_chain.specs.Causes.{HasCause};
ghost use Rattle.cfg_meta.specs.CredentialsAnswers.{credentials_rules};
ghost use Rattle.cfg_credentials_chain.specs.Members.{Asked, IsMemberTree, NamedAsked, name_in, IsNamedTree};
ghost use Rattle.cfg_meta.specs.Provides.{ProvidesByMembers, InterruptedMembers};
ghost use Rattle.cfg_credentials_chain.specs.SafeCalls.{MemberAsksSafely, MembersAskSafely};
ghost use Rattle.cfg_credentials_chain.specs.Provides.{ProvidesOn, InterruptedOn};
ghost use Rattle.cfg_credentials_chain.specs.Sessions.{MembersReadSession, MembersStopInSession};
ghost use Rattle.cfg_credentials_chain.specs.SignOns.{MembersSignOn};

use cfg_world::Devices;

/// Each answer of a member has its cause over its part, by the rule of its provider.
pub fn members_have_causes()
    ensures { (member : Asked) (old new : Keeping) (part : List Pair) (out : Answer) →
        IsMemberPart (IsMemberTree member) old new part out → HasCause member old new part out }
{}

/// A chain answers the first credentials, passes over members that were not loaded alone, and answers the
/// first other error as it is, over the last part of the call's; or each member was passed over, and it tells of
/// each. The parts of those before are theirs, in order, and each member goes from what was kept of it to what
/// is kept now. There is no other such call.
pub fn the_first_answer_is_the_chains()
    ensures { (members : List NamedAsked) (olds news : List Keeping) (part : List Pair) (out : Answer) →
        AreMemberParts credentials_rules name_in IsNamedTree members olds news part out ↔
        (IsFirstAnswer credentials_rules name_in IsNamedTree members olds news part out
        ⊎ IsNoneLoaded credentials_rules name_in IsNamedTree members olds news part out) }
{}

/// From what is kept of the members there is one journal: two calls whose answers agree as far as both ask the
/// same have the same journal, leave the same, and come to the same answer.
pub fn one_journal()
    ensures { (members : List NamedAsked) (olds news newer : List Keeping) (one other : List Pair) (x y : Answer) →
        AreMemberParts credentials_rules name_in IsNamedTree members olds news one x →
        AreMemberParts credentials_rules name_in IsNamedTree members olds newer other y →
        AnswerAlike one other → (one ≡ other) × (news ≡ newer) × (x ≡ y) }
{}

/// Members that have begun, as in a call for which memory ran out, are a prefix of each call from what is kept of
/// them whose answers agree.
pub fn a_beginning_is_a_prefix()
    ensures { (members : List NamedAsked) (olds news newer : List Keeping) (one other : List Pair) (x : Answer) →
        AreBegunParts credentials_rules name_in IsNamedTree members olds news one →
        AreMemberParts credentials_rules name_in IsNamedTree members olds newer other x →
        AnswerAlike one other → IsPrefix one other }
{}

/// A prefix of a call's journal is that of a whole call, or exactly one question is next behind it, and never both.
pub fn one_question_is_next()
    ensures { (members : List NamedAsked) (olds news : List Keeping) (one rest : List Pair) (out : Answer) →
        AreMemberParts credentials_rules name_in IsNamedTree members olds news (one ++ rest) out →
        HasEnded credentials_rules name_in IsNamedTree members olds one ⊎ AsksOne credentials_rules name_in IsNamedTree members olds one }
{}

/// Over the same members, what is kept of them and one script of devices, from one
/// place, a chain has one journal and one answer, and leaves the same.
pub fn one_script_one_call()
    ensures { (members : List NamedAsked) (lists : Lists) (place : Place) (olds news newer : List Keeping) (one other : List Pair) (x y : Answer) →
        AreMemberParts credentials_rules name_in IsNamedTree members olds news one x →
        AreMemberParts credentials_rules name_in IsNamedTree members olds newer other y →
        Given lists place one → Given lists place other → (one ≡ other) × (news ≡ newer) × (x ≡ y) }
{}

/// Each `Http` request of a member's part, whole or begun, goes to the agent of Amazon ECS, or to the target of the
/// full address that the variable of its own configuration holds: HTTPS, an allowed address, or a name that has
/// allowed addresses alone by a look-up in the part of the same container. Only containers, profiles, default chains
/// and roles over one have such requests.
pub fn members_ask_safe_targets()
    ensures whole { (member : Asked) (old new : Keeping) (part : List Pair) (out : Answer) →
        IsMemberPart (IsMemberTree member) old new part out → MemberAsksSafely member part }
    ensures begun { (member : Asked) (old new : Keeping) (part : List Pair) →
        IsMemberBeginning (IsMemberTree member) old new part → MemberAsksSafely member part }
{}

/// All `Http` requests of a call are of one member, and go to its safe targets: those that were passed over
/// before it have none. It holds of a call for which memory ran out, too.
pub fn a_call_asks_safe_targets<D: Devices>()
    ensures answered { (members : List NamedAsked) (olds news : List Keeping) (before later : Held D) (out : Answer) →
        ProvidesByMembers ⟦<D as Devices>⟧ credentials_rules name_in IsNamedTree members olds news before later out →
        Gains before.journal later.journal (MembersAskSafely members) }
    ensures interrupted { (members : List NamedAsked) (olds news : List Keeping) (before later : Held D) →
        InterruptedMembers ⟦<D as Devices>⟧ credentials_rules name_in IsNamedTree members olds news before later →
        Gains before.journal later.journal (MembersAskSafely members) }
{}

/// Of the parts of a call's journal each has a `GetRoleCredentials` only as its member may: a session's member, a
/// profile, a default chain or a role over one once, with a token that ends after the last reading of the clock in the
/// part that gave it. It holds of a call for which memory ran out, too.
pub fn a_call_sends_no_expired_token<D: Devices>()
    ensures answered { (members : List NamedAsked) (olds news : List Kept) (before later : Held D) (out : Answer) →
        ProvidesOn ⟦<D as Devices>⟧ members olds news before later out →
        Gains before.journal later.journal (MembersSignOn members (map keeping_of news)) }
    ensures interrupted { (members : List NamedAsked) (olds news : List Kept) (before later : Held D) →
        InterruptedOn ⟦<D as Devices>⟧ members olds news before later →
        Gains before.journal later.journal (MembersSignOn members (map keeping_of news)) }
{}

/// Credentials that a call gives are those of one member. That of a sign-in session gives some that end after the last
/// reading of the clock in its part; a profile, a default chain or a role over one reads the session of its plan so,
/// and every other member none. So do the members before it, which gave errors, and those of a call for which memory
/// ran out.
pub fn a_call_reads_no_expired_session<D: Devices>()
    ensures answered { (members : List NamedAsked) (olds news : List Kept) (before later : Held D) (out : Answer) →
        ProvidesOn ⟦<D as Devices>⟧ members olds news before later out →
        Gains before.journal later.journal (λ part. MembersReadSession members (map keeping_of news) part out) }
    ensures interrupted { (members : List NamedAsked) (olds news : List Kept) (before later : Held D) →
        InterruptedOn ⟦<D as Devices>⟧ members olds news before later →
        Gains before.journal later.journal (MembersStopInSession members (map keeping_of news)) }
{}
