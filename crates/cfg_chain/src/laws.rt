//! Laws of chains, each on a call that carries it.
ghost use Rattle.std.specs.Prelude.{◌≡◌, ◌≢◌, ◌↔◌, ◌⊎◌, ◌++◌, ◌∷◌, [], ℕ, List, true, false, is_ok, Option, Some, Result, Ok, Err};
ghost use Rattle.cfg_types.specs.Classes.{is_memory};
ghost use Rattle.cfg_types.specs.declared.errors.CredentialsError.{CredentialsError};
ghost use Rattle.cfg_types.specs.declared.errors.CredentialsError.TheVariants.{ProviderTimedOut};
ghost use Rattle.cfg_types.specs.declared.errors.ProviderAttempt.{ProviderAttempt};
ghost use Rattle.cfg_world.specs.Fits.{Pair, EachFits};
ghost use Rattle.cfg_world.specs.Agreeing.{AnswerAlike};
ghost use Rattle.cfg_world.specs.Held.{Held};
ghost use Rattle.cfg_world.specs.declared.script.DeviceLists.{DeviceLists as Lists};
ghost use Rattle.cfg_world.specs.Script.{Place, Given};
ghost use Rattle.cfg_kept.specs.Kinds.{Value, States};
ghost use Rattle.cfg_kept.specs.KeptInquiry.{Reads, Begins};
ghost use Rattle.cfg_kept.specs.Beginnings.{GoesOn};
ghost use Rattle.cfg_profile.specs.Configuration.{Configuration};
ghost use Rattle.cfg_profile.specs.declared.chain.ProfileChain.{ProfileChain};
ghost use Rattle.cfg_profile.specs.NamedSources.{IsPlan};
ghost use Rattle.cfg_profile.specs.SectionSets.{SectionSets};
ghost use Rattle.cfg_providers.specs.CustomSources.{Answer};
ghost use Rattle.cfg_chain.specs.declared.member.Member.{Member};
ghost use Rattle.cfg_chain.specs.Settings.{ChainSetting, Setting, names_of};
ghost use Rattle.cfg_kept.specs.Chains.{Chain, chain};
ghost use Rattle.cfg_kept.specs.ChainParts.{MemberReads, AreParts, AreBegunParts};
ghost use Rattle.cfg_chain.specs.Members.{member_tree};
ghost use Rattle.std.specs.List.{AllByRecursion};
ghost use Rattle.cfg_chain.specs.declared.member.Member.TheVariants.{EcsContainer};
ghost use Rattle.cfg_exchange.specs.ContainerRequests.{IsSafeQuestion, look_ups};
ghost use Rattle.cfg_exchange.specs.Containers.{IsContainerUri};
ghost use Rattle.cfg_chain.specs.Causes.{Cause};
ghost use Rattle.cfg_chain.specs.MemberErrors.{IsErrorOf, IsErrorOfCall};
ghost use Rattle.cfg_chain.specs.PassedOver.{IsPassedOver, PassesByTable};
ghost use Rattle.cfg_chain.specs.Resolves.{Resolves};
ghost use Rattle.cfg_chain.specs.Valid.{IsValid, GivesSignOn};
ghost use Rattle.cfg_types.specs.Replies.{role_in};
ghost use Rattle.cfg_world.specs.Leaves.{granted_of};
ghost use Rattle.cfg_world.specs.Gains.{Gains};
ghost use Rattle.cfg_token.specs.declared.token_key.TokenKey.{TokenKey};
ghost use Rattle.cfg_token.specs.Readings.{IsHit};
ghost use Rattle.cfg_token.specs.SsoTokens.{sso_rules};
ghost use Rattle.cfg_kept.specs.SsoHoldings.{sso_spot};
ghost use Rattle.cfg_sso.specs.InNoWay.{IsGranted};
ghost use Rattle.cfg_sso.specs.Tokens.{sso_key};
ghost use Rattle.cfg_chain.specs.Provides.{IsCall, Provides, Interrupted};
ghost use Rattle.cfg_chain.specs.SharedCalls.{ProvidesFound, InterruptedFound};
ghost use Rattle.cfg_chain.specs.BegunCalls.{IsBegunCall, HasBegun, HasEnded, CallAsksOne};
ghost use Rattle.cfg_chain.specs.Callers.{TellsWho};
ghost use Rattle.cfg_sso.specs.declared.config.SsoProviderConfig.{SsoProviderConfig as SignOn};
ghost use Rattle.cfg_chain.specs.SignOns.{SignsOn};
ghost use Rattle.cfg_chain.specs.Sessions.{ReadsSession, ChainReadsSession, StopsInSession};
ghost use Rattle.cfg_chain.specs.profile.Provides.{ProvidesByProfile, InterruptedProfile};
ghost use Rattle.cfg_chain.specs.profile.Bases.{CanBeAsked};
ghost use Rattle.cfg_chain.specs.profile.Plans.{Planned, profile_plan, plan, key_of_plan, key_of};
ghost use Rattle.cfg_chain.specs.SafeCalls.{ChainAsksSafely};

use cfg_world::Devices;

/// The journal of a chain is the parts of its members in order, and the other way round: whatever its
/// members, values and errors are, the chain asks what its members ask.
pub fn a_chain_is_its_members<M, V, E>()
    ensures { (c : Chain M V E) (members : List M) (attempts : List (ProviderAttempt E)) (found : List Value) (journal : List Pair) (out : Result V E) →
        Reads (chain c members attempts) found journal out ↔ AreParts c (MemberReads c) members attempts found journal out }
{}

/// A chain that was interrupted has begun its members in order: those that were passed over are whole,
/// and the next one is begun.
pub fn an_interrupted_chain_is_its_members<M, V, E>()
    ensures { (c : Chain M V E) (members : List M) (attempts : List (ProviderAttempt E)) (old new : Option States) (found : List Value) (journal : List Pair) →
        Begins (chain c members attempts) old found journal new ↔ AreBegunParts c members old found journal new }
{}

/// Each answer of a member has its cause over its part, by the rule of its provider.
pub fn members_have_causes()
    ensures { (s : Setting) (member : Member) (found : List Value) (part : List Pair) (out : Answer) →
        Reads (member_tree s member) found part out → Cause s member found part out }
{}

/// An error of a member is one of its line, by the cause that stands outermost, unless memory ran out.
pub fn members_have_errors_of_their_own()
    ensures { (s : Setting) (member : Member) (found : List Value) (part : List Pair) (e : CredentialsError) →
        Reads (member_tree s member) found part (Err e) → is_memory (Err e) ≡ false → IsErrorOf member e }
{}

/// A call on what is kept is one of the values that it found in it, so that what is said of these holds of it too.
pub fn a_lent_call_is_one_of_its_found_values<D: Devices>()
    ensures answered { (over : ChainSetting) (old new : States) (found : List Value) (before later : Held D) (out : Answer) →
        Provides ⟦<D as Devices>⟧ over old new found before later out → ProvidesFound ⟦<D as Devices>⟧ over found before later out }
    ensures interrupted { (over : ChainSetting) (old new : States) (found : List Value) (before later : Held D) →
        Interrupted ⟦<D as Devices>⟧ over old new found before later → InterruptedFound ⟦<D as Devices>⟧ over found before later }
{}

/// The error of a call is that none of the members was loaded, or one of the line of a member, unless memory ran
/// out. It is never that a provider timed out.
pub fn a_call_has_no_other_errors<D: Devices>()
    ensures of_members { (over : ChainSetting) (found : List Value) (before later : Held D) (e : CredentialsError) →
        ProvidesFound ⟦<D as Devices>⟧ over found before later (Err e) → is_memory (Err e) ≡ false → IsErrorOfCall e }
    ensures in_time { (over : ChainSetting) (found : List Value) (before later : Held D) (out : Answer) →
        ProvidesFound ⟦<D as Devices>⟧ over found before later out → out ≢ Err ProviderTimedOut }
{}

/// A member is passed over by its line of the table, and by nothing else, where the address of a
/// container is the one that the variables name.
pub fn members_are_passed_over_by_the_table()
    ensures { (s : Setting) (member : Member) (found : List Value) (part : List Pair) (out : Answer) →
        IsContainerUri s.configuration.environment s.container → Reads (member_tree s member) found part out →
        PassesByTable out (IsPassedOver s member found part) }
{}

/// The member that asks a container sends each request to the agent of Amazon ECS, or to the target of the full
/// address that its variable holds: HTTPS, an allowed address, or a name that has allowed addresses alone by a
/// look-up in the same part. It holds of a part that has only begun, too.
pub fn a_container_member_asks_safe_targets()
    ensures { (s : Setting) (old new : Option States) (found : List Value) (part : List Pair) →
        IsContainerUri s.configuration.environment s.container → Begins (member_tree s EcsContainer) old found part new →
        AllByRecursion (λ e. IsSafeQuestion s.configuration.environment (look_ups part) e.0) part }
{}

/// Over one setting of a chain and from one kept state there is one journal: two calls of the default chain
/// whose answers agree as far as both ask the same have the same journal, find the same values, come to the
/// same outcome, and leave the same.
pub fn one_journal()
    ensures { (over : ChainSetting) (old new newer : States) (found more : List Value) (one other : List Pair) (x y : Answer) →
        IsCall over old new found one x → IsCall over old newer more other y → AnswerAlike one other →
        (one ≡ other) × (found ≡ more) × (x ≡ y) × (new ≡ newer) }
{}

/// A call that has begun, as one for which memory ran out, is a prefix of each call from the same kept state
/// whose answers agree.
pub fn a_beginning_is_a_prefix()
    ensures { (over : ChainSetting) (old new newer : States) (found more : List Value) (one other : List Pair) (x : Answer) →
        IsBegunCall over old new found one → IsCall over old newer more other x → AnswerAlike one other → GoesOn found one more other }
{}

/// Each prefix of a call's journal is that of a call that has begun.
pub fn a_prefix_is_a_beginning()
    ensures { (over : ChainSetting) (old new : States) (found : List Value) (one rest : List Pair) (out : Answer) →
        IsCall over old new found (one ++ rest) out → HasBegun over old one }
{}

/// A call that has begun came to its end, or asks exactly one question next, and never both.
pub fn one_question_is_next()
    ensures { (over : ChainSetting) (old new : States) (found : List Value) (part : List Pair) →
        IsBegunCall over old new found part → HasEnded over old part ⊎ CallAsksOne over old part }
{}

/// Over one setting of a chain, one kept state and one script of devices, from one place, the call of the
/// default chain has one journal and one answer, finds the same values, and leaves the same.
pub fn one_script_one_call()
    ensures { (over : ChainSetting) (lists : Lists) (place : Place) (old new newer : States) (found more : List Value) (one other : List Pair) (x y : Answer) →
        IsCall over old new found one x → IsCall over old newer more other y → Given lists place one → Given lists place other →
        (one ≡ other) × (found ≡ more) × (x ≡ y) × (new ≡ newer) }
{}

/// Where nothing stands in the way, said of the variables, of the selected profile, of the found values
/// and of the journal's entries, the call gives credentials, where the address of a container is the one
/// that the variables name.
pub fn nothing_in_the_way_gives_credentials()
    ensures { (s : Setting) (found : List Value) (journal : List Pair) (out : Answer) →
        IsContainerUri s.configuration.environment s.container → Resolves s found journal out → IsValid s found journal → is_ok out ≡ true }
{}

/// Where the token of a session is found kept, and is not to be refreshed yet by the first reading of the clock,
/// nothing stands in the way of IAM Identity Center where its one request is granted, whatever is found and asked
/// behind that.
pub fn a_kept_token_is_enough()
    ensures { (conf : Configuration) (sso : SignOn) (key : TokenKey) (value : Value) (found : List Value) (reading reply : Pair) (rest : List Pair) →
        sso_key sso ≡ Some key → IsHit sso_rules (sso_spot.token_in value).token (reading ∷ []) → IsGranted (granted_of role_in reply.1) →
        GivesSignOn conf sso (value ∷ found) (reading ∷ (reply ∷ rest)) }
{}

/// The plan of a profile is what its path gives, where the caller has sources of these names. There is
/// no other such answer.
pub fn the_plan_is_that_of_the_path()
    ensures path { (sets : SectionSets) (name : List ℕ) (sources : List (List ℕ)) → IsPlan sets name sources (profile_plan sets name sources) }
    ensures only { (sets : SectionSets) (name : List ℕ) (sources : List (List ℕ)) (answer : Planned) →
        IsPlan sets name sources answer → profile_plan sets name sources ≡ answer }
{}

/// A plan has a base that can be asked: a source that is there, IAM Identity Center for a role of an
/// account, or any other.
pub fn a_plan_has_a_base_that_can_be_asked()
    ensures { (s : Setting) (p : ProfileChain) → plan s.configuration (names_of s.sources) ≡ Ok p → CanBeAsked s p.base }
{}

/// Whose token a configuration needs is the same whatever sources the caller has.
pub fn a_configuration_has_one_key()
    ensures { (conf : Configuration) (sources : List (List ℕ)) → key_of_plan (plan conf sources) ≡ key_of conf }
{}

/// A call tells its caller who answered. Credentials are those that one of the five members reads over its part
/// of what the journal gained, and so is any error but that nothing was loaded; the parts before it are those
/// of the members before it, in order, each not loaded, by its line of the table. Where nothing was loaded the
/// parts are those of all five, and the error tells of each.
pub fn a_call_tells_who_answered<D: Devices>()
    ensures { (over : ChainSetting) (found : List Value) (before later : Held D) (out : Answer) →
        ProvidesFound ⟦<D as Devices>⟧ over found before later out → TellsWho over found before.journal later.journal out }
{}

/// A call sends no `GetRoleCredentials`; or the selected profile's plan begins with a role of IAM Identity Center, and
/// the call sends one, with the token that the part before it gave, which ends after the last reading of the clock in
/// this part. It holds of the default chain and of the provider of a profile, of a call for which memory ran out, and of
/// the part of any call that has begun or came to its end: of a run, or of a journal that is looked at afterwards.
pub fn a_call_sends_no_expired_token<D: Devices>()
    ensures answered { (over : ChainSetting) (found : List Value) (before later : Held D) (out : Answer) →
        ProvidesFound ⟦<D as Devices>⟧ over found before later out → Gains before.journal later.journal (SignsOn over found) }
    ensures interrupted { (over : ChainSetting) (found : List Value) (before later : Held D) →
        InterruptedFound ⟦<D as Devices>⟧ over found before later → Gains before.journal later.journal (SignsOn over found) }
    ensures by_profile { (over : ChainSetting) (old new : States) (found : List Value) (before later : Held D) (out : Answer) →
        ProvidesByProfile ⟦<D as Devices>⟧ over old new found before later out → Gains before.journal later.journal (SignsOn over found) }
    ensures profile_interrupted { (over : ChainSetting) (old new : States) (found : List Value) (before later : Held D) →
        InterruptedProfile ⟦<D as Devices>⟧ over old new found before later → Gains before.journal later.journal (SignsOn over found) }
    ensures begun { (over : ChainSetting) (old new : States) (found : List Value) (part : List Pair) →
        IsBegunCall over old new found part → SignsOn over found part }
    ensures ended { (over : ChainSetting) (old new : States) (found : List Value) (part : List Pair) (out : Answer) →
        IsCall over old new found part out → SignsOn over found part }
{}

/// A call looks at no sign-in session; or the selected profile's plan begins with one, and the call's journal is the
/// part of this session and what comes of it: credentials that the part gives end after its last reading of the clock,
/// and the roles are assumed with them; an error is told as that of the base. Or the environment answered, and nothing
/// was asked. Of the provider of a profile the same holds without the environment. A call for which memory ran out
/// may also have stopped within the session's part, or before anything was asked; so may one that has begun. It holds
/// of the part of any call that came to its end, where each answer fits its question.
pub fn a_call_reads_no_expired_session<D: Devices>()
    ensures answered { (over : ChainSetting) (found : List Value) (before later : Held D) (out : Answer) →
        ProvidesFound ⟦<D as Devices>⟧ over found before later out →
        Gains before.journal later.journal (λ part. ChainReadsSession over found part out) }
    ensures interrupted { (over : ChainSetting) (found : List Value) (before later : Held D) →
        InterruptedFound ⟦<D as Devices>⟧ over found before later → Gains before.journal later.journal (StopsInSession over found) }
    ensures by_profile { (over : ChainSetting) (old new : States) (found : List Value) (before later : Held D) (out : Answer) →
        ProvidesByProfile ⟦<D as Devices>⟧ over old new found before later out →
        Gains before.journal later.journal (λ part. ReadsSession over found part out) }
    ensures profile_interrupted { (over : ChainSetting) (old new : States) (found : List Value) (before later : Held D) →
        InterruptedProfile ⟦<D as Devices>⟧ over old new found before later → Gains before.journal later.journal (StopsInSession over found) }
    ensures begun { (over : ChainSetting) (old new : States) (found : List Value) (part : List Pair) → EachFits part →
        IsBegunCall over old new found part → StopsInSession over found part }
    ensures ended { (over : ChainSetting) (old new : States) (found : List Value) (part : List Pair) (out : Answer) → EachFits part →
        IsCall over old new found part out → ChainReadsSession over found part out }
{}

/// All `Http` requests of a call stand in the part of one container, which the chain's own member asks, or a
/// source that the profile names. Each goes to the agent of Amazon ECS, or to the target of the full address that
/// the variable holds: HTTPS, an allowed address, or a name that has allowed addresses alone by a look-up in that
/// part. It holds of a call for which memory ran out, and of the part of any call that has begun or came to its end.
pub fn a_call_asks_safe_targets<D: Devices>()
    ensures answered { (over : ChainSetting) (found : List Value) (before later : Held D) (out : Answer) →
        ProvidesFound ⟦<D as Devices>⟧ over found before later out → Gains before.journal later.journal (ChainAsksSafely over) }
    ensures interrupted { (over : ChainSetting) (found : List Value) (before later : Held D) →
        InterruptedFound ⟦<D as Devices>⟧ over found before later → Gains before.journal later.journal (ChainAsksSafely over) }
    ensures begun { (over : ChainSetting) (old new : States) (found : List Value) (part : List Pair) →
        IsBegunCall over old new found part → ChainAsksSafely over part }
    ensures ended { (over : ChainSetting) (old new : States) (found : List Value) (part : List Pair) (out : Answer) →
        IsCall over old new found part out → ChainAsksSafely over part }
{}

/// The same of a call of the provider of a profile's credentials: a source that the profile names asks the
/// container.
pub fn a_profile_asks_safe_targets<D: Devices>()
    ensures answered { (over : ChainSetting) (old new : States) (found : List Value) (before later : Held D) (out : Answer) →
        ProvidesByProfile ⟦<D as Devices>⟧ over old new found before later out → Gains before.journal later.journal (ChainAsksSafely over) }
    ensures interrupted { (over : ChainSetting) (old new : States) (found : List Value) (before later : Held D) →
        InterruptedProfile ⟦<D as Devices>⟧ over old new found before later → Gains before.journal later.journal (ChainAsksSafely over) }
{}
