//! A call of the default chain, a question at a time.
ghost use Rattle.std.specs.Prelude.{◌≡◌, ◌↔◌, ◌++◌, [], map, option_map, option_to_list, IfOk, IfSome, IsSome, OnOk, OnErr, None, Some, Ok};
ghost use Rattle.std.specs.Option.{option_copied};
ghost use Rattle.cfg_base.specs.Text.{characters};
ghost use Rattle.cfg_kept.specs.FoundValues.{bare};
ghost use Rattle.cfg_kept.specs.KeptStates.{states_of, kept_key};
ghost use Rattle.cfg_chain.specs.Members.{name_of};
ghost use Rattle.cfg_chain.specs.Views.{chain_of};
ghost use Rattle.cfg_chain.specs.profile.Plans.{key_of, plan};
ghost use Rattle.cfg_profile.specs.Settings.{settings_of};
ghost use Rattle.cfg_run.specs.Places.{HasKeyAfter, IsInMember, IsInProfile, found_after, states_after};
ghost use Rattle.cfg_run.specs.Planned.{names_in, plan_or, settings_or};
ghost use Rattle.cfg_run.specs.Roles.{IsAtRole};
ghost use Rattle.cfg_run.specs.Runs.{IsUnderWay, ComesTo, ComesNext, HasBegun, question_of, step_of};

use crate::kept_progress::KeptProgress;
use crate::last_role::LastRole;
use crate::next::Next;
use crate::planned::{PlannedRoles, planned_roles};
use crate::roles::next_of_roles;
use cfg_chain::{DefaultCredentialsChain, Member};
use cfg_kept::Kept;
use cfg_types::{Credentials, CredentialsError, OutOfMemory};
use cfg_world::{Question, Receipt, Stop};

/// What a poll answers.
#[derive(Drop)]
pub enum Step {
    /// The question that is shown is the next one.
    Pending,
    /// There is no next question. This is the answer of the call.
    Ready(Result<Credentials, CredentialsError>),
}

/// A call of the default chain that asks one question at a time. Whoever polls it puts the question that it shows,
/// and hands the receipt in. It owns what is kept between calls, and gives it up where it is dropped. Contracts see
/// the chain, and how far the call is: what was kept at the start and is kept now, the values that were found,
/// the receipts, and the question that is shown, with the member of the chain that asks it.
#[derive(Drop)]
pub struct Run<'a> {
    chain: &'a DefaultCredentialsChain,
    progress: KeptProgress,
    // The chain's plan, once a role was asked for.
    planned: Option<PlannedRoles>,
    ghost plan_is: { plan_or planned (plan chain.now.core (names_in chain.now.custom_sources.items))
        ≡ plan chain.now.core (names_in chain.now.custom_sources.items) },
    ghost settings_are: { settings_or planned (settings_of chain.now.core) ≡ settings_of chain.now.core },
}

// What a walk over what was asked comes to, and what is kept then: as before, where it is not told.
#[derive(Drop)]
struct Walked {
    kept: Option<Kept>,
    next: Next<Result<Credentials, CredentialsError>>,
    // Who asks the question that is next.
    member: Option<Member>,
}

impl<'a> Run<'a> {
    /// A call of this chain on what is kept, for which nothing is asked yet. The values that were found before are
    /// given up. What is kept is that of a chain with this key, as
    /// [`new_kept`](cfg_chain::DefaultCredentialsChain::new_kept) makes it. Takes no memory.
    pub fn start(chain: &'a DefaultCredentialsChain, kept: Kept) -> Run<'a>
        requires { kept_key kept ≡ key_of chain.now.core }
        ensures chain { result.chain.now ≡ chain.now }
        ensures nothing { result.progress ≡
            record { key = kept_key kept; base = states_of kept; kept = states_of kept; found = []; asked = []; question = None; member = None } }
        ensures under_way { IsUnderWay (chain_of value repeated chain.now) result.progress }
    {
        Run {
            chain,
            progress: KeptProgress::new(*chain.custom_sources.allocator(), kept),
            planned: None,
        }
    }

    /// The question to be put next. None before the first poll that answered `Pending`, and after `Ready`.
    pub fn question(&self) -> Option<&Question>
        ensures { option_copied result ≡ self.now.progress.question }
    {
        self.progress.question()
    }

    /// The name of the member in whose part of the chain the question stands that is shown, as the chain tells of the
    /// member. None exactly where no question is shown. Takes no memory.
    pub fn member(&self) -> Option<&str>
        ensures name { option_map (λ name. characters name.now) result ≡ option_map name_of self.now.progress.member }
        ensures shown { IsSome result ↔ IsSome self.now.progress.question }
    {
        let member = self.progress.member()?;
        Some(member.name())
    }

    /// The receipts that the polls were given, in order.
    pub fn asked(&self) -> &[Receipt]
        ensures { result.now ≡ self.now.progress.asked }
    {
        self.progress.asked()
    }

    /// What is kept now, as the holdings left it that the receipts finished, with the values that were found. It fits
    /// the chain, and may be asked for at any moment. Takes no memory.
    pub fn into_kept(self) -> Kept
        ensures states { states_of result ≡ self.entry.progress.kept }
        ensures found { map bare result.found.items ≡ self.entry.progress.found }
        ensures key { kept_key result ≡ self.entry.progress.key }
    {
        self.progress.into_kept()
    }

    /// Goes on by the receipt of the question that is shown, or shows the first question. Without a receipt a later
    /// poll shows what the one before it showed. The run has not been `Ready`, and a receipt's question is the one
    /// that is shown.
    ///
    /// `Pending` comes exactly where a question is next after what was asked, this receipt included; it is shown
    /// then. `Ready` has the answer of the whole call whose journal is what was asked, with the errors of
    /// [`provide_credentials`](cfg_chain::DefaultCredentialsChain::provide_credentials).
    ///
    /// # Errors
    ///
    /// `OutOfMemory` where memory runs out. The run is then as it was, and the receipt is given up.
    pub fn poll(&mut self, receipt: Option<Receipt>) -> Result<Step, OutOfMemory>
        requires under_way { IsUnderWay (chain_of value repeated self.old.chain.now) self.old.progress }
        requires fits { IfSome receipt (λ e. self.old.progress.question ≡ Some e.0) }
        ensures chain { self.new.chain.now ≡ self.old.chain.now }
        ensures start { (self.new.progress.base ≡ self.old.progress.base) × (self.new.progress.key ≡ self.old.progress.key) }
        ensures asked { OnOk result (self.new.progress.asked ≡ self.old.progress.asked ++ option_to_list receipt) }
        ensures comes { IfOk result (λ step. ComesTo (chain_of value repeated self.old.chain.now) self.new.progress step) }
        ensures stays { OnErr result (self.new.progress ≡ self.old.progress) }
    {
        let mark = self.progress.mark();
        self.progress.hand_in(receipt)?;
        match self.walk() {
            Ok(walked) => Ok(self.go_on(walked)),
            Err(error) => {
                self.progress.take_back(mark);
                Err(error)
            }
        }
    }

    // What comes next, from the last receipt for a role on where the profile asks, and else from the first receipt.
    fn walk(&mut self) -> Result<Walked, OutOfMemory>
        requires key { self.old.progress.key ≡ key_of self.old.chain.now.core }
        requires begun { HasBegun (chain_of value repeated self.old.chain.now) self.old.progress.base self.old.progress.asked }
        requires place { IsInMember (chain_of value repeated self.old.chain.now) self.old.progress self.old.progress.question self.old.progress.member }
        ensures chain { self.new.chain.now ≡ self.old.chain.now }
        ensures progress { self.new.progress ≡ self.old.progress }
        ensures comes { IfOk result (λ w. ComesNext (chain_of value repeated self.old.chain.now) self.old.progress.base
            (states_after w.kept self.old.progress.kept) (found_after w.kept self.old.progress.found) self.old.progress.asked w.member w.next) }
        ensures shown { IfOk result (λ w. IsSome w.member ↔ IsSome (question_of w.next)) }
        ensures key { IfOk result (λ w. HasKeyAfter self.old.progress.key w.kept) }
    {
        let Some(last) = self.progress.last_role_of_profile() else {
            return next_of(self.chain, &self.progress);
        };
        self.learn()?;
        match &self.planned {
            Some(planned) => next_role(self.chain, planned, &self.progress, last),
            None => next_of(self.chain, &self.progress),
        }
    }

    // With the chain's plan known. `OutOfMemory` where memory runs out.
    fn learn(&mut self) -> Result<(), OutOfMemory>
        ensures chain { self.new.chain.now ≡ self.old.chain.now }
        ensures progress { self.new.progress ≡ self.old.progress }
    {
        if self.planned.is_none() {
            self.planned = planned_roles(self.chain)?;
        }
        Ok(())
    }

    // On to what the walk came to.
    fn go_on(&mut self, walked: Walked) -> Step
        requires key { HasKeyAfter self.old.progress.key walked.kept }
        requires shown { IsSome walked.member ↔ IsSome (question_of walked.next) }
        ensures chain { self.new.chain.now ≡ self.old.chain.now }
        ensures step { result ≡ step_of walked.next }
        ensures progress { self.new.progress ≡ record self.old.progress {
          kept = states_after walked.kept self.old.progress.kept;
          found = found_after walked.kept self.old.progress.found;
          question = question_of walked.next;
          member = walked.member;
        } }
    {
        let Walked { kept, next, member } = walked;
        self.progress.keep(kept);
        match next {
            Next::Asks(question) => {
                self.progress.show(Some(question), member);
                Step::Pending
            }
            Next::Gives(answer) => {
                self.progress.show(None, member);
                Step::Ready(answer)
            }
        }
    }
}

// What comes next of a call after what was asked so far, and what is kept then.
fn next_of(chain: &DefaultCredentialsChain, progress: &KeptProgress) -> Result<Walked, OutOfMemory>
    requires key { progress.now.key ≡ key_of chain.now.core }
    requires begun { HasBegun (chain_of value repeated chain.now) progress.now.base progress.now.asked }
    ensures comes { IfOk result (λ w. ComesNext (chain_of value repeated chain.now) progress.now.base
        (states_after w.kept progress.now.kept) (found_after w.kept progress.now.found) progress.now.asked w.member w.next) }
    ensures shown { IfOk result (λ w. IsSome w.member ↔ IsSome (question_of w.next)) }
    ensures key { IfOk result (λ w. HasKeyAfter progress.now.key w.kept) }
{
    let mut kept = progress.copy_base()?;
    let mut replay = progress.replay();
    let mut asker = None;
    match chain.follow_by_member(&mut kept, &mut replay, &mut asker) {
        Ok(answer) => Ok(Walked {
            kept: Some(kept),
            next: Next::Gives(answer),
            member: None,
        }),
        Err(Stop::Open) => Ok(Walked {
            kept: Some(kept),
            next: Next::Asks(replay.into_question().unwrap()),
            member: asker,
        }),
        Err(Stop::OutOfMemory) => Err(OutOfMemory),
    }
}

// The same where the profile asks, and this receipt is the last for a role. Roles leave what is kept as it is.
fn next_role(
    chain: &DefaultCredentialsChain,
    planned: &PlannedRoles,
    progress: &KeptProgress,
    last: LastRole,
) -> Result<Walked, OutOfMemory>
    requires plan { Ok planned.now.plan ≡ plan chain.now.core (names_in chain.now.custom_sources.items) }
    requires settings { planned.now.settings ≡ settings_of chain.now.core }
    requires last { IsAtRole last progress.now.asked }
    requires place { IsInProfile (chain_of value repeated chain.now) progress.now.base progress.now.kept progress.now.found progress.now.asked }
    ensures comes { IfOk result (λ w. ComesNext (chain_of value repeated chain.now) progress.now.base
        (states_after w.kept progress.now.kept) (found_after w.kept progress.now.found) progress.now.asked w.member w.next) }
    ensures shown { IfOk result (λ w. IsSome w.member ↔ IsSome (question_of w.next)) }
    ensures key { IfOk result (λ w. HasKeyAfter progress.now.key w.kept) }
{
    let alloc = *chain.custom_sources.allocator();
    let next = next_of_roles(alloc, planned, progress.asked(), last)?;
    match next {
        Next::Asks(question) => Ok(Walked {
            kept: None,
            next: Next::Asks(question),
            member: Some(Member::Profile),
        }),
        Next::Gives(answer) => Ok(Walked {
            kept: None,
            next: Next::Gives(answer),
            member: None,
        }),
    }
}
