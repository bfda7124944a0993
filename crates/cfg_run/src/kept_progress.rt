//! How far a run is that keeps values.
ghost use Rattle.std.specs.Prelude.{◌≡◌, ◌↔◌, ◌++◌, [], take, option_to_list, map, None, Some, IsSome, IfOk, IfSome, OnOk, OnErr};
ghost use Rattle.std.specs.Option.{option_copied};
ghost use Rattle.cfg_kept.specs.FoundValues.{bare};
ghost use Rattle.cfg_kept.specs.KeptStates.{states_of, kept_key};
ghost use Rattle.cfg_run.specs.Marks.{IsMark};
ghost use Rattle.cfg_run.specs.Places.{HasKeyAfter, found_after, states_after};
ghost use Rattle.cfg_run.specs.Roles.{IsAtRole, IsLastRole};

use crate::last_role::{LastRole, last_role_with};
use crate::progress::Progress;
use crate::replay::Replay;
use cfg_chain::Member;
use cfg_kept::Kept;
use cfg_types::OutOfMemory;
use cfg_world::{Question, Receipt};
use std::alloc::Global;
use std::marker::Model;

/// What was kept at the start, with nothing found, and after the last poll, if there was one; what was asked, and the
/// last receipt for a role; and the member that asks the question that is shown.
#[derive(Drop)]
pub(crate) struct KeptProgress {
    alloc: Global,
    base: Kept,
    later: Option<Kept>,
    progress: Progress,
    last_role: Option<LastRole>,
    member: Option<Member>,
}

/// How many receipts there were, and the last of them for a role.
#[derive(Clone, Copy)]
pub(crate) struct Mark {
    count: usize,
    last_role: Option<LastRole>,
}

impl Model for KeptProgress {
    ghost use Rattle.std.specs.Prelude.{◌≡◌, ◌↔◌, [], map, IsSome};
    ghost use Rattle.cfg_kept.specs.FoundValues.{bare};
    ghost use Rattle.cfg_kept.specs.KeptStates.{states_of, kept_key};
    ghost use Rattle.cfg_run.specs.CallSoFar.{CallSoFar, kept_now};
    ghost use Rattle.cfg_run.specs.Roles.{IsLastRole};

    ghost Value = { CallSoFar };

    ghost view = { λ p. record {
      key = kept_key p.base;
      base = states_of p.base;
      kept = states_of (kept_now p.base p.later);
      found = map bare (kept_now p.base p.later).found.items;
      asked = p.progress.asked;
      question = p.progress.question;
      member = p.member;
    } };

    ghost invariant = { λ p. (p.base.found.items ≡ []) × (kept_key (kept_now p.base p.later) ≡ kept_key p.base)
        × (IsSome p.member ↔ IsSome p.progress.question) × IsLastRole p.last_role p.progress.asked };
}

impl KeptProgress {
    /// Nothing was asked, and no question is shown. The values that were found before are given up. Takes no memory.
    pub(crate) fn new(alloc: Global, kept: Kept) -> KeptProgress
        ensures { result ≡ record {
          key = kept_key kept;
          base = states_of kept;
          kept = states_of kept;
          found = [];
          asked = [];
          question = None;
          member = None;
        } }
    {
        let mut base = kept;
        base.clear_found();
        KeptProgress {
            alloc,
            base,
            later: None,
            progress: Progress::new(alloc),
            last_role: None,
            member: None,
        }
    }

    pub(crate) fn asked(&self) -> &[Receipt]
        ensures { result.now ≡ self.now.asked }
    {
        self.progress.asked()
    }

    pub(crate) fn question(&self) -> Option<&Question>
        ensures { option_copied result ≡ self.now.question }
    {
        self.progress.question()
    }

    pub(crate) fn member(&self) -> Option<Member>
        ensures is { result ≡ self.now.member }
        ensures shown { IsSome result ↔ IsSome self.now.question }
    {
        self.member
    }

    /// What is kept now, with the values that were found.
    pub(crate) fn into_kept(self) -> Kept
        ensures states { states_of result ≡ self.kept }
        ensures found { map bare result.found.items ≡ self.found }
        ensures key { kept_key result ≡ self.key }
    {
        let KeptProgress {
            alloc: _,
            base,
            later,
            progress: _,
            last_role: _,
            member: _,
        } = self;
        match later {
            Some(kept) => kept,
            None => base,
        }
    }

    /// With this receipt behind the others. `OutOfMemory` where memory runs out, and nothing changes.
    pub(crate) fn hand_in(&mut self, receipt: Option<Receipt>) -> Result<(), OutOfMemory>
        ensures asked { OnOk result (self.new ≡ record self.old { asked = self.old.asked ++ option_to_list receipt }) }
        ensures stays { OnErr result (self.new ≡ self.old) }
    {
        let last_role = last_role_with(self.progress.asked(), self.last_role, &receipt);
        self.progress.hand_in(receipt)?;
        self.last_role = last_role;
        Ok(())
    }

    /// The last receipt for a role, where there is one, and the profile asks the question that is shown.
    pub(crate) fn last_role_of_profile(&self) -> Option<LastRole>
        ensures last { IfSome result (λ last. IsAtRole last self.now.asked) }
        ensures profile { IsSome result → self.now.member ≡ Some Member.Profile }
        ensures shown { IsSome result → IsSome self.now.question }
    {
        match self.member {
            Some(Member::Profile) => self.last_role,
            _ => None,
        }
    }

    /// How many receipts there are now, and the last of them for a role.
    pub(crate) fn mark(&self) -> Mark
        ensures { IsMark result self.now.asked }
    {
        Mark {
            count: self.progress.asked().len(),
            last_role: self.last_role,
        }
    }

    /// The receipts that there were at the mark stay, and those behind them are given up.
    pub(crate) fn take_back(&mut self, mark: Mark)
        requires { IsLastRole mark.last_role (take mark.count self.old.asked) }
        ensures { self.new ≡ record self.old { asked = take mark.count self.old.asked } }
    {
        self.progress.take_back(mark.count);
        self.last_role = mark.last_role;
    }

    /// With this kept now, if anything is told. It has the key of what was kept at the start.
    pub(crate) fn keep(&mut self, kept: Option<Kept>)
        requires { HasKeyAfter self.old.key kept }
        ensures { self.new ≡ record self.old { kept = states_after kept self.old.kept; found = found_after kept self.old.found } }
    {
        if let Some(kept) = kept {
            self.later = Some(kept);
        }
    }

    /// With this question shown, which this member asks, or none.
    pub(crate) fn show(&mut self, question: Option<Question>, member: Option<Member>)
        requires { IsSome member ↔ IsSome question }
        ensures { self.new ≡ record self.old { question = question; member = member } }
    {
        self.progress.show(question);
        self.member = member;
    }

    /// A copy of what was kept at the start, with nothing found. `OutOfMemory` where memory runs out.
    pub(crate) fn copy_base(&self) -> Result<Kept, OutOfMemory>
        ensures states { IfOk result (λ kept. states_of kept ≡ self.now.base) }
        ensures key { IfOk result (λ kept. kept_key kept ≡ self.now.key) }
        ensures found { IfOk result (λ kept. kept.found.items ≡ []) }
    {
        let kept = self.base.copy(self.alloc)?;
        Ok(kept)
    }

    /// The receipts, handed out again.
    pub(crate) fn replay(&self) -> Replay<'_>
        ensures { result ≡ record { handed = []; left = self.now.asked; unanswered = None } }
    {
        self.progress.replay()
    }
}
