//! Laws of runs, each on a call that carries it.
ghost use Rattle.std.specs.Prelude.{◌≡◌, ◌↔◌, List, Option, IsSome};
ghost use Rattle.cfg_world.specs.declared.ask.Question.{Question as Asked};
ghost use Rattle.cfg_world.specs.Inquiry.{Inquiry, AsksNext};
ghost use Rattle.cfg_world.specs.Fits.{Pair};
ghost use Rattle.cfg_kept.specs.Kinds.{Value, States};
ghost use Rattle.cfg_chain.specs.declared.member.Member.{Member};
ghost use Rattle.cfg_chain.specs.BegunCalls.{IsNextOfCall};
ghost use Rattle.cfg_chain.specs.Settings.{ChainSetting};
ghost use Rattle.cfg_region.specs.Chains.{first_given};
ghost use Rattle.cfg_region.specs.Environments.{Told};
ghost use Rattle.cfg_run.specs.SoFar.{AskedSoFar};
ghost use Rattle.cfg_run.specs.CallSoFar.{CallSoFar};
ghost use Rattle.cfg_run.specs.RegionRuns as region;
ghost use Rattle.cfg_run.specs.Runs as call;
ghost use Rattle.cfg_run.specs.declared.region_run.RegionStep.{RegionStep as Polled};
ghost use Rattle.cfg_run.specs.declared.region_run.RegionStep.TheVariants as region_step;
ghost use Rattle.cfg_run.specs.declared.run.Step.{Step as Stepped};
ghost use Rattle.cfg_run.specs.declared.run.Step.TheVariants as call_step;

/// A poll of a region is `Pending` exactly where a question is next after what was asked.
pub fn a_region_is_pending_where_a_question_is_next()
    ensures { (trees : List (Inquiry Told)) (s : AskedSoFar) (step : Polled) → region.ComesTo trees s step →
        (step ≡ region_step.Pending) ↔ ((question : Asked) × AsksNext (first_given trees) s.asked question) }
{}

/// A run of a region changes by receipts alone: a poll without one, behind one that showed a question, is `Pending`
/// again, and shows the same.
pub fn a_region_changes_by_receipts_alone()
    ensures { (trees : List (Inquiry Told)) (before later : AskedSoFar) (step : Polled) → IsSome before.question →
        region.IsUnderWay (first_given trees) before.asked before.question → later.asked ≡ before.asked → region.ComesTo trees later step →
        (step ≡ region_step.Pending) × (later ≡ before) }
{}

/// A poll of a call is `Pending` exactly where a question is next after what was asked.
pub fn a_call_is_pending_where_a_question_is_next()
    ensures { (over : ChainSetting) (s : CallSoFar) (step : Stepped) → call.ComesTo over s step →
        (step ≡ call_step.Pending) ↔ ((question : Asked) × IsNextOfCall over s.base s.asked question) }
{}

/// A run of a call changes by receipts alone: a poll without one, behind one that showed a question, is `Pending` again,
/// and shows the same; what is kept stays.
pub fn a_call_changes_by_receipts_alone()
    ensures { (over : ChainSetting) (before later : CallSoFar) (step : Stepped) → IsSome before.question → call.IsUnderWay over before →
        later.base ≡ before.base → later.key ≡ before.key → later.asked ≡ before.asked → call.ComesTo over later step →
        (step ≡ call_step.Pending) × (later ≡ before) }
{}

/// One member asks the question that is next: behind one journal there is no other.
pub fn one_member_asks()
    ensures { (over : ChainSetting) (old new newer : States) (found more : List Value) (asked : List Pair) (question other : Asked)
        (member second : Option Member) →
        call.IsWaitingCall over old new found asked question member → call.IsWaitingCall over old newer more asked other second → member ≡ second }
{}
