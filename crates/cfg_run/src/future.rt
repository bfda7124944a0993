//! A region that is known already, or that comes by polls.
ghost use Rattle.std.specs.Prelude.{◌≡◌, IfOk, IfSome, OnErr, Some};
ghost use Rattle.std.specs.Option.{option_copied};
ghost use Rattle.cfg_run.specs.FutureRegions.{shown_in, IsUnderWayIn, GoesOn, StaysIn};

use crate::region_run::{RegionRun, RegionStep};
use cfg_types::{OutOfMemory, Region};
use cfg_world::{Question, Receipt};

/// Where the region comes from.
#[derive(Drop)]
enum Source<'a> {
    // It is known already. None once it was handed out.
    Known(Option<Option<Region>>),
    // The run of a chain.
    Polled(RegionRun<'a>),
}

/// A region, or none, that is known already, or that the run of a chain comes to.
#[derive(Drop)]
pub struct ProvideRegion<'a> {
    source: Source<'a>,
}

impl<'a> ProvideRegion<'a> {
    /// This region, or none: the first poll gives it.
    pub fn ready(region: Option<Region>) -> ProvideRegion<'a>
        ensures { result.source ≡ Source.Known (Some region) }
    {
        ProvideRegion {
            source: Source::Known(Some(region)),
        }
    }

    /// What this run comes to.
    pub fn new(run: RegionRun<'a>) -> ProvideRegion<'a>
        ensures { result.source ≡ Source.Polled run.entry }
    {
        ProvideRegion {
            source: Source::Polled(run),
        }
    }

    /// The question to be put next: that of the run. None where the region is known already.
    pub fn question(&self) -> Option<&Question>
        ensures { option_copied result ≡ shown_in self.now.source }
    {
        match &self.source {
            Source::Known(_) => None,
            Source::Polled(run) => run.question(),
        }
    }

    /// The region that is known already, or what a poll of the run answers: [`RegionRun::poll`] has its rules. It was
    /// not `Ready` before.
    ///
    /// # Errors
    ///
    /// `OutOfMemory` where memory runs out. All is then as it was, and the receipt is given up.
    pub fn poll(&mut self, receipt: Option<Receipt>) -> Result<RegionStep, OutOfMemory>
        requires under_way { IsUnderWayIn told_region repeated self.old.source }
        requires fits { IfSome receipt (λ e. shown_in self.old.source ≡ Some e.0) }
        ensures goes_on { IfOk result (λ step. GoesOn told_region repeated receipt step self.old.source self.new.source) }
        ensures stays { OnErr result (StaysIn self.old.source self.new.source) }
    {
        match &mut self.source {
            Source::Known(region) => Ok(RegionStep::Ready(region.take().unwrap())),
            Source::Polled(run) => run.poll(receipt),
        }
    }
}
