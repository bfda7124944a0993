//! A call of a chain of regions, a question at a time.
ghost use Rattle.std.specs.Prelude.{◌≡◌, ◌++◌, [], option_to_list, IfOk, IfSome, OnOk, OnErr, None, Some};
ghost use Rattle.std.specs.Option.{option_copied};
ghost use Rattle.cfg_world.specs.Inquiry.{Begun};
ghost use Rattle.cfg_region.specs.SourceLists.{region_sources, trees, chain_tree};
ghost use Rattle.cfg_run.specs.RegionRuns.{IsUnderWay, ComesNext, ComesTo};

use crate::next::Next;
use crate::progress::Progress;
use cfg_region::RegionProviderChain;
use cfg_types::{OutOfMemory, Region};
use cfg_world::{Question, Receipt, Stop};
use std::alloc::Global;

/// What a poll of a region answers.
#[derive(Drop)]
pub enum RegionStep {
    /// The question that is shown is the next one.
    Pending,
    /// There is no next question. This is the region, or none.
    Ready(Option<Region>),
}

/// A call of a chain of regions that asks one question at a time. Whoever polls it puts the question that it
/// shows, and hands the receipt in.
#[derive(Drop)]
pub struct RegionRun<'a> {
    chain: &'a RegionProviderChain,
    progress: Progress,
}

impl<'a> RegionRun<'a> {
    /// A call of this chain, for which nothing is asked yet. Takes no memory.
    pub fn start(alloc: Global, chain: &'a RegionProviderChain) -> RegionRun<'a>
        ensures chain { result.chain.now ≡ chain.now }
        ensures nothing { result.progress ≡ record { asked = []; question = None } }
        ensures under_way { IsUnderWay (chain_tree (region_sources told_region repeated chain.now)) result.progress.asked result.progress.question }
    {
        RegionRun {
            chain,
            progress: Progress::new(alloc),
        }
    }

    /// The question to be put next. None before the first poll that answered `Pending`, and after `Ready`.
    pub fn question(&self) -> Option<&Question>
        ensures { option_copied result ≡ self.now.progress.question }
    {
        self.progress.question()
    }

    /// The receipts that the polls were given, in order.
    pub fn asked(&self) -> &[Receipt]
        ensures { result.now ≡ self.now.progress.asked }
    {
        self.progress.asked()
    }

    /// Goes on by the receipt of the question that is shown, or shows the first question. Without a receipt a later
    /// poll shows what the one before it showed. The run has not been `Ready`, and a receipt's question is the one
    /// that is shown.
    ///
    /// `Pending` comes exactly where a question is next after what was asked, this receipt included; it is shown
    /// then. `Ready` has the region that the chain's sources give over what was asked, which is then their parts in
    /// order, up to the first that gave one.
    ///
    /// # Errors
    ///
    /// `OutOfMemory` where memory runs out. The run is then as it was, and the receipt is given up.
    pub fn poll(&mut self, receipt: Option<Receipt>) -> Result<RegionStep, OutOfMemory>
        requires under_way { IsUnderWay (chain_tree (region_sources told_region repeated self.old.chain.now))
            self.old.progress.asked self.old.progress.question }
        requires fits { IfSome receipt (λ e. self.old.progress.question ≡ Some e.0) }
        ensures chain { self.new.chain.now ≡ self.old.chain.now }
        ensures asked { OnOk result (self.new.progress.asked ≡ self.old.progress.asked ++ option_to_list receipt) }
        ensures comes { IfOk result (λ step. ComesTo (trees (region_sources told_region repeated self.old.chain.now)) self.new.progress step) }
        ensures stays { OnErr result (self.new.progress ≡ self.old.progress) }
    {
        let before = self.progress.asked().len();
        self.progress.hand_in(receipt)?;
        match next_of(self.chain, &self.progress) {
            Ok(Next::Asks(question)) => {
                self.progress.show(Some(question));
                Ok(RegionStep::Pending)
            }
            Ok(Next::Gives(region)) => {
                self.progress.show(None);
                Ok(RegionStep::Ready(region))
            }
            Err(error) => {
                self.progress.take_back(before);
                Err(error)
            }
        }
    }
}

// What comes next of a chain after what was asked so far.
fn next_of(
    chain: &RegionProviderChain,
    progress: &Progress,
) -> Result<Next<Option<Region>>, OutOfMemory>
    requires { Begun (chain_tree (region_sources told_region repeated chain.now)) progress.now.asked }
    ensures { IfOk result (λ next. ComesNext (chain_tree (region_sources told_region repeated chain.now)) progress.now.asked next) }
{
    let mut replay = progress.replay();
    match chain.follow(&mut replay) {
        Ok(region) => Ok(Next::Gives(region)),
        Err(Stop::Open) => Ok(Next::Asks(replay.into_question().unwrap())),
        Err(Stop::OutOfMemory) => Err(OutOfMemory),
    }
}
