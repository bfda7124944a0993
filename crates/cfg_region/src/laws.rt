//! Laws of regions, each on a call that carries it.
ghost use Rattle.std.specs.Prelude.{◌≡◌, ◌↔◌, ◌⊎◌, ◌++◌, ℕ, List, [], Option, Some, None};
ghost use Rattle.cfg_base.specs.TextMap.{Named};
ghost use Rattle.cfg_world.specs.declared.script.DeviceLists.{DeviceLists as Lists};
ghost use Rattle.cfg_world.specs.Agreeing.{AnswerAlike};
ghost use Rattle.cfg_world.specs.Beginnings.{IsPrefix};
ghost use Rattle.cfg_world.specs.Fits.{Pair};
ghost use Rattle.cfg_world.specs.Grows.{Grows};
ghost use Rattle.cfg_world.specs.Held.{Held};
ghost use Rattle.cfg_world.specs.Inquiry.{Inquiry, Reads, Begun};
ghost use Rattle.cfg_world.specs.Script.{Place, Given};
ghost use Rattle.cfg_profile.specs.Configuration.{Configuration};
ghost use Rattle.cfg_profile.specs.SectionParts.{SectionParts};
ghost use Rattle.cfg_profile.specs.Regions.{IsRegion};
ghost use Rattle.cfg_region.specs.Calls.{IsAsked, RegionSet, RegionBegun};
ghost use Rattle.cfg_region.specs.Chains.{first_given};
ghost use Rattle.cfg_region.specs.ChainParts.{AreParts, NoneGives, AreBegunParts};
ghost use Rattle.cfg_region.specs.BegunChains.{HasEnded, AsksOne};
ghost use Rattle.cfg_region.specs.Environments.{Told};
ghost use Rattle.cfg_region.specs.Profiles.{named_region};
ghost use Rattle.cfg_region.specs.Sources.{Source, Given as GivenRegion};

use cfg_world::Devices;

/// The journal of a chain is the parts of its sources in order, up to the first that gave a value, and the
/// other way round: whatever its sources and values are, the chain asks what its sources ask.
pub fn a_chain_is_its_sources<R>()
    ensures { (trees : List (Inquiry (Option R))) (journal : List Pair) (out : Option R) →
        Reads (first_given trees) journal out ↔ AreParts trees journal out }
{}

/// A chain gives nothing exactly where none of its sources gave anything, over the parts of all of them.
pub fn a_chain_gives_nothing_where_no_source_does<R>()
    ensures { (trees : List (Inquiry (Option R))) (journal : List Pair) →
        AreParts trees journal None ↔ NoneGives trees journal }
{}

/// A chain that was interrupted has begun its sources in order: those before the last are whole and gave
/// nothing.
pub fn an_interrupted_chain_is_its_sources<R>()
    ensures { (trees : List (Inquiry (Option R))) (journal : List Pair) →
        Begun (first_given trees) journal ↔ AreBegunParts trees journal }
{}

/// A chain has one journal: two calls whose answers agree as far as both ask the same have the same journal,
/// and come to the same answer.
pub fn one_journal<R>()
    ensures { (trees : List (Inquiry (Option R))) (one other : List Pair) (x y : Option R) →
        AreParts trees one x → AreParts trees other y → AnswerAlike one other → (one ≡ other) × (x ≡ y) }
{}

/// A chain that has begun, as one that was interrupted, is a prefix of each whole journal of it whose answers
/// agree.
pub fn a_beginning_is_a_prefix<R>()
    ensures { (trees : List (Inquiry (Option R))) (one other : List Pair) (x : Option R) →
        AreBegunParts trees one → AreParts trees other x → AnswerAlike one other → IsPrefix one other }
{}

/// Each prefix of a chain's journal is that of a chain that has begun.
pub fn a_prefix_is_a_beginning<R>()
    ensures { (trees : List (Inquiry (Option R))) (one rest : List Pair) (out : Option R) →
        AreParts trees (one ++ rest) out → AreBegunParts trees one }
{}

/// A chain that has begun came to its end, or asks exactly one question next, and never both.
pub fn one_question_is_next<R>()
    ensures { (trees : List (Inquiry (Option R))) (journal : List Pair) →
        AreBegunParts trees journal → HasEnded trees journal ⊎ AsksOne trees journal }
{}

/// Over one script of devices, from one place, a chain has one journal and one answer.
pub fn one_script_one_region<R>()
    ensures { (trees : List (Inquiry (Option R))) (lists : Lists) (place : Place) (one other : List Pair) (x y : Option R) →
        AreParts trees one x → AreParts trees other y → Given lists place one → Given lists place other → (one ≡ other) × (x ≡ y) }
{}

/// A configuration asks one source for its region: the one that is given, else its default chain, which asks
/// instance metadata where the configuration says.
pub fn a_configuration_asks_one_source()
    ensures { (given : Option Source) (conf : Configuration) (one other : Source) → IsAsked given conf one → IsAsked given conf other → one ≡ other }
{}

/// A configuration that is given a region, or none, has it, and nothing is asked for it. What builds a default
/// chain ensures `RegionSet` of its source.
pub fn a_given_region_asks_nothing<D: Devices>()
    ensures { (told : Told) (conf set : Configuration) (old new : Held D) →
        RegionSet ⟦<D as Devices>⟧ (Some (GivenRegion told)) conf old new set →
        Grows ⟦<D as Devices>⟧ [] old new × (set ≡ record conf { region = told }) }
{}

/// Over answers that agree as far as both ask the same, a configuration gets one region, and the same is asked
/// for it. What was asked before memory ran out is a prefix of that.
pub fn one_configuration<D: Devices>()
    ensures set { (given : Option Source) (conf : Configuration) (old new before later : Held D) (a b : Configuration)
        (x : RegionSet ⟦<D as Devices>⟧ given conf old new a) (y : RegionSet ⟦<D as Devices>⟧ given conf before later b) →
        AnswerAlike x.part y.part → (x.part ≡ y.part) × (a ≡ b) }
    ensures begun { (given : Option Source) (conf : Configuration) (old new before later : Held D) (b : Configuration)
        (x : RegionBegun ⟦<D as Devices>⟧ given conf old new) (y : RegionSet ⟦<D as Devices>⟧ given conf before later b) →
        AnswerAlike x.breaks.part y.part → IsPrefix x.breaks.part y.part }
{}

/// Over one script of devices, from one place, a configuration gets one region, and the same is asked for it.
pub fn one_script_one_configuration<D: Devices>()
    ensures { (given : Option Source) (conf : Configuration) (lists : Lists) (place : Place)
        (old new before later : Held D) (a b : Configuration)
        (x : RegionSet ⟦<D as Devices>⟧ given conf old new a) (y : RegionSet ⟦<D as Devices>⟧ given conf before later b) →
        Given lists place x.part → Given lists place y.part → (x.part ≡ y.part) × (a ≡ b) }
{}

/// The region of a profile is that of its path, and there is no other such answer.
pub fn the_region_of_a_profile_is_that_of_its_path()
    ensures path { (profiles : Named SectionParts) (name : List ℕ) → IsRegion profiles name (named_region profiles name) }
    ensures only { (profiles : Named SectionParts) (name : List ℕ) (answer : Option (List ℕ)) →
        IsRegion profiles name answer → named_region profiles name ≡ answer }
{}
