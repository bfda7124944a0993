//! Laws of profiles, each on a call that carries it.
ghost use Rattle.std.specs.Prelude.{◌≡◌, ◌↔◌, ℕ, List, ◌∷◌, ◌++◌, Some, None, false};
ghost use Rattle.std.specs.List.{All};
ghost use Rattle.std.specs.FinMap.{get};
ghost use Rattle.std.specs.Str.{bytes_eq};
ghost use Rattle.cfg_profile.specs.SectionParts.{SectionParts};
ghost use Rattle.cfg_profile.specs.Sections.{property};
ghost use Rattle.cfg_profile.specs.SectionSets.{sections_by_name};
ghost use Rattle.cfg_profile.specs.LastUnder.{IsOther, IsLastUnder};
ghost use Rattle.cfg_profile.specs.Laws.{OnePath, OneChain, OnePlan, FewRoles, TellsBases, KnownByBytes, KnownInAnyCase};

/// From each profile there is one path, and one end.
pub fn one_path()
    ensures { OnePath }
{}

/// Each name in a set of profiles has one chain, or one error.
pub fn one_chain()
    ensures { OneChain }
{}

/// Each name in a set of profiles has one plan, or one error.
pub fn one_plan()
    ensures { OnePlan }
{}

/// Each error of a base has a text, so that an error around it tells it.
pub fn errors_of_bases_are_told()
    ensures { TellsBases }
{}

/// A chain has no more roles than there are profiles.
pub fn few_roles()
    ensures { FewRoles }
{}

/// A named source is known where one has its bytes, the case of ASCII letters apart: whatever that
/// case is, and with each blank.
pub fn named_sources_are_known_in_any_case()
    ensures bytes { KnownByBytes }
    ensures case { KnownInAnyCase }
{}

/// A key of a section has the last value that stands under it, and none where none stands there.
pub fn the_last_value_of_a_key_counts()
    ensures last { (section : SectionParts) (key value : List ℕ) → (property section key ≡ Some value) ↔ IsLastUnder key section.properties value }
    ensures none { (section : SectionParts) (key : List ℕ) → (property section key ≡ None) ↔ All (IsOther key) section.properties }
{}

/// Of two sections of one name the later counts.
pub fn the_later_of_two_sections_counts()
    ensures { (before behind : List SectionParts) (section : SectionParts) → All (λ other. bytes_eq section.name other.name ≡ false) behind →
        get (sections_by_name (before ++ section ∷ behind)) section.name ≡ Some section }
{}
