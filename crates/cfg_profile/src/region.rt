//! The region of a profile.
ghost use Rattle.std.specs.Prelude.{IfOk, IfSome, IfNone};
ghost use Rattle.cfg_profile.specs.Regions.{HasRegion, HasNoRegion, IsRegion};

use crate::sections::ProfileSet;
use cfg_types::{OutOfMemory, Region};
use std::alloc::Global;

/// The region of the selected profile of the set, by the rule of [`region_of_profile`] and with its error.
/// Selected is the profile whose name the set was made with.
pub fn region_of(alloc: Global, set: &ProfileSet) -> Result<Option<Region>, OutOfMemory>
    ensures { IfOk result (IsRegion set.now.profiles set.now.selected) }
{
    region_of_profile(alloc, set, set.selected_profile())
}

/// The region of the profile of this name: its own `region`, also an empty one, else that of its
/// `source_profile`, and so on. None where that comes back, leads to no profile, or ends at a profile with
/// neither key. `OutOfMemory` where memory runs out.
pub fn region_of_profile(
    alloc: Global,
    set: &ProfileSet,
    name: &str,
) -> Result<Option<Region>, OutOfMemory>
    ensures { IfOk result (IsRegion set.now.profiles name.now) }
{
    match find_region(set, name) {
        None => Ok(None),
        Some(region) => {
            let region = Region::new(alloc, region)?;
            Ok(Some(region))
        }
    }
}

// After as many steps as there are profiles no region is to come.
fn find_region<'a>(set: &'a ProfileSet, selected: &'a str) -> Option<&'a str>
    ensures some { IfSome result (λ region. HasRegion set.now.profiles selected.now region.now) }
    ensures none { IfNone result (HasNoRegion set.now.profiles selected.now) }
{
    let mut name = selected;
    for step in 0..set.profile_count() {
        match set.get_profile(name) {
            None => return None,
            Some(section) => match section.get("region") {
                Some(region) => return Some(region),
                None => match section.get("source_profile") {
                    None => return None,
                    Some(source) => name = source,
                },
            },
        }
    }
    None
}
