//! Regions that a caller brings.
ghost use Rattle.std.specs.Prelude.{◌≡◌, IfOk};
ghost use Rattle.cfg_region.specs.Environments.{Told};

use cfg_types::{OutOfMemory, Region};

/// A source of a region, as it is handed in.
pub type CustomRegion = Box<dyn ProvideRegion + Send + Sync + Drop>;

/// A source of a region that a caller brings. It answers without the world, and each time the same: the
/// region that it stands for, none where it stands for none, or that memory ran out.
pub trait ProvideRegion: Send + Sync {
    /// What it tells.
    ghost told_region: { Self → Told };

    /// The region, or none. `OutOfMemory` where memory runs out.
    fn region(&self) -> Result<Option<Region>, OutOfMemory>
        ensures { IfOk result (λ region. region ≡ told_region self.now) };
}

// What a source tells.
pub(crate) fn region_told(own: &CustomRegion) -> Result<Option<Region>, OutOfMemory>
    ensures { IfOk result (λ region. region ≡ told_region own.now) }
{
    own.region()
}
