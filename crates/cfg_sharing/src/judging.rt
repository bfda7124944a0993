//! Whether callers' journals, what they found and what they left kept tell of one history.
ghost use Rattle.std.specs.Prelude.{◌≡◌, IfOk, IfSome, MatchBool, MatchResult};
ghost use Rattle.cfg_sharing.specs.Agreement.{handed_back, SameHistory, Differs, Agrees, IsFault};

use crate::shared::{ShareFault, Shared};
use cfg_kept::Keeper;
use cfg_types::OutOfMemory;
use cfg_world::Devices;
use cfg_world::same::Same;
use std::alloc::Global;

/// These calls, as the fault that they are where the histories do not agree.
pub(crate) fn judge<D: Devices + Drop>(
    alloc: Global,
    shared: Shared<D>,
) -> Result<Shared<D>, ShareFault<D>>
    ensures same { IfSome (handed_back result) (λ back. back ≡ shared) }
    ensures agrees { MatchResult result Agrees IsFault }
{
    let has_one = has_one_history(alloc, &shared)?;
    if !has_one {
        return Err(ShareFault::HistoryDiffers(shared));
    }
    let strays = shared.strays();
    if strays != 0 {
        return Err(ShareFault::HistoryDiffers(shared));
    }
    Ok(shared)
}

// Whether the readings in the records are those in the journals, where there is a token.
fn has_one_history<D: Devices>(alloc: Global, shared: &Shared<D>) -> Result<bool, OutOfMemory>
    ensures { IfOk result (λ b. MatchBool b (SameHistory shared.now) (Differs shared.now)) }
{
    if shared.kept.key().is_none() {
        return Ok(true);
    }
    let handed = shared.handed(alloc)?;
    let recorded = shared.recorded(alloc)?;
    Ok(handed.same(&recorded))
}
