//! What a chain's plan says of the roles of the selected profile.
ghost use Rattle.std.specs.Prelude.{◌≡◌, IfOk};
ghost use Rattle.cfg_profile.specs.Settings.{settings_of};
ghost use Rattle.cfg_chain.specs.profile.Plans.{plan};
ghost use Rattle.cfg_run.specs.Planned.{plan_or, settings_or, names_in};

use cfg_chain::DefaultCredentialsChain;
use cfg_chain::profile::plan::plan_of;
use cfg_profile::{ProfileChain, call_settings};
use cfg_providers::steps::names_of;
use cfg_types::{CallSettings, OutOfMemory};
use cfg_world::Halt;

/// The plan of the selected profile, and how the calls for its roles are sent.
#[derive(Drop)]
pub(crate) struct PlannedRoles {
    pub(crate) plan: ProfileChain,
    pub(crate) settings: CallSettings,
}

/// Those of this chain. None where there is no plan. `OutOfMemory` where memory runs out.
pub(crate) fn planned_roles(
    chain: &DefaultCredentialsChain,
) -> Result<Option<PlannedRoles>, OutOfMemory>
    ensures plan { IfOk result (λ planned. plan_or planned (plan chain.now.core (names_in chain.now.custom_sources.items))
        ≡ plan chain.now.core (names_in chain.now.custom_sources.items)) }
    ensures settings { IfOk result (λ planned. settings_or planned (settings_of chain.now.core) ≡ settings_of chain.now.core) }
{
    let alloc = *chain.custom_sources.allocator();
    let config = chain.core.config();
    let names = names_of(alloc, chain.custom_sources.as_slice())?;
    match plan_of(alloc, config, names.as_slice()) {
        Ok(plan) => Ok(Some(PlannedRoles {
            plan,
            settings: call_settings(alloc, config)?,
        })),
        Err(Halt::Refused(_)) => Ok(None),
        Err(Halt::Stopped(_)) => Err(OutOfMemory),
    }
}
