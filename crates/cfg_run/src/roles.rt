//! What comes next between the roles of a path.
ghost use Rattle.std.specs.Prelude.{◌≡◌, ◌++◌, ◌∷◌, IfOk};
ghost use Rattle.std.specs.Option.{option_copied};
ghost use Rattle.cfg_run.specs.RegionRuns.{ComesNext};
ghost use Rattle.cfg_run.specs.Roles.{AreLeft, signer_in, asked_before, marked_roles};

use crate::last_role::{LastRole, signer_of};
use crate::next::Next;
use crate::planned::PlannedRoles;
use crate::replay::Replay;
use cfg_chain::profile::provider::marked;
use cfg_profile::RoleArn;
use cfg_providers::steps::follow_role_chain;
use cfg_types::{Credentials, CredentialsError, OutOfMemory, TryCopy};
use cfg_world::{Receipt, Stop};
use std::alloc::Global;

/// What comes next of a plan's roles behind these receipts, of which this one is the last for a role. What is left of
/// the roles begins there: its question tells whose credentials sign for it.
pub(crate) fn next_of_roles(
    alloc: Global,
    planned: &PlannedRoles,
    receipts: &[Receipt],
    last: LastRole,
) -> Result<Next<Result<Credentials, CredentialsError>>, OutOfMemory>
    requires { AreLeft planned.now.settings planned.now.plan.roles receipts.now last }
    ensures { IfOk result (λ next. (left : AreLeft planned.now.settings planned.now.plan.roles receipts.now last) →
        ComesNext (marked_roles planned.now.settings (left.role ∷ left.more) left.signer) (left.asked ++ left.entry ∷ left.behind) next) }
{
    let roles = &planned.plan.roles.as_slice()[last.number..];
    let signer = signer_of(&receipts[last.at]).unwrap().copy(alloc)?;
    let first = last.at - questions_before(&roles[0]);
    let mut replay = Replay::new(alloc, &receipts[first..]);
    match follow_role_chain(alloc, signer, roles, &planned.settings, &mut replay) {
        Ok(outcome) => Ok(Next::Gives(marked(outcome)?)),
        Err(Stop::Open) => Ok(Next::Asks(replay.into_question().unwrap())),
        Err(Stop::OutOfMemory) => Err(OutOfMemory),
    }
}

// How many questions a role asks before its exchange.
fn questions_before(role: &RoleArn) -> usize
    ensures { result ≡ asked_before role.now.session_name }
{
    match &role.session_name {
        Some(_) => 0,
        None => 1,
    }
}
