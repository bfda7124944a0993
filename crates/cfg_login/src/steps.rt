//! Bodies over anything that can be asked, for the crates above.
ghost use Rattle.std.specs.Prelude.{◌≡◌, Some};
ghost use Rattle.cfg_token.specs.declared.token_key.TokenKey.TheVariants.{Login};
ghost use Rattle.cfg_kept.specs.Holds.{HoldsFollows};
ghost use Rattle.cfg_login.specs.SignIns.{sign_in_credentials};

use crate::asked_by::AskedBy;
use crate::section::{credentials_in, section};
use cfg_kept::Keeper;
use cfg_profile::ProviderConfig;
use cfg_types::{Credentials, CredentialsError, Text};
use cfg_world::{Asking, Stop};
use std::alloc::Global;

/// The credentials of one section of the keeper's token, whose key has to be that of this session.
/// Their feature tells who asks. The outcome is as
/// [`LoginCredentialsProvider::provide_credentials`](crate::LoginCredentialsProvider::provide_credentials) says.
///
/// # Errors
///
/// - `Open`: a question is left open, and what is kept is as it was.
/// - `OutOfMemory` where memory runs out. What is kept is as it was, or as the finished section left it.
#[tactic(auto, using(cfg_kept::proofs::HoldingSteps::holding_steps), unfolding(crate::specs::SignIns::sign_in_credentials))]
pub fn follow_login<P: Keeper, A: Asking>(
    alloc: Global,
    config: &ProviderConfig,
    session: &Text,
    by: AskedBy,
    keeper: &mut P,
    asking: &mut A,
) -> Result<Result<Credentials, CredentialsError>, Stop>
    requires { P.key_held keeper.old ≡ Some (Login session.now) }
    ensures follows { HoldsFollows ⟦<A as Asking>⟧ (sign_in_credentials config.now session.now by)
        asking.old (P.holdings keeper.old) asking.new (P.holdings keeper.new) result }
    ensures key { P.key_held keeper.new ≡ P.key_held keeper.old }
{
    let given = section(alloc, config, session, keeper, asking)?;
    let outcome = credentials_in(alloc, by, given)?;
    Ok(outcome)
}
