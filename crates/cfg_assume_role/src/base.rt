//! Where the credentials come from that sign a role's exchange.
ghost use Rattle.std.specs.Option.{option_copied};
ghost use Rattle.std.specs.Prelude.{◌≡◌};
ghost use Rattle.cfg_sso.specs.Tokens.{HasKey};
ghost use Rattle.cfg_assume_role.specs.Bases.{base_of, base_key, FollowsBaseBy};

use cfg_chain::DefaultCredentialsChain;
use cfg_kept::Keeper;
use cfg_providers::steps::answer_of;
use cfg_providers::{CustomProvider, EnvironmentVariableCredentialsProvider};
use cfg_token::TokenKey;
use cfg_types::{Credentials, CredentialsError, TryCopy};
use cfg_world::{Asking, Stop};
use std::alloc::Global;

/// A base of a role's provider.
pub enum RoleBase {
    /// A default chain.
    Default(DefaultCredentialsChain),
    /// The environment's variables, as they were handed in.
    Environment(EnvironmentVariableCredentialsProvider),
    /// These credentials. Nothing is asked.
    Fixed(Credentials),
    /// A source of the caller's own. Nothing is asked.
    Custom(CustomProvider),
}

impl Drop for RoleBase {
    fn drop(self) {
        match self {
            RoleBase::Default(_) => {}
            RoleBase::Environment(_) => {}
            RoleBase::Fixed(_) => {}
            RoleBase::Custom(_) => {}
        }
    }
}

impl RoleBase {
    /// Whose token the base needs: that of a default chain. The other bases need none.
    pub fn token_key(&self) -> Option<&TokenKey>
        ensures { option_copied result ≡ base_key (base_of value repeated self.now) }
    {
        match self {
            RoleBase::Default(chain) => chain.token_key(),
            _ => None,
        }
    }

    /// What the base answers, over anything that can be asked. It stops with `Open` at a question that is left
    /// open, and with `OutOfMemory` where memory runs out, also where a source of the caller's own answers so.
    #[tactic(auto, using(cfg_kept::proofs::HoldingSteps::holding_steps))]
    pub fn follow<P: Keeper, A: Asking>(
        &self,
        alloc: Global,
        keeper: &mut P,
        asking: &mut A,
    ) -> Result<Result<Credentials, CredentialsError>, Stop>
        requires { HasKey (base_key (base_of value repeated self.now)) (P.key_held keeper.old) }
        ensures follows { FollowsBaseBy ⟦<A as Asking>⟧ ⟦<P as Keeper>⟧ (base_of value repeated self.now) asking.old asking.new keeper.old keeper.new result }
        ensures key { P.key_held keeper.new ≡ P.key_held keeper.old }
    {
        match self {
            RoleBase::Default(chain) => chain.follow(keeper, asking),
            RoleBase::Environment(provider) => {
                let outcome = provider.follow(asking)?;
                Ok(outcome)
            }
            RoleBase::Fixed(credentials) => {
                let credentials = credentials.copy(alloc)?;
                Ok(Ok(credentials))
            }
            RoleBase::Custom(source) => {
                let answer = answer_of(source)?;
                Ok(answer)
            }
        }
    }
}
