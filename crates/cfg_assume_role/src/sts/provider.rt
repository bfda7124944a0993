//! The provider of a role's credentials.
ghost use Rattle.std.specs.Option.{option_copied};
ghost use Rattle.std.specs.Prelude.{◌≡◌, IfOk};
ghost use Rattle.cfg_base.specs.Text.{characters};
ghost use Rattle.cfg_kept.specs.Kinds.{no_states};
ghost use Rattle.cfg_kept.specs.KeptStates.{kept_key, states_of};
ghost use Rattle.cfg_sso.specs.Tokens.{HasKey};
ghost use Rattle.cfg_chain.specs.Answers.{Answered, RanOut};
ghost use Rattle.cfg_assume_role.specs.Bases.{base_of, base_key, FollowsRoleBy};
ghost use Rattle.cfg_assume_role.specs.Provides.{ProvidesOn, InterruptedOn};
ghost use Rattle.cfg_assume_role.specs.Setups.{for_role};

use crate::base::RoleBase;
use crate::call::RoleCall;
use crate::exchange::behind_base;
use crate::sts::builder::AssumeRoleProviderBuilder;
use cfg_kept::{Keeper, Kept};
use cfg_token::TokenKey;
use cfg_types::{Credentials, CredentialsError, OutOfMemory, TryCopy};
use cfg_world::{Asking, Devices, Stop, World};
use std::alloc::Global;

/// Credentials for a role, which those of a base sign for.
pub struct AssumeRoleProvider {
    pub(crate) alloc: Global,
    pub(crate) base: RoleBase,
    pub(crate) call: RoleCall,
}

impl Drop for AssumeRoleProvider {
    fn drop(self) {
        let AssumeRoleProvider {
            alloc: _,
            base: _,
            call: _,
        } = self;
    }
}

impl AssumeRoleProvider {
    /// A builder for the role with this ARN, with no variables and no region. `OutOfMemory` where memory runs
    /// out.
    pub fn builder(alloc: Global, role: &str) -> Result<AssumeRoleProviderBuilder, OutOfMemory>
        ensures { IfOk result (λ b. b ≡ for_role (characters role.now)) }
    {
        AssumeRoleProviderBuilder::new(alloc, role)
    }

    /// Whose token the provider needs: that of its base.
    pub fn token_key(&self) -> Option<&TokenKey>
        ensures { option_copied result ≡ base_key (base_of value repeated self.now.base) }
    {
        self.base.token_key()
    }

    /// What the provider keeps between calls, with nothing kept. `OutOfMemory` where memory runs out.
    pub fn new_kept(&self) -> Result<Kept, OutOfMemory>
        ensures nothing { IfOk result (λ kept. states_of kept ≡ no_states) }
        ensures key { IfOk result (λ kept. kept_key kept ≡ base_key (base_of value repeated self.now.base)) }
    {
        let key = match self.token_key() {
            None => None,
            Some(key) => Some(key.copy(self.alloc)?),
        };
        Ok(Kept::new(self.alloc, key))
    }

    /// The body of [`Self::provide_credentials`], over anything that can be asked. Where a question is
    /// left open it stops there with `Open`, and taken up again with one answer more it comes to the next.
    /// It stops with `OutOfMemory` where memory runs out. The keeper has the key that the base needs.
    pub fn follow<P: Keeper, A: Asking>(
        &self,
        keeper: &mut P,
        asking: &mut A,
    ) -> Result<Result<Credentials, CredentialsError>, Stop>
        requires { HasKey (base_key (base_of value repeated self.now.base)) (P.key_held keeper.old) }
        ensures follows { FollowsRoleBy ⟦<A as Asking>⟧ ⟦<P as Keeper>⟧ self.now.call (base_of value repeated self.now.base)
            asking.old asking.new keeper.old keeper.new result }
        ensures key { P.key_held keeper.new ≡ P.key_held keeper.old }
    {
        match self.base.follow(self.alloc, keeper, asking) {
            Ok(given) => behind_base(self.alloc, &self.call, given, asking),
            Err(stop) => Err(stop),
        }
    }

    /// Asks the base, and then AWS STS for the role, by one `AssumeRole` that the base's credentials
    /// sign. The credentials are those of the reply with their expiry, under the provider's name
    /// `AssumeRoleProvider`; the account is the fifth part of the reply's ARN, where it has one. What is kept is
    /// that of a provider with this key, as [`Self::new_kept`] makes it.
    ///
    /// The world's journal gains the base's part and the exchange, and nothing else. The list of the
    /// values that were found is that of this call alone.
    ///
    /// # Errors
    ///
    /// - `ProviderError(Base)` around the base's error, where it gives no credentials. Nothing is sent
    ///   then.
    /// - `InvalidConfiguration(AssumeRole)` where AWS STS refused since it is disabled in the region, or
    ///   the policy is malformed.
    /// - `ProviderError(Refused)` where it refused for another reason, and `ProviderError(Sent)` where
    ///   the request failed.
    /// - `Unhandled(StsNoCredentials)` where its reply has no credentials, and `Unhandled(StsArn)` where the
    ///   reply's ARN has fewer than five parts.
    /// - `OutOfMemory` where memory runs out. The journal then has gained the beginning of such a part,
    ///   and each kept value is as the last finished holding left it.
    pub fn provide_credentials<D: Devices>(
        &self,
        kept: &mut Kept,
        world: &mut World<D>,
    ) -> Result<Credentials, CredentialsError>
        requires { kept_key kept.old ≡ base_key (base_of value repeated self.now.base) }
        ensures provides { Answered result (ProvidesOn ⟦<D as Devices>⟧ self.now.call (base_of value repeated self.now.base) kept.old kept.new
            world.old world.new) }
        ensures stays { RanOut result (InterruptedOn ⟦<D as Devices>⟧ self.now.call (base_of value repeated self.now.base) kept.old kept.new
            world.old world.new) }
        ensures key { kept_key kept.new ≡ kept_key kept.old }
    {
        kept.clear_found();
        match self.follow(kept, world) {
            Ok(outcome) => outcome,
            Err(_) => Err(CredentialsError::OutOfMemory),
        }
    }
}
