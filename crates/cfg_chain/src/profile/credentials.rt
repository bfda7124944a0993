//! The provider of a profile's credentials.
ghost use Rattle.std.specs.Option.{option_copied};
ghost use Rattle.std.specs.Prelude.{◌≡◌, [], IfOk, IfSome, Some};
ghost use Rattle.cfg_base.specs.Text.{characters};
ghost use Rattle.cfg_kept.specs.KeptStates.{kept_key, states_of};
ghost use Rattle.cfg_kept.specs.KeyedStates.{HasNoLoads};
ghost use Rattle.cfg_kept.specs.Kinds.{no_states};
ghost use Rattle.cfg_sso.specs.Tokens.{HasKey};
ghost use Rattle.cfg_chain.specs.Answers.{Answered, RanOut};
ghost use Rattle.cfg_chain.specs.Follows.{FollowsProvider};
ghost use Rattle.cfg_chain.specs.Views.{provider_of};
ghost use Rattle.cfg_chain.specs.profile.Plans.{key_of};
ghost use Rattle.cfg_chain.specs.profile.Provides.{ProvidesByProfileOn, InterruptedProfileOn};
ghost use Rattle.cfg_chain.specs.profile.Setups.{no_provider_set, provider_setup, provider_setup_by, with_profile_setup, with_provider, provider_configured};

use crate::call::ChainCall;
use crate::chain_core::ChainCore;
use crate::profile::provider::follow_profile;
use cfg_kept::{Keeper, Kept};
use cfg_profile::{ProfileSource, ProviderConfig};
use cfg_providers::{CustomProvider, CustomSource};
use cfg_region::steps::ProfileBuilder;
use cfg_token::TokenKey;
use cfg_types::{Credentials, CredentialsError, OutOfMemory, Text};
use cfg_world::{Asking, Devices, Stop, World};
use std::alloc::Global;

/// The credentials of the selected profile. Contracts see its configuration, and the caller's own sources, each with
/// what it answers. What is kept between its calls is lent to each of them.
#[derive(Drop)]
pub struct ProfileFileCredentialsProvider {
    core: ChainCore,
    custom_sources: Vec<CustomSource>,
}

impl ProfileFileCredentialsProvider {
    /// A builder with no variables, no sections and no sources. `OutOfMemory` where memory runs out.
    pub fn builder(alloc: Global) -> Result<Builder, OutOfMemory>
        ensures { IfOk result (λ b. provider_setup value b ≡ no_provider_set) }
    {
        Builder::new(alloc)
    }

    /// Whose token the provider needs: that of a session of IAM Identity Center, or of a sign-in session,
    /// where the selected profile's plan begins with one.
    pub fn token_key(&self) -> Option<&TokenKey>
        ensures { option_copied result ≡ key_of (provider_of value self.now).configuration }
    {
        self.core.token_key()
    }

    /// What the provider keeps between calls, with nothing kept. `OutOfMemory` where memory runs out.
    pub fn new_kept(&self) -> Result<Kept, OutOfMemory>
        ensures nothing { IfOk result (λ kept. states_of kept ≡ no_states) }
        ensures loads { IfOk result (λ kept. IfSome kept.token HasNoLoads) }
        ensures found { IfOk result (λ kept. kept.found.items ≡ []) }
        ensures key { IfOk result (λ kept. kept_key kept ≡ key_of (provider_of value self.now).configuration) }
    {
        self.core.new_kept()
    }

    /// The body of [`Self::provide_credentials`], over anything that can be asked. Where a question is
    /// left open it stops there with `Open`, and taken up again with one answer more it comes to the next.
    /// It stops with `OutOfMemory` where memory runs out. The keeper has the key that the provider needs.
    pub fn follow<P: Keeper, A: Asking>(
        &self,
        keeper: &mut P,
        asking: &mut A,
    ) -> Result<Result<Credentials, CredentialsError>, Stop>
        requires { HasKey (key_of (provider_of value self.now).configuration) (P.key_held keeper.old) }
        ensures follows { FollowsProvider ⟦<A as Asking>⟧ ⟦<P as Keeper>⟧ (provider_of value self.now) asking.old asking.new keeper.old keeper.new result }
        ensures key { P.key_held keeper.new ≡ P.key_held keeper.old }
    {
        let config = self.core.config();
        let settled = self.core.settled();
        let call = ChainCall {
            alloc: self.core.alloc(),
            config,
            settled,
            custom_sources: self.custom_sources.as_slice(),
            imds_client: None,
        };
        follow_profile(&call, keeper, asking)
    }

    /// Asks the base of the selected profile's plan, assumes its roles, and answers the last one's
    /// credentials. A profile asks instance metadata by the client of the configuration alone.
    ///
    /// The world's journal gains the part of the base and the exchanges, and nothing else. The list of the
    /// values that were found is that of this call alone. What is kept is that of a provider with this key, as
    /// [`Self::new_kept`] makes it.
    ///
    /// # Errors
    ///
    /// - `CredentialsNotLoaded` where there is no selected profile, or one on its path is missing; or where it
    ///   has no credentials, or a token in their place, or lacks the region or the start URL of IAM Identity
    ///   Center.
    /// - `InvalidConfiguration` where the sections were refused, or the selected profile is at fault, or
    ///   names a source that nobody has.
    /// - `ProviderError(Base)` around the base's error, where it gives no credentials.
    /// - `ProviderError(Role)` where the exchange for a role failed or was refused, or its reply cannot be
    ///   used.
    /// - `OutOfMemory` where memory runs out. The journal then has gained the beginning of such a part,
    ///   and each kept value is as the last finished holding left it.
    pub fn provide_credentials<D: Devices>(
        &self,
        kept: &mut Kept,
        world: &mut World<D>,
    ) -> Result<Credentials, CredentialsError>
        requires { kept_key kept.old ≡ key_of (provider_of value self.now).configuration }
        ensures provides { Answered result (ProvidesByProfileOn ⟦<D as Devices>⟧ (provider_of value self.now) kept.old kept.new world.old world.new) }
        ensures stays { RanOut result (InterruptedProfileOn ⟦<D as Devices>⟧ (provider_of value self.now) kept.old kept.new world.old world.new) }
        ensures key { kept_key kept.new ≡ kept_key kept.old }
    {
        kept.clear_found();
        match self.follow(kept, world) {
            Ok(outcome) => outcome,
            Err(_) => Err(CredentialsError::OutOfMemory),
        }
    }
}

/// Sets up a provider of a profile's credentials. Contracts see its configuration, the name and the sections that
/// are in place of the configuration's, and the caller's own sources. A setter changes its field alone, and one that
/// runs out of memory gives the builder up.
#[derive(Drop)]
pub struct Builder {
    alloc: Global,
    settings: ProfileBuilder<ProviderConfig>,
    custom_sources: Vec<CustomSource>,
}

impl Builder {
    /// A builder with no variables, no sections and no sources. `OutOfMemory` where memory runs out.
    pub fn new(alloc: Global) -> Result<Builder, OutOfMemory>
        ensures { IfOk result (λ b. provider_setup value b ≡ no_provider_set) }
    {
        let settings = ProfileBuilder::new(alloc)?;
        Ok(Builder {
            alloc,
            settings,
            custom_sources: Vec::new(alloc),
        })
    }

    /// With a copy of this configuration, in place of the one that it had. `OutOfMemory` where memory runs out.
    pub fn configure(self, config: &ProviderConfig) -> Result<Builder, OutOfMemory>
        ensures { IfOk result (λ b. provider_setup value b ≡ with_profile_setup (λ s. record s { configuration = config.now }) (provider_setup value self)) }
    {
        let Builder {
            alloc,
            settings,
            custom_sources,
        } = self;
        let settings = settings.configure(config)?;
        Ok(Builder {
            alloc,
            settings,
            custom_sources,
        })
    }

    /// The profile of this name, whatever the configuration and the environment say. `OutOfMemory` where
    /// memory runs out.
    pub fn profile_name(self, name: &str) -> Result<Builder, OutOfMemory>
        ensures { IfOk result (λ b. provider_setup value b ≡ with_profile_setup (λ s. record s { profile_name = Some name.now }) (provider_setup value self)) }
    {
        let Builder {
            alloc,
            settings,
            custom_sources,
        } = self;
        let settings = settings.profile_name(name)?;
        Ok(Builder {
            alloc,
            settings,
            custom_sources,
        })
    }

    /// With these sections, or their refusal, whatever the configuration has.
    pub fn profiles(self, profiles: ProfileSource) -> Builder
        ensures { provider_setup value result ≡ with_profile_setup (λ s. record s { profiles = Some profiles }) (provider_setup value self) }
    {
        let Builder {
            alloc,
            settings,
            custom_sources,
        } = self;
        Builder {
            alloc,
            settings: settings.profiles(profiles),
            custom_sources,
        }
    }

    /// With this source of credentials behind the others, which a profile names by its `credential_source`, ASCII
    /// case of letters apart. It is meant in place of a built-in source of its name, and of an earlier one.
    /// `OutOfMemory` where memory runs out.
    pub fn with_custom_provider(
        mut self,
        name: &str,
        provider: CustomProvider,
    ) -> Result<Builder, OutOfMemory>
        ensures { IfOk result (λ b. provider_setup_by value b ≡ with_provider (characters name.now) (value provider) (provider_setup_by value self)) }
    {
        let name = Text::of(self.alloc, name)?;
        self.custom_sources.push(CustomSource { name, provider })?;
        Ok(self)
    }

    /// The provider. What is settled of every call is read from its configuration now, the plan and whose token it
    /// needs among it. Nothing is asked. `OutOfMemory` where memory runs out.
    pub fn build(self) -> Result<ProfileFileCredentialsProvider, OutOfMemory>
        ensures { IfOk result (λ p. provider_of value p ≡ provider_configured (provider_setup value self)) }
    {
        let Builder {
            alloc,
            settings,
            custom_sources,
        } = self;
        let config = settings.build()?;
        Ok(ProfileFileCredentialsProvider {
            core: ChainCore::of(alloc, config)?,
            custom_sources,
        })
    }
}
