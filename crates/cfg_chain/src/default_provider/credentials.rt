//! The default chain of credentials providers.
ghost use Rattle.std.specs.Option.{option_copied};
ghost use Rattle.std.specs.Prelude.{◌≡◌, [], IfOk, IfSome, OnErr, Some, option_map};
ghost use Rattle.cfg_base.specs.Text.{characters};
ghost use Rattle.cfg_kept.specs.Kinds.{no_states, place_states};
ghost use Rattle.cfg_kept.specs.KeptStates.{kept_key, states_of};
ghost use Rattle.cfg_kept.specs.KeyedStates.{HasNoLoads};
ghost use Rattle.cfg_imds.specs.Clients.{client_rules};
ghost use Rattle.cfg_sso.specs.Tokens.{HasKey};
ghost use Rattle.cfg_region.specs.Sources.{region_source};
ghost use Rattle.cfg_chain.specs.profile.Plans.{key_of};
ghost use Rattle.cfg_chain.specs.Answers.{Answered, RanOut};
ghost use Rattle.cfg_chain.specs.Callers.{TellsCaller};
ghost use Rattle.cfg_chain.specs.Follows.{FollowsTree, FollowsChain, TellsAsker, TellsDefaultAsker};
ghost use Rattle.cfg_chain.specs.Members.{default_chain, default_members};
ghost use Rattle.cfg_chain.specs.Provides.{ProvidesOn, InterruptedOn};
ghost use Rattle.cfg_chain.specs.Settled.{IsSettled};
ghost use Rattle.cfg_chain.specs.Setups.{nothing_set, setup, setup_by, with_region, with_source, Builds, BuildBreaks};
ghost use Rattle.cfg_chain.specs.Views.{chain_of, view};

use crate::call::ChainCall;
use crate::chain::follow_chain;
use crate::chain_core::ChainCore;
use crate::member::Member;
use cfg_imds::Client;
use cfg_kept::{Keeper, Kept, Place};
use cfg_profile::ProviderConfig;
use cfg_providers::{CustomProvider, CustomSource};
use cfg_region::RegionSource;
use cfg_region::steps::with_name;
use cfg_token::TokenKey;
use cfg_types::{Credentials, CredentialsError, OutOfMemory, Text, TryCopy};
use cfg_world::{Asking, Devices, Stop, World};
use std::alloc::Global;

/// Sets up the default chain. Contracts see its configuration, the name of its profile where one was given,
/// where its region comes from where that was set, the caller's own sources, and how the metadata client asks that
/// was given. A setter changes its field alone.
#[derive(Drop)]
pub struct Builder {
    alloc: Global,
    config: ProviderConfig,
    profile_name: Option<String>,
    region: Option<RegionSource>,
    custom_sources: Vec<CustomSource>,
    imds_client: Option<Client>,
}

impl Builder {
    /// With this configuration, in place of the one that it had.
    pub fn configure(mut self, config: ProviderConfig) -> Builder
        ensures { setup value told_region repeated result ≡ record (setup value told_region repeated self) { configuration = config } }
    {
        self.config = config;
        self
    }

    /// The profile of this name, whatever the configuration and the environment say. `OutOfMemory` where
    /// memory runs out.
    pub fn profile_name(mut self, name: &str) -> Result<Builder, OutOfMemory>
        ensures { IfOk result (λ b. setup value told_region repeated b ≡ record (setup value told_region repeated self) { profile_name = Some name.now }) }
    {
        self.profile_name = Some(String::from_str(self.alloc, name)?);
        Ok(self)
    }

    /// With this source of the region, in place of the one that it had.
    pub fn region(mut self, source: RegionSource) -> Builder
        ensures { setup value told_region repeated result
            ≡ with_region (Some (region_source told_region repeated source)) (setup value told_region repeated self) }
    {
        self.region = Some(source);
        self
    }

    /// Sets the source of the region, or none: the default region chain is asked then.
    pub fn set_region(&mut self, source: Option<RegionSource>) -> &mut Builder
        ensures same { result.ghost_name ≡ self.entry.ghost_name }
        ensures value { setup value told_region repeated result.now
            ≡ with_region (option_map (region_source told_region repeated) source) (setup value told_region repeated self.entry.now) }
    {
        self.region = source;
        self
    }

    /// With this source of credentials behind the others, which a profile names by its `credential_source`, ASCII
    /// case of letters apart. It is meant in place of a built-in source of its name, and of an earlier one.
    /// `OutOfMemory` where memory runs out.
    pub fn with_custom_credential_source(
        mut self,
        name: &str,
        provider: CustomProvider,
    ) -> Result<Builder, OutOfMemory>
        ensures { IfOk result (λ b. setup_by value told_region repeated b
            ≡ with_source (characters name.now) (value provider) (setup_by value told_region repeated self)) }
    {
        let name = Text::of(self.alloc, name)?;
        self.custom_sources.push(CustomSource { name, provider })?;
        Ok(self)
    }

    /// With this client for the chain's own member that asks instance metadata, in place of the configuration's. A
    /// source that a profile names asks by the configuration's always.
    pub fn imds_client(mut self, client: Client) -> Builder
        ensures { setup value told_region repeated result ≡ record (setup value told_region repeated self) { client = Some (client_rules repeated client) } }
    {
        self.imds_client = Some(client);
        self
    }

    /// The chain. Its source of the region is asked where one was set, and else the default region chain over
    /// its configuration and its profile; then nothing more. What that gives, none included, is the chain's
    /// region, in place of the configuration's. What is settled of every call is read from its configuration now: whose
    /// token it needs, the plan of its profile, the address of a container, and where instance metadata is asked.
    ///
    /// # Errors
    ///
    /// `OutOfMemory` where memory runs out. The journal then has gained the beginning of such a part.
    pub fn build<D: Devices>(
        self,
        world: &mut World<D>,
    ) -> Result<DefaultCredentialsChain, OutOfMemory>
        ensures built { IfOk result (λ chain. Builds ⟦<D as Devices>⟧ (setup value told_region repeated self)
            world.old world.new (chain_of value repeated chain)) }
        ensures breaks { OnErr result (BuildBreaks ⟦<D as Devices>⟧ (setup value told_region repeated self) world.old world.new) }
    {
        let Builder {
            alloc,
            config,
            profile_name,
            region,
            custom_sources,
            imds_client,
        } = self;
        let config = with_name(alloc, config, profile_name)?;
        let core = ChainCore::new(alloc, config, region, world)?;
        Ok(DefaultCredentialsChain {
            core,
            custom_sources,
            imds_client,
        })
    }
}

/// The default chain. Its members are the environment, the selected profile, a web identity, a container
/// and the instance metadata service. Its fields are open, so that a crate above makes one by a literal, over a
/// core that [`ChainCore::new`] gives: any three are a chain.
#[derive(Drop)]
pub struct DefaultCredentialsChain {
    /// The configuration, and what it settles of every call.
    pub core: ChainCore,
    /// The caller's own sources, which a profile names by `credential_source`. The last of a name counts.
    pub custom_sources: Vec<CustomSource>,
    /// The client by which the chain's own member asks instance metadata, in place of the configuration's.
    pub imds_client: Option<Client>,
}

const MEMBERS: [Member; 5] = [
    Member::Environment,
    Member::Profile,
    Member::WebIdentityToken,
    Member::EcsContainer,
    Member::Ec2InstanceMetadata,
];

impl DefaultCredentialsChain {
    /// A builder with no variables, no sections, no sources and no client. `OutOfMemory` where memory runs out.
    pub fn builder(alloc: Global) -> Result<Builder, OutOfMemory>
        ensures { IfOk result (λ b. setup value told_region repeated b ≡ nothing_set) }
    {
        let config = ProviderConfig::without_region(alloc)?;
        Ok(Builder {
            alloc,
            config,
            profile_name: None,
            region: None,
            custom_sources: Vec::new(alloc),
            imds_client: None,
        })
    }

    /// Whose token the chain needs: that of a session of IAM Identity Center, or of a sign-in session, where
    /// the selected profile's plan begins with one.
    pub fn token_key(&self) -> Option<&TokenKey>
        ensures { option_copied result ≡ key_of self.now.core }
    {
        self.core.token_key()
    }

    /// What the chain keeps between calls, with nothing kept. `OutOfMemory` where memory runs out.
    pub fn new_kept(&self) -> Result<Kept, OutOfMemory>
        ensures nothing { IfOk result (λ kept. states_of kept ≡ no_states) }
        ensures loads { IfOk result (λ kept. IfSome kept.token HasNoLoads) }
        ensures found { IfOk result (λ kept. kept.found.items ≡ []) }
        ensures key { IfOk result (λ kept. kept_key kept ≡ key_of self.now.core) }
    {
        self.core.new_kept()
    }

    /// The body of [`Self::provide_credentials`], over anything that can be asked. Where a question is
    /// left open it stops there with `Open`, and taken up again with one answer more it comes to the next.
    /// It stops with `OutOfMemory` where memory runs out. The keeper has the key that the chain needs.
    pub fn follow<P: Keeper, A: Asking>(
        &self,
        keeper: &mut P,
        asking: &mut A,
    ) -> Result<Result<Credentials, CredentialsError>, Stop>
        requires { HasKey (key_of self.now.core) (P.key_held keeper.old) }
        ensures follows { FollowsChain ⟦<A as Asking>⟧ ⟦<P as Keeper>⟧ (chain_of value repeated self.now) asking.old asking.new keeper.old keeper.new result }
        ensures key { P.key_held keeper.new ≡ P.key_held keeper.old }
    {
        let mut asker = None;
        self.follow_by_member(keeper, asking, &mut asker)
    }

    /// [`Self::follow`], which also leaves the member that was asked last in `asker`. Where a question is left open,
    /// that member asks it.
    pub fn follow_by_member<P: Keeper, A: Asking>(
        &self,
        keeper: &mut P,
        asking: &mut A,
        asker: &mut Option<Member>,
    ) -> Result<Result<Credentials, CredentialsError>, Stop>
        requires { HasKey (key_of self.now.core) (P.key_held keeper.old) }
        ensures follows { FollowsChain ⟦<A as Asking>⟧ ⟦<P as Keeper>⟧ (chain_of value repeated self.now) asking.old asking.new keeper.old keeper.new result }
        ensures key { P.key_held keeper.new ≡ P.key_held keeper.old }
        ensures asker { TellsDefaultAsker ⟦<A as Asking>⟧ ⟦<P as Keeper>⟧ (chain_of value repeated self.now)
            asking.old asking.new keeper.old keeper.new asker.new result }
    {
        let config = self.core.config();
        let settled = self.core.settled();
        let call = ChainCall {
            alloc: self.core.alloc(),
            config,
            settled,
            custom_sources: self.custom_sources.as_slice(),
            imds_client: self.imds_client.as_ref(),
        };
        follow_members(&call, keeper, asking, asker)
    }

    /// Asks the members in order, and answers what the first one that was loaded gives. Members that
    /// were not loaded are passed over, and any other error is the answer. The chain's own member asks the
    /// instance metadata service by the client that the chain was given, where it was given one, and else by that
    /// of the configuration, as a source that a profile names always does.
    ///
    /// The world's journal gains the members' parts and nothing else. The list of the values that were
    /// found is that of this call alone. What is kept is that of a chain with this key, as
    /// [`Self::new_kept`] makes it.
    ///
    /// # Errors
    ///
    /// Those of instance metadata come only where no credentials that were retrieved from it are kept.
    ///
    /// - `CredentialsNotLoaded` where no member was loaded. It tells of each member, in order.
    /// - `InvalidConfiguration` where the environment was passed over and the sections were refused, or
    ///   the selected profile is at fault, or names a source that nobody has; where a container's token or
    ///   address cannot be used; or where the document of instance metadata is an error of the code
    ///   `AssumeRoleUnauthorizedAccess`.
    /// - `ProviderError` where the base of the profile gives no credentials, or the exchange for a role
    ///   failed or was refused, or its reply cannot be used; where a file of web identity or of a container
    ///   fails, or the request of web identity failed or was refused; where a container's reply has no
    ///   status of success, or tells of an error; or where instance metadata cannot be got, or its document
    ///   is an error of another code.
    /// - `Unhandled` where a variable that the environment needs is not Unicode; where the file of web
    ///   identity is not UTF-8, or its reply gives no credentials; where a container did not answer, or its
    ///   reply cannot be read; or where what instance metadata tells is no document.
    /// - `OutOfMemory` where memory runs out. The journal then has gained the beginning of such parts,
    ///   and each kept value is as the last finished holding left it.
    pub fn provide_credentials<D: Devices>(
        &self,
        kept: &mut Kept,
        world: &mut World<D>,
    ) -> Result<Credentials, CredentialsError>
        requires { kept_key kept.old ≡ key_of self.now.core }
        // One call is the parts of its members in order, and its answer is the last one's.
        ensures provides { Answered result (ProvidesOn ⟦<D as Devices>⟧ (chain_of value repeated self.now) kept.old kept.new world.old world.new) }
        ensures tells { Answered result (TellsCaller (chain_of value repeated self.now) kept.new world.old world.new) }
        ensures stays { RanOut result (InterruptedOn ⟦<D as Devices>⟧ (chain_of value repeated self.now) kept.old kept.new world.old world.new) }
        ensures key { kept_key kept.new ≡ kept_key kept.old }
    {
        kept.clear_found();
        match self.follow(kept, world) {
            Ok(outcome) => outcome,
            Err(_) => Err(CredentialsError::OutOfMemory),
        }
    }

    /// What a caller may use where a call was interrupted: the credentials that were last retrieved from
    /// the instance metadata service for the chain, if any were. Nothing is asked, and what is kept stays.
    /// `OutOfMemory` where memory runs out.
    pub fn fallback_on_interrupt(&self, kept: &Kept) -> Result<Option<Credentials>, OutOfMemory>
        ensures { IfOk result (λ c. c ≡ (place_states (states_of kept.now) Place.Chain).retrieved) }
    {
        match kept.retrieved_for(Place::Chain) {
            None => Ok(None),
            Some(retrieved) => Ok(Some(retrieved.credentials().copy(self.core.alloc())?)),
        }
    }
}

// The members' questions.
fn follow_members<P: Keeper, A: Asking>(
    call: &ChainCall,
    keeper: &mut P,
    asking: &mut A,
    asker: &mut Option<Member>,
) -> Result<Result<Credentials, CredentialsError>, Stop>
    requires settled { IsSettled call.now.config.now call.now.settled.now }
    requires key { HasKey (key_of call.now.config.now) (P.key_held keeper.old) }
    ensures follows { FollowsTree ⟦<A as Asking>⟧ ⟦<P as Keeper>⟧ (default_chain (view value repeated call.now))
        asking.old asking.new keeper.old keeper.new result }
    ensures key { P.key_held keeper.new ≡ P.key_held keeper.old }
    ensures asker { TellsAsker ⟦<A as Asking>⟧ ⟦<P as Keeper>⟧ (view value repeated call.now) default_members
        asking.old asking.new keeper.old keeper.new asker.new result }
{
    follow_chain(call, &MEMBERS, keeper, asking, asker)
}
