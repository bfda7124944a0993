//! Chains of credentials providers over members that the caller gives.
ghost use Rattle.std.specs.Prelude.{◌≡◌, ◌++◌, ◌∷◌, [], IfOk, OnErr, None, map};
ghost use Rattle.cfg_base.specs.Text.{characters};
ghost use Rattle.cfg_kept.specs.KeptStates.{kept_key, states_of};
ghost use Rattle.cfg_kept.specs.Kinds.{no_states};
ghost use Rattle.cfg_meta.specs.Fallbacks.{first_there};
ghost use Rattle.cfg_region.specs.Calls.{RegionSet, RegionBreaks};
ghost use Rattle.cfg_chain.specs.Answers.{Answered, RanOut};
ghost use Rattle.cfg_chain.specs.Settings.{alone as alone_of};
ghost use Rattle.cfg_chain.specs.Views.{chain_of};
ghost use Rattle.cfg_credentials_chain.specs.Builds.{EndsByDefault};
ghost use Rattle.cfg_credentials_chain.specs.Members.{needed_in, fallback_in};
ghost use Rattle.cfg_credentials_chain.specs.Provides.{FollowsOn, ProvidesOn, InterruptedOn};
ghost use Rattle.cfg_credentials_chain.specs.Views.{named_asked, members_of};

use crate::member::Member;
use crate::named::NamedMember;
use cfg_chain::{ChainCore, DefaultCredentialsChain};
use cfg_kept::Kept;
use cfg_meta::{first_fallback, follow_members, new_kept, provide_by_members};
use cfg_profile::ProviderConfig;
use cfg_types::{Credentials, CredentialsError, OutOfMemory, Text};
use cfg_world::{Asking, Devices, Stop, World};
use std::alloc::Global;
use std::marker::PhantomData;

/// A chain of credentials providers. It asks its members in order. What is kept between its calls is lent to each
/// of them.
#[derive(Drop)]
pub struct CredentialsProviderChain {
    alloc: Global,
    members: Vec<NamedMember>,
}

impl CredentialsProviderChain {
    /// A chain without members. It is not loaded, with no attempts.
    pub fn empty(alloc: Global) -> CredentialsProviderChain
        ensures { members_of value fallback repeated result ≡ [] }
    {
        CredentialsProviderChain {
            alloc,
            members: Vec::new(alloc),
        }
    }

    /// A chain that begins with this member, which it tells of by this name. `OutOfMemory` where memory runs out.
    pub fn first_try(
        alloc: Global,
        name: &str,
        member: Member,
    ) -> Result<CredentialsProviderChain, OutOfMemory>
        ensures { IfOk result (λ chain. members_of value fallback repeated chain ≡ named_asked value fallback repeated name.now member ∷ []) }
    {
        CredentialsProviderChain::empty(alloc).or_else(name, member)
    }

    /// The chain with this member behind the others, which it tells of by this name. `OutOfMemory` where memory
    /// runs out.
    pub fn or_else(
        mut self,
        name: &str,
        member: Member,
    ) -> Result<CredentialsProviderChain, OutOfMemory>
        ensures { IfOk result (λ chain. members_of value fallback repeated chain
            ≡ members_of value fallback repeated self ++ named_asked value fallback repeated name.now member ∷ []) }
    {
        let name = Text::of(self.alloc, name)?;
        self.members.push(NamedMember {
            name,
            member,
            classifier: PhantomData,
        })?;
        Ok(self)
    }

    /// A chain of the default chain over this configuration, which it tells of as `DefaultProviderChain`. The
    /// default region chain is asked for its region, as building a default chain asks it, and nothing more.
    ///
    /// # Errors
    ///
    /// `OutOfMemory` where memory runs out. The journal then has gained the beginning of the region's part.
    pub fn default_provider<D: Devices>(
        alloc: Global,
        config: ProviderConfig,
        world: &mut World<D>,
    ) -> Result<CredentialsProviderChain, OutOfMemory>
        ensures ends { IfOk result (λ chain. EndsByDefault ⟦<D as Devices>⟧ config [] (members_of value fallback repeated chain) world.old world.new) }
        ensures breaks { OnErr result (RegionBreaks ⟦<D as Devices>⟧ None config world.old world.new) }
    {
        CredentialsProviderChain::empty(alloc).or_default_provider(config, world)
    }

    /// The chain with the default chain over this configuration behind the others, as
    /// [`Self::default_provider`] has it.
    ///
    /// # Errors
    ///
    /// `OutOfMemory` where memory runs out. The journal then has gained the beginning of the region's part.
    pub fn or_default_provider<D: Devices>(
        self,
        config: ProviderConfig,
        world: &mut World<D>,
    ) -> Result<CredentialsProviderChain, OutOfMemory>
        ensures ends { IfOk result (λ chain. EndsByDefault ⟦<D as Devices>⟧ config (members_of value fallback repeated self)
            (members_of value fallback repeated chain)
            world.old world.new) }
        ensures breaks { OnErr result (RegionBreaks ⟦<D as Devices>⟧ None config world.old world.new) }
    {
        let default = default_over(self.alloc, config, world)?;
        self.or_else("DefaultProviderChain", Member::Default(default))
    }

    /// What the chain keeps between calls, for each member in order, with nothing kept. `OutOfMemory` where
    /// memory runs out.
    pub fn new_kept(&self) -> Result<Vec<Kept>, OutOfMemory>
        ensures nothing { IfOk result (λ kept. map states_of kept.items ≡ map (λ _. no_states) (members_of value fallback repeated self.now)) }
        ensures keys { IfOk result (λ kept. map kept_key kept.items ≡ map needed_in (members_of value fallback repeated self.now)) }
    {
        new_kept(self.alloc, self.members.as_slice())
    }

    /// The body of [`Self::provide_credentials`], over anything that can be asked. Where a question is
    /// left open it stops there with `Open`, and taken up again with one answer more it comes to the next.
    /// It stops with `OutOfMemory` where memory runs out. What is kept is one value for each
    /// member, in order, as [`Self::new_kept`] makes it.
    pub fn follow<A: Asking>(
        &self,
        kept: &mut [Kept],
        asking: &mut A,
    ) -> Result<Result<Credentials, CredentialsError>, Stop>
        requires { map kept_key kept.old ≡ map needed_in (members_of value fallback repeated self.now) }
        ensures follows { FollowsOn ⟦<A as Asking>⟧ (members_of value fallback repeated self.now) kept.old kept.new asking.old asking.new result }
        ensures keys { map kept_key kept.new ≡ map kept_key kept.old }
    {
        follow_members(self.alloc, self.members.as_slice(), kept, asking)
    }

    /// Asks the members in order, and answers what the first one that was loaded gives. Members that were
    /// not loaded are passed over, and any other error is the answer. What is kept is one value for each member, in
    /// order, each of a provider with the member's key, as [`Self::new_kept`] makes it.
    ///
    /// The world's journal gains the members' parts and nothing else. The lists of the values that were
    /// found are those of this call alone.
    ///
    /// # Errors
    ///
    /// - `CredentialsNotLoaded(Chain)` where no member was loaded. It tells of each member, in order.
    /// - Any other error of a member, as it is, where each one before it was not loaded.
    /// - `OutOfMemory` where memory runs out. The journal then has gained the beginning of such parts,
    ///   and each kept value is as the last finished holding left it.
    pub fn provide_credentials<D: Devices>(
        &self,
        kept: &mut [Kept],
        world: &mut World<D>,
    ) -> Result<Credentials, CredentialsError>
        requires { map kept_key kept.old ≡ map needed_in (members_of value fallback repeated self.now) }
        ensures provides { Answered result (ProvidesOn ⟦<D as Devices>⟧ (members_of value fallback repeated self.now) kept.old kept.new
            world.old world.new) }
        ensures stays { RanOut result (InterruptedOn ⟦<D as Devices>⟧ (members_of value fallback repeated self.now) kept.old kept.new
            world.old world.new) }
        ensures keys { map kept_key kept.new ≡ map kept_key kept.old }
    {
        provide_by_members(self.alloc, self.members.as_slice(), kept, world)
    }

    /// What a caller may use where a call was interrupted: the first member's credentials that are there,
    /// in order. They are those that were last retrieved from instance metadata, of a provider of metadata
    /// and of a default chain, and what a source of the caller's own falls back on. Nothing is asked, and
    /// what is kept stays. `OutOfMemory` where memory runs out.
    pub fn fallback_on_interrupt(&self, kept: &[Kept]) -> Result<Option<Credentials>, OutOfMemory>
        requires { map kept_key kept.now ≡ map needed_in (members_of value fallback repeated self.now) }
        ensures { IfOk result (λ keys. keys ≡ first_there fallback_in (members_of value fallback repeated self.now) (map states_of kept.now)) }
    {
        first_fallback(self.alloc, self.members.as_slice(), kept)
    }
}

// The default chain over this configuration, in the region of its default region chain.
fn default_over<D: Devices>(
    alloc: Global,
    config: ProviderConfig,
    world: &mut World<D>,
) -> Result<DefaultCredentialsChain, OutOfMemory>
    ensures set { IfOk result (λ chain. RegionSet ⟦<D as Devices>⟧ None config world.old world.new (chain_of value repeated chain).configuration) }
    ensures alone { IfOk result (λ chain. chain_of value repeated chain ≡ alone_of (chain_of value repeated chain).configuration) }
    ensures breaks { OnErr result (RegionBreaks ⟦<D as Devices>⟧ None config world.old world.new) }
{
    Ok(DefaultCredentialsChain {
        core: ChainCore::new(alloc, config, None, world)?,
        custom_sources: Vec::new(alloc),
        imds_client: None,
    })
}
