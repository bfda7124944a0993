//! Chains of bearer tokens over members that the caller gives.
ghost use Rattle.std.specs.Prelude.{◌≡◌, ◌++◌, ◌∷◌, [], IfOk, OnErr, true, false, map};
ghost use Rattle.cfg_base.specs.Text.{characters};
ghost use Rattle.cfg_kept.specs.KeptStates.{kept_key, states_of};
ghost use Rattle.cfg_kept.specs.Kinds.{no_states};
ghost use Rattle.cfg_meta.specs.FollowsMembers.{FollowsMembers};
ghost use Rattle.cfg_meta.specs.MemberParts.{keeping_of, with_nothing_found};
ghost use Rattle.cfg_sso.specs.BearerTokens.{is_memory};
ghost use Rattle.cfg_token_chain.specs.Builds.{BuildBreaks, EndsByDefault};
ghost use Rattle.cfg_token_chain.specs.Chains.{members_of};
ghost use Rattle.cfg_token_chain.specs.ChainSetups.{configuration_alone};
ghost use Rattle.cfg_token_chain.specs.Members.{asked_of, name_in, IsTokenTree, needed_in};
ghost use Rattle.cfg_token_chain.specs.Provides.{ProvidesTokens, InterruptedTokens};
ghost use Rattle.cfg_meta.specs.TokenAnswers.{token_rules};

use crate::custom::CustomToken;
use crate::default_provider::token::DefaultTokenChain;
use crate::member::{NamedToken, TokenMember};
use cfg_kept::Kept;
use cfg_meta::{follow_members, new_kept, provide_by_members};
use cfg_profile::ProviderConfig;
use cfg_types::{OutOfMemory, Text, Token, TokenError};
use cfg_world::{Asking, Devices, Stop, World};
use std::alloc::Global;

/// A chain of bearer tokens. It asks its members in order.
#[derive(Drop)]
pub struct TokenProviderChain {
    alloc: Global,
    members: Vec<NamedToken>,
}

impl TokenProviderChain {
    /// A chain without members. It is not loaded, with no attempts.
    pub fn empty(alloc: Global) -> TokenProviderChain
        ensures { members_of told_token result ≡ [] }
    {
        TokenProviderChain {
            alloc,
            members: Vec::new(alloc),
        }
    }

    /// A chain that begins with this member, which it tells of by this name. `OutOfMemory` where memory
    /// runs out.
    pub fn first_try(
        alloc: Global,
        name: &str,
        member: TokenMember,
    ) -> Result<TokenProviderChain, OutOfMemory>
        ensures { IfOk result (λ chain. members_of told_token chain ≡ (characters name.now, asked_of told_token member) ∷ []) }
    {
        TokenProviderChain::empty(alloc).or_else(name, member)
    }

    /// The chain with this member behind the others, which it tells of by this name. `OutOfMemory` where
    /// memory runs out. The chain is then given up.
    pub fn or_else(
        mut self,
        name: &str,
        member: TokenMember,
    ) -> Result<TokenProviderChain, OutOfMemory>
        ensures { IfOk result (λ chain. members_of told_token chain ≡ members_of told_token self ++ (characters name.now, asked_of told_token member) ∷ []) }
    {
        let name = Text::of(self.alloc, name)?;
        self.members.push(NamedToken { name, member })?;
        Ok(self)
    }

    /// A chain of the default chain over this configuration, which it tells of as `DefaultProviderChain`. Its
    /// region is that of the default chain of regions, which is asked now, in place of the configuration's.
    ///
    /// # Errors
    ///
    /// `OutOfMemory` where memory runs out. The journal then has gained the beginning of the regions' part.
    pub fn default_provider<D: Devices>(
        alloc: Global,
        config: ProviderConfig,
        world: &mut World<D>,
    ) -> Result<TokenProviderChain, OutOfMemory>
        ensures ends { IfOk result (λ chain. EndsByDefault ⟦<D as Devices>⟧ config [] (members_of told_token chain) world.old world.new) }
        ensures breaks { OnErr result (BuildBreaks ⟦<D as Devices>⟧ (configuration_alone config) world.old world.new) }
    {
        TokenProviderChain::empty(alloc).or_default_provider(config, world)
    }

    /// The chain with the default chain over this configuration behind the others, as
    /// [`Self::default_provider`] has it.
    ///
    /// # Errors
    ///
    /// `OutOfMemory` where memory runs out. The journal then has gained the beginning of the regions' part.
    /// The chain is then given up.
    pub fn or_default_provider<D: Devices>(
        self,
        config: ProviderConfig,
        world: &mut World<D>,
    ) -> Result<TokenProviderChain, OutOfMemory>
        ensures ends { IfOk result (λ chain. EndsByDefault ⟦<D as Devices>⟧ config (members_of told_token self) (members_of told_token chain)
            world.old world.new) }
        ensures breaks { OnErr result (BuildBreaks ⟦<D as Devices>⟧ (configuration_alone config) world.old world.new) }
    {
        let default = DefaultTokenChain::of_configuration(self.alloc, config, world)?;
        self.or_else("DefaultProviderChain", TokenMember::Default(default))
    }

    /// What the chain keeps between calls, for each member in order, with nothing kept. `OutOfMemory`
    /// where memory runs out.
    pub fn new_kept(&self) -> Result<Vec<Kept>, OutOfMemory>
        ensures nothing { IfOk result (λ kept. map states_of kept.items ≡ map (λ _. no_states) (members_of told_token self.now)) }
        ensures keys { IfOk result (λ kept. map kept_key kept.items ≡ map needed_in (members_of told_token self.now)) }
    {
        new_kept(self.alloc, self.members.as_slice())
    }

    /// The body of [`Self::provide_token`], over anything that can be asked. Where a question is left
    /// open it stops there, and taken up again with one answer more it comes to the next. Where memory
    /// runs out it stops with `OutOfMemory`. Each kept value is then, and at an open question, as the
    /// last finished holding left it.
    pub fn follow<A: Asking>(
        &self,
        kept: &mut [Kept],
        asking: &mut A,
    ) -> Result<Result<Token, TokenError>, Stop>
        requires { map kept_key kept.old ≡ map needed_in (members_of told_token self.now) }
        ensures follows { FollowsMembers ⟦<A as Asking>⟧ token_rules name_in IsTokenTree (members_of told_token self.now) (map keeping_of kept.old)
            (map keeping_of kept.new) asking.old asking.new result }
        ensures keys { map kept_key kept.new ≡ map kept_key kept.old }
    {
        follow_members(self.alloc, self.members.as_slice(), kept, asking)
    }

    /// Asks the members in order, and answers what the first one that was loaded gives. Members that were
    /// not loaded are passed over, and any other error is the answer. What is kept is one value for each
    /// member, in order, each of a provider with the member's key, as [`Self::new_kept`] makes it.
    ///
    /// The world's journal gains the members' parts and nothing else. The lists of the values that were
    /// found are those of this call alone.
    ///
    /// # Errors
    ///
    /// - `TokenNotLoaded(Chain)` where no member was loaded. It tells of each member, in order.
    /// - Any other error of a member, as it is, where each one before it was not loaded.
    ///   `ProviderTimedOut` and `Unhandled` come from a caller's own source alone.
    /// - `OutOfMemory` where memory runs out. The journal then has gained the beginning of such parts,
    ///   and each kept value is as the last finished holding left it.
    pub fn provide_token<D: Devices>(
        &self,
        kept: &mut [Kept],
        world: &mut World<D>,
    ) -> Result<Token, TokenError>
        requires { map kept_key kept.old ≡ map needed_in (members_of told_token self.now) }
        ensures provides { is_memory result ≡ false → ProvidesTokens ⟦<D as Devices>⟧ (members_of told_token self.now)
            (map with_nothing_found (map keeping_of kept.old)) (map keeping_of kept.new) world.old world.new result }
        ensures stays { is_memory result ≡ true → InterruptedTokens ⟦<D as Devices>⟧ (members_of told_token self.now)
            (map with_nothing_found (map keeping_of kept.old)) (map keeping_of kept.new) world.old world.new }
        ensures keys { map kept_key kept.new ≡ map kept_key kept.old }
    {
        provide_by_members(self.alloc, self.members.as_slice(), kept, world)
    }
}
