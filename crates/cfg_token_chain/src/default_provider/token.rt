//! The default chain of bearer tokens.
ghost use Rattle.std.specs.Prelude.{◌≡◌, IfOk, OnErr, Some, true, false, option_map};
ghost use Rattle.std.specs.Option.{option_copied};
ghost use Rattle.cfg_kept.specs.Holds.{HoldsFollows};
ghost use Rattle.cfg_kept.specs.KeptStates.{kept_holdings, kept_key, states_of};
ghost use Rattle.cfg_kept.specs.Kinds.{no_states};
ghost use Rattle.cfg_sso.specs.BearerTokens.{is_memory};
ghost use Rattle.cfg_sso.specs.Tokens.{HasKey};
ghost use Rattle.cfg_region.specs.Sources.{region_source};
ghost use Rattle.cfg_token_chain.specs.Builds.{BuildBreaks, IsBuilt};
ghost use Rattle.cfg_token_chain.specs.ChainSetups.{configuration_alone, setup_of};
ghost use Rattle.cfg_token_chain.specs.Provides.{ProvidesToken, InterruptedToken};
ghost use Rattle.cfg_token_chain.specs.ProfileTokens.{default_token, DefaultTokenCause};
ghost use Rattle.cfg_token_chain.specs.Sessions.{session_key};
ghost use Rattle.cfg_token_chain.specs.Told.{chain_answer as told_by_chain, told_of_profile};

use crate::profile::token::ProfileFileTokenProvider;
use crate::session::token_key_of;
use cfg_kept::{Keeper, Kept};
use cfg_meta::ChainError;
use cfg_meta::steps::{Turn, note_attempt, turn_of};
use cfg_profile::ProviderConfig;
use cfg_region::RegionSource;
use cfg_region::steps::{with_name, with_region_from};
use cfg_token::TokenKey;
use cfg_types::{OutOfMemory, ProviderChainError, Seq, Token, TokenError};
use cfg_world::{Asking, Devices, Stop, World};
use std::alloc::Global;
use std::marker::Model;

/// The default chain. Its one member is the selected profile. Contracts see its configuration.
pub struct DefaultTokenChain {
    alloc: Global,
    profile: ProfileFileTokenProvider,
}

impl Drop for DefaultTokenChain {
    fn drop(self) {
        let DefaultTokenChain {
            alloc: _,
            profile: _,
        } = self;
    }
}

impl Model for DefaultTokenChain {
    ghost use Rattle.cfg_profile.specs.Configuration.{Configuration, configuration_code};

    ghost Value = { Configuration };

    ghost coded = { configuration_code };

    ghost view = { λ c. c.profile };
}

impl DefaultTokenChain {
    ghost use Rattle.cfg_token_chain.specs.ChainSetups.{nothing_given};

    /// A builder with no variables, no sections and no source of a region. `OutOfMemory` where memory
    /// runs out.
    pub fn builder(alloc: Global) -> Result<Builder, OutOfMemory>
        ensures { IfOk result (λ b. setup_of told_region repeated b ≡ nothing_given) }
    {
        Builder::new(alloc)
    }

    // The chain over this configuration, with the region of its default chain of regions.
    pub(crate) fn of_configuration<D: Devices>(
        alloc: Global,
        config: ProviderConfig,
        world: &mut World<D>,
    ) -> Result<DefaultTokenChain, OutOfMemory>
        ensures built { IfOk result (IsBuilt ⟦<D as Devices>⟧ (configuration_alone config) world.old world.new) }
        ensures breaks { OnErr result (BuildBreaks ⟦<D as Devices>⟧ (configuration_alone config) world.old world.new) }
    {
        let builder = DefaultTokenChain::builder(alloc)?;
        builder.configure(config).build(world)
    }

    /// Whose token the chain needs: that of the profile's session, where it has one.
    pub fn token_key(&self) -> Option<&TokenKey>
        ensures { option_copied result ≡ session_key self.now }
    {
        self.profile.token_key()
    }

    /// What the chain keeps between calls, with nothing kept. `OutOfMemory` where memory runs out.
    pub fn new_kept(&self) -> Result<Kept, OutOfMemory>
        ensures nothing { IfOk result (λ kept. states_of kept ≡ no_states) }
        ensures key { IfOk result (λ kept. kept_key kept ≡ session_key self.now) }
    {
        self.profile.new_kept()
    }

    /// The body of [`Self::provide_token`], over anything that can be asked. Where a question is left
    /// open it stops there, and taken up again with one answer more it comes to the next. Where memory
    /// runs out it stops with `OutOfMemory`. What is kept is then, and at an open question, as the last
    /// finished holding left it.
    pub fn follow<P: Keeper, A: Asking>(
        &self,
        keeper: &mut P,
        asking: &mut A,
    ) -> Result<Result<Token, TokenError>, Stop>
        requires { HasKey (session_key self.now) (P.key_held keeper.old) }
        ensures follows { HoldsFollows ⟦<A as Asking>⟧ (default_token self.now) asking.old (P.holdings keeper.old) asking.new (P.holdings keeper.new) result }
        ensures key { P.key_held keeper.new ≡ P.key_held keeper.old }
    {
        self.follow_profile(keeper, asking)
    }

    // Asks the profile, and tells of it where it was not loaded.
    #[tactic(auto, using(cfg_kept::proofs::HoldingSteps::holding_steps), unfolding(crate::specs::Told::told_of_profile))]
    fn follow_profile<P: Keeper, A: Asking>(
        &self,
        keeper: &mut P,
        asking: &mut A,
    ) -> Result<Result<Token, TokenError>, Stop>
        requires { HasKey (session_key self.now) (P.key_held keeper.old) }
        ensures follows { HoldsFollows ⟦<A as Asking>⟧ (told_of_profile self.now) asking.old (P.holdings keeper.old) asking.new (P.holdings keeper.new) result }
        ensures key { P.key_held keeper.new ≡ P.key_held keeper.old }
    {
        let given = self.profile.follow(keeper, asking)?;
        let outcome = told(self.alloc, given)?;
        Ok(outcome)
    }

    /// Asks the selected profile for a token. What is kept is that of a chain with this key, as
    /// [`Self::new_kept`] makes it.
    ///
    /// The world's journal gains the profile's part and nothing else. The list of the values that were
    /// found is that of this call alone.
    ///
    /// # Errors
    ///
    /// - `TokenNotLoaded(Chain)` with one attempt, named `Profile`, where the profile's path ends without
    ///   a session of IAM Identity Center.
    /// - `InvalidConfiguration` where the sections were refused, or the path of the selected profile has
    ///   an error, which it holds.
    /// - `ProviderError` around the error of the session's section, where it gives no token, as
    ///   [`SsoTokenProvider::provide_token`](crate::SsoTokenProvider::provide_token) says. No token is kept
    ///   then.
    /// - `OutOfMemory` where memory runs out. The journal then has gained the beginning of such a part,
    ///   and what is kept is as it was, or as the finished section left it.
    pub fn provide_token<D: Devices>(
        &self,
        kept: &mut Kept,
        world: &mut World<D>,
    ) -> Result<Token, TokenError>
        requires { kept_key kept.old ≡ session_key self.now }
        ensures provides { is_memory result ≡ false → ProvidesToken (default_token self.now) (DefaultTokenCause self.now) ⟦<D as Devices>⟧
            (states_of kept.old) (states_of kept.new) (kept_holdings kept.new).found world.old world.new result }
        ensures stays { is_memory result ≡ true → InterruptedToken ⟦<D as Devices>⟧ (default_token self.now) (states_of kept.old) (states_of kept.new)
            (kept_holdings kept.new).found world.old world.new }
        ensures key { kept_key kept.new ≡ kept_key kept.old }
    {
        kept.clear_found();
        match self.follow(kept, world) {
            Ok(outcome) => outcome,
            Err(_) => Err(TokenError::OutOfMemory),
        }
    }
}

// What the chain answers where its member answers so.
#[tactic(auto, unfolding(crate::specs::Told::chain_answer))]
fn told(
    alloc: Global,
    given: Result<Token, TokenError>,
) -> Result<Result<Token, TokenError>, OutOfMemory>
    ensures { IfOk result (λ r. told_by_chain given ≡ r) }
{
    match turn_of(given) {
        Turn::PassedOver(error) => {
            let mut attempts = Vec::new(alloc);
            note_attempt(alloc, &mut attempts, "Profile", error)?;
            let attempts = ProviderChainError::new(Seq::of(attempts));
            Ok(Err(TokenError::none_loaded(attempts)))
        }
        Turn::Answers(answer) => Ok(answer),
    }
}

/// Sets up the default chain. Contracts see its configuration, the name of its profile where one was given,
/// and the source of its region where one was set. A setter changes its field alone. A call that runs out
/// of memory gives the builder up.
#[derive(Drop)]
pub struct Builder {
    alloc: Global,
    config: ProviderConfig,
    profile_name: Option<String>,
    region: Option<RegionSource>,
}

impl Builder {
    ghost use Rattle.cfg_token_chain.specs.ChainSetups.{nothing_given};

    /// A builder with no variables, no sections and no source of a region. `OutOfMemory` where memory
    /// runs out.
    pub fn new(alloc: Global) -> Result<Builder, OutOfMemory>
        ensures { IfOk result (λ b. setup_of told_region repeated b ≡ nothing_given) }
    {
        let config = ProviderConfig::without_region(alloc)?;
        Ok(Builder {
            alloc,
            config,
            profile_name: None,
            region: None,
        })
    }

    /// With this configuration, in place of the one that it had.
    pub fn configure(mut self, config: ProviderConfig) -> Builder
        ensures { setup_of told_region repeated result ≡ record (setup_of told_region repeated self) { configuration = config } }
    {
        self.config = config;
        self
    }

    /// The profile of this name, whatever the configuration and the environment say: its token, its region where
    /// no source was set, and where instance metadata is asked for one. `OutOfMemory` where memory runs out.
    pub fn profile_name(mut self, name: &str) -> Result<Builder, OutOfMemory>
        ensures { IfOk result (λ b. setup_of told_region repeated b ≡ record (setup_of told_region repeated self) { profile_name = Some name.now }) }
    {
        self.profile_name = Some(String::from_str(self.alloc, name)?);
        Ok(self)
    }

    /// With the region of this source.
    pub fn region(mut self, region: RegionSource) -> Builder
        ensures { setup_of told_region repeated result ≡ record (setup_of told_region repeated self)
            { region = Some (region_source told_region repeated region) } }
    {
        self.region = Some(region);
        self
    }

    /// Sets the source of the region, or none.
    pub fn set_region(&mut self, region: Option<RegionSource>) -> &mut Builder
        ensures same { result.ghost_name ≡ self.entry.ghost_name }
        ensures value { setup_of told_region repeated result.now ≡ record (setup_of told_region repeated self.entry.now)
            { region = option_map (region_source told_region repeated) region } }
    {
        self.region = region;
        self
    }

    /// The chain. Its source of the region is asked where one was set, and else the default chain of regions
    /// over its configuration and its profile; then nothing more. What that gives, none included, is the
    /// chain's region, in place of the configuration's. A region that was given asks nothing. Whose token the
    /// chain needs is read from its profile now; an error of its path is told by each call, and is none of
    /// this one.
    ///
    /// # Errors
    ///
    /// `OutOfMemory` where memory runs out. The journal then has gained the beginning of the source's part.
    pub fn build<D: Devices>(self, world: &mut World<D>) -> Result<DefaultTokenChain, OutOfMemory>
        ensures built { IfOk result (IsBuilt ⟦<D as Devices>⟧ (setup_of told_region repeated self) world.old world.new) }
        ensures breaks { OnErr result (BuildBreaks ⟦<D as Devices>⟧ (setup_of told_region repeated self) world.old world.new) }
    {
        let Builder {
            alloc,
            config,
            profile_name,
            region,
        } = self;
        let named = with_name(alloc, config, profile_name)?;
        let token_key = token_key_of(alloc, &named)?;
        let config = with_region_from(alloc, region, named, world)?;
        let profile = ProfileFileTokenProvider::with_key(alloc, config, token_key);
        Ok(DefaultTokenChain { alloc, profile })
    }
}
