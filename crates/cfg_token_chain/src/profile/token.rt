//! The token of the selected profile.
ghost use Rattle.std.specs.Prelude.{◌≡◌, IfOk, true, false};
ghost use Rattle.std.specs.Option.{option_copied};
ghost use Rattle.cfg_kept.specs.Holds.{HoldsFollows};
ghost use Rattle.cfg_kept.specs.KeptStates.{kept_holdings, kept_key, states_of};
ghost use Rattle.cfg_kept.specs.Kinds.{no_states};
ghost use Rattle.cfg_sso.specs.BearerTokens.{is_memory};
ghost use Rattle.cfg_sso.specs.Tokens.{HasKey};
ghost use Rattle.cfg_token_chain.specs.Provides.{ProvidesToken, InterruptedToken};
ghost use Rattle.cfg_token_chain.specs.ProfileTokens.{profile_token, ProfileTokenCause};
ghost use Rattle.cfg_token_chain.specs.Sessions.{session_key};

use crate::session::{session_of, token_key_of};
use cfg_kept::{Keeper, Kept};
use cfg_profile::ProviderConfig;
use cfg_region::steps::{FromProfile, ProfileBuilder};
use cfg_sso::steps::follow_bearer;
use cfg_token::TokenKey;
use cfg_types::{OutOfMemory, Token, TokenError, copy_option};
use cfg_world::{Asking, Devices, Stop, World};
use std::alloc::Global;
use std::marker::Model;

/// The token of the selected profile: that of the session of IAM Identity Center with which its path ends.
/// Contracts see the configuration. It keeps nothing between its calls.
pub struct ProfileFileTokenProvider {
    alloc: Global,
    config: ProviderConfig,
    token_key: Option<TokenKey>,
}

impl Drop for ProfileFileTokenProvider {
    fn drop(self) {
        let ProfileFileTokenProvider {
            alloc: _,
            config: _,
            token_key: _,
        } = self;
    }
}

impl Model for ProfileFileTokenProvider {
    ghost use Rattle.std.specs.Prelude.{◌≡◌};
    ghost use Rattle.cfg_profile.specs.Configuration.{Configuration, configuration_code};
    ghost use Rattle.cfg_token_chain.specs.Sessions.{session_key};

    ghost Value = { Configuration };

    ghost coded = { configuration_code };

    ghost view = { λ p. p.config };

    ghost invariant = { λ p. p.token_key ≡ session_key p.config };
}

impl ProfileFileTokenProvider {
    ghost use Rattle.cfg_region.specs.ProfileSetups.{no_profile_set};

    /// A builder with no variables and no sections. `OutOfMemory` where memory runs out.
    pub fn builder(alloc: Global) -> Result<Builder, OutOfMemory>
        ensures { IfOk result (λ b. b ≡ no_profile_set) }
    {
        ProfileBuilder::new(alloc)
    }

    // A provider over this configuration. Whose token it needs is read from the selected profile now.
    pub(crate) fn of(
        alloc: Global,
        config: ProviderConfig,
    ) -> Result<ProfileFileTokenProvider, OutOfMemory>
        ensures { IfOk result (λ p. p ≡ config) }
    {
        let token_key = token_key_of(alloc, &config)?;
        Ok(ProfileFileTokenProvider {
            alloc,
            config,
            token_key,
        })
    }

    // A provider over this configuration, whose token is that of this key.
    pub(crate) fn with_key(
        alloc: Global,
        config: ProviderConfig,
        token_key: Option<TokenKey>,
    ) -> ProfileFileTokenProvider
        requires { token_key ≡ session_key config }
        ensures { result ≡ config }
    {
        ProfileFileTokenProvider {
            alloc,
            config,
            token_key,
        }
    }

    /// Whose token the provider needs: that of the profile's session, where it has one.
    pub fn token_key(&self) -> Option<&TokenKey>
        ensures { option_copied result ≡ session_key self.now }
    {
        self.token_key.as_ref()
    }

    /// What the provider keeps between calls, with nothing kept. `OutOfMemory` where memory runs out.
    pub fn new_kept(&self) -> Result<Kept, OutOfMemory>
        ensures nothing { IfOk result (λ kept. states_of kept ≡ no_states) }
        ensures key { IfOk result (λ kept. kept_key kept ≡ session_key self.now) }
    {
        let key = copy_option(self.alloc, &self.token_key)?;
        Ok(Kept::new(self.alloc, key))
    }

    /// The body of [`Self::provide_token`], over anything that can be asked. Where a question is left
    /// open it stops there, and taken up again with one answer more it comes to the next. Where memory
    /// runs out it stops with `OutOfMemory`. What is kept is then, and at an open question, as the last
    /// finished holding left it.
    #[tactic(auto, using(cfg_kept::proofs::HoldingSteps::holding_steps), unfolding(crate::specs::ProfileTokens::profile_token))]
    pub fn follow<P: Keeper, A: Asking>(
        &self,
        keeper: &mut P,
        asking: &mut A,
    ) -> Result<Result<Token, TokenError>, Stop>
        requires { HasKey (session_key self.now) (P.key_held keeper.old) }
        ensures follows { HoldsFollows ⟦<A as Asking>⟧ (profile_token self.now) asking.old (P.holdings keeper.old) asking.new (P.holdings keeper.new) result }
        ensures key { P.key_held keeper.new ≡ P.key_held keeper.old }
    {
        match session_of(self.alloc, &self.config)? {
            Ok(key) => follow_bearer(self.alloc, &self.config, &key, keeper, asking),
            Err(error) => Ok(Err(error)),
        }
    }

    /// One section of the token of the profile's session, on what is kept of it, which is that of a
    /// provider with this key, as [`Self::new_kept`] makes it. The token has the access token as its
    /// text, and its expiry.
    ///
    /// The world's journal gains the section's part and nothing else. The list of the values that were
    /// found is that of this call alone.
    ///
    /// # Errors
    ///
    /// - `InvalidConfiguration` where the sections were refused, or the path of the selected profile has
    ///   an error, which it holds.
    /// - `TokenNotLoaded(NoSession)` where the path ends with something else than IAM Identity Center, or
    ///   with IAM Identity Center without a session.
    /// - `ProviderError` around the section's error, where it gives no token, as
    ///   [`SsoTokenProvider::provide_token`](crate::SsoTokenProvider::provide_token) says. No token is kept
    ///   then.
    /// - `OutOfMemory` where memory runs out. The journal then has gained the beginning of such a part,
    ///   and what is kept is as it was, or as the finished section left it.
    pub fn provide_token<D: Devices>(
        &self,
        kept: &mut Kept,
        world: &mut World<D>,
    ) -> Result<Token, TokenError>
        requires { kept_key kept.old ≡ session_key self.now }
        ensures provides { is_memory result ≡ false → ProvidesToken (profile_token self.now) (ProfileTokenCause self.now) ⟦<D as Devices>⟧
            (states_of kept.old) (states_of kept.new) (kept_holdings kept.new).found world.old world.new result }
        ensures stays { is_memory result ≡ true → InterruptedToken ⟦<D as Devices>⟧ (profile_token self.now) (states_of kept.old) (states_of kept.new)
            (kept_holdings kept.new).found world.old world.new }
        ensures key { kept_key kept.new ≡ kept_key kept.old }
    {
        kept.clear_found();
        match self.follow(kept, world) {
            Ok(outcome) => outcome,
            Err(_) => Err(TokenError::OutOfMemory),
        }
    }
}

impl FromProfile for ProfileFileTokenProvider {
    ghost configuration = { λ p. p };

    fn from_profile(
        alloc: Global,
        config: ProviderConfig,
    ) -> Result<ProfileFileTokenProvider, OutOfMemory> {
        ProfileFileTokenProvider::of(alloc, config)
    }
}

/// Sets up a provider of a profile's token. Whose token it needs is read where it is built; an error of the profile's
/// path is told by each call, and is none of `build`.
pub type Builder = ProfileBuilder<ProfileFileTokenProvider>;
