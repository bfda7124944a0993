//! Bearer tokens of IAM Identity Center.
ghost use Rattle.std.specs.Prelude.{◌≡◌, IfOk, IfSome, OnErr, Some, None, true, false};
ghost use Rattle.std.specs.Option.{option_copied};
ghost use Rattle.cfg_base.specs.Text.{characters};
ghost use Rattle.cfg_token.specs.SsoTokens.{is_sso};
ghost use Rattle.cfg_kept.specs.Holds.{HoldsFollows, HoldsBreaks};
ghost use Rattle.cfg_profile.specs.Configuration.{nothing_configured};
ghost use Rattle.cfg_sso.specs.BearerTokens.{bearer as bearer_of, bearer_token, is_memory as is_memory_of};
ghost use Rattle.cfg_sso.specs.SsoSetups.{nothing_named, is_named, IsKeyOf};
ghost use Rattle.cfg_sso.specs.Provides.{ProvidesBearer};

use crate::steps::follow_bearer;
use cfg_kept::Keeper;
use cfg_profile::ProviderConfig;
use cfg_token::{CachedSsoToken, TokenKey};
use cfg_types::{OutOfMemory, Region, SsoTokenProviderError, Text, Token, TokenError, TryCopy};
use cfg_world::{Asking, Devices, Stop, World};
use std::alloc::Global;
use std::marker::Model;

/// Sets up a provider of tokens. Contracts see its configuration and what was set. A setter changes
/// its field alone. One that runs out of memory gives the builder up.
pub struct Builder {
    alloc: Global,
    config: ProviderConfig,
    region: Option<Region>,
    session_name: Option<Text>,
    start_url: Option<Text>,
}

impl Drop for Builder {
    fn drop(self) {
        let Builder {
            alloc: _,
            config: _,
            region: _,
            session_name: _,
            start_url: _,
        } = self;
    }
}

impl Model for Builder {
    ghost use Rattle.cfg_sso.specs.SsoSetups.{BearerBuild, bearer_build_code};

    ghost Value = { BearerBuild };

    ghost coded = { bearer_build_code };

    ghost view = { λ b. record { configuration = b.config; region = b.region; session_name = b.session_name; start_url = b.start_url } };
}

impl Builder {
    /// A builder with no variables and no region of its calls. Nothing is set. `OutOfMemory` where memory
    /// runs out.
    pub fn new(alloc: Global) -> Result<Builder, OutOfMemory>
        ensures { IfOk result (λ b. b ≡ nothing_named (nothing_configured true)) }
    {
        Ok(Builder {
            alloc,
            config: ProviderConfig::without_region(alloc)?,
            region: None,
            session_name: None,
            start_url: None,
        })
    }

    /// With a copy of this configuration, in place of the one that it had. `OutOfMemory` where memory
    /// runs out.
    pub fn configure(mut self, config: &ProviderConfig) -> Result<Builder, OutOfMemory>
        ensures { IfOk result (λ b. b ≡ record self { configuration = config.now }) }
    {
        self.config = config.copy(self.alloc)?;
        Ok(self)
    }

    /// With IAM Identity Center in this region. It is needed.
    pub fn region(mut self, region: Region) -> Builder
        ensures { result ≡ record self { region = Some region } }
    {
        self.region = Some(region);
        self
    }

    /// For this session. It is needed. `OutOfMemory` where memory runs out.
    pub fn session_name(mut self, session_name: &str) -> Result<Builder, OutOfMemory>
        ensures { IfOk result (λ b. b ≡ record self { session_name = Some (characters session_name.now) }) }
    {
        self.session_name = Some(Text::of(self.alloc, session_name)?);
        Ok(self)
    }

    /// Where users sign in. It is needed. `OutOfMemory` where memory runs out.
    pub fn start_url(mut self, start_url: &str) -> Result<Builder, OutOfMemory>
        ensures { IfOk result (λ b. b ≡ record self { start_url = Some (characters start_url.now) }) }
    {
        self.start_url = Some(Text::of(self.alloc, start_url)?);
        Ok(self)
    }

    /// Sets the region of IAM Identity Center, or none.
    pub fn set_region(&mut self, region: Option<Region>) -> &mut Builder
        ensures value { result.now ≡ record self.old { region = region } }
        ensures lent { result.ghost_name ≡ self.entry.ghost_name }
    {
        self.region = region;
        self
    }

    /// Sets the session, or none.
    pub fn set_session_name(&mut self, session_name: Option<Text>) -> &mut Builder
        ensures value { result.now ≡ record self.old { session_name = session_name } }
        ensures lent { result.ghost_name ≡ self.entry.ghost_name }
    {
        self.session_name = session_name;
        self
    }

    /// Sets where users sign in, or nothing.
    pub fn set_start_url(&mut self, start_url: Option<Text>) -> &mut Builder
        ensures value { result.now ≡ record self.old { start_url = start_url } }
        ensures lent { result.ghost_name ≡ self.entry.ghost_name }
    {
        self.start_url = start_url;
        self
    }

    /// Whether all is set that a provider needs: region, session and start URL.
    pub fn is_complete(&self) -> bool
        ensures { result ≡ is_named self.now }
    {
        self.region.is_some() && self.session_name.is_some() && self.start_url.is_some()
    }

    /// The provider. All that [`Self::is_complete`] looks for has to be set. It takes no memory, and
    /// answers no error.
    pub fn build(self) -> Result<SsoTokenProvider, OutOfMemory>
        requires { is_named self ≡ true }
        ensures configuration { IfOk result (λ p. p.configuration ≡ self.configuration) }
        ensures key { IfOk result (λ p. IsKeyOf self p.key) }
        ensures always { OnErr result ⊥ }
    {
        let Builder {
            alloc,
            config,
            region,
            session_name,
            start_url,
        } = self;
        let Some(region) = region else { unreachable!() };
        let Some(session) = session_name else {
            unreachable!()
        };
        let Some(start_url) = start_url else {
            unreachable!()
        };
        let key = TokenKey::Sso {
            session,
            region,
            start_url,
        };
        Ok(SsoTokenProvider { alloc, config, key })
    }
}

/// Bearer tokens of one session of IAM Identity Center. Contracts see its configuration and whose token
/// it is. It keeps nothing between its calls. See [IAM Identity Center credential
/// provider](https://docs.aws.amazon.com/sdkref/latest/guide/feature-sso-credentials.html).
pub struct SsoTokenProvider {
    alloc: Global,
    config: ProviderConfig,
    key: TokenKey,
}

impl Drop for SsoTokenProvider {
    fn drop(self) {
        let SsoTokenProvider {
            alloc: _,
            config: _,
            key: _,
        } = self;
    }
}

impl Model for SsoTokenProvider {
    ghost use Rattle.std.specs.Prelude.{◌≡◌, true};
    ghost use Rattle.cfg_token.specs.SsoTokens.{is_sso};
    ghost use Rattle.cfg_sso.specs.SsoSetups.{BearerSetup, bearer_setup_code};

    ghost Value = { BearerSetup };

    ghost coded = { bearer_setup_code };

    ghost view = { λ p. record { configuration = p.config; key = p.key } };

    ghost invariant = { λ p. is_sso p.key ≡ true };
}

impl SsoTokenProvider {
    /// A builder with no variables and no region of its calls. Nothing is set. `OutOfMemory` where memory
    /// runs out.
    pub fn builder(alloc: Global) -> Result<Builder, OutOfMemory>
        ensures { IfOk result (λ b. b ≡ nothing_named (nothing_configured true)) }
    {
        Builder::new(alloc)
    }

    /// Whose token it is. It is there.
    pub fn token_key(&self) -> Option<&TokenKey>
        ensures { option_copied result ≡ Some self.now.key }
    {
        Some(&self.key)
    }

    /// The body of [`Self::provide_token`], over anything that can be asked. Where a question is left
    /// open it stops there, and taken up again with one answer more it comes to the next. Where memory
    /// runs out it stops with `OutOfMemory`. What is kept is then, and at an open question, as the last
    /// finished holding left it.
    pub fn follow<P: Keeper, A: Asking>(
        &self,
        keeper: &mut P,
        asking: &mut A,
    ) -> Result<Result<Token, TokenError>, Stop>
        requires { P.key_held keeper.old ≡ Some self.now.key }
        ensures follows { HoldsFollows ⟦<A as Asking>⟧ (bearer_token self.now.configuration self.now.key)
            asking.old (P.holdings keeper.old) asking.new (P.holdings keeper.new) result }
        ensures key { P.key_held keeper.new ≡ P.key_held keeper.old }
    {
        follow_bearer(self.alloc, &self.config, &self.key, keeper, asking)
    }

    /// One section of the keeper's token, whose key has to be [`Self::token_key`]. The value that was
    /// found is added to the keeper's list, and what comes of the section is kept in its place. The
    /// token has the access token as its text, and its expiry.
    ///
    /// The kept token is handed out while more than 300 seconds of it are left. Else the session's file
    /// below `HOME` is read, and its token refreshed where that is due.
    ///
    /// # Errors
    ///
    /// - `ProviderError` around the section's error, where it gives no token. No token is kept then.
    ///   - `FailedToLoadToken`: `HOME` is not set to a text; the file could not be read, or holds no token;
    ///     or a refreshed token could not be written to it.
    ///   - `ExpiredToken`: the file's token has expired, and no refresh gave another.
    ///   - `BadExpirationTimeFromSsoOidc`: a refresh gave a lifetime below one second, or one that ends past
    ///     the last moment of all. It has the seconds.
    /// - `OutOfMemory` where memory runs out. The journal then has gained the beginning of such a part,
    ///   and what is kept is as it was, or as the finished section left it.
    pub fn provide_token<P: Keeper, D: Devices>(
        &self,
        keeper: &mut P,
        world: &mut World<D>,
    ) -> Result<Token, TokenError>
        requires { P.key_held keeper.old ≡ Some self.now.key }
        ensures provides { is_memory_of result ≡ false →
            ProvidesBearer ⟦<World<D> as Asking>⟧ self.now.configuration self.now.key
            world.old (P.holdings keeper.old) world.new (P.holdings keeper.new) result }
        ensures stays { is_memory_of result ≡ true →
            HoldsBreaks ⟦<World<D> as Asking>⟧ (bearer_token self.now.configuration self.now.key)
            world.old (P.holdings keeper.old) world.new (P.holdings keeper.new) }
        ensures key { P.key_held keeper.new ≡ P.key_held keeper.old }
    {
        match self.follow(keeper, world) {
            Ok(outcome) => outcome,
            Err(_) => Err(TokenError::OutOfMemory),
        }
    }
}

/// Whether an answer says that memory ran out.
pub fn is_memory(answer: &Result<Token, TokenError>) -> bool
    ensures { result ≡ is_memory_of answer.now }
{
    matches!(answer, Err(TokenError::OutOfMemory))
}
