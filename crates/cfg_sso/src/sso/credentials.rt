//! Credentials of IAM Identity Center.
ghost use Rattle.std.specs.Prelude.{◌≡◌, IfOk, Some, None, true, false, option_map, is_some};
ghost use Rattle.std.specs.Option.{option_copied};
ghost use Rattle.cfg_base.specs.Text.{characters};
ghost use Rattle.cfg_kept.specs.Holds.{HoldsFollows, HoldsBreaks};
ghost use Rattle.cfg_profile.specs.Configuration.{nothing_configured};
ghost use Rattle.cfg_sso.specs.Tokens.{sso_key, HasKey};
ghost use Rattle.cfg_sso.specs.SsoCredentials.{sso_credentials};
ghost use Rattle.cfg_sso.specs.SsoSetups.{nothing_set, is_complete as is_complete_of, build_of};
ghost use Rattle.cfg_types.specs.Classes.{is_memory};
ghost use Rattle.cfg_sso.specs.Provides.{ProvidesSso};

use crate::config::SsoProviderConfig;
use crate::steps::follow_sso;
use cfg_kept::Keeper;
use cfg_profile::ProviderConfig;
use cfg_token::TokenKey;
use cfg_types::{Credentials, CredentialsError, OutOfMemory, Region, Text, TryCopy};
use cfg_world::{Asking, Devices, Stop, World};
use std::alloc::Global;
use std::marker::Model;

/// Sets up a provider of credentials. Contracts see its configuration and what was set. A setter
/// changes its field alone. One that runs out of memory gives the builder up.
pub struct Builder {
    alloc: Global,
    config: ProviderConfig,
    account_id: Option<Text>,
    region: Option<Region>,
    role_name: Option<Text>,
    start_url: Option<Text>,
    session_name: Option<Text>,
}

impl Drop for Builder {
    fn drop(self) {
        let Builder {
            alloc: _,
            config: _,
            account_id: _,
            region: _,
            role_name: _,
            start_url: _,
            session_name: _,
        } = self;
    }
}

impl Model for Builder {
    ghost use Rattle.cfg_sso.specs.SsoSetups.{SsoBuild, sso_build_code};

    ghost Value = { SsoBuild };

    ghost coded = { sso_build_code };

    ghost view = { λ b. record {
      configuration = b.config;
      account_id = b.account_id;
      region = b.region;
      role_name = b.role_name;
      start_url = b.start_url;
      session_name = b.session_name;
    } };
}

impl Builder {
    /// A builder with no variables and no region of its calls. Nothing is set. `OutOfMemory` where memory
    /// runs out.
    pub fn new(alloc: Global) -> Result<Builder, OutOfMemory>
        ensures { IfOk result (λ b. b ≡ nothing_set (nothing_configured true)) }
    {
        Ok(Builder {
            alloc,
            config: ProviderConfig::without_region(alloc)?,
            account_id: None,
            region: None,
            role_name: None,
            start_url: None,
            session_name: None,
        })
    }

    /// With a copy of this configuration, in place of the one that it had. `OutOfMemory` where memory
    /// runs out.
    pub fn configure(mut self, config: &ProviderConfig) -> Result<Builder, OutOfMemory>
        ensures { IfOk result (λ b. b ≡ record self { configuration = config.now }) }
    {
        self.config = config.copy(self.alloc)?;
        Ok(self)
    }

    /// For this account. It is needed. `OutOfMemory` where memory runs out.
    pub fn account_id(mut self, account_id: &str) -> Result<Builder, OutOfMemory>
        ensures { IfOk result (λ b. b ≡ record self { account_id = Some (characters account_id.now) }) }
    {
        self.account_id = Some(Text::of(self.alloc, account_id)?);
        Ok(self)
    }

    /// With IAM Identity Center in this region. It is needed.
    pub fn region(mut self, region: Region) -> Builder
        ensures { result ≡ record self { region = Some region } }
    {
        self.region = Some(region);
        self
    }

    /// For this role. It is needed. `OutOfMemory` where memory runs out.
    pub fn role_name(mut self, role_name: &str) -> Result<Builder, OutOfMemory>
        ensures { IfOk result (λ b. b ≡ record self { role_name = Some (characters role_name.now) }) }
    {
        self.role_name = Some(Text::of(self.alloc, role_name)?);
        Ok(self)
    }

    /// Where users sign in. It is needed, and names the file of the token where no session is named.
    /// `OutOfMemory` where memory runs out.
    pub fn start_url(mut self, start_url: &str) -> Result<Builder, OutOfMemory>
        ensures { IfOk result (λ b. b ≡ record self { start_url = Some (characters start_url.now) }) }
    {
        self.start_url = Some(Text::of(self.alloc, start_url)?);
        Ok(self)
    }

    /// With the token of this session. `OutOfMemory` where memory runs out.
    pub fn session_name(mut self, session_name: &str) -> Result<Builder, OutOfMemory>
        ensures { IfOk result (λ b. b ≡ record self { session_name = Some (characters session_name.now) }) }
    {
        self.session_name = Some(Text::of(self.alloc, session_name)?);
        Ok(self)
    }

    /// Sets the account, or none.
    pub fn set_account_id(&mut self, account_id: Option<Text>) -> &mut Builder
        ensures value { result.now ≡ record self.old { account_id = account_id } }
        ensures lent { result.ghost_name ≡ self.entry.ghost_name }
    {
        self.account_id = account_id;
        self
    }

    /// Sets the region of IAM Identity Center, or none.
    pub fn set_region(&mut self, region: Option<Region>) -> &mut Builder
        ensures value { result.now ≡ record self.old { region = region } }
        ensures lent { result.ghost_name ≡ self.entry.ghost_name }
    {
        self.region = region;
        self
    }

    /// Sets the role, or none.
    pub fn set_role_name(&mut self, role_name: Option<Text>) -> &mut Builder
        ensures value { result.now ≡ record self.old { role_name = role_name } }
        ensures lent { result.ghost_name ≡ self.entry.ghost_name }
    {
        self.role_name = role_name;
        self
    }

    /// Sets where users sign in, or nothing.
    pub fn set_start_url(&mut self, start_url: Option<Text>) -> &mut Builder
        ensures value { result.now ≡ record self.old { start_url = start_url } }
        ensures lent { result.ghost_name ≡ self.entry.ghost_name }
    {
        self.start_url = start_url;
        self
    }

    /// Sets the session, or none.
    pub fn set_session_name(&mut self, session_name: Option<Text>) -> &mut Builder
        ensures value { result.now ≡ record self.old { session_name = session_name } }
        ensures lent { result.ghost_name ≡ self.entry.ghost_name }
    {
        self.session_name = session_name;
        self
    }

    /// Whether all is set that a provider needs: account, region, role and start URL.
    pub fn is_complete(&self) -> bool
        ensures { result ≡ is_complete_of self.now }
    {
        self.account_id.is_some()
            && self.region.is_some()
            && self.role_name.is_some()
            && self.start_url.is_some()
    }

    /// The provider. All that [`Self::is_complete`] looks for has to be set. `OutOfMemory` where memory
    /// runs out.
    pub fn build(self) -> Result<SsoCredentialsProvider, OutOfMemory>
        requires { is_complete_of self ≡ true }
        ensures { IfOk result (λ p. build_of p ≡ self) }
    {
        let Builder {
            alloc,
            config,
            account_id,
            region,
            role_name,
            start_url,
            session_name,
        } = self;
        let Some(account_id) = account_id else {
            unreachable!()
        };
        let Some(region) = region else { unreachable!() };
        let Some(role_name) = role_name else {
            unreachable!()
        };
        let Some(start_url) = start_url else {
            unreachable!()
        };
        let sso = SsoProviderConfig {
            account_id,
            role_name,
            region,
            start_url,
            session_name,
        };
        let key = token_key(alloc, &sso)?;
        Ok(SsoCredentialsProvider {
            alloc,
            config,
            sso,
            key,
        })
    }
}

// Whose token is needed, where a session is named.
fn token_key(alloc: Global, sso: &SsoProviderConfig) -> Result<Option<TokenKey>, OutOfMemory>
    ensures { IfOk result (λ key. key ≡ sso_key sso.now) }
{
    match &sso.session_name {
        None => Ok(None),
        Some(session) => {
            let session = session.copy(alloc)?;
            let region = sso.region.copy(alloc)?;
            let start_url = sso.start_url.copy(alloc)?;
            Ok(Some(TokenKey::Sso {
                session,
                region,
                start_url,
            }))
        }
    }
}

/// Credentials of IAM Identity Center for one role of one account. Contracts see its configuration and
/// what is asked for. It keeps nothing between its calls.
pub struct SsoCredentialsProvider {
    alloc: Global,
    config: ProviderConfig,
    sso: SsoProviderConfig,
    key: Option<TokenKey>,
}

impl Drop for SsoCredentialsProvider {
    fn drop(self) {
        let SsoCredentialsProvider {
            alloc: _,
            config: _,
            sso: _,
            key: _,
        } = self;
    }
}

impl Model for SsoCredentialsProvider {
    ghost use Rattle.std.specs.Prelude.{◌≡◌};
    ghost use Rattle.cfg_sso.specs.SsoSetups.{SsoSetup, sso_setup_code};
    ghost use Rattle.cfg_sso.specs.Tokens.{sso_key};

    ghost Value = { SsoSetup };

    ghost coded = { sso_setup_code };

    ghost view = { λ p. record { configuration = p.config; sso = p.sso } };

    ghost invariant = { λ p. p.key ≡ sso_key p.sso };
}

impl SsoCredentialsProvider {
    /// A builder with no variables and no region of its calls. Nothing is set. `OutOfMemory` where memory
    /// runs out.
    pub fn builder(alloc: Global) -> Result<Builder, OutOfMemory>
        ensures { IfOk result (λ b. b ≡ nothing_set (nothing_configured true)) }
    {
        Builder::new(alloc)
    }

    /// Whose token is needed: that of the session, where one is named, and else none.
    pub fn token_key(&self) -> Option<&TokenKey>
        ensures { option_copied result ≡ sso_key self.now.sso }
    {
        self.key.as_ref()
    }

    /// The body of [`Self::provide_credentials`], over anything that can be asked. Where a question is
    /// left open it stops there, and taken up again with one answer more it comes to the next. Where
    /// memory runs out it stops with `OutOfMemory`. What is kept is then, and at an open question, as the
    /// last finished holding left it.
    pub fn follow<P: Keeper, A: Asking>(
        &self,
        keeper: &mut P,
        asking: &mut A,
    ) -> Result<Result<Credentials, CredentialsError>, Stop>
        requires { HasKey (sso_key self.now.sso) (P.key_held keeper.old) }
        ensures follows { HoldsFollows ⟦<A as Asking>⟧ (sso_credentials self.now.configuration self.now.sso)
            asking.old (P.holdings keeper.old) asking.new (P.holdings keeper.new) result }
        ensures key { P.key_held keeper.new ≡ P.key_held keeper.old }
    {
        follow_sso(self.alloc, &self.config, &self.sso, keeper, asking)
    }

    /// Asks for the role's credentials with one token. Where a session is named it is that of one
    /// section of the keeper's token, whose key has to be [`Self::token_key`]; the value that was found
    /// is added to the keeper's list, and what comes of the section is kept in its place. Else it is the
    /// token in the file that the start URL names, below `HOME`, and nothing is found or kept; the clock is
    /// read behind the file, and a token that does not end after this reading has expired. Then one
    /// `GetRoleCredentials` is sent, in the region that was set.
    ///
    /// The credentials are named `SSO`, have the account that was set, and expire when the reply says,
    /// to the millisecond. They have the reply's session token, where it has one, and the feature
    /// `CredentialsSso`. See [IAM Identity Center credential
    /// provider](https://docs.aws.amazon.com/sdkref/latest/guide/feature-sso-credentials.html).
    ///
    /// # Errors
    ///
    /// - `ProviderError(SsoToken)` around the section's error, where it gives no token, as
    ///   [`SsoTokenProvider::provide_token`](crate::SsoTokenProvider::provide_token) says. Nothing is sent
    ///   then, and no token is kept. Around `ExpiredToken`, where the token of the start URL's file has
    ///   expired; nothing is sent then either.
    /// - `ProviderError(SsoFile)` around the file's error, where there is no session and no token:
    ///   `NoHomeDirectory` where `HOME` is not set to a text, `IoError` where the file could not be
    ///   read, or what is wrong with what it holds (`JsonError`, `Other`, `MissingField`, `InvalidField`).
    ///   Nothing is sent then.
    /// - `ProviderError(Sent)`, `ProviderError(Refused)`: the request failed or was refused. They have the
    ///   kind of failure and the refusal.
    /// - `Unhandled(SsoNoCredentials)`, `Unhandled(SsoNoAccessKey)`, `Unhandled(SsoNoSecretKey)`: its
    ///   reply has no credentials, no id or no secret.
    /// - `OutOfMemory` where memory runs out. The journal then has gained the beginning of such a part,
    ///   and what is kept is as the last finished holding left it.
    pub fn provide_credentials<P: Keeper, D: Devices>(
        &self,
        keeper: &mut P,
        world: &mut World<D>,
    ) -> Result<Credentials, CredentialsError>
        requires { HasKey (sso_key self.now.sso) (P.key_held keeper.old) }
        ensures provides { is_memory result ≡ false →
            ProvidesSso ⟦<World<D> as Asking>⟧ self.now.configuration self.now.sso world.old (P.holdings keeper.old) world.new (P.holdings keeper.new) result }
        ensures stays { is_memory result ≡ true →
            HoldsBreaks ⟦<World<D> as Asking>⟧ (sso_credentials self.now.configuration self.now.sso)
            world.old (P.holdings keeper.old) world.new (P.holdings keeper.new) }
        ensures key { P.key_held keeper.new ≡ P.key_held keeper.old }
    {
        match self.follow(keeper, world) {
            Ok(outcome) => outcome,
            Err(_) => Err(CredentialsError::OutOfMemory),
        }
    }
}
