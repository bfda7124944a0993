//! Credentials of sign-in sessions.
ghost use Rattle.std.specs.Prelude.{◌≡◌, IfOk, Some, true, false};
ghost use Rattle.std.specs.Option.{option_copied};
ghost use Rattle.cfg_base.specs.Text.{characters};
ghost use Rattle.cfg_token.specs.declared.token_key.TokenKey.TheVariants.{Login};
ghost use Rattle.cfg_kept.specs.Holds.{HoldsFollows, HoldsBreaks};
ghost use Rattle.cfg_profile.specs.Configuration.{nothing_configured};
ghost use Rattle.cfg_types.specs.Classes.{is_memory};
ghost use Rattle.cfg_login.specs.SignIns.{sign_in_credentials};
ghost use Rattle.cfg_login.specs.SignInSetups.{session_alone};
ghost use Rattle.cfg_login.specs.Provides.{ProvidesSignIn};

use crate::asked_by::AskedBy;
use crate::steps::follow_login;
use cfg_kept::Keeper;
use cfg_profile::ProviderConfig;
use cfg_token::TokenKey;
use cfg_types::{Credentials, CredentialsError, OutOfMemory, Text, TryCopy};
use cfg_world::{Asking, Devices, Stop, World};
use std::alloc::Global;
use std::marker::Model;

/// Sets up a provider of a session's credentials. Contracts see its configuration and its session.
pub struct Builder {
    alloc: Global,
    config: ProviderConfig,
    session: Text,
}

impl Drop for Builder {
    fn drop(self) {
        let Builder {
            alloc: _,
            config: _,
            session: _,
        } = self;
    }
}

impl Model for Builder {
    ghost use Rattle.cfg_login.specs.SignInSetups.{SignInSetup, sign_in_setup_code};

    ghost Value = { SignInSetup };

    ghost coded = { sign_in_setup_code };

    ghost view = { λ b. record { configuration = b.config; session = b.session } };
}

impl Builder {
    /// With a copy of this configuration, in place of the one that it had. `OutOfMemory` where memory runs
    /// out; the builder is given up then.
    pub fn configure(mut self, config: &ProviderConfig) -> Result<Builder, OutOfMemory>
        ensures { IfOk result (λ b. b ≡ record self { configuration = config.now }) }
    {
        self.config = config.copy(self.alloc)?;
        Ok(self)
    }

    /// The provider. `OutOfMemory` where memory runs out.
    pub fn build(self) -> Result<LoginCredentialsProvider, OutOfMemory>
        ensures { IfOk result (λ p. p ≡ self) }
    {
        let Builder {
            alloc,
            config,
            session,
        } = self;
        let key = TokenKey::Login {
            session: session.copy(alloc)?,
        };
        Ok(LoginCredentialsProvider {
            alloc,
            config,
            session,
            key,
        })
    }
}

/// Credentials of a sign-in session, as `aws login` begins one. Contracts see its configuration and its
/// session. It keeps nothing between its calls.
pub struct LoginCredentialsProvider {
    alloc: Global,
    config: ProviderConfig,
    session: Text,
    key: TokenKey,
}

impl Drop for LoginCredentialsProvider {
    fn drop(self) {
        let LoginCredentialsProvider {
            alloc: _,
            config: _,
            session: _,
            key: _,
        } = self;
    }
}

impl Model for LoginCredentialsProvider {
    ghost use Rattle.std.specs.Prelude.{◌≡◌};
    ghost use Rattle.cfg_token.specs.declared.token_key.TokenKey.TheVariants.{Login};
    ghost use Rattle.cfg_login.specs.SignInSetups.{SignInSetup, sign_in_setup_code};

    ghost Value = { SignInSetup };

    ghost coded = { sign_in_setup_code };

    ghost view = { λ p. record { configuration = p.config; session = p.session } };

    ghost invariant = { λ p. p.key ≡ Login p.session };
}

impl LoginCredentialsProvider {
    /// A builder for this session, which is named by an ARN like `arn:aws:iam::123456789012:user/Admin`.
    /// It has no variables and no region of its calls, so that no folder of the token's file is known
    /// before [`Builder::configure`]. `OutOfMemory` where memory runs out.
    pub fn builder(alloc: Global, session: &str) -> Result<Builder, OutOfMemory>
        ensures { IfOk result (λ b. b ≡ session_alone (nothing_configured true) (characters session.now)) }
    {
        Ok(Builder {
            alloc,
            config: ProviderConfig::without_region(alloc)?,
            session: Text::of(alloc, session)?,
        })
    }

    /// Whose token is needed: the session's. It is there.
    pub fn token_key(&self) -> Option<&TokenKey>
        ensures { option_copied result ≡ Some (Login self.now.session) }
    {
        Some(&self.key)
    }

    /// The body of [`Self::provide_credentials`], over anything that can be asked. Where a question is
    /// left open it stops there with `Open`, and taken up again with one answer more it comes to the next.
    /// `OutOfMemory` where memory runs out. What is kept is as there.
    pub fn follow<P: Keeper, A: Asking>(
        &self,
        keeper: &mut P,
        asking: &mut A,
    ) -> Result<Result<Credentials, CredentialsError>, Stop>
        requires { P.key_held keeper.old ≡ Some (Login self.now.session) }
        ensures follows { HoldsFollows ⟦<A as Asking>⟧ (sign_in_credentials self.now.configuration self.now.session AskedBy.Caller)
            asking.old (P.holdings keeper.old) asking.new (P.holdings keeper.new) result }
        ensures key { P.key_held keeper.new ≡ P.key_held keeper.old }
    {
        let by = AskedBy::Caller;
        follow_login(self.alloc, &self.config, &self.session, by, keeper, asking)
    }

    /// The credentials of one section of the keeper's token, whose key has to be [`Self::token_key`].
    /// The value that was found is added to the keeper's list, and what comes of the section is kept in
    /// its place. The file of the token stands in the folder that `AWS_LOGIN_CACHE_DIRECTORY` names, or
    /// else in `.aws/login/cache` below `HOME`.
    ///
    /// A kept token is handed out while more than 300 seconds of it are left. Else its file is read, and
    /// the token there is refreshed where at most 300 seconds of it are left, unless a refresh was granted,
    /// or failed, less than 30 seconds ago.
    ///
    /// The credentials are named `Login`, and have the token's expiry, session token and account. That
    /// a new token could not be written to its file is no error.
    ///
    /// # Errors
    ///
    /// They hold the section's error, as `LoginToken`.
    ///
    /// - `InvalidConfiguration`: the file lacks a member (`MissingField`).
    /// - `ProviderError`: a refresh that was due failed (`RefreshFailed`), with what the user can do
    ///   where the refusal tells it.
    /// - `Unhandled`: no folder is known (`NoHomeDirectory`), the file could not be read (`IoError`)
    ///   or holds no token (`JsonError`, `Other`), or the token has expired and the last refresh that
    ///   was granted, or failed, is less than 30 seconds ago (`ExpiredToken`).
    /// - `OutOfMemory` where memory runs out. The journal then has gained the beginning of such a part,
    ///   and what is kept is as it was, or as the finished section left it.
    pub fn provide_credentials<P: Keeper, D: Devices>(
        &self,
        keeper: &mut P,
        world: &mut World<D>,
    ) -> Result<Credentials, CredentialsError>
        requires { P.key_held keeper.old ≡ Some (Login self.now.session) }
        ensures provides { is_memory result ≡ false →
            ProvidesSignIn ⟦<World<D> as Asking>⟧ self.now.configuration self.now.session AskedBy.Caller
            world.old (P.holdings keeper.old) world.new (P.holdings keeper.new) result }
        ensures stays { is_memory result ≡ true →
            HoldsBreaks ⟦<World<D> as Asking>⟧ (sign_in_credentials self.now.configuration self.now.session AskedBy.Caller)
            world.old (P.holdings keeper.old) world.new (P.holdings keeper.new) }
        ensures key { P.key_held keeper.new ≡ P.key_held keeper.old }
    {
        match self.follow(keeper, world) {
            Ok(outcome) => outcome,
            Err(_) => Err(CredentialsError::OutOfMemory),
        }
    }
}
