//! Members of chains of credentials providers.
ghost use Rattle.std.specs.Prelude.{◌≡◌, IfOk};
ghost use Rattle.std.specs.Option.{option_copied};
ghost use Rattle.cfg_kept.specs.KeptStates.{kept_holdings, kept_key, states_of};
ghost use Rattle.cfg_meta.specs.FollowsMembers.{FollowsMember};
ghost use Rattle.cfg_chain.specs.Views.{of_box};
ghost use Rattle.cfg_credentials_chain.specs.Members.{IsMemberTree, needed_key, fallback_of};
ghost use Rattle.cfg_credentials_chain.specs.Views.{asked_of};

use cfg_assume_role::AssumeRoleProvider;
use cfg_chain::{DefaultCredentialsChain, ProfileFileCredentialsProvider};
use cfg_imds_credentials::ImdsCredentialsProvider;
use cfg_kept::Kept;
use cfg_login::LoginCredentialsProvider;
use cfg_providers::steps::answer_of;
use cfg_providers::{
    CredentialProcessProvider, CustomProvider, EcsCredentialsProvider,
    EnvironmentVariableCredentialsProvider, WebIdentityTokenCredentialsProvider,
};
use cfg_sso::SsoCredentialsProvider;
use cfg_token::TokenKey;
use cfg_types::{Credentials, CredentialsError, OutOfMemory, TryCopy};
use cfg_world::{Asking, Stop};
use std::alloc::Global;

/// A member of a chain of credentials providers.
#[derive(Drop)]
pub enum Member {
    /// The environment's variables, as they were handed in.
    Environment(EnvironmentVariableCredentialsProvider),
    /// A process that prints credentials.
    Process(CredentialProcessProvider),
    /// A role that is assumed by a web identity token.
    WebIdentity(WebIdentityTokenCredentialsProvider),
    /// A container.
    Ecs(EcsCredentialsProvider),
    /// The role of a machine, by its instance metadata service.
    Imds(ImdsCredentialsProvider),
    /// A role of an account, by IAM Identity Center.
    Sso(SsoCredentialsProvider),
    /// A sign-in session.
    Login(LoginCredentialsProvider),
    /// The selected profile.
    Profile(ProfileFileCredentialsProvider),
    /// A default chain.
    Default(DefaultCredentialsChain),
    /// A role over the credentials of a base.
    AssumeRole(AssumeRoleProvider),
    /// These credentials. Nothing is asked.
    Fixed(Credentials),
    /// A source of the caller's own. Nothing is asked.
    Custom(CustomProvider),
}

impl Member {
    /// Whose token the member needs: that of its session, its profile, its default chain or its base.
    pub fn token_key(&self) -> Option<&TokenKey>
        ensures { option_copied result ≡ needed_key (asked_of value fallback (of_box repeated) self.now) }
    {
        match self {
            Member::Sso(provider) => provider.token_key(),
            Member::Login(provider) => provider.token_key(),
            Member::Profile(provider) => provider.token_key(),
            Member::Default(chain) => chain.token_key(),
            Member::AssumeRole(provider) => provider.token_key(),
            _ => None,
        }
    }

    /// What the member answers, over anything that can be asked. It stops with `Open` at a question that is left
    /// open, and with `OutOfMemory` where memory runs out, also where a source of the caller's own answers so.
    pub fn follow<A: Asking>(
        &self,
        alloc: Global,
        kept: &mut Kept,
        asking: &mut A,
    ) -> Result<Result<Credentials, CredentialsError>, Stop>
        requires { kept_key kept.old ≡ needed_key (asked_of value fallback (of_box repeated) self.now) }
        ensures follows { FollowsMember ⟦<A as Asking>⟧ (IsMemberTree (asked_of value fallback (of_box repeated) self.now))
            asking.old (kept_holdings kept.old) asking.new (kept_holdings kept.new) result }
        ensures key { kept_key kept.new ≡ kept_key kept.old }
    {
        match self {
            Member::Environment(provider) => provider.follow(asking),
            Member::Process(provider) => provider.follow(asking),
            Member::WebIdentity(provider) => provider.follow(asking),
            Member::Ecs(provider) => provider.follow(asking),
            Member::Imds(provider) => provider.follow(kept, asking),
            Member::Sso(provider) => provider.follow(kept, asking),
            Member::Login(provider) => provider.follow(kept, asking),
            Member::Profile(provider) => provider.follow(kept, asking),
            Member::Default(chain) => chain.follow(kept, asking),
            Member::AssumeRole(provider) => provider.follow(kept, asking),
            Member::Fixed(credentials) => {
                let credentials = credentials.copy(alloc)?;
                Ok(Ok(credentials))
            }
            Member::Custom(own) => {
                let answer = answer_of(own)?;
                Ok(answer)
            }
        }
    }

    /// The credentials to go on with where a call was interrupted, if the member has some: those that
    /// were last retrieved from instance metadata, of a provider of metadata and of a default chain, or
    /// what a source of the caller's own falls back on. Nothing is asked, and what is kept stays.
    /// `OutOfMemory` where memory runs out.
    pub fn fallback_on_interrupt(&self, kept: &Kept) -> Result<Option<Credentials>, OutOfMemory>
        ensures { IfOk result (λ keys. keys ≡ fallback_of (asked_of value fallback (of_box repeated) self.now) (states_of kept.now)) }
    {
        match self {
            Member::Imds(provider) => provider.fallback_on_interrupt(kept),
            Member::Default(chain) => chain.fallback_on_interrupt(kept),
            Member::Custom(own) => own.fallback_on_interrupt(),
            _ => Ok(None),
        }
    }
}
