//! What the selected profile gives credentials by.
ghost use Rattle.std.specs.Prelude.{◌≡◌, IfOk};
ghost use Rattle.cfg_providers.specs.Gives.{GivesAnswer};
ghost use Rattle.cfg_chain.specs.profile.Plans.{profile_plan, plan, settled_plan as settled_plan_of, refusal as refusal_of, key_of_base as key_of_base_of, key_of_settled};

use cfg_profile::{
    BaseProvider, ProfileChain, ProfileSet, ProfileSource, ProviderConfig, plan_of_profile,
    selected_name,
};
use cfg_sso::session_of_base;
use cfg_token::TokenKey;
use cfg_types::{
    ConfigCause, CredentialsError, NotLoadedCause, OutOfMemory, ProfileFileError, Text, TryCopy,
};
use cfg_world::{Halt, Stop};
use std::alloc::Global;

/// What the selected profile gives credentials by, or why it gives none. The caller has sources of
/// these names. It is `InvalidProfile` with the reason where the sections were refused, and else an error
/// of [`plan_of_profile`]. It stops with `OutOfMemory` where memory runs out.
#[tactic(auto, unfolding(crate::specs::profile::Plans::plan))]
pub fn plan_of(
    alloc: Global,
    config: &ProviderConfig,
    sources: &[Text],
) -> Result<ProfileChain, Halt<ProfileFileError>>
    ensures { GivesAnswer (λ p. p) result (plan config.now sources.now) }
{
    match config.profiles() {
        ProfileSource::Refused(reason) => {
            let reason = reason.copy(alloc)?;
            Err(Halt::Refused(ProfileFileError::InvalidProfile(reason)))
        }
        ProfileSource::Sections(set) => plan_in(alloc, set, selected_name(config), sources),
    }
}

// The plan of the profile of this name.
fn plan_in(
    alloc: Global,
    set: &ProfileSet,
    name: &str,
    sources: &[Text],
) -> Result<ProfileChain, Halt<ProfileFileError>>
    ensures { GivesAnswer (λ p. p) result (profile_plan set.now name.now sources.now) }
{
    match plan_of_profile(alloc, set, name, sources) {
        Ok(chain) => Ok(chain),
        Err(error) => match &error {
            ProfileFileError::OutOfMemory => Err(Halt::Stopped(Stop::OutOfMemory)),
            _ => Err(Halt::Refused(error)),
        },
    }
}

/// What the provider of profiles answers where there is no plan: `CredentialsNotLoaded` where profiles,
/// credentials or a profile on the path are missing, or the profile gives a token alone, or lacks the region or the
/// start URL of IAM Identity Center; and else `InvalidConfiguration`.
pub(crate) fn refusal(error: ProfileFileError) -> CredentialsError
    ensures { result ≡ refusal_of error }
{
    match &error {
        ProfileFileError::OutOfMemory => CredentialsError::OutOfMemory,
        ProfileFileError::NoProfilesDefined
        | ProfileFileError::ProfileDidNotContainCredentials { .. }
        | ProfileFileError::MissingProfile { .. }
        | ProfileFileError::TokenProviderConfig => {
            CredentialsError::CredentialsNotLoaded(NotLoadedCause::Profile(error))
        }
        _ => CredentialsError::InvalidConfiguration(ConfigCause::Profile(error)),
    }
}

/// The plan of the selected profile, where it needs no source of the caller's own. It is the plan then whatever
/// sources the caller has. `OutOfMemory` where memory runs out.
#[tactic(auto, unfolding(crate::specs::profile::Plans::settled_plan))]
pub(crate) fn settled_plan(
    alloc: Global,
    config: &ProviderConfig,
) -> Result<Option<ProfileChain>, OutOfMemory>
    ensures { IfOk result (λ plan. plan ≡ settled_plan_of config.now) }
{
    match plan_of(alloc, config, &[]) {
        Ok(plan) => Ok(Some(plan)),
        Err(Halt::Refused(_)) => Ok(None),
        Err(Halt::Stopped(_)) => Err(OutOfMemory),
    }
}

/// Whose token a plan needs: that of the session of IAM Identity Center, or of the sign-in session, that it begins
/// with, if it begins with one. A plan that needs a source of the caller's own needs no token.
pub(crate) fn token_key_of(
    alloc: Global,
    plan: &Option<ProfileChain>,
) -> Result<Option<TokenKey>, OutOfMemory>
    ensures { IfOk result (λ key. key ≡ key_of_settled plan.now) }
{
    match plan {
        Some(plan) => key_of_base(alloc, &plan.base),
        None => Ok(None),
    }
}

fn key_of_base(alloc: Global, base: &BaseProvider) -> Result<Option<TokenKey>, OutOfMemory>
    ensures { IfOk result (λ key. key ≡ key_of_base_of base.now) }
{
    match base {
        BaseProvider::LoginSession { login_session_arn } => Ok(Some(TokenKey::Login {
            session: login_session_arn.copy(alloc)?,
        })),
        _ => session_of_base(alloc, base),
    }
}
