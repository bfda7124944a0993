//! What a section of a session's token gives.
ghost use Rattle.std.specs.Prelude.{◌≡◌, IfOk, Some};
ghost use Rattle.cfg_token.specs.declared.token_key.TokenKey.TheVariants.{Login};
ghost use Rattle.cfg_kept.specs.Holds.{HoldsFollows};
ghost use Rattle.cfg_login.specs.SignIns.{credentials_in as credentials_of, feature_of, marked as marked_by, section_of, section_error as error_of_section};

use crate::asked_by::AskedBy;
use cfg_kept::Keeper;
use cfg_login_token::LoginToken;
use cfg_profile::{ProviderConfig, call_settings};
use cfg_types::{
    AwsCredentialFeature, ConfigCause, Credentials, CredentialsError, LoginTokenError, OutOfMemory,
    ProviderCause, Text, TryCopy, UnhandledCause,
};
use cfg_world::{Asking, Stop};
use std::alloc::Global;

/// One section of the keeper's token, which is this session's, by the settings of this configuration.
pub(crate) fn section<P: Keeper, A: Asking>(
    alloc: Global,
    config: &ProviderConfig,
    session: &Text,
    keeper: &mut P,
    asking: &mut A,
) -> Result<Result<LoginToken, LoginTokenError>, Stop>
    requires { P.key_held keeper.old ≡ Some (Login session.now) }
    ensures follows { HoldsFollows ⟦<A as Asking>⟧ (section_of config.now session.now)
        asking.old (P.holdings keeper.old) asking.new (P.holdings keeper.new) result }
    ensures key { P.key_held keeper.new ≡ P.key_held keeper.old }
{
    match call_settings(alloc, config) {
        Ok(settings) => keeper.login_section(alloc, config.env(), &settings, asking),
        Err(_) => Err(Stop::OutOfMemory),
    }
}

/// The credentials of the token that a section gave, or why it gave none.
#[tactic(auto, unfolding(crate::specs::SignIns::credentials_in))]
pub(crate) fn credentials_in(
    alloc: Global,
    by: AskedBy,
    given: Result<LoginToken, LoginTokenError>,
) -> Result<Result<Credentials, CredentialsError>, OutOfMemory>
    ensures { IfOk result (λ r. credentials_of by given ≡ r) }
{
    match given {
        Ok(token) => {
            let credentials = marked(alloc, by, &token)?;
            Ok(Ok(credentials))
        }
        Err(error) => Ok(Err(section_error(error))),
    }
}

fn marked(alloc: Global, by: AskedBy, token: &LoginToken) -> Result<Credentials, OutOfMemory>
    ensures { IfOk result (λ c. c ≡ marked_by by token.now.access_token) }
{
    let mut credentials = token.access_token.copy(alloc)?;
    credentials.add_feature(feature(by))?;
    Ok(credentials)
}

fn feature(by: AskedBy) -> AwsCredentialFeature
    ensures { result ≡ feature_of by }
{
    match by {
        AskedBy::Profile => AwsCredentialFeature::CredentialsProfileLogin,
        AskedBy::Caller => AwsCredentialFeature::CredentialsProfile,
    }
}

fn section_error(error: LoginTokenError) -> CredentialsError
    ensures { error_of_section error ≡ result }
{
    match &error {
        LoginTokenError::FailedToFormatDateTime | LoginTokenError::MissingField(_) => {
            CredentialsError::InvalidConfiguration(ConfigCause::LoginToken(error))
        }
        LoginTokenError::RefreshFailed { message: _ } => {
            CredentialsError::ProviderError(ProviderCause::LoginToken(error))
        }
        LoginTokenError::OutOfMemory => CredentialsError::OutOfMemory,
        _ => CredentialsError::Unhandled(UnhandledCause::LoginToken(error)),
    }
}
