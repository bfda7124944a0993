ghost use Rattle.std.specs.Fmt.{DisplaysOnOk, WritesOnOk};
ghost use Rattle.cfg_types.specs.ErrorTexts.{feature_text, missing_session_text, loop_text};

use crate::errors::pieces::{around, around_before, labelled};
use cfg_base::{OutOfMemory, Seq, Text, TryCopy, copy_option};
use std::alloc::Global;
use std::error::Error;
use std::fmt;

/// Why a profile gives no credentials.
#[derive(Debug, PartialEq, Eq)]
pub enum ProfileFileError {
    /// The sections were refused, for this reason.
    InvalidProfile(Text),
    /// There are no profiles, or `default` is asked for and is not there.
    NoProfilesDefined,
    /// This profile has no access key, secret or session token, and no other source.
    ProfileDidNotContainCredentials {
        profile: Text,
    },
    /// The path comes back: its profiles, and the one of them that the last one leads back to.
    CredentialLoop {
        profiles: Seq<Text>,
        next: Text,
    },
    /// It never arises; the original crate has it.
    MissingCredentialSource {
        profile: Text,
        message: Text,
    },
    /// The keys of this profile do not go together, it is a role with both sources or none, or the base
    /// behind it is at fault, in words.
    InvalidCredentialSource {
        profile: Text,
        message: Text,
    },
    /// This profile is not there, or it lacks its region or start URL of IAM Identity Center, in words.
    MissingProfile {
        profile: Text,
        message: Text,
    },
    /// No source of credentials has this name.
    UnknownProvider {
        name: Text,
    },
    /// It never arises; the original crate has it.
    FeatureNotEnabled {
        feature: Text,
        message: Option<Text>,
    },
    /// The session of IAM Identity Center that this profile names is not there.
    MissingSsoSession {
        profile: Text,
        sso_session: Text,
    },
    /// The keys of this profile for IAM Identity Center do not go together, in words.
    InvalidSsoConfig {
        profile: Text,
        message: Text,
    },
    /// The profile gives an access token, and no credentials.
    TokenProviderConfig,
    /// Memory ran out.
    OutOfMemory,
}

impl Drop for ProfileFileError {
    fn drop(self) {
        match self {
            ProfileFileError::InvalidProfile(_) => {}
            ProfileFileError::NoProfilesDefined => {}
            ProfileFileError::ProfileDidNotContainCredentials { profile: _ } => {}
            ProfileFileError::CredentialLoop {
                profiles: _,
                next: _,
            } => {}
            ProfileFileError::MissingCredentialSource {
                profile: _,
                message: _,
            } => {}
            ProfileFileError::InvalidCredentialSource {
                profile: _,
                message: _,
            } => {}
            ProfileFileError::MissingProfile {
                profile: _,
                message: _,
            } => {}
            ProfileFileError::UnknownProvider { name: _ } => {}
            ProfileFileError::FeatureNotEnabled {
                feature: _,
                message: _,
            } => {}
            ProfileFileError::MissingSsoSession {
                profile: _,
                sso_session: _,
            } => {}
            ProfileFileError::InvalidSsoConfig {
                profile: _,
                message: _,
            } => {}
            ProfileFileError::TokenProviderConfig => {}
            ProfileFileError::OutOfMemory => {}
        }
    }
}

impl From<OutOfMemory> for ProfileFileError {
    ghost use Rattle.std.specs.Prelude.{◌≡◌};
    ghost use Rattle.cfg_types.specs.declared.errors.profile.ProfileFileError.TheVariants.{OutOfMemory as memory};

    ghost from_gives = { λ _ e. e ≡ memory };

    fn from(_: OutOfMemory) -> ProfileFileError {
        ProfileFileError::OutOfMemory
    }
}

impl fmt::Display for ProfileFileError {
    ghost use Rattle.cfg_types.specs.ErrorTexts.{profile_text};

    ghost output = { profile_text };

    fn fmt<W: fmt::Write>(&self, f: &mut fmt::Formatter<W>) -> fmt::Result {
        match self {
            ProfileFileError::InvalidProfile(text) => labelled(f, "invalid profile: ", text),
            ProfileFileError::NoProfilesDefined => f.write_str("No profiles were defined"),
            ProfileFileError::ProfileDidNotContainCredentials { profile } => {
                around(
                    f,
                    "profile `",
                    profile,
                    "` did not contain credential information",
                )
            }
            ProfileFileError::CredentialLoop { profiles, next } => write_loop(f, profiles, next),
            ProfileFileError::MissingCredentialSource { profile, message } => {
                around_before(f, "missing credential source in `", profile, "`: ", message)
            }
            ProfileFileError::InvalidCredentialSource { profile, message } => {
                around_before(f, "invalid credential source in `", profile, "`: ", message)
            }
            ProfileFileError::MissingProfile { profile, message } => {
                around_before(f, "profile `", profile, "` was not defined: ", message)
            }
            ProfileFileError::UnknownProvider { name } => {
                around(
                    f,
                    "profile referenced `",
                    name,
                    "` provider but that provider is not supported",
                )
            }
            ProfileFileError::FeatureNotEnabled { feature, message } => write_feature(
                f, feature, message,
            ),
            ProfileFileError::MissingSsoSession {
                profile,
                sso_session,
            } => { write_missing_session(f, sso_session, profile) }
            ProfileFileError::InvalidSsoConfig { profile, message } => {
                around_before(
                    f,
                    "profile `",
                    profile,
                    "` has invalid SSO config: ",
                    message,
                )
            }
            ProfileFileError::TokenProviderConfig => f.write_str(
                "selected profile will resolve an access token instead of credentials since it doesn't have `sso_account_id` and `sso_role_name` set. Specify both `sso_account_id` and `sso_role_name` to let this profile resolve credentials.",
            ),
            ProfileFileError::OutOfMemory => f.write_str("out of memory"),
        }
    }
}

impl Error for ProfileFileError {}

/// Writes the profiles of a path, and the one that is loaded again.
fn write_loop<W: fmt::Write>(
    f: &mut fmt::Formatter<W>,
    path: &Seq<Text>,
    next: &Text,
) -> fmt::Result
    ensures { DisplaysOnOk W.write_str_gives f.old result (loop_text path.now next.now) f.new }
{
    f.write_str("profile formed an infinite loop. first we loaded ")?;
    fmt::Debug::fmt(path, f)?;
    labelled(f, ", then attempted to reload ", next)
}

/// Writes what a profile asks for that is not built.
fn write_feature<W: fmt::Write>(
    f: &mut fmt::Formatter<W>,
    feature: &Text,
    message: &Option<Text>,
) -> fmt::Result
    ensures { WritesOnOk W.write_str_gives f.old result (feature_text feature.now message.now) f.new }
{
    let label = "This behavior requires following cargo feature(s) enabled: ";
    match message {
        None => around(f, label, feature, ". "),
        Some(message) => around_before(f, label, feature, ". ", message),
    }
}

/// Writes that the session that a profile names is not there.
fn write_missing_session<W: fmt::Write>(
    f: &mut fmt::Formatter<W>,
    session: &Text,
    profile: &Text,
) -> fmt::Result
    ensures { WritesOnOk W.write_str_gives f.old result (missing_session_text session.now profile.now) f.new }
{
    labelled(f, "sso-session named `", session)?;
    around(f, "` (referenced by profile `", profile, "`) was not found")
}

impl TryCopy for ProfileFileError {
    fn copy(&self, alloc: Global) -> Result<ProfileFileError, OutOfMemory> {
        Ok(match self {
            ProfileFileError::InvalidProfile(text) => ProfileFileError::InvalidProfile(text.copy(
                alloc,
            )?),
            ProfileFileError::NoProfilesDefined => ProfileFileError::NoProfilesDefined,
            ProfileFileError::ProfileDidNotContainCredentials { profile } =>
                ProfileFileError::ProfileDidNotContainCredentials {
                    profile: profile.copy(alloc)?,
                },
            ProfileFileError::CredentialLoop { profiles, next } =>
                ProfileFileError::CredentialLoop {
                    profiles: profiles.copy(alloc)?,
                    next: next.copy(alloc)?,
                },
            ProfileFileError::MissingCredentialSource { profile, message } =>
                ProfileFileError::MissingCredentialSource {
                    profile: profile.copy(alloc)?,
                    message: message.copy(alloc)?,
                },
            ProfileFileError::InvalidCredentialSource { profile, message } =>
                ProfileFileError::InvalidCredentialSource {
                    profile: profile.copy(alloc)?,
                    message: message.copy(alloc)?,
                },
            ProfileFileError::MissingProfile { profile, message } =>
                ProfileFileError::MissingProfile {
                    profile: profile.copy(alloc)?,
                    message: message.copy(alloc)?,
                },
            ProfileFileError::UnknownProvider { name } => ProfileFileError::UnknownProvider {
                name: name.copy(alloc)?,
            },
            ProfileFileError::FeatureNotEnabled { feature, message } =>
                ProfileFileError::FeatureNotEnabled {
                    feature: feature.copy(alloc)?,
                    message: copy_option(alloc, message)?,
                },
            ProfileFileError::MissingSsoSession {
                profile,
                sso_session,
            } => ProfileFileError::MissingSsoSession {
                profile: profile.copy(alloc)?,
                sso_session: sso_session.copy(alloc)?,
            },
            ProfileFileError::InvalidSsoConfig { profile, message } =>
                ProfileFileError::InvalidSsoConfig {
                    profile: profile.copy(alloc)?,
                    message: message.copy(alloc)?,
                },
            ProfileFileError::TokenProviderConfig => ProfileFileError::TokenProviderConfig,
            ProfileFileError::OutOfMemory => ProfileFileError::OutOfMemory,
        })
    }
}
