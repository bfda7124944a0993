//! Single sign-on by the settings of a section.
ghost use Rattle.std.specs.Prelude.{◌≡◌, IfOk};
ghost use Rattle.cfg_base.specs.Gives.{Gives};
ghost use Rattle.cfg_types.specs.declared.errors.ProfileFileError.TheVariants.{OutOfMemory as memory};
ghost use Rattle.cfg_profile.specs.SignOn.{has_sign_on as by_sign_on, invalid_sign_on as invalid_sign_on_of, missing_setting as missing_of, missing_session as missing_session_of, sign_on_from, sign_on_at as sign_on_in, sign_on_of_session as sign_on_of, single_sign_on as single_sign_on_of};

use crate::chain::BaseProvider;
use crate::keys::has_key;
use crate::sections::{ProfileSet, Section};
use cfg_types::{OutOfMemory, ProfileFileError, Text};
use std::alloc::Global;

/// Whether a section has one of the five keys of single sign-on.
pub(crate) fn has_sign_on(section: &Section) -> bool
    ensures { result ≡ by_sign_on section.now }
{
    has_key(section, "sso_account_id")
        || has_key(section, "sso_region")
        || has_key(section, "sso_role_name")
        || has_key(section, "sso_start_url")
        || has_key(section, "sso_session")
}

/// Single sign-on by the settings of a section and of the session that it names. The first test that
/// fails gives the error.
pub(crate) fn single_sign_on(
    alloc: Global,
    set: &ProfileSet,
    section: &Section,
) -> Result<BaseProvider, ProfileFileError>
    ensures { Gives memory result (λ answer. answer ≡ single_sign_on_of set.now.sessions section.now) }
{
    match section.get("sso_session") {
        None => sign_on_at(alloc, section, section, None),
        Some(session) => sign_on_of_session(alloc, set, section, session),
    }
}

// Region and start URL stand in the session, and not in the profile.
fn sign_on_of_session(
    alloc: Global,
    set: &ProfileSet,
    section: &Section,
    session: &str,
) -> Result<BaseProvider, ProfileFileError>
    ensures { Gives memory result (λ answer. answer ≡ sign_on_of set.now.sessions section.now session.now) }
{
    if has_key(section, "sso_start_url") {
        return Err(invalid_sign_on(
            alloc,
            section,
            "`sso_start_url` can only be specified in the [sso-session] config when a session name is given",
        )?);
    }
    if has_key(section, "sso_region") {
        return Err(invalid_sign_on(
            alloc,
            section,
            "`sso_region` can only be specified in the [sso-session] config when a session name is given",
        )?);
    }
    match set.sso_session(session) {
        None => Err(missing_session(alloc, section, session)?),
        Some(place) => {
            let name = Text::of(alloc, session)?;
            sign_on_at(alloc, section, place, Some(name))
        }
    }
}

// Single sign-on of a section whose region and start URL stand in another one, or in itself.
fn sign_on_at(
    alloc: Global,
    section: &Section,
    place: &Section,
    session_name: Option<Text>,
) -> Result<BaseProvider, ProfileFileError>
    ensures { Gives memory result (λ answer. answer ≡ sign_on_in section.now place.now session_name) }
{
    if has_key(section, "sso_account_id") && !has_key(section, "sso_role_name") {
        return Err(invalid_sign_on(
            alloc,
            section,
            "if `sso_account_id` is set, then `sso_role_name` must also be set",
        )?);
    }
    if has_key(section, "sso_role_name") && !has_key(section, "sso_account_id") {
        return Err(invalid_sign_on(
            alloc,
            section,
            "if `sso_role_name` is set, then `sso_account_id` must also be set",
        )?);
    }
    sign_on_by(alloc, section, place, session_name)
}

// The same where account and role stand together.
fn sign_on_by(
    alloc: Global,
    section: &Section,
    place: &Section,
    sso_session_name: Option<Text>,
) -> Result<BaseProvider, ProfileFileError>
    ensures { Gives memory result (λ answer. answer ≡ sign_on_from section.now place.now sso_session_name) }
{
    let Some(sso_region) = place.text_property(alloc, "sso_region")? else {
        return Err(missing_setting(alloc, section, "`sso_region` was missing")?);
    };
    let Some(sso_start_url) = place.text_property(alloc, "sso_start_url")? else {
        return Err(missing_setting(alloc, section, "`sso_start_url` was missing")?);
    };
    let sso_account_id = section.text_property(alloc, "sso_account_id")?;
    let sso_role_name = section.text_property(alloc, "sso_role_name")?;
    Ok(BaseProvider::Sso {
        sso_session_name,
        sso_region,
        sso_start_url,
        sso_account_id,
        sso_role_name,
    })
}

fn invalid_sign_on(
    alloc: Global,
    section: &Section,
    message: &str,
) -> Result<ProfileFileError, OutOfMemory>
    ensures { IfOk result (λ e. e ≡ invalid_sign_on_of section.now message.now) }
{
    let (profile, message) = section.with_message(alloc, message)?;
    Ok(ProfileFileError::InvalidSsoConfig { profile, message })
}

fn missing_setting(
    alloc: Global,
    section: &Section,
    message: &str,
) -> Result<ProfileFileError, OutOfMemory>
    ensures { IfOk result (λ e. e ≡ missing_of section.now message.now) }
{
    let (profile, message) = section.with_message(alloc, message)?;
    Ok(ProfileFileError::MissingProfile { profile, message })
}

fn missing_session(
    alloc: Global,
    section: &Section,
    session: &str,
) -> Result<ProfileFileError, OutOfMemory>
    ensures { IfOk result (λ e. e ≡ missing_session_of section.now session.now) }
{
    let profile = Text::of(alloc, section.name())?;
    let sso_session = Text::of(alloc, session)?;
    Ok(ProfileFileError::MissingSsoSession {
        profile,
        sso_session,
    })
}
