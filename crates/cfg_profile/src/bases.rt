//! What a section gives credentials by, where it takes none from another profile.
ghost use Rattle.std.specs.Prelude.{◌≡◌, codes};
ghost use Rattle.cfg_base.specs.Gives.{Gives};
ghost use Rattle.cfg_types.specs.declared.errors.ProfileFileError.TheVariants.{OutOfMemory as memory};
ghost use Rattle.cfg_profile.specs.Sections.{text_property as text_of};
ghost use Rattle.cfg_profile.specs.Bases.{web_identity as web_identity_of, key_base as key_base_of, local_base as local_base_of, base_by_file as base_by_file_of, base as base_of};

use crate::chain::BaseProvider;
use crate::sections::{ProfileSet, Section};
use crate::sign_on::{has_sign_on, single_sign_on};
use crate::static_keys::{invalid, static_keys};
use cfg_types::{CommandWithSensitiveArgs, ProfileFileError, Text};
use std::alloc::Global;

/// The base of a section, the first that applies: a named source, web identity, single sign-on, a
/// login session, a process, static keys.
#[tactic(auto, unfolding(crate::specs::Bases::base))]
pub(crate) fn base(
    alloc: Global,
    set: &ProfileSet,
    section: &Section,
) -> Result<BaseProvider, ProfileFileError>
    ensures { Gives memory result (λ answer. answer ≡ base_of set.now.sessions section.now) }
{
    match section.text_property(alloc, "credential_source")? {
        Some(name) => Ok(BaseProvider::NamedSource(name)),
        None => base_by_file(alloc, set, section),
    }
}

fn base_by_file(
    alloc: Global,
    set: &ProfileSet,
    section: &Section,
) -> Result<BaseProvider, ProfileFileError>
    ensures { Gives memory result (λ answer. answer ≡ base_by_file_of set.now.sessions section.now (text_of section.now (codes "web_identity_token_file"))) }
{
    if let Some(file) = section.text_property(alloc, "web_identity_token_file")? {
        return web_identity(alloc, section, file);
    }
    if has_sign_on(section) {
        return single_sign_on(alloc, set, section);
    }
    local_base(alloc, section)
}

fn web_identity(
    alloc: Global,
    section: &Section,
    web_identity_token_file: Text,
) -> Result<BaseProvider, ProfileFileError>
    ensures { Gives memory result (λ answer. answer ≡ web_identity_of section.now web_identity_token_file (text_of section.now (codes "role_arn"))) }
{
    match section.text_property(alloc, "role_arn")? {
        None => Err(invalid(
            alloc,
            section,
            "`web_identity_token_file` was specified but `role_arn` was missing",
        )?),
        Some(role_arn) => Ok(BaseProvider::WebIdentityTokenRole {
            role_arn,
            web_identity_token_file,
            session_name: section.text_property(alloc, "role_session_name")?,
        }),
    }
}

// A login session, a process or static keys.
fn local_base(alloc: Global, section: &Section) -> Result<BaseProvider, ProfileFileError>
    ensures { Gives memory result (λ answer. answer ≡ local_base_of section.now) }
{
    if let Some(login_session_arn) = section.text_property(alloc, "login_session")? {
        return Ok(BaseProvider::LoginSession { login_session_arn });
    }
    match section.text_property(alloc, "credential_process")? {
        None => key_base(alloc, section),
        Some(command) => Ok(BaseProvider::CredentialProcess {
            command: CommandWithSensitiveArgs::new(command),
            account_id: section.text_property(alloc, "aws_account_id")?,
        }),
    }
}

/// The static keys of a section.
pub(crate) fn key_base(alloc: Global, section: &Section) -> Result<BaseProvider, ProfileFileError>
    ensures { Gives memory result (λ answer. answer ≡ key_base_of section.now) }
{
    match static_keys(alloc, section) {
        Ok(keys) => Ok(BaseProvider::AccessKey(keys)),
        Err(error) => Err(error),
    }
}
