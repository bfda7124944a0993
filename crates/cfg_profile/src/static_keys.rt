ghost use Rattle.std.specs.Prelude.{◌≡◌, IfOk};
ghost use Rattle.cfg_base.specs.Gives.{Gives};
ghost use Rattle.cfg_types.specs.declared.errors.ProfileFileError.TheVariants.{OutOfMemory as memory};
ghost use Rattle.cfg_profile.specs.StaticKeys.{invalid as invalid_of, without_access_key as lacks_access_key, static_keys as keys_of};

use crate::sections::Section;
use cfg_types::{Credentials, CredentialsBuilder, OutOfMemory, ProfileFileError, Text};
use std::alloc::Global;

/// The keys of a section: `aws_access_key_id`, `aws_secret_access_key`, `aws_session_token` and
/// `aws_account_id`, as they stand there.
#[tactic(auto, unfolding(crate::specs::StaticKeys::static_keys))]
pub(crate) fn static_keys(alloc: Global, section: &Section) -> Result<Credentials, ProfileFileError>
    ensures { Gives memory result (λ answer. answer ≡ keys_of section.now) }
{
    // An empty key counts: the crate tests only whether it is there.
    let Some(id) = section.get("aws_access_key_id") else {
        return Err(without_access_key(alloc, section)?);
    };
    let Some(secret) = section.get("aws_secret_access_key") else {
        return Err(invalid(alloc, section, "profile missing aws_secret_access_key")?);
    };
    let token = section.text_property(alloc, "aws_session_token")?;
    let account = section.account_property(alloc, "aws_account_id")?;
    let mut builder = CredentialsBuilder::new(alloc, id, secret, "ProfileFile")?;
    builder.set_session_token(token).set_account_id(account);
    Ok(builder.build()?)
}

// A section without an access key.
fn without_access_key(alloc: Global, section: &Section) -> Result<ProfileFileError, OutOfMemory>
    ensures { IfOk result (λ e. e ≡ lacks_access_key section.now) }
{
    if section.get("aws_secret_access_key").is_none()
        && section.get("aws_session_token").is_none()
    {
        let profile = Text::of(alloc, section.name())?;
        return Ok(ProfileFileError::ProfileDidNotContainCredentials { profile });
    }
    invalid(alloc, section, "profile missing aws_access_key_id")
}

/// A section whose keys are at fault.
pub(crate) fn invalid(
    alloc: Global,
    section: &Section,
    message: &str,
) -> Result<ProfileFileError, OutOfMemory>
    ensures { IfOk result (λ e. e ≡ invalid_of section.now message.now) }
{
    let (profile, message) = section.with_message(alloc, message)?;
    Ok(ProfileFileError::InvalidCredentialSource { profile, message })
}
