//! From the path of a profile to what it gives credentials by. The rules are those of the crate
//! aws-config 1.13.0 (`profile/credentials/repr.rs`).
ghost use Rattle.std.specs.Prelude.{◌≡◌, ◌++◌, IfOk, IsTrue, is_some, map, reverse, string_bytes};
ghost use Rattle.std.specs.List.{flat_map};
ghost use Rattle.cfg_base.specs.Gives.{Gives};
ghost use Rattle.cfg_types.specs.ErrorTexts.{profile_text};
ghost use Rattle.cfg_types.specs.declared.errors.ProfileFileError.TheVariants.{OutOfMemory as memory};
ghost use Rattle.cfg_profile.specs.Properties.{source as source_by_keys};
ghost use Rattle.cfg_profile.specs.Seen.{outcome_of, IsShown};
ghost use Rattle.cfg_profile.specs.Plans.{IsChain, role_of, loop_error, wrapped_error, base_of_last as last_base, without_source as without_source_of, missing_profile as missing_profile_of, no_section as no_section_of};

use crate::bases::{base, key_base};
use crate::chain::{BaseProvider, ProfileChain, RoleArn};
use crate::keys::{Source, source_of};
use crate::sections::{ProfileSet, Section};
use crate::static_keys::invalid;
use crate::walk::{End, Path, walk};
use cfg_types::{OutOfMemory, ProfileFileError, Seq, Text};
use std::alloc::Global;

/// What the selected profile of the set gives credentials by, by the rules of [`chain_of_profile`] and
/// with its errors. Selected is the profile whose name the set was made with.
pub fn resolve_chain(alloc: Global, set: &ProfileSet) -> Result<ProfileChain, ProfileFileError>
    ensures { Gives memory result (IsChain set.now set.now.selected) }
{
    chain_of_profile(alloc, set, set.selected_profile())
}

/// What the profile of this name gives credentials by: the base of the last profile on its path, and
/// the roles of the profiles before it, which are assumed from the last to the first. Where the last one
/// is a role over its own base, by a `credential_source` or as its own source, its role is assumed before
/// these. A profile behind the first that has both static keys ends the path with them, and is then not
/// assumed as a role.
///
/// # Errors
///
/// - `NoProfilesDefined`: there is no profile, or `default` is asked for and is not there.
/// - `MissingProfile`: another profile is asked for and is not there, or a source on its path is not there.
/// - `CredentialLoop`: the path comes back to one of its profiles.
/// - `InvalidCredentialSource`: a role on the path has both `source_profile` and `credential_source`, or
///   neither.
/// - The error of the base, where that is the base of the profile of this name or of a role that is its own
///   source: `ProfileDidNotContainCredentials` where it has no static key and no session token;
///   `InvalidCredentialSource` where it has some of these but not both keys, or web identity without
///   `role_arn`; of IAM Identity Center, `InvalidSsoConfig` where start URL or region stand beside a named
///   session, or one of account and role without the other, `MissingSsoSession` where the named session is
///   not there, and `MissingProfile` where there is no region or no start URL.
/// - `InvalidCredentialSource` with the text of such an error, where it is that of another profile's base.
/// - `OutOfMemory`: memory runs out.
pub fn chain_of_profile(
    alloc: Global,
    set: &ProfileSet,
    name: &str,
) -> Result<ProfileChain, ProfileFileError>
    ensures { Gives memory result (IsChain set.now name.now) }
{
    match set.get_profile(name) {
        None => Err(no_section(alloc, set, name)?),
        Some(first) => {
            let path = walk(alloc, set, name, first)?;
            chain_of(alloc, set, &path)
        }
    }
}

// What a path gives credentials by.
fn chain_of(alloc: Global, set: &ProfileSet, path: &Path) -> Result<ProfileChain, ProfileFileError>
    ensures { Gives memory result (λ answer. answer ≡ outcome_of set.now.sessions path.now) }
{
    match path.end {
        End::Keys => {
            let base = key_base(alloc, path.last)?;
            let roles = roles(alloc, &path.sections)?;
            Ok(chain_over(base, roles))
        }
        End::Base => {
            let base = base_of_last(alloc, set, path.last, path.is_single())?;
            let roles = roles(alloc, &path.sections)?;
            Ok(chain_over(base, roles))
        }
        End::OwnBase => {
            let base = base(alloc, set, path.last)?;
            let mut roles = roles(alloc, &path.sections)?;
            push_role(alloc, &mut roles, path.last)?;
            Ok(chain_over(base, roles))
        }
        End::NoSource => Err(without_source(alloc, path.last)?),
        End::Loops(next) => Err(credential_loop(alloc, &path.names, path.last_name, next)?),
        End::Missing(next) => Err(missing_profile(alloc, next, path.last_name)?),
    }
}

// A base, and the roles of a path, which are assumed from the last to the first.
fn chain_over(base: BaseProvider, mut roles: Vec<RoleArn>) -> ProfileChain
    ensures { result ≡ record { base = base; roles = reverse roles.items } }
{
    roles.reverse();
    ProfileChain {
        base,
        roles: Seq::of(roles),
    }
}

// The base of the last section. An error names the section, unless it is the first.
fn base_of_last(
    alloc: Global,
    set: &ProfileSet,
    section: &Section,
    is_first: bool,
) -> Result<BaseProvider, ProfileFileError>
    ensures { Gives memory result (λ answer. answer ≡ last_base set.now.sessions is_first section.now) }
{
    let answer = base(alloc, set, section);
    match &answer {
        Ok(_) => answer,
        Err(ProfileFileError::OutOfMemory) => answer,
        Err(_) if is_first => answer,
        Err(error) => Err(error_of_source(alloc, section, error)?),
    }
}

// An error of the base of another profile than the first.
#[tactic(auto, unfolding(crate::specs::Plans::wrapped_error))]
fn error_of_source(
    alloc: Global,
    section: &Section,
    error: &ProfileFileError,
) -> Result<ProfileFileError, OutOfMemory>
    requires { IsTrue (is_some (profile_text error.now)) }
    ensures { IfOk result (λ e. e ≡ wrapped_error section.now error.now) }
{
    let mut message = String::from_str(alloc, "could not load source profile: ")?;
    let text = text_of(alloc, error)?;
    message.push_str(text.as_str())?;
    invalid(alloc, section, message.as_str())
}

// The text of an error, as it is shown.
fn text_of(alloc: Global, error: &ProfileFileError) -> Result<String, OutOfMemory>
    ensures { IfOk result (λ text. IsShown (profile_text error.now) (string_bytes text)) }
{
    Ok(format!(in alloc; "{error}")?)
}

// The roles of these sections, in their order.
fn roles(alloc: Global, sections: &[&Section]) -> Result<Vec<RoleArn>, OutOfMemory>
    ensures { IfOk result (λ roles. roles.items ≡ flat_map role_of (map (λ s. s.now) sections.now)) }
{
    let mut roles = Vec::new(alloc);
    for section in sections {
        push_role(alloc, &mut roles, section)?;
    }
    Ok(roles)
}

// The role of a section, where it has one, after these.
fn push_role(alloc: Global, roles: &mut Vec<RoleArn>, section: &Section) -> Result<(), OutOfMemory>
    ensures { IfOk result (λ _. roles.new.items ≡ roles.old.items ++ role_of section.now) }
{
    if let Some(role_arn) = section.text_property(alloc, "role_arn")? {
        let external_id = section.text_property(alloc, "external_id")?;
        let session_name = section.text_property(alloc, "role_session_name")?;
        roles.push(RoleArn {
            role_arn,
            external_id,
            session_name,
        })?;
    }
    Ok(())
}

// A role with both sources, or with none.
fn without_source(alloc: Global, section: &Section) -> Result<ProfileFileError, OutOfMemory>
    ensures { IfOk result (λ e. e ≡ without_source_of section.now (source_by_keys section.now)) }
{
    match source_of(section) {
        Source::Both => invalid(
            alloc,
            section,
            "profile contained both source_profile and credential_source. Only one or the other can be defined",
        ),
        _ => invalid(
            alloc,
            section,
            "profile must contain `source_profile` or `credential_source` but neither were defined",
        ),
    }
}

// The names so far, in order, and the one that was met again.
fn credential_loop(
    alloc: Global,
    names: &[&str],
    last: &str,
    next: &str,
) -> Result<ProfileFileError, OutOfMemory>
    ensures { IfOk result (λ e. e ≡ loop_error (map (λ n. n.now) names.now) last.now next.now) }
{
    let mut profiles = Vec::new(alloc);
    for name in names {
        profiles.push(Text::of(alloc, name)?)?;
    }
    profiles.push(Text::of(alloc, last)?)?;
    let next = Text::of(alloc, next)?;
    Ok(ProfileFileError::CredentialLoop {
        profiles: Seq::of(profiles),
        next,
    })
}

// A name that no section has, and where it stands.
#[tactic(auto, unfolding(crate::specs::Plans::missing_profile))]
fn missing_profile(alloc: Global, name: &str, from: &str) -> Result<ProfileFileError, OutOfMemory>
    ensures { IfOk result (λ e. e ≡ missing_profile_of name.now from.now) }
{
    let message = format!(in alloc; "could not find source profile {name} referenced from {from}")?;
    let profile = Text::of(alloc, name)?;
    let message = Text::from_string(message);
    Ok(ProfileFileError::MissingProfile { profile, message })
}

// The answer where no section has the selected name.
fn no_section(alloc: Global, set: &ProfileSet, name: &str) -> Result<ProfileFileError, OutOfMemory>
    ensures { IfOk result (λ e. e ≡ no_section_of set.now.profiles name.now) }
{
    if set.is_empty() || name == "default" {
        return Ok(ProfileFileError::NoProfilesDefined);
    }
    missing_profile(alloc, name, "the root profile")
}
