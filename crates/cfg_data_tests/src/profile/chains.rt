//! What no clause says: the texts of a path's errors, and that calls succeed.
use crate::profile::sets::set_of;
use cfg_profile::{
    BaseProvider, ProfileChain, ProfileSet, generated_set, plan_of, region_of, resolve_chain,
};
use cfg_types::{OutOfMemory, ProfileFileError};
use std::alloc::{AllocError, Global};
use std::test::Fail;

// How many roles a chain has, or why there is none.
fn answer_words(
    alloc: Global,
    answer: &Result<ProfileChain, ProfileFileError>,
) -> Result<String, AllocError> {
    match answer {
        Ok(chain) => format!(in alloc; "{} roles", chain.roles.as_slice().len()),
        Err(error) => format!(in alloc; "{error}"),
    }
}

// The plan of the set's profile, and its region where it has one.
fn words_of(alloc: Global, set: &ProfileSet) -> Result<String, OutOfMemory> {
    let plan = answer_words(alloc, &plan_of(alloc, set, &[]))?;
    match region_of(alloc, set)? {
        Some(region) => Ok(format!(in alloc; "{plan} {region:?}")?),
        None => Ok(plan),
    }
}

const TABLE: &[(&str, &str)] = &[
    (
        "A:role_arn=a,source_profile=B,external_id=e;B:role_arn=b,source_profile=C,role_session_name=s;C:aws_access_key_id=K,aws_secret_access_key=S,aws_session_token=T,aws_account_id=7,region=r",
        "2 roles \"r\"",
    ),
    ("A:credential_source=ecsCONTAINER", "0 roles"),
    (
        "A:role_arn=x,web_identity_token_file=/f,role_session_name=s",
        "0 roles",
    ),
    (
        "A:role_arn=r,source_profile=B;B:sso_session=abc,sso_account_id=1,sso_role_name=r;~abc:sso_region=us-east-1,sso_start_url=u",
        "1 roles",
    ),
    ("A:login_session=l,credential_process=p", "0 roles"),
    ("A:credential_process=p,aws_account_id=1", "0 roles"),
    (
        "A:role_arn=x,source_profile=B;B:role_arn=y,source_profile=A",
        "profile formed an infinite loop. first we loaded [\"A\", \"B\"], then attempted to reload A",
    ),
    (
        "default:aws_access_key_id=K",
        "profile `A` was not defined: could not find source profile A referenced from the root profile",
    ),
    (
        "A:role_arn=x,source_profile=gone",
        "profile `gone` was not defined: could not find source profile gone referenced from A",
    ),
    (
        "A:role_arn=a",
        "invalid credential source in `A`: profile must contain `source_profile` or `credential_source` but neither were defined",
    ),
    (
        "A:role_arn=x,source_profile=A,credential_source=Environment",
        "invalid credential source in `A`: profile contained both source_profile and credential_source. Only one or the other can be defined",
    ),
    (
        "A:region=r",
        "profile `A` did not contain credential information \"r\"",
    ),
    (
        "A:role_arn=x,source_profile=B;B:aws_access_key_id=K",
        "invalid credential source in `B`: could not load source profile: invalid credential source in `B`: profile missing aws_secret_access_key",
    ),
    (
        "A:aws_session_token=T",
        "invalid credential source in `A`: profile missing aws_access_key_id",
    ),
    (
        "A:web_identity_token_file=/f",
        "invalid credential source in `A`: `web_identity_token_file` was specified but `role_arn` was missing",
    ),
    (
        "A:sso_account_id=1,sso_role_name=r,sso_start_url=u",
        "profile `A` was not defined: `sso_region` was missing",
    ),
    (
        "A:sso_region=r",
        "profile `A` was not defined: `sso_start_url` was missing",
    ),
    (
        "A:sso_session=abc,sso_region=r,sso_start_url=u,sso_account_id=1",
        "profile `A` has invalid SSO config: `sso_start_url` can only be specified in the [sso-session] config when a session name is given",
    ),
    (
        "A:sso_session=abc,sso_region=r,sso_account_id=1",
        "profile `A` has invalid SSO config: `sso_region` can only be specified in the [sso-session] config when a session name is given",
    ),
    (
        "A:sso_session=abc",
        "sso-session named `abc` (referenced by profile `A`) was not found",
    ),
    (
        "A:sso_account_id=1",
        "profile `A` has invalid SSO config: if `sso_account_id` is set, then `sso_role_name` must also be set",
    ),
    (
        "A:sso_role_name=r,sso_region=r",
        "profile `A` has invalid SSO config: if `sso_role_name` is set, then `sso_account_id` must also be set",
    ),
    (
        "A:role_arn=x,credential_source=floozle",
        "profile referenced `floozle` provider but that provider is not supported",
    ),
    (
        "A:sso_region=r,sso_start_url=u",
        "selected profile will resolve an access token instead of credentials since it doesn't have `sso_account_id` and `sso_role_name` set. Specify both `sso_account_id` and `sso_role_name` to let this profile resolve credentials.",
    ),
];

#[test]
fn plans_of_sets(rt: HostRuntime) -> Result<(), Fail> {
    for (text, want) in TABLE {
        let set = set_of(rt.alloc(), "A", text)?;
        let words = words_of(rt.alloc(), &set)?;
        assert_eq!(rt; words.as_str(), *want, "{text}");
    }
    Ok(())
}

#[test]
fn chains_of_generated_sets(rt: HostRuntime) -> Result<(), Fail> {
    for (n, want) in [(1, "0 roles"), (3, "2 roles")] {
        let set = generated_set(rt.alloc(), n)?;
        let words = answer_words(rt.alloc(), &resolve_chain(rt.alloc(), &set))?;
        assert_eq!(rt; words.as_str(), want);
    }
    Ok(())
}

// The process of a chain, and its first role, with all that their profiles say of them.
fn members_of(
    alloc: Global,
    answer: &Result<ProfileChain, ProfileFileError>,
) -> Result<String, AllocError> {
    let Ok(chain) = answer else {
        return String::from_str(alloc, "no chain");
    };
    let BaseProvider::CredentialProcess {
        command,
        account_id,
    } = &chain.base
    else {
        return String::from_str(alloc, "another base");
    };
    let Some(role) = chain.roles.as_slice().first() else {
        return String::from_str(alloc, "no role");
    };
    let command = command.unredacted();
    let arn = &role.role_arn;
    let external_id = &role.external_id;
    let session_name = &role.session_name;
    format!(in alloc; "{command} {account_id:?}, {arn:?} {external_id:?} {session_name:?}")
}

#[test]
fn a_role_over_a_process_has_what_the_profiles_say(rt: HostRuntime) -> Result<(), Fail> {
    let sections =
        "A:role_arn=a,source_profile=B,external_id=e,role_session_name=s;B:credential_process=x,aws_account_id=1";
    let set = set_of(rt.alloc(), "A", sections)?;
    let words = members_of(rt.alloc(), &resolve_chain(rt.alloc(), &set))?;
    assert_eq!(rt;
        words.as_str(),
        "x Some(\"1\"), \"a\" Some(\"e\") Some(\"s\")"
    );
    Ok(())
}
