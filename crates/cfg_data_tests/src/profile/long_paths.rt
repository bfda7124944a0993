//! Paths of many profiles, that end or lead back, within a test's time.
use crate::profile::sets::property;
use cfg_profile::{
    ProfileChain, ProfileSet, Section, chain_of_profile, generated_set, resolve_chain,
};
use cfg_types::{OutOfMemory, ProfileFileError};
use std::alloc::{AllocError, Global};
use std::test::Fail;

// The profile of the first number, a role over the one of the second.
fn role_over(alloc: Global, number: usize, source: usize) -> Result<Section, OutOfMemory> {
    let name = format!(in alloc; "p{number}")?;
    let source = format!(in alloc; "p{source}")?;
    let mut properties = Vec::new(alloc);
    properties.push(property(alloc, "role_arn", "r")?)?;
    properties.push(property(alloc, "source_profile", source.as_str())?)?;
    Section::new(alloc, name.as_str(), properties)
}

// A path of so many roles, the last of them over the one of this number.
fn leading_back(alloc: Global, count: usize, to: usize) -> Result<ProfileSet, OutOfMemory> {
    let mut profiles = Vec::new(alloc);
    for number in 1..count {
        profiles.push(role_over(alloc, number, number + 1)?)?;
    }
    profiles.push(role_over(alloc, count, to)?)?;
    ProfileSet::new(alloc, profiles, Vec::new(alloc), "p1")
}

// How many roles there are, and the first and the last of them. Of a loop how many names there are.
fn ends_of(
    alloc: Global,
    answer: &Result<ProfileChain, ProfileFileError>,
) -> Result<String, AllocError> {
    match answer {
        Ok(chain) => {
            let roles = chain.roles.as_slice();
            let first = roles.first().map(|role| &role.role_arn);
            let last = roles.last().map(|role| &role.role_arn);
            format!(in alloc; "{} roles, {first:?} to {last:?}", roles.len())
        }
        Err(ProfileFileError::CredentialLoop { profiles, next }) => {
            format!(in alloc;
                "{} names, then {}",
                profiles.as_slice().len(),
                next.as_str()
            )
        }
        Err(error) => format!(in alloc; "{error}"),
    }
}

// What a path of 10,000 profiles or some more comes to, whose last one leads back to each of its first 50 in turn: the
// path from the 50th on has 10,000, and each one before it makes the path one longer, and its end one place later. None
// where each is refused by all its names.
fn unlike(alloc: Global) -> Result<Option<String>, OutOfMemory> {
    let set = leading_back(alloc, 10_049, 50)?;
    let mut count: usize = 10_050;
    for from in 1..=50 {
        count = count.saturating_sub(1);
        let name = format!(in alloc; "p{from}")?;
        let words = ends_of(alloc, &chain_of_profile(alloc, &set, name.as_str()))?;
        if words != format!(in alloc; "{count} names, then p50")? {
            return Ok(Some(format!(in alloc; "from {name}: {words}")?));
        }
    }
    Ok(None)
}

#[test]
fn ten_thousand_profiles_in_one_path(rt: HostRuntime) -> Result<(), Fail> {
    let set = generated_set(rt.alloc(), 10_000)?;
    let words = ends_of(rt.alloc(), &resolve_chain(rt.alloc(), &set))?;
    assert_eq!(rt;
        words.as_str(),
        "9999 roles, Some(\"arn:aws:iam::000000009999:role/r9999\") to Some(\"arn:aws:iam::000000000001:role/r1\")"
    );
    let set = leading_back(rt.alloc(), 10_000, 9_999)?;
    let words = ends_of(rt.alloc(), &resolve_chain(rt.alloc(), &set))?;
    assert_eq!(rt; words.as_str(), "10000 names, then p9999");
    assert_eq!(rt; unlike(rt.alloc())?, None);
    Ok(())
}

// The names of so many profiles, in quotes.
fn names(alloc: Global, count: usize) -> Result<String, AllocError> {
    let mut names = String::new(alloc);
    for number in 1..=count {
        let comma = if number == 1 { "" } else { ", " };
        let name = format!(in alloc; "{comma}\"p{number}\"")?;
        names.push_str(name.as_str())?;
    }
    Ok(names)
}

// What a path of so many profiles is refused by, whose last one leads back to this one.
fn refusal(alloc: Global, names: &str, count: usize, to: usize) -> Result<String, AllocError> {
    if to == count {
        return format!(in alloc; "profile `p{to}` did not contain credential information");
    }
    format!(in alloc;
        "profile formed an infinite loop. first we loaded [{names}], then attempted to reload p{to}"
    )
}

#[test]
fn fifty_profiles_that_lead_back_to_each(rt: HostRuntime) -> Result<(), Fail> {
    let names = names(rt.alloc(), 50)?;
    for to in 1..=50 {
        let set = leading_back(rt.alloc(), 50, to)?;
        let words = match resolve_chain(rt.alloc(), &set) {
            Ok(_) => String::from_str(rt.alloc(), "a chain")?,
            Err(error) => format!(in rt.alloc(); "{error}")?,
        };
        let want = refusal(rt.alloc(), names.as_str(), 50, to)?;
        assert_eq!(rt; words.as_str(), want.as_str());
    }
    Ok(())
}
