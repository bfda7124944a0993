//! Which keys what is kept for a key fits.
use cfg_kept::{Kept, TokenKey};
use cfg_types::{OutOfMemory, Region, Text};
use std::alloc::Global;
use std::test::Fail;

const KEYS: &[&str] = &[
    "no key",
    "a session of IAM Identity Center",
    "another name of it",
    "another region of it",
    "another start URL of it",
    "a sign-in session of the same name",
    "another sign-in session",
];

fn sso_key(
    alloc: Global,
    session: &str,
    region: &str,
    start_url: &str,
) -> Result<Option<TokenKey>, OutOfMemory> {
    let session = Text::of(alloc, session)?;
    let region = Region::new(alloc, region)?;
    let start_url = Text::of(alloc, start_url)?;
    Ok(Some(TokenKey::Sso {
        session,
        region,
        start_url,
    }))
}

fn login_key(alloc: Global, session: &str) -> Result<Option<TokenKey>, OutOfMemory> {
    let session = Text::of(alloc, session)?;
    Ok(Some(TokenKey::Login { session }))
}

fn key_of(alloc: Global, name: &str) -> Result<Option<TokenKey>, OutOfMemory> {
    match name {
        "a session of IAM Identity Center" => sso_key(alloc, "abc", "us-east-1", "u"),
        "another name of it" => sso_key(alloc, "abd", "us-east-1", "u"),
        "another region of it" => sso_key(alloc, "abc", "us-east-2", "u"),
        "another start URL of it" => sso_key(alloc, "abc", "us-east-1", "v"),
        "a sign-in session of the same name" => login_key(alloc, "abc"),
        "another sign-in session" => login_key(alloc, "abd"),
        _ => Ok(None),
    }
}

// The names of the keys that what is kept for the key of this name fits.
fn fitting(alloc: Global, name: &str) -> Result<String, OutOfMemory> {
    let kept = Kept::new(alloc, key_of(alloc, name)?);
    let mut names = String::new(alloc);
    for other in KEYS {
        let key = key_of(alloc, other)?;
        if kept.fits(key.as_ref()) {
            names.push_str(other)?;
        }
    }
    Ok(names)
}

#[test]
fn what_is_kept_for_a_key_fits_it_alone(rt: HostRuntime) -> Result<(), Fail> {
    for name in KEYS {
        let names = fitting(rt.alloc(), name)?;
        assert_eq!(rt; names.as_str(), *name);
    }
    Ok(())
}
