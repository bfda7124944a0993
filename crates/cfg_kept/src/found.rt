//! What a holding of a kept value found.
ghost use Rattle.std.specs.Prelude.{◌≡◌, ◌<◌, ◌++◌, ◌∷◌, [], IfOk, OnOk, OnErr, map, vec_len, vec_capacity};
ghost use Rattle.cfg_kept.specs.FoundValues.{bare};

use crate::place::Place;
use crate::retrieved::Retrieved;
use cfg_imds::MetadataToken;
use cfg_login_token::LoginToken;
use cfg_token::{CachedSsoToken, FileToken, Load};
use cfg_types::{Instant, OutOfMemory, TryCopy, copy_option};
use std::alloc::Global;

/// A value that a holding found, with the receipts that it carries.
pub enum Found {
    /// The session token that is kept for a place, if one is.
    ImdsToken {
        place: Place,
        token: Option<MetadataToken>,
    },
    /// The credentials that were retrieved for a place, if any were.
    Retrieved {
        place: Place,
        retrieved: Option<Retrieved>,
    },
    /// Of the section of a token of IAM Identity Center the load that gave the kept token, if one is,
    /// and the reading of the last attempt at a new one, if any was noted.
    Sso {
        load: Option<Load<CachedSsoToken>>,
        last: Option<Instant>,
    },
    /// The same of the section of a token of a sign-in session.
    Login {
        load: Option<Load<LoginToken>>,
        last: Option<Instant>,
    },
}

impl Drop for Found {
    fn drop(self) {
        match self {
            Found::ImdsToken { place: _, token: _ } => {}
            Found::Retrieved {
                place: _,
                retrieved: _,
            } => {}
            Found::Sso { load: _, last: _ } => {}
            Found::Login { load: _, last: _ } => {}
        }
    }
}

impl TryCopy for Found {
    fn copy(&self, alloc: Global) -> Result<Found, OutOfMemory> {
        match self {
            Found::ImdsToken { place, token } => {
                let token = copy_option(alloc, token)?;
                Ok(Found::ImdsToken {
                    place: *place,
                    token,
                })
            }
            Found::Retrieved { place, retrieved } => {
                let retrieved = copy_option(alloc, retrieved)?;
                Ok(Found::Retrieved {
                    place: *place,
                    retrieved,
                })
            }
            Found::Sso { load, last } => {
                let load = copy_load(alloc, load)?;
                Ok(Found::Sso { load, last: *last })
            }
            Found::Login { load, last } => {
                let load = copy_load(alloc, load)?;
                Ok(Found::Login { load, last: *last })
            }
        }
    }
}

// A copy of a load, none of none.
fn copy_load<T: FileToken>(
    alloc: Global,
    load: &Option<Load<T>>,
) -> Result<Option<Load<T>>, OutOfMemory>
    ensures { IfOk result (λ l. l ≡ load.now) }
{
    match load {
        None => Ok(None),
        Some(load) => {
            let load = load.copy(alloc)?;
            Ok(Some(load))
        }
    }
}

/// A copy of the values that were found. `OutOfMemory` where memory runs out.
pub(crate) fn copy_found(alloc: Global, found: &Vec<Found>) -> Result<Vec<Found>, OutOfMemory>
    ensures { IfOk result (λ f. f.items ≡ found.now.items) }
{
    let mut copies = Vec::with_capacity(alloc, found.len())?;
    for value in found {
        copies.push(value.copy(alloc)?)?;
    }
    Ok(copies)
}

/// One value more that was found. `OutOfMemory` where memory runs out, and the list stays as it was.
pub fn note_found(found: &mut Vec<Found>, value: Found) -> Result<(), OutOfMemory>
    ensures ok { OnOk result (map bare found.new.items ≡ map bare found.old.items ++ bare value ∷ []) }
    ensures err { OnErr result (found.new.items ≡ found.old.items) }
{
    found.push(value)?;
    Ok(())
}

// A place for one value more. `OutOfMemory` where memory runs out. The list stays as it was.
pub(crate) fn take_place(found: &mut Vec<Found>) -> Result<(), OutOfMemory>
    ensures items { found.new.items ≡ found.old.items }
    ensures place { OnOk result (vec_len found.new < vec_capacity found.new) }
{
    found.reserve(1)?;
    Ok(())
}

// One value more that was found. Its place was taken before.
pub(crate) fn put_found(found: &mut Vec<Found>, value: Found)
    requires { vec_len found.old < vec_capacity found.old }
    ensures { map bare found.new.items ≡ map bare found.old.items ++ bare value ∷ [] }
{
    found.push(value).unwrap();
}
