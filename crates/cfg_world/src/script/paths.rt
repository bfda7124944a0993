//! Entries by their paths: of two entries of one path the later counts. A look-up goes by name.
ghost use Rattle.std.specs.Prelude.{◌≡◌, IfOk, is_some};
ghost use Rattle.std.specs.Option.{option_copied};
ghost use Rattle.std.specs.FinMap.{get};
ghost use Rattle.cfg_base.specs.Text.{characters};
ghost use Rattle.cfg_world.specs.Script.{latest};
ghost use Rattle.cfg_world.specs.Paths.{Finds, Lists};

use cfg_types::{OutOfMemory, Text, TextMap};
use std::alloc::Global;

/// The place of the last entry of each path.
pub(super) fn indexed<T>(
    alloc: Global,
    entries: &[(Text, T)],
) -> Result<TextMap<usize>, OutOfMemory>
    ensures { IfOk result (λ index. Finds index entries.now) }
{
    let mut index = TextMap::with_capacity(alloc, entries.len())?;
    for (at, entry) in entries.iter().enumerate() {
        let name = String::from_str(alloc, entry.0.as_str())?;
        index.set(name, at)?;
    }
    Ok(index)
}

/// What the last entry of a path holds, lent.
pub(super) fn last_under<'a, T>(
    index: &TextMap<usize>,
    entries: &'a [(Text, T)],
    path: &str,
) -> Option<&'a T>
    requires { Finds index.now entries.now }
    ensures { option_copied result ≡ latest (characters path.now) entries.now }
{
    match index.get(path) {
        None => None,
        Some(at) => match entries.get(*at) {
            None => None,
            Some(entry) => Some(&entry.1),
        },
    }
}

/// The paths of a list, by name.
pub(super) fn named(alloc: Global, paths: &[Text]) -> Result<TextMap<()>, OutOfMemory>
    ensures { IfOk result (λ names. Lists names paths.now) }
{
    let mut names = TextMap::with_capacity(alloc, paths.len())?;
    for path in paths {
        let name = String::from_str(alloc, path.as_str())?;
        names.set(name, ())?;
    }
    Ok(names)
}

/// Whether a path is one of those that were named.
pub(super) fn is_named(names: &TextMap<()>, path: &str) -> bool
    ensures { result ≡ is_some (get names.now path.now) }
{
    names.get(path).is_some()
}
