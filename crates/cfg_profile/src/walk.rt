//! The walk from the selected profile along its sources.
ghost use Rattle.std.specs.Prelude.{◌≡◌, IfOk, map};
ghost use Rattle.std.specs.FinMap.{get as entry_of};
ghost use Rattle.cfg_profile.specs.Paths.{is_empty};
ghost use Rattle.cfg_profile.specs.Seen.{IsStep, IsFollowed, IsWalked, on_set};

use crate::keys::{Source, has_both_keys, is_role, source_of};
use crate::sections::{ProfileSet, Section};
use cfg_types::OutOfMemory;
use std::alloc::Global;
use std::collections::HashSet;

/// How a path ends: with the keys of its last section; with that section's base; at a role with both
/// sources or none; at a role over its own section's base; at a name that the path has already; at a
/// name that no section has.
#[derive(Clone, Copy)]
pub(crate) enum End<'a> {
    Keys,
    Base,
    NoSource,
    OwnBase,
    Loops(&'a str),
    Missing(&'a str),
}

/// A path: the names and sections before the last ones, these, and how it ends.
#[derive(Drop)]
pub(crate) struct Path<'a> {
    pub(crate) names: Vec<&'a str>,
    pub(crate) sections: Vec<&'a Section>,
    pub(crate) last_name: &'a str,
    pub(crate) last: &'a Section,
    pub(crate) end: End<'a>,
}

impl<'a> Path<'a> {
    /// Whether the path has one name alone.
    pub(crate) fn is_single(&self) -> bool
        ensures { result ≡ is_empty (map (λ n. n.now) self.now.names.items) }
    {
        self.names.is_empty()
    }
}

#[derive(Clone, Copy)]
enum Step<'a> {
    On(&'a str, &'a Section),
    EndsAt(End<'a>),
}

/// The path from the profile of this name, which is this section.
pub(crate) fn walk<'a>(
    alloc: Global,
    set: &'a ProfileSet,
    selected: &'a str,
    first: &'a Section,
) -> Result<Path<'a>, OutOfMemory>
    requires { entry_of set.now.profiles selected.now ≡ Some first.now }
    ensures { IfOk result (IsWalked set.now.profiles selected.now) }
{
    let mut names = Vec::new(alloc);
    let mut sections = Vec::new(alloc);
    let mut visited = HashSet::new(alloc);
    let mut last_name = selected;
    let mut last = first;
    loop {
        visited.insert(last_name)?;
        match next_step(set, last, names.is_empty(), &visited) {
            Step::EndsAt(end) => {
                return Ok(Path {
                    names,
                    sections,
                    last_name,
                    last,
                    end,
                });
            }
            Step::On(next, source) => {
                names.push(last_name)?;
                sections.push(last)?;
                last_name = next;
                last = source;
            }
        }
    }
}

// Where a path goes on to from this section, or how it ends here.
fn next_step<'a>(
    set: &'a ProfileSet,
    section: &'a Section,
    is_first: bool,
    visited: &HashSet<&'a str>,
) -> Step<'a>
    ensures { IsStep set.now.profiles (on_set visited.now) is_first section.now result }
{
    // In a profile that another one names as its source, static keys come before a role; in the first profile the
    // role comes first.
    if !is_first && has_both_keys(section) {
        return Step::EndsAt(End::Keys);
    }
    if !is_role(section) {
        return Step::EndsAt(End::Base);
    }
    match source_of(section) {
        Source::Both | Source::Neither => Step::EndsAt(End::NoSource),
        Source::Own => Step::EndsAt(End::OwnBase),
        Source::Named(next) => follow(set, next, visited),
    }
}

// The profile of this name, where it is there and not on the path yet.
fn follow<'a>(set: &'a ProfileSet, next: &'a str, visited: &HashSet<&'a str>) -> Step<'a>
    ensures { IsFollowed set.now.profiles (on_set visited.now) next.now result }
{
    if visited.contains(next) {
        return Step::EndsAt(End::Loops(next));
    }
    match set.get_profile(next) {
        None => Step::EndsAt(End::Missing(next)),
        Some(source) => Step::On(next, source),
    }
}
