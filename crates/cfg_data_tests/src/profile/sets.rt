//! Sets of profiles, written shortly: `NAME:KEY=VALUE,KEY=VALUE;NAME:..`, where `~NAME` is a session.
use cfg_profile::{ProfileSet, Section};
use cfg_types::OutOfMemory;
use std::alloc::Global;

pub(crate) fn property(
    alloc: Global,
    key: &str,
    value: &str,
) -> Result<(String, String), OutOfMemory> {
    let key = String::from_str(alloc, key)?;
    let value = String::from_str(alloc, value)?;
    Ok((key, value))
}

fn properties(alloc: Global, text: &str) -> Result<Vec<(String, String)>, OutOfMemory> {
    let mut properties = Vec::new(alloc);
    for pair in text.split(',') {
        if let Some((key, value)) = pair.split_once('=') {
            properties.push(property(alloc, key, value)?)?;
        }
    }
    Ok(properties)
}

fn section(alloc: Global, text: &str) -> Result<Section, OutOfMemory> {
    match text.split_once(':') {
        None => Section::new(alloc, text, Vec::new(alloc)),
        Some((name, rest)) => Section::new(alloc, name, properties(alloc, rest)?),
    }
}

pub(crate) fn set_of(alloc: Global, selected: &str, text: &str) -> Result<ProfileSet, OutOfMemory> {
    let mut profiles = Vec::new(alloc);
    let mut sessions = Vec::new(alloc);
    for part in text.split(';') {
        match part.strip_prefix('~') {
            Some(session) => sessions.push(section(alloc, session)?)?,
            None if part.is_empty() => {}
            None => profiles.push(section(alloc, part)?)?,
        }
    }
    ProfileSet::new(alloc, profiles, sessions, selected)
}
