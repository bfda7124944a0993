//! Sections, and sets of them by name.
ghost use Rattle.std.specs.Prelude.{◌≡◌, ◌↔◌, IsTrue, IfOk, map, option_map, string_bytes};
ghost use Rattle.std.specs.Option.{option_copied};
ghost use Rattle.std.specs.FinMap.{get as entry_of, len};
ghost use Rattle.cfg_base.specs.Entries.{each_set};
ghost use Rattle.cfg_base.specs.Text.{characters};
ghost use Rattle.std.specs.Str.{str_eq_ignore_ascii_case};
ghost use Rattle.cfg_profile.specs.Sections.{bytes_of, property, text_property as text_property_of, named_section, last_match};

use cfg_types::{AccountId, OutOfMemory, Text, TextMap, TryCopy};
use std::alloc::Global;
use std::marker::Model;

/// A section: a name, and properties by keys. Keys are compared without regard to ASCII case, and of
/// two equal keys the later counts.
pub struct Section {
    name: String,
    properties: Vec<(String, String)>,
}

impl Drop for Section {
    fn drop(self) {
        let Section {
            name: _,
            properties: _,
        } = self;
    }
}

impl Model for Section {
    ghost use Rattle.std.specs.Prelude.{map, string_bytes};
    ghost use Rattle.cfg_profile.specs.SectionParts.{SectionParts, bytes_of};

    ghost Value = { SectionParts };

    ghost view = { λ s. record { name = string_bytes s.name; properties = map bytes_of s.properties.items } };
}

impl Section {
    /// A section of this name with these keys and values. `OutOfMemory` where memory runs out.
    pub fn new(
        alloc: Global,
        name: &str,
        properties: Vec<(String, String)>,
    ) -> Result<Section, OutOfMemory>
        ensures { IfOk result (λ s. s ≡ record { name = name.now; properties = map bytes_of properties.items }) }
    {
        Ok(Section {
            name: String::from_str(alloc, name)?,
            properties,
        })
    }

    /// A section of this name with these keys and values, whose name is taken and not copied.
    pub fn of(name: String, properties: Vec<(String, String)>) -> Section
        ensures { result ≡ record { name = string_bytes name; properties = map bytes_of properties.items } }
    {
        Section { name, properties }
    }

    /// The section's name.
    pub fn name(&self) -> &str
        ensures { result.now ≡ self.now.name }
    {
        self.name.as_str()
    }

    /// The section's name, and a message that tells of it.
    pub(crate) fn with_message(
        &self,
        alloc: Global,
        message: &str,
    ) -> Result<(Text, Text), OutOfMemory>
        ensures { IfOk result (λ told. told ≡ (characters self.now.name, characters message.now)) }
    {
        let name = Text::of(alloc, self.name())?;
        let message = Text::of(alloc, message)?;
        Ok((name, message))
    }

    /// The value of a key, as it stands there, an empty one too; none where the key is not there.
    pub fn get(&self, key: &str) -> Option<&str>
        ensures { option_map (λ v. v.now) result ≡ property self.now key.now }
    {
        last_value(self.properties.as_slice(), key)
    }

    /// The value of a key as a text of its own, where it is there. `OutOfMemory` where memory runs out.
    pub fn text_property(&self, alloc: Global, key: &str) -> Result<Option<Text>, OutOfMemory>
        ensures { IfOk result (λ t. t ≡ text_property_of self.now key.now) }
    {
        match self.get(key) {
            None => Ok(None),
            Some(value) => Ok(Some(Text::of(alloc, value)?)),
        }
    }

    /// The value of a key as the id of an account, where it is there. `OutOfMemory` where memory runs out.
    pub fn account_property(
        &self,
        alloc: Global,
        key: &str,
    ) -> Result<Option<AccountId>, OutOfMemory>
        ensures { IfOk result (λ t. t ≡ text_property_of self.now key.now) }
    {
        match self.get(key) {
            None => Ok(None),
            Some(value) => Ok(Some(AccountId::new(alloc, value)?)),
        }
    }
}

impl TryCopy for Section {
    fn copy(&self, alloc: Global) -> Result<Section, OutOfMemory> {
        let name = String::from_str(alloc, self.name())?;
        let properties = copy_properties(alloc, self.properties.as_slice())?;
        Ok(Section { name, properties })
    }
}

fn copy_properties(
    alloc: Global,
    properties: &[(String, String)],
) -> Result<Vec<(String, String)>, OutOfMemory>
    ensures { IfOk result (λ copied. map bytes_of copied.items ≡ map bytes_of properties.now) }
{
    let mut copied = Vec::new(alloc);
    for property in properties {
        let key = String::from_str(alloc, property.0.as_str())?;
        let value = String::from_str(alloc, property.1.as_str())?;
        copied.push((key, value))?;
    }
    Ok(copied)
}

// The value of the last of these whose key is this one. A call asks for a few keys: an index for each section would
// cost more than its scans.
fn last_value<'a>(properties: &'a [(String, String)], key: &str) -> Option<&'a str>
    ensures { option_map (λ v. v.now) result ≡ last_match key.now (map bytes_of properties.now) }
{
    let mut found = None;
    for property in properties {
        if is_same_key(property.0.as_str(), key) {
            found = Some(property.1.as_str());
        }
    }
    found
}

// Whether two keys are equal but for ASCII case.
fn is_same_key(a: &str, b: &str) -> bool
    ensures { result ≡ str_eq_ignore_ascii_case a.now b.now }
{
    a.eq_ignore_ascii_case(b)
}

/// Sections by name, profiles and sessions apart, and the name of the selected profile. Names are
/// compared exactly, and of two sections of one name the later counts.
pub struct ProfileSet {
    profiles: TextMap<Section>,
    sessions: TextMap<Section>,
    selected: String,
}

impl Drop for ProfileSet {
    fn drop(self) {
        let ProfileSet {
            profiles: _,
            sessions: _,
            selected: _,
        } = self;
    }
}

impl Model for ProfileSet {
    ghost use Rattle.std.specs.Prelude.{string_bytes};
    ghost use Rattle.cfg_profile.specs.SectionSets.{SectionSets, sets_code};

    ghost Value = { SectionSets };

    ghost coded = { sets_code };

    ghost view = { λ s. record { profiles = s.profiles; sessions = s.sessions; selected = string_bytes s.selected } };
}

impl ProfileSet {
    ghost use Rattle.cfg_profile.specs.SectionSets.{set_of, selected_property};

    /// The profiles and sessions of these sections, with the profile of this name selected, which need not
    /// be there. `OutOfMemory` where memory runs out.
    pub fn new(
        alloc: Global,
        profiles: Vec<Section>,
        sessions: Vec<Section>,
        selected: &str,
    ) -> Result<ProfileSet, OutOfMemory>
        ensures { IfOk result (λ set. set ≡ set_of profiles.items sessions.items selected.now) }
    {
        let profiles = by_name(alloc, profiles)?;
        let sessions = by_name(alloc, sessions)?;
        let selected = String::from_str(alloc, selected)?;
        Ok(ProfileSet {
            profiles,
            sessions,
            selected,
        })
    }

    /// The profile of this name, lent, where it is there.
    pub fn get_profile(&self, name: &str) -> Option<&Section>
        ensures { option_copied result ≡ entry_of self.now.profiles name.now }
    {
        self.profiles.get(name)
    }

    /// How many profiles there are, those of one name counted once.
    pub fn profile_count(&self) -> usize
        ensures { result ≡ len self.now.profiles }
    {
        self.profiles.len()
    }

    /// Whether there is no profile. Sessions do not count.
    pub fn is_empty(&self) -> bool
        ensures { IsTrue result ↔ (len self.now.profiles ≡ 0) }
    {
        self.profiles.is_empty()
    }

    /// The session of IAM Identity Center of this name, lent, where it is there.
    pub fn sso_session(&self, name: &str) -> Option<&Section>
        ensures { option_copied result ≡ entry_of self.now.sessions name.now }
    {
        self.sessions.get(name)
    }

    /// The name of the profile that these sections select. The default chain selects by its own
    /// configuration, and does not read it.
    pub fn selected_profile(&self) -> &str
        ensures { result.now ≡ self.now.selected }
    {
        self.selected.as_str()
    }

    /// The value of a key of the selected profile, where both are there.
    pub fn get(&self, key: &str) -> Option<&str>
        ensures { option_map (λ v. v.now) result ≡ selected_property self.now key.now }
    {
        match self.get_profile(self.selected_profile()) {
            None => None,
            Some(section) => section.get(key),
        }
    }
}

impl TryCopy for ProfileSet {
    fn copy(&self, alloc: Global) -> Result<ProfileSet, OutOfMemory> {
        let profiles = self.profiles.copy(alloc)?;
        let sessions = self.sessions.copy(alloc)?;
        let selected = String::from_str(alloc, self.selected.as_str())?;
        Ok(ProfileSet {
            profiles,
            sessions,
            selected,
        })
    }
}

// The sections by their names.
fn by_name(alloc: Global, sections: Vec<Section>) -> Result<TextMap<Section>, OutOfMemory>
    ensures { IfOk result (λ m. m ≡ each_set (map named_section sections.items)) }
{
    let mut named = TextMap::with_capacity(alloc, sections.len())?;
    for section in sections {
        let name = String::from_str(alloc, section.name())?;
        named.set(name, section)?;
    }
    Ok(named)
}

/// Sections, or why they were refused.
pub enum ProfileSource {
    /// The sections that were handed in.
    Sections(ProfileSet),
    /// The reason why there are none, in words.
    Refused(Text),
}

impl Drop for ProfileSource {
    fn drop(self) {
        match self {
            ProfileSource::Sections(_) => {}
            ProfileSource::Refused(_) => {}
        }
    }
}

impl TryCopy for ProfileSource {
    fn copy(&self, alloc: Global) -> Result<ProfileSource, OutOfMemory> {
        match self {
            ProfileSource::Sections(set) => {
                let set = set.copy(alloc)?;
                Ok(ProfileSource::Sections(set))
            }
            ProfileSource::Refused(reason) => {
                let reason = reason.copy(alloc)?;
                Ok(ProfileSource::Refused(reason))
            }
        }
    }
}
