//! Environment variables that are handed in, and how they are read.
ghost use Rattle.std.specs.Prelude.{◌≡◌, IfOk, MatchResult, Ok, Err, map, option_map};
ghost use Rattle.std.specs.Str.{encode_utf8_all};
ghost use Rattle.cfg_base.specs.Text.{characters};
ghost use Rattle.cfg_base.specs.TextMap.{named};
ghost use Rattle.cfg_base.specs.Entries.{each_set};
ghost use Rattle.cfg_types.specs.Environment.{variable, readable as readable_of};

use cfg_base::{OutOfMemory, Text, TextMap, TryCopy};
use std::alloc::Global;
use std::marker::Model;

/// What a variable is set to. A value that is not Unicode is known to be there, and no more.
#[derive(Debug, PartialEq, Eq, Drop)]
pub enum EnvText {
    /// A text, which may be empty.
    Text(Text),
    /// Bytes that are no text.
    NotUnicode,
}

impl TryCopy for EnvText {
    fn copy(&self, alloc: Global) -> Result<EnvText, OutOfMemory> {
        match self {
            EnvText::NotUnicode => Ok(EnvText::NotUnicode),
            EnvText::Text(text) => {
                let text = text.copy(alloc)?;
                Ok(EnvText::Text(text))
            }
        }
    }
}

/// Why a variable cannot be read.
#[derive(Clone, Copy, Debug, PartialEq, Eq)]
pub enum VarError {
    /// It is not set.
    NotPresent,
    /// Its value is no text.
    NotUnicode,
}

/// Environment variables. Contracts see the finite map from the names' bytes to what they are set to.
#[derive(Drop)]
pub struct Env {
    variables: TextMap<EnvText>,
}

impl Model for Env {
    ghost use Rattle.std.specs.Coded.{coded_list};
    ghost use Rattle.cfg_base.specs.TextMap.{Named, named_code};
    ghost use Rattle.cfg_types.specs.declared.environment.EnvText.{EnvText};
    ghost use Rattle.cfg_types.specs.contracts.environment.EnvText.{the_row};

    ghost Value = { Named EnvText };

    ghost coded = { named_code the_row.coded };

    ghost view = { λ e. e.variables };
}

impl Env {
    /// The variables of a list of names and values. Of two equal names the later counts.
    /// `OutOfMemory` where memory runs out; the list is given up then.
    pub fn new(alloc: Global, vars: Vec<(String, EnvText)>) -> Result<Env, OutOfMemory>
        ensures { IfOk result (λ env. env ≡ each_set (map named vars.items)) }
    {
        let mut variables = TextMap::with_capacity(alloc, vars.len())?;
        for (name, value) in vars {
            // In place of an earlier value: of two equal names the later counts.
            variables.set(name, value)?;
        }
        Ok(Env { variables })
    }

    /// What the variable is set to. Names are compared exactly. `NotPresent` where it is not set,
    /// `NotUnicode` where its value is no text.
    pub fn get(&self, name: &str) -> Result<&str, VarError>
        ensures value { MatchResult result (λ text. variable self.now name.now ≡ Ok (characters text.now)) (λ e. variable self.now name.now ≡ Err e) }
        ensures bytes { IfOk result (λ text. text.now ≡ encode_utf8_all (characters text.now)) }
    {
        match self.variables.get(name) {
            None => Err(VarError::NotPresent),
            Some(EnvText::NotUnicode) => Err(VarError::NotUnicode),
            Some(EnvText::Text(text)) => Ok(text.as_str()),
        }
    }

    /// The text of a variable, where it is set and its value is a text.
    pub fn readable(&self, name: &str) -> Option<&str>
        ensures chars { option_map (λ t. characters t.now) result ≡ readable_of self.now name.now }
        ensures bytes { option_map (λ t. t.now) result ≡ option_map encode_utf8_all (readable_of self.now name.now) }
    {
        match self.get(name) {
            Ok(text) => Some(text),
            Err(_) => None,
        }
    }
}

impl TryCopy for Env {
    fn copy(&self, alloc: Global) -> Result<Env, OutOfMemory> {
        let variables = self.variables.copy(alloc)?;
        Ok(Env { variables })
    }
}
