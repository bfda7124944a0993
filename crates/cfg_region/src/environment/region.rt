//! The region that the environment's variables name.
ghost use Rattle.std.specs.Prelude.{◌≡◌, IfOk, option_map};
ghost use Rattle.cfg_base.specs.Text.{characters};
ghost use Rattle.cfg_region.specs.Environments.{environment_region};

use cfg_types::{Env, OutOfMemory, Region};
use std::alloc::Global;
use std::marker::Model;

// The text of the first of the two variables that can be read.
#[tactic(auto, unfolding(crate::specs::Environments::environment_region))]
fn named(env: &Env) -> Option<&str>
    ensures { option_map (λ t. characters t.now) result ≡ environment_region env.now }
{
    match env.readable("AWS_REGION") {
        Some(name) => Some(name),
        None => env.readable("AWS_DEFAULT_REGION"),
    }
}

// The region that the variables name.
pub(crate) fn region_of_environment(alloc: Global, env: &Env) -> Result<Option<Region>, OutOfMemory>
    ensures { IfOk result (λ region. region ≡ environment_region env.now) }
{
    match named(env) {
        None => Ok(None),
        Some(name) => {
            let region = Region::new(alloc, name)?;
            Ok(Some(region))
        }
    }
}

/// The region by environment variables. Contracts see the variables.
pub struct EnvironmentVariableRegionProvider {
    alloc: Global,
    env: Env,
}

impl Drop for EnvironmentVariableRegionProvider {
    fn drop(self) {
        let EnvironmentVariableRegionProvider { alloc: _, env: _ } = self;
    }
}

impl Model for EnvironmentVariableRegionProvider {
    ghost use Rattle.cfg_base.specs.TextMap.{named_code};
    ghost use Rattle.cfg_types.specs.Environment.{Variables};
    ghost use Rattle.cfg_types.specs.contracts.environment.EnvText.{the_row};

    ghost Value = { Variables };

    ghost coded = { named_code the_row.coded };

    ghost view = { λ p. p.env };
}

impl EnvironmentVariableRegionProvider {
    /// A provider over these variables.
    pub fn new(alloc: Global, env: Env) -> EnvironmentVariableRegionProvider
        ensures { result ≡ env }
    {
        EnvironmentVariableRegionProvider { alloc, env }
    }

    /// The region that the variables name, as aws-config reads them: a readable `AWS_REGION`, else a readable
    /// `AWS_DEFAULT_REGION`. One that is set and empty is an answer, and one that is not Unicode is none.
    /// Neither is trimmed. Nothing is asked. `OutOfMemory` where memory runs out.
    pub fn region(&self) -> Result<Option<Region>, OutOfMemory>
        ensures { IfOk result (λ region. region ≡ environment_region self.now) }
    {
        region_of_environment(self.alloc, &self.env)
    }
}
