//! Keys that stand in variables.
ghost use Rattle.std.specs.Prelude.{◌≡◌, false};
ghost use Rattle.cfg_types.specs.Classes.{is_memory};
ghost use Rattle.cfg_providers.specs.EnvironmentKeys.{environment};

use aws_config::devices::{Devices, World};
use aws_config::environment::EnvironmentVariableCredentialsProvider;
use aws_config::{Credentials, CredentialsError, Env};
use std::alloc::Global;

/// The credentials of the keys in these variables. The world is asked nothing.
pub fn keys_of<D: Devices>(
    alloc: Global,
    env: Env,
    world: &mut World<D>,
) -> Result<Credentials, CredentialsError>
    ensures answer { is_memory result ≡ false → environment env ≡ result }
    ensures world { world.new ≡ world.old }
{
    EnvironmentVariableCredentialsProvider::new(alloc, env).provide_credentials(world)
}
