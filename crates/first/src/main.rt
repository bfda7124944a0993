//! The program `first`: a caller whose line of crates.txt names one crate. It writes the access key of two variables.
#![tactic(auto)]

use aws_config::devices::{Devices, LocalDevices, World};
use aws_config::environment::EnvironmentVariableCredentialsProvider;
use aws_config::{Credentials, CredentialsError, Env, EnvText, OutOfMemory, Text};
use std::alloc::Global;
use std::process::ExitCode;

const VARIABLES: [(&str, &str); 2] = [
    ("AWS_ACCESS_KEY_ID", "AKIDEXAMPLE"),
    ("AWS_SECRET_ACCESS_KEY", "wJalrXUtnFEMI"),
];

fn main(rt: HostRuntime) -> ExitCode {
    let mut world = World::new(rt.alloc(), LocalDevices::new(rt.alloc(), &rt));
    let Ok(credentials) = keys(rt.alloc(), &mut world) else {
        return ExitCode::FAILURE;
    };
    match rt.print(credentials.access_key_id()) {
        Ok(()) => ExitCode::SUCCESS,
        Err(_) => ExitCode::FAILURE,
    }
}

/// The credentials of the variables. The world is asked nothing.
fn keys<D: Devices>(alloc: Global, world: &mut World<D>) -> Result<Credentials, CredentialsError> {
    let env = environment(alloc)?;
    EnvironmentVariableCredentialsProvider::new(alloc, env).provide_credentials(world)
}

fn environment(alloc: Global) -> Result<Env, OutOfMemory> {
    let mut variables = Vec::new(alloc);
    for (name, value) in VARIABLES {
        let value = EnvText::Text(Text::of(alloc, value)?);
        variables.push((String::from_str(alloc, name)?, value))?;
    }
    Env::new(alloc, variables)
}
