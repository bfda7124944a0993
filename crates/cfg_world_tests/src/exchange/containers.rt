//! What no clause says: that a container gives credentials, in examples.
ghost use Rattle.cfg_world.specs.Script.{AllFit};
ghost use Rattle.cfg_script.specs.Script.{plain};
ghost use Rattle.cfg_script.specs.Devices.{lists_of};

use cfg_exchange::steps::{ContainerSettings, container_credentials};
use cfg_script::{Script, read_script};
use cfg_types::{Env, OutOfMemory};
use cfg_world::{DeviceLists, ScriptDevices, World};
use std::alloc::Global;
use std::test::Fail;

const SETTINGS: ContainerSettings = ContainerSettings {
    dns: true,
    sleep: true,
    connect_ms: 2000,
    read_ms: 5000,
};

// What a container answers, and how many questions it puts.
fn answered(alloc: Global, env: &Env, lists: DeviceLists) -> Result<String, OutOfMemory>
    requires { AllFit lists }
{
    let mut world = World::new(alloc, ScriptDevices::new(alloc, lists)?);
    let answer = container_credentials(alloc, env, &SETTINGS, &mut world);
    let asked = world.journal().len();
    Ok(format!(in alloc; "{answer:?} {asked}")?)
}

fn answered_by(alloc: Global, script: Script) -> Result<String, OutOfMemory>
    requires { AllFit (lists_of (plain script)) }
{
    let env = Env::new(alloc, script.variables)?;
    answered(alloc, &env, script.devices)
}

const SCRIPTS: &[(&str, &str)] = &[
    (
        r#"{"variables":[["AWS_CONTAINER_AUTHORIZATION_TOKEN_FILE","/t"],["AWS_CONTAINER_CREDENTIALS_FULL_URI","http://n:1/c"]],"lookups":[["::1"]],"files":[["/t","tok"]],"replies":{"http":["timeout",[500,[],""],[200,[],"{\"AccessKeyId\":\"MUA\",\"SecretAccessKey\":\"S\",\"Token\":\"T\",\"Expiration\":\"2016-02-25T06:03:31Z\"}"]]}}"#,
        "Ok(Ok(Credentials { provider_name: \"EcsContainer\", access_key_id: \"MUA\", secret_access_key: \"** redacted **\", expires_after: 1456380211 s 0 ns })) 5",
    ),
    (
        r#"{"variables":[["AWS_CONTAINER_CREDENTIALS_RELATIVE_URI","/v2"]],"replies":{"http":[[400,[],""]]}}"#,
        "Ok(Err(ProviderError(Status(400)))) 1",
    ),
    ("{}", "Ok(Err(CredentialsNotLoaded(NotConfigured))) 0"),
];

#[test]
fn containers(rt: HostRuntime) -> Result<(), Fail> {
    for (script, want) in SCRIPTS {
        let script = read_script(rt.alloc(), script.as_bytes())?;
        let words = answered_by(rt.alloc(), script)?;
        assert_eq!(rt; words.as_str(), *want);
    }
    Ok(())
}
