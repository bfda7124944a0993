//! Calls for the session `abc` over scripts: what they answer, and how much they ask.
ghost use Rattle.std.specs.Prelude.{◌≡◌, Some};
ghost use Rattle.cfg_kept.specs.KeptStates.{kept_key};
ghost use Rattle.cfg_script.specs.Devices.{lists_of};
ghost use Rattle.cfg_script.specs.Script.{plain};
ghost use Rattle.cfg_token.specs.declared.token_key.TokenKey.TheVariants.{Login};
ghost use Rattle.cfg_world.specs.Script.{AllFit};

use crate::outcome::{CredentialsOutcome, answer_words};
use cfg_kept::Kept;
use cfg_login::steps::follow_login;
use cfg_login::{AskedBy, LoginCredentialsProvider};
use cfg_profile::ProviderConfig;
use cfg_script::{Script, read_script};
use cfg_token::TokenKey;
use cfg_types::{CredentialsError, Env, OutOfMemory, Outcome, Text, TryCopy};
use cfg_world::{DeviceLists, ScriptDevices, World};
use std::alloc::Global;
use std::test::Fail;

// A caller's own provider.
fn by_caller(
    alloc: Global,
    config: &ProviderConfig,
    world: &mut World<ScriptDevices>,
) -> Result<CredentialsOutcome, OutOfMemory> {
    let builder = LoginCredentialsProvider::builder(alloc, "abc")?.configure(config)?;
    let provider = builder.build()?;
    let key = match provider.token_key() {
        Some(key) => Some(key.copy(alloc)?),
        None => None,
    };
    let mut kept = Kept::new(alloc, key);
    Ok(Outcome {
        answer: provider.provide_credentials(&mut kept, world),
    })
}

fn followed(
    alloc: Global,
    config: &ProviderConfig,
    session: &Text,
    kept: &mut Kept,
    world: &mut World<ScriptDevices>,
) -> CredentialsOutcome
    requires { kept_key kept.old ≡ Some (Login session.now) }
{
    let answer = match follow_login(alloc, config, session, AskedBy::Profile, kept, world) {
        Ok(answer) => answer,
        Err(_) => Err(CredentialsError::OutOfMemory),
    };
    Outcome { answer }
}

// A profile's provider.
fn by_profile(
    alloc: Global,
    config: &ProviderConfig,
    world: &mut World<ScriptDevices>,
) -> Result<CredentialsOutcome, OutOfMemory> {
    let session = Text::of(alloc, "abc")?;
    let key = TokenKey::Login {
        session: session.copy(alloc)?,
    };
    let mut kept = Kept::new(alloc, Some(key));
    Ok(followed(alloc, config, &session, &mut kept, world))
}

fn words_by(
    alloc: Global,
    by: AskedBy,
    config: &ProviderConfig,
    lists: DeviceLists,
) -> Result<String, OutOfMemory>
    requires { AllFit lists }
{
    let devices = ScriptDevices::new(alloc, lists)?;
    let mut world = World::new(alloc, devices);
    let outcome = match by {
        AskedBy::Caller => by_caller(alloc, config, &mut world)?,
        AskedBy::Profile => by_profile(alloc, config, &mut world)?,
    };
    let answer = answer_words(alloc, &outcome)?;
    let asked = world.journal().len();
    Ok(format!(in alloc; "{answer} {asked}")?)
}

fn words_over(alloc: Global, by: AskedBy, script: Script) -> Result<String, OutOfMemory>
    requires { AllFit (lists_of (plain script)) }
{
    let env = Env::new(alloc, script.variables)?;
    let config = ProviderConfig::empty(alloc)?.with_env(env);
    words_by(alloc, by, &config, script.devices)
}

// A refresh that is due.
const REFRESH: &str =
    r#"{"variables":[["AWS_LOGIN_CACHE_DIRECTORY","/c"]],"clock":[1000],"files":[["/c/ba7816bf8f01cfea414140de5dae2223b00361a396177a9cb410ff61f20015ad.json","{\"accessToken\":{\"accessKeyId\":\"AK\",\"secretAccessKey\":\"SK\",\"sessionToken\":\"ST\",\"accountId\":\"012345678901\",\"expiresAt\":\"1970-01-01T00:15:00Z\"},\"refreshToken\":\"rt\",\"clientId\":\"ci\",\"dpopKey\":\"dk\"}"]],"replies":{"sign-in":[{"id":"AK2","secret":"SK2","token":"ST2","refresh":"rt2","expires_in":900}]}}"#;

#[test]
fn calls(rt: HostRuntime) -> Result<(), Fail> {
    let table: &[(AskedBy, &str, &str)] = &[
        (
            AskedBy::Caller,
            REFRESH,
            r#"Credentials { provider_name: "Login", access_key_id: "AK2", secret_access_key: "** redacted **", expires_after: 1900 s 0 ns, account_id: "012345678901" } SK2 Some("ST2") [CredentialsProfile] 5"#,
        ),
        (
            AskedBy::Profile,
            REFRESH,
            r#"Credentials { provider_name: "Login", access_key_id: "AK2", secret_access_key: "** redacted **", expires_after: 1900 s 0 ns, account_id: "012345678901" } SK2 Some("ST2") [CredentialsProfileLogin] 5"#,
        ),
        (
            AskedBy::Caller,
            r#"{"clock":[5]}"#,
            "Unhandled(LoginToken(NoHomeDirectory)) 1",
        ),
    ];
    for (by, text, want) in table {
        let script = read_script(rt.alloc(), text.as_bytes())?;
        let words = words_over(rt.alloc(), *by, script)?;
        assert_eq!(rt; words.as_str(), *want, "{by:?} {text}");
    }
    Ok(())
}
