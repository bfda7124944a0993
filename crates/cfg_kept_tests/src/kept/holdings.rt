//! Holdings of each kind over scripts, on one keeper: what they answer, how much they ask, how much was
//! found, and how many records there are of the token's loads.
ghost use Rattle.std.specs.Prelude.{◌≡◌, true, IfOk, None as none};
ghost use Rattle.cfg_imds.specs.Clients.{endpoint_fault, client_rules};
ghost use Rattle.cfg_kept.specs.KeptStates.{kept_key};
ghost use Rattle.cfg_kept.specs.KeyedStates.{is_key_of, is_sso_key, is_login_key};
ghost use Rattle.cfg_script.specs.Devices.{lists_of};
ghost use Rattle.cfg_script.specs.Script.{plain};
ghost use Rattle.cfg_world.specs.Script.{AllFit};

use crate::sections::settings;
use cfg_exchange::ClassifyRetry;
use cfg_imds::Client;
use cfg_kept::{
    CachedSsoToken, Keeper, Kept, KeptToken, LoginToken, Place, imds_token, kept_section,
};
use cfg_script::{Script, read_script};
use cfg_token::TokenKey;
use cfg_types::{Env, OutOfMemory, Region, Seq, Text};
use cfg_world::{Answers, DeviceLists, ScriptDevices, World};
use std::alloc::Global;
use std::test::Fail;

fn sso_kept(alloc: Global) -> Result<Kept, OutOfMemory>
    ensures { IfOk result (λ k. is_sso_key (kept_key k) ≡ true) }
{
    let session = Text::of(alloc, "abc")?;
    let region = Region::new(alloc, "us-east-1")?;
    let start_url = Text::of(alloc, "u")?;
    let key = TokenKey::Sso {
        session,
        region,
        start_url,
    };
    Ok(Kept::new(alloc, Some(key)))
}

fn login_kept(alloc: Global) -> Result<Kept, OutOfMemory>
    ensures { IfOk result (λ k. is_login_key (kept_key k) ≡ true) }
{
    let session = Text::of(alloc, "abc")?;
    Ok(Kept::new(alloc, Some(TokenKey::Login { session })))
}

// How many records there are of the token's loads.
fn records(kept: &Kept) -> usize {
    match (kept.sso_state(), kept.login_state()) {
        (Some(state), _) => state.records().len(),
        (None, Some(state)) => state.records().len(),
        (None, None) => 0,
    }
}

// How much was asked since the last look, what was found by now, and the records.
fn counts(
    alloc: Global,
    answer: &str,
    kept: &Kept,
    world: &mut World<ScriptDevices>,
) -> Result<String, OutOfMemory> {
    let asked = world.journal().len();
    world.clear_journal();
    let found = kept.found().len();
    let records = records(kept);
    Ok(format!(in alloc; "{answer} {asked} {found} {records}; ")?)
}

// A section whose first question is left open, and the records in a copy and after a trim.
fn stopped_line<T: KeptToken>(
    alloc: Global,
    kept: &mut Kept,
    env: &Env,
) -> Result<String, OutOfMemory>
    requires { is_key_of T.rules (kept_key kept.old) ≡ true }
    ensures { kept_key kept.new ≡ kept_key kept.old }
{
    let mut answers = Answers::new(Seq::of(Vec::new(alloc)));
    let stop = T::section(kept, alloc, env, &settings(), &mut answers).err();
    let found = kept.found().len();
    let copied = kept.copy(alloc)?;
    let before = records(&copied);
    kept.trim();
    let after = records(kept);
    Ok(format!(in alloc; "{stop:?} {found} {before} {after}; ")?)
}

fn sso_line(
    alloc: Global,
    kept: &mut Kept,
    env: &Env,
    world: &mut World<ScriptDevices>,
) -> Result<String, OutOfMemory>
    requires { is_sso_key (kept_key kept.old) ≡ true }
    ensures { kept_key kept.new ≡ kept_key kept.old }
{
    match kept_section::<CachedSsoToken, _, _>(kept, alloc, env, &settings(), world) {
        Ok(token) => counts(alloc, token.access_token.as_str(), kept, world),
        Err(error) => Ok(format!(in alloc; "{error:?}; ")?),
    }
}

fn sso_words(
    alloc: Global,
    env: &Env,
    world: &mut World<ScriptDevices>,
) -> Result<String, OutOfMemory> {
    let mut kept = sso_kept(alloc)?;
    let first = sso_line(alloc, &mut kept, env, world)?;
    let second = sso_line(alloc, &mut kept, env, world)?;
    let stopped = stopped_line::<CachedSsoToken>(alloc, &mut kept, env)?;
    let last = sso_line(alloc, &mut kept, env, world)?;
    let key = kept.key();
    Ok(format!(in alloc; "{first}{second}{stopped}{last}{key:?}")?)
}

fn login_line(
    alloc: Global,
    kept: &mut Kept,
    env: &Env,
    world: &mut World<ScriptDevices>,
) -> Result<String, OutOfMemory>
    requires { is_login_key (kept_key kept.old) ≡ true }
    ensures { kept_key kept.new ≡ kept_key kept.old }
{
    match kept_section::<LoginToken, _, _>(kept, alloc, env, &settings(), world) {
        Ok(token) => counts(alloc, token.access_token.access_key_id(), kept, world),
        Err(error) => Ok(format!(in alloc; "{error:?}; ")?),
    }
}

fn login_words(
    alloc: Global,
    env: &Env,
    world: &mut World<ScriptDevices>,
) -> Result<String, OutOfMemory> {
    let mut kept = login_kept(alloc)?;
    let first = login_line(alloc, &mut kept, env, world)?;
    let second = login_line(alloc, &mut kept, env, world)?;
    let stopped = stopped_line::<LoginToken>(alloc, &mut kept, env)?;
    let last = login_line(alloc, &mut kept, env, world)?;
    let key = kept.key();
    Ok(format!(in alloc; "{first}{second}{stopped}{last}{key:?}")?)
}

fn token_line(
    alloc: Global,
    kept: &mut Kept,
    client: &Client,
    world: &mut World<ScriptDevices>,
) -> Result<String, OutOfMemory>
    requires { endpoint_fault (client_rules repeated client.now).endpoint ≡ none }
{
    match imds_token(kept, alloc, Place::Named, client, world) {
        Ok(token) => {
            let token = format!(in alloc; "{token:?}")?;
            counts(alloc, token.as_str(), kept, world)
        }
        Err(error) => Ok(format!(in alloc; "{error:?}; ")?),
    }
}

fn token_words(alloc: Global, world: &mut World<ScriptDevices>) -> Result<String, OutOfMemory> {
    let client = Client::builder(alloc)?.build()?;
    let mut kept = Kept::new(alloc, None);
    match client.usable("/") {
        Ok(()) => {
            let first = token_line(alloc, &mut kept, &client, world)?;
            let second = token_line(alloc, &mut kept, &client, world)?;
            Ok(format!(in alloc; "{first}{second}")?)
        }
        Err(error) => Ok(format!(in alloc; "{error:?}")?),
    }
}

fn words_by(alloc: Global, kind: &str, env: &Env, lists: DeviceLists) -> Result<String, OutOfMemory>
    requires { AllFit lists }
{
    let devices = ScriptDevices::new(alloc, lists)?;
    let mut world = World::new(alloc, devices);
    match kind {
        "sso" => sso_words(alloc, env, &mut world),
        "login" => login_words(alloc, env, &mut world),
        _ => token_words(alloc, &mut world),
    }
}

fn words_over(alloc: Global, kind: &str, script: Script) -> Result<String, OutOfMemory>
    requires { AllFit (lists_of (plain script)) }
{
    let env = Env::new(alloc, script.variables)?;
    words_by(alloc, kind, &env, script.devices)
}

#[test]
fn holdings(rt: HostRuntime) -> Result<(), Fail> {
    let table: &[(&str, &str, &str)] = &[
        (
            "sso",
            r#"{"variables":[["HOME","/home/u"]],"clock":[700,700,730,730],"files":[["/home/u/.aws/sso/cache/a9993e364706816aba3e25717850c26c9cd0d89d.json","{\"accessToken\":\"t\",\"expiresAt\":\"1970-01-01T00:15:00Z\",\"clientId\":\"i\",\"clientSecret\":\"s\",\"refreshToken\":\"r\",\"registrationExpiresAt\":\"1970-01-02T00:00:00Z\"}"]],"replies":{"create-token":[{"access":"t2","refresh":"r2","expires_in":1000}]}}"#,
            r#"t2 5 1 1; t2 1 2 1; Some(Open) 3 1 0; t2 1 4 0; Some(Sso { session: "abc", region: "us-east-1", start_url: "u" })"#,
        ),
        (
            "login",
            r#"{"variables":[["AWS_LOGIN_CACHE_DIRECTORY","/c"]],"clock":[700,700,730,730],"files":[["/c/ba7816bf8f01cfea414140de5dae2223b00361a396177a9cb410ff61f20015ad.json","{\"accessToken\":{\"accessKeyId\":\"AK\",\"secretAccessKey\":\"SK\",\"sessionToken\":\"ST\",\"accountId\":\"012345678901\",\"expiresAt\":\"1970-01-01T00:15:00Z\"},\"refreshToken\":\"rt\",\"clientId\":\"ci\",\"dpopKey\":\"dk\"}"]],"replies":{"sign-in":[{"id":"AK2","secret":"SK2","token":"ST2","refresh":"rt2","expires_in":930}]}}"#,
            r#"AK2 5 1 1; AK2 1 2 1; Some(Open) 3 1 0; AK2 1 4 0; Some(Login { session: "abc" })"#,
        ),
        (
            "metadata",
            r#"{"clock":[0,0,1],"replies":{"imds-token":[[200,[["x-aws-ec2-metadata-token-ttl-seconds","200"]],"t"]]}}"#,
            "[116] 3 1 0; [116] 1 2 0; ",
        ),
    ];
    for (kind, script, want) in table {
        let script = read_script(rt.alloc(), script.as_bytes())?;
        let words = words_over(rt.alloc(), kind, script)?;
        assert_eq!(rt; words.as_str(), *want, "{kind}");
    }
    Ok(())
}
