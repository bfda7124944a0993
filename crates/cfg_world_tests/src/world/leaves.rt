//! What leaves answer over a script: those of the clock and the jitter, and those that no provider asks by.
use crate::world::devices::{scripted, scripted_by};
use crate::world::questions::TIMEOUTS;
use cfg_types::{
    Bytes, CallSettings, CreateOAuth2Token, CreateToken, Http, Instant, MetadataGet, MetadataToken,
    OutOfMemory, Text, TryCopy,
};
use cfg_world::{
    Asking, Stop, World, create_oauth2_token, create_token, fetch, fetch_metadata,
    fetch_metadata_token, read_clock, read_jitter, write_file,
};
use std::alloc::Global;
use std::fmt;
use std::test::Fail;

const SCRIPT: &[u8] =
    br#"{"unwritable":["b"],"replies":{"http":[[200,[],"c"]],"imds-token":[[201,[],"c"]],"imds-get":[[202,[],"c"]],"create-token":[{"expires_in":7}],"sign-in":[null]}}"#;

fn settings() -> CallSettings {
    CallSettings {
        region: None,
        use_fips: None,
        use_dual_stack: None,
        max_attempts: 3,
        timeouts: TIMEOUTS,
    }
}

fn http(text: Text, path: Text) -> Http {
    Http {
        endpoint: text,
        path,
        authorization: None,
        timeouts: TIMEOUTS,
    }
}

fn metadata_token(endpoint: Text) -> MetadataToken {
    MetadataToken {
        endpoint,
        ttl_seconds: 9,
        timeouts: TIMEOUTS,
    }
}

fn metadata_get(endpoint: Text, path: Text, token: Bytes) -> MetadataGet {
    MetadataGet {
        endpoint,
        path,
        token,
        timeouts: TIMEOUTS,
    }
}

fn refresh(client_id: Text, client_secret: Text, refresh_token: Text) -> CreateToken {
    CreateToken {
        client_id,
        client_secret,
        refresh_token,
        settings: settings(),
    }
}

fn sign_in(client_id: Text, refresh_token: Text, dpop_key: Text) -> CreateOAuth2Token {
    CreateOAuth2Token {
        client_id,
        refresh_token,
        dpop_key,
        settings: settings(),
    }
}

fn shown<T: fmt::Debug>(alloc: Global, answer: &T) -> Result<String, Stop> {
    match format!(in alloc; "{answer:?}") {
        Ok(words) => Ok(words),
        Err(_) => Err(Stop::OutOfMemory),
    }
}

// What this leaf answers.
fn leaf_words<A: Asking>(alloc: Global, leaf: &str, asking: &mut A) -> Result<String, Stop> {
    let text = Text::of(alloc, "b")?;
    let (one, other) = (text.copy(alloc)?, text.copy(alloc)?);
    let bytes = Bytes::of(alloc, b"c")?;
    match leaf {
        "write" => shown(alloc, &write_file(alloc, text, bytes, asking)?),
        "http" => shown(alloc, &fetch(alloc, http(text, one), asking)?),
        "imds-token" => {
            let answer = fetch_metadata_token(alloc, metadata_token(text), asking)?;
            shown(alloc, &answer)
        }
        "imds-get" => {
            let answer = fetch_metadata(alloc, metadata_get(text, one, bytes), asking)?;
            shown(alloc, &answer)
        }
        "create-token" => {
            let answer = create_token(alloc, refresh(text, one, other), asking)?;
            shown(alloc, &answer)
        }
        _ => {
            let answer = create_oauth2_token(alloc, sign_in(text, one, other), asking)?;
            shown(alloc, &answer)
        }
    }
}

const TABLE: &[(&str, &str)] = &[
    ("write", "Err(Io)"),
    (
        "http",
        "Ok(HttpReply { status: 200, secrets: \"** redacted **\" })",
    ),
    (
        "imds-token",
        "Ok(HttpReply { status: 201, secrets: \"** redacted **\" })",
    ),
    (
        "imds-get",
        "Ok(HttpReply { status: 202, secrets: \"** redacted **\" })",
    ),
    (
        "create-token",
        "Ok(TokenReply { secrets: \"** redacted **\", expires_in: 7 })",
    ),
    ("sign-in", "Ok(SignInReply { token: None })"),
    ("sign-in", "Err(Failed(Dispatch))"),
];

#[test]
fn leaves_read_their_answers(rt: HostRuntime) -> Result<(), Fail> {
    let mut world = World::new(rt.alloc(), scripted(rt.alloc())?);
    let moment = read_clock(&mut world);
    let number = read_jitter(&mut world);
    assert_eq!(rt; (moment, number), (Ok(Instant::epoch().plus(5)), Ok(8)));
    Ok(())
}

#[test]
fn leaves_over_a_script(rt: HostRuntime) -> Result<(), Fail> {
    let devices = scripted_by(rt.alloc(), SCRIPT)?;
    let mut world = World::new(rt.alloc(), devices);
    for (leaf, want) in TABLE {
        let words = leaf_words(rt.alloc(), leaf, &mut world)?;
        assert_eq!(rt; words.as_str(), *want, "{leaf}");
    }
    Ok(())
}
