//! Sections over scripts: what they answer, note and keep.
ghost use Rattle.std.specs.Prelude.{◌≡◌, true, IfOk};
ghost use Rattle.cfg_token.specs.SsoTokens.{is_sso};

use crate::sections::{polled, sections, session_key};
use cfg_token::{CachedSsoToken, TokenState};
use cfg_types::OutOfMemory;
use std::alloc::Global;
use std::test::Fail;

pub(crate) fn state(alloc: Global) -> Result<TokenState<CachedSsoToken>, OutOfMemory>
    ensures { IfOk result (λ s. is_sso s.key ≡ true) }
{
    Ok(TokenState::new(alloc, session_key(alloc)?))
}

const SCRIPTS: &[(&str, &str)] = &[
    (
        r#"{"variables":[["HOME","/home/u"]],"clock":[0,0,3299],"files":[["/home/u/.aws/sso/cache/a9993e364706816aba3e25717850c26c9cd0d89d.json","{\"accessToken\":\"t\",\"expiresAt\":\"1970-01-01T01:00:00Z\"}"]]}"#,
        "Ok(CachedSsoToken { secrets: \"** redacted **\", expires_at: 3600 s 0 ns }) 3 1 None true; Ok(CachedSsoToken { secrets: \"** redacted **\", expires_at: 3600 s 0 ns }) 4 0 None true",
    ),
    (
        r#"{"variables":[["HOME","/home/u"]],"clock":[700,700,800,800],"files":[["/home/u/.aws/sso/cache/a9993e364706816aba3e25717850c26c9cd0d89d.json","{\"accessToken\":\"t\",\"expiresAt\":\"1970-01-01T00:15:00Z\",\"clientId\":\"i\",\"clientSecret\":\"s\",\"refreshToken\":\"r\",\"registrationExpiresAt\":\"1970-01-02T00:00:00Z\"}"]],"replies":{"create-token":[{"refused":"Other","message":"m"},{"access":"t2","refresh":"r2","expires_in":1000}]}}"#,
        "Ok(CachedSsoToken { secrets: \"** redacted **\", expires_at: 900 s 0 ns }) 4 1 Some(Instant { seconds: 700, nanos: 0 }) true; Ok(CachedSsoToken { secrets: \"** redacted **\", expires_at: 1800 s 0 ns }) 9 1 Some(Instant { seconds: 800, nanos: 0 }) true",
    ),
    (
        r#"{"clock":[5]}"#,
        "Err(FailedToLoadToken(NoHomeDirectory)) 1 1 None false; Err(FailedToLoadToken(NoHomeDirectory)) 2 1 None false",
    ),
];

#[test]
fn sections_of_one_state(rt: HostRuntime) -> Result<(), Fail> {
    for (script, want) in SCRIPTS {
        let mut state = state(rt.alloc())?;
        let words = sections(rt.alloc(), &mut state, script)?;
        assert_eq!(rt; words.as_str(), *want);
    }
    Ok(())
}

const POLLED: &str =
    "Some(Now) None Ok(CachedSsoToken { secrets: \"** redacted **\", expires_at: 3600 s 0 ns }) 1 None; Ok(CachedSsoToken { secrets: \"** redacted **\", expires_at: 3600 s 0 ns }) 4 1";

#[test]
fn a_section_over_receipts(rt: HostRuntime) -> Result<(), Fail> {
    let mut state = state(rt.alloc())?;
    let (script, _) = SCRIPTS[0];
    let words = polled(rt.alloc(), &mut state, script)?;
    assert_eq!(rt; words.as_str(), POLLED);
    Ok(())
}
