//! Sections over scripts: what they answer, note and keep.
ghost use Rattle.std.specs.Prelude.{◌≡◌, true, IfOk};
ghost use Rattle.cfg_login_token.specs.LoginTokens.{is_login};

use crate::sections::sections;
use cfg_login_token::LoginToken;
use cfg_token::{TokenKey, TokenState};
use cfg_types::{OutOfMemory, Text};
use std::alloc::Global;
use std::test::Fail;

fn state(alloc: Global) -> Result<TokenState<LoginToken>, OutOfMemory>
    ensures { IfOk result (λ s. is_login s.key ≡ true) }
{
    let session = Text::of(alloc, " abc ")?;
    let key = TokenKey::Login { session };
    Ok(TokenState::new(alloc, key))
}

const SCRIPTS: &[(&str, &str)] = &[
    (
        r#"{"variables":[["AWS_LOGIN_CACHE_DIRECTORY","/c"]],"clock":[0,0,599],"files":[["/c/ba7816bf8f01cfea414140de5dae2223b00361a396177a9cb410ff61f20015ad.json","{\"accessToken\":{\"accessKeyId\":\"AK\",\"secretAccessKey\":\"SK\",\"sessionToken\":\"ST\",\"accountId\":\"012345678901\",\"expiresAt\":\"1970-01-01T00:15:00Z\"},\"refreshToken\":\"rt\",\"clientId\":\"ci\",\"dpopKey\":\"dk\"}"]]}"#,
        "Ok(LoginToken { access_token: Credentials { provider_name: \"Login\", access_key_id: \"AK\", secret_access_key: \"** redacted **\", expires_after: 900 s 0 ns, account_id: \"012345678901\" }, secrets: \"** redacted **\" }) 3 1 None true; Ok(LoginToken { access_token: Credentials { provider_name: \"Login\", access_key_id: \"AK\", secret_access_key: \"** redacted **\", expires_after: 900 s 0 ns, account_id: \"012345678901\" }, secrets: \"** redacted **\" }) 4 0 None true",
    ),
    (
        r#"{"variables":[["AWS_LOGIN_CACHE_DIRECTORY","/c"]],"clock":[700,700,1300,1300],"files":[["/c/ba7816bf8f01cfea414140de5dae2223b00361a396177a9cb410ff61f20015ad.json","{\"accessToken\":{\"accessKeyId\":\"AK\",\"secretAccessKey\":\"SK\",\"sessionToken\":\"ST\",\"accountId\":\"012345678901\",\"expiresAt\":\"1970-01-01T00:15:00Z\"},\"refreshToken\":\"rt\",\"clientId\":\"ci\",\"dpopKey\":\"dk\"}"]],"replies":{"sign-in":[{"id":"AK2","secret":"SK2","token":"ST2","refresh":"rt2","expires_in":900},{"refused":"TokenExpired","message":"m"}]}}"#,
        "Ok(LoginToken { access_token: Credentials { provider_name: \"Login\", access_key_id: \"AK2\", secret_access_key: \"** redacted **\", expires_after: 1600 s 0 ns, account_id: \"012345678901\" }, secrets: \"** redacted **\" }) 5 1 Some(Instant { seconds: 700, nanos: 0 }) true; Err(RefreshFailed { message: Some(\"Your session has expired. Please reauthenticate.\") }) 9 1 Some(Instant { seconds: 1300, nanos: 0 }) false",
    ),
    (
        r#"{"clock":[5]}"#,
        "Err(NoHomeDirectory) 1 1 None false; Err(NoHomeDirectory) 2 1 None false",
    ),
];

#[test]
fn sections_of_one_state(rt: HostRuntime) -> Result<(), Fail> {
    for (script, want) in SCRIPTS {
        let mut state = state(rt.alloc())?;
        let words = sections(rt.alloc(), &mut state, script)?;
        assert_eq!(rt; words.as_str(), *want);
    }
    Ok(())
}
