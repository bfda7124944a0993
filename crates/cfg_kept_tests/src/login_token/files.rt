//! The text of a token's file, read and written again, and what is shown of the token.
use cfg_login_token::{LoginToken, parse_cached_login_token, write_cached_login_token};
use std::alloc::{AllocError, Global};
use std::test::Fail;

fn token_words(alloc: Global, token: &LoginToken) -> Result<String, AllocError> {
    match write_cached_login_token(alloc, token) {
        Ok(text) => String::from_str(alloc, text.as_str()),
        Err(error) => format!(in alloc; "{error}"),
    }
}

// What is written for the token that was read, or why none was read.
fn words_of(alloc: Global, bytes: &[u8]) -> Result<String, AllocError> {
    match parse_cached_login_token(alloc, bytes) {
        Ok(token) => token_words(alloc, &token),
        Err(error) => format!(in alloc; "{error:?}"),
    }
}

const KEYS: &str =
    "{\"accessToken\":{\"accessKeyId\":\"AK\",\"secretAccessKey\":\"SK\",\"sessionToken\":\"ST\",\"accountId\":\"012345678901\",\"expiresAt\":\"1970-01-01T00:15:00Z\"},\"refreshToken\":\"rt\",\"clientId\":\"ci\",\"dpopKey\":\"dk\"}";

const FILES: &[(&[u8], &str)] = &[
    (
        b" \n{\"ACCESSTOKEN\":{\"ACCESSKEYID\":\"AK\",\"secretAccessKey\":\"SK\",\"token\":\"ST\",\"accountId\":\"012345678901\",\"Expiration\":\"1970-01-01t00:15:00z\"},\"RefreshToken\":\"rt\",\"CLIENTID\":\"ci\",\"DpopKey\":\"dk\"}{",
        KEYS,
    ),
    (
        b"{\"accessToken\":7,\"accessToken\":{\"x\":{}},\"accessToken\":{\"accessKeyId\":\"AK\",\"secretAccessKey\":\"SK\",\"sessionToken\":\"ST\",\"accountId\":\"012345678901\",\"expiresAt\":\"1970-01-01T00:15:00Z\"},\"accessToken\":[{}],\"refreshToken\":\"rt\",\"clientId\":\"ci\",\"dpopKey\":\"dk\",\"tokenType\":{\"a\":1}}",
        KEYS,
    ),
    (
        b"{\"accessToken\":{\"accessKeyId\":\"\\u00e9\",\"secretAccessKey\":\"\\\"\",\"sessionToken\":\"\",\"accountId\":\"}\",\"expiresAt\":\"1970-01-01T00:15:00.25Z\"},\"tokenType\":\"tt\",\"refreshToken\":\"\\\\n\",\"idToken\":\"id\",\"clientId\":\"\\t\",\"dpopKey\":\"a\\\\nb\\\\c\\\"\\u0001\"}",
        "{\"accessToken\":{\"accessKeyId\":\"\u{e9}\",\"secretAccessKey\":\"\\\"\",\"sessionToken\":\"\",\"accountId\":\"}\",\"expiresAt\":\"1970-01-01T00:15:00.25Z\"},\"tokenType\":\"tt\",\"refreshToken\":\"\\\\n\",\"idToken\":\"id\",\"clientId\":\"\\t\",\"dpopKey\":\"a\\nb\\\\c\\\"\\u0001\"}",
    ),
    (b"{\"accessToken\":{\"x\":[1,[[{}]]]}}", "JsonError(Nested)"),
    (
        b"{\"accessToken\":{\"accessKeyId\":\"AK\",\"secretAccessKey\":\"SK\",\"sessionToken\":\"ST\",\"accountId\":\"1\",\"expiresAt\":\"1970-01-01T00:15:00Z\",\"code\":\"X\"}}",
        "JsonError(ErrorDocument)",
    ),
    (b"{\"accessToken\":{}}", "JsonError(Document)"),
    (b"{} \xff", "MissingField(LowerAccessKeyId)"),
    (
        b"{\"accessToken\":{\"accessKeyId\":\"AK\",\"secretAccessKey\":\"SK\",\"sessionToken\":\"ST\",\"accountId\":12,\"expiresAt\":\"1970-01-01T00:15:00Z\"}}",
        "MissingField(LowerAccountId)",
    ),
    (
        b"{\"accessToken\":{\"accessKeyId\":\"AK\",\"secretAccessKey\":\"SK\",\"sessionToken\":\"ST\",\"accountId\":\"1\",\"expiresAt\":\"1970-01-01T00:15:00Z\"}}",
        "MissingField(ClientId)",
    ),
    (
        b"{\"accessToken\":{\"accessKeyId\":\"AK\",\"secretAccessKey\":\"SK\",\"sessionToken\":\"ST\",\"accountId\":\"1\",\"expiresAt\":\"1970-01-01T00:15:00Z\"},\"clientId\":\"c\"}",
        "MissingField(DpopKey)",
    ),
    (
        b"{\"accessToken\":{\"accessKeyId\":\"AK\",\"secretAccessKey\":\"SK\",\"sessionToken\":\"ST\",\"accountId\":\"1\",\"expiresAt\":\"1970-01-01T00:15:00Z\"},\"clientId\":\"c\",\"dpopKey\":\"d\"}",
        "MissingField(RefreshToken)",
    ),
    (
        b"[]",
        "Other(\"expected a JSON document starting with `{`\")",
    ),
    (b"{\"accessToken\":\"\xff\"}", "JsonError(Text)"),
];

#[test]
fn files_of_tokens(rt: HostRuntime) -> Result<(), Fail> {
    for (bytes, want) in FILES {
        let words = words_of(rt.alloc(), bytes)?;
        assert_eq!(rt; words.as_str(), *want);
    }
    Ok(())
}

#[test]
fn tokens_are_shown_without_their_secrets(rt: HostRuntime) -> Result<(), Fail> {
    let token = parse_cached_login_token(rt.alloc(), KEYS.as_bytes());
    let words = format!(in rt.alloc(); "{token:?} {token:#?}")?;
    for secret in ["SK", "ST", "rt", "dk", "83, 75"] {
        assert!(rt; !words.as_str().contains(secret), "{words}");
    }
    assert!(rt;
        words.as_str().starts_with(
            "Ok(LoginToken { access_token: Credentials { provider_name: \"Login\", access_key_id: \"AK\", secret_access_key: \"** redacted **\", expires_after: 900 s 0 ns, account_id: \"012345678901\" }, secrets: \"** redacted **\" })"
        ),
        "{words}"
    );
    Ok(())
}
