//! The text of a token's file, read and written again, and what is shown of the token.
use cfg_token::{CachedSsoToken, SsoTokenFields, parse_cached_sso_token, write_cached_sso_token};
use cfg_types::{Instant, OutOfMemory, Text};
use std::alloc::{AllocError, Global};
use std::test::Fail;

// A token as Debug shows it, and the text of its file.
fn token_words(alloc: Global, token: &CachedSsoToken) -> Result<String, AllocError> {
    match write_cached_sso_token(alloc, token) {
        Ok(text) => format!(in alloc; "{token:?} {token:#?} {}", text.as_str()),
        Err(error) => format!(in alloc; "{error}"),
    }
}

fn words_of(alloc: Global, bytes: &[u8]) -> Result<String, AllocError> {
    match parse_cached_sso_token(alloc, bytes) {
        Ok(token) => token_words(alloc, &token),
        Err(error) => format!(in alloc; "{error}"),
    }
}

const FILES: &[(&[u8], &str)] = &[
    (
        b" {\"ACCESSTOKEN\":\"\\\"\\\\\\u0001\\u00e9\",\"expiresAt\":\"2009-02-13t23:31:30.250z\",\"refreshToken\":\"r\",\"clientId\":\"i\",\"clientSecret\":\"s\",\"registrationExpiresAt\":\"1970-01-01T00:00:09Z\",\"region\":\"us\",\"startUrl\":\"u\"}\n",
        "CachedSsoToken { secrets: \"** redacted **\", expires_at: 1234567890 s 250000000 ns } CachedSsoToken { secrets: \"** redacted **\", expires_at: 1234567890 s 250000000 ns } {\"accessToken\":\"\\\"\\\\\\u0001\u{e9}\",\"expiresAt\":\"2009-02-13T23:31:30.25Z\",\"refreshToken\":\"r\",\"clientId\":\"i\",\"clientSecret\":\"s\",\"registrationExpiresAt\":\"1970-01-01T00:00:09Z\",\"region\":\"us\",\"startUrl\":\"u\"}",
    ),
    (
        b"{\"accessToken\":\"a\",\"accessToken\":\"t\",\"accessToken\":7,\"expiresAt\":\"1970-01-01T01:00:00Z\",\"clientId\":{\"a\":1},\"clientSecret\":null,\"refreshToken\":[\"r\"],\"region\":true,\"registrationExpiresAt\":5}",
        "CachedSsoToken { secrets: \"** redacted **\", expires_at: 3600 s 0 ns } CachedSsoToken { secrets: \"** redacted **\", expires_at: 3600 s 0 ns } {\"accessToken\":\"t\",\"expiresAt\":\"1970-01-01T01:00:00Z\"}",
    ),
    (
        b"{\"accessToken\":null,\"expiresAt\":\"x\"}",
        "missing field `accessToken` in cached SSO token file",
    ),
    (
        b"{\"accessToken\":\"t\",\"registrationExpiresAt\":\"x\"}",
        "missing field `expiresAt` in cached SSO token file",
    ),
    (
        b"{\"accessToken\":\"t\",\"expiresAt\":\"\",\"registrationExpiresAt\":\"x\"}",
        "invalid value for the `expiresAt` field in the cached SSO token file",
    ),
    (
        b"{\"accessToken\":\"t\",\"expiresAt\":\"1970-01-01T01:00:00Z\",\"registrationExpiresAt\":\"soon\"}",
        "invalid value for the `registrationExpiresAt` field in the cached SSO token file",
    ),
    (b"", "expected a JSON document starting with `{`"),
    (
        b"404: not found",
        "expected a JSON document starting with `{`",
    ),
    (
        b"{\"accessToken\":\"t\"",
        "invalid JSON in cached SSO token file",
    ),
    (b"{\"a\":\"\xff\"}", "invalid JSON in cached SSO token file"),
    (b"{} {}", "found more JSON tokens after completing parsing"),
];

#[test]
fn files_of_tokens(rt: HostRuntime) -> Result<(), Fail> {
    for (bytes, want) in FILES {
        let words = words_of(rt.alloc(), bytes)?;
        assert_eq!(rt; words.as_str(), *want);
    }
    Ok(())
}

// What is written for the token `t` that ends then, with nothing else known of it.
fn written(alloc: Global, seconds: i64, nanos: u32) -> Result<String, OutOfMemory> {
    let Some(expires_at) = Instant::new(seconds, nanos) else {
        return Ok(String::from_str(alloc, "no moment")?);
    };
    let fields = SsoTokenFields {
        access_token: Text::of(alloc, "t")?,
        expires_at,
        refresh_token: None,
        client_id: None,
        client_secret: None,
        registration_expires_at: None,
        region: None,
        start_url: None,
    };
    let token = CachedSsoToken::new(alloc, fields)?;
    match write_cached_sso_token(alloc, &token) {
        Ok(text) => Ok(String::from_str(alloc, text.as_str())?),
        Err(error) => Ok(format!(in alloc; "{error:?}")?),
    }
}

#[test]
fn dates_of_written_tokens(rt: HostRuntime) -> Result<(), Fail> {
    let table: &[(i64, u32, &str)] = &[
        (
            3_600,
            500_000_000,
            r#"{"accessToken":"t","expiresAt":"1970-01-01T01:00:00.5Z"}"#,
        ),
        (253_402_300_800, 0, "FailedToFormatDateTime"),
    ];
    for (seconds, nanos, want) in table {
        let words = written(rt.alloc(), *seconds, *nanos)?;
        assert_eq!(rt; words.as_str(), *want);
    }
    Ok(())
}
