//! What no clause says: printed texts, that no secret is shown, also on several lines, and that copies
//! succeed.
use crate::types::{replies, requests};
use cfg_types::{
    Bytes, Finished, Instant, OutOfMemory, Reply, Request, SensitiveString, Text, Token, TryCopy,
};
use std::alloc::Global;
use std::test::Fail;

fn request_words(alloc: Global, request: Request) -> Result<String, OutOfMemory> {
    let copy = request.copy(alloc)?;
    Ok(format!(in alloc; "{copy:?} {copy:#?}")?)
}

fn reply_words(alloc: Global, reply: Reply) -> Result<String, OutOfMemory> {
    let copy = reply.copy(alloc)?;
    Ok(format!(in alloc; "{copy:?} {copy:#?}")?)
}

// What a command left behind, in words.
fn finished_words(alloc: Global) -> Result<String, OutOfMemory> {
    let output = Bytes::of(alloc, b"wJalr")?;
    let errors = Bytes::of(alloc, b"FwoG")?;
    let finished = Finished {
        status: -1,
        output,
        errors,
    };
    let copy = finished.copy(alloc)?;
    Ok(format!(in alloc; "{copy:?} {copy:#?}")?)
}

fn token_words(alloc: Global, expiry: Option<Instant>) -> Result<String, OutOfMemory> {
    let copy = Token::new(alloc, "FwoG", expiry)?.copy(alloc)?;
    Ok(format!(in alloc; "{copy:?} {copy:#?}")?)
}

fn sensitive_words(alloc: Global) -> Result<String, OutOfMemory> {
    let copy = SensitiveString::from_text(Text::of(alloc, "wJalr")?).copy(alloc)?;
    Ok(format!(in alloc; "{copy:?} {copy:#?}")?)
}

fn words_of(alloc: Global, kind: &str) -> Result<String, OutOfMemory> {
    match kind {
        "AssumeRole" => request_words(alloc, requests::for_role(alloc)?),
        "Http" | "MetadataGet" | "MetadataToken" => {
            request_words(alloc, requests::to_address(alloc, kind)?)
        }
        "HttpReply" => reply_words(alloc, replies::of_address(alloc)?),
        "Sts" | "Role" | "Token" | "SignIn" | "Refused" => {
            reply_words(alloc, replies::of_service(alloc, kind)?)
        }
        "Finished" => finished_words(alloc),
        "Bearer" => token_words(alloc, None),
        "Ending" => token_words(alloc, Instant::new(7, 5)),
        "Sensitive" => sensitive_words(alloc),
        _ => request_words(alloc, requests::to_service(alloc, kind)?),
    }
}

// Each kind, and how it is shown on a line, or how that begins.
const SHOWN: &[(&str, &str)] = &[
    (
        "AssumeRole",
        "AssumeRole(AssumeRole { signer: Credentials { provider_name: \"Environment\", access_key_id: \"AKID\", secret_access_key: \"** redacted **\", expires_after: 0 s 0 ns, account_id: \"123456789012\" }, role_arn: \"r\", session_name: \"s\", external_id: None, policy: None, policy_arns: None, duration_seconds: Some(900), tags: Some([Tag { key: \"team\", value: \"a\\0\u{e9}\u{1d11e}\\\"\" }]), settings: CallSettings { region: Some(\"eu-west-1\"), use_fips: Some(true), use_dual_stack: None, max_attempts: 3, timeouts: Timeouts { connect_ms: Some(3100), read_ms: None, operation_ms: None, attempt_ms: None } } })",
    ),
    ("AssumeRoleWithWebIdentity", "AssumeRoleWithWebIdentity("),
    ("CreateOAuth2Token", "CreateOAuth2Token("),
    ("CreateToken", "CreateToken("),
    ("GetRoleCredentials", "GetRoleCredentials("),
    ("Http", "Http("),
    ("MetadataGet", "MetadataGet("),
    ("MetadataToken", "MetadataToken("),
    (
        "HttpReply",
        "Http(HttpReply { status: 200, secrets: \"** redacted **\" })",
    ),
    (
        "Sts",
        "Sts(StsReply { credentials: Some(StsCredentials { access_key_id: \"ASIA\", secret_access_key: \"** redacted **\", session_token: \"** redacted **\", expiration: 0 s 0 ns }), arn: Some(\"o\") })",
    ),
    (
        "Role",
        "Role(RoleReply { credentials: Some(RoleCredentials { secrets: \"** redacted **\", expiration_ms: -5 }) })",
    ),
    (
        "Token",
        "Token(TokenReply { secrets: \"** redacted **\", expires_in: 900 })",
    ),
    (
        "SignIn",
        "SignIn(SignInReply { token: Some(SignInToken { access_key_id: \"ASIA\", secrets: \"** redacted **\" }) })",
    ),
    (
        "Refused",
        "Refused(Refusal { kind: RegionDisabled, message: \"o\" })",
    ),
    (
        "Finished",
        "Finished { status: -1, secrets: \"** redacted **\" }",
    ),
    (
        "Bearer",
        "Token { token: \"** redacted **\", expires_after: never }",
    ),
    (
        "Ending",
        "Token { token: \"** redacted **\", expires_after: 7 s 5 ns }",
    ),
    ("Sensitive", "SensitiveString(\"** redacted **\")"),
];

// The secrets of every value here, as text and as bytes.
const SECRETS: &[&str] = &["wJalr", "FwoG", "119, 74, 97", "70, 119, 111"];

#[test]
fn values_are_shown_without_their_secrets(rt: HostRuntime) -> Result<(), Fail> {
    for (kind, want) in SHOWN {
        let words = words_of(rt.alloc(), kind)?;
        let shows = SECRETS
            .iter()
            .any(|secret| words.as_str().contains(*secret));
        assert!(rt; words.as_str().starts_with(*want) && !shows, "{words}");
    }
    Ok(())
}
