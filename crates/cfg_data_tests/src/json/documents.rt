//! What no clause says: the documents that the crate's own tests have, and printed texts.
use cfg_json::{parse_credential_process_json_credentials, parse_json_credentials};
use cfg_types::{AccountId, OutOfMemory};
use std::alloc::{AllocError, Global};
use std::test::Fail;

fn words_of_document(alloc: Global, text: &str) -> Result<String, AllocError> {
    match parse_json_credentials(alloc, text) {
        Ok(document) => format!(in alloc; "{document:?} {document:#?}"),
        Err(e) => format!(in alloc; "{e}"),
    }
}

// The keys of a process's document, of a profile with an account.
fn words_of_process(alloc: Global, text: &str) -> Result<String, OutOfMemory> {
    let profile = AccountId::new(alloc, "9")?;
    match parse_credential_process_json_credentials(alloc, text, Some(&profile)) {
        Ok(keys) => Ok(format!(in alloc; "{keys:?}")?),
        Err(e) => Ok(format!(in alloc; "{e}")?),
    }
}

const DOCUMENTS: &[(&str, &str)] = &[
    (
        "{\"AccessKeyId\":\"MUA\",\"SecretAccessKey\":\"SSS\",\"Token\":\"TTT\",\"AccountId\":\"1\",\"Expiration\":\"2016-02-25T06:03:31Z\"}",
        "RefreshableCredentials { access_key_id: \"MUA\", secret_access_key: \"** redacted **\", session_token: \"** redacted **\", account_id: \"1\", expiration: 1456380211 s 0 ns } RefreshableCredentials { access_key_id: \"MUA\", secret_access_key: \"** redacted **\", session_token: \"** redacted **\", account_id: \"1\", expiration: 1456380211 s 0 ns }",
    ),
    (
        "{\"Code\":\"x\",\"MESSAGE\":\"m\"}",
        "Error { code: \"x\", message: \"m\" } Error { code: \"x\", message: \"m\" }",
    ),
    (
        "{\"AccessKeyId\":\"MUA\",\"SecretAccessKey\":\"S\",\"Expiration\":\"2016-02-25T06:03:31Z\"}",
        "Expected field `Token` in response but it was missing",
    ),
    (
        "{\"AccessKeyId\":\"MUA\",\"SecretAccessKey\":\"S\",\"Token\":\"T\",\"Expiration\":\"x\"}",
        "Invalid field in response: `Expiration`. not a date",
    ),
    (
        "404: not found",
        "invalid JSON in response: expected a JSON document starting with `{`",
    ),
    ("{} {}", "found more JSON tokens after completing parsing"),
    ("{\"a\":1", "invalid JSON in response: malformed JSON"),
];

const PROCESSES: &[(&str, &str)] = &[
    (
        "{\"Version\":1,\"AccessKeyId\":\"A\",\"SecretAccessKey\":\"S\",\"SessionToken\":\"T\",\"Expiration\":\"2022-05-02T18:36:00+02:00\"}",
        "Credentials { provider_name: \"CredentialProcess\", access_key_id: \"A\", secret_access_key: \"** redacted **\", expires_after: 1651509360 s 0 ns, account_id: \"9\" }",
    ),
    (
        "{\"Version\":1.0}",
        "Invalid field in response: `Version`. not a whole number of 32 bits",
    ),
    (
        "{\"Version\":-2147483648}",
        "Invalid field in response: `version`. unknown version number: -2147483648",
    ),
    (
        "{\"Version\":\"1\"}",
        "Expected field `Version` in response but it was missing",
    ),
];

#[test]
fn documents_of_texts(rt: HostRuntime) -> Result<(), Fail> {
    for (text, want) in DOCUMENTS {
        let words = words_of_document(rt.alloc(), text)?;
        assert_eq!(rt; words.as_str(), *want, "{text}");
    }
    for (text, want) in PROCESSES {
        let words = words_of_process(rt.alloc(), text)?;
        assert_eq!(rt; words.as_str(), *want, "{text}");
    }
    Ok(())
}
