//! The accounts that ARNs name, and the credentials of replies.
use cfg_providers::{into_credentials, parse_account_id};
use cfg_types::{Instant, OutOfMemory, StsCredentials, StsReply, Text};
use std::alloc::Global;
use std::test::Fail;

fn words_of(alloc: Global, arn: &str) -> Result<String, OutOfMemory> {
    match parse_account_id(alloc, arn) {
        Ok(account) => Ok(String::from_str(alloc, account.as_str())?),
        Err(error) => Ok(format!(in alloc; "{error:?}")?),
    }
}

#[test]
fn accounts_of_arns(rt: HostRuntime) -> Result<(), Fail> {
    let table: &[(&str, &str)] = &[
        ("arn:aws:sts::012345678901:assumed-role/r/s", "012345678901"),
        ("a:b:c:d: 7 ", " 7 "),
        ("::::", ""),
        ("a:b:c:d", r#"Unhandled(StsArn("** redacted **"))"#),
        ("", r#"Unhandled(StsArn("** redacted **"))"#),
    ];
    for (arn, want) in table {
        let words = words_of(rt.alloc(), arn)?;
        assert_eq!(rt; words.as_str(), *want, "{arn}");
    }
    Ok(())
}

// What a reply with this ARN gives.
fn reply_words(alloc: Global, arn: &str) -> Result<String, OutOfMemory> {
    let credentials = StsCredentials {
        access_key_id: Text::of(alloc, "K")?,
        secret_access_key: Text::of(alloc, "S")?,
        session_token: Text::of(alloc, "T")?,
        expiration: Instant::epoch(),
    };
    let reply = StsReply {
        credentials: Some(credentials),
        arn: Some(Text::of(alloc, arn)?),
    };
    match into_credentials(alloc, &reply, "Mine") {
        Ok(credentials) => Ok(format!(in alloc; "{credentials:?}")?),
        Err(error) => Ok(format!(in alloc; "{error:?}")?),
    }
}

#[test]
fn credentials_of_replies(rt: HostRuntime) -> Result<(), Fail> {
    let table: &[(&str, &str)] = &[
        (
            "a:b:c:d:7",
            r#"Credentials { provider_name: "Mine", access_key_id: "K", secret_access_key: "** redacted **", expires_after: 0 s 0 ns, account_id: "7" }"#,
        ),
        ("a", r#"Unhandled(StsArn("** redacted **"))"#),
    ];
    for (arn, want) in table {
        let words = reply_words(rt.alloc(), arn)?;
        assert_eq!(rt; words.as_str(), *want, "{arn}");
    }
    Ok(())
}
