//! How replies read.
use cfg_exchange::ReplyKind;
use cfg_types::{Bytes, Header, HttpReply, OutOfMemory, Seq, Text};
use std::alloc::Global;
use std::test::Fail;

const DOCUMENT: ReplyKind = ReplyKind::Document;

const TOKEN: ReplyKind = ReplyKind::MetadataToken;

const TEXT: ReplyKind = ReplyKind::MetadataText;

const KEYS: &str =
    r#"{"AccessKeyId":"A","SecretAccessKey":"s","Expiration":"2030-01-01T00:00:00Z","Token":"t"}"#;

fn reply(alloc: Global, status: u16, seconds: &str, body: &str) -> Result<HttpReply, OutOfMemory> {
    let name = Text::of(alloc, "X-Aws-Ec2-Metadata-Token-Ttl-Seconds")?;
    let value = Text::of(alloc, seconds)?;
    let headers = Seq::of(vec![in alloc; Header { name, value }]?);
    let body = Bytes::of(alloc, body.as_bytes())?;
    Ok(HttpReply {
        status,
        headers,
        body,
    })
}

#[test]
fn readings_by_kind(rt: HostRuntime) -> Result<(), Fail> {
    let table: &[(ReplyKind, u16, &str, &str, &str)] = &[
        (DOCUMENT, 200, "", KEYS, "Fine"),
        (
            DOCUMENT,
            200,
            "",
            r#"{"Code":"AssumeRoleUnauthorizedAccess"}"#,
            "Refused",
        ),
        (DOCUMENT, 404, "", KEYS, "Refused"),
        (DOCUMENT, 200, "", "no document", "Unreadable"),
        (TOKEN, 200, "21600", "t", "Fine"),
        (TOKEN, 403, "21600", "t", "Refused"),
        (TOKEN, 200, "soon", "t", "Unreadable"),
        (TEXT, 299, "", "role", "Fine"),
        (TEXT, 300, "", "role", "Refused"),
    ];
    for (kind, status, seconds, body, want) in table {
        let reply = reply(rt.alloc(), *status, seconds, body)?;
        let reading = kind.reading(rt.alloc(), &reply)?;
        let found = format!(in rt.alloc(); "{reading:?}")?;
        assert_eq!(rt; found.as_str(), *want, "{kind:?} {status} {body}");
    }
    Ok(())
}
