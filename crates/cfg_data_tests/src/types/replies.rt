//! Replies by their kinds, each with its secrets.
use cfg_types::{
    Bytes, Header, HttpReply, Instant, OutOfMemory, Refusal, RefusalKind, Reply, RoleCredentials,
    RoleReply, Seq, SignInReply, SignInToken, StsCredentials, StsReply, Text, TokenReply,
};
use std::alloc::Global;

fn sts(id: Text, secret: Text, token: Text, arn: Text) -> Reply {
    Reply::Sts(StsReply {
        credentials: Some(StsCredentials {
            access_key_id: id,
            secret_access_key: secret,
            session_token: token,
            expiration: Instant::epoch(),
        }),
        arn: Some(arn),
    })
}

fn service_reply(kind: &str, id: Text, secret: Text, token: Text, other: Text) -> Reply {
    match kind {
        "Sts" => sts(id, secret, token, other),
        "Role" => Reply::Role(RoleReply {
            credentials: Some(RoleCredentials {
                access_key_id: Some(id),
                secret_access_key: Some(secret),
                session_token: Some(token),
                expiration_ms: -5,
            }),
        }),
        "Token" => Reply::Token(TokenReply {
            access_token: Some(token),
            refresh_token: Some(secret),
            expires_in: 900,
        }),
        "SignIn" => Reply::SignIn(SignInReply {
            token: Some(SignInToken {
                access_key_id: id,
                secret_access_key: secret,
                session_token: token,
                refresh_token: other,
                expires_in: 900,
            }),
        }),
        _ => Reply::Refused(Refusal {
            kind: RefusalKind::RegionDisabled,
            message: other,
        }),
    }
}

/// A reply of this kind of a service.
pub(crate) fn of_service(alloc: Global, kind: &str) -> Result<Reply, OutOfMemory> {
    let id = Text::of(alloc, "ASIA")?;
    let secret = Text::of(alloc, "wJalr")?;
    let token = Text::of(alloc, "FwoG")?;
    let other = Text::of(alloc, "o")?;
    Ok(service_reply(kind, id, secret, token, other))
}

fn header(alloc: Global) -> Result<Header, OutOfMemory> {
    let name = Text::of(alloc, "x")?;
    let value = Text::of(alloc, "FwoG")?;
    Ok(Header { name, value })
}

/// A reply of HTTP, with a secret in its header and in its body.
pub(crate) fn of_address(alloc: Global) -> Result<Reply, OutOfMemory> {
    let headers = Seq::of(vec![in alloc; header(alloc)?]?);
    let body = Bytes::of(alloc, b"wJalr")?;
    Ok(Reply::Http(HttpReply {
        status: 200,
        headers,
        body,
    }))
}
