//! Requests by their kinds, each with its secrets.
use cfg_types::{
    AccountId, AssumeRole, AssumeRoleWithWebIdentity, AwsCredentialFeature, Bytes, CallSettings,
    CreateOAuth2Token, CreateToken, Credentials, CredentialsBuilder, GetRoleCredentials, Http,
    Instant, MetadataGet, MetadataToken, OutOfMemory, Region, Request, Seq, Tag, Text, Timeouts,
};
use std::alloc::Global;

const TIMEOUTS: Timeouts = Timeouts {
    connect_ms: Some(3100),
    read_ms: None,
    operation_ms: None,
    attempt_ms: None,
};

fn settings(region: Option<Region>) -> CallSettings {
    CallSettings {
        region,
        use_fips: Some(true),
        use_dual_stack: None,
        max_attempts: 3,
        timeouts: TIMEOUTS,
    }
}

fn service_request(kind: &str, id: Text, name: Text, secret: Text, token: Text) -> Request {
    let settings = settings(None);
    match kind {
        "CreateOAuth2Token" => Request::CreateOAuth2Token(CreateOAuth2Token {
            client_id: id,
            refresh_token: token,
            dpop_key: secret,
            settings,
        }),
        "CreateToken" => Request::CreateToken(CreateToken {
            client_id: id,
            client_secret: secret,
            refresh_token: token,
            settings,
        }),
        "GetRoleCredentials" => Request::GetRoleCredentials(GetRoleCredentials {
            role_name: name,
            account_id: id,
            access_token: token,
            settings,
        }),
        _ => Request::AssumeRoleWithWebIdentity(AssumeRoleWithWebIdentity {
            role_arn: id,
            session_name: name,
            token,
            policy: None,
            policy_arns: None,
            settings,
        }),
    }
}

/// A request of this kind to a service.
pub(crate) fn to_service(alloc: Global, kind: &str) -> Result<Request, OutOfMemory> {
    let id = Text::of(alloc, "i")?;
    let name = Text::of(alloc, "n")?;
    let secret = Text::of(alloc, "wJalr")?;
    let token = Text::of(alloc, "FwoG")?;
    Ok(service_request(kind, id, name, secret, token))
}

fn http_request(kind: &str, endpoint: Text, path: Text, secret: Bytes) -> Request {
    match kind {
        "Http" => Request::Http(Http {
            endpoint,
            path,
            authorization: Some(secret),
            timeouts: TIMEOUTS,
        }),
        "MetadataGet" => Request::MetadataGet(MetadataGet {
            endpoint,
            path,
            token: secret,
            timeouts: TIMEOUTS,
        }),
        _ => Request::MetadataToken(MetadataToken {
            endpoint,
            ttl_seconds: 21600,
            timeouts: TIMEOUTS,
        }),
    }
}

/// A request of this kind to an address.
pub(crate) fn to_address(alloc: Global, kind: &str) -> Result<Request, OutOfMemory> {
    let endpoint = Text::of(alloc, "http://e")?;
    let path = Text::of(alloc, "/p")?;
    let secret = Bytes::of(alloc, b"FwoG")?;
    Ok(http_request(kind, endpoint, path, secret))
}

fn signer(alloc: Global) -> Result<Credentials, OutOfMemory> {
    let builder = CredentialsBuilder::new(alloc, "AKID", "wJalr", "Environment")?;
    let builder = builder.session_token("FwoG")?.expiry(Instant::epoch());
    let account = AccountId::new(alloc, "123456789012")?;
    let mut keys = builder.account_id(account).build()?;
    keys.add_feature(AwsCredentialFeature::CredentialsProfile)?;
    Ok(keys)
}

fn tags(alloc: Global) -> Result<Seq<Tag>, OutOfMemory> {
    let key = Text::of(alloc, "team")?;
    let value = Text::of(alloc, "a\0\u{e9}\u{1d11e}\"")?;
    Ok(Seq::of(vec![in alloc; Tag { key, value }]?))
}

/// A call for a role, with one tag.
pub(crate) fn for_role(alloc: Global) -> Result<Request, OutOfMemory> {
    let signer = signer(alloc)?;
    let role_arn = Text::of(alloc, "r")?;
    let session_name = Text::of(alloc, "s")?;
    let tags = tags(alloc)?;
    let region = Region::new(alloc, "eu-west-1")?;
    Ok(Request::AssumeRole(AssumeRole {
        signer,
        role_arn,
        session_name,
        external_id: None,
        policy: None,
        policy_arns: None,
        duration_seconds: Some(900),
        tags: Some(tags),
        settings: settings(Some(region)),
    }))
}
