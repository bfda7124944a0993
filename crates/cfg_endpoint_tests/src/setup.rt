//! Endpoints, and what they are asked.
use cfg_endpoint::{Endpoint, EndpointFault, Served};
use cfg_types::{
    Bytes, Http, Instant, MetadataGet, MetadataToken, OutOfMemory, Request, Text, Timeouts,
};
use std::alloc::Global;

/// The path at which the role is listed.
pub(crate) const LISTING: &str = "/latest/meta-data/iam/security-credentials/";

/// So many seconds after the epoch.
pub(crate) fn at(seconds: i64) -> Instant {
    match Instant::new(seconds, 0) {
        Some(moment) => moment,
        None => Instant::epoch(),
    }
}

/// Credentials of the id `I`, the secret `S` and the token `T` that end then.
pub(crate) fn served(alloc: Global, expires: Instant) -> Result<Served, OutOfMemory> {
    let id = Text::of(alloc, "I")?;
    let secret = Text::of(alloc, "S")?;
    let token = Text::of(alloc, "T")?;
    Ok(Served {
        id,
        secret,
        token,
        expires,
    })
}

/// An endpoint of this role that serves such credentials.
pub(crate) fn endpoint(
    alloc: Global,
    role: &str,
    expires: Instant,
) -> Result<Endpoint, EndpointFault> {
    let served = served(alloc, expires)?;
    Endpoint::new(alloc, role, served)
}

fn no_limits() -> Timeouts {
    Timeouts {
        connect_ms: None,
        read_ms: None,
        operation_ms: None,
        attempt_ms: None,
    }
}

/// A request for a session token of so many seconds.
pub(crate) fn token_request(alloc: Global, ttl_seconds: u64) -> Result<Request, OutOfMemory> {
    Ok(Request::MetadataToken(MetadataToken {
        endpoint: Text::of(alloc, "http://e")?,
        ttl_seconds,
        timeouts: no_limits(),
    }))
}

/// A request for what stands at a path, with this session token.
pub(crate) fn get_request(alloc: Global, path: &str, token: &str) -> Result<Request, OutOfMemory> {
    Ok(Request::MetadataGet(MetadataGet {
        endpoint: Text::of(alloc, "http://e")?,
        path: Text::of(alloc, path)?,
        token: Bytes::of(alloc, token.as_bytes())?,
        timeouts: no_limits(),
    }))
}

/// A request to a container's endpoint.
pub(crate) fn container_request(alloc: Global, path: &str) -> Result<Request, OutOfMemory> {
    Ok(Request::Http(Http {
        endpoint: Text::of(alloc, "http://e")?,
        path: Text::of(alloc, path)?,
        authorization: None,
        timeouts: no_limits(),
    }))
}
