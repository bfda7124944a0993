ghost use Rattle.std.specs.Prelude.{◌≡◌, IfOk};

use crate::settings::Timeouts;
use cfg_base::{Bytes, OutOfMemory, Text, TryCopy, copy_option};
use std::alloc::Global;
use std::fmt;

/// A GET of `path` at `endpoint`, with `accept: application/json`.
#[derive(PartialEq, Eq)]
pub struct Http {
    /// Scheme and authority.
    pub endpoint: Text,
    /// The path, and the query where there is one.
    pub path: Text,
    /// The value of the header `authorization`, where it is sent.
    pub authorization: Option<Bytes>,
    /// The limits of time of this request.
    pub timeouts: Timeouts,
}

impl Drop for Http {
    fn drop(self) {
        let Http {
            endpoint: _,
            path: _,
            authorization: _,
            timeouts: _,
        } = self;
    }
}

impl TryCopy for Http {
    fn copy(&self, alloc: Global) -> Result<Http, OutOfMemory> {
        let endpoint = self.endpoint.copy(alloc)?;
        let path = self.path.copy(alloc)?;
        let authorization = copy_option(alloc, &self.authorization)?;
        Ok(Http {
            endpoint,
            path,
            authorization,
            timeouts: self.timeouts,
        })
    }
}

// The text does not depend on the authorization.
impl fmt::Debug for Http {
    ghost use Rattle.std.specs.Prelude.{Some, codes};
    ghost use Rattle.cfg_types.specs.DebugTexts.{shown_get};

    ghost debug_output = { λ r. Some (shown_get (codes "Http { endpoint: \"") r.endpoint r.path) };

    fn fmt<W: fmt::Write>(&self, f: &mut fmt::Formatter<W>) -> fmt::Result {
        let endpoint = self.endpoint.as_str();
        let path = self.path.as_str();
        write!(
            f,
            "Http {{ endpoint: \"{endpoint}\", path: \"{path}\", secrets: \"** redacted **\" }}"
        )
    }
}

/// A PUT to the instance metadata service for a session token that lives for so many seconds: IMDSv2 of
/// the EC2 User Guide, at the path `/latest/api/token`.
#[derive(Debug, PartialEq, Eq)]
pub struct MetadataToken {
    /// Where the service is asked.
    pub endpoint: Text,
    /// The lifetime that is asked for, in seconds: the header `x-aws-ec2-metadata-token-ttl-seconds`.
    pub ttl_seconds: u64,
    /// The limits of time of this request.
    pub timeouts: Timeouts,
}

impl Drop for MetadataToken {
    fn drop(self) {
        let MetadataToken {
            endpoint: _,
            ttl_seconds: _,
            timeouts: _,
        } = self;
    }
}

impl TryCopy for MetadataToken {
    fn copy(&self, alloc: Global) -> Result<MetadataToken, OutOfMemory> {
        let endpoint = self.endpoint.copy(alloc)?;
        Ok(MetadataToken {
            endpoint,
            ttl_seconds: self.ttl_seconds,
            timeouts: self.timeouts,
        })
    }
}

/// A GET of `path` at the instance metadata service, with a session token (IMDSv2).
#[derive(PartialEq, Eq)]
pub struct MetadataGet {
    /// Where the service is asked.
    pub endpoint: Text,
    /// The path, from its `/` on.
    pub path: Text,
    /// The session token: the value of the header `x-aws-ec2-metadata-token`.
    pub token: Bytes,
    /// The limits of time of this request.
    pub timeouts: Timeouts,
}

impl Drop for MetadataGet {
    fn drop(self) {
        let MetadataGet {
            endpoint: _,
            path: _,
            token: _,
            timeouts: _,
        } = self;
    }
}

impl TryCopy for MetadataGet {
    fn copy(&self, alloc: Global) -> Result<MetadataGet, OutOfMemory> {
        let endpoint = self.endpoint.copy(alloc)?;
        let path = self.path.copy(alloc)?;
        let token = self.token.copy(alloc)?;
        Ok(MetadataGet {
            endpoint,
            path,
            token,
            timeouts: self.timeouts,
        })
    }
}

// The text does not depend on the token.
impl fmt::Debug for MetadataGet {
    ghost use Rattle.std.specs.Prelude.{Some, codes};
    ghost use Rattle.cfg_types.specs.DebugTexts.{shown_get};

    ghost debug_output = { λ r. Some (shown_get (codes "MetadataGet { endpoint: \"") r.endpoint r.path) };

    fn fmt<W: fmt::Write>(&self, f: &mut fmt::Formatter<W>) -> fmt::Result {
        let endpoint = self.endpoint.as_str();
        let path = self.path.as_str();
        write!(
            f,
            "MetadataGet {{ endpoint: \"{endpoint}\", path: \"{path}\", secrets: \"** redacted **\" }}"
        )
    }
}
