ghost use Rattle.std.specs.Prelude.{◌≡◌, IfOk, option_map};
ghost use Rattle.std.specs.Str.{encode_utf8_all};
ghost use Rattle.cfg_base.specs.Text.{characters};
ghost use Rattle.cfg_types.specs.Headers.{header as header_of};

use cfg_base::{Bytes, OutOfMemory, Seq, Text, TryCopy};
use std::alloc::Global;
use std::fmt;

/// A header of a reply.
#[derive(Debug, PartialEq, Eq, Drop)]
pub struct Header {
    /// Its name, in any ASCII case.
    pub name: Text,
    /// Its value.
    pub value: Text,
}

impl TryCopy for Header {
    fn copy(&self, alloc: Global) -> Result<Header, OutOfMemory> {
        Ok(Header {
            name: self.name.copy(alloc)?,
            value: self.value.copy(alloc)?,
        })
    }
}

/// A reply to an HTTP request.
#[derive(PartialEq, Eq)]
pub struct HttpReply {
    /// The status code.
    pub status: u16,
    /// The headers in their order.
    pub headers: Seq<Header>,
    /// The whole body.
    pub body: Bytes,
}

impl HttpReply {
    /// The value of the first header of this name, none where there is none. Names are compared
    /// without regard to ASCII case (RFC 9110, section 5.1).
    pub fn header(&self, name: &str) -> Option<&str>
        ensures chars { option_map (λ v. characters v.now) result ≡ header_of self.now.headers name.now }
        ensures bytes { option_map (λ v. v.now) result ≡ option_map encode_utf8_all (header_of self.now.headers name.now) }
    {
        match self.value_of(name) {
            None => None,
            Some(value) => Some(value.as_str()),
        }
    }

    // The value of the first header of this name.
    fn value_of(&self, name: &str) -> Option<&Text>
        ensures { option_map (λ v. v.now) result ≡ header_of self.now.headers name.now }
    {
        let is_named = |header: &&Header| header.name.as_str().eq_ignore_ascii_case(name);
        let header = self.headers.as_slice().iter().find(is_named)?;
        Some(&header.value)
    }
}

impl Drop for HttpReply {
    fn drop(self) {
        let HttpReply {
            status: _,
            headers: _,
            body: _,
        } = self;
    }
}

impl TryCopy for HttpReply {
    fn copy(&self, alloc: Global) -> Result<HttpReply, OutOfMemory> {
        let headers = self.headers.copy(alloc)?;
        let body = self.body.copy(alloc)?;
        Ok(HttpReply {
            status: self.status,
            headers,
            body,
        })
    }
}

// A body may hold keys, and a header a token. Which of them does, a type cannot tell, so the text shows
// neither.
impl fmt::Debug for HttpReply {
    ghost use Rattle.std.specs.Prelude.{Some};
    ghost use Rattle.cfg_types.specs.DebugTexts.{shown_http_reply};

    ghost debug_output = { λ r. Some (shown_http_reply r.status) };

    fn fmt<W: fmt::Write>(&self, f: &mut fmt::Formatter<W>) -> fmt::Result {
        let status = self.status;
        write!(
            f,
            "HttpReply {{ status: {status}, secrets: \"** redacted **\" }}"
        )
    }
}
