//! An endpoint: what it was made with, and how it replies.
ghost use Rattle.std.specs.Prelude.{◌≡◌, IfOk, OnOk, OnErr, true, string_bytes};
ghost use Rattle.std.specs.Str.{all_scalars};
ghost use Rattle.std.specs.Fmt.{decimal};
ghost use Rattle.cfg_exchange.specs.Lifetimes.{lifetime_header as lifetime_header_name};
ghost use Rattle.cfg_base.specs.Text.{characters};
ghost use Rattle.cfg_imds_credentials.specs.Metadata.{role_path as role_path_of};
ghost use Rattle.cfg_endpoint.specs.Endpoints.{with_body as with_body_of, without_body as without_body_of, token_reply as token_reply_of, token_answer, after_token, at_path, IsGetReply, container_answer, IsServed, IsReply, after_request, forgotten};
ghost use Rattle.cfg_endpoint.specs.Made.{is_asked_for, IsMade, Makes, Replaces};

use crate::document::document_of;
use crate::fault::EndpointFault;
use crate::served::Served;
use crate::tokens::{is_accepted, token};
use cfg_imds::steps::is_path;
use cfg_types::{Bytes, Header, HttpReply, MetadataGet, OutOfMemory, Request, Seq, Text, TryCopy};
use std::alloc::Global;
use std::marker::Model;

// The path at which the instance metadata service lists its role.
const LISTING: &str = "/latest/meta-data/iam/security-credentials/";

// The path at which a container's credentials are.
const CONTAINER: &str = "/c";

// The longest lifetime of a session token, in seconds.
const LONGEST_LIFETIME: u64 = 21_600;

/// The core of a local endpoint for tests: it replies as a container's endpoint and as the instance metadata
/// service do. Contracts see its role, what it serves, how many session tokens it gave, and how many of them are
/// forgotten.
pub struct Endpoint {
    alloc: Global,
    role: Text,
    path: Text,
    served: Served,
    document: Bytes,
    given: u64,
    since: u64,
}

impl Drop for Endpoint {
    fn drop(self) {
        let Endpoint {
            alloc: _,
            role: _,
            path: _,
            served: _,
            document: _,
            given: _,
            since: _,
        } = self;
    }
}

impl Model for Endpoint {
    ghost use Rattle.cfg_endpoint.specs.Endpoints.{EndpointState};
    ghost use Rattle.cfg_endpoint.specs.Made.{IsReady};

    ghost Value = { EndpointState };

    ghost view = { λ e. record { role = e.role; served = e.served; given = e.given; since = e.since } };

    ghost invariant = { λ e. IsReady (record { role = e.role; served = e.served; given = e.given; since = e.since }) e.path e.document };
}

impl Endpoint {
    /// An endpoint of this role, which serves these credentials and has given no token.
    ///
    /// # Errors
    ///
    /// - `BadRole`: the role is empty, or a client of the instance metadata service does not ask for the path of
    ///   the listing followed by it. It has the role.
    /// - `BadExpiry`: the role is fine, and the moment is outside the years 1 to 9999. It has the moment.
    /// - `OutOfMemory` where memory runs out.
    pub fn new(alloc: Global, role: &str, served: Served) -> Result<Endpoint, EndpointFault>
        ensures { Makes (characters role.now) served result }
    {
        let path = role_path(alloc, role)?;
        if !is_asked(alloc, role, path.as_str())? {
            let role = Text::of(alloc, role)?;
            return Err(EndpointFault::BadRole(role));
        }
        let Some(document) = document_of(alloc, &served)? else {
            return Err(EndpointFault::BadExpiry(served.expires));
        };
        let role = text_of(alloc, role)?;
        Ok(Endpoint {
            alloc,
            role,
            path: Text::from_string(path),
            served,
            document,
            given: 0,
            since: 0,
        })
    }

    /// Serves these credentials from now on. Its role and its tokens stay.
    ///
    /// # Errors
    ///
    /// After each of them nothing has changed.
    ///
    /// - `BadExpiry`: the moment is outside the years 1 to 9999. It has the moment.
    /// - `OutOfMemory` where memory runs out.
    pub fn replace(&mut self, served: Served) -> Result<(), EndpointFault>
        ensures { Replaces self.old self.new served result }
    {
        let Some(document) = document_of(self.alloc, &served)? else {
            return Err(EndpointFault::BadExpiry(served.expires));
        };
        self.served = served;
        self.document = document;
        Ok(())
    }

    /// Forgets the tokens that were given: a request with one of them gets 401. The next token has the next number
    /// nonetheless.
    pub fn forget(&mut self)
        ensures forgets { self.new ≡ forgotten self.old }
        ensures made { IsMade self.new }
    {
        self.since = self.given;
    }

    /// The reply to a request. Of a request to the instance metadata service or to a container's endpoint the path
    /// and the session token count, and nothing else of it is looked at.
    ///
    /// | request | reply |
    /// |---|---|
    /// | for a session token of 1 to 21,600 seconds | 200, with the token in its body and its lifetime in its header; 503 exactly where 18,446,744,073,709,551,615 were given |
    /// | for one of another lifetime | 400 |
    /// | with a session token that was not given, or is forgotten | 401 |
    /// | with another one, at the listing's path, and at that of the role | 200, with the role; 200, with the document |
    /// | to a container's endpoint at `/c` | 200, with the document |
    /// | at any other path | 404 |
    ///
    /// A reply of another status than 200 has no body. `OutOfMemory` where memory runs out; nothing has changed
    /// then.
    pub fn answer(&mut self, request: &Request) -> Result<HttpReply, OutOfMemory>
        requires { IsServed request.now }
        ensures reply { IfOk result (λ r. IsReply self.old request.now r) }
        ensures after { OnOk result (self.new ≡ after_request self.old request.now) }
        ensures memory { OnErr result (self.new ≡ self.old) }
    {
        match request {
            Request::Http(call) => self.container(&call.path),
            Request::MetadataToken(call) => self.give(call.ttl_seconds),
            Request::MetadataGet(call) => self.get(call),
            _ => unreachable!(),
        }
    }

    /// How many tokens were given.
    pub(crate) fn given(&self) -> u64
        ensures { result ≡ self.now.given }
    {
        self.given
    }

    fn give(&mut self, lifetime: u64) -> Result<HttpReply, OutOfMemory>
        ensures reply { IfOk result (λ r. r ≡ token_answer self.old lifetime) }
        ensures after { OnOk result (self.new ≡ after_token self.old lifetime) }
        ensures memory { OnErr result (self.new ≡ self.old) }
    {
        if lifetime < 1 || lifetime > LONGEST_LIFETIME {
            return Ok(without_body(self.alloc, 400));
        }
        let Some(number) = self.given.checked_add(1) else {
            return Ok(without_body(self.alloc, 503));
        };
        let reply = token_reply(self.alloc, number, lifetime)?;
        self.given = number;
        Ok(reply)
    }

    fn get(&self, call: &MetadataGet) -> Result<HttpReply, OutOfMemory>
        ensures { IfOk result (λ r. IsGetReply self.now call.now r) }
    {
        if is_accepted(call.token.as_slice(), self.since, self.given) {
            self.at(&call.path)
        } else {
            Ok(without_body(self.alloc, 401))
        }
    }

    fn at(&self, path: &Text) -> Result<HttpReply, OutOfMemory>
        ensures { IfOk result (λ r. r ≡ at_path self.now path.now) }
    {
        if path.is(LISTING) {
            return with_body(self.alloc, self.role.as_str().as_bytes());
        }
        if path.is(self.path.as_str()) {
            return with_body(self.alloc, self.document.as_slice());
        }
        Ok(without_body(self.alloc, 404))
    }

    fn container(&self, path: &Text) -> Result<HttpReply, OutOfMemory>
        ensures { IfOk result (λ r. r ≡ container_answer self.now path.now) }
    {
        if path.is(CONTAINER) {
            return with_body(self.alloc, self.document.as_slice());
        }
        Ok(without_body(self.alloc, 404))
    }
}

// The path of a role.
fn role_path(alloc: Global, role: &str) -> Result<String, OutOfMemory>
    ensures { IfOk result (λ t. string_bytes t ≡ role_path_of (characters role.now)) }
{
    let mut path = String::from_str(alloc, LISTING)?;
    path.push_str(role)?;
    Ok(path)
}

// A copy of a text, whose characters are Unicode's.
fn text_of(alloc: Global, text: &str) -> Result<Text, OutOfMemory>
    ensures is { IfOk result (λ t. t ≡ characters text.now) }
    ensures scalars { IfOk result (λ t. all_scalars t ≡ true) }
{
    Text::of(alloc, text)
}

// Whether a client of the instance metadata service asks for this path of the role.
fn is_asked(alloc: Global, role: &str, path: &str) -> Result<bool, OutOfMemory>
    requires { path.now ≡ role_path_of (characters role.now) }
    ensures { IfOk result (λ b. b ≡ is_asked_for (characters role.now)) }
{
    if role.is_empty() {
        return Ok(false);
    }
    is_path(alloc, path)
}

fn with_body(alloc: Global, body: &[u8]) -> Result<HttpReply, OutOfMemory>
    ensures { IfOk result (λ r. r ≡ with_body_of body.now) }
{
    let body = Bytes::of(alloc, body)?;
    Ok(HttpReply {
        status: 200,
        headers: Seq::of(Vec::new(alloc)),
        body,
    })
}

fn without_body(alloc: Global, status: u16) -> HttpReply
    ensures { result ≡ without_body_of status }
{
    HttpReply {
        status,
        headers: Seq::of(Vec::new(alloc)),
        body: Bytes::from_vec(Vec::new(alloc)),
    }
}

fn token_reply(alloc: Global, number: u64, lifetime: u64) -> Result<HttpReply, OutOfMemory>
    ensures { IfOk result (λ r. r ≡ token_reply_of number lifetime) }
{
    let mut headers = Seq::of(Vec::new(alloc));
    headers.push(lifetime_header(alloc, lifetime)?)?;
    let body = token(alloc, number)?;
    Ok(HttpReply {
        status: 200,
        headers,
        body,
    })
}

fn lifetime_header(alloc: Global, lifetime: u64) -> Result<Header, OutOfMemory>
    ensures { IfOk result (λ h. h ≡ record { name = lifetime_header_name; value = decimal lifetime }) }
{
    let mut digits = itoa::Buffer::new();
    let name = Text::of(alloc, "x-aws-ec2-metadata-token-ttl-seconds")?;
    let value = Text::of(alloc, digits.format(lifetime))?;
    Ok(Header { name, value })
}
