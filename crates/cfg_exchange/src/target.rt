//! Where requests for a container's credentials go.
ghost use Rattle.std.specs.Prelude.{◌≡◌, ◌++◌, IfOk, OnOk, Some, [], codes, option_copied, string_bytes};
ghost use Rattle.http_uri.specs.ByteClasses.{framed_text};
ghost use Rattle.http_uri.specs.Uri.{uri_scheme, uri_data, uri_path, uri_query};
ghost use Rattle.cfg_exchange.specs.FullUris.{path_and_query as path_and_query_of, without_slash as without_slash_of, relative_at, full_at, IsRelativeUri};

use cfg_types::{OutOfMemory, Text, TryCopy};
use http_uri::{Uri, UriError};
use std::alloc::Global;

/// Where a request goes: a path, with its query, at an endpoint.
#[derive(Debug, PartialEq, Eq)]
pub struct Target {
    /// A scheme, `://` and an authority, without a path.
    pub endpoint: Text,
    /// The path, and behind `?` the query, where there is one.
    pub path: Text,
}

impl Drop for Target {
    fn drop(self) {
        let Target {
            endpoint: _,
            path: _,
        } = self;
    }
}

impl Target {
    /// The endpoint and the path, in this order.
    pub fn into_parts(self) -> (Text, Text)
        ensures endpoint { result.0 ≡ self.endpoint }
        ensures path { result.1 ≡ self.path }
    {
        let Target { endpoint, path } = self;
        (endpoint, path)
    }
}

impl TryCopy for Target {
    fn copy(&self, alloc: Global) -> Result<Target, OutOfMemory> {
        Ok(Target {
            endpoint: self.endpoint.copy(alloc)?,
            path: self.path.copy(alloc)?,
        })
    }
}

// The path, and where there is a query, `?` and the query.
fn path_and_query(alloc: Global, uri: &Uri) -> Result<String, OutOfMemory>
    ensures { IfOk result (λ text. string_bytes text ≡ path_and_query_of (uri_scheme uri.now) (uri_data uri.now)) }
{
    let mut text = String::from_str(alloc, uri.path())?;
    if let Some(query) = uri.query() {
        text.push_str("?")?;
        text.push_str(query)?;
    }
    Ok(text)
}

fn without_slash(path: &str) -> &str
    ensures { result.now ≡ without_slash_of path.now }
{
    match path.strip_prefix('/') {
        Some(rest) => rest,
        None => path,
    }
}

fn at_agent(alloc: Global, uri: &Uri) -> Result<Target, OutOfMemory>
    ensures { IfOk result (λ target. target ≡ relative_at (uri_scheme uri.now) (uri_data uri.now)) }
{
    let endpoint = Text::of(alloc, "http://169.254.170.2")?;
    let asked = path_and_query(alloc, uri)?;
    let mut path = String::from_str(alloc, "/")?;
    path.push_str(without_slash(asked.as_str()))?;
    let path = Text::from_string(path);
    Ok(Target { endpoint, path })
}

/// The target of a relative address of a container: the agent of Amazon ECS, `http://169.254.170.2`, at
/// the path and query of the text, with a `/` before them where they do not begin with one. A scheme and
/// a host that the text names do not count. None exactly where `http_uri` reads the text as no URI.
/// `OutOfMemory` where memory runs out.
pub fn relative_target(alloc: Global, uri: &str) -> Result<Option<Target>, OutOfMemory>
    ensures { IfOk result (IsRelativeUri uri.now) }
{
    match Uri::from_str(alloc, uri) {
        Ok(uri) => {
            let target = at_agent(alloc, &uri)?;
            Ok(Some(target))
        }
        Err(UriError::Invalid(_)) => Ok(None),
        Err(UriError::OutOfMemory) => Err(OutOfMemory),
    }
}

/// The target of a URI of this scheme and this authority. `OutOfMemory` where memory runs out.
pub fn full_target(
    alloc: Global,
    uri: &Uri,
    scheme: &str,
    authority: &str,
) -> Result<Target, OutOfMemory>
    requires { uri_scheme uri.now ≡ Some scheme.now }
    ensures { IfOk result (λ target. target ≡ full_at scheme.now authority.now (uri_data uri.now)) }
{
    let mut endpoint = String::from_str(alloc, scheme)?;
    endpoint.push_str("://")?;
    endpoint.push_str(authority)?;
    let path = path_and_query(alloc, uri)?;
    Ok(Target {
        endpoint: Text::from_string(endpoint),
        path: Text::from_string(path),
    })
}
