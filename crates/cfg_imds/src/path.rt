//! Which texts are paths of the instance metadata service.
ghost use Rattle.std.specs.Prelude.{◌≡◌, IfOk};
ghost use Rattle.cfg_imds.specs.Paths.{begins_with_slash as begins_with_slash_of, is_path as is_path_of};

use cfg_types::OutOfMemory;
use http_uri::{Uri, UriError};
use std::alloc::Global;

fn begins_with_slash(text: &str) -> bool
    ensures { result ≡ begins_with_slash_of text.now }
{
    match text.as_bytes().split_first() {
        Some((first, _)) => *first == b'/',
        None => false,
    }
}

/// Whether the text begins with `/`, and `http_uri` reads it. `OutOfMemory` where memory runs out.
#[tactic(auto, using(crate::proofs::Pathing::path_steps))]
pub fn is_path(alloc: Global, text: &str) -> Result<bool, OutOfMemory>
    ensures { IfOk result (λ b. b ≡ is_path_of text.now) }
{
    if !begins_with_slash(text) {
        return Ok(false);
    }
    match Uri::from_str(alloc, text) {
        Ok(_) => Ok(true),
        Err(UriError::Invalid(_)) => Ok(false),
        Err(UriError::OutOfMemory) => Err(OutOfMemory),
    }
}
