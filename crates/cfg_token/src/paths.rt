//! Where tokens are kept, and how such paths are joined.
ghost use Rattle.std.specs.Prelude.{◌≡◌, ◌-◌, length, slice_get, IfOk, OnOk, string_bytes};
ghost use Rattle.hex.specs.Hex.{encode_lower};
ghost use Rattle.sha1.specs.Sha1.{sha1};
ghost use Rattle.cfg_token.specs.Paths.{is_open, as_folder, joined, sso_path, path_of_name as path_by_name};

use cfg_types::{OutOfMemory, Text};
use sha1::Sha1;
use std::alloc::Global;

/// The path of the file that keeps a token of IAM Identity Center: `.aws/sso/cache/` below a home
/// directory, the SHA-1 of the identifier in small hexadecimal digits, and `.json`. The identifier is
/// the name of a session, or a start URL where there is no session. The AWS command line interface and
/// the AWS SDKs share these files. `OutOfMemory` where memory runs out.
pub fn cached_sso_token_path(
    alloc: Global,
    identifier: &str,
    home: &str,
) -> Result<Text, OutOfMemory>
    ensures { IfOk result (λ path. path ≡ sso_path identifier.now home.now) }
{
    let name = hashed(alloc, identifier)?;
    path_of_name(alloc, name.as_str(), home)
}

/// The path of the file of this name, as [`cached_sso_token_path`] says. `OutOfMemory` where memory runs
/// out.
pub(crate) fn path_of_name(alloc: Global, name: &str, home: &str) -> Result<Text, OutOfMemory>
    ensures { IfOk result (λ path. path ≡ path_by_name name.now home.now) }
{
    let mut path = String::from_str(alloc, home)?;
    push_part(&mut path, ".aws/sso/cache")?;
    push_part(&mut path, name)?;
    path.push_str(".json")?;
    Ok(Text::from_string(path))
}

/// The name of an identifier's file. The identifier is hashed as it is, be it empty or `a/../b`: the path
/// has its digest alone. `OutOfMemory` where memory runs out.
pub(crate) fn hashed(alloc: Global, identifier: &str) -> Result<String, OutOfMemory>
    ensures { IfOk result (λ name. string_bytes name ≡ encode_lower (sha1 identifier.now)) }
{
    let digest = Sha1::digest(identifier.as_bytes());
    Ok(hex::encode(alloc, digest)?)
}

/// Puts a part behind a path, with a `/` between them unless the path is empty or ends with one. `OutOfMemory`
/// where memory runs out; the path is then of no use.
#[tactic(auto, unfolding(crate::specs::Paths::joined))]
pub fn push_part(path: &mut String, part: &str) -> Result<(), OutOfMemory>
    ensures { OnOk result (string_bytes path.new ≡ joined (string_bytes path.old) part.now) }
{
    end_folder(path)?;
    path.push_str(part)?;
    Ok(())
}

// What stands before a part.
#[tactic(auto, unfolding(crate::specs::Paths::as_folder))]
fn end_folder(path: &mut String) -> Result<(), OutOfMemory>
    ensures { OnOk result (string_bytes path.new ≡ as_folder (string_bytes path.old)) }
{
    if needs_slash(path.as_str()) {
        path.push_str("/")?;
    }
    Ok(())
}

fn needs_slash(path: &str) -> bool
    ensures { result ≡ is_open (slice_get path.now (length path.now - 1)) }
{
    match path.as_bytes().last() {
        Some(last) => *last != b'/',
        None => false,
    }
}
