ghost use Rattle.std.specs.Prelude.{◌≡◌, IfOk, string_bytes, codes};
ghost use Rattle.std.specs.Str.{trim};
ghost use Rattle.hex.specs.Hex.{encode_lower};
ghost use Rattle.sha2.specs.Sha256.{sha256};
ghost use Rattle.cfg_types.specs.Environment.{variable};
ghost use Rattle.cfg_login_token.specs.Paths.{login_path, path_of_name as path_by_name, cache_directory as directory_of};
ghost use Rattle.cfg_base.specs.Gives.{IsSaid};

use cfg_token::paths::push_part;
use cfg_types::{Env, LoginTokenError, OutOfMemory, Text};
use sha2::{Digest, Sha256};
use std::alloc::Global;

/// The path of the file that keeps the token of a sign-in session in the folder of a cache: the SHA-256
/// of the session in small hexadecimal digits, and `.json`. White space around the session does not
/// count. The AWS command line interface and the AWS SDKs share these files. `OutOfMemory` where memory
/// runs out.
pub fn cached_login_token_path(
    alloc: Global,
    cache_dir: &str,
    session: &str,
) -> Result<Text, OutOfMemory>
    ensures { IfOk result (λ path. path ≡ login_path cache_dir.now session.now) }
{
    let name = hashed(alloc, session)?;
    path_of_name(String::from_str(alloc, cache_dir)?, name.as_str())
}

/// The path of the file of this name in the folder of a cache. `OutOfMemory` where memory runs out.
pub(crate) fn path_of_name(cache: String, name: &str) -> Result<Text, OutOfMemory>
    ensures { IfOk result (λ path. path ≡ path_by_name (string_bytes cache) name.now) }
{
    let mut path = cache;
    push_part(&mut path, name)?;
    path.push_str(".json")?;
    Ok(Text::from_string(path))
}

/// The name of the file of a session's token. `OutOfMemory` where memory runs out.
pub(crate) fn hashed(alloc: Global, session: &str) -> Result<String, OutOfMemory>
    ensures { IfOk result (λ name. string_bytes name ≡ encode_lower (sha256 (trim session.now))) }
{
    let digest = Sha256::digest(session.trim().as_bytes());
    Ok(hex::encode(alloc, digest)?)
}

/// The folder that keeps the files of sign-in sessions: what `AWS_LOGIN_CACHE_DIRECTORY` is set to,
/// also where that is empty, else `.aws/login/cache` below `HOME`.
///
/// # Errors
///
/// - `NoHomeDirectory`, as the inner error: neither variable is readable.
/// - `OutOfMemory`: memory runs out.
pub fn cache_directory(
    alloc: Global,
    env: &Env,
) -> Result<Result<String, LoginTokenError>, OutOfMemory>
    ensures { IfOk result (λ r. IsSaid string_bytes (directory_of (variable env.now (codes "AWS_LOGIN_CACHE_DIRECTORY")) (variable env.now (codes "HOME"))) r) }
{
    if let Ok(cache) = env.get("AWS_LOGIN_CACHE_DIRECTORY") {
        let cache = String::from_str(alloc, cache)?;
        return Ok(Ok(cache));
    }
    let Ok(home) = env.get("HOME") else {
        return Ok(Err(LoginTokenError::NoHomeDirectory));
    };
    let mut cache = String::from_str(alloc, home)?;
    push_part(&mut cache, ".aws/login/cache")?;
    Ok(Ok(cache))
}
