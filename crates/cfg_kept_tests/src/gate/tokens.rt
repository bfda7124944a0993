//! The token of a session on its way into a gate, and worlds over scripts.
ghost use Rattle.std.specs.Prelude.{◌≡◌, IfOk, true};
ghost use Rattle.cfg_token.specs.SsoTokens.{is_sso};

use crate::gate::scarce::Scarce;
use crate::sections::{session_key, settings};
use cfg_gate::GatedToken;
use cfg_script::{ScriptError, read_script};
use cfg_token::{CachedSsoToken, TokenState, section};
use cfg_types::{Env, OutOfMemory};
use cfg_world::{ScriptDevices, World};
use std::alloc::Global;

/// The state of the token of a session, of which nothing is known yet.
pub(crate) fn token(alloc: Global) -> Result<GatedToken<CachedSsoToken>, OutOfMemory>
    ensures kind { IfOk result (λ t. is_sso t.state.key ≡ true) }
    ensures loads { IfOk result (λ t. t.loads ≡ 0) }
{
    let key = session_key(alloc)?;
    Ok(GatedToken::new(TokenState::new(alloc, key)))
}

/// The same after a section over a script, whose record was given up.
pub(crate) fn kept_token(
    alloc: Global,
    script: &str,
) -> Result<GatedToken<CachedSsoToken>, ScriptError>
    ensures kind { IfOk result (λ t. is_sso t.state.key ≡ true) }
    ensures loads { IfOk result (λ t. t.loads ≡ 0) }
{
    let key = session_key(alloc)?;
    let (env, mut world) = read(alloc, script)?;
    let mut state = TokenState::new(alloc, key);
    let _answer = section(&mut state, &env, &settings(), &mut world);
    state.trim();
    Ok(GatedToken::new(state))
}

/// The same of a token for which memory runs out where its file is empty.
pub(crate) fn scarce_token(alloc: Global) -> Result<GatedToken<Scarce>, OutOfMemory>
    ensures kind { IfOk result (λ t. is_sso t.state.key ≡ true) }
    ensures loads { IfOk result (λ t. t.loads ≡ 0) }
{
    let key = session_key(alloc)?;
    Ok(GatedToken::new(TokenState::new(alloc, key)))
}

/// The variables of a script, and a world over its devices.
pub(crate) fn read(
    alloc: Global,
    script: &str,
) -> Result<(Env, World<ScriptDevices>), ScriptError> {
    let script = read_script(alloc, script.as_bytes())?;
    let env = Env::new(alloc, script.variables)?;
    let world = World::new(alloc, ScriptDevices::new(alloc, script.devices)?);
    Ok((env, world))
}
