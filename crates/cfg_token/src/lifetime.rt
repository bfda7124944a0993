//! When what a service grants ends.
ghost use Rattle.std.specs.Prelude.{◌≡◌};
ghost use Rattle.cfg_token.specs.SsoTokens.{end_of as end};

use cfg_types::Instant;

/// When a lifetime of so many seconds ends that begins now. None where it is below a second, or ends past the
/// last moment.
pub fn end_of(now: Instant, lifetime: i64) -> Option<Instant>
    ensures { result ≡ end now lifetime }
{
    if lifetime < 1 {
        return None;
    }
    let seconds = now.seconds().checked_add(lifetime)?;
    Instant::new(seconds, now.nanos())
}
