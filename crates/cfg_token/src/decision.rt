//! What is done with the token of a file, by a reading of the clock.
ghost use Rattle.std.specs.Prelude.{◌≡◌};
ghost use Rattle.cfg_token.specs.Moments.{is_before as before, may_attempt as attempt_may_be_made};
ghost use Rattle.cfg_token.specs.Decisions.{decision, is_expired, outlasts_buffer as buffer_is_left};

use crate::file_token::FileToken;
use cfg_base::instant::nanos_of;
use cfg_types::Instant;

/// How many seconds before its end a token is refreshed: five minutes, as in aws-config.
pub const REFRESH_BUFFER_TIME: u64 = 300;

/// How many seconds lie at least between two attempts at a new token, as in aws-config.
pub const MIN_TIME_BETWEEN_REFRESH: u64 = 30;

/// What is done with the token of a file.
#[derive(Clone, Copy, Debug, PartialEq, Eq)]
pub enum Decision {
    /// It is handed out.
    Use,
    /// It is refreshed first.
    Refresh,
    /// It has expired, and cannot be refreshed now.
    Refuse,
}

/// Whether the first moment is before the other one.
pub fn is_before(moment: Instant, other: Instant) -> bool
    ensures { result ≡ before moment other }
{
    moment.number() < other.number()
}

// Numbers of nanoseconds are compared: no sum of seconds passes their end, as one at the last moment would.
fn may_attempt(last_attempt: Option<Instant>, now: Instant) -> bool
    ensures { result ≡ attempt_may_be_made last_attempt now }
{
    match last_attempt {
        Some(last) => last.number() + nanos_of(MIN_TIME_BETWEEN_REFRESH) <= now.number(),
        None => true,
    }
}

/// Whether more than [`REFRESH_BUFFER_TIME`] is left of the token at this reading of the clock.
pub fn outlasts_buffer<T: FileToken>(token: &T, now: Instant) -> bool
    ensures { result ≡ buffer_is_left T.rules token.now now }
{
    token.expires_at().is_later_by(REFRESH_BUFFER_TIME, now)
}

/// Whether the token has ended: its end is not after this reading of the clock.
pub fn has_expired<T: FileToken>(token: &T, now: Instant) -> bool
    ensures { result ≡ is_expired T.rules token.now now }
{
    !is_before(now, token.expires_at())
}

/// What is done with a file's token at a reading of the clock. It is refused where it has expired and
/// cannot be refreshed, refreshed where at most 300 seconds of it are left and it can be, and else
/// used. It can be refreshed where its kind says so, and the last noted attempt is at least 30 seconds
/// ago, or there was none.
pub fn decide<T: FileToken>(token: &T, last: Option<Instant>, now: Instant) -> Decision
    ensures { result ≡ decision T.rules token.now last now }
{
    let refreshable = token.can_refresh(now) && may_attempt(last, now);
    let ends_soon = !outlasts_buffer(token, now);
    if has_expired(token, now) && !refreshable {
        Decision::Refuse
    } else if ends_soon && refreshable {
        Decision::Refresh
    } else {
        Decision::Use
    }
}
