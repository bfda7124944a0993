//! Bearer tokens that a caller brings.
ghost use Rattle.std.specs.Prelude.{◌≡◌, false};
ghost use Rattle.cfg_sso.specs.BearerTokens.{Bearer, is_memory};

use cfg_types::{Token, TokenError};

/// A source of a token, as it is handed in.
pub type CustomToken = Box<dyn ProvideToken + Send + Sync + Drop>;

/// A source of a token that a caller brings. It answers without the world, and each time the same: the
/// value that it stands for, or that memory ran out.
pub trait ProvideToken: Send + Sync {
    /// What it answers.
    ghost told_token: { Self → Bearer };

    /// The token, or why there is none. A chain passes the source over where it is `TokenNotLoaded`, and
    /// answers any other error as it is.
    fn provide_token(&self) -> Result<Token, TokenError>
        ensures { is_memory result ≡ false → result ≡ told_token self.now };
}

// What a source answers.
pub(crate) fn token_told(own: &CustomToken) -> Result<Token, TokenError>
    ensures { is_memory result ≡ false → result ≡ told_token own.now }
{
    own.provide_token()
}
