//! Sources of the test's own.
use cfg_token_chain::ProvideToken;
use cfg_types::{Text, Token, TokenCause, TokenError, TryCopy};
use std::alloc::Global;

/// It has this token.
pub(crate) struct Having {
    pub(crate) alloc: Global,
    pub(crate) token: Token,
}

impl Drop for Having {
    fn drop(self) {
        let Having { alloc: _, token: _ } = self;
    }
}

impl ProvideToken for Having {
    ghost use Rattle.std.specs.Prelude.{Ok};

    ghost told_token = { λ s. Ok s.token };

    fn provide_token(&self) -> Result<Token, TokenError> {
        let token = self.token.copy(self.alloc)?;
        Ok(token)
    }
}

/// It is not loaded, for this reason.
pub(crate) struct Lacking {
    pub(crate) alloc: Global,
    pub(crate) reason: Text,
}

impl Drop for Lacking {
    fn drop(self) {
        let Lacking {
            alloc: _,
            reason: _,
        } = self;
    }
}

impl ProvideToken for Lacking {
    ghost use Rattle.std.specs.Prelude.{Err};
    ghost use Rattle.cfg_types.specs.declared.errors.token.TokenCause.TheVariants.{Custom};
    ghost use Rattle.cfg_types.specs.declared.errors.token.TokenError.TheVariants.{TokenNotLoaded};

    ghost told_token = { λ s. Err (TokenNotLoaded (Custom s.reason)) };

    fn provide_token(&self) -> Result<Token, TokenError> {
        let reason = self.reason.copy(self.alloc)?;
        Err(TokenError::TokenNotLoaded(TokenCause::Custom(reason)))
    }
}

/// It is too slow.
#[derive(Drop)]
pub(crate) struct Late {}

impl ProvideToken for Late {
    ghost use Rattle.std.specs.Prelude.{Err};
    ghost use Rattle.cfg_types.specs.declared.errors.token.TokenError.TheVariants.{ProviderTimedOut};

    ghost told_token = { λ s. Err ProviderTimedOut };

    fn provide_token(&self) -> Result<Token, TokenError> {
        Err(TokenError::ProviderTimedOut)
    }
}
