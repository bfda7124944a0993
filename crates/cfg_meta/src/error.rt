//! What a chain needs of its members' errors.
ghost use Rattle.std.specs.Prelude.{◌≡◌, true};
ghost use Rattle.cfg_meta.specs.AnswerRules.{AnswerRules};

use cfg_types::{CredentialsError, NotLoadedCause, ProviderChainError, TokenCause, TokenError};

/// An error of providers that a chain may ask one after the other.
pub trait ChainError: Drop {
    /// What chains of such providers say of answers.
    ghost rules: { AnswerRules Self };

    /// Whether a provider with this error is passed over.
    fn is_not_loaded(&self) -> bool
        ensures { result ≡ rules.is_not_loaded self.now };

    /// The error of a chain whose members were all passed over.
    fn none_loaded(attempts: ProviderChainError<Self>) -> Self
        ensures { result ≡ rules.none_loaded attempts.attempts };

    /// The error where memory runs out.
    fn out_of_memory() -> Self
        ensures { rules.is_memory result ≡ true };
}

impl ChainError for CredentialsError {
    ghost use Rattle.cfg_meta.specs.CredentialsAnswers.{credentials_rules, is_not_loaded as is_not_loaded_error, none_loaded as none_loaded_of, is_memory_error};

    ghost rules = { credentials_rules };

    fn is_not_loaded(&self) -> bool
        ensures { result ≡ is_not_loaded_error self.now }
    {
        matches!(self, CredentialsError::CredentialsNotLoaded(_))
    }

    fn none_loaded(attempts: ProviderChainError<CredentialsError>) -> CredentialsError
        ensures { result ≡ none_loaded_of attempts.attempts }
    {
        CredentialsError::CredentialsNotLoaded(NotLoadedCause::Chain(attempts))
    }

    fn out_of_memory() -> CredentialsError
        ensures { is_memory_error result ≡ true }
    {
        CredentialsError::OutOfMemory
    }
}

impl ChainError for TokenError {
    ghost use Rattle.cfg_meta.specs.TokenAnswers.{token_rules, is_not_loaded as is_not_loaded_error, none_loaded as none_loaded_of, is_memory_error};

    ghost rules = { token_rules };

    fn is_not_loaded(&self) -> bool
        ensures { result ≡ is_not_loaded_error self.now }
    {
        matches!(self, TokenError::TokenNotLoaded(_))
    }

    fn none_loaded(attempts: ProviderChainError<TokenError>) -> TokenError
        ensures { result ≡ none_loaded_of attempts.attempts }
    {
        TokenError::TokenNotLoaded(TokenCause::Chain(attempts))
    }

    fn out_of_memory() -> TokenError
        ensures { is_memory_error result ≡ true }
    {
        TokenError::OutOfMemory
    }
}
