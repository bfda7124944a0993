//! Errors of bearer tokens.
ghost use Rattle.std.specs.Prelude.{◌≡◌};
ghost use Rattle.cfg_base.specs.Text.{characters};
ghost use Rattle.cfg_types.specs.TokenClasses.{token_class, token_class_name};

use crate::errors::ProviderChainError;
use crate::errors::profile::ProfileFileError;
use crate::errors::sso::SsoTokenProviderError;
use cfg_base::{OutOfMemory, Text};

/// Why a token provider was not loaded. A chain goes on after such an answer.
#[cycle(token_error)]
#[derive(Drop, Debug, PartialEq, Eq)]
pub enum TokenCause {
    /// The path of the selected profile does not end with a session of IAM Identity Center.
    NoSession,
    /// A custom source's own reason.
    Custom(Text),
    /// No member of a chain was loaded.
    Chain(ProviderChainError<TokenError>),
}

/// Why there is no token.
#[cycle(token_error)]
#[derive(Drop, Debug, PartialEq, Eq)]
pub enum TokenError {
    /// A provider was not loaded. A chain goes on after it, and after no other error.
    TokenNotLoaded(TokenCause),
    /// Only a custom source answers it.
    ProviderTimedOut,
    /// The profiles are at fault.
    InvalidConfiguration(ProfileFileError),
    /// The token of a session could not be had.
    ProviderError(SsoTokenProviderError),
    /// Only a custom source answers it, with its own reason.
    Unhandled(Text),
    /// Memory ran out.
    OutOfMemory,
}

impl TokenError {
    /// What kind of error it is, without its cause.
    pub fn class(&self) -> TokenClass
        ensures { result ≡ token_class self.now }
    {
        match self {
            TokenError::TokenNotLoaded(_) => TokenClass::TokenNotLoaded,
            TokenError::ProviderTimedOut => TokenClass::ProviderTimedOut,
            TokenError::InvalidConfiguration(_) => TokenClass::InvalidConfiguration,
            TokenError::ProviderError(_) => TokenClass::ProviderError,
            TokenError::Unhandled(_) => TokenClass::Unhandled,
            TokenError::OutOfMemory => TokenClass::OutOfMemory,
        }
    }
}

/// The kinds of [`TokenError`], without their causes.
#[derive(Clone, Copy, Debug, PartialEq, Eq)]
pub enum TokenClass {
    TokenNotLoaded,
    ProviderTimedOut,
    InvalidConfiguration,
    ProviderError,
    Unhandled,
    OutOfMemory,
}

impl TokenClass {
    /// The name of the kind, as it stands in [`TokenError`].
    pub fn name(self) -> &'static str
        ensures chars { characters result.now ≡ token_class_name self }
        ensures bytes { result.now ≡ token_class_name self }
    {
        match self {
            TokenClass::TokenNotLoaded => "TokenNotLoaded",
            TokenClass::ProviderTimedOut => "ProviderTimedOut",
            TokenClass::InvalidConfiguration => "InvalidConfiguration",
            TokenClass::ProviderError => "ProviderError",
            TokenClass::Unhandled => "Unhandled",
            TokenClass::OutOfMemory => "OutOfMemory",
        }
    }
}

impl From<OutOfMemory> for TokenError {
    ghost use Rattle.std.specs.Prelude.{◌≡◌};
    ghost use Rattle.cfg_types.specs.declared.errors.token.TokenError.TheVariants.{OutOfMemory as memory};

    ghost from_gives = { λ _ e. e ≡ memory };

    fn from(_: OutOfMemory) -> TokenError {
        TokenError::OutOfMemory
    }
}
