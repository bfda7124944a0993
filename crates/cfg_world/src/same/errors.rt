ghost use Rattle.std.specs.Prelude.{◌≡◌, ◌↔◌, IsTrue};

use super::Same;
use super::credentials::same_text;
use cfg_types::{
    CredentialsError, NotLoadedCause, ProviderAttempt, ProviderCause, Token, TokenCause, TokenError,
};

impl<E: Same> Same for ProviderAttempt<E> {
    fn same(&self, other: &ProviderAttempt<E>) -> bool {
        self.name.same(&other.name) && self.error().same(other.error())
    }
}

// Errors hold errors, so these call each other, through the lists of attempts too.
impl Same for CredentialsError {
    #[cycle(same_errors)]
    fn same(&self, other: &CredentialsError) -> bool {
        match (self, other) {
            (
                CredentialsError::CredentialsNotLoaded(one),
                CredentialsError::CredentialsNotLoaded(other),
            ) => { one.same(other) }
            (CredentialsError::ProviderTimedOut, CredentialsError::ProviderTimedOut) => true,
            (
                CredentialsError::InvalidConfiguration(one),
                CredentialsError::InvalidConfiguration(other),
            ) => { one.same(other) }
            (CredentialsError::ProviderError(one), CredentialsError::ProviderError(other)) => {
                one.same(other)
            }
            (CredentialsError::Unhandled(one), CredentialsError::Unhandled(other)) => one.same(
                other,
            ),
            (CredentialsError::OutOfMemory, CredentialsError::OutOfMemory) => true,
            _ => false,
        }
    }
}

impl Same for NotLoadedCause {
    #[cycle(same_errors)]
    fn same(&self, other: &NotLoadedCause) -> bool {
        match (self, other) {
            (NotLoadedCause::NotSet(one), NotLoadedCause::NotSet(other)) => one.same(other),
            (NotLoadedCause::Profile(one), NotLoadedCause::Profile(other)) => one.same(other),
            (NotLoadedCause::NotConfigured, NotLoadedCause::NotConfigured) => true,
            (NotLoadedCause::MetadataDisabled, NotLoadedCause::MetadataDisabled) => true,
            (NotLoadedCause::MetadataNoRole, NotLoadedCause::MetadataNoRole) => true,
            (NotLoadedCause::MetadataUnreachable, NotLoadedCause::MetadataUnreachable) => true,
            (NotLoadedCause::Custom(one), NotLoadedCause::Custom(other)) => one.same(other),
            (NotLoadedCause::Chain(one), NotLoadedCause::Chain(other)) => {
                one.attempts.same(&other.attempts)
            }
            _ => false,
        }
    }
}

impl Same for ProviderCause {
    #[cycle(same_errors)]
    fn same(&self, other: &ProviderCause) -> bool {
        match (self, other) {
            (ProviderCause::Base(one), ProviderCause::Base(other)) => one.get().same(other.get()),
            (ProviderCause::Role(one), ProviderCause::Role(other)) => one.get().same(other.get()),
            (ProviderCause::File(one), ProviderCause::File(other)) => one.same(other),
            (ProviderCause::Sent(one), ProviderCause::Sent(other)) => one.same(other),
            (ProviderCause::Refused(one), ProviderCause::Refused(other)) => one.same(other),
            (ProviderCause::Status(one), ProviderCause::Status(other)) => one.same(other),
            (
                ProviderCause::ErrorDocument { code, message },
                ProviderCause::ErrorDocument {
                    code: other_code,
                    message: other_message,
                },
            ) => code.same(other_code) && message.same(other_message),
            (ProviderCause::Process(one), ProviderCause::Process(other)) => one.same(other),
            (ProviderCause::Metadata(one), ProviderCause::Metadata(other)) => one.same(other),
            (ProviderCause::SsoToken(one), ProviderCause::SsoToken(other)) => one.same(other),
            (ProviderCause::SsoFile(one), ProviderCause::SsoFile(other)) => one.same(other),
            (ProviderCause::LoginToken(one), ProviderCause::LoginToken(other)) => one.same(other),
            (ProviderCause::Custom(one), ProviderCause::Custom(other)) => one.same(other),
            _ => false,
        }
    }
}

impl Same for Token {
    fn same(&self, other: &Token) -> bool {
        same_text(self.token(), other.token()) && self.expiry().same(&other.expiry())
    }
}

impl Same for TokenError {
    #[cycle(same_token_errors)]
    fn same(&self, other: &TokenError) -> bool {
        match (self, other) {
            (TokenError::TokenNotLoaded(one), TokenError::TokenNotLoaded(other)) => {
                one.same(other)
            }
            (TokenError::ProviderTimedOut, TokenError::ProviderTimedOut) => true,
            (TokenError::InvalidConfiguration(one), TokenError::InvalidConfiguration(other)) => {
                one.same(other)
            }
            (TokenError::ProviderError(one), TokenError::ProviderError(other)) => one.same(other),
            (TokenError::Unhandled(one), TokenError::Unhandled(other)) => one.same(other),
            (TokenError::OutOfMemory, TokenError::OutOfMemory) => true,
            _ => false,
        }
    }
}

impl Same for TokenCause {
    #[cycle(same_token_errors)]
    fn same(&self, other: &TokenCause) -> bool {
        match (self, other) {
            (TokenCause::NoSession, TokenCause::NoSession) => true,
            (TokenCause::Custom(one), TokenCause::Custom(other)) => one.same(other),
            (TokenCause::Chain(one), TokenCause::Chain(other)) => {
                one.attempts.same(&other.attempts)
            }
            _ => false,
        }
    }
}
