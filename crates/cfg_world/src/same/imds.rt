use super::Same;
use cfg_types::imds::{
    BuildError, ErrorResponse, FailedToLoadToken, ImdsError, InvalidEndpointMode, TokenError,
    UnexpectedCause,
};

impl Same for InvalidEndpointMode {
    fn same(&self, other: &InvalidEndpointMode) -> bool {
        match (self, other) {
            (InvalidEndpointMode::Mode(one), InvalidEndpointMode::Mode(other)) => one.same(other),
            (InvalidEndpointMode::OutOfMemory, InvalidEndpointMode::OutOfMemory) => true,
            _ => false,
        }
    }
}

impl Same for BuildError {
    fn same(&self, other: &BuildError) -> bool {
        match (self, other) {
            (BuildError::InvalidEndpointMode(one), BuildError::InvalidEndpointMode(other)) =>
                one.same(other),
            (BuildError::InvalidEndpointUri(one), BuildError::InvalidEndpointUri(other)) =>
                one.same(other),
            (BuildError::OutOfMemory, BuildError::OutOfMemory) => true,
            _ => false,
        }
    }
}

impl Same for TokenError {
    fn same(&self, other: &TokenError) -> bool {
        *self == *other
    }
}

impl Same for FailedToLoadToken {
    fn same(&self, other: &FailedToLoadToken) -> bool {
        match (self, other) {
            (FailedToLoadToken::Sent(one), FailedToLoadToken::Sent(other)) => one.same(other),
            (FailedToLoadToken::Token(one), FailedToLoadToken::Token(other)) => one.same(other),
            _ => false,
        }
    }
}

impl Same for ErrorResponse {
    fn same(&self, other: &ErrorResponse) -> bool {
        self.response().same(other.response())
    }
}

impl Same for UnexpectedCause {
    fn same(&self, other: &UnexpectedCause) -> bool {
        match (self, other) {
            (UnexpectedCause::NotUtf8, UnexpectedCause::NotUtf8) => true,
            (UnexpectedCause::Dispatch, UnexpectedCause::Dispatch) => true,
            (UnexpectedCause::Endpoint(one), UnexpectedCause::Endpoint(other)) => one.same(other),
            (UnexpectedCause::Path(one), UnexpectedCause::Path(other)) => one.same(other),
            _ => false,
        }
    }
}

impl Same for ImdsError {
    fn same(&self, other: &ImdsError) -> bool {
        match (self, other) {
            (ImdsError::FailedToLoadToken(one), ImdsError::FailedToLoadToken(other)) => one.same(
                other,
            ),
            (ImdsError::ErrorResponse(one), ImdsError::ErrorResponse(other)) => one.same(other),
            (ImdsError::IoError(one), ImdsError::IoError(other)) => one.same(other),
            (ImdsError::Unexpected(one), ImdsError::Unexpected(other)) => one.same(other),
            (ImdsError::OutOfMemory, ImdsError::OutOfMemory) => true,
            _ => false,
        }
    }
}
