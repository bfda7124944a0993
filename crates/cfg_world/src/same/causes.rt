use super::Same;
use cfg_types::{
    CachedSsoTokenError, ConfigCause, Field, FieldFault, InvalidFullUriError,
    InvalidJsonCredentials, IoStep, JsonError, LoginJsonFault, LoginTokenError, ProcessCause,
    ProfileFileError, SsoTokenProviderError, UnhandledCause,
};

impl Same for JsonError {
    fn same(&self, other: &JsonError) -> bool {
        *self == *other
    }
}

impl Same for Field {
    fn same(&self, other: &Field) -> bool {
        *self == *other
    }
}

impl Same for FieldFault {
    fn same(&self, other: &FieldFault) -> bool {
        *self == *other
    }
}

impl Same for InvalidFullUriError {
    fn same(&self, other: &InvalidFullUriError) -> bool {
        *self == *other
    }
}

impl Same for IoStep {
    fn same(&self, other: &IoStep) -> bool {
        *self == *other
    }
}

impl Same for LoginJsonFault {
    fn same(&self, other: &LoginJsonFault) -> bool {
        *self == *other
    }
}

impl Same for InvalidJsonCredentials {
    fn same(&self, other: &InvalidJsonCredentials) -> bool {
        match (self, other) {
            (InvalidJsonCredentials::JsonError(one), InvalidJsonCredentials::JsonError(other)) =>
                one.same(other),
            (
                InvalidJsonCredentials::MissingField(one),
                InvalidJsonCredentials::MissingField(other),
            ) => one.same(other),
            (
                InvalidJsonCredentials::InvalidField { field, fault },
                InvalidJsonCredentials::InvalidField {
                    field: other_field,
                    fault: other_fault,
                },
            ) => field.same(other_field) && fault.same(other_fault),
            (InvalidJsonCredentials::Other(one), InvalidJsonCredentials::Other(other)) => one.same(
                other,
            ),
            (InvalidJsonCredentials::OutOfMemory, InvalidJsonCredentials::OutOfMemory) => true,
            _ => false,
        }
    }
}

impl Same for ProfileFileError {
    fn same(&self, other: &ProfileFileError) -> bool {
        match (self, other) {
            (ProfileFileError::InvalidProfile(one), ProfileFileError::InvalidProfile(other)) =>
                one.same(other),
            (ProfileFileError::NoProfilesDefined, ProfileFileError::NoProfilesDefined) => true,
            (
                ProfileFileError::ProfileDidNotContainCredentials { profile },
                ProfileFileError::ProfileDidNotContainCredentials {
                    profile: other_profile,
                },
            ) => profile.same(other_profile),
            (
                ProfileFileError::CredentialLoop { profiles, next },
                ProfileFileError::CredentialLoop {
                    profiles: other_profiles,
                    next: other_next,
                },
            ) => profiles.same(other_profiles) && next.same(other_next),
            (
                ProfileFileError::MissingCredentialSource { profile, message },
                ProfileFileError::MissingCredentialSource {
                    profile: other_profile,
                    message: other_message,
                },
            ) => profile.same(other_profile) && message.same(other_message),
            (
                ProfileFileError::InvalidCredentialSource { profile, message },
                ProfileFileError::InvalidCredentialSource {
                    profile: other_profile,
                    message: other_message,
                },
            ) => profile.same(other_profile) && message.same(other_message),
            (
                ProfileFileError::MissingProfile { profile, message },
                ProfileFileError::MissingProfile {
                    profile: other_profile,
                    message: other_message,
                },
            ) => profile.same(other_profile) && message.same(other_message),
            (
                ProfileFileError::UnknownProvider { name },
                ProfileFileError::UnknownProvider { name: other_name },
            ) => name.same(other_name),
            (
                ProfileFileError::FeatureNotEnabled { feature, message },
                ProfileFileError::FeatureNotEnabled {
                    feature: other_feature,
                    message: other_message,
                },
            ) => feature.same(other_feature) && message.same(other_message),
            (
                ProfileFileError::MissingSsoSession {
                    profile,
                    sso_session,
                },
                ProfileFileError::MissingSsoSession {
                    profile: other_profile,
                    sso_session: other_sso_session,
                },
            ) => profile.same(other_profile) && sso_session.same(other_sso_session),
            (
                ProfileFileError::InvalidSsoConfig { profile, message },
                ProfileFileError::InvalidSsoConfig {
                    profile: other_profile,
                    message: other_message,
                },
            ) => profile.same(other_profile) && message.same(other_message),
            (ProfileFileError::TokenProviderConfig, ProfileFileError::TokenProviderConfig) => true,
            (ProfileFileError::OutOfMemory, ProfileFileError::OutOfMemory) => true,
            _ => false,
        }
    }
}

impl Same for CachedSsoTokenError {
    fn same(&self, other: &CachedSsoTokenError) -> bool {
        match (self, other) {
            (
                CachedSsoTokenError::FailedToFormatDateTime,
                CachedSsoTokenError::FailedToFormatDateTime,
            ) => true,
            (CachedSsoTokenError::InvalidField(one), CachedSsoTokenError::InvalidField(other)) =>
                one.same(other),
            (
                CachedSsoTokenError::IoError { what, path },
                CachedSsoTokenError::IoError {
                    what: other_what,
                    path: other_path,
                },
            ) => what.same(other_what) && path.same(other_path),
            (CachedSsoTokenError::JsonError, CachedSsoTokenError::JsonError) => true,
            (CachedSsoTokenError::MissingField(one), CachedSsoTokenError::MissingField(other)) =>
                one.same(other),
            (CachedSsoTokenError::NoHomeDirectory, CachedSsoTokenError::NoHomeDirectory) => true,
            (CachedSsoTokenError::Other(one), CachedSsoTokenError::Other(other)) => one.same(other),
            (CachedSsoTokenError::OutOfMemory, CachedSsoTokenError::OutOfMemory) => true,
            _ => false,
        }
    }
}

impl Same for SsoTokenProviderError {
    fn same(&self, other: &SsoTokenProviderError) -> bool {
        match (self, other) {
            (
                SsoTokenProviderError::BadExpirationTimeFromSsoOidc(one),
                SsoTokenProviderError::BadExpirationTimeFromSsoOidc(other),
            ) => one.same(other),
            (
                SsoTokenProviderError::FailedToLoadToken(one),
                SsoTokenProviderError::FailedToLoadToken(other),
            ) => one.same(other),
            (SsoTokenProviderError::ExpiredToken, SsoTokenProviderError::ExpiredToken) => true,
            (SsoTokenProviderError::OutOfMemory, SsoTokenProviderError::OutOfMemory) => true,
            _ => false,
        }
    }
}

impl Same for LoginTokenError {
    fn same(&self, other: &LoginTokenError) -> bool {
        match (self, other) {
            (LoginTokenError::FailedToFormatDateTime, LoginTokenError::FailedToFormatDateTime) =>
                true,
            (
                LoginTokenError::IoError { what, path },
                LoginTokenError::IoError {
                    what: other_what,
                    path: other_path,
                },
            ) => what.same(other_what) && path.same(other_path),
            (LoginTokenError::JsonError(one), LoginTokenError::JsonError(other)) => one.same(other),
            (LoginTokenError::MissingField(one), LoginTokenError::MissingField(other)) => one.same(
                other,
            ),
            (LoginTokenError::NoHomeDirectory, LoginTokenError::NoHomeDirectory) => true,
            (LoginTokenError::ExpiredToken, LoginTokenError::ExpiredToken) => true,
            (
                LoginTokenError::RefreshFailed { message },
                LoginTokenError::RefreshFailed {
                    message: other_message,
                },
            ) => message.same(other_message),
            (LoginTokenError::Other(one), LoginTokenError::Other(other)) => one.same(other),
            (LoginTokenError::OutOfMemory, LoginTokenError::OutOfMemory) => true,
            _ => false,
        }
    }
}

impl Same for ProcessCause {
    fn same(&self, other: &ProcessCause) -> bool {
        match (self, other) {
            (ProcessCause::NotRun, ProcessCause::NotRun) => true,
            (
                ProcessCause::Status { code, errors },
                ProcessCause::Status {
                    code: other_code,
                    errors: other_errors,
                },
            ) => code.same(other_code) && errors.same(other_errors),
            (ProcessCause::NotUtf8, ProcessCause::NotUtf8) => true,
            (ProcessCause::Document(one), ProcessCause::Document(other)) => one.same(other),
            _ => false,
        }
    }
}

impl Same for ConfigCause {
    fn same(&self, other: &ConfigCause) -> bool {
        match (self, other) {
            (ConfigCause::Profile(one), ConfigCause::Profile(other)) => one.same(other),
            (ConfigCause::RelativeUri(one), ConfigCause::RelativeUri(other)) => one.same(other),
            (
                ConfigCause::FullUri { error, uri },
                ConfigCause::FullUri {
                    error: other_error,
                    uri: other_uri,
                },
            ) => error.same(other_error) && uri.same(other_uri),
            (ConfigCause::AuthToken, ConfigCause::AuthToken) => true,
            (
                ConfigCause::MetadataRole { code, message },
                ConfigCause::MetadataRole {
                    code: other_code,
                    message: other_message,
                },
            ) => code.same(other_code) && message.same(other_message),
            (ConfigCause::AssumeRole(one), ConfigCause::AssumeRole(other)) => one.same(other),
            (ConfigCause::LoginToken(one), ConfigCause::LoginToken(other)) => one.same(other),
            (ConfigCause::Custom(one), ConfigCause::Custom(other)) => one.same(other),
            _ => false,
        }
    }
}

impl Same for UnhandledCause {
    fn same(&self, other: &UnhandledCause) -> bool {
        match (self, other) {
            (UnhandledCause::NotUnicode(one), UnhandledCause::NotUnicode(other)) => one.same(other),
            (UnhandledCause::NotUtf8, UnhandledCause::NotUtf8) => true,
            (UnhandledCause::NoDocument(one), UnhandledCause::NoDocument(other)) => one.same(other),
            (UnhandledCause::Sent(one), UnhandledCause::Sent(other)) => one.same(other),
            (UnhandledCause::StsNoCredentials, UnhandledCause::StsNoCredentials) => true,
            (UnhandledCause::StsArn(one), UnhandledCause::StsArn(other)) => one.same(other),
            (UnhandledCause::SsoNoCredentials, UnhandledCause::SsoNoCredentials) => true,
            (UnhandledCause::SsoNoAccessKey, UnhandledCause::SsoNoAccessKey) => true,
            (UnhandledCause::SsoNoSecretKey, UnhandledCause::SsoNoSecretKey) => true,
            (UnhandledCause::LoginToken(one), UnhandledCause::LoginToken(other)) => one.same(other),
            (UnhandledCause::Custom(one), UnhandledCause::Custom(other)) => one.same(other),
            _ => false,
        }
    }
}
