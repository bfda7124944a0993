//! Every error of the resolver, each with its cause.
ghost use Rattle.std.specs.Prelude.{◌≡◌, IfOk};
ghost use Rattle.std.specs.Str.{encode_utf8_all};
ghost use Rattle.cfg_base.specs.Text.{characters};
ghost use Rattle.cfg_types.specs.Classes.{class_of, class_name, is_memory as is_memory_of};
ghost use Rattle.cfg_types.specs.declared.errors.CredentialsError.TheVariants as error;

use cfg_base::{Boxed, OutOfMemory, Seq, Text};

mod causes;
mod container;
mod credentials_display;
pub mod imds;
mod login;
mod pieces;
mod process;
mod profile;
mod sso;
mod token;
mod token_display;

use crate::credentials::Credentials;
use crate::document::InvalidJsonCredentials;
use crate::errors::imds::ImdsError;
use crate::reply::{FailKind, Refusal, RefusalKind};
pub use container::InvalidFullUriError;
pub use login::{LoginJsonFault, LoginTokenError};
pub use process::ProcessCause;
pub use profile::ProfileFileError;
pub use sso::{CachedSsoTokenError, IoStep, SsoTokenProviderError};
pub use token::{TokenCause, TokenClass, TokenError};

/// What one member of a chain answered.
#[derive(Drop, Debug, PartialEq, Eq)]
pub struct ProviderAttempt<E> {
    /// The member's name.
    pub name: Text,
    /// What the member answered.
    pub error: E,
}

/// What the members of a chain answered, in their order, when none of them was loaded.
#[derive(Drop, Debug, PartialEq, Eq)]
pub struct ProviderChainError<E> {
    /// One attempt for each member, in their order. A chain without members has none.
    pub attempts: Seq<ProviderAttempt<E>>,
}

impl<E> ProviderAttempt<E> {
    /// The attempt of the member of this name.
    pub fn new(name: Text, error: E) -> ProviderAttempt<E>
        ensures { result ≡ record { name = name; error = error } }
    {
        ProviderAttempt { name, error }
    }

    /// The member's name.
    pub fn name(&self) -> &str
        ensures chars { characters result.now ≡ self.now.name }
        ensures bytes { result.now ≡ encode_utf8_all self.now.name }
    {
        self.name.as_str()
    }

    /// What the member answered.
    pub fn error(&self) -> &E
        ensures { result.now ≡ self.now.error }
    {
        &self.error
    }
}

impl<E> ProviderChainError<E> {
    /// The attempts of a chain.
    pub fn new(attempts: Seq<ProviderAttempt<E>>) -> ProviderChainError<E>
        ensures { result ≡ record { attempts = attempts } }
    {
        ProviderChainError { attempts }
    }

    /// The attempts, in the members' order.
    pub fn attempts(&self) -> &[ProviderAttempt<E>]
        ensures { result.now ≡ self.now.attempts }
    {
        self.attempts.as_slice()
    }
}

/// Why a provider was not loaded. A chain goes on after such an answer.
#[cycle(credentials_error)]
#[derive(Drop, Debug, PartialEq, Eq)]
pub enum NotLoadedCause {
    /// The variable of this name cannot be used: it is not set, a key in it is blank, or a web
    /// identity's setting in it is not Unicode.
    NotSet(Text),
    /// The profiles give no credentials: `NoProfilesDefined`, `ProfileDidNotContainCredentials`,
    /// `MissingProfile` or `TokenProviderConfig`.
    Profile(ProfileFileError),
    /// Neither of the variables that name a container's address can be read.
    NotConfigured,
    /// The variable `AWS_EC2_METADATA_DISABLED` is `true`.
    MetadataDisabled,
    /// The instance has no role: the listing has the status 404.
    MetadataNoRole,
    /// The request for the listing's session token could not be sent.
    MetadataUnreachable,
    /// A custom source's own reason.
    Custom(Text),
    /// No member of a chain was loaded.
    Chain(ProviderChainError<CredentialsError>),
}

/// What is wrong with the configuration.
#[derive(PartialEq, Eq)]
pub enum ConfigCause {
    /// The profiles are at fault.
    Profile(ProfileFileError),
    /// This is no path of the container's endpoint.
    RelativeUri(Text),
    /// The container's credentials are not fetched from this address.
    FullUri {
        error: InvalidFullUriError,
        uri: Text,
    },
    /// The container's authorization is no header value.
    AuthToken,
    /// The instance metadata service's document is an error: the role does not let it give credentials.
    MetadataRole {
        code: Text,
        message: Text,
    },
    /// A role could not be assumed, since the configuration of the call is refused.
    AssumeRole(RefusalKind),
    /// The token of a sign-in session: `FailedToFormatDateTime` or `MissingField`.
    LoginToken(LoginTokenError),
    /// A custom source's own reason.
    Custom(Text),
}

impl Drop for ConfigCause {
    fn drop(self) {
        match self {
            ConfigCause::Profile(_) => {}
            ConfigCause::RelativeUri(_) => {}
            ConfigCause::FullUri { error: _, uri: _ } => {}
            ConfigCause::AuthToken => {}
            ConfigCause::MetadataRole {
                code: _,
                message: _,
            } => {}
            ConfigCause::AssumeRole(_) => {}
            ConfigCause::LoginToken(_) => {}
            ConfigCause::Custom(_) => {}
        }
    }
}

/// What a provider failed at.
#[cycle(credentials_error)]
#[derive(Drop, Debug, PartialEq, Eq)]
pub enum ProviderCause {
    /// The base of a profile, or of a role over a base, gave no credentials.
    Base(Boxed<CredentialsError>),
    /// A role of a profile could not be assumed.
    Role(Boxed<CredentialsError>),
    /// The file of this path could not be read.
    File(Text),
    /// A request was not answered.
    Sent(FailKind),
    /// A request was refused.
    Refused(Refusal),
    /// A container's reply has this status, which is no success.
    Status(u16),
    /// A document tells of an error.
    ErrorDocument { code: Text, message: Text },
    /// A command gave no credentials.
    Process(ProcessCause),
    /// The instance metadata service gave nothing.
    Metadata(ImdsError),
    /// The token of a session of IAM Identity Center could not be had.
    SsoToken(SsoTokenProviderError),
    /// The file of a start URL's token gives none.
    SsoFile(CachedSsoTokenError),
    /// The token of a sign-in session: `RefreshFailed`.
    LoginToken(LoginTokenError),
    /// A custom source's own reason.
    Custom(Text),
}

/// What no rule allows for.
#[derive(PartialEq, Eq)]
pub enum UnhandledCause {
    /// The variable of this name is not Unicode.
    NotUnicode(Text),
    /// A file, or a reply's body, is not UTF-8.
    NotUtf8,
    /// A reply's body is no document of credentials.
    NoDocument(InvalidJsonCredentials),
    /// A container's request was not answered.
    Sent(FailKind),
    /// A reply of the Security Token Service has no credentials.
    StsNoCredentials,
    /// This ARN, of such a reply, names no account.
    StsArn(Text),
    /// A reply of IAM Identity Center has no credentials.
    SsoNoCredentials,
    /// The credentials of such a reply have no id.
    SsoNoAccessKey,
    /// The credentials of such a reply have no secret.
    SsoNoSecretKey,
    /// The token of a sign-in session: any other error of it.
    LoginToken(LoginTokenError),
    /// A custom source's own reason.
    Custom(Text),
}

impl Drop for UnhandledCause {
    fn drop(self) {
        match self {
            UnhandledCause::NotUnicode(_) => {}
            UnhandledCause::NotUtf8 => {}
            UnhandledCause::NoDocument(_) => {}
            UnhandledCause::Sent(_) => {}
            UnhandledCause::StsNoCredentials => {}
            UnhandledCause::StsArn(_) => {}
            UnhandledCause::SsoNoCredentials => {}
            UnhandledCause::SsoNoAccessKey => {}
            UnhandledCause::SsoNoSecretKey => {}
            UnhandledCause::LoginToken(_) => {}
            UnhandledCause::Custom(_) => {}
        }
    }
}

/// Why there are no credentials.
#[cycle(credentials_error)]
#[derive(Drop, Debug, PartialEq, Eq)]
pub enum CredentialsError {
    /// A provider was not loaded. A chain goes on after it, and after no other error.
    CredentialsNotLoaded(NotLoadedCause),
    /// Only a custom source answers it.
    ProviderTimedOut,
    /// The configuration is wrong.
    InvalidConfiguration(ConfigCause),
    /// A provider failed.
    ProviderError(ProviderCause),
    /// What no rule allows for.
    Unhandled(UnhandledCause),
    /// Memory ran out.
    OutOfMemory,
}

impl CredentialsError {
    /// What kind of error it is, without its cause.
    pub fn class(&self) -> Class
        ensures { result ≡ class_of self.now }
    {
        match self {
            CredentialsError::CredentialsNotLoaded(_) => Class::CredentialsNotLoaded,
            CredentialsError::ProviderTimedOut => Class::ProviderTimedOut,
            CredentialsError::InvalidConfiguration(_) => Class::InvalidConfiguration,
            CredentialsError::ProviderError(_) => Class::ProviderError,
            CredentialsError::Unhandled(_) => Class::Unhandled,
            CredentialsError::OutOfMemory => Class::OutOfMemory,
        }
    }
}

/// The kinds of [`CredentialsError`], without their causes.
#[derive(Clone, Copy, Debug, PartialEq, Eq)]
pub enum Class {
    CredentialsNotLoaded,
    ProviderTimedOut,
    InvalidConfiguration,
    ProviderError,
    Unhandled,
    OutOfMemory,
}

impl Class {
    /// The name of the kind, as it stands in [`CredentialsError`].
    pub fn name(self) -> &'static str
        ensures chars { characters result.now ≡ class_name self }
        ensures bytes { result.now ≡ class_name self }
    {
        match self {
            Class::CredentialsNotLoaded => "CredentialsNotLoaded",
            Class::ProviderTimedOut => "ProviderTimedOut",
            Class::InvalidConfiguration => "InvalidConfiguration",
            Class::ProviderError => "ProviderError",
            Class::Unhandled => "Unhandled",
            Class::OutOfMemory => "OutOfMemory",
        }
    }
}

impl From<OutOfMemory> for CredentialsError {
    ghost from_gives = { λ _ e. e ≡ error.OutOfMemory };

    fn from(_: OutOfMemory) -> CredentialsError {
        CredentialsError::OutOfMemory
    }
}

/// Whether an answer says that memory ran out.
pub fn is_memory(answer: &Result<Credentials, CredentialsError>) -> bool
    ensures { result ≡ is_memory_of answer.now }
{
    matches!(answer, Err(CredentialsError::OutOfMemory))
}
