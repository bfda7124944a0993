//! Plain data of the credential resolver: the environment, credentials, tokens, requests, replies and
//! every error. It stands on cfg_base, whose texts and moments it hands on, and on `itoa`, which
//! prints numbers. The layers above may use every type here as a value: contracts see texts and
//! sequences as lists, and a moment as its seconds and nanoseconds.
#![tactic(auto)]

pub mod addresses;
pub mod command;
pub mod credentials;
pub mod document;
pub mod environment;
pub mod errors;
pub mod laws;
pub mod outcome;
pub mod region;
pub mod reply;
pub mod request;
pub mod settings;
pub mod token;

pub use addresses::ShownAddress;
pub use cfg_base::{
    Address, Boxed, Bytes, Instant, OutOfMemory, Seq, Shared, Text, TextMap, TryCopy, copy_option,
    is_blank, texts, trimmed,
};
pub use command::{CommandWithSensitiveArgs, Finished, ShownCommand};
pub use credentials::{
    AccountId, AwsCredentialFeature, Credentials, CredentialsBuilder, ShownAccount,
};
pub use document::{Field, FieldFault, InvalidJsonCredentials, JsonError};
pub use environment::{Env, EnvText, VarError};
pub use errors::{
    CachedSsoTokenError, Class, ConfigCause, CredentialsError, InvalidFullUriError, IoStep,
    LoginJsonFault, LoginTokenError, NotLoadedCause, ProcessCause, ProfileFileError,
    ProviderAttempt, ProviderCause, ProviderChainError, SsoTokenProviderError, TokenCause,
    TokenClass, TokenError, UnhandledCause, imds, is_memory,
};
pub use outcome::Outcome;
pub use region::Region;
pub use reply::{
    FailKind, Fault, Header, HttpReply, Refusal, RefusalKind, Reply, RoleCredentials, RoleReply,
    SignInReply, SignInToken, StsCredentials, StsReply, TokenReply,
};
pub use request::{
    AssumeRole, AssumeRoleWithWebIdentity, CreateOAuth2Token, CreateToken, GetRoleCredentials,
    Http, MetadataGet, MetadataToken, Request, Tag,
};
pub use settings::{BehaviorVersion, CallSettings, RetryConfig, Timeouts};
pub use token::{SensitiveString, Token};
