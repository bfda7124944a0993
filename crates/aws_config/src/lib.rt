//! The crates under one name, for callers: the modules of the crate aws-config, and beside them what this
//! project has of its own. A caller's line of crates.txt is `mine: aws_config`.
#![tactic(auto)]

pub use cfg_profile::ProviderConfig;
pub use cfg_types::{
    AccountId, BehaviorVersion, CallSettings, Class, Credentials, CredentialsBuilder,
    CredentialsError, Env, EnvText, Instant, OutOfMemory, Outcome, Region, RetryConfig, Seq, Text,
    Timeouts, Token, TokenError, TryCopy, is_memory,
};

/// The default chains.
pub mod default_provider {
    /// The default chain of credentials.
    pub mod credentials {
        pub use cfg_chain::ChainCore;
        pub use cfg_chain::default_provider::credentials::{Builder, DefaultCredentialsChain};
    }

    /// The default chain of regions.
    pub mod region {
        pub use cfg_region::default_provider::region::{Builder, DefaultRegionChain};
        pub use cfg_region::{RegionSource, load_default_region, with_default_region};
    }

    /// The default chain of bearer tokens.
    pub mod token {
        pub use cfg_token_chain::default_provider::token::{Builder, DefaultTokenChain};
    }
}

/// Credentials and the region that variables of the environment have.
pub mod environment {
    pub use cfg_providers::EnvironmentVariableCredentialsProvider;
    pub use cfg_region::EnvironmentVariableRegionProvider;

    /// The provider of credentials.
    pub mod credentials {
        pub use cfg_providers::EnvironmentVariableCredentialsProvider;
    }

    /// The provider of a region.
    pub mod region {
        pub use cfg_region::EnvironmentVariableRegionProvider;
    }
}

/// Credentials of the agent of a container.
pub mod ecs {
    pub use cfg_exchange::{is_full_uri_ip_allowed, validate_full_uri};
    pub use cfg_providers::ecs::{Builder, EcsCredentialsProvider};
    pub use cfg_types::InvalidFullUriError;
}

/// The instance metadata service.
pub mod imds {
    /// Its client.
    pub mod client {
        pub use cfg_exchange::{ClassifyRetry, ImdsResponseRetryClassifier};
        pub use cfg_imds::{Builder, Client, ImdsTokenState};

        /// What the client answers in place of a text.
        pub mod error {
            pub use cfg_types::imds::{
                BuildError, ErrorResponse, FailedToLoadToken, ImdsError, InvalidEndpointMode,
                TokenError, UnexpectedCause,
            };
        }

        pub use cfg_types::imds::EndpointMode;
    }

    /// Credentials of the machine's role.
    pub mod credentials {
        pub use cfg_imds_credentials::{Builder, ImdsCredentialsProvider};
    }

    /// The region of the machine.
    pub mod region {
        pub use cfg_region::imds::region::{Builder, ImdsRegionProvider};
    }

    pub use cfg_imds::Client;
}

/// Credentials of a sign-in session.
pub mod login {
    pub use cfg_login::login::{Builder, LoginCredentialsProvider};
    pub use cfg_login_token::{
        LoginToken, cached_login_token_path, parse_cached_login_token, write_cached_login_token,
    };
}

/// Chains over members that the caller chooses.
pub mod meta {
    /// Chains of credentials.
    pub mod credentials {
        pub use cfg_credentials_chain::{CredentialsProviderChain, Member};
    }

    /// Chains of regions.
    pub mod region {
        pub use cfg_region::{CustomRegion, ProvideRegion, RegionProviderChain};
        pub use cfg_run::future;
    }

    /// Chains of bearer tokens.
    pub mod token {
        pub use cfg_token_chain::{CustomToken, ProvideToken, TokenMember, TokenProviderChain};
    }
}

/// What the selected profile gives.
pub mod profile {
    pub use cfg_chain::ProfileFileCredentialsProvider;
    pub use cfg_profile::{
        BaseProvider, ProfileChain, ProfileSet, ProfileSource, RoleArn, Section, plan_of,
        region_of, resolve_chain, selected_name,
    };
    pub use cfg_region::ProfileFileRegionProvider;
    pub use cfg_token_chain::ProfileFileTokenProvider;
    pub use cfg_types::ProfileFileError;

    /// The provider of credentials.
    pub mod credentials {
        pub use cfg_chain::profile::credentials::{Builder, ProfileFileCredentialsProvider};
    }

    /// The provider of a region.
    pub mod region {
        pub use cfg_region::ProfileFileRegionProvider;
    }

    /// The provider of a bearer token.
    pub mod token {
        pub use cfg_token_chain::ProfileFileTokenProvider;
    }
}

/// What every provider is made from.
pub mod provider_config {
    pub use cfg_profile::ProviderConfig;
}

/// Credentials and bearer tokens of IAM Identity Center.
pub mod sso {
    pub use cfg_sso::{SsoCredentialsProvider, SsoTokenProvider};

    /// The provider of credentials.
    pub mod credentials {
        pub use cfg_sso::sso::credentials::{Builder, SsoCredentialsProvider};
    }

    /// The provider of a bearer token.
    pub mod token {
        pub use cfg_sso::sso::token::{Builder, SsoTokenProvider};
    }

    /// The file of a cached token.
    pub mod cache {
        pub use cfg_token::{
            CachedSsoToken, cached_sso_token_path, parse_cached_sso_token, write_cached_sso_token,
        };
    }
}

/// Roles over given credentials.
pub mod sts {
    pub use cfg_assume_role::{AssumeRoleProvider, AssumeRoleProviderBuilder, RoleBase};
    pub use cfg_providers::{assume_roles, default_session_name, into_credentials};
}

/// Credentials that a role gives for the token of a file.
pub mod web_identity_token {
    pub use cfg_providers::web_identity_token::{
        Builder, StaticConfiguration, WebIdentityTokenCredentialsProvider,
    };
}

/// Credentials that a command writes.
pub mod credential_process {
    pub use cfg_providers::CredentialProcessProvider;
}

/// Credentials that a caller brings.
pub mod custom {
    pub use cfg_providers::{CustomProvider, CustomSource, ProvideCredentials};
}

/// What answers questions: a machine, lists, or the caller.
pub mod devices {
    pub use cfg_types::{
        Address, AssumeRole, AssumeRoleWithWebIdentity, Bytes, CommandWithSensitiveArgs,
        CreateOAuth2Token, CreateToken, FailKind, Fault, Finished, GetRoleCredentials, Header,
        Http, HttpReply, MetadataGet, MetadataToken, Refusal, RefusalKind, Reply, Request,
        RoleCredentials, RoleReply, SensitiveString, SignInReply, SignInToken, StsCredentials,
        StsReply, Tag, TokenReply,
    };
    pub use cfg_world::{
        DeviceLists, Devices, FaultDevices, HandedDevices, LocalDevices, ScriptDevices, World,
    };
}

/// What was asked, and what was answered.
pub mod journal {
    pub use cfg_world::{Answer, Entry, Question, Receipt};
}

/// What stands between calls.
pub mod kept {
    pub use cfg_kept::{Found, Kept, Place, Retrieved};
    pub use cfg_token::{Load, Record, TokenKey, TokenState};
}

/// Kept states that callers on threads share.
pub mod shared {
    pub use cfg_chain::{Answered, Fallback};
    pub use cfg_gate::{
        Gate, GateAnswer, GateError, GateFault, GatedCalls, GatedToken, Pass, gated_calls, new_gate,
    };
    pub use cfg_kept::{SharedKept, SharedPass};
    pub use cfg_sharing::{Called, ShareFault, Shared, share_calls};
    pub use cfg_token::{Finding, SharedAnswer, SharedTokenState};
}

/// Credentials that are held under names, for one caller or for several on threads.
pub mod cache {
    pub use cfg_identity::{
        CacheAnswer, CacheFault, CacheSettings, Held, IdentityCache, Loaded, SharedIdentityCache,
    };
}

/// A call that is made by polls.
pub mod run {
    pub use cfg_run::{RegionRun, RegionStep, Run, Step};
}

/// Whether a journal can be that of a call.
pub mod explain {
    pub use cfg_explain::replaying::replay;
    pub use cfg_explain::{
        Answering, PassedOver, Reasons, Replay, Verdict, check, own_part, owners, reasons_of,
        subject_of,
    };
}

/// A local endpoint for tests.
pub mod endpoint {
    pub use cfg_endpoint::{Endpoint, EndpointDevices, EndpointFault, Served};
}

/// What an error comes of.
pub mod error_report {
    pub use cfg_error_report::{CauseLine, Causes, LineKind, causes_of, token_causes_of};
}
