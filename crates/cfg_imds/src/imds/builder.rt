//! How a client is set up.
ghost use Rattle.std.specs.Prelude.{◌≡◌, ◌≢◌, IfOk, IfErr, Some as some, false};
ghost use Rattle.cfg_base.specs.Text.{characters};
ghost use Rattle.cfg_types.specs.declared.errors.imds.BuildError.TheVariants as build_error;
ghost use Rattle.cfg_exchange.specs.FullUris.{IsNoUri};
ghost use Rattle.cfg_imds.specs.Uris.{IsUri};
ghost use Rattle.cfg_imds.specs.Defaults.{default_settings as default_settings_of};

use crate::classifier::{BoxedClassifier, Classifier};
use crate::endpoint::endpoint_of;
use crate::imds::client::Client;
use crate::requests::ImdsSettings;
use cfg_exchange::ImdsResponseRetryClassifier;
use cfg_profile::ProviderConfig;
use cfg_types::imds::{BuildError, EndpointMode};
use cfg_types::{OutOfMemory, Text, Timeouts, TryCopy};
use http_uri::{Uri, UriError};
use std::alloc::Global;

// How many seconds a session token lives: the most that IMDSv2 allows.
const DEFAULT_TOKEN_TTL: u64 = 21_600;

const DEFAULT_ATTEMPTS: u32 = 4;

// The limits of time, in milliseconds.
const DEFAULT_CONNECT_TIMEOUT: u64 = 1_000;

const DEFAULT_READ_TIMEOUT: u64 = 1_000;

const DEFAULT_OPERATION_TIMEOUT: u64 = 30_000;

const DEFAULT_OPERATION_ATTEMPT_TIMEOUT: u64 = 10_000;

/// Sets up a client. A setter changes what it is named for, and nothing else.
#[derive(Drop)]
pub struct Builder {
    alloc: Global,
    config: ProviderConfig,
    endpoint: Option<Text>,
    mode: Option<EndpointMode>,
    settings: ImdsSettings,
    classifier: Classifier,
}

pub(crate) fn default_settings() -> ImdsSettings
    ensures { result ≡ default_settings_of }
{
    ImdsSettings {
        ttl_seconds: DEFAULT_TOKEN_TTL,
        max_attempts: DEFAULT_ATTEMPTS,
        timeouts: Timeouts {
            connect_ms: Some(DEFAULT_CONNECT_TIMEOUT),
            read_ms: Some(DEFAULT_READ_TIMEOUT),
            operation_ms: Some(DEFAULT_OPERATION_TIMEOUT),
            attempt_ms: Some(DEFAULT_OPERATION_ATTEMPT_TIMEOUT),
        },
    }
}

pub(crate) fn own_classifier() -> ImdsResponseRetryClassifier
    ensures { result ≡ record { retry_connect_timeouts = false } }
{
    ImdsResponseRetryClassifier::default().with_retry_connect_timeouts(false)
}

// Nothing, where `http_uri` reads the text.
fn check_uri(alloc: Global, text: &str) -> Result<(), BuildError>
    ensures uri { IfOk result (λ _. IsUri text.now) }
    ensures none { IfErr result (λ e. e ≢ build_error.OutOfMemory → IsNoUri text.now) }
    ensures text { IfErr result (λ e. e ≢ build_error.OutOfMemory → e ≡ build_error.InvalidEndpointUri (characters text.now)) }
{
    match Uri::from_str(alloc, text) {
        Ok(_) => Ok(()),
        Err(UriError::Invalid(_)) => {
            let text = Text::of(alloc, text)?;
            Err(BuildError::InvalidEndpointUri(text))
        }
        Err(UriError::OutOfMemory) => Err(BuildError::OutOfMemory),
    }
}

impl Builder {
    ghost use Rattle.cfg_imds.specs.Clients.{rules_of};
    ghost use Rattle.cfg_imds.specs.Setups.{setup_of, default_setup, with_settings, with_limits, IsClient};

    /// A builder with no variables and no profiles, of tokens that live 21,600 seconds, of four
    /// attempts, and of limits of 1,000 milliseconds to connect and to read, 10,000 for each attempt
    /// and 30,000 for all of them. A send that failed is not repeated. `OutOfMemory` where memory runs out.
    pub fn new(alloc: Global) -> Result<Builder, OutOfMemory>
        ensures { IfOk result (λ b. setup_of repeated b ≡ default_setup) }
    {
        Ok(Builder {
            alloc,
            config: ProviderConfig::without_region(alloc)?,
            endpoint: None,
            mode: None,
            settings: default_settings(),
            classifier: Classifier::Own(own_classifier()),
        })
    }

    /// With a copy of this configuration, in place of the one that it had. Its variables and its
    /// selected profile may say where the service is asked. `OutOfMemory` where memory runs out.
    pub fn configure(mut self, config: &ProviderConfig) -> Result<Builder, OutOfMemory>
        ensures { IfOk result (λ b. setup_of repeated b ≡ record (setup_of repeated self) { configuration = config.now }) }
    {
        self.config = config.copy(self.alloc)?;
        Ok(self)
    }

    /// How often a request may be sent in all. 0 is taken as 1.
    pub fn max_attempts(mut self, max_attempts: u32) -> Builder
        ensures { setup_of repeated result ≡ with_settings (λ s. record s { max_attempts = max_attempts }) (setup_of repeated self) }
    {
        self.settings.max_attempts = max_attempts;
        self
    }

    /// Where the service is asked, whatever the configuration says. One without a scheme or an authority is
    /// taken here, and refused by [`Client::usable`].
    ///
    /// # Errors
    ///
    /// - `InvalidEndpointUri`: exactly where `http_uri` does not read the text. It has the text.
    /// - `OutOfMemory` where memory runs out.
    pub fn endpoint(mut self, endpoint: &str) -> Result<Builder, BuildError>
        ensures set { IfOk result (λ b. setup_of repeated b ≡ record (setup_of repeated self) { endpoint = some (characters endpoint.now) }) }
        ensures uri { IfOk result (λ _. IsUri endpoint.now) }
        ensures none { IfErr result (λ e. e ≢ build_error.OutOfMemory → IsNoUri endpoint.now) }
        ensures text { IfErr result (λ e. e ≢ build_error.OutOfMemory → e ≡ build_error.InvalidEndpointUri (characters endpoint.now)) }
    {
        check_uri(self.alloc, endpoint)?;
        self.endpoint = Some(Text::of(self.alloc, endpoint)?);
        Ok(self)
    }

    /// The mode, whatever the configuration says. It counts where no endpoint is given or set.
    pub fn endpoint_mode(mut self, mode: EndpointMode) -> Builder
        ensures { setup_of repeated result ≡ record (setup_of repeated self) { mode = some mode } }
    {
        self.mode = Some(mode);
        self
    }

    /// How many seconds a session token is to live. IMDSv2 allows 21,600 at most; that is not tested here.
    pub fn token_ttl(mut self, ttl_seconds: u64) -> Builder
        ensures { setup_of repeated result ≡ with_settings (λ s. record s { ttl_seconds = ttl_seconds }) (setup_of repeated self) }
    {
        self.settings.ttl_seconds = ttl_seconds;
        self
    }

    /// The limit of time to connect, in milliseconds.
    pub fn connect_timeout(mut self, connect_ms: u64) -> Builder
        ensures { setup_of repeated result ≡ with_settings (with_limits (λ t. record t { connect_ms = some connect_ms })) (setup_of repeated self) }
    {
        self.settings.timeouts.connect_ms = Some(connect_ms);
        self
    }

    /// The limit of time to read, in milliseconds.
    pub fn read_timeout(mut self, read_ms: u64) -> Builder
        ensures { setup_of repeated result ≡ with_settings (with_limits (λ t. record t { read_ms = some read_ms })) (setup_of repeated self) }
    {
        self.settings.timeouts.read_ms = Some(read_ms);
        self
    }

    /// The limit of time of all attempts at a request, in milliseconds.
    pub fn operation_timeout(mut self, operation_ms: u64) -> Builder
        ensures { setup_of repeated result ≡ with_settings (with_limits (λ t. record t { operation_ms = some operation_ms })) (setup_of repeated self) }
    {
        self.settings.timeouts.operation_ms = Some(operation_ms);
        self
    }

    /// The limit of time of each attempt, in milliseconds.
    pub fn operation_attempt_timeout(mut self, attempt_ms: u64) -> Builder
        ensures { setup_of repeated result ≡ with_settings (with_limits (λ t. record t { attempt_ms = some attempt_ms })) (setup_of repeated self) }
    {
        self.settings.timeouts.attempt_ms = Some(attempt_ms);
        self
    }

    /// Which attempts are repeated, in place of the client's own rule.
    pub fn retry_classifier(mut self, classifier: BoxedClassifier) -> Builder
        ensures { setup_of repeated result ≡ record (setup_of repeated self) { repeats = repeated classifier } }
    {
        self.classifier = Classifier::Boxed(classifier);
        self
    }

    /// The client. Where it asks is read from the configuration now, and nothing is asked for it. An
    /// endpoint or a mode that cannot be used is refused by [`Client::usable`], not here. `OutOfMemory`
    /// where memory runs out.
    pub fn build(self) -> Result<Client, OutOfMemory>
        ensures { IfOk result (λ client. IsClient (setup_of repeated self) (rules_of repeated client)) }
    {
        let endpoint = endpoint_of(self.alloc, &self.config, &self.endpoint, self.mode)?;
        Ok(Client::of(self.alloc, endpoint, self.settings, self.classifier))
    }
}
