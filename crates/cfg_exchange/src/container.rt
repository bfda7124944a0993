//! Credentials of a container, as the agents of Amazon ECS and EKS give them.
ghost use Rattle.std.specs.Prelude.{◌≡◌, IfOk, IfSome, option_map};
ghost use Rattle.cfg_base.specs.Text.{characters};
ghost use Rattle.cfg_world.specs.Follows.{Follows};
ghost use Rattle.cfg_exchange.specs.Attempts.{outcome_of};
ghost use Rattle.cfg_exchange.specs.Documents.{body_document as body_document_of};
ghost use Rattle.cfg_exchange.specs.Readings.{IsReadOf};
ghost use Rattle.cfg_exchange.specs.Containers.{checked_token as checked_token_of, token_of_file as token_of_file_of, token_of_bytes as token_of_bytes_of, auth_token as auth_token_of, IsRelativeAt, IsFullAt, IsContainerUri, or_full_uri as or_full_uri_of, container_target, said_keys as said_keys_of, reply_keys as reply_keys_of, answer_keys as answer_keys_of, credentials_request, credentials_attempts, attempt_limit as attempt_limit_of, fetched_keys, container as container_of, FollowsContainer};

use crate::attempts::exchange_and_read;
use crate::classify::HttpCredentialRetryClassifier;
use crate::documents::{Said, body_document};
use crate::full_uri::{FullUri, read_full_uri};
use crate::header_value::is_header_value;
use crate::reading::{ReplyKind, is_success};
use crate::target::{Target, relative_target};
use cfg_json::JsonCredentials;
use cfg_types::{
    AccountId, AwsCredentialFeature, Bytes, ConfigCause, Credentials, CredentialsBuilder,
    CredentialsError, Env, FailKind, Http, HttpReply, InvalidFullUriError, NotLoadedCause,
    OutOfMemory, ProviderCause, Reply, Request, Seq, Text, Timeouts, TryCopy, UnhandledCause,
};
use cfg_world::{Answer, Asking, Receipt, Stop, read_file};
use std::alloc::Global;

/// The limit of time to connect, where none is set, in milliseconds.
pub const DEFAULT_CONNECT_TIMEOUT: u64 = 2_000;

/// The limit of time to read, where none is set, in milliseconds.
pub const DEFAULT_READ_TIMEOUT: u64 = 5_000;

// As many attempts as `RetryConfig::standard()` has, by which the provider of aws-config retries.
const STANDARD_ATTEMPTS: u32 = 3;

/// How a container's credentials are asked for.
#[derive(Clone, Copy, Debug, PartialEq, Eq)]
pub struct ContainerSettings {
    /// Whether names of hosts can be looked up.
    pub dns: bool,
    /// Whether it is known how to wait between two attempts. With it there are three attempts at most,
    /// without it there is one.
    pub sleep: bool,
    /// The limit of time to connect, in milliseconds.
    pub connect_ms: u64,
    /// The limit of time to read, in milliseconds.
    pub read_ms: u64,
}

impl ContainerSettings {
    ghost use Rattle.cfg_exchange.specs.Containers.{default_container};

    /// The settings with the default limits of time: 2,000 milliseconds to connect, and 5,000 to read.
    pub fn new(dns: bool, sleep: bool) -> ContainerSettings
        ensures { result ≡ default_container dns sleep }
    {
        ContainerSettings {
            dns,
            sleep,
            connect_ms: DEFAULT_CONNECT_TIMEOUT,
            read_ms: DEFAULT_READ_TIMEOUT,
        }
    }
}

/// Where the variables say that a container's credentials are.
pub enum ContainerUri {
    /// They do not say it.
    NotSet,
    /// At this target of the agent of Amazon ECS.
    Relative(Target),
    /// At this relative address, which is no URI.
    NoRelative(Text),
    /// At this full address, with what it names.
    Full { uri: Text, named: FullUri },
}

impl Drop for ContainerUri {
    fn drop(self) {
        match self {
            ContainerUri::NotSet => {}
            ContainerUri::Relative(_) => {}
            ContainerUri::NoRelative(_) => {}
            ContainerUri::Full { uri: _, named: _ } => {}
        }
    }
}

impl TryCopy for ContainerUri {
    fn copy(&self, alloc: Global) -> Result<ContainerUri, OutOfMemory> {
        Ok(match self {
            ContainerUri::NotSet => ContainerUri::NotSet,
            ContainerUri::Relative(target) => ContainerUri::Relative(target.copy(alloc)?),
            ContainerUri::NoRelative(text) => ContainerUri::NoRelative(text.copy(alloc)?),
            ContainerUri::Full { uri, named } => ContainerUri::Full {
                uri: uri.copy(alloc)?,
                named: named.copy(alloc)?,
            },
        })
    }
}

fn checked_token(bytes: Bytes) -> Result<Option<Bytes>, CredentialsError>
    ensures { result ≡ checked_token_of bytes }
{
    if is_header_value(bytes.as_slice()) {
        return Ok(Some(bytes));
    }
    let cause = ConfigCause::AuthToken;
    Err(CredentialsError::InvalidConfiguration(cause))
}

fn token_of_file(
    alloc: Global,
    path: &str,
    held: Result<Bytes, FailKind>,
) -> Result<Result<Option<Bytes>, CredentialsError>, OutOfMemory>
    ensures { IfOk result (λ token. token ≡ token_of_file_of (characters path.now) held) }
{
    match held {
        Ok(bytes) => Ok(checked_token(bytes)),
        Err(_) => {
            let path = Text::of(alloc, path)?;
            Ok(Err(CredentialsError::ProviderError(ProviderCause::File(path))))
        }
    }
}

fn token_of_text(
    alloc: Global,
    text: Option<&str>,
) -> Result<Result<Option<Bytes>, CredentialsError>, OutOfMemory>
    ensures { IfOk result (λ token. token ≡ token_of_bytes_of (option_map (λ t. t.now) text.entry)) }
{
    match text {
        None => Ok(Ok(None)),
        Some(text) => {
            let bytes = Bytes::of(alloc, text.as_bytes())?;
            Ok(checked_token(bytes))
        }
    }
}

// The token that is sent, or none.
#[tactic(auto, using(crate::proofs::ContainerSteps::token_steps))]
fn auth_token<A: Asking>(
    alloc: Global,
    env: &Env,
    asking: &mut A,
) -> Result<Result<Option<Bytes>, CredentialsError>, Stop>
    ensures { Follows ⟦<A as Asking>⟧ (auth_token_of env.now) asking.old asking.new result }
{
    match env.readable("AWS_CONTAINER_AUTHORIZATION_TOKEN_FILE") {
        Some(path) => {
            let asked = Text::of(alloc, path)?;
            let held = read_file(alloc, &asked, asking)?;
            let token = token_of_file(alloc, path, held)?;
            Ok(token)
        }
        None => {
            let text = env.readable("AWS_CONTAINER_AUTHORIZATION_TOKEN");
            let token = token_of_text(alloc, text)?;
            Ok(token)
        }
    }
}

fn relative_uri(alloc: Global, text: &str) -> Result<ContainerUri, OutOfMemory>
    ensures { IfOk result (IsRelativeAt text.now (characters text.now)) }
{
    match relative_target(alloc, text)? {
        Some(target) => Ok(ContainerUri::Relative(target)),
        None => {
            let text = Text::of(alloc, text)?;
            Ok(ContainerUri::NoRelative(text))
        }
    }
}

fn full_uri(alloc: Global, text: &str) -> Result<ContainerUri, OutOfMemory>
    ensures { IfOk result (IsFullAt text.now (characters text.now)) }
{
    let named = read_full_uri(alloc, text)?;
    let uri = Text::of(alloc, text)?;
    Ok(ContainerUri::Full { uri, named })
}

/// Where the variables say that a container's credentials are: at the relative address of
/// `AWS_CONTAINER_CREDENTIALS_RELATIVE_URI`, else at the full one of
/// `AWS_CONTAINER_CREDENTIALS_FULL_URI`. A variable that is not Unicode counts as one that is not set, an
/// empty one as set. Whether the address may be asked is not looked at, and nothing is asked.
/// `OutOfMemory` where memory runs out.
pub fn container_uri(alloc: Global, env: &Env) -> Result<ContainerUri, OutOfMemory>
    ensures { IfOk result (IsContainerUri env.now) }
{
    if let Some(text) = env.readable("AWS_CONTAINER_CREDENTIALS_RELATIVE_URI") {
        return relative_uri(alloc, text);
    }
    match env.readable("AWS_CONTAINER_CREDENTIALS_FULL_URI") {
        Some(text) => full_uri(alloc, text),
        None => Ok(ContainerUri::NotSet),
    }
}

fn or_full_uri(
    uri: Text,
    checked: Result<Target, InvalidFullUriError>,
) -> Result<Target, CredentialsError>
    ensures { result ≡ or_full_uri_of uri checked }
{
    match checked {
        Ok(target) => Ok(target),
        Err(error) => {
            let cause = ConfigCause::FullUri { error, uri };
            Err(CredentialsError::InvalidConfiguration(cause))
        }
    }
}

impl ContainerUri {
    // The target, or why there is none.
    #[tactic(auto, using(cfg_world::proofs::Inquiries::asking_steps), unfolding(crate::specs::Containers::container_target))]
    fn into_target<A: Asking>(
        self,
        alloc: Global,
        dns: bool,
        asking: &mut A,
    ) -> Result<Result<Target, CredentialsError>, Stop>
        ensures { Follows ⟦<A as Asking>⟧ (container_target dns self) asking.old asking.new result }
    {
        match self {
            ContainerUri::NotSet => {
                let cause = NotLoadedCause::NotConfigured;
                Ok(Err(CredentialsError::CredentialsNotLoaded(cause)))
            }
            ContainerUri::Relative(target) => Ok(Ok(target)),
            ContainerUri::NoRelative(text) => {
                let cause = ConfigCause::RelativeUri(text);
                Ok(Err(CredentialsError::InvalidConfiguration(cause)))
            }
            ContainerUri::Full { uri, named } => {
                let checked = named.into_target(alloc, dns, asking)?;
                let outcome = or_full_uri(uri, checked);
                Ok(outcome)
            }
        }
    }
}

fn account_of(alloc: Global, account: &Option<Text>) -> Result<Option<AccountId>, OutOfMemory>
    ensures { IfOk result (λ id. id ≡ account.now) }
{
    match account {
        None => Ok(None),
        Some(account) => {
            let account = AccountId::new(alloc, account.as_str())?;
            Ok(Some(account))
        }
    }
}

// Credentials of a document, or why it gives none.
fn said_keys(
    alloc: Global,
    said: Said,
) -> Result<Result<Credentials, CredentialsError>, OutOfMemory>
    ensures { IfOk result (λ keys. keys ≡ said_keys_of said) }
{
    match said {
        Ok(
            JsonCredentials::RefreshableCredentials {
                access_key_id,
                secret_access_key,
                session_token,
                account_id,
                expiration,
            },
        ) => {
            let account = account_of(alloc, &account_id)?;
            let origin = Seq::of_slice(alloc, &[AwsCredentialFeature::CredentialsHttp])?;
            let mut builder = CredentialsBuilder::of_keys(
                alloc,
                access_key_id,
                secret_access_key,
                "EcsContainer",
            )?;
            builder
                .set_session_token(Some(session_token))
                .set_expiry(Some(expiration))
                .set_account_id(account);
            let credentials = builder.features(origin).build()?;
            Ok(Ok(credentials))
        }
        Ok(JsonCredentials::Error { code, message }) => {
            let cause = ProviderCause::ErrorDocument { code, message };
            Ok(Err(CredentialsError::ProviderError(cause)))
        }
        Err(cause) => Ok(Err(CredentialsError::Unhandled(cause))),
    }
}

// What a reply's document says, which is read where it was not read before.
fn or_read(alloc: Global, reply: &HttpReply, said: Option<Said>) -> Result<Said, OutOfMemory>
    requires { IfSome said (λ said. said ≡ body_document_of reply.now.body) }
    ensures { IfOk result (λ said. said ≡ body_document_of reply.now.body) }
{
    match said {
        Some(said) => Ok(said),
        None => body_document(alloc, reply.body.as_slice()),
    }
}

// What a reply gives.
#[tactic(auto, unfolding(crate::specs::Containers::reply_keys))]
fn reply_keys(
    alloc: Global,
    reply: &HttpReply,
    said: Option<Said>,
) -> Result<Result<Credentials, CredentialsError>, OutOfMemory>
    requires { IfSome said (λ said. said ≡ body_document_of reply.now.body) }
    ensures { IfOk result (λ keys. keys ≡ reply_keys_of reply.now) }
{
    if !is_success(reply.status) {
        let cause = ProviderCause::Status(reply.status);
        return Ok(Err(CredentialsError::ProviderError(cause)));
    }
    let said = or_read(alloc, reply, said)?;
    said_keys(alloc, said)
}

// What the answer to the last attempt gives. An answer of another kind never comes.
#[tactic(auto, unfolding(crate::specs::Containers::answer_keys))]
fn answer_keys(
    alloc: Global,
    answer: &Answer,
    said: Option<Said>,
) -> Result<Result<Credentials, CredentialsError>, OutOfMemory>
    requires { IsReadOf answer.now said }
    ensures { IfOk result (λ keys. keys ≡ answer_keys_of answer.now) }
{
    let kind = match answer {
        Answer::Replied(Reply::Http(reply)) => return reply_keys(alloc, reply, said),
        Answer::Failed(kind) => *kind,
        _ => FailKind::Io,
    };
    Ok(Err(CredentialsError::Unhandled(UnhandledCause::Sent(kind))))
}

fn request(settings: &ContainerSettings, token: Option<Bytes>, target: Target) -> Http
    ensures { result ≡ credentials_request settings.now token target }
{
    let (endpoint, path) = target.into_parts();
    Http {
        endpoint,
        path,
        authorization: token,
        timeouts: Timeouts {
            connect_ms: Some(settings.connect_ms),
            read_ms: Some(settings.read_ms),
            operation_ms: None,
            attempt_ms: None,
        },
    }
}

fn attempt_limit(sleep: bool) -> u32
    ensures { result ≡ attempt_limit_of sleep }
{
    if sleep { STANDARD_ATTEMPTS } else { 1 }
}

// The attempts of the request, and what the last reply's document says, where they read it.
fn attempt<A: Asking>(
    alloc: Global,
    settings: &ContainerSettings,
    call: Http,
    asking: &mut A,
) -> Result<(Receipt, Option<Said>), Stop>
    ensures follows { Follows ⟦<A as Asking>⟧ (credentials_attempts settings.now call) asking.old asking.new (outcome_of result) }
    ensures said { IfOk result (λ x. IsReadOf x.0.1 x.1) }
{
    let request = Request::Http(call);
    let limit = attempt_limit(settings.sleep);
    let classifier = HttpCredentialRetryClassifier;
    exchange_and_read(
        alloc,
        &request,
        limit,
        ReplyKind::Document,
        &classifier,
        asking,
    )
}

// What the attempts give.
#[tactic(auto, using(crate::proofs::ContainerSteps::fetch_steps))]
fn fetch_keys<A: Asking>(
    alloc: Global,
    settings: &ContainerSettings,
    token: Option<Bytes>,
    target: Target,
    asking: &mut A,
) -> Result<Result<Credentials, CredentialsError>, Stop>
    ensures { Follows ⟦<A as Asking>⟧ (fetched_keys settings.now token target) asking.old asking.new result }
{
    let call = request(settings, token, target);
    let (receipt, said) = attempt(alloc, settings, call, asking)?;
    let outcome = answer_keys(alloc, receipt.entry().answer(), said)?;
    Ok(outcome)
}

/// The credentials, where it is known what the variables name (`container_uri`), as
/// [`container_credentials`] gives them, with its errors.
#[tactic(auto, using(cfg_world::proofs::Inquiries::asking_steps))]
pub fn follow_container<A: Asking>(
    alloc: Global,
    env: &Env,
    settings: &ContainerSettings,
    named: &ContainerUri,
    asking: &mut A,
) -> Result<Result<Credentials, CredentialsError>, Stop>
    ensures { Follows ⟦<A as Asking>⟧ (container_of env.now settings.now named.now) asking.old asking.new result }
{
    let named = named.copy(alloc)?;
    follow_uri(alloc, env, settings, named, asking)
}

#[tactic(auto, using(crate::proofs::ContainerSteps::container_steps))]
fn follow_uri<A: Asking>(
    alloc: Global,
    env: &Env,
    settings: &ContainerSettings,
    named: ContainerUri,
    asking: &mut A,
) -> Result<Result<Credentials, CredentialsError>, Stop>
    ensures { Follows ⟦<A as Asking>⟧ (container_of env.now settings.now named) asking.old asking.new result }
{
    let token = match auth_token(alloc, env, asking)? {
        Ok(token) => token,
        Err(error) => return Ok(Err(error)),
    };
    let target = match named.into_target(alloc, settings.dns, asking)? {
        Ok(target) => target,
        Err(error) => return Ok(Err(error)),
    };
    let outcome = fetch_keys(alloc, settings, token, target, asking)?;
    Ok(outcome)
}

/// The credentials that a container's agent gives (Amazon ECS and EKS), by the provider's name
/// `EcsContainer`.
///
/// The token that is sent is what the file holds that `AWS_CONTAINER_AUTHORIZATION_TOKEN_FILE` names,
/// else `AWS_CONTAINER_AUTHORIZATION_TOKEN`, else none. It is read and looked at before anything else is
/// asked. The address is that of `AWS_CONTAINER_CREDENTIALS_RELATIVE_URI`, else that of
/// `AWS_CONTAINER_CREDENTIALS_FULL_URI`. There are three attempts at most, or one without a way to wait
/// between them; the last answer decides.
///
/// # Errors
///
/// - `ProviderError(File)`: the token's file cannot be read. It has the path.
/// - `InvalidConfiguration(AuthToken)`: the token is no header value.
/// - `CredentialsNotLoaded(NotConfigured)`: the token is fine or not set, and neither address is set.
/// - `InvalidConfiguration(RelativeUri)`: the relative address is no URI. It has the text.
/// - `InvalidConfiguration(FullUri)`: the full address is refused. It has the text, and the error of
///   `validate_full_uri`.
/// - `Unhandled(Sent)`: the last attempt was not answered.
/// - `ProviderError(Status)`, `ProviderError(ErrorDocument)`, `Unhandled(NotUtf8)`,
///   `Unhandled(NoDocument)`: its reply has no status of success, or tells of an error, or is not UTF-8,
///   or is no document.
///
/// Memory that runs out is a stop. The journal then has gained the beginning of such a part.
pub fn container_credentials<A: Asking>(
    alloc: Global,
    env: &Env,
    settings: &ContainerSettings,
    asking: &mut A,
) -> Result<Result<Credentials, CredentialsError>, Stop>
    ensures { FollowsContainer ⟦<A as Asking>⟧ env.now settings.now asking.old asking.new result }
{
    let named = container_uri(alloc, env)?;
    follow_uri(alloc, env, settings, named, asking)
}
