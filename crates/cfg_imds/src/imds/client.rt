//! The client of the instance metadata service.
ghost use Rattle.std.specs.Prelude.{◌≡◌, IfOk, OnErr, true, false, None as none};
ghost use Rattle.std.specs.Result.{result_err};
ghost use Rattle.cfg_world.specs.Follows.{Follows};
ghost use Rattle.cfg_imds.specs.Calls.{or_memory as or_memory_of};
ghost use Rattle.cfg_imds.specs.Clients.{rules_of, settle, fetch, fetch_text as fetch_text_of, get, place_of, endpoint_fault as endpoint_fault_of, path_fault as path_fault_of, why_unusable};
ghost use Rattle.cfg_imds.specs.Fetches.{is_get, entry_fault};
ghost use Rattle.cfg_imds.specs.Left.{LeftBy};
ghost use Rattle.cfg_imds.specs.Settles.{FollowsKept};
ghost use Rattle.cfg_imds.specs.Setups.{client_of};
ghost use Rattle.cfg_imds.specs.Tokens.{bare_kept};

use crate::classifier::Classifier;
use crate::endpoint::{Endpoint, endpoint_of};
use crate::fetch::{entry_text, fetch_at};
use crate::imds::builder::{Builder, default_settings, own_classifier};
use crate::path::is_path;
use crate::requests::ImdsSettings;
use crate::settle::settle_at;
use crate::state::ImdsTokenState;
use crate::token::MetadataToken;
use cfg_exchange::ClassifyRetry;
use cfg_profile::ProviderConfig;
use cfg_types::imds::{BuildError, ImdsError, InvalidEndpointMode, UnexpectedCause};
use cfg_types::{Bytes, OutOfMemory, SensitiveString, Text, TryCopy};
use cfg_world::{Asking, Devices, Receipt, Stop, World};
use std::alloc::Global;

/// A client of the instance metadata service. It is lent to each call, and keeps nothing between them:
/// the session token is kept by the caller.
#[derive(Drop)]
pub struct Client {
    alloc: Global,
    endpoint: Endpoint,
    settings: ImdsSettings,
    classifier: Classifier,
}

// The text of an endpoint, whatever it is.
fn place(endpoint: &Endpoint) -> &Text
    ensures { result.now ≡ place_of endpoint.now }
{
    match endpoint {
        Endpoint::At(text) => text,
        Endpoint::NoUri(text) => text,
        Endpoint::NoMode(text) => text,
    }
}

fn endpoint_fault(
    alloc: Global,
    endpoint: &Endpoint,
) -> Result<Option<UnexpectedCause>, OutOfMemory>
    ensures { IfOk result (λ fault. fault ≡ endpoint_fault_of endpoint.now) }
{
    let error = match endpoint {
        Endpoint::At(_) => return Ok(None),
        Endpoint::NoUri(text) => BuildError::InvalidEndpointUri(text.copy(alloc)?),
        Endpoint::NoMode(text) => {
            let mode = InvalidEndpointMode::Mode(text.copy(alloc)?);
            BuildError::InvalidEndpointMode(mode)
        }
    };
    Ok(Some(UnexpectedCause::Endpoint(error)))
}

fn path_fault(alloc: Global, path: &str) -> Result<Option<UnexpectedCause>, OutOfMemory>
    ensures { IfOk result (λ fault. fault ≡ path_fault_of path.now) }
{
    if is_path(alloc, path)? {
        return Ok(None);
    }
    let path = Text::of(alloc, path)?;
    Ok(Some(UnexpectedCause::Path(path)))
}

// Why a path is not asked for at this endpoint.
#[tactic(auto, unfolding(crate::specs::Clients::why_unusable))]
fn fault(
    alloc: Global,
    endpoint: &Endpoint,
    path: &str,
) -> Result<Option<UnexpectedCause>, OutOfMemory>
    ensures { IfOk result (λ fault. fault ≡ why_unusable endpoint.now path.now) }
{
    match path_fault(alloc, path)? {
        Some(cause) => Ok(Some(cause)),
        None => endpoint_fault(alloc, endpoint),
    }
}

// The outcome of a call, or that memory ran out.
fn or_memory<T>(outcome: Result<Result<T, ImdsError>, Stop>) -> Result<T, ImdsError>
    ensures { result ≡ or_memory_of outcome }
{
    match outcome {
        Ok(answer) => answer,
        Err(_) => Err(ImdsError::OutOfMemory),
    }
}

/// The client that asks at this endpoint, with nothing else set. It is for a call that needs a client of its
/// own: a provider keeps the endpoint, and makes the client within each call.
pub fn client_at(alloc: Global, endpoint: Endpoint) -> Client
    ensures { rules_of repeated result ≡ client_of endpoint }
{
    let classifier = Classifier::Own(own_classifier());
    Client::of(alloc, endpoint, default_settings(), classifier)
}

/// The body of [`Client::settle`], over anything that can be asked. After a stop what is kept is as it
/// was. Whether the endpoint can be used is not looked at.
pub fn follow_settle<A: Asking>(
    client: &Client,
    kept: &mut Option<MetadataToken>,
    asking: &mut A,
) -> Result<Result<Bytes, ImdsError>, Stop>
    ensures follows { FollowsKept ⟦<A as Asking>⟧
        (settle (rules_of repeated client.now) (bare_kept kept.old))
        asking.old asking.new (bare_kept kept.new) result }
    ensures stays { OnErr result (kept.new ≡ kept.old) }
{
    settle_at(
        client.alloc,
        &client.settings,
        &client.classifier,
        place(&client.endpoint),
        kept,
        asking,
    )
}

/// The body of [`Client::fetch`], over anything that can be asked. Whether the path and the endpoint can
/// be used is not looked at.
pub fn follow_fetch<A: Asking>(
    client: &Client,
    path: &str,
    token: &Bytes,
    asking: &mut A,
) -> Result<Result<Receipt, ImdsError>, Stop>
    ensures follows { Follows ⟦<A as Asking>⟧ (fetch (rules_of repeated client.now) path.now token.now) asking.old asking.new result }
    ensures get { IfOk result (λ r. IfOk r (λ e. is_get e.0 ≡ true)) }
    ensures fine { IfOk result (λ r. IfOk r (λ e. entry_fault e ≡ none)) }
{
    fetch_at(
        client.alloc,
        &client.settings,
        &client.classifier,
        place(&client.endpoint),
        path,
        token,
        asking,
    )
}

// The text that stands at a path.
#[tactic(auto, using(crate::proofs::SaidSteps::said_steps), unfolding(crate::specs::Clients::fetch_text))]
fn fetch_text<A: Asking>(
    client: &Client,
    path: &str,
    token: &Bytes,
    asking: &mut A,
) -> Result<Result<SensitiveString, ImdsError>, Stop>
    ensures { Follows ⟦<A as Asking>⟧ (fetch_text_of (rules_of repeated client.now) path.now token.now) asking.old asking.new result }
{
    match follow_fetch(client, path, token, asking)? {
        Ok(receipt) => {
            let text = entry_text(client.alloc, &receipt)?;
            Ok(Ok(SensitiveString::from_text(text)))
        }
        Err(error) => Ok(Err(error)),
    }
}

/// The body of [`Client::get`], over anything that can be asked. After a stop what is kept is as it
/// was, or as the settle left it, where that had come to its end.
#[tactic(auto, using(crate::proofs::SaidSteps::said_steps, crate::proofs::LeftKept::left_alone), unfolding(crate::specs::Clients::get))]
pub fn follow_get<A: Asking>(
    client: &Client,
    kept: &mut Option<MetadataToken>,
    path: &str,
    asking: &mut A,
) -> Result<Result<SensitiveString, ImdsError>, Stop>
    ensures follows { FollowsKept ⟦<A as Asking>⟧
        (get (rules_of repeated client.now) (bare_kept kept.old) path.now)
        asking.old asking.new (bare_kept kept.new) result }
    ensures left { OnErr result (LeftBy ⟦<A as Asking>⟧ (rules_of repeated client.now) asking.old asking.new kept.old kept.new) }
{
    if let Some(cause) = fault(client.alloc, &client.endpoint, path)? {
        return Ok(Err(ImdsError::Unexpected(cause)));
    }
    let token = match follow_settle(client, kept, asking)? {
        Ok(token) => token,
        Err(error) => return Ok(Err(error)),
    };
    let outcome = fetch_text(client, path, &token, asking)?;
    Ok(outcome)
}

impl Client {
    ghost use Rattle.cfg_imds.specs.Calls.{is_memory};
    ghost use Rattle.cfg_imds.specs.Classifiers.{repeated_by};
    ghost use Rattle.cfg_imds.specs.ClientCalls.{Settles, SettleBreaks, Fetches, FetchBreaks, Gets, GetBreaks};
    ghost use Rattle.cfg_imds.specs.Clients.{usable_error};
    ghost use Rattle.cfg_imds.specs.Requests.{service};
    ghost use Rattle.cfg_imds.specs.Setups.{setup_of, default_setup, configured, IsClient};

    pub(crate) fn of(
        alloc: Global,
        endpoint: Endpoint,
        settings: ImdsSettings,
        classifier: Classifier,
    ) -> Client
        ensures { rules_of repeated result ≡ record { endpoint = endpoint; service = service settings (repeated_by repeated classifier) } }
    {
        Client {
            alloc,
            endpoint,
            settings,
            classifier,
        }
    }

    /// The allocator that the client takes memory from.
    pub fn alloc(&self) -> Global {
        self.alloc
    }

    /// A builder of a client, as [`Builder::new`] says. `OutOfMemory` where memory runs out.
    pub fn builder(alloc: Global) -> Result<Builder, OutOfMemory>
        ensures { IfOk result (λ b. setup_of repeated b ≡ default_setup) }
    {
        Builder::new(alloc)
    }

    /// The client of a configuration, with nothing else set. Where it asks is read from the configuration
    /// now, and nothing is asked for it. `OutOfMemory` where memory runs out.
    pub fn configured(alloc: Global, config: &ProviderConfig) -> Result<Client, OutOfMemory>
        ensures { IfOk result (λ client. IsClient (configured config.now) (rules_of repeated client)) }
    {
        let endpoint = endpoint_of(alloc, config, &None, None)?;
        Ok(client_at(alloc, endpoint))
    }

    /// Whether a path may be asked for: it begins with `/`, `http_uri` reads it, and the client's
    /// endpoint is a URI with a scheme and an authority. Nothing is asked.
    ///
    /// # Errors
    ///
    /// - `Unexpected(Path)`: the path is none. It has the path.
    /// - `Unexpected(Endpoint)`: the path is fine, and the endpoint is no URI with a scheme and an
    ///   authority, or the text that was to name its mode names none. It has that text.
    /// - `OutOfMemory` where memory runs out.
    #[tactic(auto, using(crate::proofs::LeftKept::usable_endpoint))]
    pub fn usable(&self, path: &str) -> Result<(), ImdsError>
        ensures usable { is_memory result ≡ false → result_err result ≡ usable_error (rules_of repeated self.now) path.now }
        ensures path { IfOk result (λ _. why_unusable (rules_of repeated self.now).endpoint path.now ≡ none) }
        ensures endpoint { IfOk result (λ _. endpoint_fault_of (rules_of repeated self.now).endpoint ≡ none) }
    {
        match fault(self.alloc, &self.endpoint, path) {
            Ok(None) => Ok(()),
            Ok(Some(cause)) => Err(ImdsError::Unexpected(cause)),
            Err(_) => Err(ImdsError::OutOfMemory),
        }
    }

    /// A session token of IMDSv2: the kept one while more than 120 seconds of it are left, else a new one,
    /// which is kept in its place. The clock is read first, and once more after the reply to the token
    /// request. Where that gives no token none is kept. The endpoint has to be one that can be used, as
    /// [`Self::usable`] says.
    ///
    /// # Errors
    ///
    /// - `FailedToLoadToken`: the last reply gives no token, as [`MetadataToken::read`] says.
    /// - `OutOfMemory` where memory runs out. The journal then has gained the beginning of such a part,
    ///   and what is kept is as it was.
    pub fn settle<D: Devices>(
        &self,
        state: &mut ImdsTokenState,
        world: &mut World<D>,
    ) -> Result<Bytes, ImdsError>
        requires { endpoint_fault_of (rules_of repeated self.now).endpoint ≡ none }
        ensures settles { is_memory result ≡ false → Settles ⟦<D as Devices>⟧ (rules_of repeated self.now) state.old world.old world.new result state.new }
        ensures memory { is_memory result ≡ true → SettleBreaks ⟦<D as Devices>⟧ (rules_of repeated self.now) state.old world.old world.new }
        ensures stays { is_memory result ≡ true → state.new ≡ state.old }
    {
        let outcome = follow_settle(self, &mut state.kept, world);
        or_memory(outcome)
    }

    /// The receipt of what stands at a path, with this session token: a success whose body is UTF-8.
    /// It is asked for in attempts, all with this token, and the last answer decides. The path and the
    /// endpoint have to be usable, as [`Self::usable`] says.
    ///
    /// # Errors
    ///
    /// - `ErrorResponse`: the reply has no status of success. It has the reply.
    /// - `Unexpected(NotUtf8)`: its body is not UTF-8.
    /// - `Unexpected(Dispatch)`: the request could not be sent.
    /// - `IoError`: it failed in another way, as where it was not answered in time, or the answer was
    ///   broken. It has the kind of failure.
    /// - `OutOfMemory` where memory runs out. The journal then has gained the beginning of such a part.
    pub fn fetch<D: Devices>(
        &self,
        token: &Bytes,
        world: &mut World<D>,
        path: &str,
    ) -> Result<Receipt, ImdsError>
        requires { why_unusable (rules_of repeated self.now).endpoint path.now ≡ none }
        ensures fetches { is_memory result ≡ false → Fetches ⟦<D as Devices>⟧ (rules_of repeated self.now) path.now token.now world.old world.new result }
        ensures memory { is_memory result ≡ true → FetchBreaks ⟦<D as Devices>⟧ (rules_of repeated self.now) path.now token.now world.old world.new }
        ensures get { IfOk result (λ e. is_get e.0 ≡ true) }
        ensures fine { IfOk result (λ e. entry_fault e ≡ none) }
    {
        let outcome = follow_fetch(self, path, token, world);
        or_memory(outcome)
    }

    /// The text that stands at a path. Nothing is asked where [`Self::usable`] refuses the path. Else a
    /// session token is settled, as [`Self::settle`] says, and then the path is asked for with it. What is
    /// kept then stays kept, whatever the answer for the path, the status 401 included.
    ///
    /// # Errors
    ///
    /// - `Unexpected(Path)`, `Unexpected(Endpoint)`: as [`Self::usable`] says.
    /// - `FailedToLoadToken`: there is no session token, as [`Self::settle`] says.
    /// - `ErrorResponse`, `Unexpected(NotUtf8)`, `Unexpected(Dispatch)`, `IoError`: as [`Self::fetch`]
    ///   says.
    /// - `OutOfMemory` where memory runs out. The journal then has gained the beginning of such a part, and
    ///   what is kept is as it was, or the new token.
    pub fn get<D: Devices>(
        &self,
        state: &mut ImdsTokenState,
        world: &mut World<D>,
        path: &str,
    ) -> Result<SensitiveString, ImdsError>
        ensures gets { is_memory result ≡ false → Gets ⟦<D as Devices>⟧ (rules_of repeated self.now) path.now state.old world.old world.new result state.new }
        ensures memory { is_memory result ≡ true → GetBreaks ⟦<D as Devices>⟧ (rules_of repeated self.now) path.now state.old world.old world.new }
        ensures left { is_memory result ≡ true → LeftBy ⟦<World<D> as Asking>⟧ (rules_of repeated self.now) world.old world.new state.old state.new }
    {
        let outcome = follow_get(self, &mut state.kept, path, world);
        or_memory(outcome)
    }
}
