//! Credentials of a container, as the agents of Amazon ECS and EKS give them.
ghost use Rattle.std.specs.Prelude.{◌≡◌, IfOk, OnErr, true, false};
ghost use Rattle.cfg_world.specs.Follows.{Follows};
ghost use Rattle.cfg_profile.specs.Configuration.{nothing_configured};
ghost use Rattle.cfg_exchange.specs.Containers.{IsContainerUri, FollowsContainer};
ghost use Rattle.cfg_types.specs.Classes.{is_memory};
ghost use Rattle.cfg_providers.specs.ContainerSetups.{container_setup, settings_in, asks_container, ProvidesContainer, InterruptedContainer};

use cfg_exchange::steps::{
    ContainerSettings, ContainerUri, DEFAULT_CONNECT_TIMEOUT, DEFAULT_READ_TIMEOUT,
    container_credentials, container_uri, follow_container,
};
use cfg_profile::ProviderConfig;
use cfg_types::{Credentials, CredentialsError, OutOfMemory, TryCopy};
use cfg_world::{Asking, Devices, Stop, World};
use std::alloc::Global;
use std::marker::Model;

/// Sets up a provider of a container's credentials. Contracts see its configuration, whether it may
/// look up names of hosts, and its limits of time in milliseconds. A setter changes its field alone.
pub struct Builder {
    alloc: Global,
    config: ProviderConfig,
    dns: bool,
    connect_ms: u64,
    read_ms: u64,
}

impl Drop for Builder {
    fn drop(self) {
        let Builder {
            alloc: _,
            config: _,
            dns: _,
            connect_ms: _,
            read_ms: _,
        } = self;
    }
}

impl Model for Builder {
    ghost use Rattle.cfg_providers.specs.ContainerSetups.{ContainerSetup, container_setup_code};

    ghost Value = { ContainerSetup };

    ghost coded = { container_setup_code };

    ghost view = { λ b. record { configuration = b.config; dns = b.dns; connect_ms = b.connect_ms; read_ms = b.read_ms } };
}

impl Builder {
    /// With a copy of this configuration, in place of the one that it had. Its variables say where the
    /// credentials are, and its `sleep_impl` whether there are three attempts at most or one.
    /// `OutOfMemory` where memory runs out.
    pub fn configure(mut self, config: &ProviderConfig) -> Result<Builder, OutOfMemory>
        ensures { IfOk result (λ b. b ≡ record self { configuration = config.now }) }
    {
        self.config = config.copy(self.alloc)?;
        Ok(self)
    }

    /// Whether names of hosts can be looked up. Without that an address that is not HTTPS has to have
    /// an address as its host.
    pub fn dns(mut self, dns: bool) -> Builder
        ensures { result ≡ record self { dns = dns } }
    {
        self.dns = dns;
        self
    }

    /// The limit of time to connect, in milliseconds.
    pub fn connect_timeout(mut self, connect_ms: u64) -> Builder
        ensures { result ≡ record self { connect_ms = connect_ms } }
    {
        self.connect_ms = connect_ms;
        self
    }

    /// The limit of time to read, in milliseconds.
    pub fn read_timeout(mut self, read_ms: u64) -> Builder
        ensures { result ≡ record self { read_ms = read_ms } }
    {
        self.read_ms = read_ms;
        self
    }

    /// The provider. The address is looked at in its calls alone. It takes no memory, and answers no error.
    pub fn build(self) -> Result<EcsCredentialsProvider, OutOfMemory>
        ensures built { IfOk result (λ p. p ≡ self) }
        ensures always { OnErr result ⊥ }
    {
        let Builder {
            alloc,
            config,
            dns,
            connect_ms,
            read_ms,
        } = self;
        Ok(EcsCredentialsProvider {
            alloc,
            config,
            dns,
            connect_ms,
            read_ms,
        })
    }
}

/// Credentials of a container: of the agent of Amazon ECS, or of the address that the environment
/// names. Contracts see its configuration, whether it may look up names of hosts, and its limits of
/// time in milliseconds. It keeps nothing between its calls.
pub struct EcsCredentialsProvider {
    alloc: Global,
    config: ProviderConfig,
    dns: bool,
    connect_ms: u64,
    read_ms: u64,
}

impl Drop for EcsCredentialsProvider {
    fn drop(self) {
        let EcsCredentialsProvider {
            alloc: _,
            config: _,
            dns: _,
            connect_ms: _,
            read_ms: _,
        } = self;
    }
}

impl Model for EcsCredentialsProvider {
    ghost use Rattle.cfg_providers.specs.ContainerSetups.{ContainerSetup, container_setup_code};

    ghost Value = { ContainerSetup };

    ghost coded = { container_setup_code };

    ghost view = { λ p. record { configuration = p.config; dns = p.dns; connect_ms = p.connect_ms; read_ms = p.read_ms } };
}

impl EcsCredentialsProvider {
    /// A builder with no variables, with a resolver for names of hosts, and with limits of 2,000
    /// milliseconds to connect and 5,000 to read. `OutOfMemory` where memory runs out.
    pub fn builder(alloc: Global) -> Result<Builder, OutOfMemory>
        ensures { IfOk result (λ b. b ≡ container_setup (nothing_configured true)) }
    {
        Ok(Builder {
            alloc,
            config: ProviderConfig::without_region(alloc)?,
            dns: true,
            connect_ms: DEFAULT_CONNECT_TIMEOUT,
            read_ms: DEFAULT_READ_TIMEOUT,
        })
    }

    fn settings(&self) -> ContainerSettings
        ensures { result ≡ settings_in self.now }
    {
        ContainerSettings {
            dns: self.dns,
            sleep: self.config.sleep_impl(),
            connect_ms: self.connect_ms,
            read_ms: self.read_ms,
        }
    }

    /// Where the variables of the configuration say that the credentials are. Nothing is asked for it.
    /// `OutOfMemory` where memory runs out.
    pub fn container_uri(&self) -> Result<ContainerUri, OutOfMemory>
        ensures { IfOk result (IsContainerUri self.now.configuration.environment) }
    {
        container_uri(self.alloc, self.config.env())
    }

    /// The body of [`Self::provide_credentials`], over anything that can be asked, where it is known
    /// what the variables name: that of [`Self::container_uri`].
    pub fn follow_named<A: Asking>(
        &self,
        named: &ContainerUri,
        asking: &mut A,
    ) -> Result<Result<Credentials, CredentialsError>, Stop>
        ensures { Follows ⟦<A as Asking>⟧ (asks_container self.now named.now) asking.old asking.new result }
    {
        let settings = self.settings();
        follow_container(self.alloc, self.config.env(), &settings, named, asking)
    }

    /// The body of [`Self::provide_credentials`], over anything that can be asked.
    pub fn follow<A: Asking>(
        &self,
        asking: &mut A,
    ) -> Result<Result<Credentials, CredentialsError>, Stop>
        ensures { FollowsContainer ⟦<A as Asking>⟧ self.now.configuration.environment (settings_in self.now) asking.old asking.new result }
    {
        let settings = self.settings();
        container_credentials(self.alloc, self.config.env(), &settings, asking)
    }

    /// The same as [`Self::provide_credentials`].
    pub fn credentials<D: Devices>(
        &self,
        world: &mut World<D>,
    ) -> Result<Credentials, CredentialsError>
        ensures provides { is_memory result ≡ false → ProvidesContainer ⟦<D as Devices>⟧ self.now world.old world.new result }
        ensures stays { is_memory result ≡ true → InterruptedContainer ⟦<D as Devices>⟧ self.now world.old world.new }
    {
        match self.follow(world) {
            Ok(outcome) => outcome,
            Err(_) => Err(CredentialsError::OutOfMemory),
        }
    }

    /// The credentials that the container's agent gives, by the provider's name `EcsContainer`.
    ///
    /// The token that is sent is what the file of `AWS_CONTAINER_AUTHORIZATION_TOKEN_FILE` holds, else
    /// `AWS_CONTAINER_AUTHORIZATION_TOKEN`, else none. It is read and looked at before anything else.
    /// The address is that of `AWS_CONTAINER_CREDENTIALS_RELATIVE_URI` at 169.254.170.2, else that of
    /// `AWS_CONTAINER_CREDENTIALS_FULL_URI`. A full one that is not HTTPS has to have an allowed
    /// address as its host (127.0.0.0/8, `::1`, 169.254.170.2, 169.254.170.23, fd00:ec2::23), or a name
    /// whose addresses are all allowed; it is looked up in each call. A variable that is not Unicode
    /// counts as one that is not set. There are three attempts at most where it is known how to sleep,
    /// else one; the last answer decides. See [Container credential
    /// provider](https://docs.aws.amazon.com/sdkref/latest/guide/feature-container-credentials.html).
    ///
    /// # Errors
    ///
    /// - `ProviderError(File)`: the token's file could not be read, also where no address is set. It has
    ///   the path.
    /// - `InvalidConfiguration(AuthToken)`: the token is no header value.
    /// - `CredentialsNotLoaded(NotConfigured)`: the token is fine or not set, and neither address is
    ///   set.
    /// - `InvalidConfiguration(RelativeUri)`: the relative address is no URI. It has the text.
    /// - `InvalidConfiguration(FullUri)`: the full address is refused. It has the text, and why
    ///   (`InvalidFullUriError`).
    /// - `Unhandled(Sent)`: the last attempt failed.
    /// - `ProviderError(Status)`: its reply has no status of success.
    /// - `ProviderError(ErrorDocument)`, `Unhandled(NotUtf8)`, `Unhandled(NoDocument)`: its body tells
    ///   of an error, is not UTF-8, or is no document of credentials.
    /// - `OutOfMemory` where memory runs out. The journal then has gained the beginning of such a part.
    pub fn provide_credentials<D: Devices>(
        &self,
        world: &mut World<D>,
    ) -> Result<Credentials, CredentialsError>
        ensures provides { is_memory result ≡ false → ProvidesContainer ⟦<D as Devices>⟧ self.now world.old world.new result }
        ensures stays { is_memory result ≡ true → InterruptedContainer ⟦<D as Devices>⟧ self.now world.old world.new }
    {
        self.credentials(world)
    }
}
