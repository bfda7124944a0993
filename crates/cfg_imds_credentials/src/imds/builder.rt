//! What a provider of metadata credentials is set up with.
ghost use Rattle.std.specs.Prelude.{◌≡◌, IfOk, Some as some};
ghost use Rattle.cfg_base.specs.Text.{characters};
ghost use Rattle.cfg_imds.specs.Clients.{client_rules};
ghost use Rattle.cfg_imds.specs.Setups.{IsAskedClient, given_client, asked_client};

use crate::imds::credentials::ImdsCredentialsProvider;
use cfg_imds::Client;
use cfg_imds::steps::{AskedClient, endpoint_of, is_disabled};
use cfg_kept::Place;
use cfg_profile::ProviderConfig;
use cfg_types::{OutOfMemory, Text, TryCopy};
use std::alloc::Global;

// The client that is asked: the one that was given, else the own one of the configuration. Each crate whose provider
// has one writes it out: a function that hands on what may hold a box, as a client may, has to make it itself.
fn asked_by(
    alloc: Global,
    config: &ProviderConfig,
    client: Option<Client>,
) -> Result<AskedClient, OutOfMemory>
    ensures { IfOk result (λ asked. IsAskedClient (given_client repeated client) config.now (asked_client repeated asked)) }
{
    match client {
        Some(client) => Ok(AskedClient::Given(client)),
        None => {
            let endpoint = endpoint_of(alloc, config, &None, None)?;
            Ok(AskedClient::Own(endpoint))
        }
    }
}

/// Sets up a provider of metadata credentials. A setter changes what it is named for, and nothing else.
/// One that runs out of memory gives the builder up.
#[derive(Drop)]
pub struct Builder {
    alloc: Global,
    config: ProviderConfig,
    role: Option<Text>,
    client: Option<Client>,
    place: Place,
}

impl Builder {
    ghost use Rattle.cfg_imds_credentials.specs.Setups.{setup_of, setting_of, default_metadata, IsMetadataProvider};

    /// A builder with no variables, no profiles and no client, of the role that the service lists, for the
    /// default chain. `OutOfMemory` where memory runs out.
    pub fn new(alloc: Global) -> Result<Builder, OutOfMemory>
        ensures { IfOk result (λ b. setup_of repeated b ≡ default_metadata) }
    {
        Ok(Builder {
            alloc,
            config: ProviderConfig::without_region(alloc)?,
            role: None,
            client: None,
            place: Place::Chain,
        })
    }

    /// With a copy of this configuration, in place of the one that it had. Its variables may switch
    /// metadata off, and they and its selected profile say where the service is asked, where no client is
    /// given. `OutOfMemory` where memory runs out.
    pub fn configure(mut self, config: &ProviderConfig) -> Result<Builder, OutOfMemory>
        ensures { IfOk result (λ b. setup_of repeated b ≡ record (setup_of repeated self) { configuration = config.now }) }
    {
        self.config = config.copy(self.alloc)?;
        Ok(self)
    }

    /// The role of this name, that is, of this instance profile. The service is not asked for its list
    /// then. `OutOfMemory` where memory runs out.
    pub fn profile(mut self, role: &str) -> Result<Builder, OutOfMemory>
        ensures { IfOk result (λ b. setup_of repeated b ≡ record (setup_of repeated self) { role = some (characters role.now) }) }
    {
        self.role = Some(Text::of(self.alloc, role)?);
        Ok(self)
    }

    /// With this client, in place of the one that the configuration names.
    pub fn imds_client(mut self, client: Client) -> Builder
        ensures { setup_of repeated result ≡ record (setup_of repeated self) { client = some (client_rules repeated client) } }
    {
        self.client = Some(client);
        self
    }

    /// For whom the session token and the retrieved credentials are kept.
    pub fn place(mut self, place: Place) -> Builder
        ensures { setup_of repeated result ≡ record (setup_of repeated self) { place = place } }
    {
        self.place = place;
        self
    }

    /// The provider. Whether metadata is switched off and, where no client is given, where the service is
    /// asked is read from the configuration now. Nothing is asked. `OutOfMemory` where memory runs out.
    pub fn build(self) -> Result<ImdsCredentialsProvider, OutOfMemory>
        ensures { IfOk result (λ p. IsMetadataProvider (setup_of repeated self) (setting_of repeated p)) }
    {
        let Builder {
            alloc,
            config,
            role,
            client,
            place,
        } = self;
        let disabled = is_disabled(config.env());
        let client = asked_by(alloc, &config, client)?;
        Ok(ImdsCredentialsProvider::of(alloc, disabled, client, role, place))
    }
}
