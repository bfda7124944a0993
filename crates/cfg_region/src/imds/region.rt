//! The region that instance metadata tells.
ghost use Rattle.std.specs.Prelude.{◌≡◌, IfOk, OnErr, Some};
ghost use Rattle.cfg_world.specs.Follows.{Follows};
ghost use Rattle.cfg_imds.specs.Clients.{client_rules};
ghost use Rattle.cfg_imds.specs.Left.{RegionLeftBy};
ghost use Rattle.cfg_imds.specs.Settles.{FollowsKept};
ghost use Rattle.cfg_imds.specs.Setups.{IsAskedClient, given_client, asked_client};
ghost use Rattle.cfg_imds.specs.Tokens.{bare_kept};
ghost use Rattle.cfg_region.specs.Located.{metadata_of, metadata_tree, located_by, Locates, LocateBreaks, LocateLeaves};
ghost use Rattle.cfg_region.specs.Metadata.{metadata_region, IsGot};

use cfg_imds::steps::{AskedClient, client_at, endpoint_of, follow_region, is_disabled};
use cfg_imds::{Client, ImdsTokenState, MetadataToken};
use cfg_profile::ProviderConfig;
use cfg_types::imds::ImdsError;
use cfg_types::{Env, OutOfMemory, Region, SensitiveString, TryCopy};
use cfg_world::{Asking, Devices, Stop, World};
use std::alloc::Global;

/// The region that a client is told, where no session token is kept. Nothing is asked where the variables
/// switch metadata off.
pub(crate) fn follow_metadata<A: Asking>(
    alloc: Global,
    env: &Env,
    client: &Client,
    asking: &mut A,
) -> Result<Option<Region>, Stop>
    ensures { Follows ⟦<A as Asking>⟧ (metadata_region env.now (client_rules repeated client.now)) asking.old asking.new result }
{
    let mut kept = None;
    follow_region(alloc, env, client, &mut kept, asking)
}

/// The region of a machine of Amazon EC2, as its instance metadata service tells it. It asks by session
/// tokens alone (IMDSv2, EC2 User Guide).
#[derive(Drop)]
pub struct ImdsRegionProvider {
    alloc: Global,
    env: Env,
    client: AskedClient,
}

impl ImdsRegionProvider {
    ghost use Rattle.cfg_region.specs.MetadataSetups.{builder_of, provider_of, nothing_given};

    /// A builder with no variables, no profiles and no client. `OutOfMemory` where memory runs out.
    pub fn builder(alloc: Global) -> Result<Builder, OutOfMemory>
        ensures { IfOk result (λ b. builder_of repeated b ≡ nothing_given) }
    {
        Builder::new(alloc)
    }

    /// The body of [`Self::region`], over anything that can be asked.
    ///
    /// # Errors
    ///
    /// `Stop::OutOfMemory` where memory runs out, `Stop::Open` where an answer is not known yet. What is kept is then
    /// as it was, or as a settle or a get that came to its end left it.
    #[tactic(auto, using(cfg_world::proofs::Inquiries::asking_steps))]
    pub fn follow<A: Asking>(
        &self,
        kept: &mut Option<MetadataToken>,
        asking: &mut A,
    ) -> Result<Option<Region>, Stop>
        ensures follows { FollowsKept ⟦<A as Asking>⟧
            (located_by (provider_of repeated self.now) (bare_kept kept.old))
            asking.old asking.new (bare_kept kept.new) result }
        ensures left { OnErr result (RegionLeftBy ⟦<A as Asking>⟧ (provider_of repeated self.now).client asking.old asking.new kept.old kept.new) }
    {
        match &self.client {
            AskedClient::Given(client) => {
                follow_region(self.alloc, &self.env, client, kept, asking)
            }
            AskedClient::Own(endpoint) => {
                let endpoint = endpoint.copy(self.alloc)?;
                let client = client_at(self.alloc, endpoint);
                follow_region(self.alloc, &self.env, &client, kept, asking)
            }
        }
    }

    // The same, where no session token is kept.
    pub(crate) fn follow_anew<A: Asking>(&self, asking: &mut A) -> Result<Option<Region>, Stop>
        ensures { Follows ⟦<A as Asking>⟧ (metadata_tree (provider_of repeated self.now)) asking.old asking.new result }
    {
        let mut kept = None;
        self.follow(&mut kept, asking)
    }

    /// The region: the text at `/latest/meta-data/placement/region`. None where `AWS_EC2_METADATA_DISABLED`
    /// is `true`, whatever the ASCII case of its letters, and nothing is asked then; none, too, after each
    /// error of the client but that memory ran out. The session token is settled on the one that is kept, and
    /// what that settles is kept; where nothing is asked, what is kept is as it was.
    ///
    /// # Errors
    ///
    /// `OutOfMemory` where memory runs out. The journal then has gained the beginning of what the call asks, or
    /// nothing, and what is kept is as it was or as a finished settling left it.
    pub fn region<D: Devices>(
        &self,
        state: &mut ImdsTokenState,
        world: &mut World<D>,
    ) -> Result<Option<Region>, OutOfMemory>
        ensures asks { IfOk result (Locates ⟦<D as Devices>⟧ (provider_of repeated self.now) state.old state.new world.old world.new) }
        ensures breaks { OnErr result (LocateBreaks ⟦<D as Devices>⟧ (provider_of repeated self.now) state.old world.old world.new) }
        ensures left { OnErr result (LocateLeaves ⟦<D as Devices>⟧ ⟦<World<D> as Asking>⟧
            (provider_of repeated self.now) state.old state.new world.old world.new) }
    {
        match &self.client {
            AskedClient::Given(client) => { region_by(self.alloc, &self.env, client, state, world) }
            AskedClient::Own(endpoint) => {
                let endpoint = endpoint.copy(self.alloc)?;
                let client = client_at(self.alloc, endpoint);
                region_by(self.alloc, &self.env, &client, state, world)
            }
        }
    }
}

// The region that this client is told.
fn region_by<D: Devices>(
    alloc: Global,
    env: &Env,
    client: &Client,
    state: &mut ImdsTokenState,
    world: &mut World<D>,
) -> Result<Option<Region>, OutOfMemory>
    ensures asks { IfOk result (Locates ⟦<D as Devices>⟧ (metadata_of env.now (client_rules repeated client.now)) state.old state.new world.old world.new) }
    ensures breaks { OnErr result (LocateBreaks ⟦<D as Devices>⟧ (metadata_of env.now (client_rules repeated client.now)) state.old world.old world.new) }
    ensures left { OnErr result (LocateLeaves ⟦<D as Devices>⟧ ⟦<World<D> as Asking>⟧
        (metadata_of env.now (client_rules repeated client.now)) state.old state.new world.old world.new) }
{
    if is_disabled(env) {
        return Ok(None);
    }
    let path = "/latest/meta-data/placement/region";
    let got = client.get(state, world, path);
    region_got(alloc, got)
}

// The text as a region, or none after an error but out of memory.
fn region_got(
    alloc: Global,
    got: Result<SensitiveString, ImdsError>,
) -> Result<Option<Region>, OutOfMemory>
    ensures { IfOk result (λ region. IsGot got region) }
{
    match got {
        Ok(text) => {
            let region = Region::new(alloc, text.as_str())?;
            Ok(Some(region))
        }
        Err(error) if matches!(error, ImdsError::OutOfMemory) => Err(OutOfMemory),
        Err(_) => Ok(None),
    }
}

// The client that is asked: the one that was given, else the own one of the configuration. Each crate whose provider
// has one writes it out: a function that hands on what may hold a box, as a client may, has to make it itself.
fn asked_by(
    alloc: Global,
    config: &ProviderConfig,
    client: Option<Client>,
) -> Result<AskedClient, OutOfMemory>
    ensures { IfOk result (λ asked. IsAskedClient (given_client repeated client) config.now (asked_client repeated asked)) }
{
    match client {
        Some(client) => Ok(AskedClient::Given(client)),
        None => {
            let endpoint = endpoint_of(alloc, config, &None, None)?;
            Ok(AskedClient::Own(endpoint))
        }
    }
}

/// Sets up a provider of the region of instance metadata. A setter changes what it is named for, and
/// nothing else.
#[derive(Drop)]
pub struct Builder {
    alloc: Global,
    config: ProviderConfig,
    client: Option<Client>,
}

impl Builder {
    ghost use Rattle.cfg_region.specs.MetadataSetups.{builder_of, provider_of, nothing_given, IsMetadataRegion};

    /// A builder with no variables, no profiles and no client. `OutOfMemory` where memory runs out.
    pub fn new(alloc: Global) -> Result<Builder, OutOfMemory>
        ensures { IfOk result (λ b. builder_of repeated b ≡ nothing_given) }
    {
        Ok(Builder {
            alloc,
            config: ProviderConfig::without_region(alloc)?,
            client: None,
        })
    }

    /// With a copy of this configuration, in place of the one that it had. Its variables may switch metadata
    /// off, and they and its selected profile say where the service is asked, where no client is given.
    /// `OutOfMemory` where memory runs out.
    pub fn configure(mut self, config: &ProviderConfig) -> Result<Builder, OutOfMemory>
        ensures { IfOk result (λ b. builder_of repeated b ≡ record (builder_of repeated self) { configuration = config.now }) }
    {
        self.config = config.copy(self.alloc)?;
        Ok(self)
    }

    /// With this client, in place of the one that the configuration names.
    pub fn imds_client(mut self, client: Client) -> Builder
        ensures { builder_of repeated result ≡ record (builder_of repeated self) { client = Some (client_rules repeated client) } }
    {
        self.client = Some(client);
        self
    }

    /// The provider. Where no client is given, where the service is asked is read from the configuration now.
    /// Nothing is asked. `OutOfMemory` where memory runs out.
    pub fn build(self) -> Result<ImdsRegionProvider, OutOfMemory>
        ensures { IfOk result (λ p. IsMetadataRegion (builder_of repeated self) (provider_of repeated p)) }
    {
        let Builder {
            alloc,
            config,
            client,
        } = self;
        let env = config.env().copy(alloc)?;
        let client = asked_by(alloc, &config, client)?;
        Ok(ImdsRegionProvider { alloc, env, client })
    }
}
