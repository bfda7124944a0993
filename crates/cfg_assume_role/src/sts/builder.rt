//! Sets up a provider of a role's credentials.
ghost use Rattle.std.specs.Option.{option_or};
ghost use Rattle.std.specs.Prelude.{◌≡◌, ◌≤◌, [], IfOk, OnErr, Some, map, pos, string_bytes};
ghost use Rattle.cfg_base.specs.Text.{characters};
ghost use Rattle.cfg_providers.specs.SessionNames.{session_name as session_name_of};
ghost use Rattle.cfg_chain.specs.Settings.{alone};
ghost use Rattle.cfg_chain.specs.Views.{chain_of};
ghost use Rattle.cfg_assume_role.specs.Bases.{base_of, ByDefault};
ghost use Rattle.cfg_imds.specs.Calls.{CallBreaks};
ghost use Rattle.cfg_region.specs.Calls.{Asks, RegionSet, RegionBreaks};
ghost use Rattle.cfg_assume_role.specs.Setups.{for_role, own_region, provider_session, tag_of, with_policy_arns, Builds, BuildStops};

use crate::base::RoleBase;
use crate::call::{RoleCall, RoleSession};
use crate::sts::provider::AssumeRoleProvider;
use cfg_chain::{ChainCore, DefaultCredentialsChain};
use cfg_profile::ProviderConfig;
use cfg_providers::steps::session_name;
use cfg_region::load_default_region;
use cfg_types::{OutOfMemory, Region, Seq, Tag, Text, TryCopy, texts};
use cfg_world::{Devices, World};
use std::alloc::Global;
use std::marker::Model;

/// Sets up a provider of a role's credentials. Contracts see its configuration, its region, the name of
/// its sessions and what is asked for them. A setter changes its field alone.
pub struct AssumeRoleProviderBuilder {
    alloc: Global,
    config: ProviderConfig,
    region: Option<Region>,
    session_name: Option<Text>,
    session: RoleSession,
}

impl Drop for AssumeRoleProviderBuilder {
    fn drop(self) {
        let AssumeRoleProviderBuilder {
            alloc: _,
            config: _,
            region: _,
            session_name: _,
            session: _,
        } = self;
    }
}

impl Model for AssumeRoleProviderBuilder {
    ghost use Rattle.cfg_assume_role.specs.Setups.{RoleSetup, role_setup_code};

    ghost Value = { RoleSetup };

    ghost coded = { role_setup_code };

    ghost view = { λ b. record { configuration = b.config; region = b.region; session_name = b.session_name; session = b.session } };
}

impl AssumeRoleProviderBuilder {
    /// A builder for the role with this ARN, such as `arn:aws:iam::123456789012:role/example`, with no
    /// variables and no region. `OutOfMemory` where memory runs out.
    pub fn new(alloc: Global, role: &str) -> Result<AssumeRoleProviderBuilder, OutOfMemory>
        ensures { IfOk result (λ b. b ≡ for_role (characters role.now)) }
    {
        let config = ProviderConfig::without_region(alloc)?;
        let role_arn = Text::of(alloc, role)?;
        Ok(AssumeRoleProviderBuilder {
            alloc,
            config,
            region: None,
            session_name: None,
            session: RoleSession {
                role_arn,
                external_id: None,
                policy: None,
                policy_arns: None,
                duration_seconds: None,
                tags: None,
            },
        })
    }

    /// With this external id, which another account's role may ask for. `OutOfMemory` where memory runs out.
    pub fn external_id(mut self, id: &str) -> Result<AssumeRoleProviderBuilder, OutOfMemory>
        ensures { IfOk result (λ b. b ≡ record self { session = record self.session { external_id = Some (characters id.now) } }) }
    {
        self.session.external_id = Some(Text::of(self.alloc, id)?);
        Ok(self)
    }

    /// With this name for its sessions, in place of one made from a reading of the clock. `OutOfMemory` where
    /// memory runs out.
    pub fn session_name(mut self, name: &str) -> Result<AssumeRoleProviderBuilder, OutOfMemory>
        ensures { IfOk result (λ b. b ≡ record self { session_name = Some (characters name.now) }) }
    {
        self.session_name = Some(Text::of(self.alloc, name)?);
        Ok(self)
    }

    /// With this policy, a text in JSON, for its sessions. It is not read here. `OutOfMemory` where memory
    /// runs out.
    pub fn policy(mut self, policy: &str) -> Result<AssumeRoleProviderBuilder, OutOfMemory>
        ensures { IfOk result (λ b. b ≡ record self { session = record self.session { policy = Some (characters policy.now) } }) }
    {
        self.session.policy = Some(Text::of(self.alloc, policy)?);
        Ok(self)
    }

    /// With the managed policies of these ARNs for its sessions, in place of those that it had. They
    /// are sent in this order. `OutOfMemory` where memory runs out.
    pub fn policy_arns(
        mut self,
        policy_arns: Vec<String>,
    ) -> Result<AssumeRoleProviderBuilder, OutOfMemory>
        ensures { IfOk result (λ b. b ≡ record self {
          session = with_policy_arns (map (λ arn. characters (string_bytes arn)) policy_arns.items)
              self.session;
        }) }
    {
        self.session.policy_arns = Some(texts(self.alloc, policy_arns)?);
        Ok(self)
    }

    /// With sessions of so many seconds, in place of the length that they had. The number is sent as it is:
    /// AWS STS says which are allowed, and takes 3600 where none is sent.
    pub fn session_length(mut self, seconds: u64) -> AssumeRoleProviderBuilder
        // A request to AWS STS has it as a signed number of 32 bits.
        requires { seconds ≤ 2147483647 }
        ensures { result ≡ record self { session = record self.session { duration_seconds = Some (pos seconds) } } }
    {
        self.session.duration_seconds = Some(seconds as i32);
        self
    }

    /// With this region in place of the configuration's.
    pub fn region(mut self, region: Region) -> AssumeRoleProviderBuilder
        ensures { result ≡ record self { region = Some region } }
    {
        self.region = Some(region);
        self
    }

    /// With these tags, each a key and a value, for its sessions, in place of those that it had. They
    /// are sent in this order. `OutOfMemory` where memory runs out.
    pub fn tags(
        mut self,
        tags: Vec<(String, String)>,
    ) -> Result<AssumeRoleProviderBuilder, OutOfMemory>
        ensures { IfOk result (λ b. b ≡ record self { session = record self.session { tags = Some (map tag_of tags.items) } }) }
    {
        self.session.tags = Some(tags_of(self.alloc, tags)?);
        Ok(self)
    }

    /// With this configuration, in place of the one that it had.
    pub fn configure(mut self, config: ProviderConfig) -> AssumeRoleProviderBuilder
        ensures { result ≡ record self { configuration = config } }
    {
        self.config = config;
        self
    }

    /// The provider over this base. Where no region is set here or in the configuration, the default region
    /// chain over the configuration is asked, and what it gives, none included, is the provider's region. Then
    /// the clock is read, for the name of the sessions, exactly where none was set: `assume-role-provider-`
    /// and the milliseconds of the reading. Nothing else is asked.
    ///
    /// # Errors
    ///
    /// `OutOfMemory` where memory runs out. The journal then has gained the beginning of such parts.
    pub fn build_from_provider<D: Devices>(
        self,
        base: RoleBase,
        world: &mut World<D>,
    ) -> Result<AssumeRoleProvider, OutOfMemory>
        ensures built { IfOk result (λ p. Builds ⟦<D as Devices>⟧ self world.old world.new p.call) }
        ensures base { IfOk result (λ p. base_of value repeated p.base ≡ base_of value repeated base) }
        ensures stops { OnErr result (BuildStops ⟦<D as Devices>⟧ self world.old world.new) }
    {
        let alloc = self.alloc;
        let call = self.into_call(world)?;
        Ok(AssumeRoleProvider { alloc, base, call })
    }

    /// The provider over the default chain, which is configured as the provider is, in the same region. The
    /// default region chain and the clock are asked as in [`Self::build_from_provider`], each once at most.
    ///
    /// # Errors
    ///
    /// `OutOfMemory` where memory runs out. The journal then has gained the beginning of such parts.
    pub fn build<D: Devices>(self, world: &mut World<D>) -> Result<AssumeRoleProvider, OutOfMemory>
        ensures built { IfOk result (λ p. Builds ⟦<D as Devices>⟧ self world.old world.new p.call) }
        ensures base { IfOk result (λ p. base_of value repeated p.base ≡ ByDefault (alone p.call.config)) }
        ensures stops { OnErr result (BuildStops ⟦<D as Devices>⟧ self world.old world.new) }
    {
        let alloc = self.alloc;
        let call = self.into_call(world)?;
        let base = RoleBase::Default(chain_over(alloc, &call.config)?);
        Ok(AssumeRoleProvider { alloc, base, call })
    }

    // What the provider sends. The region is asked first, and then the clock.
    fn into_call<D: Devices>(self, world: &mut World<D>) -> Result<RoleCall, OutOfMemory>
        ensures built { IfOk result (λ call. Builds ⟦<D as Devices>⟧ self world.old world.new call) }
        ensures stops { OnErr result (BuildStops ⟦<D as Devices>⟧ self world.old world.new) }
    {
        let AssumeRoleProviderBuilder {
            alloc,
            config,
            region,
            session_name,
            session,
        } = self;
        let config = with_override(config, region);
        let config = in_region(alloc, config, world)?;
        let name = named(alloc, &session_name, world)?;
        Ok(RoleCall {
            config,
            session_name: name,
            session,
        })
    }
}

// The configuration, in the region of its default chain where it has none.
fn in_region<D: Devices>(
    alloc: Global,
    config: ProviderConfig,
    world: &mut World<D>,
) -> Result<ProviderConfig, OutOfMemory>
    ensures set { IfOk result (RegionSet ⟦<D as Devices>⟧ (own_region config) config world.old world.new) }
    ensures breaks { OnErr result (RegionBreaks ⟦<D as Devices>⟧ (own_region config) config world.old world.new) }
{
    match config.region() {
        Some(_) => Ok(config),
        None => load_default_region(alloc, config, world),
    }
}

// The default chain of this configuration, in its region. Nothing is asked.
fn chain_over(
    alloc: Global,
    config: &ProviderConfig,
) -> Result<DefaultCredentialsChain, OutOfMemory>
    ensures { IfOk result (λ chain. chain_of value repeated chain ≡ alone config.now) }
{
    let config = config.copy(alloc)?;
    Ok(DefaultCredentialsChain {
        core: ChainCore::of(alloc, config)?,
        custom_sources: Vec::new(alloc),
        imds_client: None,
    })
}

// With this region in place of the configuration's, where there is one.
fn with_override(config: ProviderConfig, region: Option<Region>) -> ProviderConfig
    ensures { result ≡ record config { region = option_or region config.region } }
{
    match region {
        None => config,
        Some(region) => config.with_region(Some(region)),
    }
}

// The name of the sessions, over a world.
fn named<D: Devices>(
    alloc: Global,
    given: &Option<Text>,
    world: &mut World<D>,
) -> Result<Text, OutOfMemory>
    ensures asks { IfOk result (λ name. Asks ⟦<D as Devices>⟧ (session_name_of provider_session given.now) world.old world.new name) }
    ensures breaks { OnErr result (CallBreaks ⟦<D as Devices>⟧ (session_name_of provider_session given.now) world.old world.new) }
{
    match session_name(alloc, "assume-role-provider", given, world) {
        Ok(name) => Ok(name),
        Err(_) => Err(OutOfMemory),
    }
}

// The pairs as tags, in order. No string is copied.
fn tags_of(alloc: Global, pairs: Vec<(String, String)>) -> Result<Seq<Tag>, OutOfMemory>
    ensures { IfOk result (λ tags. tags ≡ map tag_of pairs.items) }
{
    let mut tags = Vec::with_capacity(alloc, pairs.len())?;
    for pair in pairs {
        let (key, value) = pair;
        tags.push(Tag {
            key: Text::from_string(key),
            value: Text::from_string(value),
        })?;
    }
    Ok(Seq::of(tags))
}
