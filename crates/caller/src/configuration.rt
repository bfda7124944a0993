//! What the program's calls are configured by.
ghost use Rattle.std.specs.Prelude.{◌≡◌, IfOk, map};
ghost use Rattle.cfg_base.specs.TextMap.{named};
ghost use Rattle.cfg_chain.specs.Settings.{alone};
ghost use Rattle.cfg_chain.specs.Views.{chain_of};
ghost use Rattle.caller.specs.Configured.{variables as given_variables, profiles as given_profiles, configured, unplaced};

use aws_config::default_provider::credentials::{ChainCore, DefaultCredentialsChain};
use aws_config::profile::{ProfileSet, ProfileSource, Section};
use aws_config::provider_config::ProviderConfig;
use aws_config::{Env, EnvText, OutOfMemory, Region, Text};
use std::alloc::Global;

/// The file of the token of the session `reader`, which stands in the folder that a variable names. It is named by
/// the SHA-256 of the session.
pub const TOKEN_PATH: &str =
    "/cache/3d0941964aa3ebdcb00ccef58b1bb399f9f898465e9886d5aec7f31090a0fb30.json";

/// The token: its credentials end a quarter of an hour after the epoch.
pub const TOKEN: &str =
    "{\"accessToken\":{\"accessKeyId\":\"AK\",\"secretAccessKey\":\"SK\",\"sessionToken\":\"ST\",\"accountId\":\"012345678901\",\"expiresAt\":\"1970-01-01T00:15:00Z\"},\"refreshToken\":\"rt\",\"clientId\":\"ci\",\"dpopKey\":\"dk\"}";

/// The default chain for the profile of this name, in the region `eu-west-1`, without sources and without a
/// metadata client of its own. Nothing is asked for it. `OutOfMemory` where memory runs out.
pub fn chain_for(alloc: Global, profile: &str) -> Result<DefaultCredentialsChain, OutOfMemory>
    ensures { IfOk result (λ chain. chain_of value repeated chain ≡ alone (configured profile.now)) }
{
    let region = Region::new(alloc, "eu-west-1")?;
    let config = configuration(alloc, profile)?.with_region(Some(region));
    // A literal, and not the builder: a function that hands on what may hold a box has to make it itself.
    Ok(DefaultCredentialsChain {
        core: ChainCore::of(alloc, config)?,
        custom_sources: Vec::new(alloc),
        imds_client: None,
    })
}

// The variables and the sections, and the name of the profile.
fn configuration(alloc: Global, profile: &str) -> Result<ProviderConfig, OutOfMemory>
    ensures { IfOk result (λ c. c ≡ unplaced profile.now) }
{
    let env = Env::new(alloc, variables(alloc)?)?;
    let profiles = ProfileSet::new(alloc, profiles(alloc)?, Vec::new(alloc), "default")?;
    let config = ProviderConfig::without_region(alloc)?
        .with_env(env)
        .with_profiles(ProfileSource::Sections(profiles));
    config.with_profile_name(alloc, profile)
}

// The folder of the tokens of sign-in sessions.
fn variables(alloc: Global) -> Result<Vec<(String, EnvText)>, OutOfMemory>
    ensures { IfOk result (λ v. map named v.items ≡ given_variables) }
{
    let folder = Text::of(alloc, "/cache")?;
    let mut variables = Vec::new(alloc);
    variables.push((
        String::from_str(alloc, "AWS_LOGIN_CACHE_DIRECTORY")?,
        EnvText::Text(folder),
    ))?;
    Ok(variables)
}

// A profile of a sign-in session, and one of a role over it.
fn profiles(alloc: Global) -> Result<Vec<Section>, OutOfMemory>
    ensures { IfOk result (λ v. v.items ≡ given_profiles) }
{
    let reader = section(alloc, "reader", &[("login_session", "reader")])?;
    let auditor = section(
        alloc,
        "auditor",
        &[
            ("role_arn", "arn:aws:iam::012345678901:role/auditor"),
            ("source_profile", "reader"),
        ],
    )?;
    let mut sections = Vec::new(alloc);
    sections.push(reader)?;
    sections.push(auditor)?;
    Ok(sections)
}

fn section(alloc: Global, name: &str, properties: &[(&str, &str)]) -> Result<Section, OutOfMemory>
    ensures { IfOk result (λ s. s ≡ record { name = name.now; properties = map (λ p. (p.0.now, p.1.now)) properties.now }) }
{
    let mut held = Vec::new(alloc);
    for (key, value) in properties {
        held.push((
            String::from_str(alloc, key)?,
            String::from_str(alloc, value)?,
        ))?;
    }
    Section::new(alloc, name, held)
}
