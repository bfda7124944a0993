//! The builder of the default chain: what building asks for the region, and what a call gives.
use crate::token_chain::defaults::first_words;
use crate::token_chain::setup::{FILES, SESSIONS, Setup, asked, set_up};
use cfg_region::{EnvironmentVariableRegionProvider, ImdsRegionProvider, RegionSource};
use cfg_token_chain::DefaultTokenChain;
use cfg_types::{OutOfMemory, Region, TryCopy};
use cfg_world::World;
use std::alloc::Global;
use std::test::Fail;

fn fixed(alloc: Global) -> Result<RegionSource, OutOfMemory> {
    let region = Region::new(alloc, "x")?;
    Ok(RegionSource::Fixed(Some(region)))
}

// What building asks, and what a call then answers and asks.
fn built_by(alloc: Global, setup: Setup, call: u8) -> Result<String, OutOfMemory> {
    let Setup { config, devices } = setup;
    let mut world = World::new(alloc, devices);
    let builder = DefaultTokenChain::builder(alloc)?;
    let builder = match call {
        0 => builder,
        1 => builder.configure(config),
        2 => builder.configure(config).profile_name("b")?,
        3 => builder.profile_name("b")?.configure(config),
        4 => builder.region(fixed(alloc)?).configure(config),
        5 => builder
            .configure(config)
            .region(RegionSource::Fixed(None))
            .profile_name("b")?,
        6 => {
            let provider = EnvironmentVariableRegionProvider::new(alloc, config.env().copy(alloc)?);
            builder
                .configure(config)
                .region(RegionSource::Environment(provider))
        }
        7 => {
            let provider = ImdsRegionProvider::builder(alloc)?
                .configure(&config)?
                .build()?;
            builder
                .configure(config)
                .region(RegionSource::Imds(provider))
        }
        _ => {
            let mut builder = builder.configure(config).region(fixed(alloc)?);
            builder.set_region(None);
            builder
        }
    };
    let chain = builder.build(&mut world)?;
    let building = asked(alloc, &mut world)?;
    let call = first_words(alloc, &chain, &mut world)?;
    Ok(format!(in alloc; "{building}; {call}")?)
}

#[test]
fn regions_and_names(rt: HostRuntime) -> Result<(), Fail> {
    let nobodys = " now imds-token now; InvalidConfiguration(NoProfilesDefined)";
    let asking = " now imds-token now; =t now read now";
    let silent = "; =t now read now";
    let of_b = r#"; InvalidConfiguration(MissingSsoSession { profile: "b", sso_session: "b" })"#;
    let table: &[(u8, &str, &str)] = &[
        (0, "", nobodys),
        (1, "", asking),
        (1, r#",["AWS_REGION","y"]"#, silent),
        (1, r#",["AWS_PROFILE","b"]"#, of_b),
        (2, "", of_b),
        (3, "", of_b),
        (4, "", silent),
        (5, "", of_b),
        (6, "", silent),
        (7, r#",["AWS_REGION","y"]"#, asking),
        (8, "", asking),
    ];
    for (call, variables, want) in table {
        let script = format!(in rt.alloc();
            r#"{{"variables":[["HOME","/home/u"]{variables}],"profiles":[["default",[["sso_session","abc"]]],["b",[["sso_session","b"],["region","z"]]]],{SESSIONS},{FILES}}}"#
        )?;
        let setup = set_up(rt.alloc(), script.as_str())?;
        let words = built_by(rt.alloc(), setup, *call)?;
        assert_eq!(rt; words.as_str(), *want, "{call} {variables}");
    }
    Ok(())
}
