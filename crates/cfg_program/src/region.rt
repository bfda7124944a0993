//! The call of the default region chain.
ghost use Rattle.std.specs.Prelude.{◌≡◌, ◌++◌, IfOk, OnOk};
ghost use Rattle.cfg_world.specs.Script.{AllFit};
ghost use Rattle.cfg_script.specs.Script.{plain};
ghost use Rattle.cfg_script.specs.Devices.{lists_of};
ghost use Rattle.cfg_program.specs.Calls.{IsFresh};
ghost use Rattle.cfg_program.specs.Regions.{shown_name, shown_region, TellsRegion, RegionAnswers};

use crate::configuration::configuration;
use crate::lines::{write_kinds, write_text, write_word};
use crate::outcome::Answered;
use cfg_region::DefaultRegionChain;
use cfg_script::Script;
use cfg_types::{OutOfMemory, Region};
use cfg_world::{Entry, ScriptDevices, World};
use std::alloc::{AllocError, Global};

/// Makes the call of the default region chain over what the script configures, and over the devices with
/// the script's answers. The script's own region is left aside, since the chain takes none. `OutOfMemory` where
/// memory runs out.
pub fn find_region(alloc: Global, script: Script) -> Result<Answered, OutOfMemory>
    requires { AllFit (lists_of (plain script)) }
    ensures { IfOk result (λ a. RegionAnswers (plain script) a.is_ok a.lines.items) }
{
    let Script {
        variables,
        profiles,
        selected,
        region: _,
        sleep,
        service,
        calls: _,
        devices,
    } = script;
    let config = configuration(alloc, variables, profiles, selected, sleep, service)?;
    let chain = DefaultRegionChain::builder(alloc)?
        .configure(&config)?
        .build()?;
    let devices = ScriptDevices::new(alloc, devices)?;
    let mut world = World::new(alloc, devices);
    ask_region(alloc, &chain, &mut world)
}

// The chain's region, and its line.
fn ask_region(
    alloc: Global,
    chain: &DefaultRegionChain,
    world: &mut World<ScriptDevices>,
) -> Result<Answered, OutOfMemory>
    requires { IsFresh world.old }
    ensures { IfOk result (λ a. TellsRegion chain.now world.old.devices.lists a.is_ok a.lines.items) }
{
    let region = chain.region(world)?;
    let mut lines = Vec::new(alloc);
    write_region(&mut lines, &region, world.journal())?;
    let is_ok = region.is_some();
    Ok(Answered { is_ok, lines })
}

// `region`, the name or `none`, and the kinds of the questions.
#[tactic(auto, using(std::proofs::lemmas::Grind::common_steps))]
fn write_region(
    line: &mut Vec<u8>,
    region: &Option<Region>,
    journal: &[Entry],
) -> Result<(), AllocError>
    ensures { OnOk result (line.new.items ≡ line.old.items ++ shown_region region.now journal.now) }
{
    write_word(line, b"region ")?;
    write_name(line, region)?;
    line.push(b' ')?;
    write_kinds(line, journal)?;
    line.push(b'\n')?;
    Ok(())
}

fn write_name(line: &mut Vec<u8>, region: &Option<Region>) -> Result<(), AllocError>
    ensures { OnOk result (line.new.items ≡ line.old.items ++ shown_name region.now) }
{
    match region {
        None => write_word(line, b"none"),
        Some(region) => write_text(line, region.as_str()),
    }
}
