//! The call of the default token chain.
ghost use Rattle.std.specs.Prelude.{◌≡◌, ◌++◌, [], false, is_ok, IfOk, OnOk, codes};
ghost use Rattle.cfg_types.specs.TokenClasses.{token_class_name};
ghost use Rattle.cfg_world.specs.Grows.{Grows};
ghost use Rattle.cfg_world.specs.Script.{AllFit};
ghost use Rattle.cfg_script.specs.Script.{plain};
ghost use Rattle.cfg_script.specs.Devices.{lists_of};
ghost use Rattle.cfg_sso.specs.BearerTokens.{is_memory};
ghost use Rattle.cfg_program.specs.Calls.{in_region, IsFresh};
ghost use Rattle.cfg_program.specs.Lines.{shown_expiry};
ghost use Rattle.cfg_program.specs.Tokens.{shown_bearer, shown_token, shown_token_as, TellsToken, TokenAnswers};

use crate::causes::{Below, write_token_causes};
use crate::configuration::{configuration, region_named};
use crate::lines::{write_expiry, write_questions, write_word};
use crate::outcome::Answered;
use crate::why::write_journal;
use cfg_profile::ProviderConfig;
use cfg_region::RegionSource;
use cfg_script::Script;
use cfg_token_chain::DefaultTokenChain;
use cfg_types::{Instant, OutOfMemory, Outcome, Region, Token, TokenClass, TokenError};
use cfg_world::{Devices, Entry, ScriptDevices, World};
use std::alloc::{AllocError, Global};

/// Makes the call of the default token chain over what the script configures, and over the devices with
/// the script's answers. Nothing is kept before it. The script's region is the chain's. Below the line of an error
/// stands this. `OutOfMemory` where memory runs out.
pub fn find_token(alloc: Global, script: Script, below: Below) -> Result<Answered, OutOfMemory>
    requires { AllFit (lists_of (plain script)) }
    ensures { IfOk result (λ a. TokenAnswers below (plain script) a.is_ok a.lines.items) }
{
    let Script {
        variables,
        profiles,
        selected,
        region,
        sleep,
        service,
        calls: _,
        devices,
    } = script;
    let config = configuration(alloc, variables, profiles, selected, sleep, service)?;
    let region = region_named(alloc, region)?;
    let devices = ScriptDevices::new(alloc, devices)?;
    let mut world = World::new(alloc, devices);
    let chain = token_chain(alloc, config, region, &mut world)?;
    ask_token(alloc, &chain, below, &mut world)
}

/// The default chain with this region, or none, in place of the configuration's. Nothing is asked. `OutOfMemory` where
/// memory runs out.
pub fn token_chain<D: Devices>(
    alloc: Global,
    config: ProviderConfig,
    region: Option<Region>,
    world: &mut World<D>,
) -> Result<DefaultTokenChain, OutOfMemory>
    ensures chain { IfOk result (λ chain. chain ≡ in_region config region) }
    ensures world { IfOk result (λ chain. Grows ⟦<D as Devices>⟧ [] world.old world.new) }
{
    let builder = DefaultTokenChain::builder(alloc)?.configure(config);
    builder.region(RegionSource::Fixed(region)).build(world)
}

// The chain's token, and its line, with what stands below it.
fn ask_token(
    alloc: Global,
    chain: &DefaultTokenChain,
    below: Below,
    world: &mut World<ScriptDevices>,
) -> Result<Answered, OutOfMemory>
    requires { IsFresh world.old }
    ensures { IfOk result (λ a. TellsToken below chain.now world.old.devices.lists a.is_ok a.lines.items) }
{
    let mut kept = chain.new_kept()?;
    let outcome = Outcome {
        answer: chain.provide_token(&mut kept, world),
    };
    let mut lines = Vec::new(alloc);
    let is_ok = tell(&mut lines, below, &outcome.answer, world.journal())?;
    Ok(Answered { is_ok, lines })
}

// Writes the call's line, with what stands below it, and tells whether it gave a token. `OutOfMemory` where memory
// runs out, also where that is what the call answered.
fn tell(
    lines: &mut Vec<u8>,
    below: Below,
    outcome: &Result<Token, TokenError>,
    journal: &[Entry],
) -> Result<bool, OutOfMemory>
    ensures memory { IfOk result (λ b. is_memory outcome.now ≡ false) }
    ensures token { IfOk result (λ b. b ≡ is_ok outcome.now) }
    ensures line { IfOk result (λ b. lines.new.items ≡ lines.old.items ++ shown_token_as below outcome.now journal.now) }
{
    if cfg_sso::is_memory(outcome) {
        return Err(OutOfMemory);
    }
    write_with_below(lines, below, outcome, journal)?;
    Ok(outcome.is_ok())
}

// The line, and what stands below it.
#[tactic(auto, using(std::proofs::lemmas::Grind::common_steps))]
fn write_with_below(
    line: &mut Vec<u8>,
    below: Below,
    outcome: &Result<Token, TokenError>,
    journal: &[Entry],
) -> Result<(), OutOfMemory>
    ensures { OnOk result (line.new.items ≡ line.old.items ++ shown_token_as below outcome.now journal.now) }
{
    write_token(line, outcome, journal)?;
    match (below, outcome) {
        (Below::Causes, Err(error)) => {
            write_token_causes(line, error)?;
            write_journal(line, journal)
        }
        _ => Ok(()),
    }
}

/// Writes what the call came to, and the kinds of the questions. `AllocError` where memory runs out.
#[tactic(auto, using(std::proofs::lemmas::Grind::common_steps), unfolding(crate::specs::Tokens::shown_token))]
pub fn write_token(
    line: &mut Vec<u8>,
    outcome: &Result<Token, TokenError>,
    journal: &[Entry],
) -> Result<(), AllocError>
    ensures { OnOk result (line.new.items ≡ line.old.items ++ shown_token outcome.now journal.now) }
{
    write_bearer(line, outcome)?;
    write_questions(line, journal)
}

fn write_bearer(line: &mut Vec<u8>, outcome: &Result<Token, TokenError>) -> Result<(), AllocError>
    ensures { OnOk result (line.new.items ≡ line.old.items ++ shown_bearer outcome.now) }
{
    match outcome {
        Ok(token) => write_ending(line, token.expiry()),
        Err(error) => write_class(line, error.class()),
    }
}

/// Writes `token` and when it expires. `AllocError` where memory runs out.
#[tactic(auto, using(std::proofs::lemmas::Grind::common_steps))]
pub fn write_ending(line: &mut Vec<u8>, expiry: Option<Instant>) -> Result<(), AllocError>
    ensures { OnOk result (line.new.items ≡ line.old.items ++ (codes "token " ++ shown_expiry expiry)) }
{
    write_word(line, b"token ")?;
    write_expiry(line, expiry)
}

/// Writes `error` and the class. `AllocError` where memory runs out.
#[tactic(auto, using(std::proofs::lemmas::Grind::common_steps))]
pub fn write_class(line: &mut Vec<u8>, class: TokenClass) -> Result<(), AllocError>
    ensures { OnOk result (line.new.items ≡ line.old.items ++ (codes "error " ++ token_class_name class)) }
{
    write_word(line, b"error ")?;
    write_word(line, class.name().as_bytes())
}
