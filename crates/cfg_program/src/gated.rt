//! The sections of a script's callers at a gate.
ghost use Rattle.std.specs.Prelude.{◌≡◌, ◌++◌, All, IfOk, OnOk, None, true, false, is_ok, map};
ghost use Rattle.std.specs.List.{flat_map};
ghost use Rattle.cfg_world.specs.Script.{AllFit};
ghost use Rattle.cfg_script.specs.Script.{plain_share};
ghost use Rattle.cfg_sso.specs.BearerTokens.{bearer};
ghost use Rattle.cfg_token.specs.SectionCalls.{is_memory};
ghost use Rattle.cfg_token.specs.SsoTokens.{is_sso, sso_rules};
ghost use Rattle.cfg_token_chain.specs.Sessions.{session_key};
ghost use Rattle.cfg_program.specs.Calls.{IsFresh};
ghost use Rattle.cfg_program.specs.Tokens.{shown_bearer, shown_token};
ghost use Rattle.cfg_program.specs.Gated.{section_of, shown_loads, AtGate, WithoutSession, GatedAnswers, TellsSections};

use crate::configuration::{configuration, region_named};
use crate::lines::{write_number, write_questions, write_word};
use crate::outcome::Answered;
use crate::share::worlds_over;
use crate::token::{token_chain, write_class, write_ending, write_token};
use cfg_gate::{Called, GatedCalls, GatedToken, gated_calls};
use cfg_profile::{ProviderConfig, call_settings};
use cfg_script::ShareScript;
use cfg_token::{CachedSsoToken, SsoTokenProviderError, TokenKey, TokenState};
use cfg_token_chain::DefaultTokenChain;
use cfg_types::{OutOfMemory, Outcome, Token, TokenClass, TokenError, TryCopy, copy_option};
use cfg_world::{DeviceLists, Entry, ScriptDevices, World};
use std::alloc::{AllocError, Global};
use std::sync::Wait;
use std::thread::Threads;

/// Makes a section of the token that the script's default token chain needs for each of its callers, each on a thread of
/// its own over its own devices, at one gate, of which nothing is known before. Their lines stand in the callers' order,
/// and behind them how many loads the callers have seen together. Where the chain needs no token of a session, each
/// caller has the chain's own error, for which nothing is asked. `OutOfMemory` where memory runs out, also where that is
/// what a section answered.
pub fn gated<R: Threads + Wait + Sync>(
    rt: &R,
    alloc: Global,
    script: ShareScript,
) -> Result<Answered, OutOfMemory>
    requires { All AllFit script.callers.items }
    ensures { IfOk result (λ a. GatedAnswers (plain_share script) a.is_ok a.lines.items) }
{
    let ShareScript {
        variables,
        profiles,
        selected,
        region,
        sleep,
        service,
        calls: _,
        callers,
    } = script;
    let config = configuration(alloc, variables, profiles, selected, sleep, service)?;
    let region = region_named(alloc, region)?;
    let devices = ScriptDevices::new(alloc, DeviceLists::empty(alloc))?;
    let mut world = World::new(alloc, devices);
    let copied = config.copy(alloc)?;
    let given = copy_option(alloc, &region)?;
    let chain = token_chain(alloc, copied, given, &mut world)?;
    match chain.token_key() {
        Some(key) => {
            let key = key.copy(alloc)?;
            at_gate(rt, alloc, key, &config.with_region(region), callers)
        }
        None => without_session(alloc, &chain, callers.as_slice(), &mut world),
    }
}

// The chain's own error, once for each of these callers. The world is one of which nothing was asked.
fn without_session(
    alloc: Global,
    chain: &DefaultTokenChain,
    callers: &[DeviceLists],
    world: &mut World<ScriptDevices>,
) -> Result<Answered, OutOfMemory>
    requires none { session_key chain.now ≡ None }
    requires fresh { IsFresh world.old }
    ensures { IfOk result (λ a. WithoutSession chain.now callers.now a.is_ok a.lines.items) }
{
    let mut kept = chain.new_kept()?;
    let outcome = Outcome {
        answer: chain.provide_token(&mut kept, world),
    };
    if cfg_sso::is_memory(&outcome.answer) {
        return Err(OutOfMemory);
    }
    let mut lines = Vec::new(alloc);
    write_each(&mut lines, callers, &outcome.answer, world.journal())?;
    write_loads(&mut lines, 0)?;
    Ok(Answered {
        is_ok: false,
        lines,
    })
}

// The line of one call, for each of these callers.
fn write_each(
    line: &mut Vec<u8>,
    callers: &[DeviceLists],
    outcome: &Result<Token, TokenError>,
    journal: &[Entry],
) -> Result<(), AllocError>
    ensures { OnOk result (line.new.items ≡ line.old.items ++ flat_map (λ _. shown_token outcome.now journal.now) callers.now) }
{
    for _caller in callers {
        write_token(line, outcome, journal)?;
    }
    Ok(())
}

// A section of the token of this key for each of these lists of devices, by this configuration, at one gate, and their
// lines.
fn at_gate<R: Threads + Wait + Sync>(
    rt: &R,
    alloc: Global,
    key: TokenKey,
    config: &ProviderConfig,
    callers: Vec<DeviceLists>,
) -> Result<Answered, OutOfMemory>
    requires kind { is_sso key ≡ true }
    requires fit { All AllFit callers.items }
    ensures { IfOk result (λ a. AtGate config.now key callers.items a.is_ok a.lines.items) }
{
    let settings = call_settings(alloc, config)?;
    let worlds = worlds_over(alloc, callers)?;
    let token: GatedToken<CachedSsoToken> = GatedToken::new(TokenState::new(alloc, key));
    let GatedCalls { calls, loads } = gated_calls(
        rt,
        alloc,
        token,
        config.env(),
        &settings,
        worlds,
    )?;
    let Answered { is_ok, mut lines } = tell_sections(alloc, calls.as_slice())?;
    write_loads(&mut lines, loads)?;
    Ok(Answered { is_ok, lines })
}

// The callers' lines, in order, and whether the last one was given a token.
fn tell_sections(
    alloc: Global,
    calls: &[Called<CachedSsoToken, ScriptDevices>],
) -> Result<Answered, OutOfMemory>
    ensures { IfOk result (λ a. TellsSections (map section_of calls.now) a.is_ok a.lines.items) }
{
    let mut lines = Vec::new(alloc);
    let mut is_ok = false;
    for called in calls {
        is_ok = tell_section(&mut lines, &called.answer.outcome, called.world.journal())?;
    }
    Ok(Answered { is_ok, lines })
}

// Writes the line of a section behind the others, and tells whether it gave a token. `OutOfMemory` where memory runs
// out, also where that is what the section answered.
fn tell_section(
    lines: &mut Vec<u8>,
    outcome: &Result<CachedSsoToken, SsoTokenProviderError>,
    journal: &[Entry],
) -> Result<bool, OutOfMemory>
    ensures memory { IfOk result (λ b. is_memory sso_rules outcome.now ≡ false) }
    ensures token { IfOk result (λ b. b ≡ is_ok outcome.now) }
    ensures line { IfOk result (λ b. lines.new.items ≡ lines.old.items ++ shown_token (bearer outcome.now) journal.now) }
{
    if let Err(SsoTokenProviderError::OutOfMemory) = outcome {
        return Err(OutOfMemory);
    }
    write_section(lines, outcome, journal)?;
    Ok(outcome.is_ok())
}

// What a section came to, and the kinds of the questions.
#[tactic(auto, using(std::proofs::lemmas::Grind::common_steps), unfolding(crate::specs::Tokens::shown_token))]
fn write_section(
    line: &mut Vec<u8>,
    outcome: &Result<CachedSsoToken, SsoTokenProviderError>,
    journal: &[Entry],
) -> Result<(), AllocError>
    ensures { OnOk result (line.new.items ≡ line.old.items ++ shown_token (bearer outcome.now) journal.now) }
{
    write_given(line, outcome)?;
    write_questions(line, journal)
}

// When a section's token ends, or the class of the chain's error round the section's.
#[tactic(auto, using(crate::proofs::Gating::given_token, crate::proofs::Gating::given_error))]
fn write_given(
    line: &mut Vec<u8>,
    outcome: &Result<CachedSsoToken, SsoTokenProviderError>,
) -> Result<(), AllocError>
    ensures { OnOk result (line.new.items ≡ line.old.items ++ shown_bearer (bearer outcome.now)) }
{
    match outcome {
        Ok(token) => write_ending(line, Some(token.expires_at)),
        Err(_) => write_class(line, TokenClass::ProviderError),
    }
}

// `loads`, and how many there are.
#[tactic(auto, using(std::proofs::lemmas::Grind::common_steps))]
fn write_loads(line: &mut Vec<u8>, count: u64) -> Result<(), AllocError>
    ensures { OnOk result (line.new.items ≡ line.old.items ++ shown_loads count) }
{
    write_word(line, b"loads ")?;
    write_number(line, count)?;
    line.push(b'\n')?;
    Ok(())
}
