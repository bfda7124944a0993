//! A conversation from its first line to its last.
ghost use Rattle.std.specs.Prelude.{◌≡◌, ◌≤◌, ℕ, List, MatchResult};
ghost use Rattle.cfg_chain.specs.Views.{chain_of};
ghost use Rattle.cfg_program.specs.Streams.{source_seen, sink_seen};
ghost use Rattle.cfg_script.specs.Script.{plain};
ghost use Rattle.cfg_drive.specs.Configured.{setting_of};
ghost use Rattle.cfg_drive.specs.Conversations.{heard};
ghost use Rattle.cfg_drive.specs.Driven.{EndsDriven, Stops, StopsBehind, Tells, TellsCall, TellsWhy, with_ahead};
ghost use Rattle.cfg_drive.specs.Outcomes.{WritesOutcome, StopsOutcome};

use crate::configured::{FIRST, script_in};
use crate::driven::{Broken, Driven, Stopped};
use crate::exchanges::{Called, call_over, next_line};
use crate::line_reader::LineReader;
use crate::outcome::{broken_line, outcome_line};
use cfg_chain::DefaultCredentialsChain;
use cfg_program::configuration::configuration;
use cfg_program::output::write_all;
use cfg_program::resolve::chain_over;
use cfg_script::Script;
use cfg_world::{Sink, Source, StreamFault};
use std::alloc::Global;

/// One call of the default chain over a conversation of lines: reads the configuration from the source, writes each
/// question of the call to the sink, and reads its answer from the source, and last writes the outcome. Where the
/// conversation breaks off it asks nothing more, tells no credentials, and writes why, unless it is the sink that failed.
/// Where memory runs out, what was written is the beginning of the lines of such a conversation, and what was read may be
/// lost. Bytes that the source gives behind a line's end may be read ahead.
pub fn drive<S: Source, K: Sink>(alloc: Global, source: &mut S, sink: &mut K) -> Driven
    ensures { (ahead : List ℕ) × EndsDriven (with_ahead ahead (source_seen ⟦<S as Source>⟧ source.old source.new))
        (sink_seen ⟦<K as Sink>⟧ sink.old sink.new) result }
{
    let mut reader = LineReader::new(alloc);
    match converse(alloc, &mut reader, source, sink) {
        Ok(true) => Driven::Credentials,
        Ok(false) => Driven::Refused,
        Err(Stopped::Broken(broken)) => tell_broken(alloc, sink, broken),
        Err(Stopped::Unwritten) => Driven::Unwritten,
        Err(Stopped::OutOfMemory) => Driven::OutOfMemory,
    }
}

// The whole conversation: whether the call gave credentials.
fn converse<S: Source, K: Sink>(
    alloc: Global,
    reader: &mut LineReader,
    source: &mut S,
    sink: &mut K,
) -> Result<bool, Stopped>
    ensures ends { let seen = heard ⟦<S as Source>⟧ reader.old source.old reader.new source.new in let told = sink_seen ⟦<K as Sink>⟧ sink.old sink.new in
        MatchResult result (λ is_credentials. Tells seen told is_credentials) (λ stopped. Stops seen told stopped) }
    ensures counted { K.faults sink.old ≤ K.faults sink.new }
{
    let first = next_line(reader, source, FIRST)?;
    let script = script_in(alloc, first.as_slice())?;
    converse_with(alloc, script, reader, source, sink)
}

// The call of the chain that the script configures, without sources of a caller's own: whether it gave credentials.
fn converse_with<S: Source, K: Sink>(
    alloc: Global,
    script: Script,
    reader: &mut LineReader,
    source: &mut S,
    sink: &mut K,
) -> Result<bool, Stopped>
    ensures ends { let over = setting_of (plain script) in let seen = heard ⟦<S as Source>⟧ reader.old source.old reader.new source.new in
        let told = sink_seen ⟦<K as Sink>⟧ sink.old sink.new in
        MatchResult result (λ b. TellsCall over seen told b) (λ stopped. StopsBehind over seen told stopped) }
    ensures counted { K.faults sink.old ≤ K.faults sink.new }
{
    let Script {
        variables,
        profiles,
        selected,
        region,
        sleep,
        service,
        calls: _,
        devices: _,
    } = script;
    let config = configuration(alloc, variables, profiles, selected, sleep, service)?;
    let chain = chain_over(alloc, config, region, Vec::new(alloc))?;
    let called = call_over(alloc, &chain, reader, source, sink)?;
    tell_outcome(alloc, sink, &chain, &called)
}

// Writes the line of what the call came to, and tells whether it gave credentials.
fn tell_outcome<K: Sink>(
    alloc: Global,
    sink: &mut K,
    chain: &DefaultCredentialsChain,
    called: &Called,
) -> Result<bool, Stopped>
    ensures tells { let over = chain_of value repeated chain.now in let told = sink_seen ⟦<K as Sink>⟧ sink.old sink.new in
        MatchResult result (λ b. WritesOutcome over told called.now.answer called.now.journal.items b)
        (λ stopped. StopsOutcome over told called.now.answer called.now.journal.items stopped) }
    ensures counted { K.faults sink.old ≤ K.faults sink.new }
{
    if cfg_types::is_memory(&called.answer) {
        return Err(Stopped::OutOfMemory);
    }
    let line = outcome_line(alloc, chain, &called.answer, called.journal.as_slice())?;
    match write_all(sink, line.as_slice()) {
        Ok(()) => Ok(called.answer.is_ok()),
        Err(StreamFault::Failed) => Err(Stopped::Unwritten),
        Err(StreamFault::OutOfMemory) => Err(Stopped::OutOfMemory),
    }
}

// Writes why the conversation broke off.
fn tell_broken<K: Sink>(alloc: Global, sink: &mut K, broken: Broken) -> Driven
    ensures tells { TellsWhy (sink_seen ⟦<K as Sink>⟧ sink.old sink.new) broken result }
    ensures counted { K.faults sink.old ≤ K.faults sink.new }
{
    let Ok(line) = broken_line(alloc, &broken) else {
        return Driven::OutOfMemory;
    };
    match write_all(sink, line.as_slice()) {
        Ok(()) => Driven::Broken(broken),
        Err(StreamFault::Failed) => Driven::Broken(broken),
        Err(StreamFault::OutOfMemory) => Driven::OutOfMemory,
    }
}
