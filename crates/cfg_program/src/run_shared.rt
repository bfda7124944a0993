//! The top call of what is done on several threads.
ghost use Rattle.std.specs.Prelude.{◌≡◌, All, IsTrue, None, IfOk, MatchResult, map, string_bytes};
ghost use Rattle.cfg_world.specs.Script.{AllFit};
ghost use Rattle.cfg_chain.specs.Views.{named_sources};
ghost use Rattle.cfg_script.specs.Script.{plain_share};
ghost use Rattle.cfg_program.specs.Run.{EndsReading, EndsUnread, IsScript};
ghost use Rattle.cfg_program.specs.Gated.{GatedAnswers};
ghost use Rattle.cfg_program.specs.SharedCommands.{shared_command_named};
ghost use Rattle.cfg_program.specs.Scripts.{share_of_one_call};
ghost use Rattle.cfg_program.specs.SharedRun.{EndsShare, EndsShared, shared_comes};
ghost use Rattle.cfg_program.specs.Streams.{source_seen, sink_seen};
ghost use Rattle.cfg_program.specs.Written.{ToldWritten};

use crate::gated::gated;
use crate::input::bytes_in;
use crate::output::write_all;
use crate::run::write_lines;
use crate::share::{Told, share};
use crate::shared_commands::{SharedCommand, shared_command_of};
use crate::status::Status;
use cfg_providers::CustomSource;
use cfg_script::{ScriptError, ShareScript, read_share};
use cfg_types::OutOfMemory;
use cfg_world::{Sink, Source, StreamFault};
use std::alloc::Global;
use std::sync::Wait;
use std::thread::Threads;

/// Does what the program's arguments ask for that is done on several threads: reads a script of several callers from the
/// source, makes the call of each on a thread of its own, on one kept state, or a section of each at one gate, and writes
/// their lines to the sink, in the callers' order, and a last one. It answers how that ended. The arguments are read
/// first: where they ask for nothing that is known here, source and sink stay as they were. Nothing is written before
/// the script was read to its end. The command `share` alone gives its chain the sources in `custom`, which profiles
/// find by `credential_source`.
pub fn run_shared<R: Threads + Wait + Sync, S: Source, K: Sink>(
    rt: &R,
    alloc: Global,
    arguments: &[String],
    source: &mut S,
    sink: &mut K,
    custom: Vec<CustomSource>,
) -> Status
    ensures ends { EndsShared (source_seen ⟦<S as Source>⟧ source.old source.new) (sink_seen ⟦<K as Sink>⟧ sink.old sink.new)
        (named_sources value custom.items) (shared_command_named (map (λ a. string_bytes a) arguments.now)) result }
    ensures unread { shared_command_named (map (λ a. string_bytes a) arguments.now) ≡ None → source.new ≡ source.old }
    ensures unwritten { shared_command_named (map (λ a. string_bytes a) arguments.now) ≡ None → sink.new ≡ sink.old }
    ensures comes { IsTrue (shared_comes result) }
{
    match shared_command_of(arguments) {
        None => Status::UnknownCommand,
        Some(SharedCommand::Share) => share_script(rt, alloc, source, sink, custom),
        Some(SharedCommand::Gated) => gated_script(rt, alloc, source, sink),
    }
}

// Reads a script of several callers, makes their calls, and writes their lines.
fn share_script<R: Threads + Wait + Sync, S: Source, K: Sink>(
    rt: &R,
    alloc: Global,
    source: &mut S,
    sink: &mut K,
    custom: Vec<CustomSource>,
) -> Status
    ensures { EndsShare (source_seen ⟦<S as Source>⟧ source.old source.new) (sink_seen ⟦<K as Sink>⟧ sink.old sink.new)
        (named_sources value custom.items) result }
{
    match share_in(alloc, source) {
        Ok(script) => match share(rt, alloc, script, custom) {
            Ok(told) => write_told(sink, &told),
            Err(OutOfMemory) => Status::OutOfMemory,
        },
        Err(ended) => ended,
    }
}

// Reads a script of several callers, makes a section of each at a gate, and writes their lines.
fn gated_script<R: Threads + Wait + Sync, S: Source, K: Sink>(
    rt: &R,
    alloc: Global,
    source: &mut S,
    sink: &mut K,
) -> Status
    ensures { EndsReading (source_seen ⟦<S as Source>⟧ source.old source.new) (sink_seen ⟦<K as Sink>⟧ sink.old sink.new)
        share_of_one_call GatedAnswers result }
{
    match share_in(alloc, source) {
        Ok(script) => match gated(rt, alloc, script) {
            Ok(answered) => write_lines(sink, &answered),
            Err(OutOfMemory) => Status::OutOfMemory,
        },
        Err(ended) => ended,
    }
}

// The script that the source has, or how a run ends that finds none.
#[tactic(auto, using(crate::proofs::Endings::early_unread))]
fn share_in<S: Source>(alloc: Global, source: &mut S) -> Result<ShareScript, Status>
    ensures read { let seen = source_seen ⟦<S as Source>⟧ source.old source.new in
        MatchResult result (λ script. IsScript seen share_of_one_call (plain_share script)) (λ ended. EndsUnread seen share_of_one_call ended) }
    ensures fit { IfOk result (λ script. All AllFit script.callers.items) }
{
    let bytes = bytes_in(alloc, source)?;
    match read_share(alloc, bytes.as_slice()) {
        Ok(script) => {
            // Each caller makes one call.
            if script.calls == 1 {
                Ok(script)
            } else {
                Err(Status::NoScript)
            }
        }
        Err(ScriptError::NoScript) => Err(Status::NoScript),
        Err(ScriptError::OutOfMemory) => Err(Status::OutOfMemory),
    }
}

// Writes the lines of callers.
fn write_told<K: Sink>(sink: &mut K, told: &Told) -> Status
    ensures { ToldWritten (sink_seen ⟦<K as Sink>⟧ sink.old sink.new) told.now.ended told.now.lines.items result }
{
    match write_all(sink, told.lines.as_slice()) {
        Ok(()) => told.ended,
        Err(StreamFault::Failed) => Status::SinkFault,
        Err(StreamFault::OutOfMemory) => Status::OutOfMemory,
    }
}
