//! The top call.
ghost use Rattle.std.specs.Prelude.{◌≡◌, ◌≤◌, ◌≤ℤ◌, pos, All, IsTrue, None, false, IfOk, MatchResult, map, string_bytes};
ghost use Rattle.cfg_base.specs.TextMap.{named};
ghost use Rattle.cfg_world.specs.Script.{AllFit};
ghost use Rattle.cfg_chain.specs.Views.{named_sources};
ghost use Rattle.cfg_endpoint.specs.Made.{IsMade};
ghost use Rattle.cfg_script.specs.Script.{plain, plain_audit};
ghost use Rattle.cfg_script.specs.Devices.{lists_of};
ghost use Rattle.cfg_script.specs.Reading.{script_of, audit_of};
ghost use Rattle.cfg_program.specs.Commands.{command_named, is_command, most_profiles};
ghost use Rattle.cfg_program.specs.Scripts.{reads_input, script_of_one_call};
ghost use Rattle.cfg_program.specs.Written.{TextWritten, LinesWritten};
ghost use Rattle.cfg_program.specs.Calls.{Answers};
ghost use Rattle.cfg_program.specs.Cached.{CachedAnswers};
ghost use Rattle.cfg_program.specs.Regions.{RegionAnswers};
ghost use Rattle.cfg_program.specs.Tokens.{TokenAnswers};
ghost use Rattle.cfg_program.specs.Explained.{ExplainAnswers};
ghost use Rattle.cfg_program.specs.Audited.{AuditAnswers};
ghost use Rattle.cfg_program.specs.Local.{LeavesWorld, WorldAfter};
ghost use Rattle.cfg_program.specs.Streams.{source_seen, sink_seen};
ghost use Rattle.cfg_program.specs.Endpoints.{endpoint_at_first, made_endpoint_of, EndpointAnswers};
ghost use Rattle.cfg_program.specs.Run.{EndsRun, EndsReading, EndsUnread, EndsLocal, IsScript, world_seen};
ghost use Rattle.cfg_program.specs.Exclusion.{comes};
ghost use Rattle.cfg_program.specs.Generated.{GeneratedWritten};

use crate::audit::audit;
use crate::cached::cached;
use crate::causes::Below;
use crate::commands::{Command, HELP, VERSION, command_of};
use crate::endpoint::{answer_by, endpoint_by};
use crate::explain::explain;
use crate::generated::generate;
use crate::input::bytes_in;
use crate::lines::LineForm;
use crate::local::call_locally;
use crate::outcome::Answered;
use crate::output::write_all;
use crate::region::find_region;
use crate::resolve::resolve;
use crate::status::Status;
use crate::token::find_token;
use cfg_endpoint::Endpoint;
use cfg_providers::CustomSource;
use cfg_script::{AuditScript, EndpointScript, Script, ScriptError, read_audit, read_script};
use cfg_types::{EnvText, OutOfMemory};
use cfg_world::{Devices, Sink, Source, StreamFault, World};
use std::alloc::Global;

/// Does what the program's arguments ask for: tells a text; or reads a script from the source and writes the lines of
/// its calls, or of these under one name of a cache, or of its default region or token chain, to the sink, or which
/// member asked each question of its call, or whether its journal can be that of a call; or reads what a local endpoint
/// serves and writes the lines of the calls over it; or writes the line of the call over a set of profiles that comes
/// from a number, or of the call over `env` and the world. It answers how that ended. The arguments are read first:
/// where they are no command that reads, the source stays as it was, and for an unknown command the sink too. Nothing
/// is written before the input was read to its end. The commands `resolve`, `why`, `cached`, `explain`, `audit` and
/// `local` alone give their chain the sources in `custom`, which profiles find by `credential_source`. The command
/// `local` alone asks the world, whose journal gains its questions; without it `env` is left aside, and the world stays
/// as it was.
pub fn run<S: Source, K: Sink, D: Devices>(
    arguments: &[String],
    source: &mut S,
    sink: &mut K,
    env: Vec<(String, EnvText)>,
    world: &mut World<D>,
    custom: Vec<CustomSource>,
) -> Status
    ensures ends { EndsRun
        (record {
          source = source_seen ⟦<S as Source>⟧ source.old source.new;
          sink = sink_seen ⟦<K as Sink>⟧ sink.old sink.new;
          world = world_seen world.old.journal world.new.journal;
        })
        (record { sources = named_sources value custom.items; variables = map named env.items })
        (command_named (map (λ a. string_bytes a) arguments.now)) result }
    ensures unread { is_command reads_input (command_named (map (λ a. string_bytes a) arguments.now)) ≡ false → source.new ≡ source.old }
    ensures unwritten { command_named (map (λ a. string_bytes a) arguments.now) ≡ None → sink.new ≡ sink.old }
    ensures world { WorldAfter ⟦<D as Devices>⟧ (record { sources = named_sources value custom.items; variables = map named env.items })
        (command_named (map (λ a. string_bytes a) arguments.now)) world.old world.new result }
    ensures comes { IsTrue (comes result) }
{
    let alloc = *env.allocator();
    match command_of(arguments) {
        None => Status::UnknownCommand,
        Some(Command::Help) => tell(sink, HELP),
        Some(Command::Version) => tell(sink, VERSION),
        Some(Command::Resolve(below)) => {
            resolve_script(alloc, source, sink, custom, LineForm::Call(below))
        }
        Some(Command::Cached) => cached_lines(alloc, source, sink, custom),
        Some(Command::Region) => region_line(alloc, source, sink),
        Some(Command::Token(below)) => token_line(alloc, source, sink, below),
        Some(Command::Explain) => explain_lines(alloc, source, sink, custom),
        Some(Command::Audit) => audit_line(alloc, source, sink, custom),
        Some(Command::Endpoint) => endpoint_lines(alloc, source, sink),
        Some(Command::Local) => local_line(alloc, sink, env, world, custom),
        Some(Command::Generate(n)) => generate_line(alloc, n, sink),
    }
}

// Tells a text.
fn tell<K: Sink>(sink: &mut K, text: &str) -> Status
    ensures { TextWritten (sink_seen ⟦<K as Sink>⟧ sink.old sink.new) text.now result }
{
    match write_all(sink, text.as_bytes()) {
        Ok(()) => Status::Done,
        Err(StreamFault::Failed) => Status::SinkFault,
        Err(StreamFault::OutOfMemory) => Status::OutOfMemory,
    }
}

// Reads a script, makes its calls, and writes their lines in this form.
fn resolve_script<S: Source, K: Sink>(
    alloc: Global,
    source: &mut S,
    sink: &mut K,
    custom: Vec<CustomSource>,
    form: LineForm,
) -> Status
    ensures { EndsReading (source_seen ⟦<S as Source>⟧ source.old source.new) (sink_seen ⟦<K as Sink>⟧ sink.old sink.new)
        script_of (Answers (named_sources value custom.items) form) result }
{
    match script_in(alloc, source) {
        Ok(script) => match resolve(alloc, script, custom, form) {
            Ok(answered) => write_lines(sink, &answered),
            Err(OutOfMemory) => Status::OutOfMemory,
        },
        Err(ended) => ended,
    }
}

// Reads a script, makes its calls under one name of a cache, and writes their lines.
fn cached_lines<S: Source, K: Sink>(
    alloc: Global,
    source: &mut S,
    sink: &mut K,
    custom: Vec<CustomSource>,
) -> Status
    ensures { EndsReading (source_seen ⟦<S as Source>⟧ source.old source.new) (sink_seen ⟦<K as Sink>⟧ sink.old sink.new)
        script_of (CachedAnswers (named_sources value custom.items)) result }
{
    match script_in(alloc, source) {
        Ok(script) => match cached(alloc, script, custom) {
            Ok(answered) => write_lines(sink, &answered),
            Err(OutOfMemory) => Status::OutOfMemory,
        },
        Err(ended) => ended,
    }
}

// Reads a script of one call, makes the call of its default region chain, and writes its line.
fn region_line<S: Source, K: Sink>(alloc: Global, source: &mut S, sink: &mut K) -> Status
    ensures { EndsReading (source_seen ⟦<S as Source>⟧ source.old source.new) (sink_seen ⟦<K as Sink>⟧ sink.old sink.new)
        script_of_one_call RegionAnswers result }
{
    match one_call_in(alloc, source) {
        Ok(script) => match find_region(alloc, script) {
            Ok(answered) => write_lines(sink, &answered),
            Err(OutOfMemory) => Status::OutOfMemory,
        },
        Err(ended) => ended,
    }
}

// Reads a script of one call, makes the call of its default token chain, and writes its line, with this below that
// of an error.
fn token_line<S: Source, K: Sink>(
    alloc: Global,
    source: &mut S,
    sink: &mut K,
    below: Below,
) -> Status
    ensures { EndsReading (source_seen ⟦<S as Source>⟧ source.old source.new) (sink_seen ⟦<K as Sink>⟧ sink.old sink.new)
        script_of_one_call (TokenAnswers below) result }
{
    match one_call_in(alloc, source) {
        Ok(script) => match find_token(alloc, script, below) {
            Ok(answered) => write_lines(sink, &answered),
            Err(OutOfMemory) => Status::OutOfMemory,
        },
        Err(ended) => ended,
    }
}

// Reads a script of one call, makes it, and writes who asked each question, and its line.
fn explain_lines<S: Source, K: Sink>(
    alloc: Global,
    source: &mut S,
    sink: &mut K,
    custom: Vec<CustomSource>,
) -> Status
    ensures { EndsReading (source_seen ⟦<S as Source>⟧ source.old source.new) (sink_seen ⟦<K as Sink>⟧ sink.old sink.new)
        script_of_one_call (ExplainAnswers (named_sources value custom.items)) result }
{
    match one_call_in(alloc, source) {
        Ok(script) => match explain(alloc, script, custom) {
            Ok(answered) => write_lines(sink, &answered),
            Err(OutOfMemory) => Status::OutOfMemory,
        },
        Err(ended) => ended,
    }
}

// Reads a script of an audit, and writes whether its journal can be that of a call.
fn audit_line<S: Source, K: Sink>(
    alloc: Global,
    source: &mut S,
    sink: &mut K,
    custom: Vec<CustomSource>,
) -> Status
    ensures { EndsReading (source_seen ⟦<S as Source>⟧ source.old source.new) (sink_seen ⟦<K as Sink>⟧ sink.old sink.new)
        audit_of (AuditAnswers (named_sources value custom.items)) result }
{
    match audit_in(alloc, source) {
        Ok(script) => match audit(alloc, script, custom) {
            Ok(answered) => write_lines(sink, &answered),
            Err(OutOfMemory) => Status::OutOfMemory,
        },
        Err(ended) => ended,
    }
}

// Reads the object of an endpoint, makes its calls, and writes their lines.
fn endpoint_lines<S: Source, K: Sink>(alloc: Global, source: &mut S, sink: &mut K) -> Status
    ensures { EndsReading (source_seen ⟦<S as Source>⟧ source.old source.new) (sink_seen ⟦<K as Sink>⟧ sink.old sink.new)
        made_endpoint_of EndpointAnswers result }
{
    match endpoint_in(alloc, source) {
        Ok((script, endpoint)) => match answer_by(alloc, script, endpoint) {
            Ok(answered) => write_lines(sink, &answered),
            Err(OutOfMemory) => Status::OutOfMemory,
        },
        Err(ended) => ended,
    }
}

// The object of an endpoint that the source has, and the endpoint; or how a run ends that finds none.
fn endpoint_in<S: Source>(
    alloc: Global,
    source: &mut S,
) -> Result<(EndpointScript, Endpoint), Status>
    ensures read { let seen = source_seen ⟦<S as Source>⟧ source.old source.new in
        MatchResult result (λ found. IsScript seen made_endpoint_of found.0) (λ ended. EndsUnread seen made_endpoint_of ended) }
    ensures clock { IfOk result (λ found. All (λ m. pos 0 ≤ℤ m.seconds) found.0.clock) }
    ensures new { IfOk result (λ found. found.1 ≡ endpoint_at_first found.0) }
    ensures made { IfOk result (λ found. IsMade found.1) }
{
    match bytes_in(alloc, source) {
        Ok(bytes) => endpoint_by(alloc, bytes.as_slice()),
        Err(ended) => Err(ended),
    }
}

// The script of one call that the source has, or how a run ends that finds none.
fn one_call_in<S: Source>(alloc: Global, source: &mut S) -> Result<Script, Status>
    ensures read { let seen = source_seen ⟦<S as Source>⟧ source.old source.new in
        MatchResult result (λ script. IsScript seen script_of_one_call (plain script)) (λ ended. EndsUnread seen script_of_one_call ended) }
    ensures fit { IfOk result (λ script. AllFit (lists_of (plain script))) }
{
    match script_in(alloc, source) {
        Ok(script) => {
            // The commands that read such a script write one line.
            if script.calls == 1 {
                Ok(script)
            } else {
                Err(Status::NoScript)
            }
        }
        Err(ended) => Err(ended),
    }
}

// The script that the source has, or how a run ends that finds none.
#[tactic(auto, using(crate::proofs::Endings::early_unread))]
fn script_in<S: Source>(alloc: Global, source: &mut S) -> Result<Script, Status>
    ensures read { let seen = source_seen ⟦<S as Source>⟧ source.old source.new in
        MatchResult result (λ script. IsScript seen script_of (plain script)) (λ ended. EndsUnread seen script_of ended) }
    ensures fit { IfOk result (λ script. AllFit (lists_of (plain script))) }
{
    let bytes = bytes_in(alloc, source)?;
    match read_script(alloc, bytes.as_slice()) {
        Ok(script) => Ok(script),
        Err(ScriptError::NoScript) => Err(Status::NoScript),
        Err(ScriptError::OutOfMemory) => Err(Status::OutOfMemory),
    }
}

// The script of an audit that the source has, or how a run ends that finds none.
#[tactic(auto, using(crate::proofs::Endings::early_unread))]
fn audit_in<S: Source>(alloc: Global, source: &mut S) -> Result<AuditScript, Status>
    ensures { let seen = source_seen ⟦<S as Source>⟧ source.old source.new in
        MatchResult result (λ script. IsScript seen audit_of (plain_audit script)) (λ ended. EndsUnread seen audit_of ended) }
{
    let bytes = bytes_in(alloc, source)?;
    match read_audit(alloc, bytes.as_slice()) {
        Ok(script) => Ok(script),
        Err(ScriptError::NoScript) => Err(Status::NoScript),
        Err(ScriptError::OutOfMemory) => Err(Status::OutOfMemory),
    }
}

// Makes the call over what is handed in, and writes its line.
fn local_line<K: Sink, D: Devices>(
    alloc: Global,
    sink: &mut K,
    env: Vec<(String, EnvText)>,
    world: &mut World<D>,
    custom: Vec<CustomSource>,
) -> Status
    ensures ends { EndsLocal (sink_seen ⟦<K as Sink>⟧ sink.old sink.new) (world_seen world.old.journal world.new.journal)
        (record { sources = named_sources value custom.items; variables = map named env.items }) result }
    ensures leaves { LeavesWorld ⟦<D as Devices>⟧ (record { sources = named_sources value custom.items; variables = map named env.items })
        world.old world.new result }
{
    match call_locally(alloc, env, custom, world) {
        Ok(answered) => write_lines(sink, &answered),
        Err(OutOfMemory) => Status::OutOfMemory,
    }
}

// Makes the call over the set of n profiles, and writes its line.
fn generate_line<K: Sink>(alloc: Global, n: u64, sink: &mut K) -> Status
    requires { n ≤ most_profiles }
    ensures { GeneratedWritten (sink_seen ⟦<K as Sink>⟧ sink.old sink.new) n result }
{
    match generate(alloc, n) {
        Ok(answered) => write_lines(sink, &answered),
        Err(OutOfMemory) => Status::OutOfMemory,
    }
}

/// Writes the lines of calls, and tells how that ended.
pub(crate) fn write_lines<K: Sink>(sink: &mut K, answered: &Answered) -> Status
    ensures { LinesWritten (sink_seen ⟦<K as Sink>⟧ sink.old sink.new) answered.now.is_ok answered.now.lines.items result }
{
    match write_all(sink, answered.lines.as_slice()) {
        Ok(()) if answered.is_ok => Status::Done,
        Ok(()) => Status::Refused,
        Err(StreamFault::Failed) => Status::SinkFault,
        Err(StreamFault::OutOfMemory) => Status::OutOfMemory,
    }
}
