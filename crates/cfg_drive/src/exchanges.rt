//! Questions that are written, and answers that are read.
ghost use Rattle.std.specs.Prelude.{◌≡◌, ◌≤◌, IfOk, MatchResult, Some};
ghost use Rattle.cfg_chain.specs.Views.{chain_of};
ghost use Rattle.cfg_program.specs.Streams.{sink_seen};
ghost use Rattle.cfg_drive.specs.Conversations.{heard};
ghost use Rattle.cfg_drive.specs.Breaks.{Puts, StopsPut, Answers, StopsAnswer, EndsCall, StopsCall, StopsLine, Reads};
ghost use Rattle.cfg_lines.specs.Reasons.{IsReason};

use crate::driven::{Cause, Stopped, broken_at};
use crate::line_reader::{LineError, LineReader};
use cfg_chain::DefaultCredentialsChain;
use cfg_lines::{AnswerError, NoAnswer, answer_in, find_no_answer, question_line};
use cfg_program::output::write_all;
use cfg_run::{Run, Step};
use cfg_types::{Credentials, CredentialsError, OutOfMemory, TryCopy};
use cfg_world::{Entry, Question, Receipt, Sink, Source, StreamFault};
use std::alloc::Global;

/// What a call answered, and what it asked.
pub(crate) struct Called {
    /// What it answered.
    pub(crate) answer: Result<Credentials, CredentialsError>,
    /// Its questions with their answers, in order.
    pub(crate) journal: Vec<Entry>,
}

impl Drop for Called {
    fn drop(self) {
        let Called {
            answer: _,
            journal: _,
        } = self;
    }
}

/// A call of the chain, before which nothing is kept: each question is written to the sink, and the line that is read
/// next answers it.
pub(crate) fn call_over<S: Source, K: Sink>(
    alloc: Global,
    chain: &DefaultCredentialsChain,
    reader: &mut LineReader,
    source: &mut S,
    sink: &mut K,
) -> Result<Called, Stopped>
    ensures ends { let over = chain_of value repeated chain.now in let source_seen = heard ⟦<S as Source>⟧ reader.old source.old reader.new source.new in
        let told = sink_seen ⟦<K as Sink>⟧ sink.old sink.new in
        MatchResult result (λ c. EndsCall over source_seen told c.journal.items c.answer) (λ stopped. StopsCall over source_seen told stopped) }
    ensures source_counted { S.faults source.old ≤ S.faults source.new }
    ensures sink_counted { K.faults sink.old ≤ K.faults sink.new }
{
    let mut run = Run::start(chain, chain.new_kept()?);
    let mut receipt = None;
    // The number of the line that answers.
    for line in 2..u64::MAX {
        match run.poll(receipt)? {
            Step::Pending => {
                let question = run.question().unwrap().copy(alloc)?;
                put(alloc, sink, &question)?;
                receipt = Some(answer(alloc, reader, source, question, line)?);
            }
            Step::Ready(answer) => {
                let journal = entries_of(alloc, run.asked())?;
                return Ok(Called { answer, journal });
            }
        }
    }
    // No memory holds so many receipts.
    Err(Stopped::OutOfMemory)
}

// Writes the line of the question.
fn put<K: Sink>(alloc: Global, sink: &mut K, question: &Question) -> Result<(), Stopped>
    ensures put { let told = sink_seen ⟦<K as Sink>⟧ sink.old sink.new in
        MatchResult result (λ _. Puts told question.now) (λ stopped. StopsPut told question.now stopped) }
    ensures counted { K.faults sink.old ≤ K.faults sink.new }
{
    let line = question_line(alloc, question)?;
    match write_all(sink, line.as_slice()) {
        Ok(()) => Ok(()),
        Err(StreamFault::Failed) => Err(Stopped::Unwritten),
        Err(StreamFault::OutOfMemory) => Err(Stopped::OutOfMemory),
    }
}

// What the next line, which has this number, answers to the question.
fn answer<S: Source>(
    alloc: Global,
    reader: &mut LineReader,
    source: &mut S,
    question: Question,
    number: u64,
) -> Result<Receipt, Stopped>
    ensures answer { let seen = heard ⟦<S as Source>⟧ reader.old source.old reader.new source.new in
        MatchResult result (λ r. Answers seen question r) (λ stopped. StopsAnswer seen question number stopped) }
    ensures counted { S.faults source.old ≤ S.faults source.new }
{
    let line = next_line(reader, source, number)?;
    let asked = question.copy(alloc)?;
    match answer_in(alloc, question, line.as_slice()) {
        Ok(receipt) => Ok(receipt),
        Err(AnswerError::NoAnswer) => {
            let reason = reason_of(alloc, &asked, line.as_slice())?;
            Err(broken_at(number, Cause::NoAnswer(reason)))
        }
        Err(AnswerError::OutOfMemory) => Err(Stopped::OutOfMemory),
    }
}

/// The next line, which has this number, without its end.
pub(crate) fn next_line<S: Source>(
    reader: &mut LineReader,
    source: &mut S,
    number: u64,
) -> Result<Vec<u8>, Stopped>
    ensures line { let seen = heard ⟦<S as Source>⟧ reader.old source.old reader.new source.new in
        MatchResult result (λ line. Reads seen line.items) (λ stopped. StopsLine seen number stopped) }
    ensures counted { S.faults source.old ≤ S.faults source.new }
{
    match reader.next_line(source) {
        Ok(line) => Ok(line),
        Err(LineError::Ended) => Err(broken_at(number, Cause::Ended)),
        Err(LineError::Failed) => Err(broken_at(number, Cause::Failed)),
        Err(LineError::TooLong) => Err(broken_at(number, Cause::TooLong)),
        Err(LineError::OutOfMemory) => Err(Stopped::OutOfMemory),
    }
}

// Why the line answers nothing.
fn reason_of(alloc: Global, question: &Question, line: &[u8]) -> Result<NoAnswer, OutOfMemory>
    ensures { IfOk result (λ reason. IsReason question.now line.now (Some reason)) }
{
    match find_no_answer(alloc, question, line)? {
        Some(reason) => Ok(reason),
        // It was read as no answer, so that there is a reason.
        None => Err(OutOfMemory),
    }
}

// The entries of these receipts.
fn entries_of(alloc: Global, receipts: &[Receipt]) -> Result<Vec<Entry>, OutOfMemory>
    ensures { IfOk result (λ entries. entries.items ≡ receipts.now) }
{
    let mut entries = Vec::new(alloc);
    for receipt in receipts {
        entries.push(receipt.entry().copy(alloc)?)?;
    }
    Ok(entries)
}
