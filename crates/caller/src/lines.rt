//! The line of a call.
ghost use Rattle.std.specs.Prelude.{◌≡◌, ◌++◌, IfOk, OnOk, string_bytes};
ghost use Rattle.std.specs.List.{flat_map};
ghost use Rattle.caller.specs.Lines.{shown, shown_outcome, shown_entry, word_of, mark_of};

use aws_config::error_report::causes_of;
use aws_config::journal::{Answer, Entry, Question};
use aws_config::{Credentials, CredentialsError, OutOfMemory};
use std::alloc::Global;
use std::string::ToString;

/// The line of a call: the id of the key that it gave, and by which provider, or its error with all that the
/// error comes of; and then what it asked, in order, each with `!` where it failed. `OutOfMemory` where memory
/// runs out.
pub fn call_line(
    alloc: Global,
    outcome: &Result<Credentials, CredentialsError>,
    journal: &[Entry],
) -> Result<String, OutOfMemory>
    ensures { IfOk result (λ line. string_bytes line ≡ shown outcome.now journal.now) }
{
    let mut line = outcome_words(alloc, outcome)?;
    line.push_str("; asked:")?;
    write_entries(&mut line, journal)?;
    line.push_str("\n")?;
    Ok(line)
}

fn outcome_words(
    alloc: Global,
    outcome: &Result<Credentials, CredentialsError>,
) -> Result<String, OutOfMemory>
    ensures { IfOk result (λ words. string_bytes words ≡ shown_outcome outcome.now) }
{
    match outcome {
        Ok(credentials) => {
            let id = credentials.access_key_id();
            let provider = credentials.provider_name();
            Ok(format!(in alloc; "{id} by {provider}")?)
        }
        Err(error) => Ok(causes_of(alloc, error)?.to_string(alloc)?),
    }
}

fn write_entries(line: &mut String, journal: &[Entry]) -> Result<(), OutOfMemory>
    ensures { OnOk result (string_bytes line.new ≡ string_bytes line.old ++ flat_map shown_entry journal.now) }
{
    for entry in journal {
        line.push_str(" ")?;
        line.push_str(question_name(entry.question()))?;
        line.push_str(failure_mark(entry.answer()))?;
    }
    Ok(())
}

fn question_name(question: &Question) -> &'static str
    ensures { result.now ≡ word_of question.now }
{
    match question {
        Question::Now => "clock",
        Question::Jitter => "jitter",
        Question::Read { .. } => "file",
        Question::Write { .. } => "writing",
        Question::Run { .. } => "command",
        Question::LookUp { .. } => "name",
        Question::Send(_) => "request",
    }
}

fn failure_mark(answer: &Answer) -> &'static str
    ensures { result.now ≡ mark_of answer.now }
{
    match answer {
        Answer::Failed(_) => "!",
        _ => "",
    }
}
