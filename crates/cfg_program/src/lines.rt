//! The lines of calls.
ghost use Rattle.std.specs.Prelude.{◌≡◌, ◌<◌, ◌++◌, OnOk, codes};
ghost use Rattle.std.specs.List.{flat_map};
ghost use Rattle.std.specs.Fmt.{decimal, signed_decimal};
ghost use Rattle.cfg_error_report.specs.CredentialsCauses.{causes_of};
ghost use Rattle.cfg_program.specs.CauseLines.{with_below};
ghost use Rattle.cfg_program.specs.Lines.{shown_text, three_digits as three_digits_of, nine_digits as nine_digits_of, shown_expiry, kind as kind_shown, later_kind, kinds as kinds_of, shown_credentials, shown_outcome, shown, is_assume_role as is_assume_role_of, exchanges as exchanges_of, shown_generated, shown_as};

use crate::causes::{Below, write_causes};
use cfg_explain::kind_of;
use cfg_types::{Credentials, CredentialsError, Instant, OutOfMemory, Request};
use cfg_world::{Answer, Entry, Question};
use percent_encoding::{AsciiSet, CONTROLS, ascii_set, percent_encode};
use std::alloc::AllocError;
use std::string::ToString;

/// The bytes of a text that a line escapes: control characters, the space and `%`; and those from 128, as always.
pub const ESCAPED: AsciiSet = ascii_set!(CONTROLS.add(b' ').add(b'%'));

/// The form of a call's line.
#[derive(Clone, Copy, Debug, PartialEq, Eq)]
pub enum LineForm {
    /// What the call came to, and the questions that it asked, with this below the line.
    Call(Below),
    /// This number of profiles, how many roles were asked for, and the id of the last key. An error has the
    /// line of `Call`, and nothing below it.
    Generated(u64),
}

/// Writes the line of a call's outcome and of the questions that it asked, in this form. `OutOfMemory` where memory
/// runs out.
pub fn write_call(
    line: &mut Vec<u8>,
    form: LineForm,
    outcome: &Result<Credentials, CredentialsError>,
    journal: &[Entry],
) -> Result<(), OutOfMemory>
    ensures { OnOk result (line.new.items ≡ line.old.items ++ shown_as form outcome.now journal.now) }
{
    match form {
        LineForm::Call(below) => write_with_below(line, below, outcome, journal)?,
        LineForm::Generated(n) => match outcome {
            Ok(credentials) => write_generated(line, n, credentials, journal)?,
            Err(_) => write_asked(line, outcome, journal)?,
        },
    }
    Ok(())
}

// The line, and what stands below it.
fn write_with_below(
    line: &mut Vec<u8>,
    below: Below,
    outcome: &Result<Credentials, CredentialsError>,
    journal: &[Entry],
) -> Result<(), OutOfMemory>
    ensures { OnOk result (line.new.items ≡ line.old.items ++ with_below causes_of below outcome.now (shown outcome.now journal.now)) }
{
    write_asked(line, outcome, journal)?;
    match (below, outcome) {
        (Below::Causes, Err(error)) => write_causes(line, error),
        _ => Ok(()),
    }
}

/// Writes the kind of outcome, what it tells, and the kinds of the questions, each with `!` where it failed. `AllocError`
/// where memory runs out.
#[tactic(auto, using(std::proofs::lemmas::Grind::common_steps), unfolding(crate::specs::Lines::shown))]
pub fn write_asked(
    line: &mut Vec<u8>,
    outcome: &Result<Credentials, CredentialsError>,
    journal: &[Entry],
) -> Result<(), AllocError>
    ensures { OnOk result (line.new.items ≡ line.old.items ++ shown outcome.now journal.now) }
{
    write_outcome(line, outcome)?;
    line.push(b' ')?;
    write_kinds(line, journal)?;
    line.push(b'\n')?;
    Ok(())
}

// `generate`, the number, how many exchanges for roles there were, and the id of the last key.
#[tactic(auto, using(std::proofs::lemmas::Grind::common_steps))]
fn write_generated(
    line: &mut Vec<u8>,
    n: u64,
    credentials: &Credentials,
    journal: &[Entry],
) -> Result<(), AllocError>
    ensures { OnOk result (line.new.items ≡ line.old.items ++ shown_generated n credentials.now journal.now) }
{
    write_word(line, b"generate ")?;
    write_number(line, n)?;
    line.push(b' ')?;
    write_number(line, exchanges(journal))?;
    line.push(b' ')?;
    write_text(line, credentials.access_key_id())?;
    line.push(b'\n')?;
    Ok(())
}

// How many exchanges for roles a journal has.
fn exchanges(journal: &[Entry]) -> u64
    ensures { result ≡ exchanges_of journal.now }
{
    let mut count = 0;
    for entry in journal {
        if is_assume_role(entry.question()) {
            count += 1;
        }
    }
    count
}

fn is_assume_role(question: &Question) -> bool
    ensures { result ≡ is_assume_role_of question.now }
{
    match question {
        Question::Send(request) => matches!(request.get(), Request::AssumeRole(_)),
        _ => false,
    }
}

fn write_outcome(
    line: &mut Vec<u8>,
    outcome: &Result<Credentials, CredentialsError>,
) -> Result<(), AllocError>
    ensures { OnOk result (line.new.items ≡ line.old.items ++ shown_outcome outcome.now) }
{
    match outcome {
        Ok(credentials) => write_credentials(line, credentials)?,
        Err(error) => {
            write_word(line, b"error ")?;
            write_word(line, error.class().name().as_bytes())?;
        }
    }
    Ok(())
}

fn write_credentials(line: &mut Vec<u8>, credentials: &Credentials) -> Result<(), AllocError>
    ensures { OnOk result (line.new.items ≡ line.old.items ++ shown_credentials credentials.now) }
{
    write_word(line, b"credentials ")?;
    write_text(line, credentials.access_key_id())?;
    line.push(b' ')?;
    write_text(line, credentials.provider_name())?;
    line.push(b' ')?;
    write_expiry(line, credentials.expiry())?;
    Ok(())
}

/// Writes the kinds of the questions in order, joined by `,`, each with `!` where it failed; `-` where nothing was
/// asked. `AllocError` where memory runs out.
pub fn write_kinds(line: &mut Vec<u8>, journal: &[Entry]) -> Result<(), AllocError>
    ensures { OnOk result (line.new.items ≡ line.old.items ++ kinds_of journal.now) }
{
    match journal.split_first() {
        None => line.push(b'-')?,
        Some((first, others)) => {
            write_kind(line, first)?;
            write_later_kinds(line, others)?;
        }
    }
    Ok(())
}

/// Writes the kinds of the questions behind what a call came to, and ends the line. `AllocError` where memory runs out.
#[tactic(auto, using(std::proofs::lemmas::Grind::common_steps))]
pub fn write_questions(line: &mut Vec<u8>, journal: &[Entry]) -> Result<(), AllocError>
    ensures { OnOk result (line.new.items ≡ line.old.items ++ (codes " " ++ (kinds_of journal.now ++ codes "\n"))) }
{
    line.push(b' ')?;
    write_kinds(line, journal)?;
    line.push(b'\n')?;
    Ok(())
}

fn write_later_kinds(line: &mut Vec<u8>, journal: &[Entry]) -> Result<(), AllocError>
    ensures { OnOk result (line.new.items ≡ line.old.items ++ flat_map later_kind journal.now) }
{
    for entry in journal {
        line.push(b',')?;
        write_kind(line, entry)?;
    }
    Ok(())
}

pub(crate) fn write_kind(line: &mut Vec<u8>, entry: &Entry) -> Result<(), AllocError>
    ensures { OnOk result (line.new.items ≡ line.old.items ++ kind_shown entry.now) }
{
    write_word(line, kind_of(entry.question()).as_bytes())?;
    if let Answer::Failed(_) = entry.answer() {
        line.push(b'!')?;
    }
    Ok(())
}

/// Writes these bytes as they are. `AllocError` where memory runs out.
pub fn write_word(line: &mut Vec<u8>, word: &[u8]) -> Result<(), AllocError>
    ensures { OnOk result (line.new.items ≡ line.old.items ++ word.now) }
{
    line.extend_from_slice(word)
}

/// Writes `=` and the bytes of the text, those that are escaped as `%` and two hexadecimal digits. `AllocError` where
/// memory runs out.
#[tactic(auto, using(std::proofs::lemmas::Grind::common_steps, crate::proofs::Escaping::word_bytes))]
pub fn write_text(line: &mut Vec<u8>, text: &str) -> Result<(), AllocError>
    ensures { OnOk result (line.new.items ≡ line.old.items ++ shown_text text.now) }
{
    line.push(b'=')?;
    let escaped = percent_encode(text.as_bytes(), ESCAPED).into_cow(*line.allocator())?;
    write_word(line, escaped.as_bytes())
}

/// Writes the seconds since the epoch, `.` and nine digits of nanoseconds, or `none`. `AllocError` where memory runs
/// out.
pub fn write_expiry(line: &mut Vec<u8>, expiry: Option<Instant>) -> Result<(), AllocError>
    ensures { OnOk result (line.new.items ≡ line.old.items ++ shown_expiry expiry) }
{
    let Some(moment) = expiry else {
        write_word(line, b"none")?;
        return Ok(());
    };
    write_signed(line, moment.seconds())?;
    line.push(b'.')?;
    write_nine_digits(line, moment.nanos())?;
    Ok(())
}

fn write_signed(line: &mut Vec<u8>, number: i64) -> Result<(), AllocError>
    ensures { OnOk result (line.new.items ≡ line.old.items ++ signed_decimal number) }
{
    let mut digits = itoa::Buffer::new();
    write_word(line, digits.format(number).as_bytes())?;
    Ok(())
}

/// Writes a number in decimal digits. `AllocError` where memory runs out.
pub fn write_number(line: &mut Vec<u8>, number: u64) -> Result<(), AllocError>
    ensures { OnOk result (line.new.items ≡ line.old.items ++ decimal number) }
{
    let mut digits = itoa::Buffer::new();
    write_word(line, digits.format(number).as_bytes())?;
    Ok(())
}

fn write_nine_digits(line: &mut Vec<u8>, number: u32) -> Result<(), AllocError>
    requires { number < 1000000000 }
    ensures { OnOk result (line.new.items ≡ line.old.items ++ nine_digits_of number) }
{
    write_three_digits(line, number / 1_000_000)?;
    write_three_digits(line, number / 1000 % 1000)?;
    write_three_digits(line, number % 1000)?;
    Ok(())
}

fn write_three_digits(line: &mut Vec<u8>, number: u32) -> Result<(), AllocError>
    requires { number < 1000 }
    ensures { OnOk result (line.new.items ≡ line.old.items ++ three_digits_of number) }
{
    line.push(b'0' + (number / 100) as u8)?;
    line.push(b'0' + (number / 10 % 10) as u8)?;
    line.push(b'0' + (number % 10) as u8)?;
    Ok(())
}
