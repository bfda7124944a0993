//! What stands below the line of a call: of credentials which members of the chain were passed over, and why; which one
//! gave them, and what it asked; of an error, behind its causes, what was asked.
ghost use Rattle.std.specs.Prelude.{◌≡◌, ◌++◌, false, is_ok, IfOk, OnOk};
ghost use Rattle.std.specs.List.{flat_map};
ghost use Rattle.std.specs.Str.{encode_utf8_all};
ghost use Rattle.cfg_types.specs.Classes.{is_memory};
ghost use Rattle.cfg_chain.specs.Members.{name_of};
ghost use Rattle.cfg_chain.specs.Views.{chain_of};
ghost use Rattle.cfg_program.specs.Why.{passed_over_line, answered_line, answered_lines, subject_behind, asked_line, asked_lines, reason_lines, below_credentials, below_call, told_as};

use crate::causes::{Below, write_escaped};
use crate::lines::{LineForm, write_kind, write_word};
use crate::outcome::tell;
use cfg_chain::{DefaultCredentialsChain, Member};
use cfg_error_report::causes_of;
use cfg_explain::{PassedOver, own_part, reasons_of, subject_of};
use cfg_types::{Credentials, CredentialsError, Env, OutOfMemory, Text};
use cfg_world::Entry;
use std::alloc::AllocError;
use std::string::ToString;

/// Writes the line of a call of this chain behind the others, and what stands below it in this form; tells whether the
/// call gave credentials. `OutOfMemory` where memory runs out, also where that is what the call answered.
#[tactic(auto, using(std::proofs::lemmas::Grind::common_steps))]
pub fn tell_call(
    lines: &mut Vec<u8>,
    chain: &DefaultCredentialsChain,
    form: LineForm,
    outcome: &Result<Credentials, CredentialsError>,
    journal: &[Entry],
) -> Result<bool, OutOfMemory>
    ensures memory { IfOk result (λ b. is_memory outcome.now ≡ false) }
    ensures credentials { IfOk result (λ b. b ≡ is_ok outcome.now) }
    ensures line { let over = chain_of value repeated chain.now in
        IfOk result (λ b. lines.new.items ≡ lines.old.items ++ told_as over form outcome.now journal.now) }
{
    let is_ok = tell(lines, form, outcome, journal)?;
    write_below_call(lines, chain, form, outcome, journal)?;
    Ok(is_ok)
}

// What stands below the line of a call in this form.
fn write_below_call(
    lines: &mut Vec<u8>,
    chain: &DefaultCredentialsChain,
    form: LineForm,
    outcome: &Result<Credentials, CredentialsError>,
    journal: &[Entry],
) -> Result<(), OutOfMemory>
    ensures { let over = chain_of value repeated chain.now in
        OnOk result (lines.new.items ≡ lines.old.items ++ below_call over form outcome.now journal.now) }
{
    match form {
        LineForm::Call(below) => write_below(lines, chain, below, outcome, journal),
        LineForm::Generated(_) => Ok(()),
    }
}

// What stands below the line of credentials, and of an error behind its causes, where it is asked for.
fn write_below(
    lines: &mut Vec<u8>,
    chain: &DefaultCredentialsChain,
    below: Below,
    outcome: &Result<Credentials, CredentialsError>,
    journal: &[Entry],
) -> Result<(), OutOfMemory>
    ensures { let over = chain_of value repeated chain.now in
        OnOk result (lines.new.items ≡ lines.old.items ++ below_credentials over below outcome.now journal.now) }
{
    match (below, outcome) {
        (Below::Causes, Ok(_)) => write_reasons(lines, chain, outcome, journal),
        (Below::Causes, Err(_)) => write_journal(lines, journal),
        _ => Ok(()),
    }
}

// Which members were passed over, and which one gave the credentials, with what it asked.
#[tactic(auto, using(std::proofs::lemmas::Grind::common_steps))]
fn write_reasons(
    lines: &mut Vec<u8>,
    chain: &DefaultCredentialsChain,
    outcome: &Result<Credentials, CredentialsError>,
    journal: &[Entry],
) -> Result<(), OutOfMemory>
    ensures { let over = chain_of value repeated chain.now in
        OnOk result (lines.new.items ≡ lines.old.items ++ reason_lines over outcome.now journal.now) }
{
    let reasons = reasons_of(*lines.allocator(), chain, outcome)?;
    write_passed_over(lines, reasons.passed_over.as_slice())?;
    write_answered(lines, chain.core.config().env(), reasons.answered, journal)?;
    Ok(())
}

fn write_passed_over(lines: &mut Vec<u8>, members: &[PassedOver]) -> Result<(), OutOfMemory>
    ensures { OnOk result (lines.new.items ≡ lines.old.items ++ flat_map passed_over_line members.now) }
{
    for member in members {
        write_one_passed_over(lines, member)?;
    }
    Ok(())
}

// The member, and why it was passed over, in one line.
#[tactic(auto, using(std::proofs::lemmas::Grind::common_steps))]
fn write_one_passed_over(lines: &mut Vec<u8>, passed: &PassedOver) -> Result<(), OutOfMemory>
    ensures { OnOk result (lines.new.items ≡ lines.old.items ++ passed_over_line passed.now) }
{
    let causes = causes_of(*lines.allocator(), &passed.error)?;
    let text = causes.to_string(*lines.allocator())?;
    write_word(lines, b"  ")?;
    write_name(lines, passed.member)?;
    write_word(lines, b" passed over: ")?;
    write_escaped(lines, text.as_str())?;
    lines.push(b'\n')?;
    Ok(())
}

// The member that gave the credentials, and what it asked.
#[tactic(auto, using(std::proofs::lemmas::Grind::common_steps))]
fn write_answered(
    lines: &mut Vec<u8>,
    env: &Env,
    answered: Option<Member>,
    journal: &[Entry],
) -> Result<(), OutOfMemory>
    ensures { OnOk result (lines.new.items ≡ lines.old.items ++ answered_lines env.now answered journal.now) }
{
    let Some(member) = answered else {
        return Ok(());
    };
    write_member(lines, member)?;
    write_part(lines, own_part(env, member, journal))?;
    Ok(())
}

#[tactic(auto, using(std::proofs::lemmas::Grind::common_steps))]
fn write_member(lines: &mut Vec<u8>, member: Member) -> Result<(), OutOfMemory>
    ensures { OnOk result (lines.new.items ≡ lines.old.items ++ answered_line member) }
{
    write_word(lines, b"  ")?;
    write_name(lines, member)?;
    write_word(lines, b" answered\n")?;
    Ok(())
}

fn write_name(lines: &mut Vec<u8>, member: Member) -> Result<(), OutOfMemory>
    ensures { OnOk result (lines.new.items ≡ lines.old.items ++ encode_utf8_all (name_of member)) }
{
    let name = Text::of(*lines.allocator(), member.name())?;
    write_word(lines, name.as_str().as_bytes())?;
    Ok(())
}

/// Writes a line for each question of a call, below a heading: its kind, with `!` where it failed, and what it was about.
/// Nothing is written where nothing was asked. `OutOfMemory` where memory runs out.
#[tactic(auto, using(std::proofs::lemmas::Grind::common_steps))]
pub fn write_journal(lines: &mut Vec<u8>, journal: &[Entry]) -> Result<(), OutOfMemory>
    ensures { OnOk result (lines.new.items ≡ lines.old.items ++ asked_lines journal.now) }
{
    if journal.is_empty() {
        return Ok(());
    }
    write_word(lines, b"  asked\n")?;
    write_part(lines, journal)
}

// A line for each entry.
fn write_part(lines: &mut Vec<u8>, part: &[Entry]) -> Result<(), OutOfMemory>
    ensures { OnOk result (lines.new.items ≡ lines.old.items ++ flat_map asked_line part.now) }
{
    for entry in part {
        write_asked_entry(lines, entry)?;
    }
    Ok(())
}

// The kind of the question, and what it was about.
#[tactic(auto, using(std::proofs::lemmas::Grind::common_steps))]
fn write_asked_entry(lines: &mut Vec<u8>, entry: &Entry) -> Result<(), OutOfMemory>
    ensures { OnOk result (lines.new.items ≡ lines.old.items ++ asked_line entry.now) }
{
    let subject = subject_of(*lines.allocator(), entry.question())?;
    write_word(lines, b"    ")?;
    write_kind(lines, entry)?;
    write_subject(lines, subject.as_str())?;
    lines.push(b'\n')?;
    Ok(())
}

// A blank, and what a question is about, where there is such a text.
#[tactic(auto, using(std::proofs::lemmas::Grind::common_steps))]
fn write_subject(lines: &mut Vec<u8>, subject: &str) -> Result<(), AllocError>
    ensures { OnOk result (lines.new.items ≡ lines.old.items ++ subject_behind subject.now) }
{
    if subject.is_empty() {
        return Ok(());
    }
    lines.push(b' ')?;
    write_escaped(lines, subject)
}
