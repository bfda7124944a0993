//! The lines of outcomes.
ghost use Rattle.std.specs.Prelude.{◌≡◌, ◌++◌, ◌≤◌, codes, false, option_map, IfOk, Some, string_bytes};
ghost use Rattle.serde_json.specs.Data.{depth, string};
ghost use Rattle.serde_json.specs.Read.{max_depth};
ghost use Rattle.serde_json.specs.Written.{has_float};
ghost use Rattle.serde_json.specs.View.{view};
ghost use Rattle.cfg_types.specs.Classes.{class_of, class_name};
ghost use Rattle.cfg_chain.specs.Views.{chain_of};
ghost use Rattle.cfg_error_report.specs.CredentialsCauses.{causes_of as causes_of_error};
ghost use Rattle.cfg_error_report.specs.Lines.{one_line};
ghost use Rattle.cfg_lines.specs.Members.{put_or_keep, text_value, list_value};
ghost use Rattle.cfg_program.specs.Lines.{shown};
ghost use Rattle.cfg_drive.specs.BrokenTexts.{reason_text};
ghost use Rattle.cfg_drive.specs.Objects.{told_in};
ghost use Rattle.cfg_drive.specs.Outcomes.{moment_value, cause_value, causes_value, passed_over_value, credentials_value, error_value, outcome_value, broken_value, IsJsonLine, IsOutcomeLine, IsBrokenLine};

use crate::driven::Broken;
use crate::object::Object;
use cfg_chain::DefaultCredentialsChain;
use cfg_error_report::{CauseLine, causes_of};
use cfg_explain::{PassedOver, reasons_of};
use cfg_program::lines::write_asked;
use cfg_types::{Credentials, CredentialsError, Instant, OutOfMemory, Text};
use cfg_world::Entry;
use serde_json::Value;
use std::alloc::Global;
use std::string::ToString;

/// The line of what a call of the chain came to, with its end.
pub(crate) fn outcome_line(
    alloc: Global,
    chain: &DefaultCredentialsChain,
    answer: &Result<Credentials, CredentialsError>,
    journal: &[Entry],
) -> Result<Vec<u8>, OutOfMemory>
    ensures { let over = chain_of value repeated chain.now in IfOk result (λ line. IsOutcomeLine over answer.now journal.now line.items) }
{
    let resolved = resolved_line(alloc, answer, journal)?;
    let value = outcome_as_value(alloc, chain, answer, resolved.as_str())?;
    json_line(alloc, &value)
}

/// The line of a conversation that broke off, with its end.
pub(crate) fn broken_line(alloc: Global, broken: &Broken) -> Result<Vec<u8>, OutOfMemory>
    ensures { IfOk result (λ line. IsBrokenLine broken.now line.items) }
{
    let why = broken.cause.to_string(alloc)?;
    let reason = reason_of(alloc, broken.line, why.as_str())?;
    let value = broken_as_value(alloc, reason.as_str())?;
    json_line(alloc, &value)
}

// The number of the line, and why.
fn reason_of(alloc: Global, line: u64, why: &str) -> Result<String, OutOfMemory>
    ensures { IfOk result (λ reason. string_bytes reason ≡ reason_text line why.now) }
{
    Ok(format!(in alloc; "line {line}: {why}")?)
}

#[tactic(auto, unfolding(cfg_lines::specs::Members::object_with, crate::specs::Outcomes::broken_value))]
fn broken_as_value(alloc: Global, reason: &str) -> Result<Value, OutOfMemory>
    ensures { IfOk result (λ v. view v ≡ broken_value reason.now) }
{
    let object = Object::new(alloc)
        .word("outcome", "broken")?
        .word("reason", reason)?;
    Ok(object.into_value())
}

fn outcome_as_value(
    alloc: Global,
    chain: &DefaultCredentialsChain,
    answer: &Result<Credentials, CredentialsError>,
    resolved: &str,
) -> Result<Value, OutOfMemory>
    ensures { let over = chain_of value repeated chain.now in IfOk result (λ v. view v ≡ outcome_value over answer.now resolved.now) }
{
    let reasons = reasons_of(alloc, chain, answer)?;
    let passed = reasons.passed_over.as_slice();
    match answer {
        Ok(keys) => credentials(alloc, passed, keys, resolved),
        Err(error) => refused(alloc, passed, error, resolved),
    }
}

// The value as JSON, and the end of the line.
fn json_line(alloc: Global, value: &Value) -> Result<Vec<u8>, OutOfMemory>
    requires shallow { depth (view value.now) ≤ max_depth }
    requires no_float { has_float (view value.now) ≡ false }
    ensures { IfOk result (λ line. IsJsonLine (view value.now) line.items) }
{
    let mut line = value.to_vec(alloc)?;
    line.push(b'\n')?;
    Ok(line)
}

#[tactic(auto, unfolding(cfg_lines::specs::Members::object_with, crate::specs::Outcomes::credentials_value))]
fn credentials(
    alloc: Global,
    passed: &[PassedOver],
    keys: &Credentials,
    resolved: &str,
) -> Result<Value, OutOfMemory>
    ensures { IfOk result (λ v. view v ≡ credentials_value passed.now keys.now resolved.now) }
{
    let object = Object::new(alloc).word("outcome", "credentials")?;
    let object = with_keys(object, keys)?;
    let object = with_token(object, keys)?;
    let object = with_account(object, keys)?;
    let object = with_expiry(alloc, object, keys.expiry())?
        .with("passed_over", passed_over_list(alloc, passed)?)?
        .word("line", resolved)?;
    Ok(object.into_value())
}

// Who gave the keys, and both of them.
#[tactic(auto, unfolding(cfg_lines::specs::Members::put_or_keep, cfg_lines::specs::Members::text_value))]
fn with_keys(object: Object, keys: &Credentials) -> Result<Object, OutOfMemory>
    ensures { IfOk result (λ o. told_in o ≡ put_or_keep (codes "secret") (Some (text_value keys.now.secret_access_key))
        (put_or_keep (codes "id") (Some (text_value keys.now.access_key_id))
        (put_or_keep (codes "provider") (Some (text_value keys.now.provider_name)) (told_in object)))) }
{
    object
        .word("provider", keys.provider_name())?
        .word("id", keys.access_key_id())?
        .word("secret", keys.secret_access_key())
}

// The session token, where there is one.
#[tactic(auto, unfolding(cfg_lines::specs::Members::put_or_keep, cfg_lines::specs::Members::text_value))]
fn with_token(object: Object, keys: &Credentials) -> Result<Object, OutOfMemory>
    ensures { IfOk result (λ f. told_in f ≡ put_or_keep (codes "token") (option_map text_value keys.now.session_token) (told_in object)) }
{
    match keys.session_token() {
        Some(token) => object.word("token", token),
        None => Ok(object),
    }
}

// The account, where it is known.
#[tactic(auto, unfolding(cfg_lines::specs::Members::put_or_keep, cfg_lines::specs::Members::text_value))]
fn with_account(object: Object, keys: &Credentials) -> Result<Object, OutOfMemory>
    ensures { IfOk result (λ f. told_in f ≡ put_or_keep (codes "account") (option_map text_value keys.now.account_id) (told_in object)) }
{
    match keys.account_id() {
        Some(account) => object.word("account", account.as_str()),
        None => Ok(object),
    }
}

// The expiry, where there is one.
#[tactic(auto, unfolding(cfg_lines::specs::Members::put_or_keep))]
fn with_expiry(
    alloc: Global,
    object: Object,
    expiry: Option<Instant>,
) -> Result<Object, OutOfMemory>
    ensures { IfOk result (λ f. told_in f ≡ put_or_keep (codes "expires") (option_map moment_value expiry) (told_in object)) }
{
    match expiry {
        Some(moment) => object.with("expires", moment_as_value(alloc, moment)?),
        None => Ok(object),
    }
}

#[tactic(auto, unfolding(crate::specs::Outcomes::moment_value))]
fn moment_as_value(alloc: Global, moment: Instant) -> Result<Value, OutOfMemory>
    ensures { IfOk result (λ v. view v ≡ moment_value moment) }
{
    let mut pair = Vec::with_capacity(alloc, 2)?;
    pair.push(Value::from(moment.seconds()))?;
    pair.push(Value::from(moment.nanos()))?;
    Ok(Value::Array(pair))
}

#[tactic(auto, unfolding(cfg_lines::specs::Members::object_with, crate::specs::Outcomes::error_value))]
fn refused(
    alloc: Global,
    passed: &[PassedOver],
    error: &CredentialsError,
    resolved: &str,
) -> Result<Value, OutOfMemory>
    ensures { IfOk result (λ v. view v ≡ error_value passed.now error.now resolved.now) }
{
    let object = Object::new(alloc).word("outcome", "error")?;
    let object = with_error(alloc, object, error)?
        .with("passed_over", passed_over_list(alloc, passed)?)?
        .word("line", resolved)?;
    Ok(object.into_value())
}

// What the error is, and what it comes of.
#[tactic(auto, unfolding(cfg_lines::specs::Members::put_or_keep))]
fn with_error(
    alloc: Global,
    object: Object,
    error: &CredentialsError,
) -> Result<Object, OutOfMemory>
    ensures { IfOk result (λ o. told_in o ≡ put_or_keep (codes "causes") (Some (causes_value error.now))
        (put_or_keep (codes "text") (Some (string (one_line (causes_of_error error.now))))
        (put_or_keep (codes "class") (Some (string (class_name (class_of error.now)))) (told_in object)))) }
{
    let text = causes_of(alloc, error)?.to_string(alloc)?;
    object
        .word("class", error.class().name())?
        .word("text", text.as_str())?
        .with("causes", causes_as_value(alloc, error)?)
}

// The members that were passed over.
fn passed_over_list(alloc: Global, members: &[PassedOver]) -> Result<Value, OutOfMemory>
    ensures { IfOk result (λ v. view v ≡ list_value passed_over_value members.now) }
{
    let mut list = Vec::with_capacity(alloc, members.len())?;
    for member in members {
        list.push(passed_over_as_value(alloc, member)?)?;
    }
    Ok(Value::Array(list))
}

#[tactic(auto, unfolding(cfg_lines::specs::Members::object_with, crate::specs::Outcomes::passed_over_value))]
fn passed_over_as_value(alloc: Global, passed: &PassedOver) -> Result<Value, OutOfMemory>
    ensures { IfOk result (λ v. view v ≡ passed_over_value passed.now) }
{
    let name = Text::of(alloc, passed.member.name())?;
    let object = Object::new(alloc)
        .word("member", name.as_str())?
        .with("causes", causes_as_value(alloc, &passed.error)?)?;
    Ok(object.into_value())
}

// What the error comes of.
#[tactic(auto, unfolding(crate::specs::Outcomes::causes_value))]
fn causes_as_value(alloc: Global, error: &CredentialsError) -> Result<Value, OutOfMemory>
    ensures { IfOk result (λ v. view v ≡ causes_value error.now) }
{
    let causes = causes_of(alloc, error)?;
    let mut list = Vec::with_capacity(alloc, causes.lines().len())?;
    for cause in causes.lines() {
        list.push(cause_as_value(alloc, cause)?)?;
    }
    Ok(Value::Array(list))
}

#[tactic(auto, unfolding(crate::specs::Outcomes::cause_value))]
fn cause_as_value(alloc: Global, cause: &CauseLine) -> Result<Value, OutOfMemory>
    ensures { IfOk result (λ v. view v ≡ cause_value cause.now) }
{
    let mut pair = Vec::with_capacity(alloc, 2)?;
    pair.push(Value::from(cause.depth()))?;
    pair.push(Value::try_from_str(alloc, cause.text())?)?;
    Ok(Value::Array(pair))
}

// The line that `resolve` writes, without its end.
fn resolved_line(
    alloc: Global,
    answer: &Result<Credentials, CredentialsError>,
    journal: &[Entry],
) -> Result<String, OutOfMemory>
    ensures { IfOk result (λ line. shown answer.now journal.now ≡ string_bytes line ++ codes "\n") }
{
    let mut line = Vec::new(alloc);
    write_asked(&mut line, answer, journal)?;
    // The line ends with a line feed, and has characters of ASCII alone.
    let Some(b'\n') = line.pop() else {
        return Err(OutOfMemory);
    };
    match std::str::from_utf8(line.as_slice()) {
        Ok(resolved) => Ok(String::from_str(alloc, resolved)?),
        Err(_) => Err(OutOfMemory),
    }
}
