//! Words for causes that have no text of their own, and for those whose text std leaves open. Where memory runs
//! out it is `OutOfMemory`.
ghost use Rattle.std.specs.Prelude.{◌≡◌, ◌++◌, ◌∷◌, [], IfOk, OnOk, string_bytes, codes, option_map};
ghost use Rattle.std.specs.Str.{encode_utf8_all};
ghost use Rattle.std.specs.List.{flat_map, list_all};
ghost use Rattle.std.specs.Char.{is_ascii as is_ascii_byte};
ghost use Rattle.cfg_types.specs.CauseTexts.{ended_text};
ghost use Rattle.cfg_error_report.specs.Lines.{cause_line, detailed, followed};
ghost use Rattle.cfg_types.specs.ProviderTexts.{provider_text};
ghost use Rattle.cfg_error_report.specs.Words.{quoted, later_quoted, quoted_names, loop_words as loop_words_of, profile_lines, refusal_lines, session_token_lines, json_fault_words, lifetime_words, endpoint_lines, endpoint_words as endpoint_words_of, scheme_lines, variable_words as variable_words_of, blank_words as blank_words_of, process_lines};

use crate::addresses::has_scheme;
use crate::lines::Causes;
use cfg_types::imds::{FailedToLoadToken, TokenError};
use cfg_types::{
    LoginJsonFault, OutOfMemory, ProcessCause, ProfileFileError, ProviderCause, RefusalKind,
    ShownAddress, Text, is_blank,
};
use std::alloc::Global;

/// Why a profile gives no credentials, or no token.
pub fn tell_profile(
    causes: &mut Causes,
    depth: usize,
    error: &ProfileFileError,
) -> Result<(), OutOfMemory>
    ensures { OnOk result (causes.new ≡ causes.old ++ profile_lines error.now depth) }
{
    match error {
        ProfileFileError::NoProfilesDefined => {
            causes.tell_detailed(
                depth,
                error,
                "there are no profiles, or `default` is selected and is not there",
            )
        }
        ProfileFileError::CredentialLoop { profiles, next } => {
            let words = loop_words(causes.alloc(), profiles.as_slice(), next)?;
            causes.tell_text(depth, words)
        }
        _ => causes.tell(depth, error),
    }
}

// The profiles of a path, and the one that is loaded again.
fn loop_words(alloc: Global, path: &[Text], next: &Text) -> Result<String, OutOfMemory>
    ensures { IfOk result (λ words. string_bytes words ≡ loop_words_of path.now next.now) }
{
    let mut words = String::from_str(alloc, "profile formed an infinite loop. first we loaded [")?;
    write_names(alloc, &mut words, path)?;
    words.push_str("], then attempted to reload ")?;
    words.push_str(next.as_str())?;
    Ok(words)
}

// Names in quotation marks, with commas between.
fn write_names(alloc: Global, words: &mut String, names: &[Text]) -> Result<(), OutOfMemory>
    ensures { OnOk result (string_bytes words.new ≡ string_bytes words.old ++ quoted_names names.now) }
{
    match names.split_first() {
        None => Ok(()),
        Some((first, later)) => {
            write_quoted(alloc, words, first.as_str())?;
            write_later_names(alloc, words, later)
        }
    }
}

fn write_later_names(alloc: Global, words: &mut String, names: &[Text]) -> Result<(), OutOfMemory>
    ensures { OnOk result (string_bytes words.new ≡ string_bytes words.old ++ flat_map later_quoted names.now) }
{
    for name in names {
        words.push_str(", ")?;
        write_quoted(alloc, words, name.as_str())?;
    }
    Ok(())
}

// A name in quotation marks: as Debug writes it where all of it is ASCII, else as it stands. std's contract leaves open
// how Debug writes other characters, and an error has one text.
fn write_quoted(alloc: Global, words: &mut String, name: &str) -> Result<(), OutOfMemory>
    ensures { OnOk result (string_bytes words.new ≡ string_bytes words.old ++ quoted name.now) }
{
    if is_ascii(name) {
        let shown = format!(in alloc; "{name:?}")?;
        words.push_str(shown.as_str())?;
    } else {
        words.push_str("\"")?;
        words.push_str(name)?;
        words.push_str("\"")?;
    }
    Ok(())
}

fn is_ascii(name: &str) -> bool
    ensures { result ≡ list_all is_ascii_byte name.now }
{
    name.as_bytes().iter().all(|b| *b < 128)
}

/// What a service refused a call for, where it says so. `Other` adds no line.
pub fn tell_refusal(causes: &mut Causes, depth: usize, kind: RefusalKind) -> Result<(), OutOfMemory>
    ensures { OnOk result (causes.new ≡ causes.old ++ refusal_lines kind depth) }
{
    match kind {
        RefusalKind::RegionDisabled => causes.tell_words(depth, "the region is disabled"),
        RefusalKind::MalformedPolicyDocument => {
            causes.tell_words(depth, "the policy document is malformed")
        }
        RefusalKind::InsufficientPermissions => {
            causes.tell_words(depth, "the permissions are insufficient")
        }
        RefusalKind::TokenExpired => causes.tell_words(depth, "the token has expired"),
        RefusalKind::UserCredentialsChanged => {
            causes.tell_words(depth, "the user's credentials have changed")
        }
        RefusalKind::Other => Ok(()),
    }
}

/// Why there is no session token of the metadata service.
pub fn tell_session_token(
    causes: &mut Causes,
    depth: usize,
    error: FailedToLoadToken,
) -> Result<(), OutOfMemory>
    ensures { OnOk result (causes.new ≡ causes.old ++ session_token_lines error depth) }
{
    match error {
        FailedToLoadToken::Sent(kind) => causes.tell(depth, &kind),
        FailedToLoadToken::Token(TokenError::InvalidParameters) => {
            causes.tell_detailed(
                depth,
                &TokenError::InvalidParameters,
                "the reply has the status 400",
            )
        }
        FailedToLoadToken::Token(TokenError::Forbidden) => {
            causes.tell_detailed(
                depth,
                &TokenError::Forbidden,
                "the reply has the status 403",
            )
        }
        FailedToLoadToken::Token(error) => causes.tell(depth, &error),
    }
}

/// What is wrong with the JSON of a file of a sign-in token.
pub fn json_fault(fault: LoginJsonFault) -> &'static str
    ensures { result.now ≡ json_fault_words fault }
{
    match fault {
        LoginJsonFault::Text => "the file's text is no JSON object",
        LoginJsonFault::Nested => "the member `accessToken` has an object among its members",
        LoginJsonFault::Document => "the member `accessToken` is no document of credentials",
        LoginJsonFault::ErrorDocument => "the member `accessToken` is the document of an error",
    }
}

/// How long a refreshed token would last, in seconds.
pub fn lifetime(alloc: Global, seconds: i64) -> Result<String, OutOfMemory>
    ensures { IfOk result (λ words. string_bytes words ≡ lifetime_words seconds) }
{
    Ok(format!(in alloc; "the lifetime is {seconds} seconds")?)
}

/// An endpoint that cannot be asked, without user information and query, and whether its scheme is missing.
pub fn tell_endpoint(causes: &mut Causes, depth: usize, address: &Text) -> Result<(), OutOfMemory>
    ensures { OnOk result (causes.new ≡ causes.old ++ endpoint_lines address.now depth) }
{
    let words = endpoint_words(causes.alloc(), address)?;
    causes.tell_text(depth, words)?;
    tell_scheme(causes, depth, address)
}

fn endpoint_words(alloc: Global, address: &Text) -> Result<String, OutOfMemory>
    ensures { IfOk result (λ words. string_bytes words ≡ endpoint_words_of address.now) }
{
    let shown = ShownAddress(address);
    Ok(format!(in alloc; "`{shown}` is no URI with a scheme and a host")?)
}

/// That the scheme of an address is missing, where it is.
pub fn tell_scheme(causes: &mut Causes, depth: usize, address: &Text) -> Result<(), OutOfMemory>
    ensures { OnOk result (causes.new ≡ causes.old ++ scheme_lines address.now depth) }
{
    if has_scheme(address.as_str()) {
        Ok(())
    } else {
        causes.tell_detail(depth, "the scheme is missing")
    }
}

/// Why the variable of this name gives nothing.
pub fn variable_words(alloc: Global, name: &Text) -> Result<String, OutOfMemory>
    ensures { IfOk result (λ words. string_bytes words ≡ variable_words_of name.now) }
{
    if name.is("SECRET_ACCESS_KEY") {
        // It is the last one that is looked at.
        Ok(String::from_str(
            alloc,
            "neither `AWS_SECRET_ACCESS_KEY` nor `SECRET_ACCESS_KEY` has a key",
        )?)
    } else if name.is("AWS_WEB_IDENTITY_TOKEN_FILE") || name.is("AWS_ROLE_ARN") {
        backquoted(alloc, name, "` is not set, or not Unicode")
    } else {
        backquoted(alloc, name, "` is not set, or blank")
    }
}

// A text in backquotes, and words that begin with the closing one.
fn backquoted(alloc: Global, text: &Text, behind: &str) -> Result<String, OutOfMemory>
    ensures { IfOk result (λ words. string_bytes words ≡ codes "`" ++ (encode_utf8_all text.now ++ behind.now)) }
{
    let mut words = String::from_str(alloc, "`")?;
    words.push_str(text.as_str())?;
    words.push_str(behind)?;
    Ok(words)
}

/// Why a command gives no credentials.
pub fn tell_process(
    causes: &mut Causes,
    depth: usize,
    cause: &ProcessCause,
) -> Result<(), OutOfMemory>
    ensures { OnOk result (causes.new ≡ causes.old ++ process_lines cause.now depth) }
{
    match cause {
        ProcessCause::Status { code, errors } => match blank_words(errors) {
            Some(detail) => tell_ended(causes, depth, *code, detail),
            None => causes.tell(depth, cause),
        },
        _ => causes.tell(depth, cause),
    }
}

// Why what a command wrote to standard error tells nothing, where that is so.
fn blank_words(errors: &Option<Text>) -> Option<&'static str>
    ensures { option_map (λ words. words.now) result ≡ blank_words_of errors.now }
{
    match errors {
        None => Some("what it wrote to standard error is not UTF-8"),
        Some(errors) => {
            if is_blank(errors.as_str()) {
                Some("what it wrote to standard error is blank")
            } else {
                None
            }
        }
    }
}

fn tell_ended(causes: &mut Causes, depth: usize, code: i32, detail: &str) -> Result<(), OutOfMemory>
    ensures { OnOk result (causes.new ≡ causes.old ++ detailed (ended_text code) detail.now depth) }
{
    let words = ended_words(causes.alloc(), code)?;
    causes.tell_text_detailed(depth, words, detail)
}

fn ended_words(alloc: Global, code: i32) -> Result<String, OutOfMemory>
    ensures { IfOk result (λ words. string_bytes words ≡ ended_text code) }
{
    Ok(format!(in alloc; "the command ended with status {code}")?)
}

/// A refusal as it is shown, and what the call was refused for, where the service says so.
pub fn tell_refused(
    causes: &mut Causes,
    depth: usize,
    cause: &ProviderCause,
    kind: RefusalKind,
) -> Result<(), OutOfMemory>
    ensures { OnOk result (causes.new ≡ causes.old ++ followed (provider_text cause.now) (refusal_lines kind) depth) }
{
    causes.tell(depth, cause)?;
    tell_refusal(causes, depth, kind)
}
