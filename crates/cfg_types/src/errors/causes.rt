//! Causes as they are shown to a user.
ghost use Rattle.std.specs.Prelude.{◌++◌, codes};
ghost use Rattle.std.specs.Str.{encode_utf8_all};
ghost use Rattle.std.specs.Fmt.{decimal, WritesOnOk, WritesStyledOnOk};
ghost use Rattle.cfg_types.specs.CauseTexts.{ended_text};

use crate::addresses::ShownAddress;
use crate::errors::pieces::{around, around_before, labelled};
use crate::errors::{ConfigCause, ProcessCause, ProviderCause, UnhandledCause};
use crate::reply::{FailKind, Fault};
use cfg_base::Text;
use std::error::Error;
use std::fmt;

impl fmt::Display for FailKind {
    ghost use Rattle.std.specs.Prelude.{Some};
    ghost use Rattle.cfg_types.specs.CauseTexts.{fail_text};

    ghost output = { λ k. Some (fail_text k) };

    ghost styled_output = { λ k _. Some (fail_text k) };

    fn fmt<W: fmt::Write>(&self, f: &mut fmt::Formatter<W>) -> fmt::Result {
        match self {
            FailKind::Dispatch => f.write_str("the request could not be sent"),
            FailKind::Timeout => f.write_str("no reply came in time"),
            FailKind::Broken => f.write_str("the reply was broken"),
            FailKind::Io => f.write_str("an I/O error"),
        }
    }
}

impl Error for FailKind {}

impl fmt::Display for Fault {
    ghost use Rattle.std.specs.Prelude.{Some};
    ghost use Rattle.cfg_types.specs.CauseTexts.{fault_text};

    ghost output = { λ e. Some (fault_text e) };

    ghost styled_output = { λ e _. Some (fault_text e) };

    fn fmt<W: fmt::Write>(&self, f: &mut fmt::Formatter<W>) -> fmt::Result {
        match self {
            Fault::Failed(kind) => kind.fmt(f),
            Fault::OutOfMemory => f.write_str("out of memory"),
        }
    }
}

impl Error for Fault {}

impl fmt::Display for ProcessCause {
    ghost use Rattle.std.specs.Prelude.{Some};
    ghost use Rattle.cfg_types.specs.CauseTexts.{process_text};

    ghost output = { λ e. Some (process_text e) };

    ghost styled_output = { λ e _. Some (process_text e) };

    fn fmt<W: fmt::Write>(&self, f: &mut fmt::Formatter<W>) -> fmt::Result {
        match self {
            ProcessCause::NotRun => f.write_str("the command could not be run"),
            ProcessCause::Status { code, errors: None } => write_ended(f, *code),
            ProcessCause::Status {
                code,
                errors: Some(errors),
            } => { write_ended_with(f, *code, errors) }
            ProcessCause::NotUtf8 => f.write_str("the command's output is not UTF-8"),
            ProcessCause::Document(e) => e.fmt(f),
        }
    }
}

impl Error for ProcessCause {}

/// Writes how a command ended.
fn write_ended<W: fmt::Write>(f: &mut fmt::Formatter<W>, code: i32) -> fmt::Result
    ensures writes { WritesOnOk W.write_str_gives f.old result (ended_text code) f.new }
    ensures styled { WritesStyledOnOk W.write_str_gives f.old result (ended_text code) f.new }
{
    let mut digits = itoa::Buffer::new();
    f.write_str("the command ended with status ")?;
    f.write_str(digits.format(code))
}

/// Writes how a command ended, and what it wrote to standard error.
fn write_ended_with<W: fmt::Write>(
    f: &mut fmt::Formatter<W>,
    code: i32,
    errors: &Text,
) -> fmt::Result
    ensures writes { WritesOnOk W.write_str_gives f.old result (ended_text code ++ (codes ": " ++ encode_utf8_all errors.now)) f.new }
    ensures styled { WritesStyledOnOk W.write_str_gives f.old result (ended_text code ++ (codes ": " ++ encode_utf8_all errors.now)) f.new }
{
    let mut digits = itoa::Buffer::new();
    f.write_str("the command ended with status ")?;
    f.write_str(digits.format(code))?;
    labelled(f, ": ", errors)
}

impl fmt::Display for ConfigCause {
    ghost use Rattle.cfg_types.specs.CauseTexts.{config_text};

    ghost output = { config_text };

    fn fmt<W: fmt::Write>(&self, f: &mut fmt::Formatter<W>) -> fmt::Result {
        match self {
            ConfigCause::Profile(e) => e.fmt(f),
            ConfigCause::RelativeUri(uri) => {
                let uri = ShownAddress(uri);
                write!(f, "`{uri}` is no path of the container's endpoint")
            }
            ConfigCause::FullUri { error, uri } => {
                let uri = ShownAddress(uri);
                write!(f, "`{uri}`: {error}")
            }
            ConfigCause::AuthToken => f.write_str("the authorization is no header value"),
            ConfigCause::MetadataRole { code, message } => around_before(
                f,
                "IMDS answered `",
                code,
                "`: ",
                message,
            ),
            ConfigCause::AssumeRole(_) => f.write_str("the call of AssumeRole is refused"),
            ConfigCause::LoginToken(e) => e.fmt(f),
            ConfigCause::Custom(text) => f.write_str(text.as_str()),
        }
    }
}

impl Error for ConfigCause {}

// An address may hold a password or a token.
impl fmt::Debug for ConfigCause {
    ghost use Rattle.cfg_types.specs.DebugTexts.{shown_config};

    ghost debug_output = { shown_config };

    fn fmt<W: fmt::Write>(&self, f: &mut fmt::Formatter<W>) -> fmt::Result {
        match self {
            ConfigCause::Profile(error) => f.debug_tuple("Profile").field(error).finish(),
            ConfigCause::RelativeUri(uri) => {
                let uri = ShownAddress(uri);
                write!(f, "RelativeUri({uri})")
            }
            ConfigCause::FullUri { error, uri } => {
                let uri = ShownAddress(uri);
                write!(f, "FullUri({uri}: {error})")
            }
            ConfigCause::AuthToken => f.write_str("AuthToken"),
            ConfigCause::MetadataRole { code, message } => {
                write!(f, "MetadataRole {{ code: {code:?}, message: {message:?} }}")
            }
            ConfigCause::AssumeRole(kind) => f.debug_tuple("AssumeRole").field(kind).finish(),
            ConfigCause::LoginToken(error) => f.debug_tuple("LoginToken").field(error).finish(),
            ConfigCause::Custom(text) => f.debug_tuple("Custom").field(text).finish(),
        }
    }
}

impl fmt::Display for UnhandledCause {
    ghost use Rattle.std.specs.Prelude.{Some};
    ghost use Rattle.cfg_types.specs.CauseTexts.{unhandled_text};

    ghost output = { λ e. Some (unhandled_text e) };

    ghost styled_output = { λ e _. Some (unhandled_text e) };

    fn fmt<W: fmt::Write>(&self, f: &mut fmt::Formatter<W>) -> fmt::Result {
        match self {
            UnhandledCause::NotUnicode(name) => around(
                f,
                "the variable `",
                name,
                "` is not Unicode",
            ),
            UnhandledCause::NotUtf8 => f.write_str("a file or a reply is not UTF-8"),
            UnhandledCause::NoDocument(e) => e.fmt(f),
            UnhandledCause::Sent(kind) => kind.fmt(f),
            UnhandledCause::StsNoCredentials => f.write_str("the reply of STS has no credentials"),
            // The ARN is what a reply gave.
            UnhandledCause::StsArn(_) => f.write_str(
                "the ARN in the reply of STS names no account",
            ),
            UnhandledCause::SsoNoCredentials => f.write_str(
                "the reply of IAM Identity Center has no credentials",
            ),
            UnhandledCause::SsoNoAccessKey => f.write_str(
                "the credentials of IAM Identity Center have no access key",
            ),
            UnhandledCause::SsoNoSecretKey => f.write_str(
                "the credentials of IAM Identity Center have no secret key",
            ),
            UnhandledCause::LoginToken(e) => e.fmt(f),
            UnhandledCause::Custom(text) => f.write_str(text.as_str()),
        }
    }
}

impl Error for UnhandledCause {}

// An ARN is what a reply gave.
impl fmt::Debug for UnhandledCause {
    ghost use Rattle.cfg_types.specs.DebugTexts.{shown_unhandled};

    ghost debug_output = { shown_unhandled };

    fn fmt<W: fmt::Write>(&self, f: &mut fmt::Formatter<W>) -> fmt::Result {
        match self {
            UnhandledCause::NotUnicode(name) => f.debug_tuple("NotUnicode").field(name).finish(),
            UnhandledCause::NotUtf8 => f.write_str("NotUtf8"),
            UnhandledCause::NoDocument(error) => f.debug_tuple("NoDocument").field(error).finish(),
            UnhandledCause::Sent(kind) => f.debug_tuple("Sent").field(kind).finish(),
            UnhandledCause::StsNoCredentials => f.write_str("StsNoCredentials"),
            UnhandledCause::StsArn(_) => f.write_str("StsArn(\"** redacted **\")"),
            UnhandledCause::SsoNoCredentials => f.write_str("SsoNoCredentials"),
            UnhandledCause::SsoNoAccessKey => f.write_str("SsoNoAccessKey"),
            UnhandledCause::SsoNoSecretKey => f.write_str("SsoNoSecretKey"),
            UnhandledCause::LoginToken(error) => f.debug_tuple("LoginToken").field(error).finish(),
            UnhandledCause::Custom(text) => f.debug_tuple("Custom").field(text).finish(),
        }
    }
}

impl fmt::Display for ProviderCause {
    ghost use Rattle.std.specs.Prelude.{Some};
    ghost use Rattle.cfg_types.specs.ProviderTexts.{provider_text};

    ghost output = { λ e. Some (provider_text e) };

    ghost styled_output = { λ e _. Some (provider_text e) };

    fn fmt<W: fmt::Write>(&self, f: &mut fmt::Formatter<W>) -> fmt::Result {
        match self {
            ProviderCause::Base(e) => e.get().fmt(f),
            ProviderCause::Role(e) => e.get().fmt(f),
            ProviderCause::File(path) => around(f, "`", path, "` could not be read"),
            ProviderCause::Sent(kind) => kind.fmt(f),
            ProviderCause::Refused(refusal) => labelled(
                f,
                "the request is refused: ",
                &refusal.message,
            ),
            ProviderCause::Status(status) => write_status(f, *status),
            ProviderCause::ErrorDocument { code, message } => {
                around_before(f, "the service answered `", code, "`: ", message)
            }
            ProviderCause::Process(e) => e.fmt(f),
            ProviderCause::Metadata(e) => e.fmt(f),
            ProviderCause::SsoToken(e) => e.fmt(f),
            ProviderCause::SsoFile(e) => e.fmt(f),
            ProviderCause::LoginToken(e) => e.fmt(f),
            ProviderCause::Custom(text) => f.write_str(text.as_str()),
        }
    }
}

impl Error for ProviderCause {}

/// Writes the status of a reply.
fn write_status<W: fmt::Write>(f: &mut fmt::Formatter<W>, status: u16) -> fmt::Result
    ensures writes { WritesOnOk W.write_str_gives f.old result (codes "the reply has the status " ++ decimal status) f.new }
    ensures styled { WritesStyledOnOk W.write_str_gives f.old result (codes "the reply has the status " ++ decimal status) f.new }
{
    let mut digits = itoa::Buffer::new();
    f.write_str("the reply has the status ")?;
    f.write_str(digits.format(status))
}
