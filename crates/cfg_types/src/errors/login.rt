use crate::document::Field;
use crate::errors::pieces::{around, around_field, labelled};
use crate::errors::sso::IoStep;
use cfg_base::{OutOfMemory, Text, TryCopy, copy_option};
use std::alloc::Global;
use std::error::Error;
use std::fmt;

/// What is wrong with the JSON of a file of a cached sign-in token.
#[derive(Clone, Copy, Debug, PartialEq, Eq)]
pub enum LoginJsonFault {
    /// The file's text opens an object, and no prefix of it is one.
    Text,
    /// The member `accessToken` has an object among its members.
    Nested,
    /// The member `accessToken` is no document of credentials.
    Document,
    /// The member `accessToken` is the document of an error.
    ErrorDocument,
}

/// Why there is no sign-in token.
#[derive(Debug, PartialEq, Eq)]
pub enum LoginTokenError {
    /// A moment is outside of the years that a date can have.
    FailedToFormatDateTime,
    /// The file of this path failed at this step.
    IoError { what: IoStep, path: Text },
    /// The file's JSON is at fault.
    JsonError(LoginJsonFault),
    /// This field is not there, or its value is of another type.
    MissingField(Field),
    /// Neither of the variables `AWS_LOGIN_CACHE_DIRECTORY` and `HOME` can be read.
    NoHomeDirectory,
    /// The token has expired, and cannot be refreshed.
    ExpiredToken,
    /// It could not be refreshed, for this reason, where one is known.
    RefreshFailed { message: Option<Text> },
    /// The file's text opens no object, in words.
    Other(Text),
    /// Memory ran out.
    OutOfMemory,
}

impl Drop for LoginTokenError {
    fn drop(self) {
        match self {
            LoginTokenError::FailedToFormatDateTime => {}
            LoginTokenError::IoError { what: _, path: _ } => {}
            LoginTokenError::JsonError(_) => {}
            LoginTokenError::MissingField(_) => {}
            LoginTokenError::NoHomeDirectory => {}
            LoginTokenError::ExpiredToken => {}
            LoginTokenError::RefreshFailed { message: _ } => {}
            LoginTokenError::Other(_) => {}
            LoginTokenError::OutOfMemory => {}
        }
    }
}

impl From<OutOfMemory> for LoginTokenError {
    ghost use Rattle.std.specs.Prelude.{◌≡◌};
    ghost use Rattle.cfg_types.specs.declared.errors.login.LoginTokenError.TheVariants.{OutOfMemory as memory};

    ghost from_gives = { λ _ e. e ≡ memory };

    fn from(_: OutOfMemory) -> LoginTokenError {
        LoginTokenError::OutOfMemory
    }
}

impl fmt::Display for LoginTokenError {
    ghost use Rattle.std.specs.Prelude.{Some};
    ghost use Rattle.cfg_types.specs.ErrorTexts.{login_token_text};

    ghost output = { λ e. Some (login_token_text e) };

    ghost styled_output = { λ e _. Some (login_token_text e) };

    fn fmt<W: fmt::Write>(&self, f: &mut fmt::Formatter<W>) -> fmt::Result {
        match self {
            LoginTokenError::FailedToFormatDateTime => f.write_str("failed to format date time"),
            LoginTokenError::IoError {
                what: IoStep::Read,
                path,
            } => around(f, "failed to read `", path, "`"),
            LoginTokenError::IoError {
                what: IoStep::Write,
                path,
            } => around(f, "failed to write `", path, "`"),
            LoginTokenError::JsonError(_) => f.write_str("invalid JSON in cached Login token file"),
            LoginTokenError::MissingField(field) => around_field(
                f,
                "missing field `",
                *field,
                "` in cached Login token file",
            ),
            LoginTokenError::NoHomeDirectory => f.write_str("couldn't resolve a home directory"),
            LoginTokenError::ExpiredToken => f.write_str("cached Login token is expired"),
            LoginTokenError::RefreshFailed { message: None } => f.write_str(
                "failed to refresh cached Login token",
            ),
            LoginTokenError::RefreshFailed {
                message: Some(message),
            } => labelled(f, "failed to refresh cached Login token: ", message),
            LoginTokenError::Other(text) => labelled(
                f,
                "failed to load cached Login token: ",
                text,
            ),
            LoginTokenError::OutOfMemory => f.write_str("out of memory"),
        }
    }
}

impl Error for LoginTokenError {}

impl TryCopy for LoginTokenError {
    fn copy(&self, alloc: Global) -> Result<LoginTokenError, OutOfMemory> {
        Ok(match self {
            LoginTokenError::FailedToFormatDateTime => LoginTokenError::FailedToFormatDateTime,
            LoginTokenError::IoError { what, path } => LoginTokenError::IoError {
                what: *what,
                path: path.copy(alloc)?,
            },
            LoginTokenError::JsonError(fault) => LoginTokenError::JsonError(*fault),
            LoginTokenError::MissingField(field) => LoginTokenError::MissingField(*field),
            LoginTokenError::NoHomeDirectory => LoginTokenError::NoHomeDirectory,
            LoginTokenError::ExpiredToken => LoginTokenError::ExpiredToken,
            LoginTokenError::RefreshFailed { message } => LoginTokenError::RefreshFailed {
                message: copy_option(alloc, message)?,
            },
            LoginTokenError::Other(text) => LoginTokenError::Other(text.copy(alloc)?),
            LoginTokenError::OutOfMemory => LoginTokenError::OutOfMemory,
        })
    }
}
