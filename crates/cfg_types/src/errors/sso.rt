use crate::document::Field;
use crate::errors::pieces::{around, around_field};
use cfg_base::{OutOfMemory, Text, TryCopy};
use std::alloc::Global;
use std::error::Error;
use std::fmt;

/// What was done with a file when it failed.
#[derive(Clone, Copy, Debug, PartialEq, Eq)]
pub enum IoStep {
    /// It was read.
    Read,
    /// It was written.
    Write,
}

/// Why the file of a cached token of IAM Identity Center gives no token, or takes none.
#[derive(Debug, PartialEq, Eq)]
pub enum CachedSsoTokenError {
    /// A moment is outside of the years that a date can have.
    FailedToFormatDateTime,
    /// The value of this field is no date of RFC 3339 in UTC.
    InvalidField(Field),
    /// The file of this path failed at this step.
    IoError { what: IoStep, path: Text },
    /// The file's text opens an object, and no prefix of it is one.
    JsonError,
    /// This field is not there, or its value is no text.
    MissingField(Field),
    /// The variable `HOME` cannot be read.
    NoHomeDirectory,
    /// The file's text opens no object, or more than white space follows the object, in words.
    Other(Text),
    /// Memory ran out.
    OutOfMemory,
}

impl Drop for CachedSsoTokenError {
    fn drop(self) {
        match self {
            CachedSsoTokenError::FailedToFormatDateTime => {}
            CachedSsoTokenError::InvalidField(_) => {}
            CachedSsoTokenError::IoError { what: _, path: _ } => {}
            CachedSsoTokenError::JsonError => {}
            CachedSsoTokenError::MissingField(_) => {}
            CachedSsoTokenError::NoHomeDirectory => {}
            CachedSsoTokenError::Other(_) => {}
            CachedSsoTokenError::OutOfMemory => {}
        }
    }
}

/// Why there is no token of IAM Identity Center.
#[derive(Debug, PartialEq, Eq)]
pub enum SsoTokenProviderError {
    /// A refresh gave a token with this lifetime, in seconds, which is below 1 or whose end is past the
    /// last moment of all.
    BadExpirationTimeFromSsoOidc(i64),
    /// The file of the token gives none, or takes none.
    FailedToLoadToken(CachedSsoTokenError),
    /// The token has expired, and cannot be refreshed, or a refresh gave none.
    ExpiredToken,
    /// Memory ran out.
    OutOfMemory,
}

impl Drop for SsoTokenProviderError {
    fn drop(self) {
        match self {
            SsoTokenProviderError::BadExpirationTimeFromSsoOidc(_) => {}
            SsoTokenProviderError::FailedToLoadToken(_) => {}
            SsoTokenProviderError::ExpiredToken => {}
            SsoTokenProviderError::OutOfMemory => {}
        }
    }
}

impl From<OutOfMemory> for CachedSsoTokenError {
    ghost use Rattle.std.specs.Prelude.{◌≡◌};
    ghost use Rattle.cfg_types.specs.declared.errors.sso.CachedSsoTokenError.TheVariants.{OutOfMemory as memory};

    ghost from_gives = { λ _ e. e ≡ memory };

    fn from(_: OutOfMemory) -> CachedSsoTokenError {
        CachedSsoTokenError::OutOfMemory
    }
}

impl From<OutOfMemory> for SsoTokenProviderError {
    ghost use Rattle.std.specs.Prelude.{◌≡◌};
    ghost use Rattle.cfg_types.specs.declared.errors.sso.SsoTokenProviderError.TheVariants.{OutOfMemory as memory};

    ghost from_gives = { λ _ e. e ≡ memory };

    fn from(_: OutOfMemory) -> SsoTokenProviderError {
        SsoTokenProviderError::OutOfMemory
    }
}

impl fmt::Display for CachedSsoTokenError {
    ghost use Rattle.std.specs.Prelude.{Some};
    ghost use Rattle.cfg_types.specs.ErrorTexts.{cached_token_text};

    ghost output = { λ e. Some (cached_token_text e) };

    ghost styled_output = { λ e _. Some (cached_token_text e) };

    fn fmt<W: fmt::Write>(&self, f: &mut fmt::Formatter<W>) -> fmt::Result {
        match self {
            CachedSsoTokenError::FailedToFormatDateTime => f.write_str(
                "failed to format date time",
            ),
            CachedSsoTokenError::InvalidField(field) => around_field(
                f,
                "invalid value for the `",
                *field,
                "` field in the cached SSO token file",
            ),
            CachedSsoTokenError::IoError {
                what: IoStep::Read,
                path,
            } => around(f, "failed to read `", path, "`"),
            CachedSsoTokenError::IoError {
                what: IoStep::Write,
                path,
            } => around(f, "failed to write `", path, "`"),
            CachedSsoTokenError::JsonError => f.write_str("invalid JSON in cached SSO token file"),
            CachedSsoTokenError::MissingField(field) => around_field(
                f,
                "missing field `",
                *field,
                "` in cached SSO token file",
            ),
            CachedSsoTokenError::NoHomeDirectory => f.write_str(
                "couldn't resolve a home directory",
            ),
            CachedSsoTokenError::Other(text) => f.write_str(text.as_str()),
            CachedSsoTokenError::OutOfMemory => f.write_str("out of memory"),
        }
    }
}

impl Error for CachedSsoTokenError {}

impl fmt::Display for SsoTokenProviderError {
    ghost use Rattle.std.specs.Prelude.{Some};
    ghost use Rattle.cfg_types.specs.ErrorTexts.{sso_token_text};

    ghost output = { λ e. Some (sso_token_text e) };

    ghost styled_output = { λ e _. Some (sso_token_text e) };

    fn fmt<W: fmt::Write>(&self, f: &mut fmt::Formatter<W>) -> fmt::Result {
        match self {
            SsoTokenProviderError::BadExpirationTimeFromSsoOidc(_) => f.write_str(
                "SSO OIDC responded with a negative expiration duration",
            ),
            SsoTokenProviderError::FailedToLoadToken(_) => f.write_str(
                "failed to load the cached SSO token",
            ),
            SsoTokenProviderError::ExpiredToken => f.write_str(
                "the SSO token has expired and cannot be refreshed",
            ),
            SsoTokenProviderError::OutOfMemory => f.write_str("out of memory"),
        }
    }
}

impl Error for SsoTokenProviderError {}

impl TryCopy for CachedSsoTokenError {
    fn copy(&self, alloc: Global) -> Result<CachedSsoTokenError, OutOfMemory> {
        Ok(match self {
            CachedSsoTokenError::FailedToFormatDateTime =>
                CachedSsoTokenError::FailedToFormatDateTime,
            CachedSsoTokenError::InvalidField(field) => CachedSsoTokenError::InvalidField(*field),
            CachedSsoTokenError::IoError { what, path } => CachedSsoTokenError::IoError {
                what: *what,
                path: path.copy(alloc)?,
            },
            CachedSsoTokenError::JsonError => CachedSsoTokenError::JsonError,
            CachedSsoTokenError::MissingField(field) => CachedSsoTokenError::MissingField(*field),
            CachedSsoTokenError::NoHomeDirectory => CachedSsoTokenError::NoHomeDirectory,
            CachedSsoTokenError::Other(text) => CachedSsoTokenError::Other(text.copy(alloc)?),
            CachedSsoTokenError::OutOfMemory => CachedSsoTokenError::OutOfMemory,
        })
    }
}

impl TryCopy for SsoTokenProviderError {
    fn copy(&self, alloc: Global) -> Result<SsoTokenProviderError, OutOfMemory> {
        Ok(match self {
            SsoTokenProviderError::BadExpirationTimeFromSsoOidc(seconds) =>
                SsoTokenProviderError::BadExpirationTimeFromSsoOidc(*seconds),
            SsoTokenProviderError::FailedToLoadToken(e) => SsoTokenProviderError::FailedToLoadToken(
                e.copy(alloc)?,
            ),
            SsoTokenProviderError::ExpiredToken => SsoTokenProviderError::ExpiredToken,
            SsoTokenProviderError::OutOfMemory => SsoTokenProviderError::OutOfMemory,
        })
    }
}
