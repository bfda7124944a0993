//! The fields of a document of credentials, and what can be wrong with one.
ghost use Rattle.std.specs.Prelude.{◌≡◌};
ghost use Rattle.cfg_types.specs.Field.{field_name};

use cfg_base::{OutOfMemory, Text, TryCopy};
use std::alloc::{AllocError, AllocFailed, Global};
use std::error::Error;
use std::fmt;

/// Why some bytes are not read as a JSON object.
#[derive(Clone, Copy, Debug, PartialEq, Eq)]
pub enum JsonError {
    /// The first byte that is no white space does not open an object, or there is none.
    NotObject,
    /// An object is opened, and no prefix of the bytes is one.
    Syntax,
    /// More than white space follows the object.
    More,
    /// Memory ran out.
    OutOfMemory,
}

/// The name of a field, as it stands in a document. Each spelling is one of its own, since errors show it;
/// whether a look-up minds case, the look-up says.
#[derive(Clone, Copy, Debug, PartialEq, Eq)]
pub enum Field {
    Code,
    AccessKeyId,
    SecretAccessKey,
    Token,
    SessionToken,
    AccountId,
    Expiration,
    ExpiresAt,
    Message,
    Version,
    LowerVersion,
    AccessToken,
    LowerAccessKeyId,
    LowerSecretAccessKey,
    LowerSessionToken,
    LowerAccountId,
    LowerExpiresAt,
    RefreshToken,
    ClientId,
    ClientSecret,
    RegistrationExpiresAt,
    Region,
    StartUrl,
    TokenType,
    IdToken,
    DpopKey,
}

impl Field {
    /// The name itself.
    pub fn as_str(&self) -> &'static str
        ensures { result.now ≡ field_name self.now }
    {
        match self {
            Field::Code => "Code",
            Field::AccessKeyId => "AccessKeyId",
            Field::SecretAccessKey => "SecretAccessKey",
            Field::Token => "Token",
            Field::SessionToken => "SessionToken",
            Field::AccountId => "AccountId",
            Field::Expiration => "Expiration",
            Field::ExpiresAt => "ExpiresAt",
            Field::Message => "Message",
            Field::Version => "Version",
            Field::LowerVersion => "version",
            Field::AccessToken => "accessToken",
            Field::LowerAccessKeyId => "accessKeyId",
            Field::LowerSecretAccessKey => "secretAccessKey",
            Field::LowerSessionToken => "sessionToken",
            Field::LowerAccountId => "accountId",
            Field::LowerExpiresAt => "expiresAt",
            Field::RefreshToken => "refreshToken",
            Field::ClientId => "clientId",
            Field::ClientSecret => "clientSecret",
            Field::RegistrationExpiresAt => "registrationExpiresAt",
            Field::Region => "region",
            Field::StartUrl => "startUrl",
            Field::TokenType => "tokenType",
            Field::IdToken => "idToken",
            Field::DpopKey => "dpopKey",
        }
    }
}

/// What is wrong with a field that is there.
#[derive(Clone, Copy, Debug, PartialEq, Eq)]
pub enum FieldFault {
    /// It is no whole number of 32 bits.
    Version,
    /// It is this version, and 1 is the only one that is known.
    UnknownVersion(i32),
    /// It is no date of RFC 3339.
    Date,
}

/// Why a text is no document of credentials.
#[derive(Debug, PartialEq, Eq)]
pub enum InvalidJsonCredentials {
    /// The text does not begin with a JSON object: `NotObject` or `Syntax`.
    JsonError(JsonError),
    /// This field is not there, or its value is of another type.
    MissingField(Field),
    /// This field does not fit.
    InvalidField { field: Field, fault: FieldFault },
    /// More than white space follows the object, in words.
    Other(Text),
    /// Memory ran out.
    OutOfMemory,
}

impl Drop for InvalidJsonCredentials {
    fn drop(self) {
        match self {
            InvalidJsonCredentials::JsonError(_) => {}
            InvalidJsonCredentials::MissingField(_) => {}
            InvalidJsonCredentials::InvalidField { field: _, fault: _ } => {}
            InvalidJsonCredentials::Other(_) => {}
            InvalidJsonCredentials::OutOfMemory => {}
        }
    }
}

impl fmt::Display for JsonError {
    ghost use Rattle.std.specs.Prelude.{Some};
    ghost use Rattle.cfg_types.specs.Field.{json_error_text};

    ghost output = { λ e. Some (json_error_text e) };

    ghost styled_output = { λ e _. Some (json_error_text e) };

    fn fmt<W: fmt::Write>(&self, f: &mut fmt::Formatter<W>) -> fmt::Result {
        match self {
            JsonError::NotObject => f.write_str("expected a JSON document starting with `{`"),
            JsonError::Syntax => f.write_str("malformed JSON"),
            JsonError::More => f.write_str("found more JSON tokens after completing parsing"),
            JsonError::OutOfMemory => f.write_str("out of memory"),
        }
    }
}

impl Error for JsonError {}

impl fmt::Display for Field {
    ghost use Rattle.std.specs.Prelude.{Some};
    ghost use Rattle.cfg_types.specs.Field.{field_name};

    ghost output = { λ e. Some (field_name e) };

    ghost styled_output = { λ e _. Some (field_name e) };

    fn fmt<W: fmt::Write>(&self, f: &mut fmt::Formatter<W>) -> fmt::Result {
        f.write_str(self.as_str())
    }
}

impl fmt::Display for FieldFault {
    ghost use Rattle.std.specs.Prelude.{Some};
    ghost use Rattle.cfg_types.specs.Field.{field_fault_text};

    ghost output = { λ e. Some (field_fault_text e) };

    ghost styled_output = { λ e _. Some (field_fault_text e) };

    fn fmt<W: fmt::Write>(&self, f: &mut fmt::Formatter<W>) -> fmt::Result {
        match self {
            FieldFault::Version => f.write_str("not a whole number of 32 bits"),
            FieldFault::UnknownVersion(n) => {
                let mut digits = itoa::Buffer::new();
                f.write_str("unknown version number: ")?;
                f.write_str(digits.format(*n))
            }
            FieldFault::Date => f.write_str("not a date"),
        }
    }
}

impl fmt::Display for InvalidJsonCredentials {
    ghost use Rattle.std.specs.Prelude.{Some};
    ghost use Rattle.cfg_types.specs.DocumentText.{invalid_credentials_text};

    ghost output = { λ e. Some (invalid_credentials_text e) };

    ghost styled_output = { λ e _. Some (invalid_credentials_text e) };

    fn fmt<W: fmt::Write>(&self, f: &mut fmt::Formatter<W>) -> fmt::Result {
        match self {
            InvalidJsonCredentials::JsonError(e) => {
                f.write_str("invalid JSON in response: ")?;
                e.fmt(f)
            }
            InvalidJsonCredentials::MissingField(field) => {
                f.write_str("Expected field `")?;
                f.write_str(field.as_str())?;
                f.write_str("` in response but it was missing")
            }
            InvalidJsonCredentials::InvalidField { field, fault } => {
                f.write_str("Invalid field in response: `")?;
                f.write_str(field.as_str())?;
                f.write_str("`. ")?;
                fault.fmt(f)
            }
            InvalidJsonCredentials::Other(text) => f.write_str(text.as_str()),
            InvalidJsonCredentials::OutOfMemory => f.write_str("out of memory"),
        }
    }
}

impl Error for InvalidJsonCredentials {}

impl From<OutOfMemory> for JsonError {
    ghost use Rattle.std.specs.Prelude.{◌≡◌};
    ghost use Rattle.cfg_types.specs.declared.document.JsonError.TheVariants.{OutOfMemory};

    ghost from_gives = { λ _ e. e ≡ OutOfMemory };

    fn from(_: OutOfMemory) -> JsonError {
        JsonError::OutOfMemory
    }
}

impl From<AllocError> for JsonError {
    ghost use Rattle.std.specs.Prelude.{◌≡◌};
    ghost use Rattle.cfg_types.specs.declared.document.JsonError.TheVariants.{OutOfMemory};

    ghost from_gives = { λ _ e. e ≡ OutOfMemory };

    fn from(_: AllocError) -> JsonError {
        JsonError::OutOfMemory
    }
}

impl<T: Drop> From<AllocFailed<T>> for JsonError {
    ghost use Rattle.std.specs.Prelude.{◌≡◌};
    ghost use Rattle.cfg_types.specs.declared.document.JsonError.TheVariants.{OutOfMemory};

    ghost from_gives = { λ _ e. e ≡ OutOfMemory };

    fn from(_: AllocFailed<T>) -> JsonError {
        JsonError::OutOfMemory
    }
}

impl From<OutOfMemory> for InvalidJsonCredentials {
    ghost use Rattle.std.specs.Prelude.{◌≡◌};
    ghost use Rattle.cfg_types.specs.declared.document.InvalidJsonCredentials.TheVariants.{OutOfMemory};

    ghost from_gives = { λ _ e. e ≡ OutOfMemory };

    fn from(_: OutOfMemory) -> InvalidJsonCredentials {
        InvalidJsonCredentials::OutOfMemory
    }
}

impl TryCopy for InvalidJsonCredentials {
    fn copy(&self, alloc: Global) -> Result<InvalidJsonCredentials, OutOfMemory> {
        Ok(match self {
            InvalidJsonCredentials::JsonError(e) => InvalidJsonCredentials::JsonError(*e),
            InvalidJsonCredentials::MissingField(field) => InvalidJsonCredentials::MissingField(
                *field,
            ),
            InvalidJsonCredentials::InvalidField { field, fault } =>
                InvalidJsonCredentials::InvalidField {
                    field: *field,
                    fault: *fault,
                },
            InvalidJsonCredentials::Other(text) => InvalidJsonCredentials::Other(text.copy(alloc)?),
            InvalidJsonCredentials::OutOfMemory => InvalidJsonCredentials::OutOfMemory,
        })
    }
}
