//! Errors of the instance metadata service's client.
ghost use Rattle.std.specs.Prelude.{◌≡◌};
ghost use Rattle.cfg_types.specs.Metadata.{is_dispatch_failure as is_dispatch_failure_of, mode_in};
ghost use Rattle.std.specs.Prelude.{◌++◌, codes};
ghost use Rattle.std.specs.Fmt.{decimal, WritesOnOk, WritesStyledOnOk};

use crate::addresses::ShownAddress;
use crate::errors::pieces::around;
use crate::reply::{FailKind, HttpReply};
use cfg_base::{OutOfMemory, Text};
use std::alloc::Global;
use std::error::Error;
use std::fmt;

/// Which address of the instance metadata service is used.
#[derive(Clone, Copy, Debug, PartialEq, Eq)]
pub enum EndpointMode {
    /// `http://169.254.169.254`.
    IpV4,
    /// `http://[fd00:ec2::254]`.
    IpV6,
}

impl EndpointMode {
    ghost use Rattle.std.specs.Prelude.{◌≢◌, IfOk, IfErr, Some, None};
    ghost use Rattle.cfg_base.specs.Text.{characters};
    ghost use Rattle.cfg_types.specs.declared.errors.imds.InvalidEndpointMode.TheVariants as invalid;

    /// The mode that a text names: `IPv4` or `IPv6`, whatever the ASCII case of its letters. None where it is
    /// neither.
    pub fn named(text: &str) -> Option<EndpointMode>
        ensures { result ≡ mode_in text.now }
    {
        if text.eq_ignore_ascii_case("IPv4") {
            Some(EndpointMode::IpV4)
        } else if text.eq_ignore_ascii_case("IPv6") {
            Some(EndpointMode::IpV6)
        } else {
            None
        }
    }

    /// The mode of a text: `IPv4` or `IPv6`, whatever the ASCII case of its letters.
    ///
    /// # Errors
    ///
    /// - `Mode`: exactly where the text is neither. It has the text.
    /// - `OutOfMemory` where memory runs out.
    pub fn from_text(alloc: Global, text: &str) -> Result<EndpointMode, InvalidEndpointMode>
        ensures mode { IfOk result (λ mode. mode_in text.now ≡ Some mode) }
        ensures none { IfErr result (λ e. e ≢ invalid.OutOfMemory → mode_in text.now ≡ None) }
        ensures text { IfErr result (λ e. e ≢ invalid.OutOfMemory → e ≡ invalid.Mode (characters text.now)) }
    {
        match EndpointMode::named(text) {
            Some(mode) => Ok(mode),
            None => {
                let text = Text::of(alloc, text)?;
                Err(InvalidEndpointMode::Mode(text))
            }
        }
    }
}

/// Why a text gives no mode.
#[derive(Debug, PartialEq, Eq)]
pub enum InvalidEndpointMode {
    /// This text is neither `IPv4` nor `IPv6`, whatever the ASCII case.
    Mode(Text),
    /// Memory ran out.
    OutOfMemory,
}

impl Drop for InvalidEndpointMode {
    fn drop(self) {
        match self {
            InvalidEndpointMode::Mode(_) => {}
            InvalidEndpointMode::OutOfMemory => {}
        }
    }
}

/// Why a client is not built, or asks nothing.
#[derive(PartialEq, Eq)]
pub enum BuildError {
    /// The mode that is set is none.
    InvalidEndpointMode(InvalidEndpointMode),
    /// This endpoint is no URI, or a call finds no scheme or no authority in it.
    InvalidEndpointUri(Text),
    /// Memory ran out.
    OutOfMemory,
}

impl Drop for BuildError {
    fn drop(self) {
        match self {
            BuildError::InvalidEndpointMode(_) => {}
            BuildError::InvalidEndpointUri(_) => {}
            BuildError::OutOfMemory => {}
        }
    }
}

/// Why a reply gives no session token.
#[derive(Clone, Copy, Debug, PartialEq, Eq)]
pub enum TokenError {
    /// The reply's body is no header value.
    InvalidToken,
    /// The reply does not tell the token's lifetime.
    NoTtl,
    /// The lifetime is no number of seconds in 64 bits, or its end is past the last moment of all.
    InvalidTtl,
    /// The reply has the status 400.
    InvalidParameters,
    /// The reply has the status 403.
    Forbidden,
}

/// Why there is no session token.
#[derive(Clone, Copy, Debug, PartialEq, Eq)]
pub enum FailedToLoadToken {
    /// The request was not answered.
    Sent(FailKind),
    /// The reply gives none.
    Token(TokenError),
}

impl FailedToLoadToken {
    /// Whether the request for the token could not be sent (`Dispatch`).
    pub fn is_dispatch_failure(&self) -> bool
        ensures { result ≡ is_dispatch_failure_of self.now }
    {
        match self {
            FailedToLoadToken::Sent(FailKind::Dispatch) => true,
            _ => false,
        }
    }
}

/// A reply without a success status.
#[derive(Debug, PartialEq, Eq)]
pub struct ErrorResponse {
    reply: HttpReply,
}

impl Drop for ErrorResponse {
    fn drop(self) {
        let ErrorResponse { reply: _ } = self;
    }
}

impl ErrorResponse {
    ghost use Rattle.cfg_types.specs.Metadata.{error_reply};

    /// The error of this reply.
    pub fn new(reply: HttpReply) -> ErrorResponse
        ensures { error_reply result ≡ reply }
    {
        ErrorResponse { reply }
    }

    /// The reply.
    pub fn response(&self) -> &HttpReply
        ensures { result.now ≡ error_reply self.now }
    {
        &self.reply
    }
}

/// What no rule of the client allows for.
#[derive(PartialEq, Eq)]
pub enum UnexpectedCause {
    /// A reply's body is not UTF-8.
    NotUtf8,
    /// A request could not be sent.
    Dispatch,
    /// The endpoint cannot be asked. Nothing was asked.
    Endpoint(BuildError),
    /// This is no path of a URI that begins with `/`. Nothing was asked.
    Path(Text),
}

impl Drop for UnexpectedCause {
    fn drop(self) {
        match self {
            UnexpectedCause::NotUtf8 => {}
            UnexpectedCause::Dispatch => {}
            UnexpectedCause::Endpoint(_) => {}
            UnexpectedCause::Path(_) => {}
        }
    }
}

/// Why the instance metadata service gives nothing.
#[derive(Debug, PartialEq, Eq)]
pub enum ImdsError {
    /// There is no session token.
    FailedToLoadToken(FailedToLoadToken),
    /// A reply has no success status.
    ErrorResponse(ErrorResponse),
    /// A request was sent and not answered. One that could not be sent is `Unexpected`.
    IoError(FailKind),
    /// What no rule of the client allows for.
    Unexpected(UnexpectedCause),
    /// Memory ran out.
    OutOfMemory,
}

impl Drop for ImdsError {
    fn drop(self) {
        match self {
            ImdsError::FailedToLoadToken(_) => {}
            ImdsError::ErrorResponse(_) => {}
            ImdsError::IoError(_) => {}
            ImdsError::Unexpected(_) => {}
            ImdsError::OutOfMemory => {}
        }
    }
}

impl From<OutOfMemory> for InvalidEndpointMode {
    ghost use Rattle.std.specs.Prelude.{◌≡◌};
    ghost use Rattle.cfg_types.specs.declared.errors.imds.InvalidEndpointMode.TheVariants.{OutOfMemory as memory};

    ghost from_gives = { λ _ e. e ≡ memory };

    fn from(_: OutOfMemory) -> InvalidEndpointMode {
        InvalidEndpointMode::OutOfMemory
    }
}

impl From<OutOfMemory> for BuildError {
    ghost use Rattle.std.specs.Prelude.{◌≡◌};
    ghost use Rattle.cfg_types.specs.declared.errors.imds.BuildError.TheVariants.{OutOfMemory as memory};

    ghost from_gives = { λ _ e. e ≡ memory };

    fn from(_: OutOfMemory) -> BuildError {
        BuildError::OutOfMemory
    }
}

impl From<OutOfMemory> for ImdsError {
    ghost use Rattle.std.specs.Prelude.{◌≡◌};
    ghost use Rattle.cfg_types.specs.declared.errors.imds.ImdsError.TheVariants.{OutOfMemory as memory};

    ghost from_gives = { λ _ e. e ≡ memory };

    fn from(_: OutOfMemory) -> ImdsError {
        ImdsError::OutOfMemory
    }
}

impl fmt::Display for InvalidEndpointMode {
    ghost use Rattle.std.specs.Prelude.{Some};
    ghost use Rattle.cfg_types.specs.ErrorTexts.{endpoint_mode_text};

    ghost output = { λ e. Some (endpoint_mode_text e) };

    ghost styled_output = { λ e _. Some (endpoint_mode_text e) };

    fn fmt<W: fmt::Write>(&self, f: &mut fmt::Formatter<W>) -> fmt::Result {
        match self {
            InvalidEndpointMode::Mode(mode) => around(
                f,
                "`",
                mode,
                "` is not a valid endpoint mode. Valid values are [`IPv4`, `IPv6`]",
            ),
            InvalidEndpointMode::OutOfMemory => f.write_str("out of memory"),
        }
    }
}

impl Error for InvalidEndpointMode {}

impl fmt::Display for BuildError {
    ghost use Rattle.std.specs.Prelude.{Some};
    ghost use Rattle.cfg_types.specs.ErrorTexts.{build_text};

    ghost output = { λ e. Some (build_text e) };

    ghost styled_output = { λ e _. Some (build_text e) };

    fn fmt<W: fmt::Write>(&self, f: &mut fmt::Formatter<W>) -> fmt::Result {
        match self {
            BuildError::InvalidEndpointMode(_) => f.write_str(
                "failed to build IMDS client: invalid endpoint mode",
            ),
            BuildError::InvalidEndpointUri(_) => f.write_str(
                "failed to build IMDS client: invalid URI",
            ),
            BuildError::OutOfMemory => f.write_str("out of memory"),
        }
    }
}

impl Error for BuildError {}

// An address may hold a password or a token.
impl fmt::Debug for BuildError {
    ghost use Rattle.cfg_types.specs.DebugTexts.{shown_build};

    ghost debug_output = { shown_build };

    fn fmt<W: fmt::Write>(&self, f: &mut fmt::Formatter<W>) -> fmt::Result {
        match self {
            BuildError::InvalidEndpointMode(error) => {
                f.debug_tuple("InvalidEndpointMode").field(error).finish()
            }
            BuildError::InvalidEndpointUri(uri) => {
                let uri = ShownAddress(uri);
                write!(f, "InvalidEndpointUri({uri})")
            }
            BuildError::OutOfMemory => f.write_str("OutOfMemory"),
        }
    }
}

// The end of a path may be what the listing of roles gave.
impl fmt::Debug for UnexpectedCause {
    ghost use Rattle.cfg_types.specs.DebugTexts.{shown_unexpected};

    ghost debug_output = { shown_unexpected };

    fn fmt<W: fmt::Write>(&self, f: &mut fmt::Formatter<W>) -> fmt::Result {
        match self {
            UnexpectedCause::NotUtf8 => f.write_str("NotUtf8"),
            UnexpectedCause::Dispatch => f.write_str("Dispatch"),
            UnexpectedCause::Endpoint(error) => f.debug_tuple("Endpoint").field(error).finish(),
            UnexpectedCause::Path(_) => f.write_str("Path(\"** redacted **\")"),
        }
    }
}

impl fmt::Display for TokenError {
    ghost use Rattle.std.specs.Prelude.{Some};
    ghost use Rattle.cfg_types.specs.ErrorTexts.{session_token_text};

    ghost output = { λ e. Some (session_token_text e) };

    ghost styled_output = { λ e _. Some (session_token_text e) };

    fn fmt<W: fmt::Write>(&self, f: &mut fmt::Formatter<W>) -> fmt::Result {
        match self {
            TokenError::InvalidToken => f.write_str("invalid token"),
            TokenError::NoTtl => f.write_str("token response did not contain a TTL header"),
            TokenError::InvalidTtl => f.write_str("the returned TTL was invalid"),
            TokenError::InvalidParameters => f.write_str(
                "invalid request parameters. This indicates an SDK bug.",
            ),
            TokenError::Forbidden => f.write_str(
                "request forbidden: IMDS is disabled or the caller has insufficient permissions.",
            ),
        }
    }
}

impl Error for TokenError {}

impl fmt::Display for ImdsError {
    ghost use Rattle.std.specs.Prelude.{Some};
    ghost use Rattle.cfg_types.specs.ErrorTexts.{imds_text};

    ghost output = { λ e. Some (imds_text e) };

    ghost styled_output = { λ e _. Some (imds_text e) };

    fn fmt<W: fmt::Write>(&self, f: &mut fmt::Formatter<W>) -> fmt::Result {
        match self {
            ImdsError::FailedToLoadToken(_) => f.write_str("failed to load IMDS session token"),
            ImdsError::ErrorResponse(e) => write_code(f, e.response().status),
            ImdsError::IoError(_) => f.write_str("an IO error occurred communicating with IMDS"),
            ImdsError::Unexpected(_) => f.write_str(
                "an unexpected error occurred communicating with IMDS",
            ),
            ImdsError::OutOfMemory => f.write_str("out of memory"),
        }
    }
}

impl Error for ImdsError {}

/// Writes that a reply has this status.
fn write_code<W: fmt::Write>(f: &mut fmt::Formatter<W>, status: u16) -> fmt::Result
    ensures writes { WritesOnOk W.write_str_gives f.old result (codes "error response from IMDS (code: " ++ (decimal status ++ codes ")")) f.new }
    ensures styled { WritesStyledOnOk W.write_str_gives f.old result (codes "error response from IMDS (code: " ++ (decimal status ++ codes ")")) f.new }
{
    let mut digits = itoa::Buffer::new();
    f.write_str("error response from IMDS (code: ")?;
    f.write_str(digits.format(status))?;
    f.write_str(")")
}
