use cfg_base::OutOfMemory;
use std::error::Error;
use std::fmt;

/// Why a container's credentials are not fetched from an address.
#[derive(Clone, Copy, Debug, PartialEq, Eq)]
pub enum InvalidFullUriError {
    /// It is no URI, or it has a host and no scheme.
    InvalidUri,
    /// Its host is a name, and there is no resolver to look it up.
    NoDnsResolver,
    /// It has no host.
    MissingHost,
    /// Its host is an address that is not allowed, or a name that has one. Only HTTPS may go there.
    DisallowedIP,
    /// Its host could not be looked up.
    DnsLookupFailed,
    /// Memory ran out.
    OutOfMemory,
}

impl From<OutOfMemory> for InvalidFullUriError {
    ghost use Rattle.std.specs.Prelude.{◌≡◌};
    ghost use Rattle.cfg_types.specs.declared.errors.container.InvalidFullUriError.TheVariants.{OutOfMemory as memory};

    ghost from_gives = { λ _ e. e ≡ memory };

    fn from(_: OutOfMemory) -> InvalidFullUriError {
        InvalidFullUriError::OutOfMemory
    }
}

impl fmt::Display for InvalidFullUriError {
    ghost use Rattle.std.specs.Prelude.{Some};
    ghost use Rattle.cfg_types.specs.ErrorTexts.{full_uri_text};

    ghost output = { λ e. Some (full_uri_text e) };

    ghost styled_output = { λ e _. Some (full_uri_text e) };

    fn fmt<W: fmt::Write>(&self, f: &mut fmt::Formatter<W>) -> fmt::Result {
        match self {
            InvalidFullUriError::InvalidUri => f.write_str("URI was invalid"),
            InvalidFullUriError::NoDnsResolver => f.write_str(
                "no DNS resolver was provided. Enable `rt-tokio` or provide a `dns` resolver to the builder.",
            ),
            InvalidFullUriError::MissingHost => f.write_str("URI did not specify a host"),
            InvalidFullUriError::DisallowedIP => f.write_str(
                "URI did not refer to an allowed IP address",
            ),
            InvalidFullUriError::DnsLookupFailed => f.write_str(
                "failed to perform DNS lookup while validating URI",
            ),
            InvalidFullUriError::OutOfMemory => f.write_str("out of memory"),
        }
    }
}

impl Error for InvalidFullUriError {}
