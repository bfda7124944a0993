//! What no clause says of a whole error: that no text of one, Debug texts too, shows what a reply gave, or user
//! information or query of an address.
use cfg_types::imds::{BuildError, ErrorResponse, ImdsError, UnexpectedCause};
use cfg_types::{
    Bytes, ConfigCause, CredentialsError, Header, HttpReply, InvalidFullUriError, OutOfMemory,
    ProviderCause, Seq, Text, UnhandledCause,
};
use std::alloc::Global;
use std::test::Fail;

const ADDRESS: &str = "http://MARKER@host/path?MARKER";

fn refused_reply(alloc: Global) -> Result<ErrorResponse, OutOfMemory> {
    let mut headers = Seq::of(Vec::new(alloc));
    headers.push(Header {
        name: Text::of(alloc, "MARKER")?,
        value: Text::of(alloc, "MARKER")?,
    })?;
    Ok(ErrorResponse::new(HttpReply {
        status: 500,
        headers,
        body: Bytes::of(alloc, b"MARKER")?,
    }))
}

fn metadata(error: ImdsError) -> CredentialsError {
    CredentialsError::ProviderError(ProviderCause::Metadata(error))
}

fn error_of(alloc: Global, kind: &str) -> Result<CredentialsError, OutOfMemory> {
    let address = Text::of(alloc, ADDRESS)?;
    Ok(match kind {
        "StsArn" => CredentialsError::Unhandled(UnhandledCause::StsArn(Text::of(alloc, "MARKER")?)),
        "RelativeUri" => CredentialsError::InvalidConfiguration(ConfigCause::RelativeUri(address)),
        "FullUri" => CredentialsError::InvalidConfiguration(ConfigCause::FullUri {
            error: InvalidFullUriError::DisallowedIP,
            uri: address,
        }),
        "ErrorResponse" => metadata(ImdsError::ErrorResponse(refused_reply(alloc)?)),
        "Path" => metadata(ImdsError::Unexpected(UnexpectedCause::Path(Text::of(
            alloc, "/MARKER",
        )?))),
        _ => metadata(ImdsError::Unexpected(UnexpectedCause::Endpoint(
            BuildError::InvalidEndpointUri(address),
        ))),
    })
}

// The cause of an error of the configuration, or of what no rule allows for, as a user is shown it.
fn cause_words(alloc: Global, error: &CredentialsError) -> Result<String, OutOfMemory> {
    Ok(match error {
        CredentialsError::InvalidConfiguration(cause) => format!(in alloc; "{cause}")?,
        CredentialsError::Unhandled(cause) => format!(in alloc; "{cause}")?,
        CredentialsError::ProviderError(cause) => format!(in alloc; "{cause}")?,
        _ => String::new(alloc),
    })
}

// Each kind, the Debug text of its error, and the text of its cause.
const ERRORS: &[(&str, &str, &str)] = &[
    (
        "StsArn",
        "Unhandled(StsArn(\"** redacted **\"))",
        "the ARN in the reply of STS names no account",
    ),
    (
        "RelativeUri",
        "InvalidConfiguration(RelativeUri(..@host/path..))",
        "`..@host/path..` is no path of the container's endpoint",
    ),
    (
        "FullUri",
        "InvalidConfiguration(FullUri(..@host/path..: URI did not refer to an allowed IP address))",
        "`..@host/path..`: URI did not refer to an allowed IP address",
    ),
    (
        "ErrorResponse",
        "ProviderError(Metadata(ErrorResponse(ErrorResponse { reply: HttpReply { status: 500, secrets: \"** redacted **\" } })))",
        "error response from IMDS (code: 500)",
    ),
    (
        "Path",
        "ProviderError(Metadata(Unexpected(Path(\"** redacted **\"))))",
        "an unexpected error occurred communicating with IMDS",
    ),
    (
        "InvalidEndpointUri",
        "ProviderError(Metadata(Unexpected(Endpoint(InvalidEndpointUri(..@host/path..)))))",
        "an unexpected error occurred communicating with IMDS",
    ),
];

#[test]
fn errors_show_no_marker(rt: HostRuntime) -> Result<(), Fail> {
    for (kind, debug, cause) in ERRORS {
        let error = error_of(rt.alloc(), kind)?;
        let words = format!(in rt.alloc(); "{error:?}")?;
        assert_eq!(rt; words.as_str(), *debug, "{kind}");
        let lines = format!(in rt.alloc(); "{error:#?} {error}")?;
        assert!(rt; !lines.as_str().contains("MARKER"), "{kind}");
        let words = cause_words(rt.alloc(), &error)?;
        assert_eq!(rt; words.as_str(), *cause, "{kind}");
    }
    Ok(())
}
