//! What an endpoint replies, and what devices over it answer.
use crate::setup::{at, container_request, endpoint, get_request, token_request};
use cfg_endpoint::{EndpointDevices, EndpointFault};
use cfg_types::{Fault, HttpReply, OutOfMemory, Reply, Request, Seq};
use cfg_world::Devices;
use std::alloc::{AllocError, Global};
use std::str;
use std::test::Fail;

// What is asked: a kind, and its parts.
const ASKED: &[(&str, &str, &str)] = &[
    (
        "get",
        "token-1",
        "/latest/meta-data/iam/security-credentials/",
    ),
    ("token", "0", ""),
    ("token", "1", ""),
    ("token", "21600", ""),
    ("token", "21601", ""),
    (
        "get",
        "token-1",
        "/latest/meta-data/iam/security-credentials/",
    ),
    (
        "get",
        "token-2",
        "/latest/meta-data/iam/security-credentials/r-s",
    ),
    (
        "get",
        "token-3",
        "/latest/meta-data/iam/security-credentials/r-s",
    ),
    (
        "get",
        "token-0",
        "/latest/meta-data/iam/security-credentials/r-s",
    ),
    (
        "get",
        "token-02",
        "/latest/meta-data/iam/security-credentials/r-s",
    ),
    (
        "get",
        "token-+2",
        "/latest/meta-data/iam/security-credentials/r-s",
    ),
    (
        "get",
        "token-",
        "/latest/meta-data/iam/security-credentials/r-s",
    ),
    ("get", "", "/latest/meta-data/iam/security-credentials/r-s"),
    (
        "get",
        "token-2",
        "/latest/meta-data/iam/security-credentials",
    ),
    (
        "get",
        "token-2",
        "/latest/meta-data/iam/security-credentials/r",
    ),
    ("get", "token-2", "/c"),
    ("http", "", "/c"),
    ("http", "", "/c?d"),
    ("http", "", "/"),
    ("forget", "", ""),
    (
        "get",
        "token-2",
        "/latest/meta-data/iam/security-credentials/r-s",
    ),
    ("token", "60", ""),
    (
        "get",
        "token-3",
        "/latest/meta-data/iam/security-credentials/",
    ),
];

const REPLIES: &[&str] = &[
    "401",
    "400",
    "200 token-1 for 1",
    "200 token-2 for 21600",
    "400",
    "200 r-s",
    "200 {\"AccessKeyId\":\"I\",\"SecretAccessKey\":\"S\",\"Token\":\"T\",\"Expiration\":\"1970-01-01T01:23:20Z\"}",
    "401",
    "401",
    "401",
    "401",
    "401",
    "401",
    "404",
    "404",
    "404",
    "200 {\"AccessKeyId\":\"I\",\"SecretAccessKey\":\"S\",\"Token\":\"T\",\"Expiration\":\"1970-01-01T01:23:20Z\"}",
    "404",
    "404",
    "forgotten",
    "401",
    "200 token-3 for 60",
    "200 r-s",
];

fn reply_words(alloc: Global, reply: &HttpReply) -> Result<String, AllocError> {
    let status = reply.status;
    let body = str::from_utf8(reply.body.as_slice()).unwrap_or("no text");
    match reply.header("X-AWS-EC2-Metadata-Token-TTL-Seconds") {
        Some(seconds) => format!(in alloc; "{status} {body} for {seconds}"),
        None if body.is_empty() => format!(in alloc; "{status}"),
        None => format!(in alloc; "{status} {body}"),
    }
}

fn answer_words(alloc: Global, answer: &Result<Reply, Fault>) -> Result<String, AllocError> {
    match answer {
        Ok(Reply::Http(reply)) => reply_words(alloc, reply),
        Ok(_) => String::from_str(alloc, "another reply"),
        Err(Fault::Failed(kind)) => format!(in alloc; "{kind:?}"),
        Err(Fault::OutOfMemory) => String::from_str(alloc, "out of memory"),
    }
}

fn request(alloc: Global, kind: &str, token: &str, path: &str) -> Result<Request, OutOfMemory> {
    match kind {
        "token" => token_request(alloc, token.parse::<u64>().unwrap_or(7)),
        "get" => get_request(alloc, path, token),
        _ => container_request(alloc, path),
    }
}

fn words(
    alloc: Global,
    devices: &mut EndpointDevices,
    asked: (&str, &str, &str),
) -> Result<String, OutOfMemory> {
    let (kind, token, path) = asked;
    if kind == "forget" {
        devices.endpoint_mut().forget();
        return Ok(String::from_str(alloc, "forgotten")?);
    }
    let request = request(alloc, kind, token, path)?;
    let answer = devices.send(&request);
    Ok(answer_words(alloc, &answer)?)
}

fn devices(alloc: Global, role: &str) -> Result<EndpointDevices, EndpointFault> {
    let endpoint = endpoint(alloc, role, at(5000))?;
    Ok(EndpointDevices::new(alloc, endpoint, Seq::of(Vec::new(alloc))))
}

#[test]
fn requests_have_the_replies_of_the_table(rt: HostRuntime) -> Result<(), Fail> {
    let mut devices = devices(rt.alloc(), "r-s")?;
    for (asked, reply) in ASKED.iter().zip(REPLIES) {
        let words = words(rt.alloc(), &mut devices, *asked)?;
        assert_eq!(rt; words.as_str(), *reply);
    }
    Ok(())
}

// Roles, each with the moment of the credentials' end in seconds, and what comes of making the endpoint.
const MADE: &[(&str, i64, &str)] = &[
    ("r", 5000, "made"),
    ("r-s", -62135596800, "made"),
    ("r?x", 253402300799, "made"),
    ("", 5000, "no path can be asked for the role ``"),
    ("a b", 5000, "no path can be asked for the role `a b`"),
    (
        "a\n",
        -62135596801,
        "no path can be asked for the role `a\n`",
    ),
    (
        "r",
        -62135596801,
        "the expiry is outside the years 1 to 9999",
    ),
    (
        "r",
        253402300800,
        "the expiry is outside the years 1 to 9999",
    ),
];

fn made_words(alloc: Global, role: &str, seconds: i64) -> Result<String, AllocError> {
    match endpoint(alloc, role, at(seconds)) {
        Ok(_) => String::from_str(alloc, "made"),
        Err(fault) => format!(in alloc; "{fault}"),
    }
}

#[test]
fn endpoints_are_made_of_fine_roles_and_moments(rt: HostRuntime) -> Result<(), Fail> {
    for (role, seconds, made) in MADE {
        let words = made_words(rt.alloc(), role, *seconds)?;
        assert_eq!(rt; words.as_str(), *made);
    }
    Ok(())
}
