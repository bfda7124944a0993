//! What no clause says: that targets are made, in examples.
use cfg_exchange::{Target, relative_target, validate_full_uri};
use cfg_types::{InvalidFullUriError, OutOfMemory};
use cfg_world::{DeviceLists, ScriptDevices, World};
use std::alloc::Global;
use std::test::Fail;

fn checked(alloc: Global, uri: &str) -> Result<Result<Target, InvalidFullUriError>, OutOfMemory> {
    let devices = ScriptDevices::new(alloc, DeviceLists::empty(alloc))?;
    let mut world = World::new(alloc, devices);
    Ok(validate_full_uri(alloc, uri, true, &mut world))
}

// What a text names as a relative address and as a full one.
fn words_of(alloc: Global, uri: &str) -> Result<String, OutOfMemory> {
    let relative = relative_target(alloc, uri)?;
    let full = checked(alloc, uri)?;
    Ok(format!(in alloc; "{relative:?} {full:?}")?)
}

const TABLE: &[(&str, &str)] = &[
    (
        "http://127.0.0.1:8080/c?q#f",
        "Some(Target { endpoint: \"http://169.254.170.2\", path: \"/c?q\" }) Ok(Target { endpoint: \"http://127.0.0.1:8080\", path: \"/c?q\" })",
    ),
    (
        "hTTps://n",
        "Some(Target { endpoint: \"http://169.254.170.2\", path: \"/\" }) Ok(Target { endpoint: \"https://n\", path: \"/\" })",
    ),
    (
        "/x",
        "Some(Target { endpoint: \"http://169.254.170.2\", path: \"/x\" }) Err(MissingHost)",
    ),
    (
        "http://n/c",
        "Some(Target { endpoint: \"http://169.254.170.2\", path: \"/c\" }) Err(DnsLookupFailed)",
    ),
    ("", "None Err(InvalidUri)"),
];

#[test]
fn targets_of_texts(rt: HostRuntime) -> Result<(), Fail> {
    for (uri, want) in TABLE {
        let words = words_of(rt.alloc(), uri)?;
        assert_eq!(rt; words.as_str(), *want, "{uri}");
    }
    Ok(())
}
