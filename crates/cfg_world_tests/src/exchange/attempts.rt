//! How often an exchange sends.
use cfg_exchange::{ImdsResponseRetryClassifier, ReplyKind, exchange};
use cfg_types::{Bytes, MetadataGet, OutOfMemory, Request, Text, Timeouts};
use cfg_world::{DeviceLists, ScriptDevices, World};
use std::alloc::Global;
use std::test::Fail;

fn metadata_get(alloc: Global) -> Result<Request, OutOfMemory> {
    let endpoint = Text::of(alloc, "http://h")?;
    let path = Text::of(alloc, "/p")?;
    let token = Bytes::of(alloc, b"t")?;
    Ok(Request::MetadataGet(MetadataGet {
        endpoint,
        path,
        token,
        timeouts: Timeouts {
            connect_ms: None,
            read_ms: None,
            operation_ms: None,
            attempt_ms: None,
        },
    }))
}

// Whether an exchange is answered that no device answers, and how often it sends.
fn sent(alloc: Global, limit: u32, timeouts: bool) -> Result<(bool, usize), OutOfMemory> {
    let classifier = ImdsResponseRetryClassifier::default().with_retry_connect_timeouts(timeouts);
    let request = metadata_get(alloc)?;
    let devices = ScriptDevices::new(alloc, DeviceLists::empty(alloc))?;
    let mut world = World::new(alloc, devices);
    let kind = ReplyKind::MetadataText;
    let last = exchange(alloc, &mut world, &request, limit, kind, &classifier);
    Ok((last.is_ok(), world.journal().len()))
}

#[test]
fn attempts_by_limits(rt: HostRuntime) -> Result<(), Fail> {
    for (limit, timeouts, want) in [(3, true, 3), (3, false, 1), (0, true, 1)] {
        let found = sent(rt.alloc(), limit, timeouts)?;
        assert!(rt; found == (true, want), "{limit}");
    }
    Ok(())
}
