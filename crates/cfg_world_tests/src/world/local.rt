//! What no clause says: that devices of this machine read and write its files and its clock.
use cfg_types::{Bytes, FailKind, Fault};
use cfg_world::{Devices, LocalDevices};
use std::rt::Clock;
use std::test::Fail;
use std::{env, fs, io};

// A path of no file, by the time.
fn fresh_path(rt: &HostRuntime) -> io::Result<String> {
    let folder = env::temp_dir(rt)?;
    let nanos = rt.since_1970()?.subsec_nanos();
    Ok(format!(in rt.alloc(); "{}/local_devices_{nanos}", folder.display())?)
}

#[test]
fn local_devices_read_and_write_files(rt: HostRuntime) -> Result<(), Fail> {
    let path = fresh_path(&rt)?;
    fs::write(&rt, path.as_str(), "a")?;
    let mut devices = LocalDevices::new(rt.alloc(), &rt);
    let read = devices.read(path.as_str());
    assert!(rt; read == Ok(Bytes::of(rt.alloc(), b"a")?));
    assert_eq!(rt; devices.write(path.as_str(), b"bc"), Ok(()));
    let read = fs::read_to_string(&rt, path.as_str())?;
    assert_eq!(rt; read.as_str(), "bc");
    fs::remove_file(&rt, path.as_str())?;
    assert!(rt; devices.read(path.as_str()) == Err(Fault::Failed(FailKind::Io)));
    Ok(())
}

#[test]
fn the_local_clock_is_past_the_epoch(rt: HostRuntime) {
    let mut devices = LocalDevices::new(rt.alloc(), &rt);
    assert!(rt; devices.now().seconds() > 1_700_000_000);
    assert_eq!(rt; devices.jitter(), 0);
}
