//! All bytes to a sink.
ghost use Rattle.std.specs.Prelude.{◌≡◌, ◌≤◌, OnOk, OnErr, Err};
ghost use Rattle.std.specs.Io.KnownBytes.{Appends};
ghost use Rattle.cfg_world.specs.Faults.{Rose};
ghost use Rattle.cfg_program.specs.Streams.{GrowsByPrefix};

use cfg_world::{Sink, StreamFault};

/// Writes all the bytes. After an error a prefix of them was written, which may be empty: `Failed` where the sink
/// failed, and `OutOfMemory` where memory ran out.
pub fn write_all<K: Sink>(sink: &mut K, bytes: &[u8]) -> Result<(), StreamFault>
    ensures done { OnOk result (Appends (K.written sink.old) (K.written sink.new) bytes.now) }
    ensures part { OnErr result (GrowsByPrefix (K.written sink.old) (K.written sink.new) bytes.now) }
    ensures counted { K.faults sink.old ≤ K.faults sink.new }
    ensures failed { result ≡ Err StreamFault.Failed → Rose (K.faults sink.old) (K.faults sink.new) }
{
    let mut rest = bytes;
    while !rest.is_empty() {
        let n = sink.write(rest)?;
        rest = rest.split_at(n).1;
    }
    Ok(())
}
