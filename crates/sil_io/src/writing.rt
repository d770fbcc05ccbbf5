//! Writing all of some bytes to a sink.

ghost use Rattle.std.specs.Prelude.{◌≡◌, ◌<◌, ◌≤◌, IfErr, OnOk, OnErr, length, take};
ghost use Rattle.std.specs.Io.KnownBytes.{Appends};
ghost use Rattle.sil_io.specs.Count.{MayFail};
ghost use Rattle.sil_io.specs.Writing.{Puts, PutsUntilRefused};

use crate::sink::Sink;
use thiserror::Error;

/// A sink failed when it had taken the first `written` bytes.
#[derive(Clone, Copy, Debug, PartialEq, Eq, Error)]
#[error("write fault after {written} bytes")]
pub struct WriteFault {
    pub written: usize,
}

/// Appends all of `bytes` to what `sink` holds, in as many calls as it needs. It takes no memory.
/// `WriteFault` comes only with a fault of the sink.
pub fn write_all<K: Sink>(sink: &mut K, bytes: &[u8]) -> Result<(), WriteFault>
    ensures all { OnOk result (Appends (K.held sink.old) (K.held sink.new) bytes.now) }
    ensures no_fault { OnOk result (K.faults sink.new ≡ K.faults sink.old) }

    // Each put is given all the bytes that are left, and none comes behind a fault.
    ensures puts { OnOk result (Puts K.took bytes.now sink.old (length bytes.now) sink.new) }
    ensures refused { IfErr result (λ fault. PutsUntilRefused K.took K.refused sink.old bytes.now fault.written sink.new) }

    ensures written { IfErr result (λ fault. Appends (K.held sink.old) (K.held sink.new) (take fault.written bytes.now)) }
    ensures not_all { IfErr result (λ fault. fault.written < length bytes.now) }
    ensures fault { OnErr result (MayFail (K.faults sink.old) (K.faults sink.new)) }
    ensures never_falls { K.faults sink.old ≤ K.faults sink.new }
{
    let mut written = 0;
    while written < bytes.len() {
        match sink.put(&bytes[written..]) {
            Ok(count) => written += count,
            Err(_) => return Err(WriteFault { written }),
        }
    }
    Ok(())
}
