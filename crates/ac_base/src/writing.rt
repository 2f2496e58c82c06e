// Bytes written whole.
ghost use Rattle.std.specs.Prelude.{◌≡◌, ◌≤◌, OnOk, OnErr};
ghost use Rattle.ac_base.specs.Count.{Rose};
ghost use Rattle.ac_base.specs.Sink.{grown, TakesPart};

use crate::{Failed, Sink};

/// Writes all the bytes, in as many calls as it needs. It takes no memory.
/// It fails at the first call that does: the sink has then taken a front part of them.
pub fn write_whole<K: Sink>(sink: &mut K, bytes: &[u8]) -> Result<(), Failed>
    ensures count { K.faults sink.old ≤ K.faults sink.new }
    ensures ok { OnOk result (K.taken sink.new ≡ grown (K.taken sink.old) bytes.now) }
    ensures err { OnErr result (TakesPart (K.taken sink.old) bytes.now (K.taken sink.new)) }
    ensures cause { OnErr result (Rose (K.faults sink.old) (K.faults sink.new)) }
{
    let mut rest = bytes;
    while !rest.is_empty() {
        let count = sink.write(rest)?;
        rest = &rest[count..];
    }
    Ok(())
}
