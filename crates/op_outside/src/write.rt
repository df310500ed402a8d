// All of some bytes.
ghost use Rattle.std.specs.Prelude.{◌≡◌, ◌≤◌, OnOk, OnErr};
ghost use Rattle.op_outside.specs.Outside.{Rose, appended, AppendsFront};

use crate::{Failed, Sink};

/// Appends all the bytes to the sink, in as many pieces as it takes.
///
/// `Failed` comes only where the sink's count of faults rose in this call; a front of the bytes was
/// appended then. Takes no memory.
pub fn write_all_of<O: Sink>(sink: &mut O, bytes: &[u8]) -> Result<(), Failed>
    ensures never_falls { O.faults sink.old ≤ O.faults sink.new }
    ensures ok { OnOk result (O.written sink.new ≡ appended (O.written sink.old) bytes.now) }
    ensures calm { OnOk result (O.faults sink.new ≡ O.faults sink.old) }
    ensures failed { OnErr result (Rose (O.faults sink.old) (O.faults sink.new)) }
    ensures front { OnErr result (AppendsFront (O.written sink.old) bytes.now (O.written sink.new)) }
{
    let mut rest = bytes;
    while !rest.is_empty() {
        let count = sink.write(rest)?;
        rest = &rest[count..];
    }
    Ok(())
}
