//! Writing a whole list of bytes to a sink.

ghost use Rattle.std.specs.Prelude.{OnOk, OnErr};
ghost use Rattle.edge_io.specs.Sink.{Grows, BreaksOff};

use crate::failed::Failed;
use crate::sink::Sink;

/// Writes all the bytes, as many at a time as the sink takes, and stops at its first fault.
pub fn send_all<O: Sink>(out: &mut O, bytes: &[u8]) -> Result<(), Failed>
    ensures value { OnOk result (Grows (O.seen out.old) (O.seen out.new) bytes.now) }
    ensures kept { OnErr result (BreaksOff (O.seen out.old) (O.seen out.new) bytes.now) }
{
    let mut sent = 0;
    'sending: while sent < bytes.len() {
        sent += out.write(&bytes[sent..])?;
    }
    Ok(())
}
