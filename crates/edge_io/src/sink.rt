//! A place that takes bytes.

ghost use Rattle.std.specs.Prelude.{take, IfOk, OnErr};
ghost use Rattle.edge_io.specs.Sink.{SinkSeen, TakesFront, Grows, FailsToTake};

use crate::failed::Failed;

/// A place that takes bytes, one piece after another.
pub trait Sink {
    /// What it shows: the bytes that it holds, where it tells them, and how many of its calls
    /// failed; the count stands still at its last value.
    ghost seen: { Self → SinkSeen };

    /// Takes so many first bytes of the piece, at least one of a nonempty piece.
    fn write(&mut self, piece: &[u8]) -> Result<usize, Failed>
        ensures fits { IfOk result (TakesFront piece.now) }
        ensures value { IfOk result
            (λ n. Grows (seen self.old) (seen self.new) (take n piece.now)) }
        ensures kept { OnErr result (FailsToTake (seen self.old) (seen self.new)) };
}
