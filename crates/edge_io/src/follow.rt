//! What the answers of one stream come to.

ghost use Rattle.std.specs.Prelude.{◌≡◌, ◌<◌, length};
ghost use Rattle.edge_io.specs.Peers.{ReadsStream, WritesStream, follow_of, reading_as};

use crate::event::Event;
use crate::failed::Failed;
use crate::replies::{Reading, came, taken};
use std::io::{Read, Write};

/// What follows from a read of a connection.
#[derive(Clone, Copy)]
pub(crate) struct Following {
    pub(crate) event: Option<Event>,
    /// Its peer ended.
    pub(crate) ended: bool,
    /// It is put in line again.
    pub(crate) again: bool,
    /// It is held no more.
    pub(crate) gone: bool,
}

/// One read of a stream into a buffer with room.
pub(crate) fn reading_of<S: Read>(stream: &mut S, buf: &mut [u8]) -> Reading
    requires some { 0 < length buf.old }
    ensures bytes { ReadsStream (S.remaining stream.old) (S.remaining stream.new) buf.new result }
{
    came(stream.read(buf))
}

/// One write to a stream.
pub(crate) fn sending_of<S: Write>(stream: &mut S, piece: &[u8]) -> Result<usize, Failed>
    ensures bytes { WritesStream (S.contents stream.old) (S.contents stream.new) piece.now result }
{
    taken(stream.write(piece))
}

/// What a reading is taken for: with `hangup` an end of the peer is the loss of its connection.
pub(crate) fn reading_as(hangup: bool, reading: Reading) -> Reading
    ensures exact { result ≡ reading_as hangup reading }
{
    match reading {
        Reading::Ended if hangup => Reading::Lost,
        _ => reading,
    }
}

/// What follows from a read of the connection of this number.
pub(crate) fn follow(id: u64, reading: Reading) -> Following
    ensures exact { result ≡ follow_of id reading }
{
    let quiet = Following {
        event: None,
        ended: false,
        again: false,
        gone: false,
    };
    match reading {
        Reading::Arrived { n } => Following {
            event: Some(Event::Bytes { id, n }),
            again: true,
            ..quiet
        },
        Reading::Ended => Following {
            event: Some(Event::Ended { id }),
            ended: true,
            ..quiet
        },
        Reading::NotNow => quiet,
        Reading::Again => Following {
            again: true,
            ..quiet
        },
        Reading::Lost => Following {
            event: Some(Event::Lost { id }),
            gone: true,
            ..quiet
        },
    }
}
