//! How a hub in memory notes an act: bytes by the place where they stand.

use edge_io::Event;

/// One act. An opening says whether an end of a peer is a loss. The bytes of an event are those from `from` on of the script's entry `place`; those of
/// an address and of a send stand from `from` on among the bytes that were kept.
#[derive(Clone, Copy)]
pub enum Note {
    Listens {
        from: usize,
        n: usize,
        hangup: bool,
    },
    Gave {
        event: Event,
        place: usize,
        from: usize,
    },
    Took {
        id: u64,
        from: usize,
        n: usize,
    },
    Broke {
        id: u64,
    },
    Closed {
        id: u64,
    },
}
