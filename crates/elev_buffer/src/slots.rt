//! The slot of a label: what may cover it lies in the same one.

ghost use Rattle.std.specs.Prelude.{◌≡◌, ◌<◌, ◌≤◌, false};
ghost use Rattle.elev_buffer.specs.Covers.{IsBuffer, IsPair};
ghost use Rattle.elev_buffer.specs.Slots.{asks_equal, is_equal, shared_part, slot_of, slots_of};

use crate::labels::{Mode, Modes, Pair};

/// How many slots there are for so many links: one for each, but at least about a million where a
/// buffer must be equal, since then a link keeps many labels that don't cover each other.
pub fn slots_of(modes: &Modes, links: u32) -> u32
    ensures exact { result ≡ slots_of modes.now links }
    ensures enough { links ≤ result }
{
    if asks_equal(modes) {
        links.max(1_048_573)
    } else {
        links
    }
}

/// The slot of the label of one of so many links with these buffers: by the link and the buffers
/// that must be equal.
pub fn slot_of(links: u32, modes: &Modes, link: u32, pair: &Pair) -> u32
    requires link { link < links }
    requires pair { IsPair pair.now }
    ensures exact { result ≡ slot_of (slots_of modes.now links) modes.now link pair.now }
    ensures within { result < slots_of modes.now links }

    // Where no buffer must be equal, each link has a slot of its own.
    ensures own { asks_equal modes.now ≡ false → result ≡ link }
{
    if asks_equal(modes) {
        mixed(slots_of(modes, links), modes, link, pair)
    } else {
        link
    }
}

/// The slot by the link and both buffers.
fn mixed(slots: u32, modes: &Modes, link: u32, pair: &Pair) -> u32
    requires slots { link < slots }
    requires pair { IsPair pair.now }
    ensures exact { result ≡ slot_of slots modes.now link pair.now }
    ensures within { result < slots }
{
    let down = shared_part(modes.down, pair.down);
    let up = shared_part(modes.up, pair.up);
    ((link as u64 + 7919 * down + 6563 * up) % slots as u64) as u32
}

/// Whether one of the buffers must be equal.
pub(crate) fn asks_equal(modes: &Modes) -> bool
    ensures exact { result ≡ asks_equal modes.now }
{
    is_equal(modes.down) || is_equal(modes.up)
}

/// Whether a buffer must be equal in this mode.
pub(crate) fn is_equal(mode: Mode) -> bool
    ensures exact { result ≡ is_equal mode }
{
    match mode {
        Mode::Equal => true,
        _ => false,
    }
}

/// What labels share of a buffer where one covers the other.
pub(crate) fn shared_part(mode: Mode, buffer: i64) -> u64
    requires buffer { IsBuffer buffer }
    ensures exact { result ≡ shared_part mode buffer }
    ensures within { result ≤ 1000000000000000 }
{
    match mode {
        Mode::Equal => buffer as u64,
        _ => 0,
    }
}
