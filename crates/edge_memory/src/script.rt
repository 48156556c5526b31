//! What a hub in memory is to give.

ghost use Rattle.std.specs.Prelude.{◌≡◌, ◌↔◌, IsTrue, [], ◌∷◌};
ghost use Rattle.edge_memory.specs.Script.{IsPlayable, IsPlayableBefore, opens};

use item_list::Name;

/// One entry of the script of a hub in memory.
#[derive(Drop)]
pub enum Script {
    /// A peer connects.
    Opened { id: u64 },
    /// These bytes come, as many in one event as the hub's most and the buffer allow.
    Bytes { id: u64, bytes: Name },
    /// The peer sends no more, which is the loss of its connection where the hub was opened so.
    Ended { id: u64 },
    /// The connection is gone.
    Lost { id: u64 },
    /// Nothing happens.
    Quiet,
    /// Nothing happens until the caller has closed this connection. Where it didn't within `most`
    /// calls, the script is over.
    AwaitClosed { id: u64, most: u32 },
}

/// Whether a script opens no connection twice and has no entry of bytes that gives none, as a hub
/// in memory wants it.
pub fn can_play(script: &[Script]) -> bool
    ensures exact { IsTrue result ↔ IsPlayable script.now }
{
    let mut place = script.len();
    'testing: while place > 0 {
        place -= 1;
        if !goes_before(&script[place], &script[place + 1..]) {
            return false;
        }
    }
    true
}

/// Whether an entry may stand before these.
fn goes_before(entry: &Script, rest: &[Script]) -> bool
    ensures exact { IsTrue result ↔ IsPlayableBefore entry.now rest.now }
{
    match entry {
        Script::Opened { id } => !opens_any(rest, *id),
        Script::Bytes { id: _, bytes } => !bytes.as_slice().is_empty(),
        _ => true,
    }
}

/// Whether one of these entries opens the connection.
fn opens_any(script: &[Script], id: u64) -> bool
    ensures exact { result ≡ opens id script.now }
{
    let mut place = 0;
    'looking: while place < script.len() {
        if is_opening(&script[place], id) {
            return true;
        }
        place += 1;
    }
    false
}

/// Whether an entry opens the connection.
fn is_opening(entry: &Script, id: u64) -> bool
    ensures exact { result ≡ opens id (entry.now ∷ []) }
{
    match entry {
        Script::Opened { id: at } => *at == id,
        _ => false,
    }
}
