//! Guides of profiles, made while no search waits.

ghost use Rattle.std.specs.Prelude.{◌≡◌};
ghost use Rattle.hall.specs.Parts.{IsHeld, service_in, state_in};

use crate::room::Room;
use session_answers::make_guides;

/// Goes on for a spell with the guides of the profiles that are kept, where no search waits.
pub(crate) fn make_guides_in(room: &mut Room)
    requires held { IsHeld room.old }
    ensures held { IsHeld room.new }
    ensures state { state_in room.new ≡ state_in room.old }
    ensures same { service_in room.new ≡ service_in room.old }
{
    if room.desk.queue.len() > 0 {
        return;
    }
    let desk = &mut room.desk;
    make_guides(desk.alloc, &desk.world, &desk.profiles, &mut desk.kept);
}
