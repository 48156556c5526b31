//! Profiles that are made ready before anybody is connected.

ghost use Rattle.std.specs.Prelude.{◌≡◌, ◌<◌, length};
ghost use Rattle.hall.specs.Parts.{IsHeld, service_in, state_in};
ghost use Rattle.hall.specs.State.{empty_hall};
ghost use Rattle.session_answers.specs.Warming.{MakesReady};

use crate::room::Room;
use route_ready::RouteError;
use session_answers::make_ready;

/// Makes the stored profile at a place ready, where nobody is connected.
pub(crate) fn make_ready_in(room: &mut Room, place: u32) -> Result<(), RouteError>
    requires held { IsHeld room.old }
    requires new { state_in room.old ≡ empty_hall (state_in room.old).stored }
    requires fits { place < length (state_in room.old).stored }
    ensures exact { MakesReady (service_in room.old).world (state_in room.old).stored place
        result }
    ensures held { IsHeld room.new }
    ensures state { state_in room.new ≡ state_in room.old }
    ensures same { service_in room.new ≡ service_in room.old }
{
    let desk = &mut room.desk;
    make_ready(
        desk.alloc,
        &desk.world,
        &desk.profiles,
        place,
        &mut desk.kept,
    )
}
