//! A server's turns.

ghost use Rattle.std.specs.Prelude.{◌≡◌, ◌≢◌, ◌<◌, Bool, length};
ghost use Rattle.edge_io.specs.Hub.{FitsBuffer, bytes_given};
ghost use Rattle.edge_io.specs.declared.event.Event.TheVariants.{Over};
ghost use Rattle.hall.specs.Allowed.{AreAllowed};
ghost use Rattle.hall.specs.Held.{AreFew};
ghost use Rattle.hall.specs.Serving.{AreLive};
ghost use Rattle.hall.specs.Served.{Heard, Served, Stepped, TurnComesTo, Turned};
ghost use Rattle.hall.specs.Sound.{IsSound};
ghost use Rattle.hall.specs.View.{service_of, state_of};

use crate::hall::Hall;
use crate::serve_end::ServeEnd;
use edge_io::{Event, Hub};

/// Serves the connections of a hub for at most so many turns: each takes one event, gives a search
/// one turn, sends a piece of each connection once, and goes on with the guides of profiles where no
/// search waits.
pub fn serve<H: Hub>(hall: &mut Hall, hub: &mut H, turns: u64) -> ServeEnd
    requires live { AreLive (state_of hall.old) (H.seen hub.old) }
    ensures run { Served (service_of hall.old) turns (state_of hall.old) (H.seen hub.old) result
        (state_of hall.new) (H.seen hub.new) }
    ensures live { AreLive (state_of hall.new) (H.seen hub.new) }
    ensures same { service_of hall.new ≡ service_of hall.old }

    ensures sound { IsSound (service_of hall.new) (state_of hall.new) }
    ensures few { (away : Bool) → AreFew (state_of hall.new) away }
    ensures allowed { AreAllowed (service_of hall.new) (state_of hall.new) }
{
    let end = take_turns(hall, hub, turns);
    hall.lawful();
    end
}

/// Takes at most so many turns; why the server ends.
fn take_turns<H: Hub>(hall: &mut Hall, hub: &mut H, turns: u64) -> ServeEnd
    requires live { AreLive (state_of hall.old) (H.seen hub.old) }
    ensures run { Served (service_of hall.old) turns (state_of hall.old) (H.seen hub.old) result
        (state_of hall.new) (H.seen hub.new) }
    ensures live { AreLive (state_of hall.new) (H.seen hub.new) }
    ensures same { service_of hall.new ≡ service_of hall.old }
{
    let mut buf = [0u8; 16384];
    'turns: for _turn in 0..turns {
        if let Some(end) = take_turn(hall, hub, &mut buf) {
            return end;
        }
    }
    ServeEnd::TurnsSpent
}

/// Takes one event of the hub and does what follows from it; why the server ends, where it does.
fn take_turn<H: Hub>(hall: &mut Hall, hub: &mut H, buf: &mut [u8]) -> Option<ServeEnd>
    requires some { 0 < length buf.old }
    requires live { AreLive (state_of hall.old) (H.seen hub.old) }
    ensures takes { TurnComesTo (service_of hall.old) (state_of hall.old) (H.seen hub.old) result
        (state_of hall.new) (H.seen hub.new) }
    ensures live { AreLive (state_of hall.new) (H.seen hub.new) }
    ensures same { service_of hall.new ≡ service_of hall.old }
{
    match hub.next(buf, hall.waiting(), hall.is_guiding()) {
        Ok(event) => match event {
            Event::Over => Some(ServeEnd::Over),
            _ => {
                follow(hall, hub, &event, bytes_of(&event, buf));
                None
            }
        },
        Err(_) => Some(ServeEnd::HubFault),
    }
}

/// The bytes that came by an event.
fn bytes_of<'b>(event: &Event, buf: &'b [u8]) -> &'b [u8]
    requires fits { FitsBuffer buf.now event.now }
    ensures value { result.now ≡ bytes_given event.now buf.now }
{
    match *event {
        Event::Bytes { id: _, n } => &buf[..n],
        _ => &buf[..0],
    }
}

/// Does what follows from an event that isn't the last; and goes on with the guides of profiles where
/// no search waits.
fn follow<H: Hub>(hall: &mut Hall, hub: &mut H, event: &Event, bytes: &[u8])
    requires goes_on { event.now ≢ Over }
    requires heard { Heard (state_of hall.old) (H.seen hub.old) event.now }
    ensures turned { Turned (service_of hall.old) (state_of hall.old) (H.seen hub.old) event.now
        bytes.now (state_of hall.new) (H.seen hub.new) }
    ensures live { AreLive (state_of hall.new) (H.seen hub.new) }
    ensures same { service_of hall.new ≡ service_of hall.old }
{
    step(hall, hub, event, bytes);
    hall.work();
    hall.serve_all(hub);
    hall.make_guides();
}

/// Hands an event to the hall, and closes its connection where there is no room for it.
fn step<H: Hub>(hall: &mut Hall, hub: &mut H, event: &Event, bytes: &[u8])
    requires heard { Heard (state_of hall.old) (H.seen hub.old) event.now }
    ensures stepped { Stepped (service_of hall.old) (state_of hall.old) (H.seen hub.old) event.now
        bytes.now (state_of hall.new) (H.seen hub.new) }
    ensures live { AreLive (state_of hall.new) (H.seen hub.new) }
    ensures same { service_of hall.new ≡ service_of hall.old }
{
    if let Some(id) = hall.step(event, bytes) {
        hub.close(id);
    }
}
