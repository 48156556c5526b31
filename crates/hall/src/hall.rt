//! All connections of a server.

use crate::desk::Desk;
use crate::guiding::make_guides_in;
use crate::opening::{MOST_PEERS, MOST_SESSIONS};
use crate::ready_frames::ReadyFrames;
use crate::readying::make_ready_in;
use crate::room::Room;
use crate::serving::serve_peers;
use crate::stepping::step;
use crate::working::work;
use edge_io::{Event, Hub};
use route_ready::{RouteError, Shelf, World};
use session_answers::{KeptProfiles, Profiles, has_guides_to_make};
use std::alloc::{AllocError, Global};
use std::collections::VecDeque;
use std::marker::Model;

/// All connections of a server, with what it answers them from.
pub struct Hall {
    pub(crate) room: Room,
    pub(crate) ready: ReadyFrames,
}

impl Drop for Hall {
    fn drop(self) {
        let Hall { room: _, ready: _ } = self;
    }
}

impl Model for Hall {
    ghost use Rattle.std.specs.Coded.{codes};
    ghost use Rattle.hall.specs.View.{HallValue};
    ghost use Rattle.route_ready.specs.contracts.world.World as world;
    ghost use Rattle.session_answers.specs.contracts.profiles.Profiles as profiles;

    ghost Value = { HallValue };

    ghost coded = { Prim.hlevel (codes, world.the_row.coded, profiles.the_row.coded) };

    ghost use Rattle.hall.specs.Inside.{IsHall, hall_in};

    ghost view = { hall_in };

    ghost invariant = { IsHall };
}

impl Hall {
    ghost use Rattle.std.specs.Prelude.{◌≡◌, ◌<◌, Bool, length, IfOk};
    ghost use Rattle.hall.specs.Allowed.{AreAllowed};
    ghost use Rattle.hall.specs.Held.{AreFew};
    ghost use Rattle.hall.specs.Serving.{AreLive, ServedAll};
    ghost use Rattle.hall.specs.Sound.{IsSound};
    ghost use Rattle.hall.specs.State.{empty_hall};
    ghost use Rattle.hall.specs.Steps.{Step, Works};
    ghost use Rattle.hall.specs.View.{service_of, state_of};
    ghost use Rattle.route_ready.specs.Entries.{names_of};
    ghost use Rattle.route_ready.specs.Shelves.{shelf_of};
    ghost use Rattle.route_ready.specs.World.{world_of};
    ghost use Rattle.session_answers.specs.Stored.{AreGiven};
    ghost use Rattle.session_answers.specs.Warming.{MakesReady};

    /// A hall without connections, in which no profile was made ready. No search settles more than
    /// `labels` of them, whatever a request asks, and no more than `guides` profiles have a guide at
    /// once. No name in the shelf begins with `custom_`.
    pub fn new(
        alloc: Global,
        world: World,
        shelf: Shelf,
        labels: u64,
        guides: u64,
    ) -> Result<Hall, AllocError>
        requires given { AreGiven (names_of (shelf_of shelf)) }
        ensures empty { IfOk result (λ hall. state_of hall ≡ empty_hall (shelf_of shelf)) }
        ensures service { let given = length (shelf_of shelf) in
            IfOk result (λ hall. service_of hall ≡
            record { world = world_of world; given = given; labels = labels }) }
    {
        let kept = KeptProfiles::new(alloc, guides)?;
        let peers = Vec::with_capacity(alloc, MOST_PEERS)?;
        let queue = VecDeque::with_capacity(alloc, MOST_SESSIONS)?;
        let ready = ReadyFrames::new(alloc)?;
        let profiles = Profiles::new(shelf);
        let desk = Desk {
            alloc,
            world,
            labels,
            profiles,
            kept,
            queue,
        };
        Ok(Hall {
            room: Room { peers, desk },
            ready,
        })
    }

    /// Makes the stored profile at a place ready, without overrides, where nobody is connected: so
    /// no first request pays for it. Of one that is refused nothing is kept; each request that names
    /// it is told.
    pub fn make_ready(&mut self, place: u32) -> Result<(), RouteError>
        requires new { state_of self.old ≡ empty_hall (state_of self.old).stored }
        requires fits { place < length (state_of self.old).stored }
        ensures exact { MakesReady (service_of self.old).world (state_of self.old).stored place
            result }
        ensures state { state_of self.new ≡ state_of self.old }
        ensures same { service_of self.new ≡ service_of self.old }
    {
        make_ready_in(&mut self.room, place)
    }

    /// Takes an event of the hub, with the bytes that came. An opened connection for which there is
    /// no room is to be closed at once: its id is answered.
    pub fn step(&mut self, event: &Event, bytes: &[u8]) -> Option<u64>
        ensures step { Step (service_of self.old) (state_of self.old) event.now bytes.now
            (state_of self.new) result }
        ensures same { service_of self.new ≡ service_of self.old }
    {
        step(&mut self.room, event, bytes)
    }

    /// The connections whose searches wait for a turn, the one first that waited longest.
    pub fn waiting(&self) -> &VecDeque<u64>
        ensures exact { result.now.items ≡ (state_of self.now).waiting }
    {
        &self.room.desk.queue
    }

    /// Gives a turn to the search that waited longest, and drops makings for which nobody waits any
    /// more.
    pub fn work(&mut self)
        ensures works { Works (service_of self.old) (state_of self.old) (state_of self.new) }
        ensures same { service_of self.new ≡ service_of self.old }
    {
        work(&mut self.room);
    }

    /// Whether there are guides to make for the profiles that are kept.
    pub fn is_guiding(&self) -> bool {
        has_guides_to_make(&self.room.desk.profiles, &self.room.desk.kept)
    }

    /// Goes on for a spell with the guides of the profiles that are kept, where no search waits. What
    /// any connection is answered stays the same.
    pub fn make_guides(&mut self)
        ensures state { state_of self.new ≡ state_of self.old }
        ensures same { service_of self.new ≡ service_of self.old }
    {
        make_guides_in(&mut self.room);
    }

    /// Sends and closes what each connection has to send and to close. So after each turn no more
    /// than 64 sessions are held, no more than 64 connections are turned away, and each frame is
    /// allowed for its own connection.
    pub fn serve_all<H: Hub>(&mut self, hub: &mut H)
        requires live { AreLive (state_of self.old) (H.seen hub.old) }
        ensures served { ServedAll (state_of self.old) (H.seen hub.old) (state_of self.new)
            (H.seen hub.new) }
        ensures live { AreLive (state_of self.new) (H.seen hub.new) }
        ensures same { service_of self.new ≡ service_of self.old }

        ensures sound { IsSound (service_of self.new) (state_of self.new) }
        ensures few { (away : Bool) → AreFew (state_of self.new) away }
        ensures allowed { AreAllowed (service_of self.new) (state_of self.new) }
    {
        serve_peers(&mut self.room, &self.ready, hub);
    }

    /// What is true of a hall at any moment.
    pub(crate) fn lawful(&self)
        ensures sound { IsSound (service_of self.now) (state_of self.now) }
        ensures few { (away : Bool) → AreFew (state_of self.now) away }
        ensures allowed { AreAllowed (service_of self.now) (state_of self.now) }
    {
        let _room = &self.room;
    }
}
