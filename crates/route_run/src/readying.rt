//! The profiles of a server that are made ready before it listens.

ghost use Rattle.std.specs.Prelude.{◌≡◌, ◌≤◌, length, IfOk};
ghost use Rattle.hall.specs.View.{service_of, state_of};
ghost use Rattle.route_run.specs.Offer.{IsNew, offer_of};
ghost use Rattle.route_run.specs.Readying.{ReadiesFirst, ReadiesFrom, most_ready, ready_note};
ghost use Rattle.run_files.specs.Notes.{IsNoted};

use command_words::FileWord;
use edge_io::Sink;
use hall::Hall;
use route_ready::RouteError;
use run_files::{Notes, note_on};
use session_answers::MOST_KEPT;
use std::alloc::Global;

/// Makes the profiles of the first of these files ready, as many as are kept, in the order in which
/// they are stored, and notes each.
pub fn make_ready<N: Sink>(
    alloc: Global,
    hall: &mut Hall,
    profiles: &[FileWord],
    notes: &mut Notes<N>,
)
    requires new { IsNew (offer_of hall.old) }
    requires stored { length profiles.now ≤ length (state_of hall.old).stored }
    ensures readied { ReadiesFirst (service_of hall.old).world (state_of hall.old).stored
        profiles.now notes.old notes.new }
    ensures same { offer_of hall.new ≡ offer_of hall.old }
{
    if profiles.len() > MOST_KEPT {
        make_each_ready(alloc, hall, &profiles[..MOST_KEPT], notes);
    } else {
        make_each_ready(alloc, hall, profiles, notes);
    }
}

/// Makes the profiles of all these files ready, in the order in which they are stored, and notes
/// each.
fn make_each_ready<N: Sink>(
    alloc: Global,
    hall: &mut Hall,
    profiles: &[FileWord],
    notes: &mut Notes<N>,
)
    requires few { length profiles.now ≤ most_ready }
    requires new { IsNew (offer_of hall.old) }
    requires stored { length profiles.now ≤ length (state_of hall.old).stored }
    ensures readied { ReadiesFrom (service_of hall.old).world (state_of hall.old).stored 0
        profiles.now notes.old notes.new }
    ensures same { offer_of hall.new ≡ offer_of hall.old }
{
    'profiles: for place in 0..profiles.len() {
        let end = hall.make_ready(place as u32);
        note_ready(alloc, &profiles[place], &end, notes);
    }
}

/// Notes what making a profile ready came to.
fn note_ready<N: Sink>(
    alloc: Global,
    file: &FileWord,
    end: &Result<(), RouteError>,
    notes: &mut Notes<N>,
)
    ensures noted { IsNoted (ready_note file.now end.now) notes.old notes.new }
{
    let name = file.name();
    match end {
        Ok(()) => notes.note(note_on(alloc, name.as_bytes(), b"ready")),
        Err(RouteError::NoMemory) => notes.note(note_on(alloc, name.as_bytes(), b"out of memory")),
        Err(_) => notes.note(note_on(alloc, name.as_bytes(), b"refused")),
    }
}
