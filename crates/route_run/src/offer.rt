//! What a server offers, taken in from files.

ghost use Rattle.std.specs.Prelude.{◌≤◌, Ok, IfOk, length};
ghost use Rattle.command_words.specs.Fit.{IsServeFit};
ghost use Rattle.item_list.specs.Answer.{Answers};
ghost use Rattle.edge_io.specs.Files.{FilesSeen};
ghost use Rattle.route_run.specs.Offer.{IsNew, Offers, Opens, offer_of, offer_over};
ghost use Rattle.run_files.specs.Chain.{seen_as};
ghost use Rattle.run_files.specs.Notes.{inputs};
ghost use Rattle.run_files.specs.World.{offered_of};
ghost use Rattle.route_ready.specs.Entries.{names_of};
ghost use Rattle.session_answers.specs.Stored.{AreGiven};

use crate::readying::make_ready;
use command_words::ServeCommand;
use edge_io::{Files, Sink};
use hall::Hall;
use run_files::{Notes, Offered, Status, take_world};
use std::alloc::Global;

/// A hall over what the command's files hold, to which nobody is connected yet. Each file is
/// opened, read, taken in and noted before the next: that of the tag table, those of the profiles,
/// that of the map, and those of the tiles. Then the first profiles are made ready and noted.
pub fn take_offer<F: Files, N: Sink>(
    alloc: Global,
    command: &ServeCommand,
    files: &mut F,
    notes: &mut Notes<N>,
) -> Result<Hall, Status>
    requires fit { IsServeFit command.now }
    ensures exact { Offers command.now (inputs (F.seen files.old) notes.old)
        (inputs (F.seen files.new) notes.new) (seen_as offer_of result) }
    ensures new { IfOk result (λ hall. IsNew (offer_of hall)) }
{
    let profiles = command.profiles.as_slice();
    let tiles = command.tiles.as_slice();
    match take_world(
        alloc,
        &command.lookups,
        profiles,
        &command.map,
        tiles,
        files,
        notes,
    ) {
        Ok(offered) => readied(alloc, offered, command, notes),
        Err(status) => Err(status),
    }
}

/// A hall over a world with profiles, of which the first were made ready and noted.
fn readied<N: Sink>(
    alloc: Global,
    offered: Offered,
    command: &ServeCommand,
    notes: &mut Notes<N>,
) -> Result<Hall, Status>
    requires given { AreGiven (names_of (offered_of offered).profiles) }
    requires stored { length command.now.profiles ≤ length (offered_of offered).profiles }
    ensures exact { (seen : FilesSeen) → Opens command.now (offered_of offered)
        (inputs seen notes.old) (inputs seen notes.new) (seen_as offer_of result) }
    ensures new { IfOk result (λ hall. IsNew (offer_of hall)) }
{
    match hall_over(alloc, offered, command.labels, command.hierarchies) {
        Ok(hall) => {
            let mut hall = hall;
            make_ready(alloc, &mut hall, command.profiles.as_slice(), notes);
            Ok(hall)
        }
        Err(status) => Err(status),
    }
}

/// A hall over a world with profiles, whose searches settle so many labels at most, and of whose
/// profiles so many have a guide.
fn hall_over(alloc: Global, offered: Offered, labels: u64, guides: u64) -> Result<Hall, Status>
    requires given { AreGiven (names_of (offered_of offered).profiles) }
    ensures exact { Answers offer_of (Ok (offer_over labels (offered_of offered))) Status.NoMemory
        result }
    ensures new { IfOk result (λ hall. IsNew (offer_of hall)) }
{
    let Offered { world, shelf } = offered;
    match Hall::new(alloc, world, shelf, labels, guides) {
        Ok(hall) => Ok(hall),
        Err(_) => Err(Status::NoMemory),
    }
}
