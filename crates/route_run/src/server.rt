//! What the command `serve` does.

ghost use Rattle.std.specs.Prelude.{◌≡◌, [], ◌∷◌, IfOk, OnOk, OnErr};
ghost use Rattle.command_words.specs.Command.{address_of};
ghost use Rattle.command_words.specs.Fit.{IsServeFit};
ghost use Rattle.edge_io.specs.Acts.{Listens};
ghost use Rattle.edge_io.specs.Hub.{Does, Fails};
ghost use Rattle.route_run.specs.Offer.{IsNew, offer_of};
ghost use Rattle.route_run.specs.Serving.{IsServeOutcome, IsServedTo, IsServedAt, listen_note, status_of_end};
ghost use Rattle.run_files.specs.Notes.{inputs};

use crate::offer::take_offer;
use command_words::ServeCommand;
use edge_io::{Failed, Files, Hub, Sink};
use hall::{
    Hall, ServeEnd, accepted_uploads_are_stored, connections_keep_apart, each_wait_ends, serve,
};
use item_list::append_bytes;
use run_files::{Notes, Status};
use std::alloc::{AllocError, Global};

/// Takes in the command's files, and then serves connections until the hub is over or all turns are
/// spent. What is done until then is noted.
pub fn serve_answer<F: Files, H: Hub, N: Sink>(
    alloc: Global,
    command: &ServeCommand,
    files: &mut F,
    hub: &mut H,
    notes: &mut Notes<N>,
) -> Status
    requires fit { IsServeFit command.now }
    ensures exact { IsServeOutcome command.now (inputs (F.seen files.old) notes.old)
        (inputs (F.seen files.new) notes.new) (H.seen hub.old) (H.seen hub.new) result }
{
    match take_offer(alloc, command, files, notes) {
        Ok(hall) => serve_at(alloc, hall, command, hub, notes),
        Err(status) => status,
    }
}

/// Opens the hub at the command's address and as the command says of ends, notes that, and serves.
fn serve_at<H: Hub, N: Sink>(
    alloc: Global,
    hall: Hall,
    command: &ServeCommand,
    hub: &mut H,
    notes: &mut Notes<N>,
) -> Status
    requires empty { IsNew (offer_of hall) }
    ensures exact { IsServedAt (address_of command.now.listen) command.now.hangup command.now.turns
        (offer_of hall) (H.seen hub.old) (H.seen hub.new) notes.old notes.new result }
{
    match open_at(command, hub) {
        Ok(()) => {
            notes.note(listen_line(alloc, command.address()));
            status_of_end(served(hall, command.turns, hub))
        }
        Err(_) => Status::HubFault,
    }
}

/// The line that tells where a server listens.
fn listen_line(alloc: Global, address: &str) -> Result<Vec<u8>, AllocError>
    ensures exact { IfOk result (λ text. text.items ≡ listen_note address.now) }
{
    let mut text = Vec::new(alloc);
    append_bytes(&mut text, b"listening on ")?;
    append_bytes(&mut text, address.as_bytes())?;
    append_bytes(&mut text, b"\n")?;
    Ok(text)
}

/// Opens the hub at the command's address, with an end of a peer as the loss of its connection where
/// the command says so.
fn open_at<H: Hub>(command: &ServeCommand, hub: &mut H) -> Result<(), Failed>
    ensures value { OnOk result (Does (H.seen hub.old) (H.seen hub.new)
        (Listens (address_of command.now.listen) command.now.hangup ∷ [])) }
    ensures kept { OnErr result (Fails (H.seen hub.old) (H.seen hub.new)) }
{
    hub.open(command.address(), command.hangup)
}

/// Serves from an opened hub.
fn served<H: Hub>(hall: Hall, turns: u64, hub: &mut H) -> ServeEnd
    requires empty { IsNew (offer_of hall) }
    ensures exact { IsServedTo turns (offer_of hall) (H.seen hub.old) result (H.seen hub.new) }
{
    let mut hall = hall;
    connections_keep_apart();
    accepted_uploads_are_stored();
    each_wait_ends();
    serve(&mut hall, hub, turns)
}

/// The status in which a server ends.
fn status_of_end(end: ServeEnd) -> Status
    ensures exact { result ≡ status_of_end end }
{
    match end {
        ServeEnd::Over => Status::Done,
        ServeEnd::TurnsSpent => Status::TurnsSpent,
        ServeEnd::HubFault => Status::HubFault,
    }
}
