//! How an answer ends over a sink.

ghost use Rattle.std.specs.Prelude.{◌≤◌, Ok, vec_capacity};
ghost use Rattle.grid_map.specs.MapText.{overpass_text};
ghost use Rattle.route_run.specs.Ends.{Ends};
ghost use Rattle.run_answers.specs.Outputs.{output_in};
ghost use Rattle.run_files.specs.Chain.{bytes_in};

use edge_io::{Sink, send_all};
use grid_map::Grid;
use run_answers::{MapOutput, Output};
use run_files::Status;

/// Writes what an answer has to write, if it has something, and gives the status in which it ends.
pub fn send<O: Sink>(out: &mut O, answer: Result<Vec<u8>, Status>) -> Status
    ensures ends { Ends (bytes_in answer) result (O.seen out.old) (O.seen out.new) }
{
    match answer {
        Ok(bytes) => send_bytes(out, bytes.as_slice()),
        Err(refusal) => refusal,
    }
}

/// The same of an answer that may be a map.
pub fn send_output<O: Sink>(out: &mut O, answer: Result<Output, Status>) -> Status
    ensures ends { Ends (output_in answer) result (O.seen out.old) (O.seen out.new) }
{
    match answer {
        Ok(Output::Bytes(bytes)) => send_bytes(out, bytes.as_slice()),
        Ok(Output::Map(MapOutput { grid, piece })) => send_map(out, &grid, piece),
        Err(status) => status,
    }
}

/// Writes bytes.
fn send_bytes<O: Sink>(out: &mut O, bytes: &[u8]) -> Status
    ensures ends { Ends (Ok bytes.now) result (O.seen out.old) (O.seen out.new) }
{
    match send_all(out, bytes) {
        Ok(()) => Status::Done,
        Err(_) => Status::WriteFault,
    }
}

/// Writes the map of a grid piece by piece; each is made where the one before it was written.
fn send_map<O: Sink>(out: &mut O, grid: &Grid, mut piece: Vec<u8>) -> Status
    requires room { 65536 ≤ vec_capacity piece }
    ensures ends { Ends (Ok (overpass_text grid.now)) result (O.seen out.old) (O.seen out.new) }
{
    let mut next = 0;
    'pieces: while next < grid.map_parts() {
        piece.clear();
        next = grid.append_parts(next, &mut piece);
        match send_all(out, piece.as_slice()) {
            Ok(()) => {}
            Err(_) => return Status::WriteFault,
        }
    }
    Status::Done
}
