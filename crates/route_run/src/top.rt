//! The top call.

ghost use Rattle.std.specs.Prelude.{◌≡◌, Ok, IfOk};
ghost use Rattle.command_words.specs.Command.{command_of};
ghost use Rattle.command_words.specs.Fit.{IsFit};
ghost use Rattle.command_words.specs.Refusals.{texts_of};
ghost use Rattle.command_words.specs.declared.command.Command.{Command as TheCommand};
ghost use Rattle.edge_io.specs.Faults.{CountRose};
ghost use Rattle.item_list.specs.Answer.{Answers};
ghost use Rattle.route_run.specs.Noted.{WritesNotes};
ghost use Rattle.route_run.specs.Outcome.{HasWriteCause, HasHubCause, HasReadCause, IsCompleteOf, IsDone, IsOutcome, command_in, file_words, reach, wants_notes};

use crate::sending::{send, send_output};
use crate::server::serve_answer;
use command_words::{Command, Refusal, command_of};
use edge_io::{Files, Hub, Sink};
use run_answers::{
    CertifyAsk, RouteAsk, TableAsk, WithinAsk, check_answer, code_answer, grid_answer,
    hills_answer, make_answer, query_answer,
};
use run_files::{Notes, Status};
use std::alloc::Global;

/// Does what the words ask for over `files` and `hub`, writes what it prints to `out`, and notes what
/// it does.
pub fn run<F: Files, O: Sink, H: Hub, N: Sink>(
    alloc: Global,
    words: &[String],
    files: &mut F,
    out: &mut O,
    hub: &mut H,
    notes: &mut Notes<N>,
) -> Status
    ensures outcome { IsOutcome (texts_of words.now)
        (reach (F.seen files.old) (O.seen out.old) (H.seen hub.old) notes.old)
        (reach (F.seen files.new) (O.seen out.new) (H.seen hub.new) notes.new) result }
    ensures notes { WritesNotes (command_of (texts_of words.now)) notes.old notes.new }
    ensures cause { HasWriteCause result (O.seen out.old).faults (O.seen out.new).faults }
    ensures read_cause { HasReadCause (file_words (command_of (texts_of words.now))) result
        (F.seen files.old) (F.seen files.new) }
    ensures hub_cause { HasHubCause result (H.seen hub.old).faults (H.seen hub.new).faults }
    ensures complete { (command : TheCommand) → command_of (texts_of words.now) ≡ Ok command →
        (CountRose (O.seen out.old).faults (O.seen out.new).faults → ⊥) →
        (CountRose (F.seen files.old).faults (F.seen files.new).faults → ⊥) →
        (CountRose (H.seen hub.old).faults (H.seen hub.new).faults → ⊥) →
        IsCompleteOf command result }
{
    match command_in(alloc, words) {
        Ok(command) => {
            notes.keep_if(wants_notes(&command));
            command_run(alloc, &command, files, out, hub, notes)
        }
        Err(status) => status,
    }
}

/// The command of the words, or the status of the word at fault.
fn command_in(alloc: Global, words: &[String]) -> Result<Command<'_>, Status>
    ensures exact { Answers (λ (c : TheCommand). c) (command_in (texts_of words.now))
        Status.NoMemory result }
    ensures fit { IfOk result IsFit }
{
    match command_of(alloc, words) {
        Ok(command) => Ok(command),
        Err(Refusal::Usage(word)) => Err(Status::Usage { word }),
        Err(Refusal::NoMemory) => Err(Status::NoMemory),
    }
}

/// Whether what a command does is to be noted.
fn wants_notes(command: &Command) -> bool
    ensures exact { result ≡ wants_notes command.now }
{
    match command {
        Command::Route(command) | Command::Table(command) => command.notes,
        Command::Certify(command) => command.route.notes,
        Command::Check(command) => command.route.notes,
        Command::Within(command) => command.route.notes,
        Command::Serve(command) => command.notes,
        _ => false,
    }
}

/// Does a command: its answer is written, or it serves.
fn command_run<F: Files, O: Sink, H: Hub, N: Sink>(
    alloc: Global,
    command: &Command,
    files: &mut F,
    out: &mut O,
    hub: &mut H,
    notes: &mut Notes<N>,
) -> Status
    requires fit { IsFit command.now }
    ensures exact { IsDone command.now
        (reach (F.seen files.old) (O.seen out.old) (H.seen hub.old) notes.old)
        (reach (F.seen files.new) (O.seen out.new) (H.seen hub.new) notes.new) result }
{
    match command {
        Command::Grid(command) => send(out, grid_answer(alloc, command, files)),
        Command::Make(command) => send_output(out, make_answer(alloc, command)),
        Command::Code(command) => send(out, code_answer(alloc, command, files)),
        Command::Route(command) => send(out, query_answer(alloc, command, &RouteAsk, files, notes)),
        Command::Certify(command) => {
            let certify = CertifyAsk {
                bound: command.bound,
            };
            send(
                out,
                query_answer(alloc, &command.route, &certify, files, notes),
            )
        }
        Command::Check(command) => send(out, check_answer(alloc, command, files, notes)),
        Command::Table(command) => send(out, query_answer(alloc, command, &TableAsk, files, notes)),
        Command::Within(command) => {
            let ask = WithinAsk { cost: command.cost };
            send(out, query_answer(alloc, &command.route, &ask, files, notes))
        }
        Command::Hills(command) => send(out, hills_answer(alloc, command)),
        Command::Serve(command) => serve_answer(alloc, command, files, hub, notes),
    }
}
