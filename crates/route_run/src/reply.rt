//! A command line over files, an output, and a place where the program notes what it does and tells
//! how it ended.

ghost use Rattle.std.specs.Prelude.{◌≡◌, ◌≢◌, ◌++◌, IfOk, OnOk, OnErr};
ghost use Rattle.command_words.specs.Help.{told_of};
ghost use Rattle.command_words.specs.Refusals.{texts_of};
ghost use Rattle.route_run.specs.Edge.{IsEnd, IsReplyBy, IsTelling, args_in, below_line, told_by};
ghost use Rattle.route_run.specs.Outcome.{reach};
ghost use Rattle.run_files.specs.Status.{number_of_status};
ghost use Rattle.run_files.specs.declared.status.Status.{Status as TheStatus};

use crate::sending::send;
use crate::top::run;
use command_words::{append_usage, told_text};
use edge_io::{Files, Hub, Sink};
use item_list::append_bytes;
use run_files::{Notes, Status};
use std::alloc::{AllocError, Global};

/// Does what a command line asks for, notes that on `err`, tells there how it ended, and gives the
/// exit status. A command line that could not be read is the status that says why.
pub fn edge<F: Files, O: Sink, H: Hub, E: Sink>(
    alloc: Global,
    args: Result<Vec<String>, Status>,
    files: &mut F,
    out: &mut O,
    hub: &mut H,
    err: &mut Notes<E>,
) -> u8
    ensures outcome { IsEnd (args_in args)
        (reach (F.seen files.old) (O.seen out.old) (H.seen hub.old) err.old)
        (reach (F.seen files.new) (O.seen out.new) (H.seen hub.new) err.new) result }
{
    match args {
        Ok(words) => {
            let status = reply(alloc, words.as_slice(), files, out, hub, err);
            tell(alloc, words.as_slice(), true, status, err)
        }
        Err(refusal) => tell(alloc, &[], false, refusal, err),
    }
}

/// Answers words, or tells what they ask to be told; the status in which that ends.
fn reply<F: Files, O: Sink, H: Hub, E: Sink>(
    alloc: Global,
    words: &[String],
    files: &mut F,
    out: &mut O,
    hub: &mut H,
    notes: &mut Notes<E>,
) -> Status
    ensures exact { IsReplyBy (texts_of words.now) (told_of (texts_of words.now))
        (reach (F.seen files.old) (O.seen out.old) (H.seen hub.old) notes.old)
        (reach (F.seen files.new) (O.seen out.new) (H.seen hub.new) notes.new) result }
{
    match told_text(alloc, words) {
        Ok(Some(text)) => send(out, Ok(text)),
        Ok(None) => run(alloc, words, files, out, hub, notes),
        Err(_) => Status::NoMemory,
    }
}

/// Tells a status of these words, if they could be read: the lines on `err`, if it isn't success, and
/// the exit status.
fn tell<E: Sink>(
    alloc: Global,
    words: &[String],
    is_read: bool,
    status: Status,
    err: &mut Notes<E>,
) -> u8
    ensures exact { IsTelling (told_by is_read (texts_of words.now)) status err.old.sink
        err.new.sink result }
{
    match lines(alloc, words, is_read, &status) {
        Ok(text) => {
            let _ = err.say(text.as_slice());
            status.number()
        }
        Err(_) => {
            let _ = err.say(b"out of memory\n");
            Status::NoMemory.number()
        }
    }
}

/// The lines that tell a status of these words, if they could be read; those of success are empty and
/// take no memory.
fn lines(
    alloc: Global,
    words: &[String],
    is_read: bool,
    status: &Status,
) -> Result<Vec<u8>, AllocError>
    ensures exact { IfOk result (λ text.
        text.items ≡ told_by is_read (texts_of words.now) status.now) }
    ensures only { OnErr result (number_of_status status.now ≢ 0) }
{
    if status.number() == 0 {
        return Ok(Vec::new(alloc));
    }
    let mut text = status.line(alloc)?;
    append_bytes(&mut text, b"\n")?;
    append_below(alloc, &mut text, words, is_read, status)?;
    Ok(text)
}

/// Appends what stands below the line of a status of these words, if they could be read.
fn append_below(
    alloc: Global,
    text: &mut Vec<u8>,
    words: &[String],
    is_read: bool,
    status: &Status,
) -> Result<(), AllocError>
    ensures exact { OnOk result (text.new.items ≡
        text.old.items ++ below_line is_read (texts_of words.now) status.now) }
{
    match status {
        Status::Usage { word } => append_usage_of(alloc, text, words, is_read, *word),
        _ => Ok(()),
    }
}

/// Appends what is told of words that are at fault at this place, if they could be read.
fn append_usage_of(
    alloc: Global,
    text: &mut Vec<u8>,
    words: &[String],
    is_read: bool,
    word: u64,
) -> Result<(), AllocError>
    ensures exact { OnOk result (text.new.items ≡
        text.old.items ++ below_line is_read (texts_of words.now) (TheStatus.Usage word)) }
{
    if is_read {
        append_usage(alloc, text, words, word)
    } else {
        append_bytes(text, b"the words can't be read as UTF-8\n")
    }
}
