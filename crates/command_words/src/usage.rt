//! What is told of words that are no command.

ghost use Rattle.std.specs.Prelude.{◌≡◌, ◌++◌, IfOk, OnOk};
ghost use Rattle.command_words.specs.Reasons.{given_before};
ghost use Rattle.command_words.specs.Refusals.{texts_of};
ghost use Rattle.command_words.specs.Rows.{keys_of};
ghost use Rattle.command_words.specs.Help.{command_text};
ghost use Rattle.command_words.specs.Usage.{end_fault, fault_line, missing_line, unknown_text, usage_text, word_fault, word_line};

use crate::command::command_named;
use crate::details::{append_list, append_pair};
use crate::entry::Entry;
use crate::help::append_command;
use crate::reader::{Refusal, read_entries};
use crate::reason::{Reason, append_reason, missing_in, reason_of};
use crate::rows::{CommandName, KeyRow};
use crate::shown::append_shown;
use item_list::append_bytes;
use std::alloc::{AllocError, Global};

/// Appends what is told of words that are at fault at this place, below the line that names the
/// place: the word and why it is at fault, and the row of its command; of no words and of an unknown
/// command the list of the commands.
pub fn append_usage(
    alloc: Global,
    text: &mut Vec<u8>,
    words: &[String],
    word: u64,
) -> Result<(), AllocError>
    ensures exact { OnOk result
        (text.new.items ≡ text.old.items ++ usage_text (texts_of words.now) word) }
{
    let [name, rest @ ..] = words else {
        return append_list(text);
    };
    match command_named(name.as_bytes()) {
        Some(command) => {
            append_fault(alloc, text, command.keys(), rest, word.saturating_sub(1))?;
            append_command(text, command)
        }
        None => append_unknown(text, name.as_bytes()),
    }
}

/// Appends that a word names no command, and the list of the commands.
#[tactic(auto, unfolding(crate::specs::Usage::unknown_text))]
fn append_unknown(text: &mut Vec<u8>, name: &[u8]) -> Result<(), AllocError>
    ensures exact { OnOk result (text.new.items ≡ text.old.items ++ unknown_text name.now) }
{
    append_shown(text, name)?;
    append_bytes(text, b": unknown command\n")?;
    append_list(text)
}

/// Appends what is at fault at a place of the words behind a command.
fn append_fault(
    alloc: Global,
    text: &mut Vec<u8>,
    keys: &[KeyRow],
    words: &[String],
    at: u64,
) -> Result<(), AllocError>
    ensures exact { OnOk result
        (text.new.items ≡ text.old.items ++ fault_line keys.now (texts_of words.now) at) }
{
    let at = at as usize;
    match words.get(at) {
        Some(word) => append_word_fault(alloc, text, keys, &words[..at], word.as_str()),
        None => append_end_fault(alloc, text, keys, words),
    }
}

/// Appends why a word is at fault behind these words.
fn append_word_fault(
    alloc: Global,
    text: &mut Vec<u8>,
    keys: &[KeyRow],
    before: &[String],
    word: &str,
) -> Result<(), AllocError>
    ensures exact { OnOk result (text.new.items ≡
        text.old.items ++ word_fault keys.now (texts_of before.now) word.now) }
{
    let given = given_before(alloc, keys, before)?;
    let why = reason_of(keys, given.as_slice(), word);
    append_word(text, word.as_bytes(), why)
}

/// Appends what is missing at the end of these words.
fn append_end_fault(
    alloc: Global,
    text: &mut Vec<u8>,
    keys: &[KeyRow],
    words: &[String],
) -> Result<(), AllocError>
    ensures exact { OnOk result
        (text.new.items ≡ text.old.items ++ end_fault keys.now (texts_of words.now)) }
{
    let given = given_before(alloc, keys, words)?;
    append_missing(text, missing_in(keys, given.as_slice()))
}

/// What words give over the rows; nothing where one of them is at fault.
fn given_before<'a>(
    alloc: Global,
    keys: &[KeyRow],
    words: &'a [String],
) -> Result<Vec<Entry<'a>>, AllocError>
    ensures exact { IfOk result (λ given.
        given.items ≡ given_before keys.now (texts_of words.now)) }
{
    match read_entries(alloc, keys, words) {
        Ok(entries) => Ok(entries),
        Err(Refusal::Usage(_)) => Ok(Vec::new(alloc)),
        Err(Refusal::NoMemory) => Err(AllocError),
    }
}

/// Appends a word and why it is at fault.
#[tactic(auto, unfolding(crate::specs::Usage::word_line))]
fn append_word(text: &mut Vec<u8>, word: &[u8], why: Reason) -> Result<(), AllocError>
    ensures exact { OnOk result (text.new.items ≡ text.old.items ++ word_line word.now why) }
{
    append_shown(text, word)?;
    append_bytes(text, b": ")?;
    append_reason(text, why)?;
    append_bytes(text, b"\n")
}

/// Appends the key that is missing.
#[tactic(auto, unfolding(crate::specs::Usage::missing_line))]
fn append_missing(text: &mut Vec<u8>, row: Option<KeyRow>) -> Result<(), AllocError>
    ensures exact { OnOk result (text.new.items ≡ text.old.items ++ missing_line row) }
{
    match row {
        Some(row) => {
            append_pair(text, row)?;
            append_bytes(text, b": missing\n")
        }
        None => Ok(()),
    }
}
