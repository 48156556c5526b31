//! The list of the commands, and the keys of each with what they mean.

ghost use Rattle.std.specs.Prelude.{◌≡◌, ◌++◌, OnOk};
ghost use Rattle.command_words.specs.Help.{command_details, detail_text, details_text, item_text, items_text, list_text, most_text, pair_text, wanted_text};

use crate::help::{append_command, append_form};
use crate::meanings::append_default;
use crate::rows::{COMMANDS, CommandName, KeyRow};
use item_list::{append_bytes, append_number};
use std::alloc::AllocError;

/// Appends the list of the commands, each with its sentence.
pub fn append_list(text: &mut Vec<u8>) -> Result<(), AllocError>
    ensures exact { OnOk result (text.new.items ≡ text.old.items ++ list_text) }
{
    append_bytes(text, b"usage: route_serve COMMAND KEY=VALUE ..\n")?;
    append_items(text, &COMMANDS)?;
    append_bytes(
        text,
        b"route_serve COMMAND --help tells the keys of a command, route_serve --help those of all\n",
    )
}

/// Appends commands of the list.
fn append_items(text: &mut Vec<u8>, commands: &[CommandName]) -> Result<(), AllocError>
    ensures exact { OnOk result (text.new.items ≡ text.old.items ++ items_text commands.now) }
{
    'commands: for command in commands {
        append_item(text, *command)?;
    }
    Ok(())
}

/// Appends a command of the list, with its sentence.
#[tactic(auto, unfolding(crate::specs::Help::item_text))]
fn append_item(text: &mut Vec<u8>, command: CommandName) -> Result<(), AllocError>
    ensures exact { OnOk result (text.new.items ≡ text.old.items ++ item_text command) }
{
    append_bytes(text, b"  ")?;
    append_bytes(text, command.name().as_bytes())?;
    append_bytes(text, b": ")?;
    append_bytes(text, command.about().as_bytes())?;
    append_bytes(text, b"\n")
}

/// Appends the row of a command, and its keys with what they mean.
pub fn append_details(text: &mut Vec<u8>, command: CommandName) -> Result<(), AllocError>
    ensures exact { OnOk result (text.new.items ≡ text.old.items ++ command_details command) }
{
    append_command(text, command)?;
    append_rows(text, command.keys())
}

/// Appends keys with what they mean.
fn append_rows(text: &mut Vec<u8>, rows: &[KeyRow]) -> Result<(), AllocError>
    ensures exact { OnOk result (text.new.items ≡ text.old.items ++ details_text rows.now) }
{
    'rows: for row in rows {
        append_detail(text, *row)?;
    }
    Ok(())
}

/// Appends a key with what it means, on a line of its own.
#[tactic(auto, unfolding(crate::specs::Help::detail_text))]
fn append_detail(text: &mut Vec<u8>, row: KeyRow) -> Result<(), AllocError>
    ensures exact { OnOk result (text.new.items ≡ text.old.items ++ detail_text row) }
{
    append_bytes(text, b"  ")?;
    append_pair(text, row)?;
    append_bytes(text, b": ")?;
    append_bytes(text, row.key.meaning().as_bytes())?;
    append_wanted(text, row)?;
    append_bytes(text, b"\n")
}

/// Appends a key with the form of its value.
pub fn append_pair(text: &mut Vec<u8>, row: KeyRow) -> Result<(), AllocError>
    ensures exact { OnOk result (text.new.items ≡ text.old.items ++ pair_text row) }
{
    append_bytes(text, row.key.name().as_bytes())?;
    append_bytes(text, b"=")?;
    append_form(text, row.form)
}

/// Appends whether a key is wanted, or what stands for it where it isn't given.
fn append_wanted(text: &mut Vec<u8>, row: KeyRow) -> Result<(), AllocError>
    ensures exact { OnOk result (text.new.items ≡ text.old.items ++ wanted_text row) }
{
    if row.least == 0 {
        append_bytes(text, b"; default ")?;
        append_default(text, row.key)?;
        append_most(text, row.most)
    } else {
        append_bytes(text, b"; wanted")
    }
}

/// Appends how often a key may come, where it may come more than once.
fn append_most(text: &mut Vec<u8>, most: usize) -> Result<(), AllocError>
    ensures exact { OnOk result (text.new.items ≡ text.old.items ++ most_text most) }
{
    if most == 1 {
        return Ok(());
    }
    append_bytes(text, b", at most ")?;
    append_number(text, most as u64)
}
