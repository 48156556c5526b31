//! What the program tells of itself, from the same rows that are read.

ghost use Rattle.std.specs.Prelude.{◌≡◌, ◌++◌, IfOk, OnOk, Vec, ℕ};
ghost use Rattle.std.specs.declared.alloc.Global.{Global as TheGlobal};
ghost use Rattle.item_list.specs.Answer.{GivesAny};
ghost use Rattle.command_words.specs.Help.{about_text, call_text, command_details, command_text, commands_text, form_text, help_text, key_text, keys_text, list_text, told_by, told_of, told_with};
ghost use Rattle.command_words.specs.Refusals.{texts_of};

use crate::command::command_named;
use crate::details::{append_details, append_list};
use crate::rows::{COMMANDS, CommandName, Form, KeyRow};
use item_list::{append_bytes, append_number, bytes_of};
use std::alloc::{AllocError, Global};

/// What `--version` tells.
const VERSION: &str = "route_serve 0.1.0\n";

/// What the words ask to be told instead of a command: a lone `--help` or `--version`, or what is
/// another word for one of them, or `--help` behind a command.
pub fn told_text(alloc: Global, words: &[String]) -> Result<Option<Vec<u8>>, AllocError>
    ensures exact { GivesAny (λ (v : Vec ℕ TheGlobal). v.items) (told_of (texts_of words.now))
        result }
{
    match words {
        [word] => told_by(alloc, word.as_bytes()),
        [name, word] => told_with(alloc, name.as_bytes(), word.as_bytes()),
        _ => Ok(None),
    }
}

/// What a word asks to be told.
#[tactic(auto, unfolding(crate::specs::Help::told_by))]
fn told_by(alloc: Global, word: &[u8]) -> Result<Option<Vec<u8>>, AllocError>
    ensures exact { GivesAny (λ (v : Vec ℕ TheGlobal). v.items) (told_by word.now) result }
{
    if word == b"--help".as_slice() {
        let text = help(alloc)?;
        Ok(Some(text))
    } else if word == b"-h".as_slice() || word == b"help".as_slice() {
        let text = list(alloc)?;
        Ok(Some(text))
    } else if word == b"--version".as_slice() || word == b"-V".as_slice() {
        let text = bytes_of(alloc, VERSION.as_bytes())?;
        Ok(Some(text))
    } else {
        Ok(None)
    }
}

/// What a command and a word behind it ask to be told.
#[tactic(auto, unfolding(crate::specs::Help::told_with))]
fn told_with(alloc: Global, name: &[u8], word: &[u8]) -> Result<Option<Vec<u8>>, AllocError>
    ensures exact { GivesAny (λ (v : Vec ℕ TheGlobal). v.items) (told_with name.now word.now)
        result }
{
    if word != b"--help".as_slice() {
        return Ok(None);
    }
    match command_named(name) {
        Some(command) => {
            let text = details(alloc, command)?;
            Ok(Some(text))
        }
        None => Ok(None),
    }
}

/// The list of the commands.
fn list(alloc: Global) -> Result<Vec<u8>, AllocError>
    ensures exact { IfOk result (λ text. text.items ≡ list_text) }
{
    let mut text = Vec::new(alloc);
    append_list(&mut text)?;
    Ok(text)
}

/// How a command is called, and its keys.
fn details(alloc: Global, command: CommandName) -> Result<Vec<u8>, AllocError>
    ensures exact { IfOk result (λ text. text.items ≡ command_details command) }
{
    let mut text = Vec::new(alloc);
    append_details(&mut text, command)?;
    Ok(text)
}

/// How each command is called, and what it does.
fn help(alloc: Global) -> Result<Vec<u8>, AllocError>
    ensures exact { IfOk result (λ text. text.items ≡ help_text) }
{
    let mut text = Vec::new(alloc);
    append_commands(&mut text, &COMMANDS)?;
    Ok(text)
}

/// Appends how commands are called.
fn append_commands(text: &mut Vec<u8>, commands: &[CommandName]) -> Result<(), AllocError>
    ensures exact { OnOk result (text.new.items ≡ text.old.items ++ commands_text commands.now) }
{
    'commands: for command in commands {
        append_command(text, *command)?;
    }
    Ok(())
}

/// Appends how a command is called, and what it does.
pub fn append_command(text: &mut Vec<u8>, command: CommandName) -> Result<(), AllocError>
    ensures exact { OnOk result (text.new.items ≡ text.old.items ++ command_text command) }
{
    append_call(text, command)?;
    append_about(text, command)
}

/// Appends how a command is called.
fn append_call(text: &mut Vec<u8>, command: CommandName) -> Result<(), AllocError>
    ensures exact { OnOk result (text.new.items ≡ text.old.items ++ call_text command) }
{
    append_bytes(text, b"usage: route_serve ")?;
    append_bytes(text, command.name().as_bytes())?;
    append_keys(text, command.keys())?;
    Ok(())
}

/// Appends what a command does, on a line of its own.
#[tactic(auto, unfolding(crate::specs::Help::about_text))]
fn append_about(text: &mut Vec<u8>, command: CommandName) -> Result<(), AllocError>
    ensures exact { OnOk result (text.new.items ≡ text.old.items ++ about_text command) }
{
    append_bytes(text, b"\n  ")?;
    append_bytes(text, command.about().as_bytes())?;
    append_bytes(text, b"\n")
}

/// Appends keys with the forms of their values.
fn append_keys(text: &mut Vec<u8>, rows: &[KeyRow]) -> Result<(), AllocError>
    ensures exact { OnOk result (text.new.items ≡ text.old.items ++ keys_text rows.now) }
{
    'rows: for row in rows {
        append_key(text, *row)?;
    }
    Ok(())
}

/// Appends a key with the form of its value.
fn append_key(text: &mut Vec<u8>, row: KeyRow) -> Result<(), AllocError>
    ensures exact { OnOk result (text.new.items ≡ text.old.items ++ key_text row) }
{
    append_bytes(text, if row.least == 0 { b" [" } else { b" " })?;
    append_bytes(text, row.key.name().as_bytes())?;
    append_bytes(text, b"=")?;
    append_form(text, row.form)?;
    append_bytes(text, if row.least == 0 { b"]" } else { b"" })
}

/// Appends the form of a value.
pub fn append_form(text: &mut Vec<u8>, form: Form) -> Result<(), AllocError>
    ensures exact { OnOk result (text.new.items ≡ text.old.items ++ form_text form) }
{
    match form {
        Form::Number { low, high } => {
            append_number(text, low)?;
            append_bytes(text, b"..")?;
            append_number(text, high)
        }
        Form::Place => append_bytes(text, b"X,Y"),
        Form::Product => append_bytes(text, b"map|hgt"),
        Form::File | Form::ProfileFile => append_bytes(text, b"FILE"),
        Form::Query => append_bytes(text, b"QUERY"),
        Form::Address => append_bytes(text, b"ADDRESS"),
        Form::Cost => append_bytes(text, b"COST"),
    }
}
