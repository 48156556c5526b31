//! Why a word behind a command is at fault.

ghost use Rattle.std.specs.Prelude.{◌≡◌, ◌++◌, OnOk};
ghost use Rattle.command_words.specs.Reasons.{cut_reason, first_missing, is_paired, later_reason, lone_reason, missing_in, missing_pair, reason_of, reason_text, repeated_text, value_reason, value_text};
ghost use Rattle.command_words.specs.Value.{cut_word};

use crate::entry::{Entry, entry_of, key_of, row_for};
use crate::help::append_form;
use crate::reader::{count_of, has_profile_of, most_of};
use crate::rows::{Form, Key, KeyRow};
use crate::value::cut_word;
use item_list::{append_bytes, append_number};
use std::alloc::AllocError;

/// Why a word behind a command is at fault.
#[derive(Clone, Copy)]
pub enum Reason {
    /// It has no equals sign.
    NoEquals,
    /// What stands before its equals sign is no key.
    UnknownKey,
    /// Its key is one of other commands.
    OtherKey,
    /// Nothing stands behind its equals sign.
    Empty,
    /// Its value hasn't the form of its key.
    Value(Form),
    /// Its key came before as often as it may.
    Repeated(usize),
    /// A word before it names a profile of the same name.
    SameProfile,
    /// Its place lies outside the grid.
    OutsideGrid,
    /// Its query asks for another alternative than the first.
    NotFirst,
}

/// Why a word is at fault behind words that give these.
#[tactic(auto, unfolding(crate::specs::Reasons::reason_of))]
pub fn reason_of(keys: &[KeyRow], before: &[Entry], text: &str) -> Reason
    ensures exact { result ≡ reason_of keys.now before.now text.now }
{
    match entry_of(keys, 0, text) {
        Some(entry) => later_reason(keys, before, &entry),
        None => cut_reason(keys, text),
    }
}

/// Why a word is at fault that gives nothing.
fn cut_reason(keys: &[KeyRow], text: &str) -> Reason
    ensures exact { result ≡ cut_reason keys.now (cut_word text.now) }
{
    let Some(parts) = cut_word(text) else {
        return Reason::NoEquals;
    };
    let Some(key) = key_of(parts.0.as_bytes()) else {
        return Reason::UnknownKey;
    };
    match row_for(keys, key) {
        Some(row) => value_reason(row.form, parts.1.as_bytes()),
        None => Reason::OtherKey,
    }
}

/// Why a value isn't of this form.
fn value_reason(form: Form, text: &[u8]) -> Reason
    ensures exact { result ≡ value_reason form text.now }
{
    if text.len() == 0 {
        Reason::Empty
    } else {
        Reason::Value(form)
    }
}

/// Why a word that gives this is at fault behind words that give these.
#[tactic(auto, unfolding(crate::specs::Reasons::later_reason))]
fn later_reason(keys: &[KeyRow], before: &[Entry], entry: &Entry) -> Reason
    ensures exact { result ≡ later_reason keys.now before.now entry.now }
{
    let most = most_of(keys, entry.key());
    if count_of(before, entry.key()) >= most {
        Reason::Repeated(most)
    } else if has_profile_of(before, entry) {
        Reason::SameProfile
    } else {
        lone_reason(entry.key())
    }
}

/// What is at fault of a word of this key that might be read.
#[tactic(auto, unfolding(crate::specs::Reasons::lone_reason))]
fn lone_reason(key: Key) -> Reason
    ensures exact { result ≡ lone_reason key }
{
    match key {
        Key::Query => Reason::NotFirst,
        _ => Reason::OutsideGrid,
    }
}

/// The row of the first key that these give less often than it is wanted; else of the file of a tag
/// table or of a profile that is wanted beside the other.
#[tactic(auto, unfolding(crate::specs::Reasons::missing_in))]
pub fn missing_in(keys: &[KeyRow], entries: &[Entry]) -> Option<KeyRow>
    ensures exact { result ≡ missing_in keys.now entries.now }
{
    match first_missing(keys, entries) {
        Some(row) => Some(row),
        None => missing_pair(keys, entries),
    }
}

/// The row of the first key that these give less often than it is wanted.
fn first_missing(keys: &[KeyRow], entries: &[Entry]) -> Option<KeyRow>
    ensures exact { result ≡ first_missing keys.now entries.now }
{
    keys.iter()
        .copied()
        .find(|row| count_of(entries, row.key) < row.least)
}

/// The row of the first file of a tag table or of a profile that none of these gives.
fn missing_pair(keys: &[KeyRow], entries: &[Entry]) -> Option<KeyRow>
    ensures exact { result ≡ missing_pair keys.now entries.now }
{
    keys.iter().copied().find(|row| is_paired(row.key) && count_of(entries, row.key) == 0)
}

/// Whether a key is that of a tag table or of a profile, of which neither comes alone.
fn is_paired(key: Key) -> bool
    ensures exact { result ≡ is_paired key }
{
    key == Key::Lookups || key == Key::Profile
}

/// Appends a reason.
#[tactic(auto, unfolding(crate::specs::Reasons::reason_text))]
pub fn append_reason(text: &mut Vec<u8>, reason: Reason) -> Result<(), AllocError>
    ensures exact { OnOk result (text.new.items ≡ text.old.items ++ reason_text reason) }
{
    match reason {
        Reason::NoEquals => append_bytes(text, b"no KEY=VALUE"),
        Reason::UnknownKey => append_bytes(text, b"unknown key"),
        Reason::OtherKey => append_bytes(text, b"no key of this command"),
        Reason::Empty => append_bytes(text, b"value empty"),
        Reason::Value(form) => append_value(text, form),
        Reason::Repeated(most) => append_repeated(text, most),
        Reason::SameProfile => append_bytes(text, b"a profile of this name is given twice"),
        Reason::OutsideGrid => append_bytes(text, b"outside the grid"),
        Reason::NotFirst => append_bytes(text, b"the query asks for another alternative than 0"),
    }
}

/// Appends that a key came as often as it may.
#[tactic(auto, unfolding(crate::specs::Reasons::repeated_text))]
fn append_repeated(text: &mut Vec<u8>, most: usize) -> Result<(), AllocError>
    ensures exact { OnOk result (text.new.items ≡ text.old.items ++ repeated_text most) }
{
    if most == 1 {
        return append_bytes(text, b"given twice");
    }
    append_bytes(text, b"given more often than ")?;
    append_number(text, most as u64)?;
    append_bytes(text, b" times")
}

/// Appends what a value isn't that should have this form.
#[tactic(auto, unfolding(crate::specs::Reasons::value_text))]
fn append_value(text: &mut Vec<u8>, form: Form) -> Result<(), AllocError>
    ensures exact { OnOk result (text.new.items ≡ text.old.items ++ value_text form) }
{
    match form {
        Form::Number { .. } => {
            append_bytes(text, b"no number of the range ")?;
            append_form(text, form)
        }
        Form::Place => append_bytes(text, b"no place, as 3,4"),
        Form::Product => append_bytes(text, b"neither map nor hgt"),
        Form::File => append_bytes(text, b"no name of a file"),
        Form::ProfileFile => append_bytes(
            text,
            b"no name for a profile: it has 1 to 64 letters, digits, _ or -, and doesn't begin with custom_",
        ),
        Form::Query => append_bytes(text, b"no query"),
        Form::Address => append_bytes(text, b"no address, as 127.0.0.1:17777"),
        Form::Cost => append_bytes(text, b"no cost: it is a number from 0 to 1000000000"),
    }
}
