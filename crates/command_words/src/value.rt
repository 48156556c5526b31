//! The values of keys: numbers, places, what is made, and names of files.

ghost use Rattle.std.specs.Prelude.{◌≡◌, option_map};
ghost use Rattle.fixed_num.specs.Literal.{literal_of};
ghost use Rattle.command_words.specs.Refusals.{texts_in};
ghost use Rattle.command_words.specs.Value.{cost_value, cut_word, number_of, number_value, place_of, place_value, product_of, product_value, unsigned_value, value_of, within};

use crate::addresses::is_address;
use crate::file_names::is_profile_file;
use crate::rows::Form;
use fixed_num::Num;
use item_list::{is_digit, len_before};

/// A place of a grid by its column and its row.
#[derive(Clone, Copy)]
pub struct Place {
    pub x: u64,
    pub y: u64,
}

/// What the command `make` makes.
#[derive(Clone, Copy)]
pub enum Product {
    Map,
    Hgt,
}

/// The value of a key; a file's name is its text, and so are a query and an address.
#[derive(Clone, Copy)]
pub enum Value {
    Number(u64),
    At(Place),
    Made(Product),
    Named,
}

/// The value of a text that is to have this form.
#[tactic(auto, unfolding(crate::specs::Value::value_of))]
pub fn value_of(form: Form, text: &[u8]) -> Option<Value>
    ensures exact { result ≡ value_of form text.now }
{
    match form {
        Form::Number { low, high } => number_value(text, low, high),
        Form::Place => place_value(text),
        Form::Product => product_value(text),
        Form::Cost => cost_value(text),
        Form::File | Form::Query if !text.is_empty() => Some(Value::Named),
        Form::ProfileFile if is_profile_file(text) => Some(Value::Named),
        Form::Address if is_address(text) => Some(Value::Named),
        Form::File | Form::Query | Form::Address | Form::ProfileFile => None,
    }
}

/// What a word has before its first equals sign and after it.
pub fn cut_word(text: &str) -> Option<(&str, &str)>
    ensures exact { option_map texts_in result ≡ cut_word text.now }
{
    text.split_once('=')
}

/// The number of a text of 1 to 19 decimal digits.
#[tactic(auto, unfolding(crate::specs::Value::number_of))]
fn number_of(text: &[u8]) -> Option<u64>
    ensures exact { result ≡ number_of text.now }
{
    if text.is_empty() || text.len() > 19 {
        return None;
    }
    let mut number: u64 = 0;
    'digits: for byte in text {
        if !is_digit(*byte) {
            return None;
        }
        number = 10 * number + (*byte - b'0') as u64;
    }
    Some(number)
}

/// The number of a text as a value, where it lies between `low` and `high`.
fn number_value(text: &[u8], low: u64, high: u64) -> Option<Value>
    ensures exact { result ≡ number_value (within low high (number_of text.now)) }
{
    let number = number_of(text)?;
    if low <= number && number <= high {
        Some(Value::Number(number))
    } else {
        None
    }
}

/// The place of a text as a value: two numbers parted by a comma.
#[tactic(auto, unfolding(crate::specs::Value::place_of))]
fn place_value(text: &[u8]) -> Option<Value>
    ensures exact { result ≡ place_value (place_of text.now) }
{
    let at = len_before(text, b',');
    if at == text.len() {
        return None;
    }
    match (number_of(&text[..at]), number_of(&text[at + 1..])) {
        (Some(x), Some(y)) => Some(Value::At(Place { x, y })),
        _ => None,
    }
}

/// What a text names to be made, as a value.
#[tactic(auto, unfolding(crate::specs::Value::product_of))]
fn product_value(text: &[u8]) -> Option<Value>
    ensures exact { result ≡ product_value (product_of text.now) }
{
    if text == b"map".as_slice() {
        Some(Value::Made(Product::Map))
    } else if text == b"hgt".as_slice() {
        Some(Value::Made(Product::Hgt))
    } else {
        None
    }
}

/// The cost of a text as a value: its millionths, where it is a number that isn't negative.
fn cost_value(text: &[u8]) -> Option<Value>
    ensures exact { result ≡ cost_value (literal_of text.now) }
{
    match Num::read(text) {
        Ok(number) => unsigned_value(number.millionths()),
        Err(_) => None,
    }
}

/// A number that isn't negative, as a value.
fn unsigned_value(number: i64) -> Option<Value>
    ensures exact { result ≡ unsigned_value number }
{
    if number < 0 {
        None
    } else {
        Some(Value::Number(number.unsigned_abs()))
    }
}
