//! What one word of the command line after the first gives.

ghost use Rattle.std.specs.Prelude.{◌≡◌};
ghost use Rattle.command_words.specs.Command.{file_in};
ghost use Rattle.command_words.specs.Reader.{entry_of, key_of, row_for, same_key, same_profile};
ghost use Rattle.command_words.specs.Value.{number_in, place_in, product_in};

use crate::file_names::profile_name;
use crate::rows::{Key, KeyRow};
use crate::value::{Place, Product, Value, cut_word, value_of};
use std::marker::Model;

/// A key with its value and the text of that, and the place of the word.
#[derive(Drop)]
pub struct Entry<'a> {
    text: &'a str,
    value: Value,
    word: u64,
    key: Key,
}

impl<'a> Model for Entry<'a> {
    ghost use Rattle.command_words.specs.Given.{Given};

    ghost Value = { Given };

    ghost view = { λ e. record { text = e.text.now; value = e.value; word = e.word; key = e.key } };
}

/// A file's name, and the place of the word that names it.
#[derive(Drop)]
pub struct FileWord<'a> {
    name: &'a str,
    word: u64,
}

impl<'a> Model for FileWord<'a> {
    ghost use Rattle.command_words.specs.Given.{Named};

    ghost Value = { Named };

    ghost view = { λ f. record { name = f.name.now; word = f.word } };
}

impl<'a> FileWord<'a> {
    /// The name, the query or the address.
    pub fn name(&self) -> &'a str
        ensures exact { result.now ≡ self.now.name }
    {
        self.name
    }

    /// The place of the word.
    pub fn word(&self) -> u64
        ensures exact { result ≡ self.now.word }
    {
        self.word
    }
}

impl<'a> Entry<'a> {
    /// Whether it gives this key.
    pub fn is_of(&self, key: Key) -> bool
        ensures exact { result ≡ same_key self.now.key key }
    {
        self.key == key
    }

    /// Whether both name profiles, of one name.
    pub fn names_as(&self, other: &Entry) -> bool
        ensures exact { result ≡ same_profile self.now other.now }
    {
        self.is_of(Key::Profile)
            && other.is_of(Key::Profile)
            && profile_name(self.text.as_bytes()) == profile_name(other.text.as_bytes())
    }

    /// Its key.
    pub fn key(&self) -> Key
        ensures exact { result ≡ self.now.key }
    {
        self.key
    }

    /// The place of its word.
    pub fn word(&self) -> u64
        ensures exact { result ≡ self.now.word }
    {
        self.word
    }

    /// The number of a value that is one.
    pub fn number(&self) -> u64
        ensures exact { result ≡ number_in self.now.value }
    {
        match self.value {
            Value::Number(number) => number,
            _ => 0,
        }
    }

    /// The place of a value that is one.
    pub fn place(&self) -> Place
        ensures exact { result ≡ place_in self.now.value }
    {
        match self.value {
            Value::At(place) => place,
            _ => Place { x: 0, y: 0 },
        }
    }

    /// What a value that says so asks to be made.
    pub fn product(&self) -> Product
        ensures exact { result ≡ product_in self.now.value }
    {
        match self.value {
            Value::Made(product) => product,
            _ => Product::Map,
        }
    }

    /// The file that its text names.
    pub fn file(&self) -> FileWord<'a>
        ensures exact { result ≡ file_in self.now }
    {
        FileWord {
            name: self.text,
            word: self.word,
        }
    }
}

/// All keys.
const ALL_KEYS: [Key; 20] = [
    Key::Seed,
    Key::Width,
    Key::Height,
    Key::From,
    Key::To,
    Key::What,
    Key::Lookups,
    Key::Profile,
    Key::Map,
    Key::Query,
    Key::Tile,
    Key::Listen,
    Key::Turns,
    Key::Hangup,
    Key::Labels,
    Key::Hierarchies,
    Key::Certificate,
    Key::Cost,
    Key::Bound,
    Key::Notes,
];

/// The key that a text names.
#[tactic(auto, unfolding(crate::specs::Reader::key_of))]
pub fn key_of(text: &[u8]) -> Option<Key>
    ensures exact { result ≡ key_of text.now }
{
    ALL_KEYS
        .iter()
        .copied()
        .find(|key| key.name().as_bytes() == text)
}

/// The row of a key.
pub fn row_for(keys: &[KeyRow], key: Key) -> Option<KeyRow>
    ensures exact { result ≡ row_for keys.now key }
{
    keys.iter().copied().find(|row| row.key == key)
}

/// What the word at this place gives over these rows; `None` where it is at fault by itself.
#[tactic(auto, unfolding(crate::specs::Reader::entry_of))]
pub fn entry_of<'a>(keys: &[KeyRow], word: u64, text: &'a str) -> Option<Entry<'a>>
    ensures exact { result ≡ entry_of keys.now word text.now }
{
    let parts = cut_word(text)?;
    let key = key_of(parts.0.as_bytes())?;
    let row = row_for(keys, key)?;
    let value = value_of(row.form, parts.1.as_bytes())?;
    Some(Entry {
        text: parts.1,
        value,
        word,
        key,
    })
}
