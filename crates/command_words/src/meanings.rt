//! What the keys of the commands mean.

ghost use Rattle.std.specs.Prelude.{◌≡◌, ◌++◌, OnOk};
ghost use Rattle.command_words.specs.Meanings.{default_text, meaning_of};

use crate::command::ADDRESS;
use crate::rows::Key;
use item_list::{append_bytes, append_number};
use std::alloc::AllocError;

impl Key {
    /// What its value is for.
    #[tactic(auto, unfolding(crate::specs::Meanings::meaning_of))]
    pub fn meaning(self) -> &'static str
        ensures exact { result.now ≡ meaning_of self }
    {
        match self {
            Key::Seed => "the seed of the grid",
            Key::Width => "how many cells a row of the grid has",
            Key::Height => "how many rows the grid has",
            Key::From => "the cell where the walk begins, by column and row from 0",
            Key::To => "the cell where the walk ends, by column and row from 0",
            Key::What => "what is made: the map, or the tile of heights",
            Key::Lookups => "the file of the tag table",
            Key::Profile => "the file of a profile, which has its name without .brf",
            Key::Map => "the file of the map",
            Key::Query => "the query, as behind the ? of a request",
            Key::Tile => "a file of heights",
            Key::Listen => "the IP address and the port to listen at",
            Key::Turns => "the server ends after so many events",
            Key::Hangup => "1 where a peer that sends no more is gone, as behind a front",
            Key::Labels => "how many labels a search may settle at most",
            Key::Hierarchies => "for how many profiles a hierarchy is kept",
            Key::Certificate => "the file of the certificate",
            Key::Cost => "the most that the way to a node may cost",
            Key::Bound => "1 where labels rank with a lower bound of what is still to pay",
            Key::Notes => "1 where what is done is noted on standard error",
        }
    }
}

/// Appends what stands for a key that isn't given.
#[tactic(auto, unfolding(crate::specs::Meanings::default_text, crate::specs::Command::address_of))]
pub fn append_default(text: &mut Vec<u8>, key: Key) -> Result<(), AllocError>
    ensures exact { OnOk result (text.new.items ≡ text.old.items ++ default_text key) }
{
    match key {
        Key::Listen => append_bytes(text, ADDRESS.as_bytes()),
        Key::Turns | Key::Labels | Key::Hierarchies | Key::Hangup | Key::Bound => {
            append_number(text, key.default_number())
        }
        Key::Notes => append_bytes(text, b"1 of serve, else 0"),
        _ => append_bytes(text, b"none"),
    }
}
