//! The words after a command, read over the rows of its keys.

ghost use Rattle.std.specs.Prelude.{◌≡◌, [], Ok, Err, MatchResult, option_map};
ghost use Rattle.command_words.specs.Reader.{count_of, entries_after, entries_of, entry_with, has_all, has_profile_of, may_follow, most_of};
ghost use Rattle.command_words.specs.Refusals.{OnUsage, now_of, texts_of};

use crate::entry::{Entry, entry_of, row_for};
use crate::rows::{Key, KeyRow};
use std::alloc::Global;

/// Why words are no command.
#[derive(Clone, Copy)]
pub enum Refusal {
    /// The word at this place is at fault.
    Usage(u64),
    /// Memory ran out.
    NoMemory,
}

/// What the words after a command give, each key as often as its row wants it, and no profile's
/// name twice.
pub fn entries_of<'a>(
    alloc: Global,
    keys: &[KeyRow],
    words: &'a [String],
) -> Result<Vec<Entry<'a>>, Refusal>
    ensures exact { MatchResult result (λ entries.
        entries_of keys.now (texts_of words.now) ≡ Ok entries.items) (λ refusal.
        OnUsage refusal (λ word. entries_of keys.now (texts_of words.now) ≡ Err word)) }
{
    let entries = read_entries(alloc, keys, words)?;
    if has_all(keys, entries.as_slice()) {
        Ok(entries)
    } else {
        Err(Refusal::Usage(words.len() as u64 + 1))
    }
}

/// What the words after a command give, each key no more often than its row wants it, and no
/// profile's name twice.
pub fn read_entries<'a>(
    alloc: Global,
    keys: &[KeyRow],
    words: &'a [String],
) -> Result<Vec<Entry<'a>>, Refusal>
    ensures exact { MatchResult result (λ entries.
        entries_after keys.now [] (texts_of words.now) ≡ Ok entries.items) (λ refusal.
        OnUsage refusal (λ word. entries_after keys.now [] (texts_of words.now) ≡ Err word)) }
{
    let mut entries = Vec::new(alloc);
    'words: for word in words {
        let place = entries.len() as u64 + 1;
        let Some(entry) = entry_of(keys, place, word.as_str()) else {
            return Err(Refusal::Usage(place));
        };
        if !may_follow(keys, entries.as_slice(), &entry) {
            return Err(Refusal::Usage(place));
        }
        match entries.push(entry) {
            Ok(()) => {}
            Err(_) => return Err(Refusal::NoMemory),
        }
    }
    Ok(entries)
}

/// Whether what a word gives may follow these: its key is wanted once more, and none of them names
/// a profile of the same name.
#[tactic(auto, unfolding(crate::specs::Reader::may_follow))]
fn may_follow(keys: &[KeyRow], before: &[Entry], entry: &Entry) -> bool
    ensures exact { result ≡ may_follow keys.now before.now entry.now }
{
    count_of(before, entry.key()) < most_of(keys, entry.key()) && !has_profile_of(before, entry)
}

/// Whether one of these names a profile of the same name.
pub fn has_profile_of(entries: &[Entry], entry: &Entry) -> bool
    ensures exact { result ≡ has_profile_of entry.now entries.now }
{
    entries.iter().any(|other| other.names_as(entry))
}

/// How often a key is wanted at most over these rows.
pub fn most_of(keys: &[KeyRow], key: Key) -> usize
    ensures exact { result ≡ most_of keys.now key }
{
    match row_for(keys, key) {
        Some(row) => row.most,
        None => 0,
    }
}

/// Whether each key is given as often as its row wants it at least.
#[tactic(auto, unfolding(crate::specs::Reader::has_all))]
fn has_all(keys: &[KeyRow], entries: &[Entry]) -> bool
    ensures exact { result ≡ has_all keys.now entries.now }
{
    keys.iter()
        .all(|row| row.least <= count_of(entries, row.key))
}

/// How many give a key.
pub fn count_of(entries: &[Entry], key: Key) -> usize
    ensures exact { result ≡ count_of key entries.now }
{
    entries.iter().filter(|entry| entry.is_of(key)).count()
}

/// The first that gives a key.
pub fn entry_with<'e, 'a>(entries: &'e [Entry<'a>], key: Key) -> Option<&'e Entry<'a>>
    ensures exact { option_map now_of result ≡ entry_with key entries.now }
{
    entries.iter().find(|entry| entry.is_of(key))
}
