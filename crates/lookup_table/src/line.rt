//! The lines of a tag table.
ghost use Rattle.std.specs.Prelude.{◌≡◌, nat_eq, true, false, ◌≢◌, ◌<◌, ◌≤◌, [], ◌∷◌, length, drop, MatchOption, None, Some};
ghost use Rattle.std.specs.List.{prefix_len, starts_with};
ghost use Rattle.lookup_table.specs.Line.{is_tag_byte, is_count, is_digits, is_version, tag_of, words_form, context_form, dashes_form, text_form, line_form};
ghost use Rattle.lookup_table.specs.Words.{words_of};

use crate::part::Part;
use crate::words::{next_word, trimmed};

/// What a line is.
#[derive(Clone, Copy)]
pub(crate) enum Line<'a> {
    /// A comment, a blank line, or another line that begins with `---`.
    Skip,
    /// A version of the table's form.
    LookupVersion,
    /// A version of the table's content.
    MinorVersion,
    /// The beginning of a part.
    Open { part: Part },
    /// A tag with the spellings of one more value, which are words.
    Tag { name: &'a [u8], spellings: &'a [u8] },
    /// None of these.
    Fault,
}

impl<'a> Line<'a> {
    ghost use Rattle.lookup_table.specs.Form.{form_of};

    /// Reads a line.
    pub(crate) fn read(line: &'a [u8]) -> Line<'a>
        ensures value { form_of result ≡ line_form line.now }
    {
        match std::str::from_utf8(line) {
            Ok(_) => Line::of_text(trimmed(line)),
            Err(_) => Line::Fault,
        }
    }

    /// Reads a line without white space at its end.
    fn of_text(line: &'a [u8]) -> Line<'a>
        ensures value { form_of result ≡ text_form line.now }
    {
        if line.is_empty() || line[0] == b'#' {
            Line::Skip
        } else if line.starts_with(b"---") {
            Line::of_dashes(line)
        } else {
            Line::of_words(line)
        }
    }

    /// Reads a line that begins with dashes.
    fn of_dashes(line: &'a [u8]) -> Line<'a>
        ensures value { form_of result ≡ dashes_form line.now }
    {
        if let Some(number) = after(line, b"---lookupversion:") {
            if is_version(number) {
                Line::LookupVersion
            } else {
                Line::Fault
            }
        } else if let Some(number) = after(line, b"---minorversion:") {
            if is_version(number) {
                Line::MinorVersion
            } else {
                Line::Fault
            }
        } else {
            Line::of_context(line)
        }
    }

    /// Reads a line that begins with dashes and is no version.
    fn of_context(line: &'a [u8]) -> Line<'a>
        ensures value { form_of result ≡ context_form line.now }
    {
        if line == b"---context:way".as_slice() {
            Line::Open { part: Part::Way }
        } else if line == b"---context:node".as_slice() {
            Line::Open { part: Part::Node }
        } else {
            Line::Skip
        }
    }

    /// Reads a tag line.
    fn of_words(line: &'a [u8]) -> Line<'a>
        ensures value { form_of result ≡ words_form (words_of line.now) }
    {
        let Some(found) = next_word(line) else {
            return Line::Fault;
        };
        let (word, spellings) = found;
        let Some(name) = tag_of(word) else {
            return Line::Fault;
        };
        match next_word(spellings) {
            None => Line::Fault,
            Some(_) => Line::Tag { name, spellings },
        }
    }
}

/// What follows a prefix of a line.
fn after<'a>(line: &'a [u8], prefix: &[u8]) -> Option<&'a [u8]>
    ensures value { MatchOption result (starts_with nat_eq line.now prefix.now ≡ false)
        (λ r. (starts_with nat_eq line.now prefix.now ≡ true)
        × (r.now ≡ drop (length prefix.now) line.now)) }
{
    if line.starts_with(prefix) {
        let (_, rest) = line.split_at(prefix.len());
        Some(rest)
    } else {
        None
    }
}

/// Whether a version's number has 1 to 9 digits.
fn is_version(number: &[u8]) -> bool
    ensures value { result ≡ is_version number.now }
{
    number.len() <= 9 && is_digits(number)
}

/// Whether a text is digits alone, and not empty.
fn is_digits(text: &[u8]) -> bool
    ensures value { result ≡ is_digits text.now }
{
    for c in text {
        if !c.is_ascii_digit() {
            return false;
        }
    }
    !text.is_empty()
}

/// The tag that a line's first word names.
fn tag_of(word: &[u8]) -> Option<&[u8]>
    ensures value { let tag = tag_of word.now in
        MatchOption result (tag ≡ None) (λ t. tag ≡ Some t.now) }
{
    let (name, count) = word.split_at(name_len(word));
    if !name.is_empty() && is_count(count) {
        Some(name)
    } else {
        None
    }
}

/// Whether a text is a `;` and digits.
fn is_count(text: &[u8]) -> bool
    ensures value { result ≡ is_count text.now }
{
    match text {
        [first, digits @ ..] => *first == b';' && is_digits(digits),
        [] => false,
    }
}

/// How long the name at the front of a word is.
fn name_len(word: &[u8]) -> usize
    ensures value { result ≡ prefix_len is_tag_byte word.now }
    ensures fits { result ≤ length word.now }
{
    for (i, c) in word.iter().enumerate() {
        if !is_tag_byte(*c) {
            return i;
        }
    }
    word.len()
}

/// Whether a tag's name may hold a byte.
fn is_tag_byte(c: u8) -> bool
    ensures value { result ≡ is_tag_byte c }
{
    c != b';' && c != b'=' && c != b'|'
}
