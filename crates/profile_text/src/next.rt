//! The next token of a text.
ghost use Rattle.std.specs.Prelude.{◌≡◌, ◌+◌, ◌<◌, ◌≤◌, ◌^◌, [], false, drop, length, MatchOption, MatchResult, Err};
ghost use Rattle.profile_text.specs.Read.{first_of, read};
ghost use Rattle.profile_text.specs.Source.{BeginsInked, IsFirst, token_len, token_of};
ghost use Rattle.profile_text.specs.Token.{start_of, tokens_from};

use crate::bytes::{breaks_after, comment_after, is_ink, is_word_byte, word_len};
use crate::error::{TextError, TextKind};
use crate::source::{Reader, Token};

impl<'a> Reader<'a> {
    /// The place before a text's first token.
    pub(crate) fn new(text: &'a [u8]) -> Reader<'a>
        requires fits { length text.now < 2 ^ 32 }
        ensures value { result ≡ start_of text.now }
    {
        Reader {
            rest: text,
            breaks: 0,
            last: 1,
        }
    }

    /// The next token, and the place after it.
    pub(crate) fn next(&self) -> Option<(Token<'a>, Reader<'a>)>
        ensures value { MatchOption result (self.now.tokens ≡ [])
            (λ r. IsFirst self.now (token_of r.0) r.1) }
    {
        let gap = gap(self.rest, self.breaks);
        let (_, front) = self.rest.split_at(gap.0);
        if front.is_empty() {
            return None;
        }
        let line = gap.1 + 1;
        let (bytes, rest) = front.split_at(token_len(front));
        Some((
            Token { line, bytes },
            Reader {
                rest,
                breaks: gap.1,
                last: line,
            },
        ))
    }

    /// Goes past the next token; `End` at the line of the token before where there is none.
    pub(crate) fn required(&mut self) -> Result<Token<'a>, TextError>
        ensures exact { let first = first_of self.old.last self.old.tokens in
            MatchResult result (λ t. first ≡ read (token_of t) self.new) (λ e. first ≡ Err e) }
    {
        match self.next() {
            None => Err(TextError::At {
                line: self.last,
                kind: TextKind::End,
            }),
            Some(found) => {
                let (token, after) = found;
                *self = after;
                Ok(token)
            }
        }
    }
}

/// How many bytes of white space and comments stand at the front of a text, and how many line ends
/// stand before what follows.
fn gap(text: &[u8], before: u32) -> (usize, u32)
    requires fits { before + length text.now < 2 ^ 32 }
    ensures value { tokens_from false (before + 1) text.now
        ≡ tokens_from false (result.1 + 1) (drop result.0 text.now) }
    ensures front { BeginsInked (drop result.0 text.now) }
    ensures fits { result.0 ≤ length text.now }
    ensures breaks { result.1 ≤ before + result.0 }
{
    let mut breaks = before;
    let mut comment = false;
    'skip: for (i, byte) in text.iter().enumerate() {
        if is_ink(comment, *byte) {
            return (i, breaks);
        }
        breaks = breaks_after(breaks, *byte);
        comment = comment_after(comment, *byte);
    }
    (text.len(), breaks)
}

/// How long the token at the front is.
fn token_len(text: &[u8]) -> usize
    requires front { BeginsInked text.now }
    requires some { 0 < length text.now }
    ensures value { result ≡ token_len text.now }
    ensures fits { result ≤ length text.now }
    ensures some { 0 < result }
{
    if is_word_byte(text[0]) {
        word_len(text)
    } else {
        1
    }
}
