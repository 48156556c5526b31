//! What is left of a profile's text.

use std::marker::Model;

/// A token with its line, from 1.
#[derive(Clone, Copy)]
pub(crate) struct Token<'a> {
    pub(crate) line: u32,
    pub(crate) bytes: &'a [u8],
}

/// What is left of a profile's text, how many line ends stand before it, and the line of the token
/// before it.
///
/// Contracts see it as the place between two tokens.
#[derive(Drop)]
pub(crate) struct Reader<'a> {
    pub(crate) rest: &'a [u8],
    pub(crate) breaks: u32,
    pub(crate) last: u32,
}

impl<'a> Model for Reader<'a> {
    ghost use Rattle.std.specs.Prelude.{◌+◌, ◌<◌, ◌^◌, false, length};
    ghost use Rattle.profile_text.specs.Token.{Place, tokens_from};

    ghost Value = { Place };

    ghost view = { λ r. record {
      last = r.last;
      tokens = tokens_from false (r.breaks + 1) r.rest.now;
    } };

    ghost invariant = { λ r. r.breaks + length r.rest.now < 2 ^ 32 };
}
