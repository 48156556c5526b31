//! What a token is.
ghost use Rattle.std.specs.Prelude.{◌≡◌, Option, None, Some};
ghost use Rattle.std.specs.List.{prefix_len};
ghost use Rattle.profile_text.specs.Kind.{beside, words_in, kind_of, op_of, word_of, section_of, plain_kind, literal_kind, must_be_literal, has_dashes, is_name, is_name_byte};

use crate::error::TextKind;
use crate::expr::Op;
use crate::look::is_look;
use fixed_num::Num;

/// A section of a profile.
#[derive(Clone, Copy)]
pub enum Section {
    Global,
    Way,
    Node,
}

/// What a token is.
#[derive(Clone, Copy)]
pub(crate) enum Kind {
    Open,
    Close,
    Opens(Section),
    Assign,
    Equals,
    Then,
    Else,
    True,
    False,
    Not,
    Switch,
    If,
    Two(Op),
    Number(Num),
    /// A token that must be a number and isn't one, or is too large.
    BadNumber,
    Look,
    Name,
    Other,
}

/// What a token is.
#[tactic(auto, unfolding(crate::specs::Kind::kind_of))]
pub(crate) fn kind_of(text: &[u8]) -> Kind
    ensures value { result ≡ kind_of text.now }
{
    if let Some(kind) = word_of(text) {
        kind
    } else if let Some(op) = op_of(text) {
        Kind::Two(op)
    } else if let Some(section) = section_of(text) {
        Kind::Opens(section)
    } else {
        plain_kind(text)
    }
}

/// The quoted words, but for the operators of two operands and the sections.
const WORDS: [(&str, Kind); 11] = [
    ("(", Kind::Open),
    (")", Kind::Close),
    ("assign", Kind::Assign),
    ("=", Kind::Equals),
    ("then", Kind::Then),
    ("else", Kind::Else),
    ("true", Kind::True),
    ("false", Kind::False),
    ("not", Kind::Not),
    ("switch", Kind::Switch),
    ("if", Kind::If),
];

/// The operators of two operands.
const OPERATORS: [(&str, Op); 12] = [
    ("or", Op::Or),
    ("and", Op::And),
    ("xor", Op::Xor),
    ("multiply", Op::Multiply),
    ("divide", Op::Divide),
    ("add", Op::Add),
    ("sub", Op::Sub),
    ("max", Op::Max),
    ("min", Op::Min),
    ("equal", Op::Equal),
    ("greater", Op::Greater),
    ("lesser", Op::Lesser),
];

/// The words that open a section.
const SECTIONS: [(&str, Section); 3] = [
    ("---context:global", Section::Global),
    ("---context:way", Section::Way),
    ("---context:node", Section::Node),
];

/// What stands beside a text in a list of words, where it is one of them.
fn beside<T: Copy>(rows: &[(&str, T)], text: &[u8]) -> Option<T>
    ensures value { result ≡ beside (words_in rows.now) text.now }
{
    'rows: for place in 0..rows.len() {
        let (word, it) = rows[place];
        if text == word.as_bytes() {
            return Some(it);
        }
    }
    None
}

/// The quoted word that a token is, but for the operators of two operands and the sections.
#[tactic(auto, unfolding(crate::specs::Kind::word_of))]
fn word_of(text: &[u8]) -> Option<Kind>
    ensures value { result ≡ word_of text.now }
{
    beside(&WORDS, text)
}

/// The operator of two operands that a token is.
#[tactic(auto, unfolding(crate::specs::Kind::op_of))]
fn op_of(text: &[u8]) -> Option<Op>
    ensures value { result ≡ op_of text.now }
{
    beside(&OPERATORS, text)
}

/// The section that a token opens.
#[tactic(auto, unfolding(crate::specs::Kind::section_of))]
fn section_of(text: &[u8]) -> Option<Section>
    ensures value { result ≡ section_of text.now }
{
    beside(&SECTIONS, text)
}

/// What a token is that is no quoted word.
#[tactic(auto, unfolding(crate::specs::Kind::plain_kind))]
fn plain_kind(text: &[u8]) -> Kind
    ensures value { result ≡ plain_kind text.now }
{
    if must_be_literal(text) {
        literal_kind(text)
    } else if is_name(text) {
        Kind::Name
    } else if is_look(text) {
        Kind::Look
    } else {
        Kind::Other
    }
}

/// What a token is that must be a literal.
fn literal_kind(text: &[u8]) -> Kind
    ensures value { result ≡ literal_kind text.now }
{
    match Num::read(text) {
        Ok(number) => Kind::Number(number),
        Err(_) => Kind::BadNumber,
    }
}

/// Whether a token begins with three dashes.
pub(crate) fn has_dashes(text: &[u8]) -> bool
    ensures value { result ≡ has_dashes text.now }
{
    text.starts_with(b"---")
}

/// Whether a token must be a literal.
fn must_be_literal(text: &[u8]) -> bool
    ensures value { result ≡ must_be_literal text.now }
{
    match text {
        [] => false,
        [first, ..] => first.is_ascii_digit() || (*first == b'-' && !has_dashes(text)),
    }
}

/// Whether a token is a letter or `_` followed by letters, digits and `_`.
fn is_name(text: &[u8]) -> bool
    ensures value { result ≡ is_name text.now }
{
    match text {
        [] => false,
        [first, ..] => !first.is_ascii_digit() && name_len(text) == text.len(),
    }
}

/// How many bytes of a name stand at the front.
fn name_len(text: &[u8]) -> usize
    ensures value { result ≡ prefix_len is_name_byte text.now }
{
    for (i, byte) in text.iter().enumerate() {
        if !is_name_byte(*byte) {
            return i;
        }
    }
    text.len()
}

/// Whether a byte is a letter, a digit or `_`.
fn is_name_byte(byte: u8) -> bool
    ensures value { result ≡ is_name_byte byte }
{
    byte.is_ascii_alphanumeric() || byte == b'_'
}
