//! What may stand at a place, and why another token can't.
ghost use Rattle.std.specs.Prelude.{◌≡◌, Option, None, Some};
ghost use Rattle.profile_text.specs.Read.{expression_fault, closing_fault, name_fault, then_fault, else_fault, word_fault, fault_of};

use crate::error::TextKind;
use crate::kind::Kind;

/// What is expected at a place.
#[derive(Clone, Copy)]
pub(crate) enum Expected {
    /// An expression.
    Expression,
    /// A closing bracket.
    Closing,
    /// A name.
    Variable,
    /// The word `then`.
    ThenWord,
    /// The word `else`.
    ElseWord,
}

/// Why a token of this kind can't stand where something is expected, if it can't.
pub(crate) fn fault_of(expected: Expected, kind: Kind) -> Option<TextKind>
    ensures value { result ≡ fault_of expected kind }
{
    match expected {
        Expected::Expression => expression_fault(kind),
        Expected::Closing => closing_fault(kind),
        Expected::Variable => name_fault(kind),
        Expected::ThenWord => then_fault(kind),
        Expected::ElseWord => else_fault(kind),
    }
}

/// Why no expression begins with a token of this kind.
fn expression_fault(kind: Kind) -> Option<TextKind>
    ensures value { result ≡ expression_fault kind }
{
    match kind {
        Kind::Close => Some(TextKind::Bracket),
        Kind::BadNumber => Some(TextKind::Number),
        Kind::Opens(_) | Kind::Assign | Kind::Equals | Kind::Then | Kind::Else | Kind::Other =>
            Some(TextKind::Token),
        _ => None,
    }
}

/// Why a token of this kind can't stand where `)` is expected.
fn closing_fault(kind: Kind) -> Option<TextKind>
    ensures value { result ≡ closing_fault kind }
{
    match kind {
        Kind::Close => None,
        _ => Some(TextKind::Bracket),
    }
}

/// Why a token of this kind can't stand where a name is expected.
fn name_fault(kind: Kind) -> Option<TextKind>
    ensures value { result ≡ name_fault kind }
{
    match kind {
        Kind::Name => None,
        _ => Some(word_fault(kind)),
    }
}

/// Why a token of this kind can't stand where `then` is expected.
fn then_fault(kind: Kind) -> Option<TextKind>
    ensures value { result ≡ then_fault kind }
{
    match kind {
        Kind::Then => None,
        _ => Some(word_fault(kind)),
    }
}

/// Why a token of this kind can't stand where `else` is expected.
fn else_fault(kind: Kind) -> Option<TextKind>
    ensures value { result ≡ else_fault kind }
{
    match kind {
        Kind::Else => None,
        _ => Some(word_fault(kind)),
    }
}

/// Why a token of this kind can't stand where another word is expected.
fn word_fault(kind: Kind) -> TextKind
    ensures value { result ≡ word_fault kind }
{
    match kind {
        Kind::BadNumber => TextKind::Number,
        _ => TextKind::Token,
    }
}
