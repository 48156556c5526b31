//! Where in a text a scanner stands.

use crate::step::JsonStep;

/// A pair of brackets.
#[derive(Clone, Copy)]
pub enum Bracket {
    /// Round an array.
    Square,
    /// Round an object.
    Curly,
}

/// Which letters of a word were read.
#[derive(Clone, Copy)]
pub enum Letters {
    T,
    Tr,
    Tru,
    F,
    Fa,
    Fal,
    Fals,
    N,
    Nu,
    Nul,
}

/// What a byte can be in a number: a word of the clauses, by which the code doesn't go.
#[derive(Clone, Copy)]
pub enum Kind {
    Zero,
    Digit,
    Point,
    Letter,
    Plus,
    Minus,
    Other,
}

/// Which part of a number was read last.
#[derive(Clone, Copy)]
pub enum Part {
    Nothing,
    Minus,
    Zero,
    Whole,
    Point,
    Fraction,
    Letter,
    Sign,
    Exponent,
}

/// What is still to come of a character of several bytes: so many bytes, or those behind a first
/// byte that restricts the second.
#[derive(Clone, Copy)]
pub enum Tail {
    One,
    Two,
    Three,
    BehindE0,
    BehindEd,
    BehindF0,
    BehindF4,
}

/// What a byte begins in a text between quotation marks.
#[derive(Clone, Copy)]
pub enum Lead {
    Quote,
    Backslash,
    Whole,
    Longer(Tail),
    Nothing,
}

/// What a byte behind a backslash stands for.
#[derive(Clone, Copy)]
pub enum Escape {
    Short(u8),
    Coded,
    Nothing,
}

/// What a byte begins in a value's place.
#[derive(Clone, Copy)]
pub enum Start {
    Quote,
    Open(Bracket),
    Word(Letters),
    Number(Part),
    Nothing,
}

/// What a text between quotation marks is for.
#[derive(Clone, Copy)]
pub enum Role {
    Name,
    Value,
}

/// Where between quotation marks a scanner stands, with the first half of a pair of surrogates
/// that waits for the second.
#[derive(Clone, Copy)]
pub enum Place {
    Chars(Option<u16>),
    Escape(Option<u16>),
    Hex1(Option<u16>),
    Hex2(Option<u16>, u8),
    Hex3(Option<u16>, u8, u8),
    Hex4(Option<u16>, u8, u8, u8),
    Tail(Tail),
}

/// Where in a text a scanner stands.
#[derive(Clone, Copy)]
pub enum Mode {
    /// Before a value.
    Value,
    /// Behind a bracket that opened.
    First,
    /// Behind a value.
    After,
    /// Before the name of a member.
    Name,
    /// Behind the name of a member.
    Colon,
    /// In a word.
    Word(Letters),
    /// In a number.
    Number(Part),
    /// Between quotation marks.
    Text(Role, Place),
}

/// What became of a symbol.
#[derive(Clone, Copy)]
pub enum Taken {
    /// It was read.
    Read,
    /// It was read, and a step is given, beside its content.
    Given(JsonStep),
    /// It ends a number, which is given, and is still to be read.
    First,
    /// No text goes on so. Nothing has changed.
    Stuck,
}

/// What became of the end.
#[derive(Clone, Copy)]
pub enum Ending {
    /// It ends a number, which is given.
    Number,
    /// It ends the text.
    Whole,
    /// The text is not whole. Nothing has changed.
    Stuck,
}
