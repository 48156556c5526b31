//! Kinds of bytes.

ghost use Rattle.std.specs.Prelude.{◌≡◌, ◌<◌, ◌≤◌};
ghost use Rattle.json_text.specs.Bytes as bytes_;
ghost use Rattle.json_text.specs.Machine as machine;
ghost use Rattle.json_text.specs.Rest as rest;
ghost use Rattle.json_text.specs.declared.mode.Part.TheVariants as part_;
ghost use Rattle.json_text.specs.Grammar as grammar;

use crate::mode::{Bracket, Escape, Lead, Letters, Mode, Part, Place, Role, Start, Tail};

/// Whether a byte is white space.
pub fn is_space(b: u8) -> bool
    ensures value { result ≡ bytes_.is_space b }
{
    b == 32 || b == 10 || b == 13 || b == 9
}

/// Whether a byte is a digit, zero or another.
pub fn is_digit(b: u8) -> bool
    ensures value { result ≡ bytes_.is_digit b }
{
    48 <= b && b <= 57
}

/// Whether a byte is a hexadecimal digit.
pub fn is_hex(b: u8) -> bool
    ensures value { result ≡ bytes_.is_hex b }
{
    (48 <= b && b <= 57) || (65 <= b && b <= 70) || (97 <= b && b <= 102)
}

/// The number that a hexadecimal digit stands for.
pub fn hex_value(b: u8) -> u16
    ensures value { result ≡ bytes_.hex_value b }
    ensures small { result < 16 }
{
    if 48 <= b && b <= 57 {
        (b - 48) as u16
    } else if 65 <= b && b <= 70 {
        (b - 55) as u16
    } else if 97 <= b && b <= 102 {
        (b - 87) as u16
    } else {
        0
    }
}

/// What a byte begins between quotation marks.
pub fn lead_of(b: u8) -> Lead
    ensures value { result ≡ bytes_.lead_of b }
{
    if b < 32 {
        Lead::Nothing
    } else if b == 34 {
        Lead::Quote
    } else if b == 92 {
        Lead::Backslash
    } else if b < 128 {
        Lead::Whole
    } else {
        long_lead_of(b)
    }
}

/// What a byte above the ASCII range begins between quotation marks.
fn long_lead_of(b: u8) -> Lead
    requires long { 128 ≤ b }
    ensures value { result ≡ bytes_.lead_of b }
{
    if b < 194 {
        Lead::Nothing
    } else if b < 224 {
        Lead::Longer(Tail::One)
    } else if b == 224 {
        Lead::Longer(Tail::BehindE0)
    } else if b == 237 {
        Lead::Longer(Tail::BehindEd)
    } else if b < 240 {
        Lead::Longer(Tail::Two)
    } else if b == 240 {
        Lead::Longer(Tail::BehindF0)
    } else if b < 244 {
        Lead::Longer(Tail::Three)
    } else if b == 244 {
        Lead::Longer(Tail::BehindF4)
    } else {
        Lead::Nothing
    }
}

/// What a byte behind a backslash stands for.
pub fn escape_of(b: u8) -> Escape
    ensures value { result ≡ bytes_.escape_of b }
{
    match b {
        34 => Escape::Short(34),
        92 => Escape::Short(92),
        47 => Escape::Short(47),
        98 => Escape::Short(8),
        102 => Escape::Short(12),
        110 => Escape::Short(10),
        114 => Escape::Short(13),
        116 => Escape::Short(9),
        117 => Escape::Coded,
        _ => Escape::Nothing,
    }
}

/// What a byte begins in a value's place.
pub fn start_of(b: u8) -> Start
    ensures value { result ≡ machine.start_of b }
{
    match b {
        34 => Start::Quote,
        91 => Start::Open(Bracket::Square),
        123 => Start::Open(Bracket::Curly),
        116 => Start::Word(Letters::T),
        102 => Start::Word(Letters::F),
        110 => Start::Word(Letters::N),
        _ => match next_part(Part::Nothing, b) {
            Some(part) => Start::Number(part),
            None => Start::Nothing,
        },
    }
}

/// The part of a number that a byte begins where no minus may stand.
fn whole_part(b: u8) -> Option<Part>
    ensures value { result ≡ rest.part_after part_.Minus (bytes_.kind_of b) }
{
    if is_digit(b) {
        Some(if b == 48 { Part::Zero } else { Part::Whole })
    } else {
        None
    }
}

/// The part behind the whole part of a number, if another part follows.
fn behind_whole(b: u8) -> Option<Part>
    ensures value { result ≡ rest.part_after part_.Zero (bytes_.kind_of b) }
{
    match b {
        46 => Some(Part::Point),
        69 | 101 => Some(Part::Letter),
        _ => None,
    }
}

/// The part of a number behind a byte, if it goes on with it. It goes by the part first, since one
/// or two tests of the byte are enough behind each.
#[inline(always)]
pub fn next_part(part: Part, b: u8) -> Option<Part>
    ensures value { result ≡ rest.part_after part (bytes_.kind_of b) }
{
    match part {
        Part::Nothing if b == 45 => Some(Part::Minus),
        Part::Nothing | Part::Minus => whole_part(b),
        Part::Whole if is_digit(b) => Some(Part::Whole),
        Part::Zero | Part::Whole => behind_whole(b),
        Part::Point | Part::Fraction if is_digit(b) => Some(Part::Fraction),
        Part::Fraction if b == 69 || b == 101 => Some(Part::Letter),
        Part::Letter if b == 43 || b == 45 => Some(Part::Sign),
        Part::Letter | Part::Sign | Part::Exponent if is_digit(b) => Some(Part::Exponent),
        _ => None,
    }
}

/// Whether a number may end behind a part.
pub fn may_end(part: Part) -> bool
    ensures value { result ≡ rest.may_end part }
{
    match part {
        Part::Zero | Part::Whole | Part::Fraction | Part::Exponent => true,
        Part::Nothing | Part::Minus | Part::Point | Part::Letter | Part::Sign => false,
    }
}

/// The letter that is wanted next in a word.
pub fn letter_after(letters: Letters) -> u8
    ensures value { result ≡ machine.letter_after letters }
{
    match letters {
        Letters::T => 114,
        Letters::Tr => 117,
        Letters::Tru => 101,
        Letters::F => 97,
        Letters::Fa => 108,
        Letters::Fal => 115,
        Letters::Fals => 101,
        Letters::N => 117,
        Letters::Nu => 108,
        Letters::Nul => 108,
    }
}

/// The letters of a word that were then read, or nothing where the word is whole.
pub fn letters_after(letters: Letters) -> Option<Letters>
    ensures value { result ≡ machine.letters_after letters }
{
    match letters {
        Letters::T => Some(Letters::Tr),
        Letters::Tr => Some(Letters::Tru),
        Letters::F => Some(Letters::Fa),
        Letters::Fa => Some(Letters::Fal),
        Letters::Fal => Some(Letters::Fals),
        Letters::N => Some(Letters::Nu),
        Letters::Nu => Some(Letters::Nul),
        Letters::Tru | Letters::Fals | Letters::Nul => None,
    }
}

/// Whether a byte is wanted next in a character.
pub fn fits_tail(tail: Tail, b: u8) -> bool
    ensures value { result ≡ machine.fits_tail tail b }
{
    match tail {
        Tail::One | Tail::Two | Tail::Three => 128 <= b && b <= 191,
        Tail::BehindE0 => 160 <= b && b <= 191,
        Tail::BehindEd => 128 <= b && b <= 159,
        Tail::BehindF0 => 144 <= b && b <= 191,
        Tail::BehindF4 => 128 <= b && b <= 143,
    }
}

/// What is then still to come of the character, or nothing where it is whole.
pub fn tail_after(tail: Tail) -> Option<Tail>
    ensures value { result ≡ machine.tail_after tail }
{
    match tail {
        Tail::One => None,
        Tail::Two | Tail::BehindE0 | Tail::BehindEd => Some(Tail::One),
        Tail::Three | Tail::BehindF0 | Tail::BehindF4 => Some(Tail::Two),
    }
}

/// The bracket that closes.
pub fn closing(bracket: Bracket) -> u8
    ensures value { result ≡ grammar.closing bracket }
{
    match bracket {
        Bracket::Square => 93,
        Bracket::Curly => 125,
    }
}

/// Where the next entry stands, behind a comma.
pub fn entry_mode(bracket: Bracket) -> Mode
    ensures value { result ≡ machine.entry_mode bracket }
{
    match bracket {
        Bracket::Square => Mode::Value,
        Bracket::Curly => Mode::Name,
    }
}

/// The mode behind a text.
pub fn mode_behind(role: Role) -> Mode
    ensures value { result ≡ machine.mode_behind role }
{
    match role {
        Role::Name => Mode::Colon,
        Role::Value => Mode::After,
    }
}

/// The place behind a byte of a character.
pub fn place_after(tail: Tail) -> Place
    ensures value { result ≡ machine.place_after (machine.tail_after tail) }
{
    match tail_after(tail) {
        Some(next) => Place::Tail(next),
        None => Place::Chars(None),
    }
}
