//! The corner that the name of a file of heights tells.

ghost use Rattle.std.specs.Prelude.{◌≡◌, ◌+◌, ◌-◌, ◌<◌, ◌≤◌, ◌&&◌, ◌||◌, length, IsTrue, Some, IfSome, pos, neg_ℤ, ◌≤ℤ◌, ◌<ℤ◌};
ghost use Rattle.hgt_tiles.specs.Relief.{IsCorner};
ghost use Rattle.hgt_tiles.specs.Name.{is_spelled, letters_are_there, digits_are_there, is_letter, lat_digits, lon_digits, signed_degrees, corner_of_name};

use item_list::{base_name, is_digit};

/// A south-west corner in whole degrees, east of Greenwich and north of the equator.
#[derive(Clone, Copy, PartialEq, Eq, PartialOrd, Ord)]
pub struct Corner {
    pub lon: i16,
    pub lat: i16,
}

/// The corner that a name tells, none where it tells none.
pub(crate) fn corner_of(name: &[u8]) -> Option<Corner>
    ensures exact { result ≡ corner_of_name name.now }
    ensures lawful { IfSome result IsCorner }
{
    let part = base_name(name);
    if !spells_corner(part) {
        return None;
    }
    let lon = signed(is_either(part[3], b'W'), degrees_of_longitude(part), 180)?;
    let lat = signed(is_either(part[0], b'S'), degrees_of_latitude(part), 90)?;
    Some(Corner { lon, lat })
}

/// Whether a part has the form of a name.
fn spells_corner(part: &[u8]) -> bool
    ensures exact { result ≡ is_spelled part.now }
    ensures long { IsTrue result → length part.now ≡ 11 }
{
    part.len() == 11 && are_letters(part) && are_digits(part)
}

/// Whether the letters and the ending are there.
fn are_letters(part: &[u8]) -> bool
    requires fits { length part.now ≡ 11 }
    ensures exact { result ≡ letters_are_there part.now }
{
    (is_either(part[0], b'N') || is_either(part[0], b'S'))
        && (is_either(part[3], b'E') || is_either(part[3], b'W'))
        && part[7] == b'.'
        && part[8] == b'h'
        && part[9] == b'g'
        && part[10] == b't'
}

/// Whether the digits are there.
fn are_digits(part: &[u8]) -> bool
    requires fits { length part.now ≡ 11 }
    ensures exact { result ≡ digits_are_there part.now }
{
    is_digit(part[1])
        && is_digit(part[2])
        && is_digit(part[4])
        && is_digit(part[5])
        && is_digit(part[6])
}

/// A letter in either case, by its capital.
fn is_either(byte: u8, capital: u8) -> bool
    requires fits { capital ≤ 90 }
    ensures exact { result ≡ is_letter capital byte }
{
    byte == capital || byte == capital + 32
}

/// The degrees that the digits of the latitude tell.
fn degrees_of_latitude(part: &[u8]) -> u16
    requires fits { length part.now ≡ 11 }
    ensures exact { result ≡ lat_digits part.now }
{
    digit(part[1]) * 10 + digit(part[2])
}

/// The degrees that the digits of the longitude tell.
fn degrees_of_longitude(part: &[u8]) -> u16
    requires fits { length part.now ≡ 11 }
    ensures exact { result ≡ lon_digits part.now }
{
    digit(part[4]) * 100 + digit(part[5]) * 10 + digit(part[6])
}

/// The number of a digit.
fn digit(byte: u8) -> u16
    ensures exact { result ≡ byte - 48 }
    ensures small { result < 256 }
{
    byte.saturating_sub(b'0') as u16
}

/// Degrees with their sign, if they are within so many: the positive end is one less.
fn signed(minus: bool, degrees: u16, most: u16) -> Option<i16>
    requires some { 0 < most }
    requires few { most ≤ 180 }
    ensures exact { result ≡ signed_degrees minus degrees most }
    ensures low { IfSome result (λ d. neg_ℤ (pos most) ≤ℤ d) }
    ensures high { IfSome result (λ d. d <ℤ pos most) }
{
    if minus {
        if degrees <= most {
            Some(-(degrees as i16))
        } else {
            None
        }
    } else if degrees < most {
        Some(degrees as i16)
    } else {
        None
    }
}
