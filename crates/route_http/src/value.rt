//! The values of the keys that are no lists.
ghost use Rattle.std.specs.Prelude.{◌≡◌, ◌≤◌, ◌<◌, ◌^◌, length, IsTrue, IfSome, Ok};
ghost use Rattle.route_http.specs.Value.{cost_of, unsigned_of, digit_of, runs_of, form_of, labels_of, is_count, radius_of, millimetres_of};
ghost use Rattle.fixed_num.specs.Decimal.{digits_after};
ghost use Rattle.std.specs.Str.{all_ascii_digits};

use crate::error::RequestError;
use crate::form::Form;
use crate::key::Key;
use fixed_num::Num;

/// The greatest radius in millimetres.
const MOST_RADIUS: u64 = 100_000_000;

/// The most labels that may be asked for.
const MOST_LABELS: u64 = 4_000_000_000;

/// The number of one digit up to the greatest.
pub(crate) fn digit_of(most: u8, value: &[u8]) -> Option<u8>
    requires fits { most ≤ 9 }
    ensures exact { result ≡ digit_of most value.now }
{
    if value.len() != 1 {
        return None;
    }
    let byte = value[0];
    if b'0' <= byte && byte <= b'0' + most {
        Some(byte - b'0')
    } else {
        None
    }
}

/// Whether runs are searched.
pub(crate) fn runs_of(value: &[u8]) -> Option<bool>
    ensures exact { result ≡ runs_of value.now }
{
    let digit = digit_of(1, value)?;
    Some(digit == 1)
}

/// The form of the reply.
#[tactic(auto, unfolding(crate::specs::Value::form_of))]
pub(crate) fn form_of(value: &[u8]) -> Result<Form, RequestError>
    ensures exact { result ≡ form_of value.now }
{
    if value == b"geojson".as_slice() {
        Ok(Form::GeoJson)
    } else if value == b"csv".as_slice() {
        Ok(Form::Csv)
    } else if value == b"gpx".as_slice() {
        Err(RequestError::Format)
    } else if value == b"kml".as_slice() {
        Err(RequestError::Format)
    } else {
        Err(RequestError::BadValue { key: Key::Format })
    }
}

/// The most labels.
#[tactic(auto, unfolding(crate::specs::Value::labels_of))]
pub(crate) fn labels_of(value: &[u8]) -> Option<u64>
    ensures exact { result ≡ labels_of value.now }
{
    if !is_count(value) {
        return None;
    }
    let labels = number_of(value);
    if 1 <= labels && labels <= MOST_LABELS {
        Some(labels)
    } else {
        None
    }
}

/// Whether a value has 1 to 10 digits.
pub(crate) fn is_count(value: &[u8]) -> bool
    ensures exact { result ≡ is_count value.now }
{
    if value.is_empty() || value.len() > 10 {
        return false;
    }
    'digits: for byte in value {
        if !byte.is_ascii_digit() {
            return false;
        }
    }
    true
}

/// The number of at most 10 digits.
pub(crate) fn number_of(digits: &[u8]) -> u64
    requires few { length digits.now ≤ 10 }
    requires digits { IsTrue (all_ascii_digits digits.now) }
    ensures exact { result ≡ digits_after 0 digits.now }
{
    let mut number: u64 = 0;
    'digits: for byte in digits {
        number = 10 * number + u64::from(*byte - b'0');
    }
    number
}

/// A cost in millionths: a number as a profile's literal spells it, which isn't negative.
pub(crate) fn cost_of(value: &[u8]) -> Option<u64>
    ensures exact { result ≡ cost_of value.now }
{
    match Num::read(value) {
        Ok(number) => unsigned_of(number.millionths()),
        Err(_) => None,
    }
}

/// A number that isn't negative.
fn unsigned_of(number: i64) -> Option<u64>
    ensures exact { result ≡ unsigned_of (Ok number) }
{
    if number < 0 {
        None
    } else {
        Some(number.unsigned_abs())
    }
}

/// The radius in millimetres of a text in metres.
#[tactic(auto, unfolding(crate::specs::Value::radius_of))]
pub(crate) fn radius_of(text: &[u8]) -> Option<u64>
    ensures exact { result ≡ radius_of text.now }
    ensures fits { IfSome result (λ radius. radius ≤ MOST_RADIUS) }
{
    if text.is_empty() || text[0] == b'-' {
        return None;
    }
    match Num::read(text) {
        Ok(metres) => millimetres_of(metres),
        Err(_) => None,
    }
}

/// A radius in metres as whole millimetres.
fn millimetres_of(metres: Num) -> Option<u64>
    ensures exact { result ≡ millimetres_of (Ok metres) }
    ensures fits { IfSome result (λ radius. radius ≤ MOST_RADIUS) }
{
    let millimetres = metres.millionths().unsigned_abs() / 1000;
    if millimetres <= MOST_RADIUS {
        Some(millimetres)
    } else {
        None
    }
}
