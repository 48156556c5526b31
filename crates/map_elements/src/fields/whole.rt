//! Whole numbers of 64 bits.
ghost use Rattle.std.specs.Prelude.{◌≡◌, true, false};
ghost use Rattle.fixed_num.specs.Decimal.{unsigned_parts};
ghost use Rattle.map_elements.specs.Fields.{with_some, whole_of, whole_part};
ghost use Rattle.map_elements.specs.Whole.{size_in, signed_size};

/// The most that a size may be, that of the least whole number.
const MOST: u64 = 9_223_372_036_854_775_808;

/// The whole number of a text: an optional `-` and digits.
#[tactic(auto, unfolding(crate::specs::Fields::whole_of))]
pub(crate) fn whole_of(text: &[u8]) -> Option<i64>
    ensures exact { result ≡ whole_of text.now }
{
    match text {
        [] => None,
        [first, rest @ ..] if *first == b'-' => signed_digits(true, rest),
        _ => signed_digits(false, text),
    }
}

/// The whole number of a text after its sign.
fn signed_digits(negative: bool, digits: &[u8]) -> Option<i64>
    ensures exact { result ≡ with_some (unsigned_parts negative digits.now) whole_part }
{
    match digits_size(digits) {
        None => None,
        Some(size) => signed(negative, size),
    }
}

/// A size with its sign.
fn signed(negative: bool, size: u64) -> Option<i64>
    ensures exact { result ≡ signed_size negative size }
{
    if size < MOST {
        let number = size as i64;
        Some(if negative { -number } else { number })
    } else if negative && size == MOST {
        Some(i64::MIN)
    } else {
        None
    }
}

/// The number that digits spell, up to 2^63.
fn digits_size(digits: &[u8]) -> Option<u64>
    ensures exact { result ≡ size_in digits.now }
{
    if digits.is_empty() {
        return None;
    }
    let mut number: u64 = 0;
    'digits: for digit in digits {
        if !digit.is_ascii_digit() {
            return None;
        }
        if number > MOST / 10 {
            return None;
        }
        number = 10 * number + u64::from(*digit - b'0');
    }
    if number <= MOST { Some(number) } else { None }
}
