//! Decimal texts: their parts, and their digits as a number.
ghost use Rattle.std.specs.Prelude.{◌≡◌, ◌↔◌, slice_index, ◌<◌, ◌≤◌, length, min, MatchOption, IsTrue};
ghost use Rattle.std.specs.Str.{all_ascii_digits};
ghost use Rattle.fixed_num.specs.Decimal.{leading_digits, is_fraction, tail_of, unsigned_parts, parts_of, digits_after, cut_millionths, rounded_millionths, with_sign};

use std::marker::Model;

/// The most that the digits of a text are counted to, above any number that is accepted.
pub(crate) const CAP: u64 = 10_000_000_000_000_000;

/// How many decimals a millionth has.
const KEPT: usize = 6;

/// The powers of ten up to a million.
const POWERS: [u64; 7] = [1, 10, 100, 1_000, 10_000, 100_000, 1_000_000];

/// The parts of a text that is spelled as a decimal number.
#[derive(Drop)]
pub(crate) struct Parts<'a> {
    negative: bool,
    whole: &'a [u8],
    fraction: &'a [u8],
}

impl<'a> Model for Parts<'a> {
    ghost use Rattle.fixed_num.specs.Decimal.{Decimal, IsDecimal};

    ghost Value = { Decimal };

    ghost view = { λ p.
        record { is_negative = p.negative; whole = p.whole.now; fraction = p.fraction.now } };

    ghost invariant = { λ p. IsDecimal
        (record { is_negative = p.negative; whole = p.whole.now; fraction = p.fraction.now }) };
}

impl<'a> Parts<'a> {
    /// The parts of a decimal text.
    pub(crate) fn of(text: &'a [u8]) -> Option<Parts<'a>>
        ensures exact { result ≡ parts_of text.now }
    {
        match text {
            [] => None,
            [first, rest @ ..] if *first == b'-' => Parts::unsigned(true, rest),
            _ => Parts::unsigned(false, text),
        }
    }

    /// The parts of a decimal text after its sign.
    fn unsigned(negative: bool, text: &'a [u8]) -> Option<Parts<'a>>
        ensures exact { result ≡ unsigned_parts negative text.now }
    {
        let (whole, tail) = text.split_at(leading_digits(text));
        let fraction = fraction_of(tail)?;
        if whole.is_empty() {
            None
        } else {
            Some(Parts {
                negative,
                whole,
                fraction,
            })
        }
    }

    /// The size in millionths, cut after the sixth decimal, or `CAP` where that is less.
    pub(crate) fn cut(&self) -> u64
        ensures exact { result ≡ min (cut_millionths self.now) CAP }
    {
        let kept = self.fraction.len().min(KEPT);
        let whole = capped_number(0, self.whole);
        let number = capped_number(whole, &self.fraction[..kept]);
        number.saturating_mul(POWERS[KEPT - kept]).min(CAP)
    }

    /// The size in millionths, rounded half up at the sixth decimal, or `CAP` where that is less.
    pub(crate) fn rounded(&self) -> u64
        ensures exact { result ≡ min (rounded_millionths self.now) CAP }
    {
        if rounds_up(self.fraction) {
            (self.cut() + 1).min(CAP)
        } else {
            self.cut()
        }
    }

    /// Whether the text begins with a `-`.
    pub(crate) fn is_negative(&self) -> bool
        ensures value { result ≡ self.now.is_negative }
    {
        self.negative
    }
}

/// The digits after the point, of what follows the digits before it.
fn fraction_of(tail: &[u8]) -> Option<&[u8]>
    ensures exact { let found = tail_of tail.now in
        MatchOption result (found ≡ None) (λ f. found ≡ Some f.now) }
{
    match tail {
        [] => Some(tail),
        [point, digits @ ..] if *point == b'.' && is_all_digits(digits) => Some(digits),
        _ => None,
    }
}

/// Whether a text is digits alone, and not empty.
fn is_all_digits(text: &[u8]) -> bool
    ensures exact { result ≡ is_fraction text.now }
{
    !text.is_empty() && leading_digits(text) == text.len()
}

/// A size with its sign.
pub(crate) fn signed(negative: bool, size: u64) -> i64
    requires fits { size ≤ CAP }
    ensures exact { result ≡ with_sign negative size }
{
    if negative {
        -(size as i64)
    } else {
        size as i64
    }
}

/// Whether the first decimal that isn't kept is a five or more.
fn rounds_up(fraction: &[u8]) -> bool
    ensures exact { IsTrue result ↔
        ((6 < length fraction.now) × (53 ≤ slice_index fraction.now 6)) }
{
    fraction.len() > KEPT && fraction[KEPT] >= b'5'
}

/// The digits at the front of a text.
fn leading_digits(text: &[u8]) -> usize
    ensures exact { result ≡ leading_digits text.now }
    ensures fits { result ≤ length text.now }
{
    for (i, c) in text.iter().enumerate() {
        if !c.is_ascii_digit() {
            return i;
        }
    }
    text.len()
}

/// The whole number that digits spell after the number that the digits before them spell, or `CAP`
/// where that is less. So texts of any length are read.
fn capped_number(before: u64, digits: &[u8]) -> u64
    requires fits { before ≤ CAP }
    requires digits { IsTrue (all_ascii_digits digits.now) }
    ensures exact { result ≡ min (digits_after before digits.now) CAP }
{
    let mut number = before;
    for digit in digits {
        number = CAP.min(10 * number + u64::from(*digit - b'0'));
    }
    number
}
