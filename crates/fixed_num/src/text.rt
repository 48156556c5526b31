//! The text of a count of millionths.
ghost use Rattle.std.specs.Prelude.{◌≡◌, ℕ, ◌+◌, ◌-◌, ◌*◌, ◌/◌, ◌%◌, ◌^◌, ◌<◌, ◌≤◌, List, [], ◌∷◌, ◌++◌, length, take, drop};
ghost use Rattle.std.specs.Fmt.{decimal};
ghost use Rattle.fixed_num.specs.Text.{last_digits, mil6};

use std::marker::Model;

/// The most bytes of a text: a sign, 39 digits, a point and six decimals, and one to spare.
const ROOM: usize = 48;

/// The text of a count of millionths: `-` where it is negative, the whole number, a point and
/// exactly six decimals. It is at most 47 bytes long, and takes no memory.
///
/// Contracts see it as the list of its bytes.
#[derive(Drop)]
pub struct SixDecimals {
    bytes: [u8; ROOM],
    start: usize,
}

impl Model for SixDecimals {
    ghost use Rattle.std.specs.Prelude.{ℕ, List, drop, ◌≤◌};

    ghost Value = { List ℕ };

    ghost view = { λ s. drop s.start s.bytes };

    ghost invariant = { λ s. s.start ≤ 48 };
}

impl SixDecimals {
    /// The text of so many millionths.
    pub fn of(millionths: i128) -> SixDecimals
        ensures value { result ≡ mil6 millionths }
        ensures fits { length result ≤ 47 }
    {
        let mut text = SixDecimals::unsigned(millionths.unsigned_abs());
        if millionths < 0 {
            text.prepend(b'-');
        }
        text
    }

    /// Its bytes.
    pub fn as_slice(&self) -> &[u8]
        ensures value { result.now ≡ self.now }
    {
        &self.bytes[self.start..]
    }

    /// The text without a sign.
    fn unsigned(size: u128) -> SixDecimals
        ensures value { result ≡ decimal (size / 1000000) ++ 46 ∷ last_digits 6 (size % 1000000) }
        ensures fits { length result ≤ 46 }
    {
        let mut text = SixDecimals::empty();
        text.prepend_fraction((size % 1_000_000) as u32);
        text.prepend(b'.');
        text.prepend_number(size / 1_000_000);
        text
    }

    /// No text yet.
    fn empty() -> SixDecimals
        ensures value { result ≡ [] }
    {
        SixDecimals {
            bytes: [0; ROOM],
            start: ROOM,
        }
    }

    /// Puts a byte in front.
    fn prepend(&mut self, byte: u8)
        requires room { length self.old < 48 }
        ensures value { self.new ≡ byte ∷ self.old }
    {
        self.start -= 1;
        self.bytes[self.start] = byte;
    }

    /// Puts the six digits of a number below a million in front.
    fn prepend_fraction(&mut self, fraction: u32)
        requires room { length self.old + 6 ≤ 48 }
        ensures value { self.new ≡ last_digits 6 fraction ++ self.old }
    {
        let mut rest = fraction;
        for _ in 0..6_usize {
            self.prepend(b'0' + (rest % 10) as u8);
            rest /= 10;
        }
    }

    /// Puts the digits of a number in front.
    ///
    /// Most numbers fit 64 bits, whose division is far faster than that of 128.
    fn prepend_number(&mut self, number: u128)
        requires room { length self.old + 39 ≤ 48 }
        ensures value { self.new ≡ decimal number ++ self.old }
    {
        let mut rest = number;
        while rest > u128::from(u64::MAX) {
            self.prepend(b'0' + (rest % 10) as u8);
            rest /= 10;
        }
        self.prepend_small(rest as u64);
    }

    /// The same for a number of 64 bits.
    fn prepend_small(&mut self, number: u64)
        requires room { length self.old + length (decimal number) ≤ 48 }
        ensures value { self.new ≡ decimal number ++ self.old }
    {
        let mut rest = number;
        while rest >= 10 {
            self.prepend(b'0' + (rest % 10) as u8);
            rest /= 10;
        }
        self.prepend(b'0' + rest as u8);
    }
}

/// Appends the text of so many millionths to the first `at` bytes of `out`, and returns where it
/// ends. It takes no memory.
pub fn append_mil6(out: &mut [u8], at: usize, millionths: i128) -> usize
    requires room { at + 47 ≤ length out.old }
    ensures exact { result ≡ at + length (mil6 millionths) }
    ensures value { take result out.new ≡ take at out.old ++ mil6 millionths }
    ensures kept { drop result out.new ≡ drop result out.old }
{
    let text = SixDecimals::of(millionths);
    let bytes = text.as_slice();
    let end = at + bytes.len();
    out[at..end].copy_from_slice(bytes);
    end
}
