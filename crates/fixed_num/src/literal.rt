//! Number literals.
ghost use Rattle.std.specs.Prelude.{◌≡◌, ℤ, ◌↔◌, IfOk};
ghost use Rattle.fixed_num.specs.Decimal.{IsSpelled, cut_millionths, value_from};
ghost use Rattle.fixed_num.specs.Literal.{IsLiteral, literal_of};
ghost use Rattle.fixed_num.specs.Number.{IsNumber};
ghost use Rattle.fixed_num.specs.Text.{mil6};

use crate::decimal::{Parts, signed};
use crate::number::Num;

/// Why a text is no number.
#[derive(Clone, Copy)]
pub enum NumError {
    /// The text isn't an optional `-`, digits, and an optional point with digits.
    NotNumber,
    /// The number is beyond 10^9 either way, after what is beyond the sixth decimal was cut.
    TooLarge,
}

impl Num {
    /// The number of a literal: an optional `-`, digits, and an optional point with digits, cut
    /// after the sixth decimal.
    pub fn read(text: &[u8]) -> Result<Num, NumError>
        ensures exact { result ≡ literal_of text.now }
        ensures found { IfOk result (λ n. IsLiteral text.now n × IsNumber n) }
        ensures only { (n : ℤ) → IsLiteral text.now n → IsNumber n → result ≡ Ok n }
        // The text that is printed of a number is read as that number.
        ensures reread { (n : ℤ) → IsNumber n → text.now ≡ mil6 n → result ≡ Ok n }

        ensures not_number { (result ≡ Err NumError.NotNumber) ↔ ¬ IsSpelled text.now }
        ensures too_large { (result ≡ Err NumError.TooLarge)
            ↔ ((n : ℤ) × IsLiteral text.now n × ¬ IsNumber n) }
    {
        literal(text)
    }
}

/// The number of a literal.
fn literal(text: &[u8]) -> Result<Num, NumError>
    ensures exact { result ≡ literal_of text.now }
{
    match Parts::of(text) {
        None => Err(NumError::NotNumber),
        Some(parts) => number_of(&parts),
    }
}

/// The number of a literal's parts.
fn number_of(parts: &Parts) -> Result<Num, NumError>
    ensures exact { result
        ≡ value_from cut_millionths 1000000000000000 NumError.NotNumber NumError.TooLarge
        (Some parts.now) }
{
    match Num::of(signed(parts.is_negative(), parts.cut())) {
        Some(number) => Ok(number),
        None => Err(NumError::TooLarge),
    }
}
