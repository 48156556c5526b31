//! The fixed-point number and its arithmetic.
ghost use Rattle.std.specs.Prelude.{◌≡◌, ◌≢◌, pos, ◌+ℤ◌, ◌-ℤ◌, ◌*ℤ◌, ◌↔◌, int_div, IsSome, IfSome};
ghost use Rattle.std.specs.Int.{int_max, int_min};
ghost use Rattle.fixed_num.specs.Arithmetic.{within_range, sum_of, difference_of, product_of, quotient_of};
ghost use Rattle.fixed_num.specs.Number.{IsNumber};

use crate::arithmetic::Arith;
use item_list::TryClone;
use std::alloc::{AllocError, Global};
use std::marker::Model;

/// The greatest count of millionths, 10^15, which stands for 10^9.
const MOST: i64 = 1_000_000_000_000_000;

/// The millionths of 1.
const ONE: i64 = 1_000_000;

/// A number as a whole count of millionths, from -10^15 to 10^15.
///
/// Contracts see it as that count. It can be a key of a map, and be cloned with its list.
#[derive(Clone, Copy, PartialEq, Eq, Hash)]
pub struct Num {
    millionths: i64,
}

impl Model for Num {
    ghost use Rattle.std.specs.Prelude.{ℤ};
    ghost use Rattle.fixed_num.specs.Number.{IsNumber};

    ghost Value = { ℤ };

    ghost view = { λ n. n.millionths };

    ghost invariant = { λ n. IsNumber n.millionths };

    ghost inverse = { λ n. record { millionths = n } };
}

impl TryClone for Num {
    fn try_clone(&self, _alloc: Global) -> Result<Num, AllocError> {
        Ok(*self)
    }
}

impl Num {
    /// The number of so many millionths.
    pub fn of(millionths: i64) -> Option<Num>
        ensures found { IsSome result ↔ IsNumber millionths }
        ensures value { IfSome result (λ n. n ≡ millionths) }
    {
        if -MOST <= millionths && millionths <= MOST {
            Some(Num { millionths })
        } else {
            None
        }
    }

    /// How many millionths it is.
    pub fn millionths(self) -> i64
        ensures value { result ≡ self }
        ensures fits { IsNumber result }
    {
        self.millionths
    }

    /// The sum.
    #[tactic(auto, unfolding(crate::specs::Arithmetic::sum_of))]
    pub fn add(self, other: Num) -> Result<Num, Arith>
        ensures exact { result ≡ sum_of self other }

        ensures refused { (result ≡ Err Arith.TooLarge)
            ↔ ¬ IsNumber (self +ℤ other) }
        ensures only { result ≢ Err Arith.DivZero }
    {
        fitted(i128::from(self.millionths + other.millionths))
    }

    /// The difference.
    #[tactic(auto, unfolding(crate::specs::Arithmetic::difference_of))]
    pub fn sub(self, other: Num) -> Result<Num, Arith>
        ensures exact { result ≡ difference_of self other }

        ensures refused { (result ≡ Err Arith.TooLarge)
            ↔ ¬ IsNumber (self -ℤ other) }
        ensures only { result ≢ Err Arith.DivZero }
    {
        fitted(i128::from(self.millionths - other.millionths))
    }

    /// The product, cut toward zero to a whole millionth.
    #[tactic(auto, unfolding(crate::specs::Arithmetic::product_of))]
    pub fn mul(self, other: Num) -> Result<Num, Arith>
        ensures exact { result ≡ product_of self other }

        ensures refused { (result ≡ Err Arith.TooLarge)
            ↔ ¬ IsNumber (int_div (self *ℤ other) (pos 1000000)) }
        ensures only { result ≢ Err Arith.DivZero }
    {
        fitted(cut_ratio(self.millionths, other.millionths, ONE))
    }

    /// The quotient, cut toward zero to a whole millionth.
    #[tactic(auto, unfolding(crate::specs::Arithmetic::quotient_of))]
    pub fn div(self, other: Num) -> Result<Num, Arith>
        ensures exact { result ≡ quotient_of self other }

        ensures div_zero { (result ≡ Err Arith.DivZero) ↔ (other ≡ pos 0) }
        ensures refused { other ≢ pos 0
            → ((result ≡ Err Arith.TooLarge) ↔ ¬ IsNumber (int_div (self *ℤ pos 1000000) other)) }
    {
        if other.millionths == 0 {
            Err(Arith::DivZero)
        } else {
            fitted(cut_ratio(self.millionths, ONE, other.millionths))
        }
    }

    /// The greater of the two.
    pub fn max(self, other: Num) -> Num
        ensures exact { result ≡ int_max self other }
    {
        if other.millionths < self.millionths {
            self
        } else {
            other
        }
    }

    /// The lesser of the two.
    pub fn min(self, other: Num) -> Num
        ensures exact { result ≡ int_min self other }
    {
        if other.millionths < self.millionths {
            other
        } else {
            self
        }
    }
}

/// `a * b / divisor`, cut toward zero.
///
/// Nearly always the product fits 64 bits, whose division is far faster than that of 128.
fn cut_ratio(a: i64, b: i64, divisor: i64) -> i128
    requires first { IsNumber a }
    requires second { IsNumber b }
    requires nonzero { divisor ≢ pos 0 }
    ensures exact { result ≡ int_div (a *ℤ b) divisor }
{
    match a.checked_mul(b) {
        Some(product) if product > i64::MIN => i128::from(product / divisor),
        _ => i128::from(a) * i128::from(b) / i128::from(divisor),
    }
}

/// The number of so many millionths, or `TooLarge`.
fn fitted(millionths: i128) -> Result<Num, Arith>
    ensures exact { result ≡ within_range millionths }
{
    if i128::from(-MOST) <= millionths && millionths <= i128::from(MOST) {
        Ok(Num {
            millionths: millionths as i64,
        })
    } else {
        Err(Arith::TooLarge)
    }
}
