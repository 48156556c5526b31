//! What climbing costs, by the seven global values of a profile.

ghost use Rattle.std.specs.Prelude.{◌≡◌, ◌<◌, ◌≤◌, ◌≤ℤ◌, ℕ, pos, position, unsigned_abs};
ghost use Rattle.cost_model.specs.Facts.{IsCost};
ghost use Rattle.cost_model.specs.Prices.{IsPrices, IsRate, IsSlope, is_negative, prices_of, rates_of, slope_of, value_at, whole_of};

use elev_buffer::Limits;
use fixed_num::Num;
use std::marker::Model;

/// Why global values give no rates.
#[derive(Clone, Copy)]
pub enum RateError {
    /// The first negative value, by its place among the seven.
    NegativeRate { which: u32 },
    /// The most that a buffer keeps is below the penalty buffer.
    BufferOrder { penalty: i64, most: i64 },
}

/// The rates of a profile. Contracts see them as `Prices`.
#[derive(Clone, Copy)]
pub struct Rates {
    pub(crate) down_rate: i64,
    pub(crate) up_rate: i64,
    pub(crate) down_cutoff: i64,
    pub(crate) up_cutoff: i64,
    pub(crate) reduction: i64,
    pub(crate) limits: Limits,
}

impl Model for Rates {
    ghost use Rattle.cost_model.specs.Prices.{IsPrices, Prices};

    ghost Value = { Prices };

    ghost view = { λ r. record {
      down_rate = r.down_rate;
      up_rate = r.up_rate;
      down_cutoff = r.down_cutoff;
      up_cutoff = r.up_cutoff;
      reduction = r.reduction;
      limits = r.limits;
    } };

    ghost invariant = { λ r. IsPrices (record {
      down_rate = r.down_rate;
      up_rate = r.up_rate;
      down_cutoff = r.down_cutoff;
      up_cutoff = r.up_cutoff;
      reduction = r.reduction;
      limits = r.limits;
    }) };

    ghost inverse = { λ p. record {
      down_rate = p.down_rate;
      up_rate = p.up_rate;
      down_cutoff = p.down_cutoff;
      up_cutoff = p.up_cutoff;
      reduction = p.reduction;
      limits = p.limits;
    } };
}

impl Rates {
    /// The rates of the global values `uphillcost`, `downhillcost`, `uphillcutoff`,
    /// `downhillcutoff`, `elevationpenaltybuffer`, `elevationmaxbuffer` and
    /// `elevationbufferreduce`.
    pub fn new(globals: &[Num; 7]) -> Result<Rates, RateError>
        ensures exact { result ≡ rates_of globals.now }
    {
        if let Some(which) = first_negative(globals) {
            return Err(RateError::NegativeRate {
                which: which as u32,
            });
        }
        let penalty = value(globals, 4);
        let most = value(globals, 5);
        if most < penalty {
            return Err(RateError::BufferOrder { penalty, most });
        }
        Ok(Rates::of_values(globals))
    }

    /// The rates of values that none refuses.
    #[tactic(auto, unfolding(crate::specs::Prices::prices_of))]
    fn of_values(globals: &[Num; 7]) -> Rates
        requires positive { (place : ℕ) → pos 0 ≤ℤ value_at globals.now place }
        requires order { value_at globals.now 4 ≤ℤ value_at globals.now 5 }
        ensures exact { result ≡ prices_of globals.now }
    {
        Rates {
            down_rate: whole(value(globals, 1)),
            up_rate: whole(value(globals, 0)),
            down_cutoff: slope(value(globals, 3)),
            up_cutoff: slope(value(globals, 2)),
            reduction: slope(value(globals, 6)),
            limits: Limits {
                penalty: value(globals, 4),
                most: value(globals, 5),
            },
        }
    }

    /// The price of a micrometre of descent in millionths.
    pub fn down_rate(&self) -> i64
        ensures value { result ≡ self.now.down_rate }
        ensures lawful { IsPrices self.now }
    {
        self.down_rate
    }

    /// The price of a micrometre of climb in millionths.
    pub fn up_rate(&self) -> i64
        ensures value { result ≡ self.now.up_rate }
    {
        self.up_rate
    }

    /// The most that a buffer keeps in micrometres.
    pub fn most(&self) -> i64
        ensures value { result ≡ self.now.limits.most }
    {
        self.limits.most
    }
}

/// The place of the first value below 0.
fn first_negative(globals: &[Num]) -> Option<usize>
    ensures exact { result ≡ position is_negative globals.now }
{
    globals.iter().position(|value| value.millionths() < 0)
}

/// A global value in millionths.
fn value(globals: &[Num; 7], place: usize) -> i64
    requires within { place < 7 }
    ensures exact { result ≡ value_at globals.now place }
    ensures fits { unsigned_abs result ≤ 1000000000000000 }
{
    globals[place].millionths()
}

/// The whole part of a value in millionths.
fn whole(millionths: i64) -> i64
    requires cost { IsCost millionths }
    ensures exact { result ≡ whole_of millionths }
    ensures rate { IsRate result }
{
    millionths.div_euclid(1_000_000)
}

/// A slope in percent, given in millionths, as micrometres for a metre.
fn slope(millionths: i64) -> i64
    requires cost { IsCost millionths }
    ensures exact { result ≡ slope_of millionths }
    ensures slope { IsSlope result }
{
    millionths.div_euclid(100)
}
