//! The number of a name with an effect.
ghost use Rattle.std.specs.Prelude.{◌≡◌, unwrap_or};
ghost use Rattle.fixed_num.specs.Number.{IsNumber};
ghost use Rattle.profile_code.specs.Effects.{value_at};

use fixed_num::Num;

/// The number of a name that is assigned last at a place, or its default of so many millionths.
pub(crate) fn number_at(values: &[Num], place: Option<u32>, default: i64) -> Num
    requires fits { IsNumber default }
    ensures exact { result ≡ unwrap_or (value_at values.now place) default }
{
    value_at(values, place).unwrap_or(Num::of(default).unwrap())
}

/// The value at a place, if there is one.
pub(crate) fn value_at(values: &[Num], place: Option<u32>) -> Option<Num>
    ensures exact { result ≡ value_at values.now place }
{
    values.get(place? as usize).copied()
}
