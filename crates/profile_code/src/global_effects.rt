//! What the global section's names with an effect come to.
ghost use Rattle.std.specs.Prelude.{◌≡◌, pos, unwrap_or, ◌∷◌, []};

use crate::effects::number_at;
use fixed_num::Num;
use profile_text::Names;

/// Where the global section assigns these names last.
#[derive(Clone, Copy)]
pub(crate) struct GlobalPlaces {
    pub(crate) uphillcost: Option<u32>,
    pub(crate) downhillcost: Option<u32>,
    pub(crate) uphillcutoff: Option<u32>,
    pub(crate) downhillcutoff: Option<u32>,
    pub(crate) elevationpenaltybuffer: Option<u32>,
    pub(crate) elevationmaxbuffer: Option<u32>,
    pub(crate) elevationbufferreduce: Option<u32>,
}

impl GlobalPlaces {
    ghost use Rattle.profile_code.specs.Effects.{global_places, value_at};

    /// Where these names are last.
    pub(crate) fn of(names: &Names) -> GlobalPlaces
        ensures exact { result ≡ global_places names.now }
    {
        GlobalPlaces {
            uphillcost: names.last(b"uphillcost"),
            downhillcost: names.last(b"downhillcost"),
            uphillcutoff: names.last(b"uphillcutoff"),
            downhillcutoff: names.last(b"downhillcutoff"),
            elevationpenaltybuffer: names.last(b"elevationpenaltybuffer"),
            elevationmaxbuffer: names.last(b"elevationmaxbuffer"),
            elevationbufferreduce: names.last(b"elevationbufferreduce"),
        }
    }

    /// What these names come to where the section has these values, in their order.
    pub(crate) fn numbers(&self, values: &[Num]) -> [Num; 7]
        ensures exact { let at = value_at values.now in
            result
            ≡ unwrap_or (at self.now.uphillcost) (pos 0)
            ∷ unwrap_or (at self.now.downhillcost) (pos 0)
            ∷ unwrap_or (at self.now.uphillcutoff) (pos 0)
            ∷ unwrap_or (at self.now.downhillcutoff) (pos 0)
            ∷ unwrap_or (at self.now.elevationpenaltybuffer) (pos 5000000)
            ∷ unwrap_or (at self.now.elevationmaxbuffer) (pos 10000000)
            ∷ unwrap_or (at self.now.elevationbufferreduce) (pos 0)
            ∷ [] }
    {
        [
            number_at(values, self.uphillcost, 0),
            number_at(values, self.downhillcost, 0),
            number_at(values, self.uphillcutoff, 0),
            number_at(values, self.downhillcutoff, 0),
            number_at(values, self.elevationpenaltybuffer, 5_000_000),
            number_at(values, self.elevationmaxbuffer, 10_000_000),
            number_at(values, self.elevationbufferreduce, 0),
        ]
    }
}
