//! Distances in microdegrees in 1,024 steps.

ghost use Rattle.std.specs.Prelude.{◌<◌};

/// Steps from a first distance on, each a power of two of microdegrees.
#[derive(Clone, Copy)]
pub(crate) struct Scale {
    pub(crate) first: u32,
    pub(crate) shift: u32,
    ghost narrow: { shift < 32 },
}

impl Scale {
    ghost use Rattle.std.specs.Prelude.{◌≡◌, ◌<◌};
    ghost use Rattle.nogo_areas.specs.Fences.{step_of};

    /// The finest scale that has room for all of these distances. Its first step lies below
    /// them all, so that a place nearer than each of them is told apart from the nearest.
    pub(crate) fn over(distances: &[u32]) -> Scale {
        let mut first = u32::MAX;
        let mut last = 0;
        'distances: for &distance in distances {
            first = first.min(distance);
            last = last.max(distance);
        }
        let bits = 32_u32.saturating_sub(last.saturating_sub(first).leading_zeros());
        let shift = bits.saturating_sub(10).min(31);
        Scale {
            first: first.saturating_sub(1 << shift),
            shift,
        }
    }

    /// The step of a distance; those beyond the ends are the first and the last.
    #[tactic(auto, unfolding(crate::specs::Fences::step_of))]
    pub(crate) fn step(self, distance: u32) -> usize
        ensures value { result ≡ step_of self distance }
        ensures within { result < 1024 }
    {
        (distance.saturating_sub(self.first) >> self.shift).min(1023) as usize
    }
}
