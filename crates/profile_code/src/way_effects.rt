//! What the way section's names with an effect come to.
ghost use Rattle.std.specs.Prelude.{◌≡◌, pos, unwrap_or};

use crate::effects::number_at;
use fixed_num::Num;
use profile_text::Names;

/// What a way comes to.
#[derive(Clone, Copy)]
pub struct WayValues {
    pub costfactor: Num,
    pub turncost: Num,
    pub initialcost: Num,
    pub initialclassifier: Num,
    pub nodeaccessgranted: Num,
    pub uphillcostfactor: Num,
    pub downhillcostfactor: Num,
}

/// Where the way section assigns these names last.
#[derive(Clone, Copy)]
pub(crate) struct WayPlaces {
    pub(crate) costfactor: Option<u32>,
    pub(crate) turncost: Option<u32>,
    pub(crate) initialcost: Option<u32>,
    pub(crate) initialclassifier: Option<u32>,
    pub(crate) nodeaccessgranted: Option<u32>,
    pub(crate) uphillcostfactor: Option<u32>,
    pub(crate) downhillcostfactor: Option<u32>,
}

impl WayPlaces {
    ghost use Rattle.profile_code.specs.Effects.{value_at, way_places};

    /// Where these names are last.
    pub(crate) fn of(names: &Names) -> WayPlaces
        ensures exact { result ≡ way_places names.now }
    {
        WayPlaces {
            costfactor: names.last(b"costfactor"),
            turncost: names.last(b"turncost"),
            initialcost: names.last(b"initialcost"),
            initialclassifier: names.last(b"initialclassifier"),
            nodeaccessgranted: names.last(b"nodeaccessgranted"),
            uphillcostfactor: names.last(b"uphillcostfactor"),
            downhillcostfactor: names.last(b"downhillcostfactor"),
        }
    }

    /// What a way with these values comes to.
    pub(crate) fn numbers(&self, values: &[Num]) -> WayValues
        ensures exact { let at = value_at values.now in
            result
            ≡ record {
              costfactor = unwrap_or (at self.now.costfactor) (pos 0);
              turncost = unwrap_or (at self.now.turncost) (pos 0);
              initialcost = unwrap_or (at self.now.initialcost) (pos 0);
              initialclassifier = unwrap_or (at self.now.initialclassifier) (pos 0);
              nodeaccessgranted = unwrap_or (at self.now.nodeaccessgranted) (pos 0);
              uphillcostfactor = unwrap_or (at self.now.uphillcostfactor) (pos 0);
              downhillcostfactor = unwrap_or (at self.now.downhillcostfactor) (pos 0);
            } }
    {
        WayValues {
            costfactor: number_at(values, self.costfactor, 0),
            turncost: number_at(values, self.turncost, 0),
            initialcost: number_at(values, self.initialcost, 0),
            initialclassifier: number_at(values, self.initialclassifier, 0),
            nodeaccessgranted: number_at(values, self.nodeaccessgranted, 0),
            uphillcostfactor: number_at(values, self.uphillcostfactor, 0),
            downhillcostfactor: number_at(values, self.downhillcostfactor, 0),
        }
    }
}
