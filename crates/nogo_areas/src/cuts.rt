//! Which links of a map no-go circles cut.

ghost use Rattle.std.specs.Prelude.{◌≡◌, IfOk};
ghost use Rattle.nogo_areas.specs.Cuts.{cut_of};

use crate::circle::Circle;
use crate::cutting::Cutting;
use overpass_graph::Map;
use std::alloc::{AllocError, Global};

/// For each link of the map, in their order, whether some circle touches the straight way between
/// its ends.
pub fn cut(alloc: Global, map: &Map, circles: &[Circle]) -> Result<Vec<bool>, AllocError>
    ensures exact { IfOk result (λ cut. cut.items ≡ cut_of map.now circles.now) }
{
    let mut cutting = Cutting::new(alloc, circles)?;
    cutting.more(map, circles, map.links())?;
    Ok(cutting.into_cut())
}
