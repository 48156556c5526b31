//! Places on the globe in whole numbers: arrows between them, turns, circles, and the texts of
//! lengths and heights.
#![tactic(auto)]

mod arrows;
mod circles;
mod cosines;
mod offsets;
mod roots;
mod spots;
mod texts;
mod turns;

pub use arrows::arrow;
pub use circles::touches;
pub use cosines::cos_lat;
pub use offsets::Arrow;
pub use roots::floor_root;
pub use spots::Spot;
pub use texts::{ele, mm3};
pub use turns::turn_cos;
