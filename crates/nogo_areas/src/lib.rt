//! No-go circles: which links of a map they cut.
#![tactic(auto)]

mod circle;
mod cuts;
mod cutting;
mod fences;
mod masks;
mod scale;
mod sides;
mod touch;

pub use circle::Circle;
pub use cuts::cut;
pub use cutting::Cutting;
