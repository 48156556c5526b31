//! Grids that a number makes, their segments, the search space of their cells, their maps and their
//! tiles.
#![tactic(auto)]

mod grid;
mod least;
mod lengths;
mod map_text;
mod plan;
mod put;
mod segment;
mod space;
mod tile;
mod walk;

pub use grid::Grid;
pub use least::{GridWalk, least_walk, shortest_walk};
pub use lengths::segment_lengths;
pub use segment::GridSegment;
pub use space::GridSpace;
pub use tile::hgt_bytes;
