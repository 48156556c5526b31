//! Cases of replies: a track as GeoJSON and as lines.

mod answers;
mod showable;
mod tracks;

pub(crate) use answers::answer;

/// The calls of this part.
pub(crate) const CALLS: [&str; 2] = ["geojson", "csv"];
