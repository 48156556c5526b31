//! Circles that a walk may not touch.
ghost use Rattle.item_list.specs.Answer.{Answers};
ghost use Rattle.route_http.specs.declared.error.RequestError.TheVariants.{NoMemory};
ghost use Rattle.route_http.specs.Seen.{circles_seen};
ghost use Rattle.route_http.specs.Value.{circles_of};

use crate::error::RequestError;
use crate::key::Key;
use crate::listed::{Listed, fill};
use crate::parts::at_comma;
use crate::spots::spot_by;
use crate::value::radius_of;
use item_list::Items;
use nogo_areas::Circle;
use std::alloc::Global;

/// The most circles.
const MOST_CIRCLES: usize = 64;

/// The circles of a value.
pub(crate) fn circles_of(alloc: Global, value: &[u8]) -> Result<Items<Circle>, RequestError>
    ensures exact { Answers circles_seen (circles_of value.now) NoMemory result }
{
    let mut circles = Items::new(alloc);
    if value.is_empty() {
        return Ok(circles);
    }
    fill(&mut circles, value, b'|', Key::Nogos, MOST_CIRCLES)?;
    Ok(circles)
}

impl Listed for Circle {
    ghost use Rattle.std.specs.Prelude.{ℕ};
    ghost use Rattle.geo_int.specs.Place.{Place};
    ghost use Rattle.route_http.specs.Seen.{circle_seen};
    ghost use Rattle.route_http.specs.Value.{circle_of_text};

    ghost Seen = { Place × ℕ };

    ghost seen = { circle_seen };

    ghost read = { circle_of_text };

    /// The circle of a text `lon,lat,radius`.
    fn of_text(text: &[u8]) -> Option<Circle> {
        let (lon, rest) = at_comma(text);
        let (lat, radius) = at_comma(rest);
        let centre = spot_by(lon, lat)?;
        let radius = radius_of(radius)?;
        Some(Circle { centre, radius })
    }
}
