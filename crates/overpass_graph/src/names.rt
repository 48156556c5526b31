//! Links by their names.

ghost use Rattle.std.specs.Prelude.{◌≡◌};
ghost use Rattle.overpass_graph.specs.Links.{link_weight, weight_of};
ghost use Rattle.overpass_graph.specs.Names.{AreInOrder, FindsWeight, IsPlaceOf};

use crate::link::Link;
use crate::pairs::Links;

/// The weight of a way, a segment and a direction, by which links are in order.
fn weight(way: u32, segment: u32, back: bool) -> u128
    ensures value { result ≡ weight_of way segment back }
{
    let direction: u128 = if back { 1 } else { 0 };
    u128::from(way) * 8_589_934_592 + u128::from(segment) * 2 + direction
}

/// The weight of a link.
fn link_weight(link: &Link) -> u128
    ensures value { result ≡ link_weight link.now }
{
    weight(link.way, link.segment, link.back)
}

/// How many links weigh less.
fn place_of(links: &Links, wanted: u128) -> u32
    requires rising { AreInOrder links.now.links }
    ensures exact { IsPlaceOf links.now.links wanted result }
{
    let mut low = 0;
    let mut high = links.len();
    'halving: while low < high {
        let middle = low + (high - low) / 2;
        if link_weight(&links.link(middle)) < wanted {
            low = middle + 1;
        } else {
            high = middle;
        }
    }
    low
}

/// The link of a way, a segment and a direction.
pub(crate) fn find(links: &Links, way: u32, segment: u32, back: bool) -> Option<u32>
    requires rising { AreInOrder links.now.links }
    ensures exact { FindsWeight links.now.links (weight_of way segment back) result }
{
    let wanted = weight(way, segment, back);
    let place = place_of(links, wanted);
    if place < links.len() && link_weight(&links.link(place)) == wanted {
        Some(place)
    } else {
        None
    }
}
