//! Whether a walk may begin or end at a node.

ghost use Rattle.std.specs.Prelude.{◌≡◌, ◌<◌, ◌⊎◌, IsTrue, length};
ghost use Rattle.overpass_graph.specs.Maps.{IsMap, roads_of};
ghost use Rattle.overpass_graph.specs.Roads.{twin_of};
ghost use Rattle.nearest_node.specs.Nearest.{IsEnd};

use cost_model::OpenLinks;
use overpass_graph::{Map, twin};

/// Whether some open link leaves or reaches a node.
pub(crate) fn is_end<O: OpenLinks>(map: &Map, passages: &O, node: u32) -> bool
    requires in_range { node < length map.now.nodes }
    requires lawful { IsMap map.now }
    requires same_links { (O.opens passages.now).count ≡ length map.now.links }
    ensures found { IsTrue result → IsEnd (roads_of map.now) (O.opens passages.now).is_open node }
    ensures only { IsEnd (roads_of map.now) (O.opens passages.now).is_open node → IsTrue result }
{
    let leaving = map.out_links(node);
    'links: for place in 0..leaving.len() {
        if is_open_either_way(map, passages, leaving[place]) {
            return true;
        }
    }
    false
}

/// Whether a link or its way back is open.
fn is_open_either_way<O: OpenLinks>(map: &Map, passages: &O, link: u32) -> bool
    requires in_range { link < length map.now.links }
    requires lawful { IsMap map.now }
    requires same_links { (O.opens passages.now).count ≡ length map.now.links }
    ensures found { IsTrue result →
        IsTrue ((O.opens passages.now).is_open link) ⊎
        IsTrue ((O.opens passages.now).is_open (twin_of link)) }
    ensures there { IsTrue ((O.opens passages.now).is_open link) → IsTrue result }
    ensures back { IsTrue ((O.opens passages.now).is_open (twin_of link)) → IsTrue result }
{
    let _ = map;
    passages.is_open(link) || passages.is_open(twin(link))
}
