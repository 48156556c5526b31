//! The links of a map, judged by no-go circles some at a time.

ghost use Rattle.std.specs.Prelude.{◌≡◌, ◌+◌, ◌-◌, ◌<◌, ◌≤◌, IfOk, List, length};
ghost use Rattle.overpass_graph.specs.Maps.{IsMap, MapValue};
ghost use Rattle.nogo_areas.specs.Cuts.{cut_of, is_cut};
ghost use Rattle.nogo_areas.specs.Cuttings.{IsCutting, judged};
ghost use Rattle.nogo_areas.specs.Fences.{AreFences};
ghost use Rattle.nogo_areas.specs.declared.circle.Circle.{Circle as CircleValue};

use crate::circle::Circle;
use crate::touch::Fences;
use overpass_graph::Map;
use std::alloc::{AllocError, Global};

/// The links of a map, of which the first ones are judged by no-go circles. It is made over the
/// circles alone; each call is lent the same map and the same circles.
pub struct Cutting {
    pub(crate) fences: Fences,
    /// Whether each of the first links is cut.
    pub(crate) cut: Vec<bool>,
    /// Whether the link that was judged last is cut.
    pub(crate) last: bool,
}

impl Drop for Cutting {
    fn drop(self) {
        let Cutting {
            fences: _,
            cut: _,
            last: _,
        } = self;
    }
}

impl Cutting {
    /// No link is judged yet. This takes the time of 1,024 steps on four sides for each circle,
    /// whatever the map.
    pub fn new(alloc: Global, circles: &[Circle]) -> Result<Cutting, AllocError>
        ensures over { IfOk result (λ cutting. (roads : MapValue) →
            IsCutting roads circles.now cutting) }
        ensures fresh { IfOk result (λ cutting. judged cutting ≡ 0) }
    {
        let fences = Fences::new(alloc, circles)?;
        Ok(Cutting {
            fences,
            cut: Vec::new(alloc),
            last: false,
        })
    }

    /// How many links of the map are still to be judged.
    pub fn left(&self, map: &Map) -> u32
        requires within { judged self.now ≤ length map.now.links }
        ensures value { result ≡ length map.now.links - judged self.now }
    {
        map.links() - self.cut.len() as u32
    }

    /// Judges so many links more. What is judged stays so after an error too.
    pub fn more(&mut self, map: &Map, circles: &[Circle], links: u32) -> Result<(), AllocError>
        requires over { IsCutting map.now circles.now self.old }
        requires there { judged self.old + links ≤ length map.now.links }
        ensures over { IsCutting map.now circles.now self.new }
        ensures judged { IfOk result (λ _. judged self.new ≡ judged self.old + links) }
    {
        let first = map.links() - self.left(map);
        'links: for link in first..first + links {
            self.judge(map, circles, link)?;
        }
        Ok(())
    }

    /// Judges the next link.
    fn judge(&mut self, map: &Map, circles: &[Circle], link: u32) -> Result<(), AllocError>
        requires lawful { IsMap map.now }
        requires over { IsCutting map.now circles.now self.old }
        requires next { link ≡ judged self.old }
        requires there { link < length map.now.links }
        ensures over { IsCutting map.now circles.now self.new }
        ensures judged { IfOk result (λ _. judged self.new ≡ judged self.old + 1) }
    {
        let last = if link % 2 == 0 {
            is_link_cut(map, link, &self.fences, circles)
        } else {
            self.last
        };
        self.cut.push(last)?;
        self.last = last;
        Ok(())
    }

    /// For each link that is judged, in their order, whether it is cut.
    pub fn into_cut(self) -> Vec<bool>
        ensures exact { (roads : MapValue) (circles : List CircleValue) →
            IsCutting roads circles self → judged self ≡ length roads.links →
            result.items ≡ cut_of roads circles }
    {
        let Cutting {
            fences: _,
            cut,
            last: _,
        } = self;
        cut
    }
}

/// Whether some circle touches the straight way between the ends of a link.
fn is_link_cut(map: &Map, link: u32, fences: &Fences, circles: &[Circle]) -> bool
    requires in_range { link < length map.now.links }
    requires lawful { IsMap map.now }
    requires sound { AreFences circles.now fences.now }
    ensures exact { result ≡ is_cut map.now circles.now link }
{
    let found = map.link(link);
    fences.touch(circles, map.node_spot(found.from), map.node_spot(found.to))
}
