//! Links 2i and 2i + 1 are each other's way back.

ghost use Rattle.std.specs.Prelude.{◌≡◌};
ghost use Rattle.overpass_graph.specs.Roads.{twin_of};

/// The way back of a link.
pub fn twin(link: u32) -> u32
    ensures value { result ≡ twin_of link }
{
    if link % 2 == 0 { link + 1 } else { link - 1 }
}
