//! Why a text is no map.

ghost use Rattle.std.specs.Prelude.{◌≡◌};
ghost use Rattle.map_tables.specs.declared.error.MapError.TheVariants.{NoMemory};

use std::alloc::AllocError;

/// The kinds of elements that a map has.
#[derive(Clone, Copy, Drop)]
pub enum ElementKind {
    /// A place that ways go through.
    Node,
    /// A list of nodes.
    Way,
    /// A list of members with roles.
    Relation,
}

/// What a map has too many of.
#[derive(Clone, Copy, Drop)]
pub enum MapCount {
    /// Nodes.
    Nodes,
    /// Ways.
    Ways,
    /// Pieces of ways between two nodes that follow each other.
    Segments,
    /// Members of relations.
    Members,
}

/// The first fault of a map's text. Those of one element are tried in the order in which they stand
/// here.
#[derive(Clone, Copy, Drop)]
pub enum MapError {
    /// No JSON text begins with the first `at` bytes and the next one.
    NotJson { at: u64 },
    /// The element at this place, from 1, isn't of the form that its type asks for; 0 for the text
    /// as a whole.
    Shape { place: u64 },
    /// The latitude or the longitude of the node isn't a coordinate's text, or is out of range.
    BadCoordinate { id: i64 },
    /// The element was given before with other coordinates, other nodes or other members.
    DoubleId { kind: ElementKind, id: i64 },
    /// There are too many.
    TooLarge { what: MapCount },
    /// The way goes through a node that the text doesn't have.
    MissingNode { way: i64, node: i64 },
    /// Memory ran out.
    NoMemory,
}

impl From<AllocError> for MapError {
    ghost from_gives = { λ _ e. e ≡ NoMemory };

    fn from(_error: AllocError) -> MapError {
        MapError::NoMemory
    }
}
