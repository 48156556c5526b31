//! The map of a grid as a text, made part by part.

ghost use Rattle.std.specs.Prelude.{◌≡◌, ◌+◌, ◌*◌, ◌<◌, ◌≤◌, ◌++◌, [], IfOk, length, get_or, vec_len, vec_capacity};
ghost use Rattle.grid_map.specs.declared.plan.Plan.{Plan};
ghost use Rattle.grid_map.specs.Plan.{cells_of};
ghost use Rattle.grid_map.specs.Segments.{segment_of};
ghost use Rattle.grid_map.specs.MapText.{class_name, front_of, last_part, node_part, node_text, overpass_text, parts_of, text_from, way_part, way_text};

use crate::grid::Grid;
use crate::put::{put, put_degrees, put_number};
use crate::segment::GridSegment;
use std::alloc::{AllocError, Global};

/// The most bytes of an element with what stands before it.
const MOST_PART: usize = 200;

/// The room that `append_parts` asks for.
const ROOM: usize = 65_536;

impl Grid {
    /// The whole text.
    pub fn overpass_text(&self, alloc: Global) -> Result<Vec<u8>, AllocError>
        ensures exact { IfOk result (λ text. text.items ≡ overpass_text self.now) }
    {
        let mut text = Vec::new(alloc);
        let mut piece = Vec::with_capacity(alloc, ROOM)?;
        let mut next = 0;
        'parts: while next < self.map_parts() {
            piece.clear();
            next = self.append_parts(next, &mut piece);
            text.extend_from_slice(piece.as_slice())?;
        }
        Ok(text)
    }

    /// How many parts the text has: an element for each cell and for each segment, and its end.
    pub fn map_parts(&self) -> u32
        ensures exact { result ≡ length (parts_of self.now) }
    {
        self.cells() + self.segments() + 1
    }

    /// Appends parts from this one on, as many as the first 65,536 bytes have room for, and gives
    /// the number of the next part. It takes no memory.
    pub fn append_parts(&self, from: u32, piece: &mut Vec<u8>) -> u32
        requires within { from ≤ length (parts_of self.now) }
        requires room { vec_len piece.old + 65536 ≤ vec_capacity piece.old }
        ensures value { piece.new.items ++ text_from self.now result ≡ piece.old.items ++
            text_from self.now from }
        ensures within { result ≤ length (parts_of self.now) }
        ensures some { from < length (parts_of self.now) → from < result }
        ensures kept { vec_capacity piece.old ≤ vec_capacity piece.new }
    {
        let parts = self.map_parts();
        let limit = piece.len() + (ROOM - MOST_PART);
        let mut next = from;
        'parts: while next < parts && piece.len() <= limit {
            self.append_part(next, piece);
            next += 1;
        }
        next
    }

    /// Appends a part.
    fn append_part(&self, part: u32, piece: &mut Vec<u8>)
        requires within { part < length (parts_of self.now) }
        requires room { vec_len piece.old + 200 ≤ vec_capacity piece.old }
        ensures value { piece.new.items ≡ piece.old.items ++ get_or (parts_of self.now) part [] }
        ensures fits { vec_len piece.new ≤ vec_len piece.old + 200 }
        ensures kept { vec_capacity piece.old ≤ vec_capacity piece.new }
    {
        let cells = self.cells();
        if part < cells {
            self.append_node(part, piece);
        } else if part - cells < self.segments() {
            append_way(&self.segment(part - cells), piece);
        } else {
            append_end(piece);
        }
    }

    /// Appends the element of a cell with what stands before it.
    #[tactic(auto, unfolding(crate::specs::MapText::node_part, crate::specs::MapText::node_text))]
    fn append_node(&self, cell: u32, piece: &mut Vec<u8>)
        requires within { cell < cells_of self.now }
        requires few { cell < 1000000 }
        requires room { vec_len piece.old + 200 ≤ vec_capacity piece.old }
        ensures value { piece.new.items ≡ piece.old.items ++ node_part self.now cell }
        ensures fits { vec_len piece.new ≤ vec_len piece.old + 200 }
        ensures kept { vec_capacity piece.old ≤ vec_capacity piece.new }
    {
        put(piece, front_of(cell));
        put(piece, b"{\"type\":\"node\",\"id\":");
        put_number(piece, cell + 1);
        put(piece, b",\"lat\":");
        put_degrees(piece, 1000 * (cell / self.width()));
        put(piece, b",\"lon\":");
        put_degrees(piece, 1000 * (cell % self.width()));
        put(piece, b"}");
    }
}

/// What stands before the element of a cell.
#[tactic(auto, unfolding(crate::specs::MapText::front_of))]
fn front_of(cell: u32) -> &'static [u8]
    ensures exact { result.now ≡ front_of cell }
    ensures fits { length result.now ≤ 14 }
{
    if cell == 0 {
        b"{\"elements\":[\n"
    } else {
        b",\n"
    }
}

/// Appends the element of a segment behind the end of the line before it.
#[tactic(auto, unfolding(crate::specs::MapText::way_part, crate::specs::MapText::way_text))]
fn append_way(segment: &GridSegment, piece: &mut Vec<u8>)
    requires a { segment.now.a < 1000000 }
    requires b { segment.now.b < 1000000 }
    requires k { segment.now.k < 4000000 }
    requires room { vec_len piece.old + 200 ≤ vec_capacity piece.old }
    ensures value { (plan : Plan) → segment.now ≡ segment_of plan segment.now.k →
        piece.new.items ≡ piece.old.items ++ way_part plan segment.now.k }
    ensures fits { vec_len piece.new ≤ vec_len piece.old + 200 }
    ensures kept { vec_capacity piece.old ≤ vec_capacity piece.new }
{
    put(piece, b",\n{\"type\":\"way\",\"id\":");
    put_number(piece, segment.k + 1);
    put(piece, b",\"nodes\":[");
    put_number(piece, segment.a + 1);
    put(piece, b",");
    put_number(piece, segment.b + 1);
    put(piece, b"],\"tags\":{\"highway\":\"");
    put(piece, class_name(segment.class));
    put(piece, b"\"}}");
}

/// The name of a class of segments.
#[tactic(auto, unfolding(crate::specs::MapText::class_name))]
fn class_name(class: u8) -> &'static [u8]
    ensures exact { result.now ≡ class_name class }
    ensures fits { length result.now ≤ 11 }
{
    match class {
        0 => b"residential",
        1 => b"primary",
        2 => b"track",
        _ => b"cycleway",
    }
}

/// Appends the end of the text.
#[tactic(auto, unfolding(crate::specs::MapText::last_part))]
fn append_end(piece: &mut Vec<u8>)
    requires room { vec_len piece.old + 200 ≤ vec_capacity piece.old }
    ensures value { piece.new.items ≡ piece.old.items ++ last_part }
    ensures fits { vec_len piece.new ≤ vec_len piece.old + 200 }
    ensures kept { vec_capacity piece.old ≤ vec_capacity piece.new }
{
    put(piece, b"\n]}\n");
}
