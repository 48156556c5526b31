//! The height between four samples.

ghost use Rattle.std.specs.Prelude.{◌≡◌, ◌<◌, ◌≤◌, ◌*◌, ◌+◌, unsigned_abs, IfSome, ℕ};
ghost use Rattle.std.specs.Ordering.{int_eq};
ghost use Rattle.hgt_tiles.specs.Relief.{void};
ghost use Rattle.hgt_tiles.specs.Height.{mix, between, height_around, has_void};

/// The four samples around a place in metres, and the shares of the way to the east and to the
/// north in millionths.
#[derive(Clone, Copy)]
pub(crate) struct Cell {
    pub(crate) south_west: i16,
    pub(crate) south_east: i16,
    pub(crate) north_west: i16,
    pub(crate) north_east: i16,
    pub(crate) east: u32,
    pub(crate) north: u32,
}

/// The height in micrometres, none where one of the samples is void, even where its weight is 0.
pub(crate) fn height_between(cell: Cell) -> Option<i64>
    requires east { cell.east < 1000000 }
    requires north { cell.north < 1000000 }
    ensures exact { result ≡ height_around cell }
    ensures within { IfSome result (λ height. unsigned_abs height ≤ 32768000000) }
{
    if is_void(cell) {
        return None;
    }
    let south = mixed(cell.east, cell.south_west as i64, cell.south_east as i64);
    let north = mixed(cell.east, cell.north_west as i64, cell.north_east as i64);
    Some(mixed(cell.north, south, north).div_euclid(1_000_000))
}

/// Whether one of the four is void.
fn is_void(cell: Cell) -> bool
    ensures exact { result ≡ has_void cell }
{
    is_unknown(cell.south_west)
        || is_unknown(cell.south_east)
        || is_unknown(cell.north_west)
        || is_unknown(cell.north_east)
}

/// Whether a sample says that no height is known.
fn is_unknown(sample: i16) -> bool
    ensures exact { result ≡ int_eq sample void }
{
    sample == i16::MIN
}

/// A million times the number between two, by a share in millionths.
fn mixed(share: u32, first: i64, second: i64) -> i64
    requires share { share < 1000000 }
    requires first { unsigned_abs first ≤ 32768000000 }
    requires second { unsigned_abs second ≤ 32768000000 }
    ensures exact { result ≡ mix share first second }
    ensures within { (most : ℕ) → unsigned_abs first ≤ most → unsigned_abs second ≤ most →
        unsigned_abs result ≤ 1000000 * most }
{
    (1_000_000 - share) as i64 * first + share as i64 * second
}
