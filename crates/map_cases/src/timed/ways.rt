//! The ways that are run on.

/// How many tags a way has: the direction, the road, its direction, bicycles, a junction and a
/// cycle route.
pub(crate) const TAGS: u32 = 6;

/// How many ways there are.
pub(crate) const WAYS: usize = 64;

/// The number of a tag with two listed values that is not set, or set to one of them.
fn one_of_two(number: u16) -> u16 {
    match number % 3 {
        0 => 0,
        1 => 2,
        _ => 3,
    }
}

/// The number of a tag with one listed value that is not set, or set to it.
fn one(number: u16) -> u16 {
    number % 2 * 2
}

/// The tag numbers of the way of a number, in the order of the table.
fn way(number: u16) -> [u16; 6] {
    [
        one(number / 2),
        number % 6,
        one_of_two(number / 6),
        one_of_two(number / 18),
        one(number / 8),
        one(number / 32),
    ]
}

/// The tag numbers of all ways.
pub(crate) fn ways() -> [[u16; 6]; WAYS] {
    let mut ways = [[0; 6]; WAYS];
    for number in 0..WAYS {
        ways[number] = way(number as u16);
    }
    ways
}
