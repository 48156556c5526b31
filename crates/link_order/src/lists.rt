//! Lists of numbers that may be read and set at any place.

ghost use Rattle.std.specs.Prelude.{◌≡◌, IfOk, get_or, replicate, set};
ghost use Rattle.link_order.specs.Orders.{AreAscending};

use std::alloc::{AllocError, Global};

/// No number.
pub(crate) const NONE: u32 = u32::MAX;

/// What stands at a place, or `rest` behind the end.
#[inline(always)]
pub(crate) fn at<T: Copy>(list: &[T], place: u32, rest: T) -> T
    ensures value { result ≡ get_or list.now place rest }
{
    match list.get(place as usize) {
        Some(item) => *item,
        None => rest,
    }
}

/// Sets what stands at a place; nothing behind the end.
#[inline(always)]
pub(crate) fn put<T: Copy>(list: &mut [T], place: u32, item: T)
    ensures value { list.new ≡ set list.old place item }
{
    if (place as usize) < list.len() {
        list[place as usize] = item;
    }
}

/// So many times an item.
pub(crate) fn filled<T: Copy + Drop>(
    alloc: Global,
    item: T,
    count: u32,
) -> Result<Vec<T>, AllocError>
    ensures value { IfOk result (λ made. made.items ≡ replicate count item) }
{
    let mut made: Vec<T> = Vec::with_capacity(alloc, count as usize)?;
    'places: for place in 0..count {
        let _ = place;
        made.push(item)?;
    }
    Ok(made)
}

/// The numbers below a count, ascending.
pub(crate) fn ascending(alloc: Global, count: u32) -> Result<Vec<u32>, AllocError>
    ensures value { IfOk result (λ made. AreAscending count made.items) }
{
    let mut made: Vec<u32> = Vec::with_capacity(alloc, count as usize)?;
    'numbers: for number in 0..count {
        made.push(number)?;
    }
    Ok(made)
}
