//! The waypoints between which costs are asked for, by their numbers, and their nodes.

ghost use Rattle.std.specs.Prelude.{◌≡◌, IfOk, length};
ghost use Rattle.route_engine.specs.Numbers.{chosen, nodes_at, numbers_below};
ghost use Rattle.route_http.specs.Numbers.{AreBelow};

use item_list::Items;
use std::alloc::{AllocError, Global};

/// The numbers that are named; where none is, all below a count.
pub(crate) fn chosen(alloc: Global, named: &[u64], count: usize) -> Result<Items<u64>, AllocError>
    ensures exact { IfOk result (λ numbers. numbers ≡ chosen named.now count) }
{
    if named.is_empty() {
        return numbers_below(alloc, count);
    }
    let numbers = Vec::from_slice(alloc, named)?;
    Ok(Items::from_vec(numbers))
}

/// The numbers below a count, in their order.
fn numbers_below(alloc: Global, count: usize) -> Result<Items<u64>, AllocError>
    ensures exact { IfOk result (λ numbers. numbers ≡ numbers_below count) }
{
    let mut numbers = Vec::new(alloc);
    'numbers: for number in 0..count {
        numbers.push(number as u64)?;
    }
    Ok(Items::from_vec(numbers))
}

/// The nodes of waypoints that are named by their numbers.
pub(crate) fn nodes_at(
    alloc: Global,
    nodes: &[u32],
    numbers: &[u64],
) -> Result<Vec<u32>, AllocError>
    requires below { AreBelow (length nodes.now) numbers.now }
    ensures exact { IfOk result (λ named. named.items ≡ nodes_at nodes.now numbers.now) }
{
    let mut named = Vec::new(alloc);
    'numbers: for number in numbers {
        named.push(nodes[*number as usize])?;
    }
    Ok(named)
}
