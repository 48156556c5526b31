//! A finding goes on in each width.

ghost use Rattle.std.specs.Prelude.{◌≡◌, ◌<◌, ◌≤◌, IfOk, None, length};
ghost use Rattle.item_list.specs.Turns.{Says};
ghost use Rattle.least_sums.specs.Findings.{FindsOn, IsFoundBy};
ghost use Rattle.least_sums.specs.States.{IsOpen, state_of};
ghost use Rattle.least_sums.specs.declared.amount.TheConstants.{NARROW_FAR, WIDE_FAR};
ghost use Rattle.overpass_graph.specs.Maps.{roads_of};

use crate::board::Board;
use crate::ending::{begun, narrow_end, wide_end};
use crate::finding::{Boards, Course, Finding};
use crate::prices::LinkPrices;
use crate::sums::Sums;
use crate::taking::{Taken, take, take_all};
use item_list::Turn;
use overpass_graph::Map;
use std::alloc::{AllocError, Global};

/// A step in 64 bits. Where some sum doesn't fit them, all are found anew in 128.
pub(crate) fn step_narrow<P: LinkPrices>(
    alloc: Global,
    map: &Map,
    prices: &P,
    board: Board<u64>,
    course: Course,
) -> Result<Turn<Finding, Sums>, AllocError>
    requires in_range { course.target < length map.now.nodes }
    requires priced { length map.now.links ≤ (P.priced prices.now).count }
    requires state { IsOpen (roads_of map.now) (P.priced prices.now).price course.target
        NARROW_FAR (state_of (λ n. n) board) }
    requires some { 1 ≤ course.left }
    ensures steps { IfOk result (Says (FindsOn (roads_of map.now) (P.priced prices.now).price course)
        (IsFoundBy (roads_of map.now) (P.priced prices.now).price course)) }
{
    let mut board = board;
    let left = course.left - 1;
    let taken = take(map, prices, course.target, &mut board, course.near)?;
    let radius = match taken {
        Taken::More(near) => return Ok(Turn::More(Finding {
            boards: Boards::Narrow(board),
            course: Course {
                target: course.target,
                near,
                left,
            },
        })),
        Taken::Ended(radius) => radius,
    };
    if let Some(sums) = narrow_end(board, radius) {
        return Ok(Turn::Done(sums));
    }
    let board = begun(alloc, map, course.target)?;
    Ok(Turn::More(Finding {
        boards: Boards::Wide(board),
        course: Course {
            target: course.target,
            near: None,
            left,
        },
    }))
}

/// A step in 128 bits.
pub(crate) fn step_wide<P: LinkPrices>(
    map: &Map,
    prices: &P,
    board: Board<u128>,
    course: Course,
) -> Result<Turn<Finding, Sums>, AllocError>
    requires in_range { course.target < length map.now.nodes }
    requires priced { length map.now.links ≤ (P.priced prices.now).count }
    requires state { IsOpen (roads_of map.now) (P.priced prices.now).price course.target
        WIDE_FAR (state_of (λ n. n) board) }
    requires all { course.near ≡ None }
    requires some { 1 ≤ course.left }
    ensures steps { IfOk result (Says (FindsOn (roads_of map.now) (P.priced prices.now).price course)
        (IsFoundBy (roads_of map.now) (P.priced prices.now).price course)) }
{
    let mut board = board;
    match take(map, prices, course.target, &mut board, course.near)? {
        Taken::More(near) => Ok(Turn::More(Finding {
            boards: Boards::Wide(board),
            course: Course {
                target: course.target,
                near,
                left: course.left - 1,
            },
        })),
        Taken::Ended(_) => Ok(Turn::Done(wide_end(board))),
    }
}

/// All that is left in 64 bits, and where some sum doesn't fit them all anew in 128.
pub(crate) fn finish_narrow<P: LinkPrices>(
    alloc: Global,
    map: &Map,
    prices: &P,
    board: Board<u64>,
    course: Course,
) -> Result<Sums, AllocError>
    requires in_range { course.target < length map.now.nodes }
    requires priced { length map.now.links ≤ (P.priced prices.now).count }
    requires state { IsOpen (roads_of map.now) (P.priced prices.now).price course.target
        NARROW_FAR (state_of (λ n. n) board) }
    ensures found { IfOk result (IsFoundBy (roads_of map.now) (P.priced prices.now).price course) }
{
    let mut board = board;
    let radius = take_all(map, prices, course.target, &mut board, course.near)?;
    if let Some(sums) = narrow_end(board, radius) {
        return Ok(sums);
    }
    let board = begun(alloc, map, course.target)?;
    finish_wide(map, prices, board, course)
}

/// All that is left in 128 bits, of all nodes.
pub(crate) fn finish_wide<P: LinkPrices>(
    map: &Map,
    prices: &P,
    board: Board<u128>,
    course: Course,
) -> Result<Sums, AllocError>
    requires in_range { course.target < length map.now.nodes }
    requires priced { length map.now.links ≤ (P.priced prices.now).count }
    requires state { IsOpen (roads_of map.now) (P.priced prices.now).price course.target
        WIDE_FAR (state_of (λ n. n) board) }
    ensures found { IfOk result (IsFoundBy (roads_of map.now) (P.priced prices.now).price course) }
{
    let mut board = board;
    take_all(map, prices, course.target, &mut board, None)?;
    Ok(wide_end(board))
}
