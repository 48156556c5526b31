//! The blocks of a front: labels that lie near each other stand together, so that the covering test
//! can pass over most of a long front.

ghost use Rattle.std.specs.Prelude.{◌≡◌, ◌<◌, [], ◌∷◌, ◌++◌, IfOk, OnOk, length};
ghost use Rattle.space_search.specs.Blocks.{members_of, Adds, HaveFloors, IsFloor, IsSame, Splits};
ghost use Rattle.space_search.specs.Fronts.{FitTest, FitsTest};

use crate::fronts::{Block, Member};
use crate::point::Point;
use crate::space::Space;
use std::alloc::{AllocError, Global};

/// A block is divided when it has so many labels, or a multiple of that.
const MANY: usize = 64;

/// Puts a label into the block of a front to which it is nearest.
pub(crate) fn put_into<T: Copy + Drop, S: Space<State = T>>(
    space: &S,
    alloc: Global,
    front: &mut Vec<Block<T>>,
    one: &Member<T>,
) -> Result<(), AllocError>
    requires fits { FitsTest (S.rules space.now) one.now }
    requires each { FitTest (S.rules space.now) (members_of front.old.items) }
    requires floors { HaveFloors (S.rules space.now) front.old.items }
    ensures adds { OnOk result
        (Adds one.now (members_of front.old.items) (members_of front.new.items)) }
    ensures floors { OnOk result (HaveFloors (S.rules space.now) front.new.items) }
{
    let at = nearest(front, &space.point(&one.state, one.cost));
    if at < front.len() {
        enter(space, alloc, front, at, one)
    } else {
        begin(space, alloc, front, one)
    }
}

/// The number of the block whose lower point is nearest to a point. Which block a label joins
/// decides on the time of a test alone.
fn nearest<T: Copy + Drop>(front: &Vec<Block<T>>, point: &Point) -> usize
    ensures within { 0 < length front.now.items → result < length front.now.items }
{
    let mut best = 0;
    let mut least = u128::MAX;
    'parts: for at in 0..front.len() {
        let distance = front[at].low.distance(point);
        if distance < least {
            best = at;
            least = distance;
        }
    }
    best
}

/// Puts a label into this block of a front, and divides the block where it has many.
fn enter<T: Copy + Drop, S: Space<State = T>>(
    space: &S,
    alloc: Global,
    front: &mut Vec<Block<T>>,
    at: usize,
    one: &Member<T>,
) -> Result<(), AllocError>
    requires within { at < length front.old.items }
    requires fits { FitsTest (S.rules space.now) one.now }
    requires each { FitTest (S.rules space.now) (members_of front.old.items) }
    requires floors { HaveFloors (S.rules space.now) front.old.items }
    ensures adds { OnOk result
        (Adds one.now (members_of front.old.items) (members_of front.new.items)) }
    ensures floors { OnOk result (HaveFloors (S.rules space.now) front.new.items) }
{
    let count = front[at].members.len() + 1;
    add_to(space, &mut front[at], one)?;
    if count % MANY == 0 {
        return divide(space, alloc, front, at);
    }
    Ok(())
}

/// Puts a label behind a front as a block of its own.
fn begin<T: Copy + Drop, S: Space<State = T>>(
    space: &S,
    alloc: Global,
    front: &mut Vec<Block<T>>,
    one: &Member<T>,
) -> Result<(), AllocError>
    requires fits { FitsTest (S.rules space.now) one.now }
    requires floors { HaveFloors (S.rules space.now) front.old.items }
    ensures adds { OnOk result
        (Adds one.now (members_of front.old.items) (members_of front.new.items)) }
    ensures floors { OnOk result (HaveFloors (S.rules space.now) front.new.items) }
{
    let mut block = Block::new(alloc);
    add_to(space, &mut block, one)?;
    push_block(front, block)
}

/// Puts a label into a block.
fn add_to<T: Copy + Drop, S: Space<State = T>>(
    space: &S,
    block: &mut Block<T>,
    one: &Member<T>,
) -> Result<(), AllocError>
    requires fits { FitsTest (S.rules space.now) one.now }
    requires floor { IsFloor (S.rules space.now) block.old.low block.old.members.items }
    ensures adds { OnOk result
        (block.new.members.items ≡ block.old.members.items ++ one.now ∷ []) }
    ensures floor { OnOk result
        (IsFloor (S.rules space.now) block.new.low block.new.members.items) }
{
    let point = space.point(&one.state, one.cost);
    block.low = block.low.least(&point);
    block.high = block.high.greatest(&point);
    match block.members.push(*one) {
        Ok(()) => Ok(()),
        Err(_) => Err(AllocError),
    }
}

/// Divides a block of a front in two.
fn divide<T: Copy + Drop, S: Space<State = T>>(
    space: &S,
    alloc: Global,
    front: &mut Vec<Block<T>>,
    at: usize,
) -> Result<(), AllocError>
    requires within { at < length front.old.items }
    requires each { FitTest (S.rules space.now) (members_of front.old.items) }
    requires floors { HaveFloors (S.rules space.now) front.old.items }
    ensures same { OnOk result (IsSame (members_of front.old.items) (members_of front.new.items)) }
    ensures floors { OnOk result (HaveFloors (S.rules space.now) front.new.items) }
{
    let (near, far) = halves(space, alloc, &front[at])?;
    front[at] = near;
    push_block(front, far)
}

/// The labels of a block in two blocks, by where they lie in the number in which they lie farthest
/// apart.
fn halves<T: Copy + Drop, S: Space<State = T>>(
    space: &S,
    alloc: Global,
    block: &Block<T>,
) -> Result<(Block<T>, Block<T>), AllocError>
    requires each { FitTest (S.rules space.now) block.now.members.items }
    ensures splits { IfOk result (λ both.
        Splits block.now.members.items both.0.members.items both.1.members.items) }
    ensures floors { IfOk result (λ both.
        IsFloor (S.rules space.now) both.0.low both.0.members.items
        × IsFloor (S.rules space.now) both.1.low both.1.members.items) }
{
    let mut near = Block::new(alloc);
    let mut far = Block::new(alloc);
    'members: for one in block.members.as_slice() {
        let point = space.point(&one.state, one.cost);
        if point.is_near(&block.low, &block.high) {
            add_to(space, &mut near, one)?;
        } else {
            add_to(space, &mut far, one)?;
        }
    }
    Ok((near, far))
}

/// Puts a block behind a front.
fn push_block<T: Copy + Drop>(front: &mut Vec<Block<T>>, block: Block<T>) -> Result<(), AllocError>
    ensures value { OnOk result (front.new.items ≡ front.old.items ++ block ∷ []) }
{
    match front.push(block) {
        Ok(()) => Ok(()),
        Err(_) => Err(AllocError),
    }
}
