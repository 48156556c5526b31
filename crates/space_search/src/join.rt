//! A newly settled label joins the front of its slot, and what it supersedes leaves that.

ghost use Rattle.std.specs.Prelude.{◌≡◌, ◌<◌, IfOk, OnOk, Some, length};
ghost use Rattle.std.specs.List.{slice_get};
ghost use Rattle.item_list.specs.Pages.{numbers_of};
ghost use Rattle.space_search.specs.Blocks.{members_of, AreFloors, HaveFloors, IsPair};
ghost use Rattle.space_search.specs.Fronts.{asked, heads_of, member_of, AreFronts, IsAsked, FitsTest, FitTest, Thins, Gains, Joins};
ghost use Rattle.space_search.specs.declared.fronts.Head.TheVariants as heads;
ghost use Rattle.space_search.specs.declared.fronts.Member.{Member};

use crate::blocks::put_into;
use crate::fronts::{Block, Fronts, Head, Member};
use crate::heads::{head_at, set_head};
use crate::label::Label;
use crate::space::Space;
use item_list::next_number;
use std::alloc::{AllocError, Global};

/// Puts a label into the front of its slot, and takes out of that what it supersedes. A space that
/// doesn't say so of a label and itself says so of none, and isn't asked further.
pub(crate) fn join<T: Copy + Drop, S: Space<State = T>>(
    space: &S,
    labels: &Vec<Label<T>>,
    fronts: &mut Fronts<T>,
    slot: usize,
    number: u32,
    label: &Label<T>,
) -> Result<(), AllocError>
    requires within { slot < length (heads_of fronts.old.heads) }
    requires fronts { AreFronts (asked labels.now.items fronts.old) }
    requires floors { AreFloors (S.rules space.now) (numbers_of fronts.old.many.items) }
    requires there { slice_get labels.now.items number ≡ Some label.now }
    requires fits { FitsTest (S.rules space.now) (member_of label.now) }
    requires each { (one : Member T) → IsAsked (asked labels.now.items fronts.old) slot one →
        FitsTest (S.rules space.now) one }
    ensures joins { OnOk result (Joins (S.rules space.now) (asked labels.now.items fronts.old)
        (asked labels.now.items fronts.new) slot (member_of label.now)) }
{
    match head_at(&fronts.heads, slot) {
        Head::Empty => set_head(&mut fronts.heads, slot, Head::One(number)),
        Head::One(other) => {
            let old = labels[other as usize];
            join_one(space, labels, fronts, slot, number, label, other, &old)
        }
        Head::Many(front) => {
            let alloc = fronts.alloc;
            join_many(
                space,
                alloc,
                &mut fronts.many[front as usize],
                &label.member(),
            )
        }
    }
}

/// Puts a label into a front that has one label.
fn join_one<T: Copy + Drop, S: Space<State = T>>(
    space: &S,
    _labels: &Vec<Label<T>>,
    fronts: &mut Fronts<T>,
    slot: usize,
    number: u32,
    label: &Label<T>,
    _other: u32,
    old: &Label<T>,
) -> Result<(), AllocError>
    requires within { slot < length (heads_of fronts.old.heads) }
    requires fronts { AreFronts (asked _labels.now.items fronts.old) }
    requires floors { AreFloors (S.rules space.now) (numbers_of fronts.old.many.items) }
    requires there { slice_get _labels.now.items number ≡ Some label.now }
    requires old { slice_get _labels.now.items _other ≡ Some old.now }
    requires head { slice_get (heads_of fronts.old.heads) slot ≡ Some (heads.One _other) }
    requires fits { FitsTest (S.rules space.now) (member_of label.now) }
    requires old_fits { FitsTest (S.rules space.now) (member_of old.now) }
    ensures joins { OnOk result (Joins (S.rules space.now) (asked _labels.now.items fronts.old)
        (asked _labels.now.items fronts.new) slot (member_of label.now)) }
{
    if space.supersedes(&label.state, label.cost, &label.state, label.cost)
        && space.supersedes(&label.state, label.cost, &old.state, old.cost)
    {
        return set_head(&mut fronts.heads, slot, Head::One(number));
    }
    let place = next_number(fronts.many.len())?;
    let front = pair(space, fronts.alloc, &old.member(), &label.member())?;
    match fronts.many.push(front) {
        Ok(()) => {}
        Err(_) => return Err(AllocError),
    }
    set_head(&mut fronts.heads, slot, Head::Many(place))
}

/// A front of two labels.
fn pair<T: Copy + Drop, S: Space<State = T>>(
    space: &S,
    alloc: Global,
    first: &Member<T>,
    second: &Member<T>,
) -> Result<Vec<Block<T>>, AllocError>
    requires first { FitsTest (S.rules space.now) first.now }
    requires second { FitsTest (S.rules space.now) second.now }
    ensures pair { IfOk result (λ front. IsPair first.now second.now (members_of front.items)) }
    ensures floors { IfOk result (λ front. HaveFloors (S.rules space.now) front.items) }
{
    let mut front: Vec<Block<T>> = Vec::new(alloc);
    put_into(space, alloc, &mut front, first)?;
    put_into(space, alloc, &mut front, second)?;
    Ok(front)
}

/// Puts a label into a front, and takes out of that what it supersedes.
fn join_many<T: Copy + Drop, S: Space<State = T>>(
    space: &S,
    alloc: Global,
    front: &mut Vec<Block<T>>,
    one: &Member<T>,
) -> Result<(), AllocError>
    requires fits { FitsTest (S.rules space.now) one.now }
    requires each { FitTest (S.rules space.now) (members_of front.old.items) }
    requires floors { HaveFloors (S.rules space.now) front.old.items }
    ensures gains { OnOk result (Gains (S.rules space.now) one.now
        (members_of front.old.items) (members_of front.new.items)) }
    ensures floors { OnOk result (HaveFloors (S.rules space.now) front.new.items) }
{
    thin_front(space, front, one);
    put_into(space, alloc, front, one)
}

/// Takes out of a front what a label supersedes, unless it doesn't supersede itself. Blocks that
/// have nothing above it are passed over.
fn thin_front<T: Copy + Drop, S: Space<State = T>>(
    space: &S,
    front: &mut Vec<Block<T>>,
    one: &Member<T>,
)
    requires fits { FitsTest (S.rules space.now) one.now }
    requires each { FitTest (S.rules space.now) (members_of front.old.items) }
    requires floors { HaveFloors (S.rules space.now) front.old.items }
    ensures thins { Thins (S.rules space.now) one.now
        (members_of front.old.items) (members_of front.new.items) }
    ensures floors { HaveFloors (S.rules space.now) front.new.items }
{
    if !space.supersedes(&one.state, one.cost, &one.state, one.cost) {
        return;
    }
    let point = space.point(&one.state, one.cost);
    let mut at = 0;
    'parts: while at < front.len() {
        if point.is_under(&front[at].high) {
            thin(space, &mut front[at].members, one);
        }
        at += 1;
    }
}

/// Takes out of a list what a label supersedes.
fn thin<T: Copy + Drop, S: Space<State = T>>(
    space: &S,
    members: &mut Vec<Member<T>>,
    one: &Member<T>,
)
    requires fits { FitsTest (S.rules space.now) one.now }
    requires each { FitTest (S.rules space.now) members.old.items }
    ensures thins { Thins (S.rules space.now) one.now members.old.items members.new.items }
{
    let mut at = 0;
    'members: while at < members.len() {
        let other = members[at];
        if space.supersedes(&one.state, one.cost, &other.state, other.cost) {
            let _gone = members.swap_remove(at);
        } else {
            at += 1;
        }
    }
}
