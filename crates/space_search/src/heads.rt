//! Where the front of each slot stands, in 4 bytes a slot.

ghost use Rattle.std.specs.Prelude.{◌≡◌, ◌<◌, IfOk, OnOk, length, get_or, replicate, set};
ghost use Rattle.space_search.specs.Fronts.{head_of, heads_of};
ghost use Rattle.space_search.specs.declared.fronts.Head.TheVariants.{Empty};

use crate::fronts::Head;
use item_list::Paged;
use std::alloc::AllocError;

/// So many numbers of labels, and one fewer places of fronts, have a head.
const NUMBERS: u32 = 1 << 31;

/// So many slots in the place of those that there were, all with an empty front.
pub(crate) fn renew_heads(heads: &mut Paged<u32>, count: usize) -> Result<(), AllocError>
    ensures value { OnOk result (heads_of heads.new ≡ replicate count Empty) }
{
    heads.renew(0, count)
}

/// Where the front of a slot stands.
#[inline(always)]
pub(crate) fn head_at(heads: &Paged<u32>, slot: usize) -> Head
    requires within { slot < length (heads_of heads.now) }
    ensures value { result ≡ get_or (heads_of heads.now) slot result }
{
    let code = heads.get(slot);
    if code == 0 {
        return Head::Empty;
    }
    unpack(code)
}

/// The head that a number other than 0 says.
fn unpack(code: u32) -> Head
    requires some { 0 < code }
    ensures value { result ≡ head_of code }
{
    let half = code / 2;
    if code % 2 == 1 {
        Head::One(half)
    } else {
        Head::Many(half - 1)
    }
}

/// Says where the front of a slot stands.
pub(crate) fn set_head(heads: &mut Paged<u32>, slot: usize, head: Head) -> Result<(), AllocError>
    requires within { slot < length (heads_of heads.old) }
    ensures value { OnOk result (heads_of heads.new ≡ set (heads_of heads.old) slot head) }
{
    heads.set(slot, pack(head)?)
}

/// The number that says a head; want of memory where there are so many labels that none does.
fn pack(head: Head) -> Result<u32, AllocError>
    ensures value { IfOk result (λ code. head_of code ≡ head) }
{
    match head {
        Head::Empty => Ok(0),
        Head::One(number) if number < NUMBERS => Ok(number * 2 + 1),
        Head::Many(place) if place < NUMBERS - 1 => Ok(place * 2 + 2),
        _ => Err(AllocError),
    }
}
