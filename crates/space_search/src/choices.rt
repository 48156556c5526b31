//! How a label was reached.

ghost use Rattle.std.specs.Prelude.{◌≡◌, ◌≤◌, ◌+◌, IfOk, length};
ghost use Rattle.space_search.specs.Books.{books, Reads, Follows};
ghost use Rattle.space_search.specs.Rules.{Rules};
ghost use Rattle.space_search.specs.View.{reached, settled_of};

use crate::label::Label;
use crate::lists::Lists;
use item_list::Items;
use std::alloc::{AllocError, Global};

/// The choices of a run to a label whose parent is settled below a place: its start's number and
/// then its steps' numbers.
pub(crate) fn choices_of<T: Copy + Drop>(
    alloc: Global,
    lists: &Lists<T>,
    label: Label<T>,
    below: u32,
) -> Result<Items<u32>, AllocError>
    requires reads { (rules : Rules T) × Reads rules (books lists.now) ×
        Follows rules (books lists.now) below label }
    ensures exact { IfOk result (λ choices.
        choices ≡ (reached (settled_of (books lists.now)) label).choices) }
    ensures short { IfOk result (λ choices. length choices ≤ below + 1) }
{
    let mut below = below;
    let mut at = label;
    let mut back: Vec<u32> = Vec::new(alloc);
    'back: while at.parent > 0 {
        back.push(at.choice)?;
        below = at.parent - 1;
        at = lists.labels[lists.settled[below as usize] as usize];
    }
    back.push(at.choice)?;
    back.reverse();
    Ok(Items::from_vec(back))
}
