//! A search offers all starts before it takes its first label.

ghost use Rattle.std.specs.Prelude.{◌≡◌, OnOk};
ghost use Rattle.space_search.specs.Books.{books, IsFresh, Leaves};
ghost use Rattle.space_search.specs.Moves.{Begins};

use crate::heads::renew_heads;
use crate::label::Label;
use crate::lists::Lists;
use crate::offer::offer;
use crate::space::Space;
use std::alloc::AllocError;

/// Offers what the starts give.
pub(crate) fn begin<T: Copy + Drop, S: Space<State = T>>(
    space: &S,
    bounds: &mut S::Bounds,
    lists: &mut Lists<T>,
) -> Result<(), AllocError>
    requires bounds { S.AreBounds space.now bounds.old }
    requires fresh { IsFresh (books lists.old) }
    ensures begins { OnOk result (Begins (S.rules space.now) (books lists.new)) }
    ensures leaves { Leaves (S.rules space.now) (books lists.old) (books lists.new) }
    ensures settled { (books lists.new).settled ≡ (books lists.old).settled }
    ensures bounds { S.AreBounds space.now bounds.new }
{
    renew_heads(&mut lists.fronts.heads, space.slots() as usize)?;
    'starts: for choice in 0..space.starts() {
        if let Some(found) = space.start(choice) {
            let (state, cost) = found;
            let reached = Label {
                cost,
                state,
                parent: 0,
                choice,
            };
            offer(space, bounds, lists, reached)?;
        }
    }
    Ok(())
}
