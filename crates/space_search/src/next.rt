//! What is taken next from the queue.

ghost use Rattle.std.specs.Prelude.{◌≡◌, [], MatchOption};
ghost use Rattle.space_search.specs.Books.{books, IsSearch};
ghost use Rattle.space_search.specs.Moves.{IsNext};
ghost use Rattle.space_search.specs.declared.label.Label.{Label};

use crate::lists::Lists;
use crate::space::Space;

/// The number of the label of least rank that waits; `None` where nothing waits.
pub(crate) fn next<T: Copy + Drop, S: Space<State = T>>(_space: &S, lists: &Lists<T>) -> Option<u32>
    requires kept { IsSearch (S.rules _space.now) (books lists.now) }
    ensures next { MatchOption result ((books lists.now).queue ≡ []) (λ number.
        (label : Label T) × IsNext (S.rules _space.now) (books lists.now) number label) }
{
    lists.queue.first()
}
