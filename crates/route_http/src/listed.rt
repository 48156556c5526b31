//! Values that are lists of items, which a mark parts.
ghost use Rattle.std.specs.Prelude.{◌≡◌, ℕ, List, Option, map, option_map};
ghost use Rattle.item_list.specs.Answer.{Answers};
ghost use Rattle.route_http.specs.declared.error.RequestError.TheVariants.{NoMemory};
ghost use Rattle.route_http.specs.List.{one_more, items_of, parts_of};

use crate::error::RequestError;
use crate::key::Key;
use crate::parts::at_mark;
use item_list::Items;

/// An item of a value whose items a mark parts.
pub(crate) trait Listed: Copy {
    /// What a contract sees of items.
    ghost Seen: { Type 0 };

    /// What it sees of an item.
    ghost seen: { Self → Seen };

    /// The item that a text is.
    ghost read: { List ℕ → Option Seen };

    /// The item that a text is.
    fn of_text(text: &[u8]) -> Option<Self>
        ensures exact { option_map seen result ≡ read text.now };
}

/// Puts the items of a text at the end, which this mark parts, of a value under this key that holds
/// so many at most.
pub(crate) fn fill<T: Listed>(
    items: &mut Items<T>,
    text: &[u8],
    mark: u8,
    key: Key,
    most: usize,
) -> Result<(), RequestError>
    ensures exact { let all =
        items_of T.read key most (map T.seen items.old) (parts_of mark text.now) in
        Answers (λ _. map T.seen items.new) all NoMemory result }
{
    let mut rest = text;
    'items: loop {
        let (part, after) = at_mark(rest, mark);
        take(items, part, key, most)?;
        if after.is_empty() {
            return Ok(());
        }
        let (_, next) = after.split_at(1);
        rest = next;
    }
}

/// Puts the item of a text at the end.
fn take<T: Listed>(
    items: &mut Items<T>,
    text: &[u8],
    key: Key,
    most: usize,
) -> Result<(), RequestError>
    ensures exact { let more = one_more key most (map T.seen items.old) (T.read text.now) in
        Answers (λ _. map T.seen items.new) more NoMemory result }
{
    let Some(item) = T::of_text(text) else {
        return Err(RequestError::BadValue { key });
    };
    if items.len() >= most {
        return Err(RequestError::TooMany { key });
    }
    items.push(item)?;
    Ok(())
}
