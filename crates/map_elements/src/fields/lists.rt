//! Arrays of whole numbers, and of members of relations.
ghost use Rattle.std.specs.Prelude.{◌≡◌, IfOk};
ghost use Rattle.map_elements.specs.Entries.{values_of};
ghost use Rattle.map_elements.specs.Fields.{whole_numbers_of, whole_list_of, member_of, members_from, member_list_of};

use crate::fields::names::name_of;
use crate::steps::entries::Entries;
use crate::steps::part::Part;
use item_list::Items;
use map_tables::Member;
use std::alloc::{AllocError, Global};

impl<'a> Part<'a> {
    /// The whole numbers of the array that the value is.
    pub(crate) fn whole_list(&self, alloc: Global) -> Result<Option<Items<i64>>, AllocError>
        ensures exact { IfOk result (λ numbers. numbers ≡ whole_list_of self.now) }
    {
        match self.items() {
            None => Ok(None),
            Some(items) => whole_numbers(alloc, items),
        }
    }

    /// The members of a relation in the array that the value is.
    pub(crate) fn member_list(&self, alloc: Global) -> Result<Option<Items<Member>>, AllocError>
        ensures exact { IfOk result (λ members. members ≡ member_list_of self.now) }
    {
        match self.items() {
            None => Ok(None),
            Some(items) => relation_members(alloc, items),
        }
    }

    /// The member of a relation that the value stands for.
    fn relation_member(&self, alloc: Global) -> Result<Option<Member>, AllocError>
        ensures exact { IfOk result (λ member. member ≡ member_of self.now) }
    {
        let Some(entries) = self.members() else {
            return Ok(None);
        };
        let Some(kind) = entries.text_at(b"type") else {
            return Ok(None);
        };
        let Some(reference) = entries.whole_at(b"ref") else {
            return Ok(None);
        };
        let Some(role) = entries.text_at(b"role") else {
            return Ok(None);
        };
        let kind = name_of(alloc, kind)?;
        let role = name_of(alloc, role)?;
        Ok(Some(Member {
            kind,
            reference,
            role,
        }))
    }
}

/// The whole numbers of items.
fn whole_numbers(alloc: Global, items: Entries) -> Result<Option<Items<i64>>, AllocError>
    ensures exact { IfOk result
        (λ numbers. numbers ≡ whole_numbers_of (values_of items.entry)) }
{
    let mut left = items;
    let mut numbers = Items::new(alloc);
    'items: while let Some(value) = left.next_value() {
        let Some(number) = value.whole_number() else {
            return Ok(None);
        };
        numbers.push(number)?;
    }
    Ok(Some(numbers))
}

/// The members of a relation that items stand for.
fn relation_members(alloc: Global, items: Entries) -> Result<Option<Items<Member>>, AllocError>
    ensures exact { IfOk result (λ members. members ≡ members_from (values_of items.entry)) }
{
    let mut left = items;
    let mut members = Items::new(alloc);
    'items: while let Some(item) = left.next() {
        let Some(member) = item.value().relation_member(alloc)? else {
            return Ok(None);
        };
        members.push(member)?;
    }
    Ok(Some(members))
}
