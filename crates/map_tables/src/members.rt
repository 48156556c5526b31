//! The members of a relation, as rows over the bytes of their words.

ghost use Rattle.std.specs.Prelude.{◌≡◌, ◌<◌, ◌≤◌, ◌++◌, length, map, slice_get, Some, IfOk, OnOk};
ghost use Rattle.map_tables.specs.Draft.{lent_member, same_member, same_members};
ghost use Rattle.map_tables.specs.Rows.{LiesWithin, LieWithin, bytes_from, member_of, row_behind};

use crate::content::{Content, Given};
use crate::member::{Member, MemberLent};
use item_list::narrow;
use std::alloc::{AllocError, Global};
use std::marker::Model;

/// A member: what it refers to, and where its type begins, its role begins and both end.
#[derive(Clone, Copy)]
pub(crate) struct MemberRow {
    pub(crate) reference: i64,
    pub(crate) start: u32,
    pub(crate) middle: u32,
    pub(crate) end: u32,
}

/// The members of a relation, in their order.
pub(crate) struct Members {
    rows: Vec<MemberRow>,
    words: Vec<u8>,
}

impl Drop for Members {
    fn drop(self) {
        let Members { rows: _, words: _ } = self;
    }
}

impl Model for Members {
    ghost use Rattle.std.specs.Prelude.{List, map};
    ghost use Rattle.map_tables.specs.declared.member.Member.{Member};

    ghost Value = { List Member };

    ghost use Rattle.map_tables.specs.Rows.{member_of, AreMembers};

    ghost view = { λ a. map (member_of a.words.items) a.rows.items };

    ghost invariant = { λ a. AreMembers a.words.items a.rows.items };
}

impl Members {
    ghost use Rattle.map_tables.specs.declared.member.Member.{Member};

    /// These members.
    pub(crate) fn new(alloc: Global, members: &[Member]) -> Result<Members, AllocError>
        ensures value { IfOk result (λ all. all ≡ members.now) }
    {
        let _few = narrow(members.len())?;
        let mut words = Vec::new(alloc);
        let rows = rows_of(alloc, &mut words, members)?;
        Ok(Members { rows, words })
    }

    /// How many there are.
    pub(crate) fn len(&self) -> u32
        ensures value { result ≡ length self.now }
    {
        self.rows.len() as u32
    }

    /// The member at a place.
    pub(crate) fn at(&self, place: u32) -> MemberLent<'_>
        requires fits { place < length self.now }
        ensures value { slice_get self.now place ≡ Some (lent_member result) }
    {
        lent(self.words.as_slice(), self.rows[place as usize])
    }
}

impl Content for Members {
    ghost use Rattle.std.specs.Prelude.{length};

    ghost same = { same_members };

    ghost size = { length };

    fn size(&self) -> usize {
        self.len() as usize
    }
}

/// The members that a relation is given with.
#[derive(Clone, Copy)]
pub(crate) struct MembersGiven<'a> {
    pub(crate) members: &'a [Member],
}

impl<'a> Given<Members> for MembersGiven<'a> {
    ghost stands = { λ given. given.members.now };

    fn is_kept_as(&self, kept: &Members) -> bool {
        are_same(kept, self.members)
    }

    fn keep(&self, alloc: Global) -> Result<Members, AllocError> {
        Members::new(alloc, self.members)
    }
}

/// The member of a row.
fn lent(words: &[u8], row: MemberRow) -> MemberLent<'_>
    requires within { LiesWithin (length words.now) row }
    ensures value { lent_member result ≡ member_of words.now row }
{
    MemberLent {
        kind: part(words, row.start, row.middle),
        reference: row.reference,
        role: part(words, row.middle, row.end),
    }
}

/// The bytes from a place to another.
fn part(bytes: &[u8], from: u32, to: u32) -> &[u8]
    requires order { from ≤ to }
    requires within { to ≤ length bytes.now }
    ensures value { result.now ≡ bytes_from bytes.now from to }
{
    &bytes[from as usize..to as usize]
}

/// Whether these are the same members in the same order.
fn are_same(members: &Members, others: &[Member]) -> bool
    ensures value { result ≡ same_members members.now others.now }
{
    if members.len() as usize != others.len() {
        return false;
    }
    'each: for i in 0..members.len() {
        if !is_same(members.at(i), &others[i as usize]) {
            return false;
        }
    }
    true
}

/// Whether this is the same member.
fn is_same(member: MemberLent, other: &Member) -> bool
    ensures value { result ≡ same_member (lent_member member.entry) other.now }
{
    let same_kind = member.kind == other.kind.as_slice();
    let same_role = member.role == other.role.as_slice();
    same_kind & ((member.reference == other.reference) & same_role)
}

/// The rows of members, whose words are put into a list.
fn rows_of(
    alloc: Global,
    words: &mut Vec<u8>,
    members: &[Member],
) -> Result<Vec<MemberRow>, AllocError>
    ensures value { IfOk result (λ rows. map (member_of words.new.items) rows.items ≡ members.now) }
    ensures within { IfOk result (λ rows. LieWithin (length words.new.items) rows.items) }
{
    let mut rows = Vec::with_capacity(alloc, members.len())?;
    'each: for member in members {
        let row = row_of(words, member)?;
        rows.push(row)?;
    }
    Ok(rows)
}

/// The row of a member, whose words are put at the end of a list.
fn row_of(words: &mut Vec<u8>, member: &Member) -> Result<MemberRow, AllocError>
    ensures value { IfOk result (λ row. row ≡ row_behind (length words.old.items) member.now) }
    ensures words { OnOk result
        (words.new.items ≡ words.old.items ++ (member.now.kind ++ member.now.role)) }
{
    let start = narrow(words.len())?;
    words.extend_from_slice(member.kind.as_slice())?;
    let middle = narrow(words.len())?;
    words.extend_from_slice(member.role.as_slice())?;
    let end = narrow(words.len())?;
    Ok(MemberRow {
        reference: member.reference,
        start,
        middle,
        end,
    })
}
