//! Relations of the tables, by their places, and their members.

ghost use Rattle.std.specs.Prelude.{◌≡◌, ◌<◌, length};
ghost use Rattle.map_tables.specs.Kept.{HoldsAt};
ghost use Rattle.map_tables.specs.Draft.{HasMember, HoldsAtMember, lent_member};

use crate::member::MemberLent;
use crate::tables::Tables;
use item_list::Tags;

impl Tables {
    /// How many relations there are.
    pub fn relations(&self) -> u32
        ensures value { result ≡ length self.now.draft.relations }
    {
        self.relations.len()
    }

    /// The id of a relation.
    pub fn relation_id(&self, relation: u32) -> i64
        requires fits { relation < length self.now.draft.relations }
        ensures value { HoldsAt self.now.draft.relations relation (λ k. result ≡ k.id) }
    {
        self.relations.id(relation)
    }

    /// The tags of a relation.
    pub fn relation_tags(&self, relation: u32) -> &Tags
        requires fits { relation < length self.now.draft.relations }
        ensures value { HoldsAt self.now.draft.relations relation (λ k. result.now ≡ k.tags) }
    {
        self.relations.tags(relation)
    }

    /// How many members a relation has.
    pub fn members(&self, relation: u32) -> u32
        requires fits { relation < length self.now.draft.relations }
        ensures value { HoldsAt self.now.draft.relations relation (λ k. result ≡ length k.content) }
    {
        self.relations.content(relation).len()
    }

    /// A member of a relation.
    pub fn member(&self, relation: u32, member: u32) -> MemberLent<'_>
        requires fits { relation < length self.now.draft.relations }
        requires among { HasMember self.now.draft.relations relation member }
        ensures value { HoldsAtMember self.now.draft.relations relation member
            (λ m. lent_member result ≡ m) }
    {
        self.relations.content(relation).at(member)
    }
}
