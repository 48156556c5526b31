//! The elements so far, each id of a kind once, within limits.

ghost use Rattle.std.specs.Prelude.{◌≡◌, ◌<◌, length, slice_set, IfErr, OnOk};
ghost use Rattle.geo_int.specs.Spot.{place_of};
ghost use Rattle.map_tables.specs.Kept.{with_tag, HoldsAt};
ghost use Rattle.map_tables.specs.Draft.{HasDistinctIds, IsWithin, beyond_members, beyond_nodes, beyond_ways, empty, fault_unless, take_node, take_relation, take_way, with_ways};
ghost use Rattle.map_tables.specs.Held.{Takes};
ghost use Rattle.map_tables.specs.declared.error.MapError.TheVariants as error_;

use crate::content::{At, WayNodes, segments_of};
use crate::error::{ElementKind, MapCount, MapError};
use crate::limits::Limits;
use crate::member::Member;
use crate::members::{Members, MembersGiven};
use crate::table::{Table, are_within};
use geo_int::Spot;
use item_list::{Items, Name, Tags};
use std::alloc::Global;
use std::marker::Model;

/// The nodes, ways and relations so far, kept in the order in which their ids came first.
pub struct Tables {
    alloc: Global,
    pub(crate) limits: Limits,
    pub(crate) nodes: Table<At>,
    pub(crate) ways: Table<Items<i64>>,
    pub(crate) relations: Table<Members>,
}

impl Drop for Tables {
    fn drop(self) {
        let Tables {
            alloc: _,
            limits: _,
            nodes: _,
            ways: _,
            relations: _,
        } = self;
    }
}

impl Model for Tables {
    ghost use Rattle.map_tables.specs.Draft.{IsWithin};
    ghost use Rattle.map_tables.specs.Held.{Held};

    ghost Value = { Held };

    ghost view = { λ t. record {
      limits = t.limits;
      draft = record { nodes = t.nodes; ways = t.ways; relations = t.relations };
    } };

    ghost invariant = { λ t.
        IsWithin t.limits (record { nodes = t.nodes; ways = t.ways; relations = t.relations }) };
}

impl Tables {
    /// No elements, of which there may be so many.
    pub fn new(alloc: Global, limits: Limits) -> Tables
        ensures value { result ≡ record { limits = limits; draft = empty } }
    {
        Tables {
            alloc,
            limits,
            nodes: Table::new(alloc),
            ways: Table::new(alloc),
            relations: Table::new(alloc),
        }
    }

    /// How many elements there may be.
    pub fn limits(&self) -> Limits
        ensures value { result ≡ self.now.limits }
        ensures within { IsWithin self.now.limits self.now.draft }
        ensures distinct { HasDistinctIds self.now.draft }
    {
        let _nodes = self.nodes.len();
        let _ways = self.ways.len();
        let _relations = self.relations.len();
        self.limits
    }

    /// Adds a node, or gives the one of this id again.
    pub fn add_node(&mut self, id: i64, spot: Spot, tags: Tags) -> Result<(), MapError>
        ensures exact { Takes result self.old self.new
            (take_node self.old.limits (record { id = id; content = place_of spot; tags = tags })
            self.old.draft) }
    {
        let beyond = self.beyond_nodes();
        let given = At::new(spot);
        self.nodes
            .add(self.alloc, ElementKind::Node, id, &given, tags, beyond)
    }

    /// Adds a way, or gives the one of this id again.
    pub fn add_way(&mut self, id: i64, nodes: &[i64], tags: Tags) -> Result<(), MapError>
        ensures exact { Takes result self.old self.new
            (take_way self.old.limits (record { id = id; content = nodes.now; tags = tags })
            self.old.draft) }
    {
        let beyond = self.beyond_ways(nodes);
        let given = WayNodes { nodes };
        self.ways
            .add(self.alloc, ElementKind::Way, id, &given, tags, beyond)
    }

    /// Adds a relation, or gives the one of this id again.
    pub fn add_relation(&mut self, id: i64, members: &[Member], tags: Tags) -> Result<(), MapError>
        ensures exact { Takes result self.old self.new
            (take_relation self.old.limits
            (record { id = id; content = members.now; tags = tags }) self.old.draft) }
    {
        let beyond = self.beyond_members(members);
        let given = MembersGiven { members };
        self.relations.add(self.alloc, ElementKind::Relation, id, &given, tags, beyond)
    }

    /// Puts a tag behind those of a way. Where memory runs out, nothing changes.
    pub fn tag_way(&mut self, way: u32, name: Name, value: Name) -> Result<(), MapError>
        requires fits { way < length self.old.draft.ways }
        ensures value { HoldsAt self.old.draft.ways way (λ k.
            OnOk result (self.new ≡ record {
              limits = self.old.limits;
              draft = with_ways self.old.draft
                  (slice_set self.old.draft.ways way (with_tag (name, value) k));
            })) }
        ensures kept { IfErr result (λ e. (e ≡ error_.NoMemory) × (self.new ≡ self.old)) }
    {
        self.ways.tag(self.alloc, way, name, value)
    }

    /// What is too large where one more node comes.
    fn beyond_nodes(&self) -> Option<MapError>
        ensures value { result ≡ beyond_nodes self.now.limits self.now.draft }
    {
        fault_unless(self.nodes.len() < self.limits.nodes, MapCount::Nodes)
    }

    /// What is too large where one more way of these nodes comes.
    fn beyond_ways(&self, nodes: &[i64]) -> Option<MapError>
        ensures value { result ≡ beyond_ways self.now.limits self.now.draft nodes.now }
    {
        if self.ways.len() >= self.limits.ways {
            return fault_unless(false, MapCount::Ways);
        }
        let all = self.ways.total();
        let few = are_within(all, segments_of(nodes), self.limits.segments);
        fault_unless(few, MapCount::Segments)
    }

    /// What is too large where one more relation of these members comes.
    fn beyond_members(&self, members: &[Member]) -> Option<MapError>
        ensures value { result ≡ beyond_members self.now.limits self.now.draft members.now }
    {
        let all = self.relations.total();
        let few = are_within(all, members.len(), self.limits.members);
        fault_unless(few, MapCount::Members)
    }
}

/// The fault of too many, unless something holds.
fn fault_unless(holds: bool, what: MapCount) -> Option<MapError>
    ensures value { result ≡ fault_unless holds (error_.TooLarge what) }
{
    if holds {
        None
    } else {
        Some(MapError::TooLarge { what })
    }
}
