//! Where the values stand that an element is read from.
ghost use Rattle.std.specs.Prelude.{zero, ◌≡◌, List, [], ◌∷◌, None, Some, MatchOption};
ghost use Rattle.json_text.specs.Marks.{Step};
ghost use Rattle.map_elements.specs.Entries.{Entry, entries_from, member};
ghost use Rattle.map_elements.specs.Front.{Fits, behind};
ghost use Rattle.map_elements.specs.Fields.{with_some, text_of, number_of, whole_number_of};
ghost use Rattle.map_elements.specs.Noted.{Noted, Notes, NotesOne, noted};
ghost use Rattle.map_elements.specs.declared.front.Front.TheVariants.{Id, Lat, Lon};
ghost use lib.Chars.{codes};

use crate::front::Front;
use crate::steps::entries::{Entries, Field, take_named};
use crate::steps::part::Part;
use std::marker::Model;

/// The values of the first members of the names that elements have, as far as they have come.
#[derive(Drop)]
pub(crate) struct Slots<'a> {
    pub(crate) kind: Option<Part<'a>>,
    pub(crate) id: Option<Part<'a>>,
    pub(crate) lat: Option<Part<'a>>,
    pub(crate) lon: Option<Part<'a>>,
    pub(crate) nodes: Option<Part<'a>>,
    pub(crate) members: Option<Part<'a>>,
    pub(crate) tags: Option<Part<'a>>,
}

impl<'a> Slots<'a> {
    /// Nothing has come.
    pub(crate) fn new() -> Slots<'a>
        ensures value { (all : List Entry) → Noted result all all }
    {
        Slots {
            kind: None,
            id: None,
            lat: None,
            lon: None,
            nodes: None,
            members: None,
            tags: None,
        }
    }

    /// Looks through the members of an element once.
    pub(crate) fn look_through(&mut self, front: Front, all: &Part<'a>)
        requires none { (all : List Entry) → Noted self.old all all }
        requires fits { Fits front all.now }
        ensures value { Noted self.new (entries_from None [] zero (behind front all.now)) [] }
    {
        let mut left = all.again();
        self.note_front(front, &mut left);
        self.note_all(Entries::behind(left));
    }

    /// Notes the members whose names the front tells, and takes their values away.
    fn note_front(&mut self, front: Front, left: &mut Part<'a>)
        requires none { (all : List Entry) → Noted self.old all all }
        requires fits { Fits front left.old }
        ensures value { Noted self.new (entries_from None [] zero (behind front left.old))
            (entries_from None [] zero left.new) }
    {
        match front {
            Front::Bare | Front::Open => {}
            Front::Kind => self.note_named(left, b"type"),
            Front::Id => self.note_id(left),
            Front::Lat => self.note_lat(left),
            Front::Lon => self.note_lon(left),
        }
    }

    /// Notes the members up to `id`, whose names are told, and takes their values away.
    fn note_id(&mut self, left: &mut Part<'a>)
        requires none { (all : List Entry) → Noted self.old all all }
        requires fits { Fits Id left.old }
        ensures value { Noted self.new (entries_from None [] zero (behind Id left.old))
            (entries_from None [] zero left.new) }
    {
        self.note_plain(left, b"type");
        self.note_named(left, b"id");
    }

    /// The same up to `lat`.
    fn note_lat(&mut self, left: &mut Part<'a>)
        requires none { (all : List Entry) → Noted self.old all all }
        requires fits { Fits Lat left.old }
        ensures value { Noted self.new (entries_from None [] zero (behind Lat left.old))
            (entries_from None [] zero left.new) }
    {
        self.note_plain(left, b"type");
        self.note_plain(left, b"id");
        self.note_named(left, b"lat");
    }

    /// The same up to `lon`.
    fn note_lon(&mut self, left: &mut Part<'a>)
        requires none { (all : List Entry) → Noted self.old all all }
        requires fits { Fits Lon left.old }
        ensures value { Noted self.new (entries_from None [] zero (behind Lon left.old))
            (entries_from None [] zero left.new) }
    {
        self.note_plain(left, b"type");
        self.note_plain(left, b"id");
        self.note_plain(left, b"lat");
        self.note_named(left, b"lon");
    }

    /// Notes a member of this name whose value is the first step.
    #[inline(always)]
    fn note_plain(&mut self, left: &mut Part<'a>, name: &'a [u8])
        ensures value { (step : Step) (steps : List Step) → left.old ≡ step ∷ steps →
            NotesOne name.now step self.old self.new × (left.new ≡ steps) }
    {
        let value = left.take_one();
        self.note(&Field::whole(name, value));
    }

    /// Notes the member of this name whose value comes, if one is left.
    #[inline(always)]
    fn note_named(&mut self, left: &mut Part<'a>, name: &'a [u8])
        ensures value { (all : List Entry) →
            Noted self.old all (entries_from (Some name.now) [] zero left.old) →
            Noted self.new all (entries_from None [] zero left.new) }
    {
        match take_named(left, name) {
            None => {}
            Some(entry) => self.note(&entry),
        }
    }

    /// Notes all members that are left.
    fn note_all(&mut self, entries: Entries<'a>)
        ensures value { (all : List Entry) → Noted self.old all entries.entry →
            Noted self.new all [] }
    {
        let mut left = entries;
        'entries: while let Some(entry) = left.next() {
            self.note(&entry);
        }
    }

    /// Notes one more member. It is compared with the names of its own length alone.
    #[inline(always)]
    fn note(&mut self, entry: &Field<'a>)
        ensures value { Notes self.old entry.now self.new }
    {
        let Some(name) = entry.name() else {
            return;
        };
        match name.len() {
            2 => note(&mut self.id, b"id", entry),
            3 => {
                note(&mut self.lat, b"lat", entry);
                note(&mut self.lon, b"lon", entry);
            }
            4 => {
                note(&mut self.kind, b"type", entry);
                note(&mut self.tags, b"tags", entry);
            }
            5 => note(&mut self.nodes, b"nodes", entry),
            7 => note(&mut self.members, b"members", entry),
            _ => {}
        }
    }
}

/// The members of an element, beside the values of the first of each name that elements have, which
/// stay where they are: copies of so many cost more than looking for them.
#[derive(Drop)]
pub(crate) struct ElementFields<'a, 'b> {
    all: Part<'a>,
    front: Front,
    first: &'b Slots<'a>,
}

impl<'a, 'b> Model for ElementFields<'a, 'b> {
    ghost use Rattle.std.specs.Prelude.{zero, List, [], None};
    ghost use Rattle.map_elements.specs.Entries.{Entry, entries_from};
    ghost use Rattle.map_elements.specs.Front.{behind};
    ghost use Rattle.map_elements.specs.Noted.{Noted};

    ghost Value = { List Entry };

    ghost view = { λ f. entries_from None [] zero (behind f.front f.all) };

    ghost invariant = { λ f.
        Noted f.first.now (entries_from None [] zero (behind f.front f.all)) [] };
}

impl<'a, 'b> ElementFields<'a, 'b> {
    /// The members of an element that were looked through.
    pub(crate) fn new(front: Front, all: Part<'a>, first: &'b Slots<'a>) -> ElementFields<'a, 'b>
        requires noted { Noted first.now (entries_from None [] zero (behind front all)) [] }
        ensures value { result ≡ entries_from None [] zero (behind front all.entry) }
    {
        ElementFields { all, front, first }
    }

    /// The type.
    pub(crate) fn kind(&self) -> Option<&'a [u8]>
        ensures exact { let found = with_some (member (codes "type") self.now) text_of in
            MatchOption result (found ≡ None) (λ text. found ≡ Some text.now) }
    {
        match &self.first.kind {
            None => None,
            Some(value) => value.text(),
        }
    }

    /// The id.
    pub(crate) fn id(&self) -> Option<i64>
        ensures exact { result ≡ with_some (member (codes "id") self.now) whole_number_of }
    {
        match &self.first.id {
            None => None,
            Some(value) => value.whole_number(),
        }
    }

    /// The text of the latitude.
    pub(crate) fn lat(&self) -> Option<&'a [u8]>
        ensures exact { let found = with_some (member (codes "lat") self.now) number_of in
            MatchOption result (found ≡ None) (λ text. found ≡ Some text.now) }
    {
        match &self.first.lat {
            None => None,
            Some(value) => value.number(),
        }
    }

    /// The text of the longitude.
    pub(crate) fn lon(&self) -> Option<&'a [u8]>
        ensures exact { let found = with_some (member (codes "lon") self.now) number_of in
            MatchOption result (found ≡ None) (λ text. found ≡ Some text.now) }
    {
        match &self.first.lon {
            None => None,
            Some(value) => value.number(),
        }
    }

    /// The value of the nodes.
    pub(crate) fn nodes(&self) -> Option<Part<'a>>
        ensures exact { result ≡ member (codes "nodes") self.now }
    {
        again(&self.first.nodes)
    }

    /// The value of the members.
    pub(crate) fn members(&self) -> Option<Part<'a>>
        ensures exact { result ≡ member (codes "members") self.now }
    {
        again(&self.first.members)
    }

    /// The value of the tags.
    pub(crate) fn tags(&self) -> Option<Part<'a>>
        ensures exact { result ≡ member (codes "tags") self.now }
    {
        again(&self.first.tags)
    }
}

/// The same value again.
fn again<'a>(value: &Option<Part<'a>>) -> Option<Part<'a>>
    ensures exact { result ≡ value.now }
{
    match value {
        None => None,
        Some(value) => Some(value.again()),
    }
}

/// Notes the value of a member of a name, unless one was noted.
#[inline(always)]
fn note<'a>(slot: &mut Option<Part<'a>>, name: &[u8], entry: &Field<'a>)
    ensures value { slot.new ≡ noted name.now slot.old entry.now }
{
    if entry.is_named(name) && slot.is_none() {
        *slot = Some(entry.value());
    }
}
