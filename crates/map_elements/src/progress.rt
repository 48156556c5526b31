//! What has been read of a map's text, step by step.

ghost use Rattle.std.specs.Prelude.{◌≡◌, ◌⊎◌, true, List, [], ◌∷◌, ◌++◌, Ok, Err, OnOk, MatchResult};
ghost use Rattle.json_text.specs.Marks.{Step};
ghost use Rattle.json_text.specs.Steps.{step_for};
ghost use Rattle.map_tables.specs.Held.{Takes};
ghost use Rattle.map_tables.specs.declared.error.MapError.TheVariants.{NoMemory};
ghost use Rattle.map_elements.specs.declared.place.Place.TheVariants.{Elements};
ghost use Rattle.map_elements.specs.Outcome.{take_element};
ghost use Rattle.map_elements.specs.Seen.{seen};
ghost use Rattle.map_elements.specs.Reader.{Holds, goes_on, IsFault, IsInList, IsRefused, IsTaken};

use crate::elements::{Element, read_ended};
use crate::front::ElementSteps;
use crate::place::{Place, depth_behind, first_place, goes_on, top_place};
use json_text::JsonStep;
use map_tables::{Limits, MapError, Tables};
use std::alloc::Global;

/// What has been read of a map's text: the elements that are whole, and the beginning of one more.
#[derive(Drop)]
pub(crate) struct Progress {
    pub(crate) alloc: Global,
    pub(crate) place: Place,
    pub(crate) count: u64,
    pub(crate) steps: ElementSteps,
    pub(crate) tables: Tables,
}

/// Adds an element to the tables. Where it is refused, nothing changes.
fn add(tables: &mut Tables, element: Element) -> Result<(), MapError>
    ensures exact { Takes result tables.old tables.new
        (take_element tables.old.limits (seen element) tables.old.draft) }
{
    match element {
        Element::Node { id, spot, tags } => tables.add_node(id, spot, tags),
        Element::Way { id, nodes, tags } => tables.add_way(id, nodes.as_slice(), tags),
        Element::Relation { id, members, tags } => {
            tables.add_relation(id, members.as_slice(), tags)
        }
        Element::Other => Ok(()),
    }
}

impl Progress {
    /// Nothing has been read.
    pub(crate) fn new(alloc: Global, limits: Limits) -> Progress
        ensures value { Holds limits result [] }
    {
        Progress {
            alloc,
            place: Place::Start,
            count: 0,
            steps: ElementSteps::new(alloc),
            tables: Tables::new(alloc, limits),
        }
    }

    /// Takes the element whose value is whole.
    fn take_whole(&mut self) -> Result<(), MapError>
        ensures value { (limits : Limits) (values : List (List Step)) →
            IsTaken limits self.old values →
            MatchResult result (λ _. IsTaken limits self.new (values ++ self.old.steps ∷ []))
            (λ e. (e ≡ NoMemory) ⊎ IsRefused limits values self.old.steps e) }
        ensures place { OnOk result (self.new.place ≡ Elements 0) }
        ensures steps { OnOk result (self.new.steps ≡ []) }
    {
        let Some(at) = self.count.checked_add(1) else {
            return Err(MapError::NoMemory);
        };
        let element = match read_ended(self.alloc, at, &self.steps) {
            Ok(element) => element,
            Err(e) => return Err(e),
        };
        match add(&mut self.tables, element) {
            Ok(()) => {}
            Err(e) => return Err(e),
        }
        self.count = at;
        self.steps.clear();
        self.place = Place::Elements { depth: 0 };
        Ok(())
    }

    /// Takes a step of an element.
    fn take_inner(&mut self, depth: u32, step: JsonStep, text: &[u8]) -> Result<(), MapError>
        ensures value { (limits : Limits) (steps : List Step) (values : List (List Step)) →
            let more = steps ++ step_for step text.now ∷ [] in
            IsInList steps depth self.old.steps values → IsTaken limits self.old values →
            goes_on depth (step_for step text.now) ≡ true →
            MatchResult result (λ _. Holds limits self.new more)
            (λ e. (e ≡ NoMemory) ⊎ IsFault limits more e) }
    {
        match self.steps.push(step, text) {
            Ok(()) => {}
            Err(_) => return Err(MapError::NoMemory),
        }
        let Some(after) = depth_behind(depth, step) else {
            return Err(MapError::NoMemory);
        };
        if after == 0 {
            return self.take_whole();
        }
        self.place = Place::Elements { depth: after };
        Ok(())
    }

    /// Takes a step in the list of elements.
    fn take_listed(&mut self, depth: u32, step: JsonStep, text: &[u8]) -> Result<(), MapError>
        ensures value { (limits : Limits) (steps : List Step) (values : List (List Step)) →
            let more = steps ++ step_for step text.now ∷ [] in
            IsInList steps depth self.old.steps values → IsTaken limits self.old values →
            MatchResult result (λ _. Holds limits self.new more)
            (λ e. (e ≡ NoMemory) ⊎ IsFault limits more e) }
    {
        if goes_on(depth, step) {
            return self.take_inner(depth, step, text);
        }
        match step {
            JsonStep::Key => {
                self.place = Place::Elements { depth: 0 };
                self.steps.clear();
            }
            _ => self.place = Place::Past,
        }
        Ok(())
    }

    /// Takes one more step of the text.
    pub(crate) fn take(&mut self, step: JsonStep, text: &[u8]) -> Result<(), MapError>
        ensures value { (limits : Limits) (steps : List Step) →
            let more = steps ++ step_for step text.now ∷ [] in
            Holds limits self.old steps →
            MatchResult result (λ _. Holds limits self.new more)
            (λ e. (e ≡ NoMemory) ⊎ IsFault limits more e) }
    {
        match self.place {
            Place::Start => {
                self.place = first_place(step);
                Ok(())
            }
            Place::Top { depth, is_named } => {
                let Some(place) = top_place(depth, is_named, step, text) else {
                    return Err(MapError::NoMemory);
                };
                self.place = place;
                Ok(())
            }
            Place::Elements { depth } => self.take_listed(depth, step, text),
            Place::Past => Ok(()),
            Place::Never => Ok(()),
        }
    }
}
