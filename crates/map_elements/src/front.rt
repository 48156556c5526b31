//! The steps of one element, of which the first names are not kept.
ghost use Rattle.std.specs.Prelude.{◌≡◌, [], ◌∷◌, ◌++◌, OnOk, OnErr, IfSome};
ghost use Rattle.json_text.specs.declared.mode.Bracket.TheVariants.{Curly};
ghost use Rattle.json_text.specs.Marks.{Key, Opens};
ghost use Rattle.json_text.specs.Steps.{step_for};
ghost use Rattle.map_elements.specs.Front.{Fits, LeadsTo, told};

use crate::steps::StepList;
use crate::steps::part::Part;
use json_text::JsonStep;
use std::alloc::{AllocError, Global};
use std::marker::Model;

/// How far an element has come of those that begin as most do: with `type`, `id`, `lat` and `lon`,
/// in this order and each a text or a number. The last name that has come is told.
#[derive(Clone, Copy)]
pub(crate) enum Front {
    /// No bracket of an object, or no step at all.
    Bare,
    /// The bracket alone.
    Open,
    /// The name `type`.
    Kind,
    /// The name `id`.
    Id,
    /// The name `lat`.
    Lat,
    /// The name `lon`.
    Lon,
}

/// The steps of one element, kept until it is whole. Those of its front are known by their place.
pub(crate) struct ElementSteps {
    list: StepList,
    front: Front,
}

impl Drop for ElementSteps {
    fn drop(self) {
        let ElementSteps { list: _, front: _ } = self;
    }
}

impl Model for ElementSteps {
    ghost use Rattle.std.specs.Prelude.{List};
    ghost use Rattle.json_text.specs.Marks.{Step};
    ghost use Rattle.map_elements.specs.Front.{Fits, told};

    ghost Value = { List Step };

    ghost view = { λ s. told s.front s.list };

    ghost invariant = { λ s. Fits s.front s.list };
}

impl ElementSteps {
    /// No steps, in a list that will grow with `alloc`.
    pub(crate) fn new(alloc: Global) -> ElementSteps
        ensures value { result ≡ [] }
    {
        ElementSteps {
            list: StepList::new(alloc),
            front: Front::Bare,
        }
    }

    /// Takes all steps away. The list keeps its room.
    pub(crate) fn clear(&mut self)
        ensures value { self.new ≡ [] }
    {
        self.front = Front::Bare;
        self.list.clear();
    }

    /// How far the front has come, and the steps that are kept behind what it tells.
    pub(crate) fn kept(&self) -> (Front, Part<'_>)
        ensures value { told result.0 result.1 ≡ self.now }
        ensures fits { Fits result.0 result.1 }
    {
        (self.front, self.list.part())
    }

    /// Puts a step at the end, with its content if it has one. Where memory runs out, nothing
    /// changes.
    pub(crate) fn push(&mut self, step: JsonStep, text: &[u8]) -> Result<(), AllocError>
        ensures value { OnOk result (self.new ≡ self.old ++ step_for step text.now ∷ []) }
        ensures same { OnErr result (self.new ≡ self.old) }
    {
        match led(self.front, &self.list, step, text) {
            Some(front) => {
                self.front = front;
                Ok(())
            }
            None => self.list.push(step, text),
        }
    }
}

/// The front behind one more step, if the step belongs to it.
fn led(front: Front, list: &StepList, step: JsonStep, text: &[u8]) -> Option<Front>
    requires fits { Fits front list.now }
    ensures value { IfSome result
        (λ next. LeadsTo front next list.now (step_for step text.now)) }
{
    match step {
        JsonStep::Open => opened(front, list),
        JsonStep::Key => named(front, list, text),
        _ => None,
    }
}

/// The front behind a bracket of an object.
fn opened(front: Front, list: &StepList) -> Option<Front>
    ensures value { IfSome result (λ next. LeadsTo front next list.now (Opens Curly)) }
{
    match front {
        Front::Bare if list.len() == 0 => Some(Front::Open),
        _ => None,
    }
}

/// The front behind the name of a member.
fn named(front: Front, list: &StepList, text: &[u8]) -> Option<Front>
    requires fits { Fits front list.now }
    ensures value { IfSome result (λ next. LeadsTo front next list.now (Key text.now)) }
{
    match front {
        Front::Open if text == b"type".as_slice() && list.len() == 0 => Some(Front::Kind),
        Front::Kind if text == b"id".as_slice() && list.part().ends_plain(0) => Some(Front::Id),
        Front::Id if text == b"lat".as_slice() && list.part().ends_plain(1) => Some(Front::Lat),
        Front::Lat if text == b"lon".as_slice() && list.part().ends_plain(2) => Some(Front::Lon),
        _ => None,
    }
}
