//! The legs that were read so far.

ghost use Rattle.std.specs.Prelude.{◌≡◌, ◌∷◌, ◌++◌, [], IfOk, OnOk, map, option_map};
ghost use Rattle.certificate_text.specs.Drafts.{ReadsOn, Takes, form_of, forms_now, is_ended, stage_at};
ghost use Rattle.certificate_text.specs.Lines.{Cost, End, Label, Leg, Opened};
ghost use Rattle.certificate_text.specs.Texts.{leg_of, value_of};

use crate::certificate::{Certificate, Entry, LowerBound, Proof};
use crate::line::{Line, read_line};
use crate::rooms::labels_in;
use overpass_graph::Map;
use std::alloc::{AllocError, Global};

/// Where a text stands behind a line.
#[derive(Clone, Copy, Drop)]
pub(crate) enum Place {
    /// Behind the first line.
    Opened,
    /// Behind the walk of a leg.
    Walked,
    /// Behind what a walk costs, or behind a label.
    Labelled,
    /// Behind the last line.
    Ended,
}

/// The legs that were read so far, the one that is being read, and where the text stands.
pub(crate) struct Draft {
    pub(crate) legs: Vec<Proof>,
    pub(crate) leg: Proof,
    pub(crate) place: Place,
}

impl Drop for Draft {
    fn drop(self) {
        let Draft {
            legs: _,
            leg: _,
            place: _,
        } = self;
    }
}

/// A leg of nothing.
fn no_leg(alloc: Global) -> Proof {
    Proof {
        entries: Vec::new(alloc),
        cost: 0,
        walk: Vec::new(alloc),
    }
}

impl Draft {
    /// No legs yet.
    pub(crate) fn new(alloc: Global) -> Draft
        ensures value { forms_now result ≡ [] }
        ensures place { stage_at result.place ≡ Opened }
    {
        Draft {
            legs: Vec::new(alloc),
            leg: no_leg(alloc),
            place: Place::Opened,
        }
    }

    /// Takes the first line of a text, and gives what follows it; nothing where none that can
    /// stand there begins the text.
    pub(crate) fn take_line<'a>(
        &mut self,
        alloc: Global,
        map: &Map,
        text: &'a [u8],
    ) -> Result<Option<&'a [u8]>, AllocError>
        ensures exact { IfOk result (λ left.
            ReadsOn map.now self.old self.new text.now (option_map (λ rest. rest.now) left)) }
    {
        let _count = map.links();
        let Some(found) = read_line(alloc, map, text)? else {
            return Ok(None);
        };
        let (line, rest) = found;
        if self.take(alloc, line, rest)? {
            Ok(Some(rest))
        } else {
            Ok(None)
        }
    }

    /// Takes one more line; false where it can't stand there.
    fn take(&mut self, alloc: Global, line: Line, after: &[u8]) -> Result<bool, AllocError>
        ensures exact { IfOk result (Takes self.old self.new (form_of line)) }
    {
        match line {
            Line::Label { entry } => self.take_label(entry),
            Line::Cost { cost } => self.take_cost(alloc, cost, after),
            Line::Leg { walk } => self.take_leg(alloc, walk),
            Line::End => self.take_end(alloc),
            Line::Head { bound: _ } => Ok(false),
        }
    }

    /// Takes a label.
    fn take_label(&mut self, entry: Entry) -> Result<bool, AllocError>
        ensures exact { IfOk result (Takes self.old self.new (Label entry)) }
    {
        match self.place {
            Place::Labelled => {
                self.leg.entries.push(entry)?;
                Ok(true)
            }
            _ => Ok(false),
        }
    }

    /// Takes what a walk costs.
    fn take_cost(&mut self, alloc: Global, cost: u128, after: &[u8]) -> Result<bool, AllocError>
        ensures exact { IfOk result (Takes self.old self.new (Cost cost)) }
    {
        match self.place {
            Place::Walked => {
                self.leg.entries = Vec::with_capacity(alloc, labels_in(after))?;
                self.leg.cost = cost;
                self.place = Place::Labelled;
                Ok(true)
            }
            _ => Ok(false),
        }
    }

    /// Takes a leg with its walk.
    fn take_leg(&mut self, alloc: Global, walk: Vec<u32>) -> Result<bool, AllocError>
        ensures exact { IfOk result (Takes self.old self.new (Leg walk.items)) }
    {
        match self.place {
            Place::Opened => {
                self.leg.walk = walk;
                self.place = Place::Walked;
                Ok(true)
            }
            Place::Labelled => {
                self.close(alloc)?;
                self.leg.walk = walk;
                self.place = Place::Walked;
                Ok(true)
            }
            _ => Ok(false),
        }
    }

    /// Takes the last line.
    fn take_end(&mut self, alloc: Global) -> Result<bool, AllocError>
        ensures exact { IfOk result (Takes self.old self.new End) }
    {
        match self.place {
            Place::Opened => {
                self.place = Place::Ended;
                Ok(true)
            }
            Place::Labelled => {
                self.close(alloc)?;
                self.place = Place::Ended;
                Ok(true)
            }
            _ => Ok(false),
        }
    }

    /// Puts the leg that was read behind the others.
    fn close(&mut self, alloc: Global) -> Result<(), AllocError>
        ensures legs { OnOk result
            (self.new.legs.items ≡ self.old.legs.items ++ (self.old.leg ∷ [])) }
    {
        let leg = std::mem::replace(&mut self.leg, no_leg(alloc));
        match self.legs.push(leg) {
            Ok(()) => Ok(()),
            Err(_) => Err(AllocError),
        }
    }

    /// Whether the last line was taken.
    pub(crate) fn is_ended(&self) -> bool
        ensures value { result ≡ is_ended self.now.place }
    {
        match self.place {
            Place::Ended => true,
            _ => false,
        }
    }

    /// The certificate of all legs, by this lower bound.
    pub(crate) fn certificate(self, bound: LowerBound) -> Certificate
        ensures value { value_of result ≡ record {
          bound = bound;
          legs = map leg_of self.legs.items;
        } }
    {
        let Draft {
            legs,
            leg: _,
            place: _,
        } = self;
        Certificate { bound, legs }
    }
}
