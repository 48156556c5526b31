//! The steps of one element of a text, kept until the element is whole.
ghost use Rattle.std.specs.Prelude.{◌≡◌, [], ◌∷◌, ◌++◌, length, OnOk, OnErr, is_ok, if◌then◌else◌};
ghost use Rattle.json_text.specs.Marks.{Step};
ghost use Rattle.json_text.specs.Steps.{step_for};

use crate::steps::part::Part;
use item_list::append_bytes;
use json_text::JsonStep;
use std::alloc::{AllocError, Global};
use std::marker::Model;

pub(crate) mod entries;
pub(crate) mod part;

/// A step that is kept, and where its content stands among the bytes.
#[derive(Clone, Copy)]
pub(crate) struct Row {
    pub(crate) start: usize,
    pub(crate) length: u32,
    pub(crate) step: JsonStep,
}

/// A growing list of the steps of a JSON text.
///
/// Contracts see it as that list.
pub struct StepList {
    rows: Vec<Row>,
    bytes: Vec<u8>,
}

impl Drop for StepList {
    fn drop(self) {
        let StepList { rows: _, bytes: _ } = self;
    }
}

impl Model for StepList {
    ghost use Rattle.std.specs.Prelude.{List};
    ghost use Rattle.json_text.specs.Marks.{Step};
    ghost use Rattle.map_elements.specs.Steps.{steps_in, AreWithin};

    ghost Value = { List Step };

    ghost view = { λ s. steps_in s.bytes.items s.rows.items };

    ghost invariant = { λ s. AreWithin s.bytes.items s.rows.items };
}

impl StepList {
    /// No steps, in a list that will grow with `alloc`.
    pub fn new(alloc: Global) -> StepList
        ensures value { result ≡ [] }
    {
        StepList {
            rows: Vec::new(alloc),
            bytes: Vec::new(alloc),
        }
    }

    /// Takes all steps away. The list keeps its room.
    pub fn clear(&mut self)
        ensures value { self.new ≡ [] }
    {
        self.rows.clear();
        self.bytes.clear();
    }

    /// How many steps there are.
    pub fn len(&self) -> usize
        ensures value { result ≡ length self.now }
    {
        self.rows.len()
    }

    /// All the steps, as a part.
    pub(crate) fn part(&self) -> Part<'_>
        ensures value { result ≡ self.now }
    {
        Part::new(&self.rows, &self.bytes)
    }

    /// Puts a step at the end, with its content if it has one. Where memory runs out, nothing
    /// changes; a content of 2^32 bytes counts as want of memory.
    pub fn push(&mut self, step: JsonStep, text: &[u8]) -> Result<(), AllocError>
        ensures value { OnOk result (self.new ≡ self.old ++ step_for step text.now ∷ []) }
        ensures same { OnErr result (self.new ≡ self.old) }
    {
        match step {
            JsonStep::Key | JsonStep::Text | JsonStep::Number => self.add(step, text),
            _ => self.add_bare(step),
        }
    }

    /// Puts a step that has no content at the end: a row alone, and no bytes.
    fn add_bare(&mut self, step: JsonStep) -> Result<(), AllocError>
        ensures value { self.new
            ≡ (if is_ok result then self.old ++ step_for step [] ∷ [] else self.old) }
    {
        keep_row(
            &mut self.rows,
            Row {
                start: 0,
                length: 0,
                step,
            },
        )
    }

    /// Puts a step at the end, and these bytes as its content.
    fn add(&mut self, step: JsonStep, text: &[u8]) -> Result<(), AllocError>
        ensures value { self.new
            ≡ (if is_ok result then self.old ++ step_for step text.now ∷ [] else self.old) }
    {
        let Ok(length) = u32::try_from(text.len()) else {
            return Err(AllocError);
        };
        let start = self.bytes.len();
        append_bytes(&mut self.bytes, text)?;
        keep_row(
            &mut self.rows,
            Row {
                start,
                length,
                step,
            },
        )
    }
}

/// Puts a row at the end. Where memory runs out, nothing changes.
fn keep_row(rows: &mut Vec<Row>, row: Row) -> Result<(), AllocError>
    ensures value { rows.new.items
        ≡ (if is_ok result then rows.old.items ++ row ∷ [] else rows.old.items) }
{
    match rows.push(row) {
        Ok(()) => Ok(()),
        Err(_) => Err(AllocError),
    }
}
