//! A table while its lines are read.
ghost use Rattle.std.specs.Prelude.{◌≡◌, ◌≢◌, [], Ok, Err, true, false, ◌⊎◌, IfErr, OnOk, MatchResult};
ghost use Rattle.item_list.specs.Answer.{Answers};
ghost use Rattle.lookup_table.specs.declared.error.LookupError.TheVariants.{NoMemory, TooMany};
ghost use Rattle.lookup_table.specs.Line.{line_form};
ghost use Rattle.lookup_table.specs.Tag.{add_line, has_room};
ghost use Rattle.lookup_table.specs.Words.{words_of};
ghost use Rattle.lookup_table.specs.Draft.{one_more};

use crate::error::LookupError;
use crate::line::Line;
use crate::part::Part;
use crate::rows::Rows;
use std::alloc::Global;

/// What the lines so far say. Two version lines of a kind stand for more.
#[derive(Drop)]
pub(crate) struct Draft {
    pub(crate) way: Rows,
    pub(crate) node: Rows,
    pub(crate) part: Option<Part>,
    pub(crate) lookups: u8,
    pub(crate) minors: u8,
    pub(crate) late: bool,
    pub(crate) has_way: bool,
    pub(crate) has_node: bool,
}

impl Draft {
    ghost use Rattle.lookup_table.specs.Draft.{empty_draft, take_line, open_part, add_tag_line};

    /// Nothing was read yet.
    pub(crate) fn new(alloc: Global) -> Draft
        ensures value { result ≡ empty_draft }
    {
        Draft {
            way: Rows::new(alloc),
            node: Rows::new(alloc),
            part: None,
            lookups: 0,
            minors: 0,
            late: false,
            has_way: false,
            has_node: false,
        }
    }

    /// Takes the line of a number.
    pub(crate) fn take(
        &mut self,
        alloc: Global,
        number: u32,
        text: &[u8],
    ) -> Result<(), LookupError>
        ensures exact { let taken = take_line number (line_form text.now) self.old in
            Answers (λ _. self.new) taken NoMemory result }
    {
        match Line::read(text) {
            Line::Skip => Ok(()),
            Line::LookupVersion => {
                self.lookups = one_more(self.lookups);
                self.late = self.late || self.part.is_some();
                Ok(())
            }
            Line::MinorVersion => {
                self.minors = one_more(self.minors);
                self.late = self.late || self.part.is_some();
                Ok(())
            }
            Line::Open { part } => self.open(number, part),
            Line::Tag { name, spellings } => self.add(alloc, number, name, spellings),
            Line::Fault => Err(LookupError::Line { line: number }),
        }
    }

    /// Opens a part.
    fn open(&mut self, number: u32, part: Part) -> Result<(), LookupError>
        ensures exact { let opened = open_part number part self.old in
            MatchResult result (λ _. opened ≡ Ok self.new) (λ e. opened ≡ Err e) }
    {
        match part {
            Part::Way => {
                if self.has_way {
                    return Err(LookupError::Line { line: number });
                }
                self.has_way = true;
                self.part = Some(Part::Way);
                Ok(())
            }
            Part::Node => {
                if self.has_node {
                    return Err(LookupError::Line { line: number });
                }
                self.has_node = true;
                self.part = Some(Part::Node);
                Ok(())
            }
        }
    }

    /// Adds a value to a tag of the open part.
    fn add(
        &mut self,
        alloc: Global,
        number: u32,
        name: &[u8],
        spellings: &[u8],
    ) -> Result<(), LookupError>
        requires some { words_of spellings.now ≢ [] }
        ensures exact { let words = words_of spellings.now in
            let added = add_tag_line number name.now words self.old.part self.old in
            Answers (λ _. self.new) added NoMemory result }
    {
        match self.part {
            None => Err(LookupError::Line { line: number }),
            Some(Part::Way) => add_to(alloc, &mut self.way, number, name, spellings),
            Some(Part::Node) => add_to(alloc, &mut self.node, number, name, spellings),
        }
    }
}

/// Adds a value to a tag of a part, if there is room.
fn add_to(
    alloc: Global,
    rows: &mut Rows,
    number: u32,
    name: &[u8],
    spellings: &[u8],
) -> Result<(), LookupError>
    requires some { words_of spellings.now ≢ [] }
    ensures room { OnOk result (has_room rows.old name.now ≡ true) }
    ensures value { OnOk result (rows.new ≡ add_line rows.old name.now (words_of spellings.now)) }
    ensures refused { IfErr result
        (λ e. ((has_room rows.old name.now ≡ true) × (e ≡ NoMemory))
        ⊎ ((has_room rows.old name.now ≡ false) × (e ≡ TooMany number))) }
{
    if !rows.has_room(name) {
        return Err(LookupError::TooMany { line: number });
    }
    rows.add(alloc, name, spellings)?;
    Ok(())
}

/// One more version line of a kind, two standing for more.
fn one_more(count: u8) -> u8
    ensures value { result ≡ one_more count }
{
    if count == 0 { 1 } else { 2 }
}
