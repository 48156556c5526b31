//! A part of a list of steps, read from its front.
ghost use Rattle.std.specs.Prelude.{ℕ, ◌≡◌, ◌≤◌, ◌<◌, ◌+◌, List, [], ◌∷◌, length, take, drop, None, IsTrue, MatchOption};
ghost use Rattle.json_text.specs.Marks.{Key, Opens, Step};
ghost use Rattle.json_text.specs.declared.mode.Bracket.TheVariants.{Curly};
ghost use Rattle.json_text.specs.Steps.{step_for};
ghost use Rattle.map_elements.specs.Steps.{content_in, steps_in, AreWithin};
ghost use Rattle.map_elements.specs.Entries.{depth_after, members_of};
ghost use Rattle.map_elements.specs.Front.{EndsPlain, IsPlain};
ghost use Rattle.map_elements.specs.Cut.{BeginsWith, IsBefore, IsNumberBefore, size_of, ends_in, has_none, is_close, IsNoKey};

use crate::steps::Row;
use json_text::JsonStep;
use std::marker::Model;

/// Some steps that follow each other in a list.
#[derive(Drop)]
pub(crate) struct Part<'a> {
    rows: &'a [Row],
    bytes: &'a [u8],
}

impl<'a> Model for Part<'a> {
    ghost use Rattle.std.specs.Prelude.{List};
    ghost use Rattle.json_text.specs.Marks.{Step};
    ghost use Rattle.map_elements.specs.Steps.{steps_in, AreWithin};

    ghost Value = { List Step };

    ghost view = { λ p. steps_in p.bytes.now p.rows.now };

    ghost invariant = { λ p. AreWithin p.bytes.now p.rows.now };
}

impl<'a> Part<'a> {
    /// The steps of rows whose contents stand among these bytes.
    pub(crate) fn new(rows: &'a [Row], bytes: &'a [u8]) -> Part<'a>
        requires within { AreWithin bytes.now rows.now }
        ensures value { result ≡ steps_in bytes.now rows.now }
    {
        Part { rows, bytes }
    }

    /// The same steps again.
    pub(crate) fn again(&self) -> Part<'a>
        ensures value { result ≡ self.now }
    {
        Part {
            rows: self.rows,
            bytes: self.bytes,
        }
    }

    /// How many steps there are.
    pub(crate) fn len(&self) -> usize
        ensures value { result ≡ length self.now }
    {
        self.rows.len()
    }

    /// Whether there are none.
    pub(crate) fn is_empty(&self) -> bool
        ensures value { result ≡ has_none self.now }
    {
        self.rows.is_empty()
    }

    /// The first step, without its content.
    pub(crate) fn first_step(&self) -> Option<JsonStep>
        ensures value { MatchOption result (self.now ≡ []) (λ step. BeginsWith step self.now) }
    {
        match self.rows.first() {
            None => None,
            Some(row) => Some(row.step),
        }
    }

    /// Takes the first step away, and looks at no content.
    fn skip_first(&mut self) -> Option<JsonStep>
        ensures value { MatchOption result
            ((self.old ≡ []) × (self.new ≡ []))
            (λ step. IsBefore step self.old self.new) }
    {
        let all = self.rows;
        match all.split_first() {
            None => None,
            Some((row, rows)) => {
                self.rows = rows;
                Some(row.step)
            }
        }
    }

    /// Takes the first step away.
    pub(crate) fn take_first(&mut self) -> Option<(JsonStep, &'a [u8])>
        ensures value { MatchOption result
            ((self.old ≡ []) × (self.new ≡ []))
            (λ t. self.old ≡ step_for t.0 t.1.now ∷ self.new) }
    {
        let all = self.rows;
        match all.split_first() {
            None => None,
            Some((row, rows)) => {
                let text = content_of(self.bytes, row);
                self.rows = rows;
                Some((row.step, text))
            }
        }
    }

    /// Takes the first step away as a part of its own.
    pub(crate) fn take_one(&mut self) -> Part<'a>
        ensures value { (step : Step) (steps : List Step) → self.old ≡ step ∷ steps →
            (result ≡ step ∷ []) × (self.new ≡ steps) }
    {
        if self.len() == 0 {
            return self.again();
        }
        let (front, back) = self.split(1);
        *self = back;
        front
    }

    /// Takes the first step away as a part of its own if it is a number.
    pub(crate) fn take_number(&mut self) -> Option<Part<'a>>
        ensures value { MatchOption result
            (self.new ≡ self.old)
            (λ value. IsNumberBefore value self.old self.new) }
    {
        match self.first_step() {
            Some(JsonStep::Number) => Some(self.take_one()),
            _ => None,
        }
    }

    /// Whether there is a text or a number behind so many steps, and nothing else.
    pub(crate) fn ends_plain(&self, before: usize) -> bool
        ensures value { IsTrue result → EndsPlain before self.now }
    {
        if self.len() == 0 || self.len() - 1 != before {
            return false;
        }
        let (_, back) = self.split(before);
        match back.first_step() {
            None => false,
            Some(step) => is_plain(step),
        }
    }

    /// The steps behind the bracket of an object.
    pub(crate) fn behind_open(&self) -> Option<Part<'a>>
        ensures value { MatchOption result
            (members_of self.now ≡ None)
            (λ left. self.now ≡ Opens Curly ∷ left) }
    {
        let mut behind = self.again();
        match behind.take_first() {
            Some((JsonStep::Open, _)) => Some(behind),
            _ => None,
        }
    }

    /// Takes the first step away if it is the name of a member.
    pub(crate) fn take_key(&mut self) -> Option<&'a [u8]>
        ensures value { MatchOption result
            (IsNoKey self.old × (self.new ≡ self.old))
            (λ text. self.old ≡ Key text.now ∷ self.new) }
    {
        let all = self.rows;
        match all.split_first() {
            None => None,
            Some((row, rows)) => match row.step {
                JsonStep::Key => {
                    let text = content_of(self.bytes, row);
                    self.rows = rows;
                    Some(text)
                }
                _ => None,
            },
        }
    }

    /// The first steps, so many, and those behind them.
    pub(crate) fn split(&self, count: usize) -> (Part<'a>, Part<'a>)
        requires fits { count ≤ length self.now }
        ensures front { result.0 ≡ take count self.now }
        ensures back { result.1 ≡ drop count self.now }
    {
        let all = self.rows;
        let (front, back) = all.split_at(count);
        (
            Part {
                rows: front,
                bytes: self.bytes,
            },
            Part {
                rows: back,
                bytes: self.bytes,
            },
        )
    }

    /// How many steps the first value has, and whether the last of them has come.
    pub(crate) fn value_size(&self) -> (usize, bool)
        ensures size { result.0 ≡ size_of 0 self.now }
        ensures ends { result.1 ≡ ends_in 0 self.now }
        ensures fits { result.0 ≤ length self.now }
    {
        match self.first_step() {
            None => (0, false),
            Some(JsonStep::Open | JsonStep::ListOpen) => self.group_size(),
            Some(_) => (1, true),
        }
    }

    /// The same, where brackets have to be counted.
    fn group_size(&self) -> (usize, bool)
        ensures size { result.0 ≡ size_of 0 self.now }
        ensures ends { result.1 ≡ ends_in 0 self.now }
        ensures fits { result.0 ≤ length self.now }
    {
        let total = self.len();
        let mut left = self.again();
        let mut depth: usize = 0;
        'steps: while let Some(step) = left.skip_first() {
            depth = depth_behind(depth, step);
            if depth == 0 {
                return (total - left.len(), true);
            }
        }
        (total, false)
    }
}

/// The content of a row among these bytes.
fn content_of<'a>(bytes: &'a [u8], row: &Row) -> &'a [u8]
    requires within { row.now.start + row.now.length ≤ length bytes.now }
    ensures value { result.now ≡ content_in bytes.now row.now }
{
    &bytes[row.start..row.start + row.length as usize]
}

/// How many brackets are open behind a step, where so many are before it.
fn depth_behind(depth: usize, step: JsonStep) -> usize
    requires few { depth < 18446744073709551615 }
    ensures value { (text : List ℕ) → result ≡ depth_after depth (step_for step text) }
    ensures fits { result ≤ depth + 1 }
{
    match step {
        JsonStep::Open | JsonStep::ListOpen => depth + 1,
        JsonStep::Close | JsonStep::ListClose => { if depth == 0 { 0 } else { depth - 1 } }
        _ => depth,
    }
}

/// Whether a step is a text or a number.
fn is_plain(step: JsonStep) -> bool
    ensures value { (text : List ℕ) → IsTrue result → IsPlain (step_for step text) }
{
    match step {
        JsonStep::Text | JsonStep::Number => true,
        _ => false,
    }
}

/// Whether a step closes a bracket.
pub(crate) fn closes(step: JsonStep) -> bool
    ensures value { (text : List ℕ) → result ≡ is_close (step_for step text) }
{
    match step {
        JsonStep::Close | JsonStep::ListClose => true,
        _ => false,
    }
}
