//! A map's text that is scanned and read, step by step.

ghost use Rattle.std.specs.Prelude.{◌≡◌, ◌<◌, ℕ, Bool, true, false, List, [], None, Some, Ok, Err, IfOk, MatchResult, IsTrue};
ghost use Rattle.json_text.specs.Scanner.{fed, has_ended, most_steps};
ghost use Rattle.map_tables.specs.declared.limits.Limits.{Limits as Limited};
ghost use Rattle.map_elements.specs.Outcome.{ComesTo};
ghost use Rattle.map_elements.specs.Reader.{IsOn, IsRead, IsRefusal, StandsWith, refusal_of};

use crate::place::has_list;
use crate::progress::Progress;
use json_text::{JsonAnswer, Scanner, Verdict, one_reading};
use map_tables::{Limits, MapError, Tables};
use std::alloc::Global;

/// The scanner of a text, and what was read of its steps.
pub(crate) struct Reading {
    pub(crate) scanner: Scanner,
    pub(crate) progress: Progress,
}

impl Drop for Reading {
    fn drop(self) {
        let Reading {
            scanner: _,
            progress: _,
        } = self;
    }
}

/// The refusal that a verdict is.
fn judged(verdict: Verdict) -> Result<(), MapError>
    ensures value { MatchResult result (λ _. refusal_of verdict ≡ None)
        (λ e. refusal_of verdict ≡ Some e) }
{
    match verdict {
        Verdict::BadAt(at) => Err(MapError::NotJson { at }),
        Verdict::More | Verdict::Whole => Ok(()),
    }
}

impl Reading {
    /// Of a text of which nothing has come.
    pub(crate) fn new(alloc: Global, limits: Limits) -> Reading
        ensures value { StandsWith limits result [] false }
        ensures fed { fed result.scanner ≡ 0 }
        ensures ended { has_ended result.scanner ≡ false }
    {
        Reading {
            scanner: Scanner::new(alloc),
            progress: Progress::new(alloc, limits),
        }
    }

    /// Reads the next step, if there is one.
    #[inline(always)]
    fn take_next(&mut self) -> Result<bool, MapError>
        ensures value { (limits : Limited) (bytes : List ℕ) (ended : Bool) →
            StandsWith limits self.old bytes ended →
            MatchResult result (λ more. IsOn more limits self.new bytes ended)
            (λ e. IsRefusal limits bytes ended e) }
        ensures nearer { IfOk result (λ more. IsTrue more →
            most_steps self.new.scanner < most_steps self.old.scanner) }
        ensures fed { fed self.new.scanner ≡ fed self.old.scanner }
        ensures ended { has_ended self.new.scanner ≡ has_ended self.old.scanner }
    {
        let answer = match self.scanner.next() {
            Ok(answer) => answer,
            Err(_) => return Err(MapError::NoMemory),
        };
        match answer {
            JsonAnswer::Step(step) => match self.progress.take(step, self.scanner.text()) {
                Ok(()) => Ok(true),
                Err(e) => {
                    one_reading();
                    Err(e)
                }
            },
            JsonAnswer::Verdict(verdict) => match judged(verdict) {
                Ok(()) => Ok(false),
                Err(e) => Err(e),
            },
        }
    }

    /// Reads all fixed steps.
    pub(crate) fn read_on(&mut self) -> Result<(), MapError>
        ensures value { (limits : Limited) (bytes : List ℕ) (ended : Bool) →
            StandsWith limits self.old bytes ended →
            MatchResult result (λ _. IsRead limits self.new bytes ended)
            (λ e. IsRefusal limits bytes ended e) }
        ensures fed { fed self.new.scanner ≡ fed self.old.scanner }
        ensures ended { has_ended self.new.scanner ≡ has_ended self.old.scanner }
    {
        'steps: loop {
            match self.take_next() {
                Ok(true) => {}
                Ok(false) => return Ok(()),
                Err(e) => return Err(e),
            }
        }
    }

    /// The tables of a text that has ended.
    pub(crate) fn into_tables(self) -> Result<Tables, MapError>
        ensures value { (limits : Limited) (bytes : List ℕ) → IsRead limits self bytes true →
            MatchResult result (λ tables. (tables.limits ≡ limits) ×
            ComesTo limits bytes true (Ok tables.draft))
            (λ e. IsRefusal limits bytes true e) }
    {
        let Reading {
            scanner: _,
            progress,
        } = self;
        if has_list(progress.place) {
            Ok(progress.tables)
        } else {
            Err(MapError::Shape { place: 0 })
        }
    }
}
