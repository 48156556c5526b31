//! What came of the cases.

ghost use Rattle.std.specs.Prelude.{◌≡◌, ◌↔◌, IsNone, IfOk, OnOk};
ghost use Rattle.case_inputs.specs.Counts.{one_more, counted};

use crate::case::Case;
use crate::escape::show;
use std::alloc::{AllocError, Global};
use std::io;

/// How many cases were tried, and how many of them differ.
#[derive(Clone, Copy)]
pub struct Report {
    /// How many were tried; the count stands still at its last value.
    pub tried: u64,
    /// How many differ; the count stands still at its last value.
    pub differ: u64,
}

impl Report {
    /// No case was tried.
    pub fn new() -> Report
        ensures value { (result.tried ≡ 0) × (result.differ ≡ 0) }
    {
        Report {
            tried: 0,
            differ: 0,
        }
    }

    /// Counts a case, and gives the line to be printed where the answer isn't the one that is
    /// wanted.
    pub fn compare(
        &mut self,
        alloc: Global,
        case: &Case,
        answer: &[u8],
    ) -> Result<Option<String>, AllocError>
        ensures exact { IfOk result (λ told. IsNone told ↔ (answer.now ≡ case.now.wanted.items)) }
        ensures tried { OnOk result (self.new.tried ≡ one_more self.old.tried) }
        ensures differ { IfOk result (λ told. self.new.differ ≡ counted told self.old.differ) }
    {
        self.tried = self.tried.saturating_add(1);
        if answer == case.wanted.as_slice() {
            return Ok(None);
        }
        self.differ = self.differ.saturating_add(1);
        let told = told_of(alloc, case, answer)?;
        Ok(Some(told))
    }
}

/// What is told of a case whose answer isn't the one that is wanted.
fn told_of(alloc: Global, case: &Case, answer: &[u8]) -> Result<String, AllocError> {
    let mut told = String::new(alloc);
    tell(&mut told, case, answer)?;
    Ok(told)
}

/// Writes the line and the call of a case, the answer, and the one that is wanted.
fn tell(told: &mut String, case: &Case, answer: &[u8]) -> Result<(), AllocError> {
    write!(told, "line {}, ", case.line)?;
    show(told, case.word(0))?;
    told.push_str(": gave ")?;
    show(told, answer)?;
    told.push_str(", wanted ")?;
    show(told, case.wanted.as_slice())
}
