//! The scanner.

ghost use Rattle.std.specs.Prelude.{◌≤◌, ◌<◌, ◌+◌, ◌^◌, vec_len};

use crate::machine::Machine;
use crate::mode::{Ending, Taken};
use crate::step::{JsonAnswer, JsonStep, Verdict};
use std::alloc::{AllocError, Global};

mod advance;

/// A reader of one JSON text, whose pieces are fed to it and whose steps it gives.
pub struct Scanner {
    input: Vec<u8>,
    machine: Machine,
    read: usize,
    before: u64,
    ended: bool,
    failed: bool,
    ghost in_range: { read ≤ vec_len input },
    ghost few: { before + vec_len input < 2 ^ 63 },
}

impl Drop for Scanner {
    fn drop(self) {
        let Scanner {
            input: _,
            machine: _,
            read: _,
            before: _,
            ended: _,
            failed: _,
        } = self;
    }
}

impl Scanner {
    ghost use Rattle.std.specs.Prelude.{◌≡◌, ◌∷◌, ◌++◌, [], ℕ, List, Bool, true, false, length, OnOk, OnErr, IfOk, IsErr, IsNone, MatchOption};
    ghost use Rattle.json_text.specs.Marks.{Step};
    ghost use Rattle.json_text.specs.declared.step.JsonAnswer.TheVariants as answer_;
    ghost use Rattle.json_text.specs.declared.step.Verdict.{Verdict as Said};
    ghost use Rattle.json_text.specs.Reading.{Reads, BadAt};
    ghost use Rattle.json_text.specs.Scanner.{Stands, Holds, Answers, IsNearer, KeepsContent, fed, has_ended, has_failed, most_steps};
    ghost use Rattle.json_text.specs.Scanner as scanner;
    ghost use Rattle.json_text.specs.Told.{Told};

    /// A scanner of a text of which nothing has come yet.
    pub fn new(alloc: Global) -> Self
        ensures value { Stands result [] false [] }
        ensures fed { fed result ≡ 0 }
        ensures ended { has_ended result ≡ false }
        ensures works { has_failed result ≡ false }
        ensures content { scanner.content result ≡ [] }
    {
        Scanner {
            input: Vec::new(alloc),
            machine: Machine::new(alloc),
            read: 0,
            before: 0,
            ended: false,
            failed: false,
        }
    }

    /// The content of the last name, text or number that was given.
    pub fn text(&self) -> &[u8]
        ensures value { result.now ≡ scanner.content self.now }
    {
        self.machine.text.as_slice()
    }

    /// Says that no more comes.
    pub fn end(&mut self)
        ensures value { (bytes : List ℕ) (ended : Bool) (steps : List Step) →
            Stands self.old bytes ended steps → Stands self.new bytes true steps }
        ensures fed { fed self.new ≡ fed self.old }
        ensures ended { has_ended self.new ≡ true }
        ensures works { has_failed self.new ≡ has_failed self.old }
        ensures content { scanner.content self.new ≡ scanner.content self.old }
    {
        self.ended = true;
    }

    /// Forgets bytes that were scanned, where there are as many as are left.
    fn forget(&mut self)
        ensures pending { scanner.pending self.new ≡ scanner.pending self.old }
        ensures fed { fed self.new ≡ fed self.old }
        ensures ended { has_ended self.new ≡ has_ended self.old }
        ensures failed { has_failed self.new ≡ has_failed self.old }
        ensures machine { self.new.machine ≡ self.old.machine }
    {
        let n = self.input.len();
        if self.read == n {
            self.before += n as u64;
            self.read = 0;
            self.input.clear();
        } else if self.read >= n - self.read {
            let read = self.read;
            self.before += read as u64;
            self.read = 0;
            self.input.rotate_left(read);
            self.input.truncate(n - read);
        }
    }

    /// Takes the next piece of the text. Fewer than 2^63 bytes may come in all, and none behind
    /// the end. Where memory is wanting, every later call says so too.
    pub fn feed(&mut self, piece: &[u8]) -> Result<(), AllocError>
        requires open { has_ended self.old ≡ false }
        requires few { fed self.old + length piece.now < 2 ^ 63 }
        ensures value { (bytes : List ℕ) (steps : List Step) → Stands self.old bytes false steps →
            OnOk result (Stands self.new (bytes ++ piece.now) false steps) }
        ensures fed { OnOk result (fed self.new ≡ fed self.old + length piece.now) }
        ensures ended { has_ended self.new ≡ false }
        ensures content { scanner.content self.new ≡ scanner.content self.old }
        ensures works { OnOk result (has_failed self.new ≡ false) }
        ensures fails { OnErr result (has_failed self.new ≡ true) }
        ensures kept { OnErr result (fed self.new ≡ fed self.old) }
        ensures refused { has_failed self.old ≡ true → IsErr result }
    {
        if self.failed {
            return Err(AllocError);
        }
        self.failed = true;
        self.forget();
        self.input.extend_from_slice(piece)?;
        self.failed = false;
        Ok(())
    }

    /// How many bytes were scanned.
    fn at(&self) -> u64
        ensures value { result ≡ self.now.before + self.now.read }
    {
        self.before + self.read as u64
    }

    /// Reads the next byte, or answers.
    fn step(&mut self) -> Result<Option<JsonAnswer>, AllocError>
        requires left { self.old.read < vec_len self.old.input }
        ensures value { (bytes : List ℕ) (steps : List Step) → Holds self.old bytes steps →
            IfOk result (λ found. MatchOption found (Holds self.new bytes steps)
            (λ answer. Told answer self.new bytes steps)) }
        ensures read { IfOk result (λ found. IsNone found → self.new.read ≡ self.old.read + 1) }
        ensures nearer { IfOk result (λ found.
            MatchOption found (most_steps self.new < most_steps self.old)
            (λ answer. IsNearer answer self.old self.new)) }
        ensures input { self.new.input ≡ self.old.input }
        ensures before { self.new.before ≡ self.old.before }
        ensures ended { has_ended self.new ≡ has_ended self.old }
        ensures failed { has_failed self.new ≡ has_failed self.old }
        ensures kept { IfOk result (λ found.
            MatchOption found (scanner.content self.new ≡ scanner.content self.old)
            (λ answer. KeepsContent answer self.old self.new)) }
        ensures err { OnErr result (scanner.content self.new ≡ scanner.content self.old) }
    {
        let b = self.input[self.read];
        match self.machine.take(b)? {
            Taken::Read => {
                self.read += 1;
                Ok(None)
            }
            Taken::Given(step) => {
                self.read += 1;
                Ok(Some(JsonAnswer::Step(step)))
            }
            Taken::First => Ok(Some(JsonAnswer::Step(JsonStep::Number))),
            Taken::Stuck => Ok(Some(JsonAnswer::Verdict(Verdict::BadAt(self.at())))),
        }
    }

    /// Where nothing is left, takes the end or wants more.
    fn last(&mut self) -> JsonAnswer
        requires none { self.old.read ≡ vec_len self.old.input }
        ensures value { (bytes : List ℕ) (steps : List Step) → Holds self.old bytes steps →
            Told result self.new bytes steps }
        ensures fed { fed self.new ≡ fed self.old }
        ensures ended { has_ended self.new ≡ has_ended self.old }
        ensures failed { has_failed self.new ≡ has_failed self.old }
        ensures nearer { IsNearer result self.old self.new }
        ensures kept { KeepsContent result self.old self.new }
    {
        if !self.ended {
            return JsonAnswer::Verdict(Verdict::More);
        }
        match self.machine.take_end() {
            Ending::Number => JsonAnswer::Step(JsonStep::Number),
            Ending::Whole => JsonAnswer::Verdict(Verdict::Whole),
            Ending::Stuck => JsonAnswer::Verdict(Verdict::BadAt(self.at())),
        }
    }

    /// Reads on to the next step, or to the verdict.
    fn scan(&mut self) -> Result<JsonAnswer, AllocError>
        ensures value { (bytes : List ℕ) (steps : List Step) → Holds self.old bytes steps →
            IfOk result (λ answer. Told answer self.new bytes steps) }
        ensures fed { fed self.new ≡ fed self.old }
        ensures ended { has_ended self.new ≡ has_ended self.old }
        ensures failed { has_failed self.new ≡ has_failed self.old }
        ensures nearer { IfOk result (λ answer. IsNearer answer self.old self.new) }
        ensures kept { IfOk result (λ answer. KeepsContent answer self.old self.new) }
        ensures err { OnErr result (scanner.content self.new ≡ scanner.content self.old) }
    {
        'symbols: while self.read < self.input.len() {
            self.advance()?;
            if self.read < self.input.len() {
                if let Some(answer) = self.step()? {
                    return Ok(answer);
                }
            }
        }
        Ok(self.last())
    }

    /// The next fixed step of the text, or the verdict where there is none. Where memory is
    /// wanting, every later call says so too.
    pub fn next(&mut self) -> Result<JsonAnswer, AllocError>
        // Either the next step, which is fixed, or the verdict behind all fixed steps.
        ensures value { (bytes : List ℕ) (ended : Bool) (steps : List Step) →
            Stands self.old bytes ended steps →
            IfOk result (λ answer. Answers answer self.new bytes ended steps) }
        // Once all fixed steps were given, the verdict and nothing else, at this call and at each
        // later one.
        ensures exact { (bytes : List ℕ) (ended : Bool) (steps : List Step) (verdict : Said) →
            Stands self.old bytes ended steps → Reads bytes ended steps verdict →
            IfOk result (λ answer. answer ≡ answer_.Verdict verdict) }
        // What is bad stays bad at the same byte for ever, also where more was fed since, or the
        // end was said.
        ensures stays { (bytes more : List ℕ) (ended : Bool) (steps : List Step) (at : ℕ) →
            Stands self.old (bytes ++ more) ended steps → Reads bytes false steps (BadAt at) →
            IfOk result (λ answer. answer ≡ answer_.Verdict (BadAt at)) }

        // So the steps that come before more is fed are few, and a loop over them ends.
        ensures nearer { IfOk result (λ answer. IsNearer answer self.old self.new) }

        ensures fed { fed self.new ≡ fed self.old }
        ensures ended { has_ended self.new ≡ has_ended self.old }
        ensures content { IfOk result (λ answer. KeepsContent answer self.old self.new) }
        ensures kept { OnErr result (scanner.content self.new ≡ scanner.content self.old) }

        ensures works { OnOk result (has_failed self.new ≡ false) }
        ensures fails { OnErr result (has_failed self.new ≡ true) }
        ensures refused { has_failed self.old ≡ true → IsErr result }
    {
        if self.failed {
            return Err(AllocError);
        }
        self.failed = true;
        let answer = self.scan()?;
        self.failed = false;
        Ok(answer)
    }
}
