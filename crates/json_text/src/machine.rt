//! What a scanner keeps beside the bytes, and how a symbol changes it.

ghost use Rattle.std.specs.Prelude.{◌≤◌, vec_len};

use crate::bytes::{is_space, letter_after, letters_after, may_end, next_part};
use crate::given::word_step;
use crate::mode::{Bracket, Ending, Letters, Mode, Part, Place, Taken};
use std::alloc::{AllocError, Global};
use std::mem;

/// The place in the text, the open brackets, and the content of the text or number that is read
/// and of the last that was given.
pub struct Machine {
    pub opens: Vec<Bracket>,
    pub content: Vec<u8>,
    pub text: Vec<u8>,
    pub mode: Mode,
    ghost shallow: { vec_len opens ≤ 64 },
}

impl Drop for Machine {
    fn drop(self) {
        let Machine {
            opens: _,
            content: _,
            text: _,
            mode: _,
        } = self;
    }
}

impl Machine {
    ghost use Rattle.std.specs.Prelude.{◌≡◌, [], ◌==◌, cond, IfOk, OnErr, Some, None};
    ghost use Rattle.json_text.specs.declared.mode.Mode.TheVariants as mode_;
    ghost use Rattle.json_text.specs.Bytes as bytes_;
    ghost use Rattle.json_text.specs.Rest as rest;
    ghost use Rattle.json_text.specs.Machine as machine;
    ghost use Rattle.json_text.specs.Marks.{Byte, End};
    ghost use Rattle.json_text.specs.Machine.{move_by, Reads, Gives, Stuck};
    ghost use Rattle.json_text.specs.Taking.{MaySpace, end_move_of, EndStays, kept_of, Takes};

    /// Before any symbol.
    pub fn new(alloc: Global) -> Self
        ensures mode { result.mode ≡ mode_.Value }
        ensures opens { result.opens.items ≡ [] }
        ensures content { result.content.items ≡ [] }
        ensures text { result.text.items ≡ [] }
    {
        Machine {
            opens: Vec::new(alloc),
            content: Vec::new(alloc),
            text: Vec::new(alloc),
            mode: Mode::Value,
        }
    }

    /// In a word.
    fn word(&mut self, letters: Letters, b: u8) -> Result<Taken, AllocError>
        ensures exact { IfOk result (Takes self.old self.new
            (cond (b == machine.letter_after letters)
            (machine.word_move letters (machine.letters_after letters) (kept_of self.old)) Stuck)) }
        ensures kept { OnErr result (self.new.text.items ≡ self.old.text.items) }
    {
        if b != letter_after(letters) {
            return Ok(Taken::Stuck);
        }
        match letters_after(letters) {
            Some(more) => {
                self.mode = Mode::Word(more);
                Ok(Taken::Read)
            }
            None => {
                self.mode = Mode::After;
                Ok(Taken::Given(word_step(letters)))
            }
        }
    }

    /// Gives the number that ends here.
    fn give_number(&mut self)
        ensures opens { self.new.opens.items ≡ self.old.opens.items }
        ensures text { self.new.text.items ≡ self.old.content.items }
        ensures content { self.new.content.items ≡ [] }
        ensures mode { self.new.mode ≡ mode_.After }
    {
        mem::swap(&mut self.content, &mut self.text);
        self.content.clear();
        self.mode = Mode::After;
    }

    /// In a number.
    fn number(&mut self, part: Part, b: u8) -> Result<Taken, AllocError>
        ensures exact { IfOk result (Takes self.old self.new
            (machine.number_move part (rest.part_after part (bytes_.kind_of b))
            (kept_of self.old) b)) }
        ensures kept { OnErr result (self.new.text.items ≡ self.old.text.items) }
    {
        match next_part(part, b) {
            Some(next) => {
                self.content.push(b)?;
                self.mode = Mode::Number(next);
                Ok(Taken::Read)
            }
            None if may_end(part) => {
                self.give_number();
                Ok(Taken::First)
            }
            None => Ok(Taken::Stuck),
        }
    }

    /// In a place where white space may stand.
    fn spaced(&mut self, b: u8) -> Result<Taken, AllocError>
        requires place { MaySpace self.old.mode }
        ensures exact { IfOk result (Takes self.old self.new
            (machine.byte_move self.old.mode (kept_of self.old) b)) }
        ensures kept { OnErr result (self.new.text.items ≡ self.old.text.items) }
    {
        if is_space(b) {
            return Ok(Taken::Read);
        }
        match self.mode {
            Mode::Value => self.start(b),
            Mode::First => self.first(b),
            Mode::After => self.after(b),
            Mode::Name => self.name(b),
            _ => self.colon(b),
        }
    }

    /// Behind the name of a member.
    fn colon(&mut self, b: u8) -> Result<Taken, AllocError>
        ensures exact { IfOk result (Takes self.old self.new
            (cond (b == 58) (Reads mode_.Value (kept_of self.old)) Stuck)) }
        ensures kept { OnErr result (self.new.text.items ≡ self.old.text.items) }
    {
        if b != 58 {
            return Ok(Taken::Stuck);
        }
        self.mode = Mode::Value;
        Ok(Taken::Read)
    }

    /// Takes the next byte.
    pub fn take(&mut self, b: u8) -> Result<Taken, AllocError>
        ensures exact { IfOk result (Takes self.old self.new
            (move_by self.old.mode (kept_of self.old) (Byte b))) }
        ensures kept { OnErr result (self.new.text.items ≡ self.old.text.items) }
    {
        match self.mode {
            // Most texts end behind plain bytes, which a run has read.
            Mode::Text(role, Place::Chars(None)) if b == 34 => self.unquote(role, None),
            Mode::Text(role, place) => self.place(role, place, b),
            Mode::Number(part) => self.number(part, b),
            Mode::Word(letters) => self.word(letters, b),
            Mode::Value | Mode::First | Mode::After | Mode::Name | Mode::Colon => self.spaced(b),
        }
    }

    /// Takes the end of the text.
    pub fn take_end(&mut self) -> Ending
        ensures moves { end_move_of result self.new ≡ move_by self.old.mode (kept_of self.old) End }
        ensures stays { EndStays result self.old self.new }
    {
        match self.mode {
            Mode::After if self.opens.is_empty() => Ending::Whole,
            Mode::Number(part) if may_end(part) => {
                self.give_number();
                Ending::Number
            }
            _ => Ending::Stuck,
        }
    }
}
